//! Texts of many rows, which go out in blocks.

ghost use Rattle.std.specs.Prelude.{◌≡◌, ℕ, ◌+◌, ◌-◌, ◌*◌, ◌<◌, ◌≤◌, List, ◌++◌, [], length, OnOk, OnErr};
ghost use Rattle.run_io.specs.Texts.{lines_below, lines_from};
ghost use Rattle.run_io.specs.Told.{HasCause, Writes, WritesFront};

use crate::{BLOCK, Block, Failed, Sink};

/// How many bytes a row has at most: a line of four numbers.
pub const ROW: usize = 85;

// How many rows a block has room for, however long they are.
const ROWS: usize = BLOCK / ROW;

/// The rows of a text. What it takes to find one is counted by a counter.
pub trait Rows<C> {
    /// How many rows there are.
    ghost count: { Self → ℕ };

    /// The text of a row.
    ghost text: { Self → ℕ → List ℕ };

    /// How much a counter has counted.
    ghost counted: { C → ℕ };

    /// How much a row counts.
    ghost cost: { ℕ };

    /// Puts a row before the text of a block.
    fn put(&self, place: usize, block: &mut Block, counter: &mut C)
        requires listed { place < count self.now }
        requires room { length block.old + ROW ≤ BLOCK }
        ensures text { block.new ≡ text self.now place ++ block.old }
        ensures short { length block.new ≤ length block.old + ROW }
        ensures counts { counted counter.new ≡ counted counter.old + cost };
}

/// Writes all rows of a text, of which there are `count`. After a failure a front of them was written.
pub fn write_rows<C, R: Rows<C>, K: Sink>(
    out: &mut K,
    rows: &R,
    count: usize,
    counter: &mut C,
) -> Result<(), Failed>
    requires { count ≡ R.count rows.now }
    ensures ok { OnOk result (Writes (K.told out.old) (K.told out.new)
        (lines_below (R.text rows.now) count)) }
    ensures failed { OnErr result (WritesFront (K.told out.old) (K.told out.new)
        (lines_below (R.text rows.now) count)) }
    ensures cause { HasCause (K.told out.old) (K.told out.new) result }
    ensures counts { R.counted counter.new ≤ R.counted counter.old + R.cost * count }
{
    let mut block = Block::new();
    let mut from = 0;
    while from < count {
        let to = from + ROWS.min(count - from);
        put_rows(&mut block, rows, from, to, counter);
        block.flush(out)?;
        from = to;
    }
    Ok(())
}

// Puts the rows `from..to` on an empty block.
fn put_rows<C, R: Rows<C>>(block: &mut Block, rows: &R, from: usize, to: usize, counter: &mut C)
    requires empty { block.old ≡ [] }
    requires ordered { from ≤ to }
    requires few { to ≤ from + ROWS }
    requires listed { to ≤ R.count rows.now }
    ensures text { block.new ≡ lines_from (R.text rows.now) from (to - from) }
    ensures counts { R.counted counter.new ≡ R.counted counter.old + R.cost * (to - from) }
{
    for place in (from..to).rev() {
        rows.put(place, block, counter);
    }
}
