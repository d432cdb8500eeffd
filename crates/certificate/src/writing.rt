//! Certificates as they are written.

ghost use Rattle.std.specs.Prelude.{◌≡◌, ◌≤◌, ◌+◌, ◌++◌, Ok, length, OnErr, OnOk, slice_get, slice_index};
ghost use Rattle.run_io.specs.Told.{HasCause, Writes, WritesFront};
ghost use Rattle.certificate.specs.Reading.{read_as_cert};
ghost use Rattle.certificate.specs.Rows.{point_row, row_at, verdict_text};
ghost use Rattle.certificate.specs.Texts.{HasPoint, cert_text};

use run_io::{BLOCK, Block, Failed, ROW, Rows, Sink, write_rows};
use unit_rules::Reach;

/// Writes the text of a certificate: a line `C E` for each point, or `C -` from the one on at which
/// `e` has no more numbers, and then `whole` or `stalled K`. It takes no memory.
pub fn write_cert<K: Sink>(c: &[u32], e: &[u32], verdict: Reach, out: &mut K) -> Result<(), Failed>
    requires { length e.now ≤ length c.now }
    ensures ok { OnOk result (Writes (K.told out.old) (K.told out.new)
        (cert_text c.now e.now verdict)) }
    ensures failed { OnErr result (WritesFront (K.told out.old) (K.told out.new)
        (cert_text c.now e.now verdict)) }
    ensures cause { HasCause (K.told out.old) (K.told out.new) result }
    ensures read { read_as_cert (cert_text c.now e.now verdict)
        ≡ Ok (record { c = c.now; e = e.now; verdict = verdict }) }
{
    see_point(verdict);
    write_rows(out, &Lines { c, e, verdict }, c.len() + 1, &mut ())
}

// Every verdict has a text: its point is a number of 32 bits.
fn see_point(verdict: Reach)
    ensures { HasPoint verdict }
{
    match verdict {
        Reach::Whole => {}
        Reach::Stalled { k: _k } => {}
    }
}

// The lines of a certificate.
#[derive(Drop)]
struct Lines<'a> {
    c: &'a [u32],
    e: &'a [u32],
    verdict: Reach,
}

impl<'a> Rows<()> for Lines<'a> {
    ghost count = { λ l. length l.c.now + 1 };

    ghost text = { λ l. row_at l.c.now l.e.now l.verdict };

    ghost counted = { λ _. 0 };

    ghost cost = { 0 };

    fn put(&self, place: usize, block: &mut Block, _counter: &mut ()) {
        if place == self.c.len() {
            put_verdict(self.verdict, block);
        } else {
            put_row(self.c[place], self.e.get(place).copied(), block);
        }
    }
}

// Puts the row of a point.
fn put_row(c: u32, e: Option<u32>, block: &mut Block)
    requires room { length block.old + ROW ≤ BLOCK }
    ensures text { block.new ≡ point_row c e ++ block.old }
    ensures short { length block.new ≤ length block.old + ROW }
{
    match e {
        Some(e) => block.put_line(&[i64::from(c), i64::from(e)]),
        None => {
            block.put(b" -\n");
            block.put_number(u64::from(c));
        }
    }
}

// Puts how far a train gets.
fn put_verdict(verdict: Reach, block: &mut Block)
    requires room { length block.old + ROW ≤ BLOCK }
    ensures text { block.new ≡ verdict_text verdict ++ block.old }
    ensures short { length block.new ≤ length block.old + ROW }
{
    match verdict {
        Reach::Whole => block.put(b"whole\n"),
        Reach::Stalled { k } => {
            block.put(b"\n");
            block.put_number(u64::from(k));
            block.put(b"stalled ");
        }
    }
}
