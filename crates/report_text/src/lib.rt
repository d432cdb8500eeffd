//! The texts that rtime prints. None of these calls takes memory: each text goes out in blocks, row by
//! row.
#![tactic(auto)]

ghost use Rattle.std.specs.Prelude.{◌≡◌, ◌≤◌, ◌+◌, ◌++◌, [], length, slice_index, OnOk, OnErr};
ghost use Rattle.run_io.specs.Texts.{numbers_text, piece};
ghost use Rattle.run_io.specs.Told.{HasCause, Writes, WritesFront};
ghost use Rattle.report_text.specs.Texts.{bands_line, bands_text, envelope_text, list_text, point_line, reach_text, speed_line, train_line, valid_text};

mod replies;
mod timetable;

pub use replies::{Reply, write_reply};
use run_io::{BLOCK, Block, Failed, ROW, Rows, Sink, write_rows};
use stock_tables::Stock;
pub use timetable::write_timetable;
use unit_rules::Reach;

/// Writes the numbers in decimal, one space between, and a line end.
pub fn write_numbers<K: Sink>(out: &mut K, numbers: &[i64]) -> Result<(), Failed>
    ensures ok { OnOk result (Writes (K.told out.old) (K.told out.new) (numbers_text numbers.now)) }
    ensures failed { OnErr result (WritesFront (K.told out.old) (K.told out.new)
        (numbers_text numbers.now)) }
    ensures cause { HasCause (K.told out.old) (K.told out.new) result }
{
    write_rows(out, &Pieces { numbers }, numbers.len() + 1, &mut ())
}

// The pieces of a line of numbers.
#[derive(Drop)]
struct Pieces<'a> {
    numbers: &'a [i64],
}

impl<'a> Rows<()> for Pieces<'a> {
    ghost count = { λ r. length r.numbers.now + 1 };

    ghost text = { λ r. piece r.numbers.now };

    ghost counted = { λ _. 0 };

    ghost cost = { 0 };

    fn put(&self, place: usize, block: &mut Block, _counter: &mut ()) {
        block.put_piece(self.numbers, place);
    }
}

/// Writes the tables of a train: `MOVED_MASS MASS LENGTH TOP`, and then `K PUSH BRAKING` for each
/// whole km/h up to the top speed.
pub fn write_bands<K: Sink>(out: &mut K, stock: &Stock) -> Result<(), Failed>
    ensures ok { OnOk result (Writes (K.told out.old) (K.told out.new) (bands_text stock.now)) }
    ensures failed { OnErr result (WritesFront (K.told out.old) (K.told out.new)
        (bands_text stock.now)) }
    ensures cause { HasCause (K.told out.old) (K.told out.new) result }
{
    write_rows(out, &Bands { stock }, stock.top() as usize + 2, &mut ())
}

// The lines of the tables of a train.
#[derive(Drop)]
struct Bands<'a> {
    stock: &'a Stock,
}

impl<'a> Rows<()> for Bands<'a> {
    ghost count = { λ r. r.stock.now.top + 2 };

    ghost text = { λ r. bands_line r.stock.now };

    ghost counted = { λ _. 0 };

    ghost cost = { 0 };

    fn put(&self, place: usize, block: &mut Block, _counter: &mut ()) {
        if place == 0 {
            put_train(self.stock, block);
        } else {
            put_speed(self.stock, place - 1, block);
        }
    }
}

// Puts the line of a train's numbers.
fn put_train(stock: &Stock, block: &mut Block)
    requires { length block.old + ROW ≤ BLOCK }
    ensures text { block.new ≡ train_line stock.now ++ block.old }
    ensures short { length block.new ≤ length block.old + ROW }
{
    block.put_line(&[
        stock.moved_mass() as i64,
        stock.mass() as i64,
        stock.length() as i64,
        stock.top() as i64,
    ]);
}

// Puts the line of a whole km/h: the speed, the push and the braking.
fn put_speed(stock: &Stock, kmh: usize, block: &mut Block)
    requires listed { kmh ≤ stock.now.top }
    requires room { length block.old + ROW ≤ BLOCK }
    ensures text { block.new ≡ speed_line stock.now kmh ++ block.old }
    ensures short { length block.new ≤ length block.old + ROW }
{
    let push = stock.push();
    let brake = stock.brake();
    let kmh = kmh as u32;
    block.put_line(&[kmh as i64, push.row(kmh), brake.row(kmh)]);
}

/// Writes a line `POINT NUMBER` for each number of a list by point, from point 0.
pub fn write_list<K: Sink>(out: &mut K, numbers: &[u32]) -> Result<(), Failed>
    ensures ok { OnOk result (Writes (K.told out.old) (K.told out.new) (list_text numbers.now)) }
    ensures failed { OnErr result (WritesFront (K.told out.old) (K.told out.new)
        (list_text numbers.now)) }
    ensures cause { HasCause (K.told out.old) (K.told out.new) result }
{
    write_rows(out, &Points { numbers }, numbers.len(), &mut ())
}

// The lines of a list by point.
#[derive(Drop)]
struct Points<'a> {
    numbers: &'a [u32],
}

impl<'a> Rows<()> for Points<'a> {
    ghost count = { λ r. length r.numbers.now };

    ghost text = { λ r i. point_line i (slice_index r.numbers.now i) };

    ghost counted = { λ _. 0 };

    ghost cost = { 0 };

    fn put(&self, place: usize, block: &mut Block, _counter: &mut ()) {
        block.put_line(&[place as i64, self.numbers[place] as i64]);
    }
}

/// Writes how far a train gets: `whole`, or `stalled K` with the first point that no train gets to.
pub fn write_reach<K: Sink>(out: &mut K, reach: Reach) -> Result<(), Failed>
    ensures ok { OnOk result (Writes (K.told out.old) (K.told out.new) (reach_text reach)) }
    ensures failed { OnErr result (WritesFront (K.told out.old) (K.told out.new)
        (reach_text reach)) }
    ensures cause { HasCause (K.told out.old) (K.told out.new) result }
{
    let mut block = Block::new();
    put_reach(&mut block, reach);
    block.flush(out)
}

/// Writes `valid whole` or `valid stalled K`, and a line end: that a certificate of this reach is right.
pub fn write_valid<K: Sink>(out: &mut K, reach: Reach) -> Result<(), Failed>
    ensures ok { OnOk result (Writes (K.told out.old) (K.told out.new) (valid_text reach)) }
    ensures failed { OnErr result (WritesFront (K.told out.old) (K.told out.new)
        (valid_text reach)) }
    ensures cause { HasCause (K.told out.old) (K.told out.new) result }
{
    let mut block = Block::new();
    put_reach(&mut block, reach);
    block.put(b"valid ");
    block.flush(out)
}

/// Writes the squared speeds of a train that gets over the whole line, by point; or `stalled K` with the
/// first point that no train gets to.
pub fn write_envelope<K: Sink>(out: &mut K, speeds: &[u32], reach: Reach) -> Result<(), Failed>
    ensures ok { OnOk result (Writes (K.told out.old) (K.told out.new)
        (envelope_text speeds.now reach)) }
    ensures failed { OnErr result (WritesFront (K.told out.old) (K.told out.new)
        (envelope_text speeds.now reach)) }
    ensures cause { HasCause (K.told out.old) (K.told out.new) result }
{
    match reach {
        Reach::Whole => write_list(out, speeds),
        Reach::Stalled { .. } => write_reach(out, reach),
    }
}

// Puts how far a train gets on an empty block.
pub(crate) fn put_reach(block: &mut Block, reach: Reach)
    requires { block.old ≡ [] }
    ensures text { block.new ≡ reach_text reach }
    ensures short { length block.new ≤ 29 }
{
    match reach {
        Reach::Whole => block.put(b"whole\n"),
        Reach::Stalled { k } => {
            block.put(b"\n");
            block.put_number(k as u64);
            block.put(b"stalled ");
        }
    }
}
