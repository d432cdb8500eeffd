//! The text of a timetable.

ghost use Rattle.std.specs.Prelude.{◌≡◌, ◌≤◌, ◌<◌, ◌+◌, ◌*◌, ◌++◌, All, IfSome, length, OnOk, OnErr};
ghost use Rattle.run_io.specs.Told.{HasCause, Writes, WritesFront};
ghost use Rattle.report_text.specs.Timetables.{IsCalled, arrival_part, departure_part, kind_word, name_part, pair_text, part_at, row_name, row_part, timetable_text};

use allowances::{Row, RowKind};
use plan_tables::Plan;
use run_io::{BLOCK, Block, Failed, ROW, Rows, Sink, write_rows};

/// Writes a timetable: a line `AT KIND ARRIVE_LO ARRIVE_HI LEAVE_LO LEAVE_HI ADDED PLANNED NAME` for each
/// row, with the point in metres, the ends of both times in nanoseconds, what is added and the planned
/// time in milliseconds, and `-` where the row is no call. It takes no memory.
pub fn write_timetable<K: Sink>(out: &mut K, rows: &[Row], plan: &Plan) -> Result<(), Failed>
    requires { All (IsCalled plan.now) rows.now }
    ensures ok { OnOk result (Writes (K.told out.old) (K.told out.new)
        (timetable_text plan.now rows.now)) }
    ensures failed { OnErr result (WritesFront (K.told out.old) (K.told out.new)
        (timetable_text plan.now rows.now)) }
    ensures cause { HasCause (K.told out.old) (K.told out.new) result }
{
    write_rows(out, &Timetable { rows, plan }, 3 * rows.len(), &mut ())
}

// The rows of a timetable, each in three parts.
#[derive(Drop)]
struct Timetable<'a> {
    rows: &'a [Row],
    plan: &'a Plan,
    ghost called: { All (IsCalled plan.now) rows.now },
}

impl<'a> Rows<()> for Timetable<'a> {
    ghost count = { λ t. 3 * length t.rows.now };

    ghost text = { λ t. part_at t.plan.now t.rows.now };

    ghost counted = { λ _. 0 };

    ghost cost = { 0 };

    fn put(&self, place: usize, block: &mut Block, _counter: &mut ()) {
        put_part(&self.rows[place / 3], place % 3, self.plan, block);
    }
}

// Puts a part of a row.
fn put_part(row: &Row, part: usize, plan: &Plan, block: &mut Block)
    requires called { IsCalled plan.now row.now }
    requires part { part < 3 }
    requires room { length block.old + ROW ≤ BLOCK }
    ensures text { block.new ≡ row_part plan.now row.now part ++ block.old }
    ensures short { length block.new ≤ length block.old + ROW }
{
    match part {
        0 => put_arrival(row, block),
        1 => put_departure(row, block),
        _ => put_name(row, plan, block),
    }
}

// Puts the point of a row, its kind and the arrival.
fn put_arrival(row: &Row, block: &mut Block)
    requires room { length block.old + ROW ≤ BLOCK }
    ensures text { block.new ≡ arrival_part row.now ++ block.old }
    ensures short { length block.new ≤ length block.old + ROW }
{
    put_pair(row.arrive.lo, row.arrive.hi, block);
    block.put(b" ");
    block.put(kind_word(row.kind));
    block.put(b" ");
    block.put_number(u64::from(row.at));
}

// Puts the departure of a row, and what is added and planned there.
fn put_departure(row: &Row, block: &mut Block)
    requires room { length block.old + ROW ≤ BLOCK }
    ensures text { block.new ≡ departure_part row.now ++ block.old }
    ensures short { length block.new ≤ length block.old + ROW }
{
    put_pair(row.added, row.planned, block);
    put_pair(row.leave.lo, row.leave.hi, block);
}

// Puts two numbers, each with a space behind it.
fn put_pair(a: u64, b: u64, block: &mut Block)
    requires room { length block.old + 42 ≤ BLOCK }
    ensures text { block.new ≡ pair_text a b ++ block.old }
    ensures short { length block.new ≤ length block.old + 42 }
{
    block.put(b" ");
    block.put_number(b);
    block.put(b" ");
    block.put_number(a);
}

// Puts the name of a row, and the line end.
fn put_name(row: &Row, plan: &Plan, block: &mut Block)
    requires called { IsCalled plan.now row.now }
    requires room { length block.old + ROW ≤ BLOCK }
    ensures text { block.new ≡ name_part plan.now row.now ++ block.old }
    ensures short { length block.new ≤ length block.old + ROW }
{
    block.put(b"\n");
    block.put(name_in(row, plan));
}

// The name in a row.
fn name_in<'a>(row: &Row, plan: &'a Plan) -> &'a [u8]
    requires { IsCalled plan.now row.now }
    ensures name { result.now ≡ row_name plan.now row.now.call }
    ensures short { length result.now ≤ 60 }
{
    match row.call {
        None => b"-",
        Some(index) => plan.calls()[index as usize].name.bytes(),
    }
}

// The word of a kind of row.
fn kind_word(kind: RowKind) -> &'static [u8]
    ensures word { result.now ≡ kind_word kind }
    ensures short { length result.now ≤ 5 }
{
    match kind {
        RowKind::Start => b"start",
        RowKind::Stop => b"stop",
        RowKind::Pass => b"pass",
        RowKind::End => b"end",
    }
}
