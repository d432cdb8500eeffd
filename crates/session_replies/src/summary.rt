//! The summary of a session whose replies nobody reads.

ghost use Rattle.std.specs.Prelude.{◌≡◌, ◌≤◌, ◌<◌, ◌+◌, ◌^◌, ◌++◌, [], length, OnOk, OnErr};
ghost use Rattle.restrictions.specs.Edits.{lines_of};
ghost use Rattle.run_io.specs.Told.{HasCause, Writes, WritesFront};
ghost use Rattle.session_replies.specs.Cases.{IsLawfulCase};
ghost use Rattle.session_replies.specs.Summaries.{SumsUp, all_in, count_line, last_line, no_tally, stall, summary_text, with_answer};

use crate::answers::{Answer, Change};
use crate::session::Session;
use restrictions::first_line;
use run_io::{BLOCK, Block, Failed, Sink};
use std::sync::ledger::Ledger;
use time_brackets::Bracket;
use unit_rules::{Reach, Steps};

/// How many lines of each kind were accepted.
#[derive(Clone, Copy, Debug, PartialEq, Eq)]
pub struct Tally {
    /// Restrictions that were put in force.
    pub puts: u64,
    /// Restrictions that were taken out of force.
    pub takes: u64,
    /// Times that were asked for.
    pub times: u64,
    /// Puts and takes after which the train was stalled.
    pub stalls: u64,
}

/// What became of a session.
#[derive(Clone, Copy, Debug, PartialEq, Eq)]
pub struct Summary {
    /// The points of the line.
    pub points: u32,
    /// The lines of the session.
    pub commands: u64,
    /// Those that were accepted.
    pub tally: Tally,
    /// When the train comes to the line's last point after the last of them, in nanoseconds, if it does.
    pub last: Option<Bracket>,
}

impl Tally {
    // Nothing yet.
    fn empty() -> Tally
        ensures { result ≡ no_tally }
    {
        Tally {
            puts: 0,
            takes: 0,
            times: 0,
            stalls: 0,
        }
    }

    // Counts a line that has come to an answer.
    fn count(&mut self, answer: Answer)
        requires few { all_in self.old < 2 ^ 63 }
        requires stalls { self.old.stalls ≤ all_in self.old }
        ensures { self.new ≡ with_answer answer self.old }
    {
        match answer {
            Answer::Made(Change::Put, reach) => {
                self.puts += 1;
                self.stalls += stall(reach);
            }
            Answer::Made(Change::Take, reach) => {
                self.takes += 1;
                self.stalls += stall(reach);
            }
            Answer::Time(_) => self.times += 1,
            _ => (),
        }
    }
}

// One for a stall.
fn stall(reach: Reach) -> u64
    ensures stall { result ≡ stall reach }
    ensures one { result ≤ 1 }
{
    match reach {
        Reach::Whole => 0,
        Reach::Stalled { .. } => 1,
    }
}

/// Holds a session over commands, a line each, and sums it up: no reply is written.
pub fn summarize<L: Ledger>(session: &mut Session, commands: &[u8], steps: &mut Steps<L>) -> Summary
    requires lawful { IsLawfulCase session.old }
    ensures { SumsUp session.old (lines_of commands.now) result steps.old steps.new }
{
    let mut tally = Tally::empty();
    let mut count = 0;
    let mut rest = commands;
    while !rest.is_empty() {
        let first = first_line(rest);
        tally.count(session.answer(first.line, steps));
        count += 1;
        rest = first.rest;
    }
    let last_point = session.last_point();
    Summary {
        points: last_point + 1,
        commands: count,
        tally,
        last: session.arrival(last_point, steps),
    }
}

/// Writes a summary: seven lines, each a word and its number, and in the last `none` where the train
/// doesn't come to the end of the line.
pub fn write_summary<K: Sink>(out: &mut K, summary: &Summary) -> Result<(), Failed>
    ensures ok { OnOk result (Writes (K.told out.old) (K.told out.new) (summary_text summary.now)) }
    ensures failed { OnErr result (WritesFront (K.told out.old) (K.told out.new)
        (summary_text summary.now)) }
    ensures cause { HasCause (K.told out.old) (K.told out.new) result }
{
    let mut block = Block::new();
    put_last(&mut block, summary.last);
    put_count(&mut block, b"stalls ", summary.tally.stalls);
    put_count(&mut block, b"times ", summary.tally.times);
    put_count(&mut block, b"takes ", summary.tally.takes);
    put_count(&mut block, b"puts ", summary.tally.puts);
    put_count(&mut block, b"commands ", summary.commands);
    put_count(&mut block, b"points ", summary.points as u64);
    block.flush(out)
}

// Puts a line of a word and a number before the text.
fn put_count(block: &mut Block, word: &[u8], number: u64)
    requires { length block.old + length word.now + 21 ≤ BLOCK }
    ensures text { block.new ≡ count_line word.now number ++ block.old }
    ensures short { length block.new ≤ length block.old + length word.now + 21 }
{
    block.put(b"\n");
    block.put_number(number);
    block.put(word);
}

// Puts the line of the last arrival on an empty block.
fn put_last(block: &mut Block, last: Option<Bracket>)
    requires { block.old ≡ [] }
    ensures text { block.new ≡ last_line last }
    ensures short { length block.new ≤ 100 }
{
    match last {
        Some(bracket) => {
            block.put(b"\n");
            block.put_number(bracket.hi);
            block.put(b" ");
            block.put_number(bracket.lo);
        }
        None => block.put(b"none\n"),
    }
    block.put(b"last ");
}
