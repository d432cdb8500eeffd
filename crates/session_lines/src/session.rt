//! How a session is held.

ghost use Rattle.std.specs.Prelude.{◌≡◌, ◌<◌, IfSome, length, position};
ghost use Rattle.restrictions.specs.Edits.{is_line_feed};
ghost use Rattle.session_lines.specs.Feeding.{Feeds, Finishes, ending_of};
ghost use Rattle.session_lines.specs.Sessions.{IsHeld};

use crate::kept::KeptLine;
use crate::{Ending, Responder, Stop};
use restrictions::without_cr;
use run_io::{Sink, Source};
use std::sync::ledger::Ledger;
use unit_rules::{MOST_BYTES, Steps};

// How many bytes are read at a time.
const PIECE: usize = 4096;

/// Answers each line of the input, in order, before more of it is read.
pub fn answer_lines<R: Responder, I: Source, K: Sink, L: Ledger>(
    responder: &mut R,
    input: &mut I,
    out: &mut K,
    steps: &mut Steps<L>,
) -> Ending
    requires { R.law (R.stands responder.old) }
    ensures { IsHeld R.dialogue (R.stands responder.old) (I.told input.old) (I.told input.new)
        (K.told out.old) (K.told out.new) steps.old steps.new result }
{
    let mut piece = [0u8; PIECE];
    let mut line = KeptLine::new();
    let mut room = MOST_BYTES as usize;
    loop {
        let count = match input.read(&mut piece) {
            Ok(count) => count,
            Err(_) => return Ending::ReadFault,
        };
        if count == 0 {
            return match finish(responder, &line, out, steps) {
                Ok(()) => Ending::Done,
                Err(stop) => ending_of(stop),
            };
        }
        let fits = count.min(room);
        match feed(responder, &mut line, &piece[..fits], out, steps) {
            Ok(()) => {}
            Err(stop) => return ending_of(stop),
        }
        if count > room {
            return Ending::TooLong;
        }
        room -= count;
    }
}

// Answers each line that ends in a piece of the input, and keeps the beginning of the next.
fn feed<R: Responder, K: Sink, L: Ledger>(
    responder: &mut R,
    line: &mut KeptLine,
    piece: &[u8],
    out: &mut K,
    steps: &mut Steps<L>,
) -> Result<(), Stop>
    requires { R.law (R.stands responder.old) }
    ensures { Feeds R.dialogue R.law (R.stands responder.old) (R.stands responder.new)
        line.old line.new piece.now (K.told out.old) (K.told out.new) steps.old steps.new result }
{
    let mut rest = piece;
    loop {
        let Some(end) = position_of_line_feed(rest) else {
            line.extend(rest);
            return Ok(());
        };
        line.extend(&rest[..end]);
        match responder.respond(without_cr(line.bytes()), out, steps) {
            Ok(()) => line.clear(),
            Err(stop) => return Err(stop),
        }
        rest = &rest[end + 1..];
    }
}

// Answers the line behind the last LF, if it has any bytes.
fn finish<R: Responder, K: Sink, L: Ledger>(
    responder: &mut R,
    line: &KeptLine,
    out: &mut K,
    steps: &mut Steps<L>,
) -> Result<(), Stop>
    requires { R.law (R.stands responder.old) }
    ensures { Finishes R.dialogue (R.stands responder.old) line.now
        (K.told out.old) (K.told out.new) steps.old steps.new result }
{
    let line = line.bytes();
    if line.is_empty() {
        return Ok(());
    }
    responder.respond(without_cr(line), out, steps)
}

// Where the first LF of a text stands.
fn position_of_line_feed(text: &[u8]) -> Option<usize>
    ensures found { result ≡ position is_line_feed text.now }
    ensures bound { IfSome result (λ end. end < length text.now) }
{
    text.iter().position(|b| *b == b'\n')
}

// How a session ends where an answer was stopped.
fn ending_of(stop: Stop) -> Ending
    ensures { result ≡ ending_of stop }
{
    match stop {
        Stop::Write => Ending::WriteFault,
        Stop::Memory => Ending::Memory,
    }
}
