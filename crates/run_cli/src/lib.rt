//! The top call of rtime: it runs the words of a command line over a shelf of files, an input and an
//! output, and says how it ended.
#![tactic(auto)]

ghost use Rattle.std.specs.Prelude.{◌≡◌, Some, map, string_bytes};
ghost use Rattle.run_files.specs.Loads.{AsksOnce};
ghost use Rattle.run_cli.specs.Ends.{EndsAs, HasCause, IsComplete, TakesInput, TakesSteps, outside};
ghost use Rattle.run_cli.specs.Forms.{WordsAnswerOnce, meaning_of, meant_by};
ghost use Rattle.run_cli.specs.Laws.{PrintedAreValid, RepliedAreValid};
ghost use Rattle.run_cli.specs.Serves.{IsServed};
ghost use Rattle.run_words.specs.Requests.{view};

mod brakes;
mod caps;
mod cert_report;
mod check;
mod envelope;
mod form;
mod made;
mod plan;
mod report;
mod rise;
mod rise_report;
mod session;
mod stock;
mod timetable_report;

use crate::form::{refuse, serve};
use crate::made::serve_made;
use crate::session::serve_session;
pub use made_cases::{Made, make_case};
pub use run_files::Status;
use run_io::{Shelf, Sink, Source};
use run_words::{Request, read_request};
use std::alloc::Global;
use std::sync::ledger::Ledger;
use unit_rules::{Memory, Steps};

/// Runs the words of a command line, which don't hold the program's own name, and says how it ended.
/// All text goes to `out`; every status but want of memory and the two faults says that it was
/// written whole. Each evaluation of the step rule is counted in `steps`.
pub fn run<S: Shelf, I: Source, K: Sink, L: Ledger>(
    alloc: Global,
    words: &[String],
    shelf: &mut S,
    input: &mut I,
    out: &mut K,
    steps: &mut Steps<L>,
) -> Status
    ensures ends { EndsAs (meant_by (map string_bytes words.now))
        (outside (S.told shelf.old) (I.told input.old) (K.told out.old))
        (outside (S.told shelf.new) (I.told input.new) (K.told out.new)) result }
    ensures causes { HasCause (meant_by (map string_bytes words.now))
        (outside (S.told shelf.old) (I.told input.old) (K.told out.old))
        (outside (S.told shelf.new) (I.told input.new) (K.told out.new)) result }
    ensures complete { IsComplete (meant_by (map string_bytes words.now))
        (outside (S.told shelf.old) (I.told input.old) (K.told out.old))
        (outside (S.told shelf.new) (I.told input.new) (K.told out.new)) result }
    ensures takes { TakesInput (meant_by (map string_bytes words.now))
        (outside (S.told shelf.old) (I.told input.old) (K.told out.old))
        (outside (S.told shelf.new) (I.told input.new) (K.told out.new)) result }
    ensures steps { TakesSteps (meant_by (map string_bytes words.now))
        (outside (S.told shelf.old) (I.told input.old) (K.told out.old))
        (outside (S.told shelf.new) (I.told input.new) (K.told out.new)) steps.old steps.new }
    ensures asks { AsksOnce ((meant_by (map string_bytes words.now)).reads (S.told shelf.old).holds)
        (S.asked shelf.old) (S.asked shelf.new) }
{
    serve_words(alloc, words, shelf, input, out, steps)
}

/// The laws of answers that follow from the definitions alone. No words over any files and any input
/// have two, so a run that ends with its whole text ends with the one status and the one text that
/// there can be. And a certificate that is printed, by `plan` or by a session, is valid where it is
/// checked over files that read as the same case.
pub fn laws_of_answers()
    ensures once { WordsAnswerOnce }
    ensures printed { PrintedAreValid }
    ensures replied { RepliedAreValid }
{}

// Reads the words, and serves what they ask for.
fn serve_words<S: Shelf, I: Source, K: Sink, L: Ledger>(
    alloc: Global,
    words: &[String],
    shelf: &mut S,
    input: &mut I,
    out: &mut K,
    steps: &mut Steps<L>,
) -> Status
    ensures { IsServed (meant_by (map string_bytes words.now))
        (outside (S.told shelf.old) (I.told input.old) (K.told out.old))
        (outside (S.told shelf.new) (I.told input.new) (K.told out.new))
        steps.old steps.new (S.asked shelf.old) (S.asked shelf.new) result }
{
    match read_request(alloc, words) {
        Ok(None) => refuse(Status::Usage, out),
        Ok(Some(request)) => serve_request(alloc, request, shelf, input, out, steps),
        Err(Memory) => Status::Memory,
    }
}

// Serves what is asked for.
fn serve_request<S: Shelf, I: Source, K: Sink, L: Ledger>(
    alloc: Global,
    request: Request<'_>,
    shelf: &mut S,
    input: &mut I,
    out: &mut K,
    steps: &mut Steps<L>,
) -> Status
    ensures { IsServed (meaning_of (Some (view request.entry)))
        (outside (S.told shelf.old) (I.told input.old) (K.told out.old))
        (outside (S.told shelf.new) (I.told input.new) (K.told out.new))
        steps.old steps.new (S.asked shelf.old) (S.asked shelf.new) result }
{
    match request {
        Request::Caps(form) => serve(alloc, &form, shelf, input, out, steps),
        Request::Stock(form) => serve(alloc, &form, shelf, input, out, steps),
        Request::Rise(form) => serve(alloc, &form, shelf, input, out, steps),
        Request::Brakes(form) => serve(alloc, &form, shelf, input, out, steps),
        Request::Envelope(form) => serve(alloc, &form, shelf, input, out, steps),
        Request::Plan(form) => serve(alloc, &form, shelf, input, out, steps),
        Request::Check(form) => serve(alloc, &form, shelf, input, out, steps),
        Request::Session(form) => serve_session(alloc, &form, shelf, input, out, steps),
        Request::Gen(form) => serve_made(alloc, &form, out, steps),
    }
}
