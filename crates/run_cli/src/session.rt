//! The form `session`: a reply to each line of the input, over a train on a line by a plan.

ghost use Rattle.std.specs.Prelude.{◌≡◌, ◌≤◌, ◌+◌, ◌*◌, [], IfOk, Some};
ghost use Rattle.run_cli.specs.Ends.{outside};
ghost use Rattle.run_cli.specs.Forms.{meaning_of};
ghost use Rattle.run_cli.specs.Serves.{Closes, Holds, IsServed};
ghost use Rattle.run_words.specs.Requests.{session_view};
ghost use Rattle.session_replies.specs.Cases.{IsLawfulCase, case_of};

use crate::form::refuse;
use run_files::{Case, INPUT, Status, load_case};
use run_io::{Shelf, Sink, Source};
use run_words::{CaseForm, SessionForm};
use session_lines::{Ending, answer_lines};
use session_replies::Session;
use std::alloc::Global;
use std::sync::ledger::Ledger;
use unit_rules::{Memory, Steps};

/// Serves a session. Its files are read, and all memory but that of timetables is taken, before the
/// first byte of the input.
pub(crate) fn serve_session<S: Shelf, I: Source, K: Sink, L: Ledger>(
    alloc: Global,
    form: &SessionForm<'_>,
    shelf: &mut S,
    input: &mut I,
    out: &mut K,
    steps: &mut Steps<L>,
) -> Status
    ensures { IsServed (meaning_of (Some (session_view form.now)))
        (outside (S.told shelf.old) (I.told input.old) (K.told out.old))
        (outside (S.told shelf.new) (I.told input.new) (K.told out.new))
        steps.old steps.new (S.asked shelf.old) (S.asked shelf.new) result }
{
    let names = CaseForm {
        line: form.line,
        stock: form.stock,
        plan: form.plan,
        edits: None,
    };
    match load_case(alloc, shelf, &names) {
        Ok(case) => hold(alloc, case, input, out, steps),
        Err(status) => refuse(status, out),
    }
}

// Holds a session over a case, in which nothing is in force at first.
fn hold<I: Source, K: Sink, L: Ledger>(
    alloc: Global,
    case: Case,
    input: &mut I,
    out: &mut K,
    steps: &mut Steps<L>,
) -> Status
    ensures { Holds (case_of case.line case.stock case.plan []) (I.told input.old)
        (I.told input.new) (K.told out.old) (K.told out.new) steps.old steps.new result }
{
    match open_session(alloc, case, steps) {
        Ok(mut session) => close(answer_lines(&mut session, input, out, steps), out),
        Err(Memory) => Status::Memory,
    }
}

/// Opens a session over a case, in which nothing is in force at first.
pub(crate) fn open_session<L: Ledger>(
    alloc: Global,
    case: Case,
    steps: &mut Steps<L>,
) -> Result<Session, Memory>
    ensures case { IfOk result (λ s. s ≡ case_of case.line case.stock case.plan []) }
    ensures law { IfOk result IsLawfulCase }
    ensures cost { steps.new ≤ steps.old + 35 * (case.line.length + 1) }
{
    let Case {
        line,
        stock,
        plan,
        ..
    } = case;
    Session::new(alloc, line, stock, plan, steps)
}

// Tells the end of a session.
fn close<K: Sink>(ending: Ending, out: &mut K) -> Status
    ensures { Closes ending (K.told out.old) (K.told out.new) result }
{
    match ending {
        Ending::Done => Status::Done,
        Ending::TooLong => refuse(Status::TooLong { file: INPUT }, out),
        Ending::ReadFault => Status::ReadFault,
        Ending::WriteFault => Status::WriteFault,
        Ending::Memory => Status::Memory,
    }
}
