//! The form `gen`: the summary of a session over a made-up case.

ghost use Rattle.std.specs.Prelude.{Option, [], Some};
ghost use Rattle.restrictions.specs.Edits.{lines_of};
ghost use Rattle.run_cli.specs.Forms.{meaning_of};
ghost use Rattle.run_cli.specs.Gen.{Sums};
ghost use Rattle.run_cli.specs.Serves.{Works};
ghost use Rattle.run_io.specs.Fetches.{Files};
ghost use Rattle.run_words.specs.Requests.{gen_view};
ghost use Rattle.session_replies.specs.Cases.{case_of};

use crate::Status;
use crate::form::refuse;
use crate::session::open_session;
use made_cases::make_case;
use run_files::{Case, read_case};
use run_io::{Failed, Sink};
use run_words::GenForm;
use session_replies::{summarize, write_summary};
use std::alloc::Global;
use std::sync::ledger::Ledger;
use unit_rules::Steps;

/// Makes the case of a number, and writes the summary of the session over it. It reads no file and no
/// input.
pub(crate) fn serve_made<K: Sink, L: Ledger>(
    alloc: Global,
    form: &GenForm,
    out: &mut K,
    steps: &mut Steps<L>,
) -> Status
    ensures { (told : Option Files) → Works (meaning_of (Some (gen_view form.now))) told
        (K.told out.old) (K.told out.new) steps.old steps.new result }
{
    let Ok(made) = make_case(alloc, form.number as u64) else {
        return Status::Memory;
    };
    match read_case(alloc, &made.line, &made.stock, &made.plan) {
        Ok(case) => sum_up(alloc, case, &made.commands, out, steps),
        Err(status) => refuse(status, out),
    }
}

// Writes the summary of a session over a case, in which nothing is in force at first.
fn sum_up<K: Sink, L: Ledger>(
    alloc: Global,
    case: Case,
    commands: &[u8],
    out: &mut K,
    steps: &mut Steps<L>,
) -> Status
    ensures { Sums (case_of case.line case.stock case.plan []) (lines_of commands.now)
        (K.told out.old) (K.told out.new) steps.old steps.new result }
{
    let Ok(mut session) = open_session(alloc, case, steps) else {
        return Status::Memory;
    };
    let summary = summarize(&mut session, commands, steps);
    match write_summary(out, &summary) {
        Ok(()) => Status::Done,
        Err(Failed) => Status::WriteFault,
    }
}
