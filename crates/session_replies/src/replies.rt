//! What is written for a line.

ghost use Rattle.std.specs.Prelude.{◌≡◌, ◌≤◌, ◌+◌};
ghost use Rattle.report_text.specs.Replies.{reply_line};
ghost use Rattle.session_replies.specs.Answered.{IsWritten, Tells, last_steps, replied_by};
ghost use Rattle.session_replies.specs.Cases.{IsLawfulCase, case_in};
ghost use Rattle.session_replies.specs.Replies.{answer_text, time_reply, times_text};
ghost use Rattle.session_replies.specs.Room.{HasRoom};
ghost use Rattle.session_replies.specs.Runs.{run_in};

use crate::answers::Answer;
use allowances::planned;
use certificate::write_cert;
use incr_envelope::Envelope;
use report_text::{Reply, write_envelope, write_reach, write_reply, write_timetable};
use run_io::{Failed, Sink};
use session_lines::Stop;
use std::alloc::Global;
use std::sync::ledger::Ledger;
use time_brackets::Bracket;
use unit_rules::{Reach, Steps};

/// Writes the answer that a line of the session of an envelope has come to.
pub(crate) fn write_answer<K: Sink, L: Ledger>(
    alloc: Global,
    envelope: &Envelope,
    answer: Answer,
    out: &mut K,
    steps: &mut Steps<L>,
) -> Result<(), Stop>
    requires lawful { IsLawfulCase (case_in envelope.now) }
    requires kept { HasRoom envelope.now }
    ensures { Tells envelope.now answer (K.told out.old) (K.told out.new)
        steps.old steps.new result }
{
    match answer {
        Answer::Made(_, reach) => reply(Reply::Made(reach), out),
        Answer::Time(arrival) => reply(time_reply(arrival), out),
        Answer::Speeds => write_speeds(envelope, out),
        Answer::Timetable => write_times(alloc, envelope, out, steps),
        Answer::Certificate => write_run(envelope, out),
        Answer::Refused(code) => reply(Reply::Refused(code), out),
    }
}

// Writes a reply of one line.
fn reply<K: Sink>(reply: Reply, out: &mut K) -> Result<(), Stop>
    ensures { (answer : Answer) → IsWritten answer (K.told out.old) (K.told out.new)
        (reply_line reply) result }
{
    replied(write_reply(out, reply))
}

// The reply to a `time`, by when the train comes to the point.
fn time_reply(arrival: Option<Bracket>) -> Reply
    ensures { result ≡ time_reply arrival }
{
    match arrival {
        Some(bracket) => Reply::Time(bracket),
        None => Reply::NoTime,
    }
}

// Writes the squared speeds of the run, or its stall.
fn write_speeds<K: Sink>(envelope: &Envelope, out: &mut K) -> Result<(), Stop>
    ensures { IsWritten Answer.Speeds (K.told out.old) (K.told out.new)
        (answer_text (case_in envelope.now) (run_in envelope.now) Answer.Speeds) result }
{
    let (speeds, reach) = (envelope.speeds(), envelope.reach());
    replied(write_envelope(out, speeds, reach))
}

// Writes the certificate of the run.
fn write_run<K: Sink>(envelope: &Envelope, out: &mut K) -> Result<(), Stop>
    requires lawful { IsLawfulCase (case_in envelope.now) }
    requires kept { HasRoom envelope.now }
    ensures { IsWritten Answer.Certificate (K.told out.old) (K.told out.new)
        (answer_text (case_in envelope.now) (run_in envelope.now) Answer.Certificate) result }
{
    let (brakes, speeds, reach) = (envelope.brake_list(), envelope.speeds(), envelope.reach());
    replied(write_cert(brakes, speeds, reach, out))
}

// Writes the timetable of the run, or its stall.
fn write_times<K: Sink, L: Ledger>(
    alloc: Global,
    envelope: &Envelope,
    out: &mut K,
    steps: &mut Steps<L>,
) -> Result<(), Stop>
    requires kept { HasRoom envelope.now }
    ensures { Tells envelope.now Answer.Timetable (K.told out.old) (K.told out.new)
        steps.old steps.new result }
{
    match envelope.reach() {
        Reach::Whole => write_rows(alloc, envelope, out, steps),
        Reach::Stalled { k } => replied(write_reach(out, Reach::Stalled { k })),
    }
}

// Writes the timetable of a run over the whole line.
fn write_rows<K: Sink, L: Ledger>(
    alloc: Global,
    envelope: &Envelope,
    out: &mut K,
    steps: &mut Steps<L>,
) -> Result<(), Stop>
    requires kept { HasRoom envelope.now }
    requires whole { envelope.now.reach ≡ Reach.Whole }
    ensures { Tells envelope.now Answer.Timetable (K.told out.old) (K.told out.new)
        steps.old steps.new result }
{
    let length = envelope.line().length();
    let (plan, sums, speeds) = (envelope.plan(), envelope.sums(), envelope.speeds());
    let Ok(rows) = planned(alloc, plan, length, sums, speeds, steps) else {
        return Err(Stop::Memory);
    };
    replied(write_timetable(out, &rows, plan))
}

// How a line is answered whose reply is written so.
fn replied(written: Result<(), Failed>) -> Result<(), Stop>
    ensures { result ≡ replied_by written }
{
    match written {
        Ok(()) => Ok(()),
        Err(Failed) => Err(Stop::Write),
    }
}
