//! How the commands of a session are carried out.

ghost use Rattle.std.specs.Prelude.{◌≡◌};
ghost use Rattle.line_tables.specs.Points.{find_point};
ghost use Rattle.restrictions.specs.Commands.{IsOn};
ghost use Rattle.restrictions.specs.Force.{put_in, without, zone_of};
ghost use Rattle.unit_rules.specs.Zone.{LiesOn};
ghost use Rattle.session_replies.specs.Answered.{Comes};
ghost use Rattle.session_replies.specs.Asked.{asked, asked_by, asked_put, asked_take, asked_time};
ghost use Rattle.session_replies.specs.Cases.{case_in};
ghost use Rattle.session_replies.specs.Room.{HasRoom};

use crate::answers::{Answer, Change};
use incr_envelope::Envelope;
use restrictions::{Command, Id, read_command};
use std::sync::ledger::Ledger;
use unit_rules::{Steps, Zone};

/// The code of a `time` of a point that the line hasn't.
const UNKNOWN_POINT: u32 = 7;

/// Does what a line of the session of an envelope asks for, but for what is written.
pub(crate) fn answer_line<L: Ledger>(
    envelope: &mut Envelope,
    line: &[u8],
    steps: &mut Steps<L>,
) -> Answer
    requires kept { HasRoom envelope.old }
    ensures comes { Comes envelope.old envelope.new (asked (case_in envelope.old) line.now)
        result steps.old steps.new }
    ensures kept { HasRoom envelope.new }
{
    match read_command(line, envelope.line().length()) {
        Ok(command) => carry_out(envelope, command, line, steps),
        Err(fault) => Answer::Refused(fault.code()),
    }
}

// Carries out a command that is a line of the session.
fn carry_out<L: Ledger>(
    envelope: &mut Envelope,
    command: Command,
    line: &[u8],
    steps: &mut Steps<L>,
) -> Answer
    requires kept { HasRoom envelope.old }
    requires on { IsOn envelope.old.line.length line.now command }
    ensures comes { Comes envelope.old envelope.new
        (asked_by (case_in envelope.old) line.now command) result steps.old steps.new }
    ensures kept { HasRoom envelope.new }
{
    match command {
        Command::Put { id, zone } => put(envelope, id, zone, steps),
        Command::Take { id } => take(envelope, id, steps),
        Command::Time { start, end } => {
            time(envelope, &line[start as usize..end as usize], steps)
        }
        Command::Envelope => Answer::Speeds,
        Command::Timetable => Answer::Timetable,
        Command::Cert => Answer::Certificate,
    }
}

// Puts a restriction in force.
fn put<L: Ledger>(envelope: &mut Envelope, id: Id, zone: Zone, steps: &mut Steps<L>) -> Answer
    requires kept { HasRoom envelope.old }
    requires lies { LiesOn envelope.old.line.length zone }
    ensures comes { Comes envelope.old envelope.new
        (asked_put zone (put_in id zone envelope.old.force)) result steps.old steps.new }
    ensures kept { HasRoom envelope.new }
{
    match envelope.put(id, zone, steps) {
        Ok(reach) => Answer::Made(Change::Put, reach),
        Err(fault) => Answer::Refused(fault.code()),
    }
}

// Takes one out of force.
fn take<L: Ledger>(envelope: &mut Envelope, id: Id, steps: &mut Steps<L>) -> Answer
    requires kept { HasRoom envelope.old }
    ensures comes { Comes envelope.old envelope.new
        (asked_take (zone_of id envelope.old.force) (without id envelope.old.force))
        result steps.old steps.new }
    ensures kept { HasRoom envelope.new }
{
    match envelope.take(id, steps) {
        Ok(reach) => Answer::Made(Change::Take, reach),
        Err(fault) => Answer::Refused(fault.code()),
    }
}

// Tells when the train comes to the point of a name.
fn time<L: Ledger>(envelope: &Envelope, name: &[u8], steps: &mut Steps<L>) -> Answer
    requires kept { HasRoom envelope.now }
    ensures { Comes envelope.now envelope.now
        (asked_time (find_point name.now envelope.now.line.points)) result steps.old steps.new }
{
    match envelope.line().find(name) {
        Some(point) => Answer::Time(envelope.bracket(point, steps)),
        None => Answer::Refused(UNKNOWN_POINT),
    }
}
