//! Commands: what a line of a session or of a file of edits says.

ghost use Rattle.std.specs.Prelude.{◌≡◌, ◌≤◌, ℕ, List, IfOk, IfSome, length};
ghost use Rattle.unit_rules.specs.Zone.{LiesOn};
ghost use Rattle.restrictions.specs.Commands.{IsOn, alone, command_of, most_bytes, put_of, take_of, time_of, zone_of_words};
ghost use Rattle.restrictions.specs.Edits.{code_of_line};
ghost use Rattle.restrictions.specs.Words.{after_spaces, after_word, words_of};

use crate::ids::Id;
use crate::words::{after_spaces, first_word, rest_end};
use unit_rules::{GREATEST_SPEED, Zone, number_in};

/// The most bytes of a line.
const MOST_BYTES: usize = 200;

/// A command of a session.
#[derive(Clone, Copy, Debug, PartialEq, Eq)]
pub enum Command {
    /// `put ID FROM TO KMH`: puts a restriction in force.
    Put {
        /// Its ID.
        id: Id,
        /// Where it binds, and the speed.
        zone: Zone,
    },
    /// `take ID`: takes one out of force.
    Take {
        /// Its ID.
        id: Id,
    },
    /// `time NAME`: asks when the train arrives at a point. The name is the bytes of the line from
    /// `start` up to `end`.
    Time {
        /// Where in the line the name begins.
        start: u32,
        /// Where it ends.
        end: u32,
    },
    /// `envelope`: asks for the greatest squared speeds.
    Envelope,
    /// `timetable`: asks for the timetable.
    Timetable,
    /// `cert`: asks for the certificate.
    Cert,
}

/// Why a line is no command. Where several hold, the first counts.
#[derive(Clone, Copy, Debug, PartialEq, Eq)]
pub enum CommandFault {
    /// It has more than 200 bytes.
    Long,
    /// Its first word is none of a command, or it hasn't as many words as that command.
    NoCommand,
    /// An ID, a numeral or a range in it is wrong.
    Spelling,
}

impl CommandFault {
    /// The code of a line that is no command.
    pub fn code(&self) -> u32
        ensures { result ≡ code_of_line self.now }
    {
        match self {
            CommandFault::Long => 1,
            CommandFault::NoCommand => 2,
            CommandFault::Spelling => 3,
        }
    }
}

/// The command that a line is, without the bytes that end the line, where zones have to lie on a
/// line of `length` metres.
#[tactic(auto, unfolding(crate::specs::Commands::command_of))]
pub fn read_command(line: &[u8], length: u32) -> Result<Command, CommandFault>
    ensures command { result ≡ command_of length line.now }
    ensures on { IfOk result (IsOn length line.now) }
{
    if line.len() > MOST_BYTES {
        return Err(CommandFault::Long);
    }
    let Some(first) = first_word(line) else {
        return Err(CommandFault::NoCommand);
    };
    if first.word == b"put".as_slice() {
        read_put(first.rest, length)
    } else if first.word == b"take".as_slice() {
        read_take(first.rest)
    } else if first.word == b"time".as_slice() {
        read_time(line, first.rest)
    } else if first.word == b"envelope".as_slice() {
        read_alone(Command::Envelope, first.rest)
    } else if first.word == b"timetable".as_slice() {
        read_alone(Command::Timetable, first.rest)
    } else if first.word == b"cert".as_slice() {
        read_alone(Command::Cert, first.rest)
    } else {
        Err(CommandFault::NoCommand)
    }
}

// What the words behind `put` say.
fn read_put(rest: &[u8], length: u32) -> Result<Command, CommandFault>
    ensures command { result ≡ put_of length (words_of rest.now) }
    ensures on { (line : List ℕ) → IfOk result (IsOn length line) }
{
    let Some(id) = first_word(rest) else {
        return Err(CommandFault::NoCommand);
    };
    let Some(from) = first_word(id.rest) else {
        return Err(CommandFault::NoCommand);
    };
    let Some(to) = first_word(from.rest) else {
        return Err(CommandFault::NoCommand);
    };
    let Some(kmh) = first_word(to.rest) else {
        return Err(CommandFault::NoCommand);
    };
    if first_word(kmh.rest).is_some() {
        return Err(CommandFault::NoCommand);
    }
    let Some(id) = Id::of(id.word) else {
        return Err(CommandFault::Spelling);
    };
    let Some(zone) = read_zone(length, from.word, to.word, kmh.word) else {
        return Err(CommandFault::Spelling);
    };
    Ok(Command::Put { id, zone })
}

// The zone that three words are the numerals of.
fn read_zone(length: u32, from: &[u8], to: &[u8], kmh: &[u8]) -> Option<Zone>
    ensures zone { result ≡ zone_of_words length from.now to.now kmh.now }
    ensures lies { IfSome result (LiesOn length) }
{
    let from = number_in(0, length, from)?;
    let to = number_in(0, length, to)?;
    let kmh = number_in(1, GREATEST_SPEED, kmh)?;
    if from >= to {
        return None;
    }
    Some(Zone { from, to, kmh })
}

// What the words behind `take` say.
fn read_take(rest: &[u8]) -> Result<Command, CommandFault>
    ensures command { result ≡ take_of (words_of rest.now) }
    ensures on { (length : ℕ) (line : List ℕ) → IfOk result (IsOn length line) }
{
    let Some(id) = first_word(rest) else {
        return Err(CommandFault::NoCommand);
    };
    if first_word(id.rest).is_some() {
        return Err(CommandFault::NoCommand);
    }
    let Some(id) = Id::of(id.word) else {
        return Err(CommandFault::Spelling);
    };
    Ok(Command::Take { id })
}

// What a line says whose first word, `time`, is before `rest`.
fn read_time(line: &[u8], rest: &[u8]) -> Result<Command, CommandFault>
    requires short { length line.now ≤ most_bytes }
    requires rest { rest.now ≡ after_word (after_spaces line.now) }
    ensures command { result ≡ time_of line.now (words_of rest.now) }
    ensures on { (metres : ℕ) → IfOk result (IsOn metres line.now) }
{
    let Some(_first) = first_word(rest) else {
        return Err(CommandFault::NoCommand);
    };
    let name = after_spaces(rest);
    Ok(Command::Time {
        start: (line.len() - name.len()) as u32,
        end: rest_end(line) as u32,
    })
}

// What a line says whose first word is a command of one word.
fn read_alone(command: Command, rest: &[u8]) -> Result<Command, CommandFault>
    ensures { result ≡ alone command (words_of rest.now) }
{
    if first_word(rest).is_some() {
        return Err(CommandFault::NoCommand);
    }
    Ok(command)
}
