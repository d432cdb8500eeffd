//! Files of edits: commands, one a line, that put restrictions in force and take them out.

ghost use Rattle.std.specs.Prelude.{◌≡◌, ◌<◌, ◌∷◌, ℕ, All, List, Err, IfOk, length};
ghost use Rattle.std.specs.Result.{result_map_both};
ghost use Rattle.std.specs.Str.Lines.{strip_carriage_return};
ghost use Rattle.unit_rules.specs.Memory.{Gives};
ghost use Rattle.unit_rules.specs.Zone.{LiesOn};
ghost use Rattle.restrictions.specs.Commands.{IsOn};
ghost use Rattle.restrictions.specs.Edits.{code_of_edit, code_of_line, commanded, edited, lines_of, restrictions_in};
ghost use Rattle.restrictions.specs.Force.{IsForce, zones_of};

use crate::commands::{Command, CommandFault, read_command};
use crate::force::{EditFault, InForce};
use crate::words::len_before;
use std::alloc::Global;

/// Why a file of edits is refused.
#[derive(Debug, Drop)]
pub enum EditsFault {
    /// The number of the first line that has a code, counted from 1, and that code: 1, it has more
    /// than 200 bytes; 2, it is no `put` and no `take`, or hasn't as many words; 3, an ID, a numeral
    /// or a range in it is wrong; 4, the ID that it puts is in force; 5, the ID that it takes isn't;
    /// 6, as many are in force as may be. Of a line's codes it is the least.
    Bad { place: u64, code: u32 },
    /// Memory was wanted and could not be had.
    Memory,
}

/// Reads a file of edits: the restrictions in force after all its lines, from nothing, on a line of
/// `length` metres; or its first fault.
pub fn read_edits(alloc: Global, bytes: &[u8], length: u32) -> Result<InForce, EditsFault>
    ensures edits { Gives (Err EditsFault.Memory) (restrictions_in length bytes.now)
        (result_map_both (λ force. force.pairs) (λ e. e) result) }
    ensures lie { IfOk result (λ f. All (LiesOn length) (zones_of f.pairs)) }
    ensures force { IfOk result IsForce }
{
    let mut force = InForce::new(alloc);
    let mut rest = bytes;
    let mut place = 0;
    while !rest.is_empty() {
        let first = first_line(rest);
        place += 1;
        edit(&mut force, place, first.line, length)?;
        rest = first.rest;
    }
    Ok(force)
}

/// The first line of a text, without one CR at its end, and what is behind it.
#[derive(Clone, Copy)]
pub struct FirstLine<'a> {
    /// The line.
    pub line: &'a [u8],
    /// What is behind the LF that ends it.
    pub rest: &'a [u8],
}

/// Takes the first line off a text of at least a byte.
pub fn first_line<'a>(text: &'a [u8]) -> FirstLine<'a>
    requires { 0 < length text.now }
    ensures lines { lines_of text.now ≡ result.line.now ∷ lines_of result.rest.now }
    ensures shorter { length result.rest.now < length text.now }
{
    let end = len_before(text, b'\n');
    let line = without_cr(&text[..end]);
    if end == text.len() {
        return FirstLine { line, rest: &[] };
    }
    FirstLine {
        line,
        rest: &text[end + 1..],
    }
}

/// A line without one CR at its end.
pub fn without_cr(line: &[u8]) -> &[u8]
    ensures { result.now ≡ strip_carriage_return line.now }
{
    if line.is_empty() || line[line.len() - 1] != b'\r' {
        return line;
    }
    &line[..line.len() - 1]
}

// Makes the edit that a line with that number says.
fn edit(force: &mut InForce, place: u64, line: &[u8], length: u32) -> Result<(), EditsFault>
    ensures edited { Gives (Err EditsFault.Memory)
        (result_map_both (λ p. p) (EditsFault.Bad place) (edited length line.now force.old.pairs))
        (result_map_both (λ _. force.new.pairs) (λ e. e) result) }
    ensures lie { All (LiesOn length) (zones_of force.old.pairs)
        → All (LiesOn length) (zones_of force.new.pairs) }
{
    match read_command(line, length) {
        Ok(command) => carry_out(force, place, command),
        Err(fault) => Err(EditsFault::Bad {
            place,
            code: fault.code(),
        }),
    }
}

// Makes the edit that the command of a line with that number is.
fn carry_out(force: &mut InForce, place: u64, command: Command) -> Result<(), EditsFault>
    ensures edited { Gives (Err EditsFault.Memory)
        (result_map_both (λ p. p) (EditsFault.Bad place) (commanded command force.old.pairs))
        (result_map_both (λ _. force.new.pairs) (λ e. e) result) }
    ensures lie { (length : ℕ) (line : List ℕ) → IsOn length line command
        → All (LiesOn length) (zones_of force.old.pairs)
        → All (LiesOn length) (zones_of force.new.pairs) }
{
    match command {
        Command::Put { id, zone } => match force.put(id, zone) {
            Ok(()) => Ok(()),
            Err(fault) => Err(fault_of_edit(place, fault)),
        },
        Command::Take { id } => match force.take(id) {
            Ok(_zone) => Ok(()),
            Err(fault) => Err(fault_of_edit(place, fault)),
        },
        _ => Err(EditsFault::Bad {
            place,
            code: CommandFault::NoCommand.code(),
        }),
    }
}

// Why a file is refused whose line with that number is an edit that is refused.
fn fault_of_edit(place: u64, fault: EditFault) -> EditsFault
    ensures code { Gives EditsFault.Memory (EditsFault.Bad place (code_of_edit fault)) result }
    ensures memory { fault ≡ EditFault.Memory → result ≡ EditsFault.Memory }
{
    if fault == EditFault::Memory {
        return EditsFault::Memory;
    }
    EditsFault::Bad {
        place,
        code: fault.code(),
    }
}
