//! Line files: their records, the rules that a record may break, and the line that an accepted file
//! describes.
#![tactic(auto)]

ghost use Rattle.std.specs.Prelude.{◌≡◌, Err, IfOk};
ghost use Rattle.unit_rules.specs.Memory.{Gives};
ghost use Rattle.line_tables.specs.LineFile.{read_as_line};
ghost use Rattle.line_tables.specs.Faults.{line_fault};
ghost use Rattle.line_tables.specs.Line.{IsLine};

mod draft;
mod kinds;
mod line;
mod names;
mod points;

use crate::draft::Draft;
pub use line::{Line, Slope};
pub use names::Name;
use record_rules::{RecordFault, read_records};
use std::alloc::Global;
use thiserror::Error;

/// Why a line file is refused.
#[derive(Debug, Drop, Error)]
pub enum LineFault {
    /// The first record that breaks a rule, counted from 1, and the least rule that it breaks.
    #[error("record {place} breaks rule {rule}")]
    Bad { place: u64, rule: u32 },
    /// No record breaks a rule, and none is a `line` record.
    #[error("no line record")]
    Missing,
    #[error("out of memory")]
    Memory,
}

impl From<RecordFault> for LineFault {
    ghost from_gives = { λ r e. e ≡ line_fault r };

    fn from(fault: RecordFault) -> LineFault {
        match fault {
            RecordFault::Broken { place, rule } => LineFault::Bad { place, rule },
            RecordFault::Memory => LineFault::Memory,
        }
    }
}

/// Reads a line file: the line that it describes, or its first fault.
pub fn read_line(alloc: Global, bytes: &[u8]) -> Result<Line, LineFault>
    ensures line { Gives (Err LineFault.Memory) (read_as_line bytes.now) result }
    ensures kept { IfOk result IsLine }
{
    let mut draft = Draft::new(alloc);
    read_records(alloc, bytes, &mut draft)?;
    draft.finish().ok_or(LineFault::Missing)
}
