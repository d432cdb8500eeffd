//! Plan files: their records, the rules that a record may break, the plan that an accepted file
//! describes, and the bounds that it sets on the speed of a train.
#![tactic(auto)]

ghost use Rattle.std.specs.Prelude.{◌≡◌, Err, IfOk};
ghost use Rattle.unit_rules.specs.Memory.{Gives};
ghost use Rattle.plan_tables.specs.Faults.{plan_fault};
ghost use Rattle.plan_tables.specs.PlanFile.{read_as_plan};
ghost use Rattle.plan_tables.specs.Plan.{IsPlan, PlanLiesOn};

mod draft;
mod kinds;
mod limits;
mod plan;
mod speed_bounds;
#[cfg(test)]
mod tests;

use crate::draft::Draft;
use line_tables::Line;
pub use plan::{AllowKind, Call, CallKind, Plan, Section};
use record_rules::{RecordFault, read_records};
pub use speed_bounds::bounds;
use std::alloc::Global;
use thiserror::Error;

/// Why a plan file is refused.
#[derive(Debug, Drop, Error)]
pub enum PlanFault {
    /// The first record that breaks a rule, counted from 1, and the least rule that it breaks.
    #[error("record {place} breaks rule {rule}")]
    Bad { place: u64, rule: u32 },
    #[error("out of memory")]
    Memory,
}

impl From<RecordFault> for PlanFault {
    ghost from_gives = { λ r e. e ≡ plan_fault r };

    fn from(fault: RecordFault) -> PlanFault {
        match fault {
            RecordFault::Broken { place, rule } => PlanFault::Bad { place, rule },
            RecordFault::Memory => PlanFault::Memory,
        }
    }
}

/// Reads the plan file of a line: the plan that it describes, or its first fault.
pub fn read_plan(alloc: Global, bytes: &[u8], line: &Line) -> Result<Plan, PlanFault>
    ensures plan { Gives (Err PlanFault.Memory) (read_as_plan line.now bytes.now) result }
    ensures lies { IfOk result (PlanLiesOn line.now.length) }
    ensures kept { IfOk result IsPlan }
{
    let mut draft = Draft::new(alloc, line);
    read_records(alloc, bytes, &mut draft)?;
    Ok(draft.finish())
}
