//! The allowances of a plan's sections.

ghost use Rattle.std.specs.Prelude.{◌≡◌, ◌+◌, ◌-◌, ◌*◌, ◌≤◌, IfOk, length, map};
ghost use Rattle.plan_tables.specs.Plan.{IsPlan};
ghost use Rattle.time_brackets.specs.Sums.{block_cells};
ghost use Rattle.allowances.specs.Progress.{AreAllowancesOf, amount_in};
ghost use Rattle.allowances.specs.Rows.{section_count};
ghost use Rattle.allowances.specs.WholeRuns.{IsWholeRun};

use crate::allowance::Allowance;
use plan_tables::Plan;
use std::alloc::Global;
use std::sync::ledger::Ledger;
use time_brackets::Sums;
use unit_rules::{Memory, Steps};

/// The allowances of a plan's sections, in order, for a train of squared speeds `e`. The sums stand for
/// all of `e`.
pub(crate) fn allowances_of<L: Ledger>(
    alloc: Global,
    plan: &Plan,
    sums: &Sums,
    e: &[u32],
    steps: &mut Steps<L>,
) -> Result<Vec<Allowance>, Memory>
    requires { IsWholeRun plan.now sums.now e.now (length e.now - 1) }
    ensures allowances { IfOk result (λ a. AreAllowancesOf e.now plan.now.sections a.items) }
    ensures kept { IsPlan plan.now }
    ensures cost { steps.new ≤ steps.old + block_cells * (2 * section_count plan.now) }
    ensures cost_most { steps.new ≤ steps.old + (length e.now - 1) * (2 * section_count plan.now) }
{
    let mut allowances = Vec::new(alloc);
    for section in plan.sections() {
        let allowance = Allowance::of(*section, sums, e, steps);
        let Ok(()) = allowances.push(allowance) else {
            return Err(Memory);
        };
    }
    Ok(allowances)
}

/// What allowances add in all, in milliseconds and in order.
pub(crate) fn amounts_in(alloc: Global, allowances: &[Allowance]) -> Result<Vec<u64>, Memory>
    ensures { IfOk result (λ amounts. amounts.items ≡ map amount_in allowances.now) }
{
    allowances
        .iter()
        .map(|a| a.amount)
        .collect(alloc)
        .map_err(|_| Memory)
}
