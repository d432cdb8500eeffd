//! The rows of a timetable: when a train comes to the calls of its plan and goes on, and what the
//! plan's allowances add there.
#![tactic(auto)]

ghost use Rattle.std.specs.Prelude.{◌≡◌, ◌+◌, ◌-◌, ◌*◌, ◌≤◌, All, IfOk, length, map};
ghost use Rattle.unit_rules.specs.Limits.{longest_line};
ghost use Rattle.time_brackets.specs.Sums.{StandsPast, block_cells};
ghost use Rattle.allowances.specs.Arrivals.{arrival};
ghost use Rattle.allowances.specs.Allowances.{amount_of};
ghost use Rattle.allowances.specs.Laws.{FasterIsNoLater};
ghost use Rattle.allowances.specs.Rows.{IsTimed, row_count, rows_of, section_count};
ghost use Rattle.allowances.specs.WholeRuns.{IsWholeRun};

mod allowance;
mod arrival;
mod plan;
mod progress;
mod run;
#[cfg(test)]
mod tests;

use crate::arrival::{later, seconds_before};
use crate::plan::{allowances_of, amounts_in};
use crate::run::Run;
use plan_tables::Plan;
use std::alloc::Global;
use std::sync::ledger::Ledger;
use time_brackets::{Bracket, Sums};
use unit_rules::{Memory, Steps};

/// What a row of a timetable stands for.
#[derive(Clone, Copy, Debug, PartialEq, Eq)]
pub enum RowKind {
    /// The departure at point 0.
    Start,
    /// A call at which the train stands.
    Stop,
    /// A call that it goes by.
    Pass,
    /// The arrival at the line's end.
    End,
}

/// A row of a timetable. Its times are brackets, in nanoseconds from the zero of the plan's seconds.
#[derive(Clone, Copy, Debug, PartialEq, Eq)]
pub struct Row {
    /// The point, in metres from point 0.
    pub at: u32,
    /// What the row stands for.
    pub kind: RowKind,
    /// When the fastest train comes to the point.
    pub arrive: Bracket,
    /// When it goes on from there.
    pub leave: Bracket,
    /// What the plan's allowances add at the point, in milliseconds.
    pub added: u64,
    /// When a train with them is planned to come there, in milliseconds.
    pub planned: u64,
    /// The index of the plan's call, if the row is one.
    pub call: Option<u32>,
}

/// What each section of a plan adds to the running time of a train of squared speeds `e`, in
/// milliseconds and in the order of the plan. The sums stand for all of `e`.
pub fn amounts<L: Ledger>(
    alloc: Global,
    plan: &Plan,
    sums: &Sums,
    e: &[u32],
    steps: &mut Steps<L>,
) -> Result<Vec<u64>, Memory>
    requires { IsWholeRun plan.now sums.now e.now (length e.now - 1) }
    ensures amounts { IfOk result (λ amounts.
        amounts.items ≡ map (amount_of e.now) plan.now.sections) }
    ensures cost { steps.new ≤ steps.old + block_cells * (2 * section_count plan.now) }
    ensures cost_most { steps.new ≤ steps.old + (length e.now - 1) * (2 * section_count plan.now) }
{
    let allowances = allowances_of(alloc, plan, sums, e, steps)?;
    amounts_in(alloc, &allowances)
}

/// The rows of a plan's timetable on a line of `length` metres, for a train of squared speeds `e`:
/// the departure, the calls in order and the arrival at the line's end. The sums stand for all of `e`.
pub fn planned<L: Ledger>(
    alloc: Global,
    plan: &Plan,
    length: u32,
    sums: &Sums,
    e: &[u32],
    steps: &mut Steps<L>,
) -> Result<Vec<Row>, Memory>
    requires { IsWholeRun plan.now sums.now e.now length }
    ensures rows { IfOk result (λ rows. rows.items ≡ rows_of plan.now length e.now) }
    ensures timed { IfOk result (λ rows. All IsTimed rows.items) }
    ensures cost { steps.new ≤ steps.old
        + block_cells * (row_count plan.now + 2 * section_count plan.now) }
    ensures cost_most { steps.new ≤ steps.old
        + length * (row_count plan.now + 2 * section_count plan.now) }
{
    let allowances = allowances_of(alloc, plan, sums, e, steps)?;
    let run = Run {
        plan,
        length,
        sums,
        e,
        allowances: &allowances,
    };
    run.rows(alloc, steps)
}

/// When a train of squared speeds `e` comes to a point, by a plan. The sums stand for so many numbers
/// of `e` that the one at the point is among them.
pub fn arrival_at<L: Ledger>(
    plan: &Plan,
    sums: &Sums,
    e: &[u32],
    point: u32,
    steps: &mut Steps<L>,
) -> Bracket
    requires stands { StandsPast sums.now e.now point }
    requires on_line { point ≤ longest_line }
    ensures arrival { result ≡ arrival plan.now e.now point }
    ensures cost { steps.new ≤ steps.old + block_cells }
{
    let time = sums.upto(point, e, steps);
    later(time, seconds_before(plan, point))
}

/// The law of arrivals that follows from the definitions alone: under one plan, a train that is
/// nowhere slower comes to no point later, by both ends of the bracket.
pub fn laws_of_arrivals()
    ensures { FasterIsNoLater }
{}
