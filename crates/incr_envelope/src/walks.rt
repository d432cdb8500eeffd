//! The walks that make a run, and make it again where the caps changed.

ghost use Rattle.std.specs.Prelude.{◌≡◌, ◌≤◌, ◌+◌, ◌*◌, IfOk, length};
ghost use Rattle.limit_profile.specs.Profile.{caps};
ghost use Rattle.run_rules.specs.Drives.{ReachesUnderCaps};
ghost use Rattle.run_rules.specs.Runs.{IsBrakingList, ReachesAs};
ghost use Rattle.run_rules.specs.Walks.{IsOwnBrakingList, count_of};
ghost use Rattle.unit_rules.specs.Limits.{longest_line};
ghost use Rattle.step_rule.specs.Motion.{cells_of, kmh_of, most_of, step_rule_of};
ghost use Rattle.incr_envelope.specs.Runs.{IsFastest, WasFastest, is_within, lists_of};
ghost use Rattle.incr_envelope.specs.Touched.{touched};

use crate::run::Run;
use brake_caps::walk_back;
use effort_run::walk_on;
use limit_profile::Limits;
use std::alloc::Global;
use std::sync::ledger::Ledger;
use step_rule::Rule;
use time_brackets::Sums;
use unit_rules::{Memory, Reach, Steps};

// The braking list under a rule and the limits of its line.
pub(crate) fn walked_back<L: Ledger>(
    alloc: Global,
    rule: &Rule,
    limits: &Limits,
    steps: &mut Steps<L>,
) -> Result<Vec<u32>, Memory>
    requires same_length { limits.now.length ≡ cells_of rule.now }
    requires same_top { limits.now.top ≡ kmh_of rule.now }
    ensures list { IfOk result (λ list.
        IsBrakingList (step_rule_of rule.now) (caps limits.now) list.items) }
    ensures brakes { IfOk result (λ list. IsOwnBrakingList (step_rule_of rule.now)
        (cells_of rule.now) (most_of rule.now) list.items) }
    ensures cost { steps.new ≤ steps.old + 33 * (cells_of rule.now + 1) }
{
    let cells = rule.cells();
    let Ok(mut list) = Vec::from_elem(alloc, 0, cells as usize + 1) else {
        return Err(Memory);
    };
    walk_back(rule, limits, 0, cells, &mut list, steps);
    Ok(list)
}

// The squared speeds under a rule and a braking list, and how far the train gets. Those from a stalled
// point on mean nothing.
pub(crate) fn walked_on<L: Ledger>(
    alloc: Global,
    rule: &Rule,
    brakes: &[u32],
    steps: &mut Steps<L>,
) -> Result<(Vec<u32>, Reach), Memory>
    requires brakes { IsOwnBrakingList (step_rule_of rule.now) (cells_of rule.now)
        (most_of rule.now) brakes.now }
    ensures long { IfOk result (λ both. length both.0.items ≡ cells_of rule.now + 1) }
    ensures own { IfOk result (λ both.
        ReachesAs (step_rule_of rule.now) brakes.now both.0.items both.1) }
    ensures under_caps { IfOk result (λ both.
        ReachesUnderCaps (step_rule_of rule.now) brakes.now both.0.items both.1) }
    ensures cost { steps.new ≤ steps.old + cells_of rule.now }
{
    let cells = rule.cells();
    let Ok(mut speeds) = Vec::from_elem(alloc, 0, cells as usize + 1) else {
        return Err(Memory);
    };
    let walk = walk_on(rule, brakes, 0, cells, &mut speeds, 0, steps);
    Ok((speeds, walk.reach))
}

// The fastest run under a rule and the limits of its line.
pub(crate) fn first_run<L: Ledger>(
    alloc: Global,
    rule: &Rule,
    limits: &Limits,
    steps: &mut Steps<L>,
) -> Result<Run, Memory>
    requires same_length { limits.now.length ≡ cells_of rule.now }
    requires same_top { limits.now.top ≡ kmh_of rule.now }
    ensures fastest { IfOk result (IsFastest (step_rule_of rule.now) (cells_of rule.now)
        (most_of rule.now) (caps limits.now)) }
    ensures cost { steps.new ≤ steps.old
        + (33 * (cells_of rule.now + 1) + 2 * cells_of rule.now) }
{
    let cells = rule.cells();
    let brakes = walked_back(alloc, rule, limits, steps)?;
    let (speeds, reach) = walked_on(alloc, rule, &brakes, steps)?;
    let mut sums = Sums::new(alloc, cells)?;
    sums.redo(0, cells, &speeds, known_by(reach, cells), steps);
    Ok(Run {
        brakes,
        speeds,
        reach,
        sums,
    })
}

// Makes the fastest run again, where the caps changed at points `from..=to` alone.
pub(crate) fn run_again<L: Ledger>(
    rule: &Rule,
    limits: &Limits,
    from: u32,
    to: u32,
    run: &mut Run,
    steps: &mut Steps<L>,
)
    requires same_length { limits.now.length ≡ cells_of rule.now }
    requires same_top { limits.now.top ≡ kmh_of rule.now }
    requires stretch { (from ≤ to) × (to ≤ cells_of rule.now) }
    requires older { WasFastest (step_rule_of rule.now) (cells_of rule.now) (most_of rule.now)
        (caps limits.now) from to run.old }
    ensures fastest { IsFastest (step_rule_of rule.now) (cells_of rule.now) (most_of rule.now)
        (caps limits.now) run.new }
    ensures cost { let cells = cells_of rule.now in
        steps.new ≤ steps.old + 35 * (touched (is_within from to) (lists_of cells run.old)
        (lists_of cells run.new) (cells + 1) + 2) + 1024 }
{
    let cells = rule.cells();
    let known = known_by(run.reach, cells);
    let lowest = walk_back(rule, limits, from, to, &mut run.brakes, steps);
    let walk = walk_on(rule, &run.brakes, lowest, to, &mut run.speeds, known, steps);
    let known = known_by(walk.reach, cells);
    run.reach = walk.reach;
    run.sums.redo(lowest, walk.last, &run.speeds, known, steps);
}

// How many speeds are known on a line of so many cells.
pub(crate) fn known_by(reach: Reach, cells: u32) -> u32
    requires { cells ≤ longest_line }
    ensures { result ≡ count_of (cells + 1) reach }
{
    match reach {
        Reach::Whole => cells + 1,
        Reach::Stalled { k } => k,
    }
}
