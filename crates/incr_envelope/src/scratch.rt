//! The braking list and the fastest run of a train, made once.

ghost use Rattle.std.specs.Prelude.{◌≡◌, ◌≤◌, ◌+◌, ◌*◌, All, IfOk, length};
ghost use Rattle.case_rules.specs.Case.{case_profile, train_motion, train_rule};
ghost use Rattle.limit_profile.specs.Profile.{AreAlike, caps};
ghost use Rattle.plan_tables.specs.Bounds.{bounds_of};
ghost use Rattle.step_rule.specs.Motion.{cells_of, kmh_of};
ghost use Rattle.incr_envelope.specs.Envelope.{caps_under};
ghost use Rattle.plan_tables.specs.Plan.{PlanLiesOn};
ghost use Rattle.restrictions.specs.Force.{IsForce, zones_of};
ghost use Rattle.run_rules.specs.Runs.{IsBrakingList, IsMonotone, ReachesAs};
ghost use Rattle.run_rules.specs.Speeds.{squared};
ghost use Rattle.run_rules.specs.Walks.{count_of};
ghost use Rattle.unit_rules.specs.Zone.{LiesOn};

use crate::run::Drive;
use crate::walks::{known_by, walked_back, walked_on};
use case_rules::course_on;
use limit_profile::Limits;
use line_tables::Line;
use plan_tables::Plan;
use restrictions::InForce;
use std::alloc::Global;
use std::sync::ledger::Ledger;
use step_rule::Rule;
use stock_tables::Stock;
use unit_rules::{Memory, Steps};

/// The braking list of a train on a line by a plan under the restrictions in force: by point the
/// greatest squared speed, in (0.01 km/h)², from which the train can brake for all that is ahead.
pub fn braking_list<L: Ledger>(
    alloc: Global,
    line: &Line,
    stock: Stock,
    plan: &Plan,
    force: &InForce,
    steps: &mut Steps<L>,
) -> Result<Vec<u32>, Memory>
    requires plan { PlanLiesOn line.now.length plan.now }
    requires zones { All (LiesOn line.now.length) (zones_of force.now.pairs) }
    ensures list { IfOk result (λ list. IsBrakingList (train_rule line.now stock)
        (caps_under line.now stock plan.now force.now.pairs) list.items) }
    ensures cost { steps.new ≤ steps.old + 33 * (line.now.length + 1) }
{
    let (limits, rule) = course_of(alloc, line, stock, plan, force)?;
    walked_back(alloc, &rule, &limits, steps)
}

/// The fastest run of a train over a line by a plan under the restrictions in force, or what goes
/// before its stall, and its braking list.
pub fn drive<L: Ledger>(
    alloc: Global,
    line: &Line,
    stock: Stock,
    plan: &Plan,
    force: &InForce,
    steps: &mut Steps<L>,
) -> Result<Drive, Memory>
    requires plan { PlanLiesOn line.now.length plan.now }
    requires zones { All (LiesOn line.now.length) (zones_of force.now.pairs) }
    ensures monotone { IfOk result (λ _. IsMonotone (train_rule line.now stock)
        line.now.length (squared stock.top)) }
    ensures brakes { IfOk result (λ d. IsBrakingList (train_rule line.now stock)
        (caps_under line.now stock plan.now force.now.pairs) d.brakes.items) }
    ensures reaches { IfOk result (λ d. ReachesAs (train_rule line.now stock)
        (caps_under line.now stock plan.now force.now.pairs) d.speeds.items d.reach) }
    ensures known { IfOk result
        (λ d. length d.speeds.items ≡ count_of (line.now.length + 1) d.reach) }
    ensures cost { steps.new ≤ steps.old + (33 * (line.now.length + 1) + line.now.length) }
{
    let (limits, rule) = course_of(alloc, line, stock, plan, force)?;
    let brakes = walked_back(alloc, &rule, &limits, steps)?;
    let (mut speeds, reach) = walked_on(alloc, &rule, &brakes, steps)?;
    speeds.truncate(known_by(reach, rule.cells()) as usize);
    Ok(Drive {
        brakes,
        speeds,
        reach,
    })
}

// The limits and the step rule of a train on a line by a plan, under the restrictions in force.
pub(crate) fn course_of(
    alloc: Global,
    line: &Line,
    stock: Stock,
    plan: &Plan,
    force: &InForce,
) -> Result<(Limits, Rule), Memory>
    requires plan { PlanLiesOn line.now.length plan.now }
    requires zones { All (LiesOn line.now.length) (zones_of force.now.pairs) }
    ensures limits { IfOk result (λ both. AreAlike (case_profile line.now stock
        (zones_of force.now.pairs) (bounds_of plan.now line.now.length)) both.0) }
    ensures caps { IfOk result (λ both. caps both.0
        ≡ caps_under line.now stock plan.now force.now.pairs) }
    ensures motion { IfOk result (λ both. both.1 ≡ train_motion line.now stock) }
    ensures cells { IfOk result (λ both. cells_of both.1 ≡ line.now.length) }
    ensures top { IfOk result (λ both. kmh_of both.1 ≡ stock.top) }
    ensures force { IsForce force.now }
{
    let zones = force.zones()?;
    course_on(alloc, line, stock, plan, &zones)
}
