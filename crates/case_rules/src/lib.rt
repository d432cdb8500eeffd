//! What a train is on a line: the pulls, the step rule and the limits, made of its tables.
#![tactic(auto)]

ghost use Rattle.std.specs.Prelude.{◌≡◌, ◌≤◌, All, IfOk};
ghost use Rattle.case_rules.specs.Case.{case_profile, plan_caps, train_motion, train_pulls, train_rule};
ghost use Rattle.limit_profile.specs.Profile.{AreAlike, caps};
ghost use Rattle.plan_tables.specs.Bounds.{bounds_of};
ghost use Rattle.plan_tables.specs.Plan.{PlanLiesOn};
ghost use Rattle.run_rules.specs.StepRules.{IsPull};
ghost use Rattle.step_rule.specs.Motion.{cells_of, kmh_of, step_rule_of};
ghost use Rattle.unit_rules.specs.Zone.{LiesOn};

use limit_profile::Limits;
use line_tables::Line;
use plan_tables::{Plan, bounds};
use std::alloc::Global;
use step_rule::Rule;
use stock_tables::Stock;
use train_mean::pulls;
use unit_rules::{Bound, Memory, Zone};

/// The pull at each cell of a line on a train whose head is there, in the units of push.
pub fn pulls_on(alloc: Global, line: &Line, stock: &Stock) -> Result<Vec<i64>, Memory>
    ensures pulls { IfOk result (λ pulls. pulls.items ≡ train_pulls line.now stock.now) }
    ensures small { IfOk result (λ pulls. All IsPull pulls.items) }
{
    pulls(alloc, line, stock.mass(), stock.length())
}

/// The step rule of a train on a line, by its pulls there.
pub fn rule_by(line: &Line, stock: Stock, pulls: Vec<i64>) -> Rule
    requires pulls { pulls.items ≡ train_pulls line.now stock }
    requires small { All IsPull pulls.items }
    ensures motion { result ≡ train_motion line.now stock }
    ensures rule { step_rule_of result ≡ train_rule line.now stock }
    ensures pulls { result.pulls ≡ pulls.items }
    ensures cells { cells_of result ≡ line.now.length }
    ensures top { kmh_of result ≡ stock.top }
{
    // A line has as many cells as a rule may have pulls.
    let _cells = line.length();
    let moved = stock.moved_mass();
    let (push, brake) = stock.into_bands();
    Rule::new(push, brake, moved, pulls)
}

/// The limits and the step rule of a train on a line by a plan, under restrictions beside the line's
/// own limits.
pub fn course_on(
    alloc: Global,
    line: &Line,
    stock: Stock,
    plan: &Plan,
    restrictions: &[Zone],
) -> Result<(Limits, Rule), Memory>
    requires plan { PlanLiesOn line.now.length plan.now }
    requires restrictions { All (LiesOn line.now.length) restrictions.now }
    ensures profile { IfOk result (λ both. AreAlike (case_profile line.now stock
        restrictions.now (bounds_of plan.now line.now.length)) both.0) }
    ensures caps { IfOk result (λ both. caps both.0
        ≡ plan_caps line.now stock plan.now restrictions.now) }
    ensures motion { IfOk result (λ both. both.1 ≡ train_motion line.now stock) }
    ensures cells { IfOk result (λ both. cells_of both.1 ≡ line.now.length) }
    ensures top { IfOk result (λ both. kmh_of both.1 ≡ stock.top) }
{
    let limits = plan_limits(alloc, line, &stock, plan, restrictions)?;
    let rule = rule_on(alloc, line, stock)?;
    Ok((limits, rule))
}

// The step rule of a train on a line.
fn rule_on(alloc: Global, line: &Line, stock: Stock) -> Result<Rule, Memory>
    ensures motion { IfOk result (λ rule. rule ≡ train_motion line.now stock) }
    ensures cells { IfOk result (λ rule. cells_of rule ≡ line.now.length) }
    ensures top { IfOk result (λ rule. kmh_of rule ≡ stock.top) }
{
    let pulls = pulls_on(alloc, line, &stock)?;
    Ok(rule_by(line, stock, pulls))
}

// The limits of a train on a line by a plan, under restrictions beside the line's own limits.
fn plan_limits(
    alloc: Global,
    line: &Line,
    stock: &Stock,
    plan: &Plan,
    restrictions: &[Zone],
) -> Result<Limits, Memory>
    requires plan { PlanLiesOn line.now.length plan.now }
    requires restrictions { All (LiesOn line.now.length) restrictions.now }
    ensures profile { IfOk result (AreAlike (case_profile line.now stock.now
        restrictions.now (bounds_of plan.now line.now.length))) }
{
    let bounds = bounds(alloc, plan, line.length())?;
    limits_on(alloc, line, stock, restrictions, &bounds)
}

// The limits of a train on a line, under restrictions beside the line's own limits, and bounds at
// some points.
fn limits_on(
    alloc: Global,
    line: &Line,
    stock: &Stock,
    restrictions: &[Zone],
    bounds: &[Bound],
) -> Result<Limits, Memory>
    requires restrictions { All (LiesOn line.now.length) restrictions.now }
    requires bounds { All (λ b. b.at ≤ line.now.length) bounds.now }
    ensures profile { IfOk result (AreAlike (case_profile line.now stock.now
        restrictions.now bounds.now)) }
{
    let Ok(mut zones) = Vec::from_slice(alloc, line.limits()) else {
        return Err(Memory);
    };
    let Ok(()) = zones.extend_from_slice(restrictions) else {
        return Err(Memory);
    };
    let (length, train, top) = (line.length(), stock.length(), stock.top());
    Limits::new(alloc, length, train, top, &zones, bounds)
}
