//! The bounds that a plan sets on the speed of a train.

ghost use Rattle.std.specs.Prelude.{◌≡◌, ◌≤◌, All, IfOk};
ghost use Rattle.plan_tables.specs.Bounds.{bounds_of};
ghost use Rattle.plan_tables.specs.Calls.{is_stop_kind};
ghost use Rattle.plan_tables.specs.Plan.{PlanLiesOn};

use crate::{CallKind, Plan};
use run_rules::squared;
use std::alloc::Global;
use unit_rules::{Bound, Memory};

/// The bounds of a plan on a line of `length` metres: the speeds on entering at point 0 and on leaving
/// at its end, and then a stand at each stop, in order, all as squared speeds in (0.01 km/h)².
pub fn bounds(alloc: Global, plan: &Plan, length: u32) -> Result<Vec<Bound>, Memory>
    requires { PlanLiesOn length plan.now }
    ensures bounds { IfOk result (λ bounds. bounds.items ≡ bounds_of plan.now length) }
    ensures lie { IfOk result (λ bounds. All (λ b. b.at ≤ length) bounds.items) }
{
    let (enter, leave) = (squared(plan.enter()), squared(plan.leave()));
    let ends = [
        Bound { at: 0, most: enter },
        Bound {
            at: length,
            most: leave,
        },
    ];
    let Ok(mut bounds) = Vec::from_slice(alloc, ends.as_slice()) else {
        return Err(Memory);
    };
    for call in plan.calls() {
        if is_stop(call.kind) {
            let Ok(()) = bounds.push(Bound {
                at: call.at,
                most: 0,
            }) else {
                return Err(Memory);
            };
        }
    }
    Ok(bounds)
}

fn is_stop(kind: CallKind) -> bool
    ensures { result ≡ is_stop_kind kind }
{
    matches!(kind, CallKind::Stop { .. })
}
