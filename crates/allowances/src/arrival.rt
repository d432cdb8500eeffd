//! When a train comes to a point.

ghost use Rattle.std.specs.Prelude.{◌≡◌, ◌+◌, ◌*◌, ◌^◌, ◌<◌, ◌≤◌};
ghost use Rattle.plan_tables.specs.Limits.{latest_departure, longest_dwell, most_calls};
ghost use Rattle.plan_tables.specs.Plan.{IsPlan};
ghost use Rattle.allowances.specs.Arrivals.{dwell_at, later, second, seconds_before};

use plan_tables::{Call, CallKind, Plan};
use time_brackets::Bracket;

// Nanoseconds.
const SECOND: u64 = 1_000_000_000;

/// Both ends of a bracket, so many seconds later.
pub(crate) fn later(times: Bracket, seconds: u64) -> Bracket
    requires lo { times.lo + second * seconds < 2 ^ 64 }
    requires hi { times.hi + second * seconds < 2 ^ 64 }
    ensures { result ≡ later times seconds }
{
    Bracket {
        lo: times.lo + SECOND * seconds,
        hi: times.hi + SECOND * seconds,
    }
}

/// The second of departure, and the dwells of the stops before a point.
pub(crate) fn seconds_before(plan: &Plan, point: u32) -> u64
    ensures seconds { result ≡ seconds_before plan.now point }
    ensures few { result ≤ latest_departure + most_calls * longest_dwell }
    ensures kept { IsPlan plan.now }
{
    let mut seconds = u64::from(plan.depart());
    for call in plan.calls() {
        if call.at < point {
            seconds += u64::from(dwell_at(call));
        }
    }
    seconds
}

// How many seconds the train stands at a call.
fn dwell_at(call: &Call) -> u32
    ensures { result ≡ dwell_at call.now }
{
    match call.kind {
        CallKind::Stop { dwell } => dwell,
        CallKind::Pass => 0,
    }
}
