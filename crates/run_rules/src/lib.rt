//! The rules of a run, as definitions that several crates cite, laws that follow from them alone,
//! and the square of a speed, which several crates compute.
#![tactic(auto)]

ghost use Rattle.std.specs.Prelude.{◌≡◌, ◌≤◌};
ghost use Rattle.unit_rules.specs.Limits.{greatest_speed};
ghost use Rattle.run_rules.specs.Laws.{BrakesAlikeBelow, BrakesAlikePast, GreaterKeeps, RunsOrStalls, StallsOnce, StandingBrakes};
ghost use Rattle.run_rules.specs.Speeds.{squared};

/// The square of a speed of `kmh` km/h, in (0.01 km/h)².
pub fn squared(kmh: u32) -> u32
    requires { kmh ≤ greatest_speed }
    ensures { result ≡ squared kmh }
{
    10_000 * (kmh * kmh)
}

/// The laws of runs that follow from the definitions alone, whatever the step rule: the greater of
/// two lists that keep the rule keeps it too, a train is stalled at one point at most, and at none
/// where there is a run. A train that stands everywhere brakes by the rule. The braking lists under
/// caps that differ at some points alone agree past these, and below any point before these at which
/// they agree.
pub fn laws_of_runs()
    ensures greater { GreaterKeeps }
    ensures once { StallsOnce }
    ensures either { RunsOrStalls }
    ensures standing { StandingBrakes }
    ensures alike_past { BrakesAlikePast }
    ensures alike_below { BrakesAlikeBelow }
{}
