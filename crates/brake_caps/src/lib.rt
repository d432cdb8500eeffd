//! The braking list of a line: the greatest speeds from which a train can still brake for every cap
//! that is ahead of it.
#![tactic(auto)]

ghost use Rattle.std.specs.Prelude.{◌≡◌, ◌≢◌, ℕ, ◌+◌, ◌-◌, ◌*◌, ◌<◌, ◌≤◌, length, slice_index};
ghost use Rattle.run_rules.specs.Runs.{IsBrakingList};
ghost use Rattle.run_rules.specs.Walks.{AgreeOutside, IsGreatestAt, IsGreatestNumber, IsOwnBrakingList};
ghost use Rattle.limit_profile.specs.Levels.{IsLevel};
ghost use Rattle.limit_profile.specs.Profile.{Profile, caps};
ghost use Rattle.step_rule.specs.Motion.{cells_of, kmh_of, most_of, step_rule_of};

#[cfg(test)]
mod tests;

use limit_profile::{Level, Limits};
use std::sync::ledger::Ledger;
use step_rule::Rule;
use unit_rules::Steps;

/// Makes `c` the braking list under the caps of `limits`, in (0.01 km/h)² by point, where the numbers
/// past `to` are right, and those below `from` were right for the numbers that followed them: so it is
/// after the caps changed at points `from..=to` alone, and over a whole line `c` may hold anything. The
/// answer is the lowest point below `from` whose number changed, or `from`; all between changed too.
pub fn walk_back<L: Ledger>(
    rule: &Rule,
    limits: &Limits,
    from: u32,
    to: u32,
    c: &mut [u32],
    steps: &mut Steps<L>,
) -> u32
    requires same_length { limits.now.length ≡ cells_of rule.now }
    requires same_top { limits.now.top ≡ kmh_of rule.now }
    requires points { length c.old ≡ limits.now.length + 1 }
    requires stretch { (from ≤ to) × (to ≤ limits.now.length) }
    requires past { (i : ℕ) → to < i → i ≤ limits.now.length
        → IsGreatestAt (step_rule_of rule.now) (caps limits.now) c.old i }
    requires before { (i : ℕ) → i < from
        → IsGreatestAt (step_rule_of rule.now) (caps limits.now) c.old i }
    ensures list { IsBrakingList (step_rule_of rule.now) (caps limits.now) c.new }
    ensures brakes { IsOwnBrakingList (step_rule_of rule.now) (cells_of rule.now)
        (most_of rule.now) c.new }
    ensures lowest { result ≤ from }
    ensures agree { AgreeOutside c.old c.new result to }
    ensures changed { (i : ℕ) → result ≤ i → i < from → slice_index c.new i ≢ slice_index c.old i }
    ensures cost { steps.new ≤ steps.old + 33 * (to + 2 - result) }
    ensures end_cost { to ≡ limits.now.length → steps.new ≤ steps.old + 33 * (to + 1 - result) }
{
    let mut hints = Hints::new();
    for point in (from as usize..to as usize + 1).rev() {
        c[point] = number_at(rule, limits, point as u32, c, &mut hints, steps);
    }
    let mut lowest = from;
    while lowest > 0 {
        let number = number_at(rule, limits, lowest - 1, c, &mut hints, steps);
        if number == c[lowest as usize - 1] {
            return lowest;
        }
        lowest -= 1;
        c[lowest as usize] = number;
    }
    lowest
}

// What the point after tells of where to look: a stretch of one cap, and a whole km/h near which full
// brakes end a cell at its number.
#[derive(Drop)]
struct Hints {
    level: Level,
    near: u32,
}

impl Hints {
    // Those that tell nothing.
    fn new() -> Hints
        ensures { (p : Profile) → IsLevel p result.level }
    {
        Hints {
            level: Level::empty(),
            near: 0,
        }
    }
}

// The greatest number at a point from which the train can brake to what is next in `c`.
fn number_at<L: Ledger>(
    rule: &Rule,
    limits: &Limits,
    point: u32,
    c: &[u32],
    hints: &mut Hints,
    steps: &mut Steps<L>,
) -> u32
    requires same_length { limits.now.length ≡ cells_of rule.now }
    requires same_top { limits.now.top ≡ kmh_of rule.now }
    requires points { length c.now ≡ limits.now.length + 1 }
    requires on_line { point ≤ limits.now.length }
    requires level { IsLevel limits.now hints.old.level }
    ensures level { IsLevel limits.now hints.new.level }
    ensures number { IsGreatestNumber (step_rule_of rule.now) (caps limits.now) c.now point result }
    ensures cost { steps.new ≤ steps.old + 33 }
    ensures end_cost { point ≡ limits.now.length → steps.new ≡ steps.old }
{
    let cap = limits.cap_near(point, &mut hints.level);
    if point == rule.cells() {
        return cap;
    }
    let next = c[point as usize + 1];
    // Brakes always slow, so from the cap the train can end the cell at no more than the cap.
    if cap <= next {
        return cap;
    }
    rule.back_near(point, next, cap, &mut hints.near, steps)
}
