//! The walk on over a line: the greatest squared speeds at full effort under a braking list, to the
//! end of the line or to the first point that no train gets to.
#![tactic(auto)]

ghost use Rattle.std.specs.Prelude.{◌≡◌, ℕ, ◌+◌, ◌<◌, ◌≤◌, pos, ◌≤ℤ◌, ◌↔◌, List, length, slice_index, IfNone, IfSome, IsTrue, Some};
ghost use Rattle.run_rules.specs.Drives.{EnvelopesAgreeAfter, EnvelopesAgreeBefore, HoldsEnvelope, IsOnlyReach, ReachesUnderCaps, reach_of};
ghost use Rattle.run_rules.specs.Runs.{ReachesAs};
ghost use Rattle.run_rules.specs.Walks.{AgreeOutside, EndsAt, IsBlocked, IsBlockedAfter, IsNext, IsNextNumber, IsOwnBrakingList, count_of};
ghost use Rattle.unit_rules.specs.Known.{AgreeAt, known_at};
ghost use Rattle.step_rule.specs.Motion.{cells_of, most_of, step_rule_of};

use std::sync::ledger::Ledger;
use step_rule::Rule;
use table_laws::Near;
use unit_rules::{Reach, Steps};

/// How far the train gets, and how far its speeds changed.
#[derive(Drop)]
pub struct Walk {
    /// To the end of the line, or the stalled point.
    pub reach: Reach,
    /// The last point whose number may differ from before.
    pub last: u32,
}

/// Makes `e` the envelope under `c`: the greatest squared speeds by point, in (0.01 km/h)², up to the
/// end of the line or its stall. `c` is as `walk_back` makes it: taken as caps, it is its own braking
/// list, and no number of it is past the train's top speed. Both have a number for each point.
///
/// A first walk has `known` 0 and the whole line as `from..=to`. In a repeated one the first `known`
/// numbers of `e` are the envelope under an older list, which agrees with `c` outside `from..=to`; the
/// walk then ends at the first number past `to` that is as before. Numbers past a stall mean nothing.
pub fn walk_on<L: Ledger>(
    rule: &Rule,
    c: &[u32],
    from: u32,
    to: u32,
    e: &mut [u32],
    known: u32,
    steps: &mut Steps<L>,
) -> Walk
    requires brakes { IsOwnBrakingList (step_rule_of rule.now) (cells_of rule.now)
        (most_of rule.now) c.now }
    requires same_points { length e.old ≡ length c.now }
    requires ordered { from ≤ to }
    requires on_line { to ≤ cells_of rule.now }
    requires first { known ≡ 0 → (from ≡ 0) × (to ≡ cells_of rule.now) }
    requires older { 1 ≤ known → (b : List ℕ) × AgreeOutside b c.now from to
        × HoldsEnvelope (step_rule_of rule.now) (cells_of rule.now) (most_of rule.now)
        b e.old known }
    ensures reach { ReachesAs (step_rule_of rule.now) c.now e.new result.reach }
    ensures only { IsOnlyReach (step_rule_of rule.now) c.now result.reach }
    ensures under_caps { ReachesUnderCaps (step_rule_of rule.now) c.now e.new result.reach }
    ensures last_least { to ≤ result.last }
    ensures last_most { result.last ≤ cells_of rule.now }
    ensures same_before { let n = count_of (length c.now) result.reach in
        (i : ℕ) → i < from → AgreeAt e.new n e.old known i }
    ensures same_past { let n = count_of (length c.now) result.reach in
        (i : ℕ) → result.last < i → AgreeAt e.new n e.old known i }
    ensures differs { let n = count_of (length c.now) result.reach in
        (i : ℕ) → to < i → i ≤ result.last → AgreeAt e.new n e.old known i → ⊥ }
    ensures cost { steps.new + from ≤ steps.old + result.last + 2 }
    ensures first_cost { known ≡ 0 → steps.new ≤ steps.old + cells_of rule.now }
{
    let cells = rule.cells();
    let end = drive(rule, c, Part { from, to, known }, e, steps);
    Walk {
        reach: reach_with(end.known, cells),
        last: end.last,
    }
}

/// The laws of envelopes that follow from the definitions alone, under two lists that are braking lists
/// of their own and agree outside `from..=to`: the envelopes agree before `from`, and from a point past
/// the change on at which they agree.
pub fn laws_of_envelopes()
    ensures before { EnvelopesAgreeBefore }
    ensures after { EnvelopesAgreeAfter }
{}

// The part of a line whose caps changed, `from..=to`, and how many numbers from before are known.
#[derive(Clone, Copy)]
struct Part {
    from: u32,
    to: u32,
    known: u32,
}

// How many numbers are known in the end, and the last point whose number may differ from before.
#[derive(Drop)]
struct End {
    known: u32,
    last: u32,
}

// Drives on from the cell before `part`, until no number follows or those from before stand.
fn drive<L: Ledger>(rule: &Rule, c: &[u32], part: Part, e: &mut [u32], steps: &mut Steps<L>) -> End
    requires points { length c.now ≡ cells_of rule.now + 1 }
    requires same_points { length e.old ≡ length c.now }
    requires in_range { (i : ℕ) → i < length c.now → slice_index c.now i ≤ most_of rule.now }
    requires ordered { part.from ≤ part.to }
    requires on_line { part.to ≤ cells_of rule.now }
    requires first { part.known ≡ 0 → (part.from ≡ 0) × (part.to ≡ cells_of rule.now) }
    requires older { 1 ≤ part.known → (b : List ℕ) × AgreeOutside b c.now part.from part.to
        × EndsAt (step_rule_of rule.now) b e.old part.known }
    ensures ends { EndsAt (step_rule_of rule.now) c.now e.new result.known }
    ensures last_least { part.to ≤ result.last }
    ensures last_most { result.last ≤ cells_of rule.now }
    ensures same_before { (i : ℕ) → i < part.from → AgreeAt e.new result.known e.old part.known i }
    ensures same_past { (i : ℕ) → result.last < i → AgreeAt e.new result.known e.old part.known i }
    ensures differs { (i : ℕ) → part.to < i → i ≤ result.last
        → AgreeAt e.new result.known e.old part.known i → ⊥ }
    ensures cost { steps.new + part.from ≤ steps.old + result.last + 2 }
    ensures first_cost { part.known ≡ 0 → steps.new ≤ steps.old + cells_of rule.now }
{
    let Part { from, to, known } = part;
    let cells = rule.cells();
    if known < from {
        return End { known, last: to };
    }
    if from == 0 {
        e[0] = c[0];
    }
    let mut near = Near::new();
    for i in from.saturating_sub(1)..cells {
        let Some(number) = number_after(rule, c, i, e, &mut near, steps) else {
            let last = to.max(known.max(i + 1) - 1);
            return End { known: i + 1, last };
        };
        if i >= to && stands(e, known, i + 1, number) {
            return End { known, last: i };
        }
        e[i as usize + 1] = number;
    }
    let known = cells + 1;
    End { known, last: cells }
}

// The number after cell `i`, if there is one. A cap that is no faster than the train is taken without
// a step where full effort loses no speed.
fn number_after<L: Ledger>(
    rule: &Rule,
    c: &[u32],
    i: u32,
    e: &[u32],
    near: &mut Near,
    steps: &mut Steps<L>,
) -> Option<u32>
    requires cell { i < cells_of rule.now }
    requires points { length c.now ≡ cells_of rule.now + 1 }
    requires same_points { length e.now ≡ length c.now }
    requires in_range { slice_index e.now i ≤ most_of rule.now }
    ensures next { IfSome result (λ w. IsNextNumber (step_rule_of rule.now) c.now e.now i w) }
    ensures none { IfNone result (IsBlockedAfter (step_rule_of rule.now) c.now e.now i) }
    ensures cost { steps.new ≤ steps.old + 1 }
{
    let (now, cap) = (e[i as usize], c[i as usize + 1]);
    if 0 < now && cap <= now && rule.holds_speed(i) {
        return Some(cap);
    }
    let up = rule.up_near(i, now, near, steps);
    next_speed(now, up, cap)
}

// The greatest squared speed that `cap` and `up` allow, unless it is a standstill after another.
fn next_speed(now: u32, up: i64, cap: u32) -> Option<u32>
    ensures next { IfSome result (λ w. IsNext now up cap w) }
    ensures none { IfNone result (IsBlocked now up cap) }
{
    let most = up.min(i64::from(cap));
    if most < 0 || now == 0 && most == 0 {
        return None;
    }
    Some(most as u32)
}

// Whether `number` was known at `point`.
fn stands(e: &[u32], known: u32, point: u32, number: u32) -> bool
    requires { point < length e.now }
    ensures { IsTrue result ↔ (known_at e.now known point ≡ Some number) }
{
    point < known && e[point as usize] == number
}

// The reach of an envelope with `known` numbers on a line of `cells` cells.
fn reach_with(known: u32, cells: u32) -> Reach
    ensures { result ≡ reach_of (cells + 1) known }
{
    if known > cells {
        Reach::Whole
    } else {
        Reach::Stalled { k: known }
    }
}

#[cfg(test)]
mod tests;
