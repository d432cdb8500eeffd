//! The search for the squared speed before a cell from which a train can be slow enough after it.
//!
//! It begins where full brakes alone end the cell at the speed that is wanted, which the table of
//! brakes tells. On a gentle hill it ends there too, with no step; it goes on by halves where a hill
//! slows the train more than its brakes.

ghost use Rattle.std.specs.Prelude.{◌≡◌, ℕ, ◌+◌, ◌*◌, ◌/◌, ◌^◌, ◌<◌, ◌≤◌, ◌⊎◌, pos, ◌≤ℤ◌, ◌<ℤ◌};
ghost use Rattle.run_rules.specs.Speeds.{squared};
ghost use Rattle.run_rules.specs.StepRules.{fall_from};
ghost use Rattle.step_rule.specs.Motion.{IsMotion, cells_of, kmh_of, most_of, step_rule_of};
ghost use Rattle.step_rule.specs.Spans.{IsBrakedFrom, IsSpan};

use super::Rule;
use run_rules::squared;
use std::sync::ledger::Ledger;
use unit_rules::Steps;

// Up to here a search that begins at a guess takes no more steps than one that halves from the start:
// one for the guess, and 31 for what it leaves.
const GUESSED: u32 = 1 << 31;

// The greatest gap whose product with the width of any band fits a `u64`.
const SMALL_GAP: u64 = 1_000_000_000_000;

// A search for the greatest squared speed from which a cell can end at some speed or below: from `at`
// it can, and from `past` no more.
#[derive(Drop)]
struct Span {
    at: u32,
    past: u32,
}

impl Rule {
    /// The greatest squared speed up to `most` before cell `cell` from which a train can have squared
    /// speed `w` or less after it. 0 always is one.
    pub fn back<L: Ledger>(&self, cell: u32, w: u32, most: u32, steps: &mut Steps<L>) -> u32
        requires cell { cell < cells_of self.now }
        requires in_range { most ≤ most_of self.now }
        ensures most { result ≤ most }
        ensures braked { (step_rule_of self.now).low cell result ≤ℤ pos w }
        ensures greatest { (u : ℕ) → u ≤ most
            → (step_rule_of self.now).low cell u ≤ℤ pos w → u ≤ result }
        ensures cost { steps.new ≤ steps.old + 33 }
        // where full brakes end the cell at `w` or below from there, as they do but on steep hills
        ensures quick { most ≤ 2 ^ 31 → fall_from self.now.brake.rows result ≤ℤ pos w
            → steps.new ≤ steps.old + 2 }
        ensures kept { IsMotion self.now }
    {
        self.back_near(cell, w, most, &mut 0, steps)
    }

    /// As [`Rule::back`], found sooner where `near` is the whole km/h from which full brakes end a
    /// cell at `w`, or just below. It is a guess that the search for one cell leaves to the next.
    pub fn back_near<L: Ledger>(
        &self,
        cell: u32,
        w: u32,
        most: u32,
        near: &mut u32,
        steps: &mut Steps<L>,
    ) -> u32
        requires cell { cell < cells_of self.now }
        requires in_range { most ≤ most_of self.now }
        ensures most { result ≤ most }
        ensures braked { (step_rule_of self.now).low cell result ≤ℤ pos w }
        ensures greatest { (u : ℕ) → u ≤ most
            → (step_rule_of self.now).low cell u ≤ℤ pos w → u ≤ result }
        ensures cost { steps.new ≤ steps.old + 33 }
        ensures quick { most ≤ 2 ^ 31 → fall_from self.now.brake.rows result ≤ℤ pos w
            → steps.new ≤ steps.old + 2 }
        ensures kept { IsMotion self.now }
    {
        let _cells = self.cells();
        if self.is_gentle(cell) {
            return self.braked_near(w, near).min(most);
        }
        if self.low(cell, most, steps) <= i64::from(w) {
            return most;
        }
        if most > GUESSED {
            return self.halved(cell, w, Span { at: 0, past: most }, steps);
        }
        self.guessed(cell, w, most, near, steps)
    }

    // The greatest squared speed below `most` from which the cell can end at `w` or below, looked for
    // first where full brakes end the cell there.
    fn guessed<L: Ledger>(
        &self,
        cell: u32,
        w: u32,
        most: u32,
        near: &mut u32,
        steps: &mut Steps<L>,
    ) -> u32
        requires cell { cell < cells_of self.now }
        requires in_range { most ≤ most_of self.now }
        requires short { most ≤ 2 ^ 31 }
        requires too_fast { pos w <ℤ (step_rule_of self.now).low cell most }
        ensures within { result < most }
        ensures greatest { IsSpan (step_rule_of self.now) cell w result (result + 1) }
        ensures cost { steps.new ≤ steps.old + 32 }
        ensures quick { fall_from self.now.brake.rows result ≤ℤ pos w → steps.new ≤ steps.old + 1 }
    {
        let at = self.braked_near(w, near);
        let span = self.begun(cell, w, Span { at, past: most }, steps);
        self.halved(cell, w, span, steps)
    }

    // What is left of a span once it is known whether the search ends at its first number.
    fn begun<L: Ledger>(&self, cell: u32, w: u32, span: Span, steps: &mut Steps<L>) -> Span
        requires cell { cell < cells_of self.now }
        requires in_range { span.past ≤ most_of self.now }
        requires span { IsSpan (step_rule_of self.now) cell w span.at span.past }
        ensures span { IsSpan (step_rule_of self.now) cell w result.at result.past }
        ensures from { span.at ≤ result.at }
        ensures within { result.past ≤ span.past }
        ensures settled { result.at ≡ span.at → result.past ≡ span.at + 1 }
        ensures cost { steps.new ≤ steps.old + 1 }
    {
        if span.past - span.at == 1 {
            return span;
        }
        let next = span.at + 1;
        self.narrowed(cell, w, span, next, steps)
    }

    // The greatest squared speed of a span from which the cell can end at `w` or below.
    fn halved<L: Ledger>(&self, cell: u32, w: u32, span: Span, steps: &mut Steps<L>) -> u32
        requires cell { cell < cells_of self.now }
        requires in_range { span.past ≤ most_of self.now }
        requires span { IsSpan (step_rule_of self.now) cell w span.at span.past }
        ensures from { span.at ≤ result }
        ensures within { result < span.past }
        ensures greatest { IsSpan (step_rule_of self.now) cell w result (result + 1) }
        ensures cost { (n : ℕ) → span.past ≤ span.at + 2 ^ n → steps.new ≤ steps.old + n }
    {
        let mut span = span;
        while span.past - span.at > 1 {
            let middle = span.at + (span.past - span.at) / 2;
            span = self.narrowed(cell, w, span, middle, steps);
        }
        span.at
    }

    // The side of `middle` on which the search goes on.
    fn narrowed<L: Ledger>(
        &self,
        cell: u32,
        w: u32,
        span: Span,
        middle: u32,
        steps: &mut Steps<L>,
    ) -> Span
        requires cell { cell < cells_of self.now }
        requires in_range { span.past ≤ most_of self.now }
        requires span { IsSpan (step_rule_of self.now) cell w span.at span.past }
        requires above { span.at < middle }
        requires below { middle < span.past }
        ensures span { IsSpan (step_rule_of self.now) cell w result.at result.past }
        ensures side { ((result.at ≡ middle) × (result.past ≡ span.past))
            ⊎ ((result.at ≡ span.at) × (result.past ≡ middle)) }
        ensures cost { steps.new ≡ steps.old + 1 }
    {
        if self.low(cell, middle, steps) <= i64::from(w) {
            Span {
                at: middle,
                past: span.past,
            }
        } else {
            Span {
                at: span.at,
                past: middle,
            }
        }
    }

    // Under full brakes, from a whole number of km/h.
    fn fall_at_kmh(&self, kmh: u32) -> i64
        requires { kmh ≤ kmh_of self.now }
        ensures value { result ≡ fall_from self.now.brake.rows (squared kmh) }
        ensures kept { IsMotion self.now }
    {
        let value = self.brake.row(kmh);
        i64::from(squared(kmh)) - value
    }

    // The greatest squared speed from which full brakes end a cell at `w` or below.
    fn braked_near(&self, w: u32, near: &mut u32) -> u32
        ensures braked { IsBrakedFrom self.now w result }
        ensures kept { IsMotion self.now }
    {
        let kmh = self.kmh_braked_from(w, *near);
        *near = kmh;
        if kmh == self.top() {
            squared(kmh)
        } else {
            squared(kmh) + self.part_braked_from(w, kmh)
        }
    }

    // How far above `kmh` km/h that squared speed is, where it lies below the next whole speed.
    fn part_braked_from(&self, w: u32, kmh: u32) -> u32
        requires below_top { kmh < kmh_of self.now }
        requires braked { fall_from self.now.brake.rows (squared kmh) ≤ℤ pos w }
        requires past { pos w <ℤ fall_from self.now.brake.rows (squared (kmh + 1)) }
        ensures part { IsBrakedFrom self.now w (squared kmh + result) }
        ensures kept { IsMotion self.now }
    {
        let here = self.fall_at_kmh(kmh);
        let gap = i64::from(w).abs_diff(here);
        let rise = self.fall_at_kmh(kmh + 1).abs_diff(here);
        parts_within(gap, rise, 10_000 * (2 * kmh + 1))
    }

    // The greatest whole number of km/h from which full brakes end a cell at `w` or below.
    fn kmh_braked_from(&self, w: u32, near: u32) -> u32
        ensures in_range { result ≤ kmh_of self.now }
        ensures braked { fall_from self.now.brake.rows (squared result) ≤ℤ pos w }
        ensures greatest { result < kmh_of self.now
            → pos w <ℤ fall_from self.now.brake.rows (squared (result + 1)) }
        ensures kept { IsMotion self.now }
    {
        let top = self.top();
        let mut kmh = self.kmh_begun(w, near);
        while kmh < top && self.fall_at_kmh(kmh + 1) <= i64::from(w) {
            kmh += 1;
        }
        kmh
    }

    // A whole number of km/h from which full brakes end a cell at `w` or below: `near`, unless it is
    // too fast or a root tells a greater one.
    fn kmh_begun(&self, w: u32, near: u32) -> u32
        ensures in_range { result ≤ kmh_of self.now }
        ensures braked { fall_from self.now.brake.rows (squared result) ≤ℤ pos w }
        ensures kept { IsMotion self.now }
    {
        let top = self.top();
        if near < top && w < squared(near + 1) && self.fall_at_kmh(near) <= i64::from(w) {
            return near;
        }
        (w / 10_000).isqrt().min(top)
    }
}

// How many of the `all` equal parts of a rise are at most `gap`. Where the brakes take the same at both
// ends of a band, they are parts of 1.
fn parts_within(gap: u64, rise: u64, all: u32) -> u32
    requires below { gap < rise }
    requires few { all ≤ 10010000 }
    ensures { result ≡ gap * all / rise }
{
    if rise == u64::from(all) {
        gap as u32
    } else if gap <= SMALL_GAP {
        (gap * u64::from(all) / rise) as u32
    } else {
        (u128::from(gap) * u128::from(all) / u128::from(rise)) as u32
    }
}
