//! The times of a train over the metres of a line, as brackets of whole nanoseconds.
//!
//! A squared speed is in (0.01 km/h)². Over a metre the acceleration is constant, so that a metre takes
//! as long as two metres at the sum of the speeds at its ends.
#![tactic(auto)]

ghost use Rattle.std.specs.Prelude.{◌≡◌, ◌+◌, ◌^◌, ◌<◌, ◌≤◌};
ghost use Rattle.unit_rules.specs.Limits.{greatest_squared_speed};
ghost use Rattle.time_brackets.specs.Laws.{SlowerTakesNoLess, SumsNeverRise, TimesNeverRise};
ghost use Rattle.time_brackets.specs.Times.{IsNotLonger, IsNotShorter, longest_time, shortest_time, slowest_metre};

mod speeds;
mod sums;
#[cfg(test)]
mod tests;

use crate::speeds::Speeds;
pub use crate::sums::Sums;
use std::sync::ledger::Ledger;
use unit_rules::Steps;

/// Two whole numbers of nanoseconds between which a time lies.
#[derive(Clone, Copy, Debug, PartialEq, Eq)]
pub struct Bracket {
    /// Not longer than the time.
    pub lo: u64,
    /// Not shorter than the time.
    pub hi: u64,
}

impl Bracket {
    // No time.
    fn none() -> Bracket
        ensures lo { result.lo ≡ 0 }
        ensures hi { result.hi ≡ 0 }
    {
        Bracket { lo: 0, hi: 0 }
    }

    // One time after another.
    fn plus(self, more: Bracket) -> Bracket
        requires { (self.lo + more.lo < 2 ^ 64) × (self.hi + more.hi < 2 ^ 64) }
        ensures lo { result.lo ≡ self.lo + more.lo }
        ensures hi { result.hi ≡ self.hi + more.hi }
    {
        Bracket {
            lo: self.lo + more.lo,
            hi: self.hi + more.hi,
        }
    }
}

/// The time of a train over a metre from squared speed `a` to squared speed `b`, of which one is above
/// 0. It counts as one step.
pub fn step_bracket<L: Ledger>(a: u32, b: u32, steps: &mut Steps<L>) -> Bracket
    requires moving { 1 ≤ a + b }
    requires first_most { a ≤ greatest_squared_speed }
    requires second_most { b ≤ greatest_squared_speed }
    ensures lo { result.lo ≡ shortest_time a b }
    ensures hi { result.hi ≡ longest_time a b }
    ensures not_longer { IsNotLonger result.lo a b }
    ensures not_shorter { IsNotShorter result.hi a b }
    ensures ordered { result.lo ≤ result.hi }
    ensures short { result.hi ≤ slowest_metre }
    ensures cost { steps.new ≡ steps.old + 1 }
{
    Speeds::of(a).times_to(Speeds::of(b), steps)
}

/// The laws of times that follow from the definitions alone: a train that is nowhere slower takes no
/// longer over a metre, by both ends of the bracket and by the true time, and none over a stretch, by
/// both ends.
pub fn laws_of_times()
    ensures brackets { TimesNeverRise }
    ensures true_times { SlowerTakesNoLess }
    ensures stretches { SumsNeverRise }
{}
