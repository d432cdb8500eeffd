//! Speeds of squared speeds, and the time over a metre by the speeds at its ends.

ghost use Rattle.std.specs.Prelude.{◌≡◌, ◌+◌, ◌≤◌};
ghost use Rattle.unit_rules.specs.Limits.{greatest_squared_speed};
ghost use Rattle.time_brackets.specs.Times.{AreSpeeds, longest_time, shortest_time};

use crate::Bracket;
use std::sync::ledger::Ledger;
use unit_rules::{Steps, both_roots};

// Two metres, as a time in nanoseconds times a speed in 0.00001 km/h.
const TWO_METRES: u64 = 720_000_000_000_000;

/// A squared speed, and its speed in 0.00001 km/h, rounded down and rounded up.
#[derive(Clone, Copy)]
pub struct Speeds {
    pub squared: u32,
    down: u64,
    up: u64,
    ghost right: { AreSpeeds squared down up },
}

impl Speeds {
    /// The speeds of a squared speed.
    pub fn of(squared: u32) -> Speeds
        requires { squared ≤ greatest_squared_speed }
        ensures { result.squared ≡ squared }
    {
        let (down, up) = both_roots(1_000_000 * u64::from(squared));
        Speeds { squared, down, up }
    }

    /// The speeds of the squared speed at the next point, which are these where it is the same.
    pub fn at_next(self, squared: u32) -> Speeds
        requires { squared ≤ greatest_squared_speed }
        ensures { result.squared ≡ squared }
    {
        if squared == self.squared {
            return self;
        }
        Speeds::of(squared)
    }

    /// The time over a metre from these speeds to others, as one step.
    pub fn times_to<L: Ledger>(self, to: Speeds, steps: &mut Steps<L>) -> Bracket
        requires moving { 1 ≤ self.squared + to.squared }
        ensures lo { result.lo ≡ shortest_time self.squared to.squared }
        ensures hi { result.hi ≡ longest_time self.squared to.squared }
        ensures cost { steps.new ≡ steps.old + 1 }
    {
        steps.tick();
        let down = self.down + to.down;
        let up = self.up + to.up;
        let lo = TWO_METRES / up;
        let hi = TWO_METRES.div_ceil(down);
        Bracket { lo, hi }
    }
}
