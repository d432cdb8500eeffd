//! The band of a table in which a squared speed lies, kept from one look to the next: a walk over
//! speeds seldom leaves it.

ghost use Rattle.std.specs.Prelude.{◌≡◌, ◌+◌, ◌<◌, ◌≤◌};
ghost use Rattle.unit_rules.specs.Limits.{greatest_speed, greatest_squared_speed};
ghost use Rattle.run_rules.specs.Grids.{band_width};
ghost use Rattle.run_rules.specs.Speeds.{squared};

use run_rules::squared;
use std::marker::Model;
use unit_rules::Divisor;

/// Where a value was last looked for: between a whole number of km/h and the next.
#[derive(Drop)]
pub struct Near {
    kmh: u32,
    width: Divisor,
}

impl Model for Near {
    ghost use Rattle.std.specs.Prelude.{ℕ};
    ghost use Rattle.table_laws.specs.Nears.{IsNear};

    ghost Value = { ℕ };

    ghost view = { λ n. n.kmh };

    ghost invariant = { λ n. IsNear n.kmh n.width };
}

impl Near {
    /// Near a stand.
    pub fn new() -> Near
        ensures { result ≡ 0 }
    {
        Near::above(0)
    }

    /// The whole number of km/h below.
    pub(crate) fn kmh(&self) -> u32
        ensures kmh { result ≡ self.now }
        ensures slow { self.now ≤ greatest_speed }
    {
        self.kmh
    }

    /// How many squared speeds, in (0.01 km/h)², there are up to the next whole number of km/h.
    pub(crate) fn width(&self) -> &Divisor
        ensures width { result.now ≡ band_width self.now }
        ensures slow { self.now ≤ greatest_speed }
    {
        &self.width
    }

    /// Moves to where a squared speed in (0.01 km/h)² lies, and says how far above the whole number
    /// of km/h that is. A root is taken only where it did not lie there before.
    pub(crate) fn move_to(&mut self, u: u32) -> u32
        requires { u ≤ greatest_squared_speed }
        ensures place { u ≡ squared self.new + result }
        ensures inside { result < band_width self.new }
    {
        let start = squared(self.kmh);
        if start <= u && u - start < 10_000 * (2 * self.kmh + 1) {
            return u - start;
        }
        let kmh = (u / 10_000).isqrt();
        *self = Near::above(kmh);
        u - squared(kmh)
    }

    // From a whole number of km/h to the next.
    fn above(kmh: u32) -> Near
        requires { kmh ≤ greatest_speed }
        ensures { result ≡ kmh }
    {
        Near {
            kmh,
            width: Divisor::new(u64::from(10_000 * (2 * kmh + 1))),
        }
    }
}
