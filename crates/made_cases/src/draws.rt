//! The source of the numbers that a case is made of.

ghost use Rattle.std.specs.Prelude.{◌≡◌, ◌<◌, ℕ};
ghost use Rattle.made_cases.specs.Draws.{drawn, next_state};

/// A linear congruential generator of 64 bits.
#[derive(Drop)]
pub(crate) struct Draws {
    pub state: u64,
}

impl Draws {
    /// A source that begins with a number.
    pub(crate) fn from(n: u64) -> Draws
        ensures { result.state ≡ n }
    {
        Draws { state: n }
    }

    /// The next number below another.
    pub(crate) fn draw(&mut self, below: u64) -> u64
        requires { 0 < below }
        ensures state { self.new.state ≡ next_state self.old.state }
        ensures number { result ≡ drawn self.new.state below }
        ensures below { result < below }
    {
        self.state = self
            .state
            .wrapping_mul(6_364_136_223_846_793_005)
            .wrapping_add(1_442_695_040_888_963_407);
        (self.state >> 33) % below
    }
}
