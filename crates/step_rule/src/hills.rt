//! Hills that a train's push and its brakes make up for, told by the pull of a cell alone.

ghost use Rattle.std.specs.Prelude.{◌≡◌, ◌*◌, ◌^◌, ◌<◌, ◌≤◌, pos, neg_ℤ, ◌+ℤ◌, ◌≤ℤ◌, IsTrue};
ghost use Rattle.unit_rules.specs.Limits.{greatest_value};
ghost use Rattle.run_rules.specs.Grids.{row};
ghost use Rattle.step_rule.specs.Hills.{IsGentle, IsHeld};
ghost use Rattle.step_rule.specs.Motion.{IsMotion, cells_of};

use super::Rule;

impl Rule {
    /// Whether no push is less than the pull at cell `cell`: a train at full effort then loses no
    /// speed there. It takes no step, and may be false of a cell where no speed is lost either.
    pub fn holds_speed(&self, cell: u32) -> bool
        requires { cell < cells_of self.now }
        ensures held { IsTrue result → IsHeld self.now (row self.now.pulls cell) }
        ensures kept { IsMotion self.now }
    {
        self.pulls[cell as usize] <= self.held
    }

    // Whether the pull at a cell is known to slow the train no more than its brakes do.
    pub(crate) fn is_gentle(&self, cell: u32) -> bool
        requires { cell < cells_of self.now }
        ensures gentle { IsTrue result → IsGentle self.now (row self.now.pulls cell) }
        ensures kept { IsMotion self.now }
    {
        self.pulls[cell as usize] <= self.gentle
    }
}

/// The pull that a push of `push` and brakes that take `rate` from the squared speed of the moved
/// mass make up for together.
pub(crate) fn gentle_pull(push: i64, rate: u32, moved: u32) -> i64
    requires push_most { push ≤ℤ pos greatest_value }
    requires push_least { neg_ℤ (pos greatest_value) ≤ℤ push }
    requires rate_most { rate ≤ 1000000 }
    ensures { result ≡ push +ℤ pos (moved * rate) }
{
    push + (u64::from(moved) * u64::from(rate)) as i64
}
