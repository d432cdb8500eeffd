//! The greatest numbers of a plan file.

ghost use Rattle.std.specs.Prelude.{◌≡◌};
ghost use Rattle.plan_tables.specs.Limits.{greatest_amount};

use crate::AllowKind;

// The latest departure, in seconds.
pub(crate) const LATEST_DEPARTURE: u32 = 86_400;

// The longest dwell at a stop, in seconds.
pub(crate) const LONGEST_DWELL: u32 = 86_400;

// The most stops and passes of a plan.
pub(crate) const MOST_CALLS: usize = 1_000;

// The most sections of a plan.
pub(crate) const MOST_SECTIONS: usize = 1_000;

// The greatest amount of an allowance, in the units of its kind.
pub(crate) fn greatest_amount(kind: AllowKind) -> u32
    ensures { result ≡ greatest_amount kind }
{
    match kind {
        AllowKind::Percent => 1_000,
        AllowKind::Per100km => 3_600,
        AllowKind::Fixed => 86_400,
    }
}
