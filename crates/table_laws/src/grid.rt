//! The value at a squared speed, from the values at the two whole km/h beside it.

ghost use Rattle.std.specs.Prelude.{◌≡◌, ◌+◌, ◌*◌, ◌^◌, ◌<◌, ◌≤◌, pos, neg_ℤ, ◌≤ℤ◌, ◌*ℤ◌, unsigned_abs};
ghost use Rattle.unit_rules.specs.Limits.{greatest_value};
ghost use Rattle.unit_rules.specs.Quotients.{floor_div};
ghost use Rattle.run_rules.specs.Grids.{row, top_of, band_width, value_between, value_at};
ghost use Rattle.run_rules.specs.Speeds.{squared};
ghost use Rattle.table_laws.specs.Laws.{IsTable};

use crate::near::Near;
use unit_rules::{Divisor, div_floor};

/// The greatest rise from one whole km/h to the next whose parts are computed in 64 bits: times
/// the width of any band it fits an `i64`.
const SMALL_RISE: u64 = 900_000_000_000;

/// The value at a squared speed, of the table with the value `rows[k]` at `k` km/h. It is found
/// sooner where `near` is where the squared speed lies, which it then becomes.
pub fn value_near(rows: &[i64], u: u32, near: &mut Near) -> i64
    requires table { IsTable rows.now }
    requires on_table { u ≤ squared (top_of rows.now) }
    ensures value { result ≡ value_at rows.now u }
    ensures most { result ≤ℤ pos greatest_value }
    ensures least { neg_ℤ (pos greatest_value) ≤ℤ result }
{
    let part = near.move_to(u);
    let kmh = near.kmh() as usize;
    let low = rows[kmh];
    if part == 0 {
        return low;
    }
    value_between(low, rows[kmh + 1], part, near.width())
}

// The value that many parts of all on the way from one to the other, rounded down.
fn value_between(low: i64, high: i64, part: u32, all: &Divisor) -> i64
    requires low_most { low ≤ℤ pos greatest_value }
    requires low_least { neg_ℤ (pos greatest_value) ≤ℤ low }
    requires high_most { high ≤ℤ pos greatest_value }
    requires high_least { neg_ℤ (pos greatest_value) ≤ℤ high }
    requires inside { part ≤ all.now }
    requires some { 0 < all.now }
    requires few { all.now ≤ 10010000 }
    ensures value { result ≡ value_between low high part all.now }
    ensures most { result ≤ℤ pos greatest_value }
    ensures least { neg_ℤ (pos greatest_value) ≤ℤ result }
{
    low + part_of(high - low, part, all)
}

// That many parts of all of a rise, rounded down.
fn part_of(rise: i64, part: u32, all: &Divisor) -> i64
    requires most { rise ≤ℤ pos (2 * greatest_value) }
    requires least { neg_ℤ (pos (2 * greatest_value)) ≤ℤ rise }
    requires inside { part ≤ all.now }
    requires some { 0 < all.now }
    requires few { all.now ≤ 10010000 }
    ensures { result ≡ floor_div (rise *ℤ pos part) all.now }
{
    if rise.unsigned_abs() <= SMALL_RISE {
        small_part_of(rise, part, all)
    } else {
        large_part_of(rise, part, all)
    }
}

fn small_part_of(rise: i64, part: u32, all: &Divisor) -> i64
    requires small { unsigned_abs rise ≤ 900000000000 }
    requires inside { part ≤ all.now }
    requires some { 0 < all.now }
    requires few { all.now ≤ 10010000 }
    ensures { result ≡ floor_div (rise *ℤ pos part) all.now }
{
    all.floor(rise * i64::from(part))
}

fn large_part_of(rise: i64, part: u32, all: &Divisor) -> i64
    requires most { rise ≤ℤ pos (2 * greatest_value) }
    requires least { neg_ℤ (pos (2 * greatest_value)) ≤ℤ rise }
    requires inside { part ≤ all.now }
    requires some { 0 < all.now }
    requires few { all.now ≤ 10010000 }
    ensures { result ≡ floor_div (rise *ℤ pos part) all.now }
{
    div_floor(
        i128::from(rise) * i128::from(part),
        i128::from(all.number()),
    ) as i64
}
