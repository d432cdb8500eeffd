//! Tables of values by speed, under a law that bounds how fast the values may change from one
//! squared speed to the next.
#![tactic(auto)]

ghost use Rattle.std.specs.Prelude.{◌≡◌, ℕ, ◌+◌, ◌*◌, ◌^◌, ◌<◌, ◌≤◌, pos, neg_ℤ, ◌≤ℤ◌, IsTrue, IfOk, OnOk, IfErr};
ghost use Rattle.unit_rules.specs.Limits.{greatest_speed, greatest_value};
ghost use Rattle.run_rules.specs.Grids.{row, top_of, band_width, value_at};
ghost use Rattle.run_rules.specs.Speeds.{squared};
ghost use Rattle.table_laws.specs.Laws.{IsTable, IsLawful, IsFirstBreak, IsLeastRow, KeepsLaw, broken_at, moves_within};

mod grid;
mod near;

use grid::value_near;
pub use near::Near;
use std::marker::Model;

/// How fast the values of a table may change from one squared speed to the next.
#[derive(Clone, Copy, Debug, PartialEq, Eq)]
pub enum Law {
    /// They drop by at most `per`.
    Drop {
        /// The greatest drop.
        per: u32,
    },
    /// They climb by at most 1.
    Climb,
}

/// Why there is no table.
#[derive(Debug, Drop)]
pub enum LawFault {
    /// The values break the law first from `k` km/h to the next.
    Broken {
        /// The speed in km/h.
        k: u32,
    },
}

/// Values by speed, given at each whole km/h, which keep a law.
#[derive(Drop)]
pub struct Bands {
    rows: Vec<i64>,
    law: Law,
}

impl Model for Bands {
    ghost use Rattle.table_laws.specs.Laws.{BandTable, IsLawful};

    ghost Value = { BandTable };

    ghost view = { λ b. record { rows = b.rows.items; law = b.law } };

    ghost invariant = { λ b. IsLawful (record { rows = b.rows.items; law = b.law }) };
}

impl Bands {
    /// The table with the value `rows[k]` at `k` km/h, or the first speed from which the values
    /// break the law.
    pub fn new(rows: Vec<i64>, law: Law) -> Result<Bands, LawFault>
        requires { IsTable rows.items }
        ensures ok { IfOk result (λ bands. bands ≡ record { rows = rows.items; law = law }) }
        ensures kept { OnOk result (KeepsLaw law rows.items) }
        ensures broken { IfErr result (λ fault. IsFirstBreak law rows.items (broken_at fault)) }
    {
        let top = rows.len() - 1;
        for k in 0..top {
            if !keeps_law_at(law, rows[k], rows[k + 1], k as u32) {
                return Err(LawFault::Broken { k: k as u32 });
            }
        }
        Ok(Bands { rows, law })
    }

    /// The top speed in km/h.
    pub fn top(&self) -> u32
        ensures top { result ≡ top_of self.now.rows }
        ensures kept { IsLawful self.now }
    {
        (self.rows.len() - 1) as u32
    }

    /// The law of the table. The values keep it at each squared speed, also between whole km/h.
    pub fn law(&self) -> Law
        ensures law { result ≡ self.now.law }
        ensures kept { IsLawful self.now }
        ensures between { (u : ℕ) → u < squared (top_of self.now.rows)
            → IsTrue (moves_within self.now.law 1
            (value_at self.now.rows u) (value_at self.now.rows (u + 1))) }
    {
        self.law
    }

    /// The value at a whole number of km/h.
    pub fn row(&self, k: u32) -> i64
        requires { k ≤ top_of self.now.rows }
        ensures value { result ≡ row self.now.rows k }
        ensures kept { IsLawful self.now }
    {
        self.rows[k as usize]
    }

    /// The value at a squared speed in (0.01 km/h)². Between two whole km/h it lies on the way from
    /// one value to the next, rounded down.
    pub fn at(&self, u: u32) -> i64
        requires { u ≤ squared (top_of self.now.rows) }
        ensures value { result ≡ value_at self.now.rows u }
        ensures most { result ≤ℤ pos greatest_value }
        ensures least { neg_ℤ (pos greatest_value) ≤ℤ result }
        ensures kept { IsLawful self.now }
    {
        value_near(&self.rows, u, &mut Near::new())
    }

    /// The same value as [`Bands::at`], found sooner where `near` is where `u` lies, which it then
    /// becomes.
    pub fn at_near(&self, u: u32, near: &mut Near) -> i64
        requires { u ≤ squared (top_of self.now.rows) }
        ensures value { result ≡ value_at self.now.rows u }
        ensures most { result ≤ℤ pos greatest_value }
        ensures least { neg_ℤ (pos greatest_value) ≤ℤ result }
        ensures kept { IsLawful self.now }
    {
        value_near(&self.rows, u, near)
    }

    /// The least value at a whole number of km/h. No value of the table is below it.
    pub fn least(&self) -> i64
        ensures row { IsLeastRow self.now.rows result }
        ensures least { (u : ℕ) → u ≤ squared (top_of self.now.rows)
            → result ≤ℤ value_at self.now.rows u }
        ensures row_most { result ≤ℤ pos greatest_value }
        ensures row_least { neg_ℤ (pos greatest_value) ≤ℤ result }
        ensures kept { IsLawful self.now }
    {
        least_of(&self.rows)
    }
}

// The least value at a whole number of km/h.
fn least_of(rows: &[i64]) -> i64
    requires { IsTable rows.now }
    ensures { IsLeastRow rows.now result }
{
    let mut least = rows[0];
    for k in 1..rows.len() {
        if rows[k] < least {
            least = rows[k];
        }
    }
    least
}

// Whether the values keep the law from `k` km/h to the next.
fn keeps_law_at(law: Law, low: i64, high: i64, k: u32) -> bool
    requires low_most { low ≤ℤ pos greatest_value }
    requires low_least { neg_ℤ (pos greatest_value) ≤ℤ low }
    requires high_most { high ≤ℤ pos greatest_value }
    requires high_least { neg_ℤ (pos greatest_value) ≤ℤ high }
    requires slow { k ≤ greatest_speed }
    ensures { result ≡ moves_within law (band_width k) low high }
{
    match law {
        Law::Drop { per } => low - high <= room_of(k, per) as i64,
        Law::Climb => high - low <= room_of(k, 1) as i64,
    }
}

// How far a value may change from `k` km/h to the next, at `per` for each squared speed.
fn room_of(k: u32, per: u32) -> u64
    requires { k ≤ greatest_speed }
    ensures room { result ≡ per * band_width k }
    ensures small { result < 10 ^ 17 }
{
    u64::from(per) * u64::from(10_000 * (2 * k + 1))
}

#[cfg(test)]
mod tests {
    use super::*;
    use run_rules::squared;
    use std::test::Fail;

    fn first_break(rows: Vec<i64>, law: Law) -> Option<u32>
        requires { IsTable rows.items }
    {
        match Bands::new(rows, law) {
            Ok(_bands) => None,
            Err(LawFault::Broken { k }) => Some(k),
        }
    }

    #[test]
    fn drops_just_met_and_just_broken(rt: HostRuntime) -> Result<(), Fail> {
        let effort = Law::Drop { per: 259200 };
        let met = vec![in rt.alloc(); 2592000000, 0, 0]?;
        assert!(rt; first_break(met, effort).is_none());
        let broken = vec![in rt.alloc(); 2592259200, 0, 0]?;
        assert!(rt; first_break(broken, effort) == Some(0));
        Ok(())
    }

    #[test]
    fn climbs_just_met_and_just_broken(rt: HostRuntime) -> Result<(), Fail> {
        let met = vec![in rt.alloc(); 12960, 22809]?;
        assert!(rt; first_break(met, Law::Climb).is_none());
        let broken = vec![in rt.alloc(); 12960, 25920]?;
        assert!(rt; first_break(broken, Law::Climb) == Some(0));
        Ok(())
    }

    // Whether a walk from speed to speed finds these values, and a look at each alone too.
    fn finds(bands: &Bands, speeds: &[u32], values: &[i64]) -> bool {
        let most = squared(bands.top());
        let mut near = Near::new();
        for k in 0..speeds.len().min(values.len()) {
            let u = speeds[k].min(most);
            if bands.at_near(u, &mut near) != values[k] || bands.at(u) != values[k] {
                return false;
            }
        }
        true
    }

    #[test]
    fn values_between_whole_speeds(rt: HostRuntime) -> Result<(), Fail> {
        let effort = Law::Drop { per: 259200 };
        let bands = Bands::new(vec![in rt.alloc(); 2592000000, 0]?, effort).expect(&rt, "lawful");
        assert!(rt; bands.top() == 1 && bands.law() == effort && bands.row(0) == 2592000000);
        assert!(rt; finds(&bands, &[0, 5000, 10000], &[2592000000, 1296000000, 0]));
        Ok(())
    }

    #[test]
    fn values_up_and_down(rt: HostRuntime) -> Result<(), Fail> {
        let bands = Bands::new(vec![in rt.alloc(); 100, -1, 7]?, Law::Climb).expect(&rt, "lawful");
        assert!(rt; bands.least() == -1);
        let speeds = [
            0, 5000, 10000, 25000, 40000, 39999, 10000, 9999, 5000, 40000, 0,
        ];
        let values = [100, 49, -1, 3, 7, 6, -1, -1, 49, 7, 100];
        assert!(rt; finds(&bands, &speeds, &values));
        Ok(())
    }
}
