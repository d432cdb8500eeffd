//! What the figures of a train mean for the square of its speed, in (0.01 km/h)².
//!
//! Uniform acceleration over a distance changes the squared speed by twice their product. Over a
//! metre each m/s² changes it by 2·360² = 259200, since 1 m/s is 360 times 0.01 km/h.

ghost use Rattle.std.specs.Prelude.{◌≡◌, ℕ, ◌≤◌, ◌<◌, ◌-◌, ◌+◌, pos, ◌≤ℤ◌, length, map};
ghost use Rattle.std.specs.List.{range_with_len};
ghost use Rattle.unit_rules.specs.Limits.{greatest_speed};
ghost use Rattle.run_rules.specs.Grids.{row, top_of};
ghost use Rattle.stock_tables.specs.Motion.{IsResistance, brake_loss, moved_mass, net_push, resistance_at};

/// The running resistance of a train, in the form of Davis: a constant part, a part that grows with
/// the speed, and a part that grows with its square.
#[derive(Clone, Copy)]
pub(crate) struct Resistance {
    /// What it is at any speed, in N.
    pub constant: u32,
    /// What each km/h adds, in mN.
    pub linear: u32,
    /// What each (km/h)² adds, in mN.
    pub quadratic: u32,
}

// The resistance at a speed, in mN.
fn resistance_at(resistance: Resistance, kmh: u32) -> u64
    requires resistance { IsResistance resistance }
    requires slow { kmh ≤ greatest_speed }
    ensures value { result ≡ resistance_at resistance kmh }
    ensures small { result ≤ 256000000000 }
{
    let kmh = u64::from(kmh);
    let linear = u64::from(resistance.linear) * kmh;
    let quadratic = u64::from(resistance.quadratic) * (kmh * kmh);
    1000 * u64::from(resistance.constant) + linear + quadratic
}

/// The mass that has to be moved, in kg, where rotating parts add so many per mille to the mass.
pub(crate) fn moved_mass(mass: u32, rotating: u32) -> u32
    requires light { 1000 ≤ mass }
    requires heavy { mass ≤ 20000000 }
    requires rotating { rotating ≤ 300 }
    ensures value { result ≡ moved_mass mass rotating }
    ensures least { 1000 ≤ result }
    ensures most { result ≤ 26000000 }
{
    (u64::from(mass) * (1000 + u64::from(rotating))).div_ceil(1000) as u32
}

// The push of an effort in N against a resistance in mN, where 259200/1000 is 1296/5.
fn net_push(effort: i64, resistance: u64) -> i64
    requires least { pos 0 ≤ℤ effort }
    requires most { effort ≤ℤ pos 3000000 }
    requires resistance { resistance ≤ 256000000000 }
    ensures { result ≡ net_push effort resistance }
{
    let against = (1296 * resistance).div_ceil(5);
    259_200 * effort - against as i64
}

// What braking at a rate in mm/s² takes from the squared speed over a metre, where 259200/1000 is
// 2592/10.
fn brake_loss(rate: i64) -> i64
    requires least { pos 0 ≤ℤ rate }
    requires most { rate ≤ℤ pos 3000000 }
    ensures { result ≡ brake_loss rate }
{
    (2592 * rate).div_euclid(10)
}

/// The push at 0, 1, .. km/h, from the efforts there in N.
pub(crate) fn push_rows(efforts: Vec<i64>, resistance: Resistance) -> Vec<i64>
    requires resistance { IsResistance resistance }
    requires few { length efforts.items ≤ 501 }
    requires least { (k : ℕ) → k < length efforts.items → pos 0 ≤ℤ row efforts.items k }
    requires most { (k : ℕ) → k < length efforts.items → row efforts.items k ≤ℤ pos 3000000 }
    ensures { result.items ≡ map (λ k. net_push (row efforts.items k) (resistance_at resistance k))
        (range_with_len 0 (length efforts.items)) }
{
    let mut rows = efforts;
    for k in 0..rows.len() {
        rows[k] = net_push(rows[k], resistance_at(resistance, k as u32));
    }
    rows
}

/// What braking takes at 0, 1, .. km/h, from its rates there in mm/s².
pub(crate) fn brake_rows(rates: Vec<i64>) -> Vec<i64>
    requires least { (k : ℕ) → k < length rates.items → pos 0 ≤ℤ row rates.items k }
    requires most { (k : ℕ) → k < length rates.items → row rates.items k ≤ℤ pos 3000000 }
    ensures { result.items ≡ map (λ k. brake_loss (row rates.items k))
        (range_with_len 0 (length rates.items)) }
{
    let mut rows = rates;
    for k in 0..rows.len() {
        rows[k] = brake_loss(rows[k]);
    }
    rows
}
