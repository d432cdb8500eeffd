//! Curves: values by speed, straight between the rows of a table.

ghost use Rattle.std.specs.Prelude.{◌≡◌, ◌+◌, ◌≤◌, ◌<◌, pos, ◌*ℤ◌, unsigned_abs, Some, None, if◌then◌else◌, All, IfOk, IfSome, slice_index};
ghost use Rattle.unit_rules.specs.Limits.{greatest_speed};
ghost use Rattle.unit_rules.specs.Quotients.{floor_div};
ghost use Rattle.stock_tables.specs.Walk.{IsPassed};
ghost use Rattle.stock_tables.specs.Curve.{IsCurve, IsCurveTo, IsRow, are_in_order, is_rising, last_speed, speeds, value_on, values_to};

use std::alloc::{AllocError, Global};
use std::marker::Model;

/// A row of a table by speed: a speed in km/h, and the value there.
#[derive(Clone, Copy)]
pub(crate) struct Row {
    pub kmh: u32,
    pub value: u32,
}

/// A table of values by speed, at rising speeds from 0 km/h on. Between two rows the values lie on
/// the way from one to the next.
#[derive(Drop)]
pub(crate) struct Curve {
    rows: Vec<Row>,
}

impl Model for Curve {
    ghost use Rattle.std.specs.Prelude.{List};
    ghost use Rattle.stock_tables.specs.Curve.{IsCurve};
    ghost use Rattle.stock_tables.specs.declared.curve.Row.{Row};

    ghost Value = { List Row };

    ghost view = { λ c. c.rows.items };

    ghost invariant = { λ c. IsCurve c.rows.items };
}

fn is_rising(rows: &[Row]) -> bool
    ensures { result ≡ is_rising (speeds rows.now) }
{
    for i in 1..rows.len() {
        if rows[i - 1].kmh >= rows[i].kmh {
            return false;
        }
    }
    true
}

fn are_in_order(rows: &[Row], top: u32) -> bool
    ensures { result ≡ are_in_order top rows.now }
{
    if rows.len() < 2 {
        return false;
    }
    rows[0].kmh == 0 && rows[rows.len() - 1].kmh == top && is_rising(rows)
}

// That many parts of all of a rise, rounded down.
fn part_of(rise: i64, part: u32, all: u32) -> i64
    requires small { unsigned_abs rise ≤ 3000000 }
    requires inside { part ≤ all }
    requires some { 0 < all }
    requires few { all ≤ greatest_speed }
    ensures { result ≡ floor_div (rise *ℤ pos part) all }
{
    (rise * i64::from(part)).div_euclid(i64::from(all))
}

// The value at a speed on the way from one row to the next.
fn value_on(here: Row, there: Row, kmh: u32) -> i64
    requires here { IsRow here }
    requires there { IsRow there }
    requires from { here.kmh ≤ kmh }
    requires to { kmh ≤ there.kmh }
    requires rises { here.kmh < there.kmh }
    ensures { result ≡ value_on (here, there) kmh }
{
    let rise = i64::from(there.value) - i64::from(here.value);
    i64::from(here.value) + part_of(rise, kmh - here.kmh, there.kmh - here.kmh)
}

// The place of the row from which the way to the next row leads to a speed, at `from` or after it.
fn place_of(rows: &[Row], from: usize, kmh: u32) -> usize
    requires from { IsPassed rows.now from kmh }
    requires on_curve { kmh ≤ last_speed rows.now }
    ensures place { IsPassed rows.now result kmh }
    ensures next { kmh ≤ slice_index (speeds rows.now) (result + 1) }
{
    let mut place = from;
    while place + 2 < rows.len() && rows[place + 1].kmh < kmh {
        place += 1;
    }
    place
}

// The values of a curve at 0, 1, .. up to its top speed.
fn values_to(alloc: Global, rows: &[Row], top: u32) -> Result<Vec<i64>, AllocError>
    requires curve { IsCurve rows.now }
    requires top { last_speed rows.now ≡ top }
    ensures { IfOk result (λ v. v.items ≡ values_to top rows.now) }
{
    let mut values = Vec::new(alloc);
    let mut place = 0;
    for kmh in 0..top + 1 {
        place = place_of(rows, place, kmh);
        values.push(value_on(rows[place], rows[place + 1], kmh))?;
    }
    Ok(values)
}

impl Curve {
    /// The curve of these rows, where they are in order up to the top speed.
    pub(crate) fn new(rows: Vec<Row>, top: u32) -> Option<Curve>
        requires { All IsRow rows.items }
        ensures value { result ≡ (if are_in_order top rows.items then Some rows.items else None) }
        ensures curve { IfSome result (IsCurveTo top) }
    {
        if are_in_order(&rows, top) {
            Some(Curve { rows })
        } else {
            None
        }
    }

    /// The values at 0, 1, .. up to the top speed, which is that of the last row.
    pub(crate) fn values_to(&self, alloc: Global, top: u32) -> Result<Vec<i64>, AllocError>
        requires { last_speed self.now ≡ top }
        ensures value { IfOk result (λ v. v.items ≡ values_to top self.now) }
        ensures kept { IsCurve self.now }
    {
        values_to(alloc, &self.rows, top)
    }
}
