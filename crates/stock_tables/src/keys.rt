//! The values of the keys of a stock file.

ghost use Rattle.std.specs.Prelude.{◌≡◌, ◌≤◌, Err, IfOk, All};
ghost use Rattle.toml.specs.View.{table_view};
ghost use Rattle.unit_rules.specs.Memory.{Gives};
ghost use Rattle.stock_tables.specs.Keys.{AreKeys};
ghost use Rattle.stock_tables.specs.StockFile.{at_key, keys_of};

use crate::StockFault;
use crate::curve::Curve;
use crate::document::{KeyFault, key_curve, key_number, key_resistance};
use crate::motion::Resistance;
use crate::rules::{
    BRAKE_KEY, EFFORT_KEY, LENGTH_KEY, MASS_KEY, RESISTANCE_KEY, ROTATING_KEY, TOP_KEY,
};
use std::alloc::Global;
use toml::Table;
use unit_rules::{GREATEST_SPEED, LONGEST_TRAIN};

/// The values of the keys.
#[derive(Drop)]
pub(crate) struct Keys {
    /// The mass in kg.
    pub mass: u32,
    /// What rotating parts add to it, in per mille.
    pub rotating: u32,
    /// The length in metres.
    pub length: u32,
    /// The top speed in km/h.
    pub top: u32,
    /// The effort by speed, in N.
    pub effort: Curve,
    /// The running resistance.
    pub resistance: Resistance,
    /// The rate of braking by speed, in mm/s².
    pub brake: Curve,
}

// The answer of a file to that of its key with that number.
fn at_key<T>(number: u32, read: Result<T, KeyFault>) -> Result<T, StockFault>
    ensures { result ≡ at_key number read }
{
    match read {
        Ok(value) => Ok(value),
        Err(KeyFault::Rule(rule)) => Err(StockFault::Key { key: number, rule }),
        Err(KeyFault::Memory) => Err(StockFault::Memory),
    }
}

/// The values of the keys of a document, or the first one that breaks a rule.
pub(crate) fn read_keys(alloc: Global, document: &Table) -> Result<Keys, StockFault>
    ensures value { Gives (Err StockFault.Memory) (keys_of (table_view document.now)) result }
    ensures ranges { IfOk result AreKeys }
{
    let mass = at_key(MASS_KEY, key_number(document, "mass", 1000, 20_000_000))?;
    let rotating = at_key(ROTATING_KEY, key_number(document, "rotating", 0, 300))?;
    let length = at_key(LENGTH_KEY, key_number(document, "length", 1, LONGEST_TRAIN))?;
    let top = at_key(TOP_KEY, key_number(document, "top", 1, GREATEST_SPEED))?;
    let effort = at_key(
        EFFORT_KEY,
        key_curve(alloc, document, "effort", (0, 3_000_000), top),
    )?;
    let resistance = at_key(RESISTANCE_KEY, key_resistance(document, "resistance"))?;
    let brake = at_key(
        BRAKE_KEY,
        key_curve(alloc, document, "brake", (50, 3000), top),
    )?;
    Ok(Keys {
        mass,
        rotating,
        length,
        top,
        effort,
        resistance,
        brake,
    })
}
