//! The train that a stock file describes.

ghost use Rattle.std.specs.Prelude.{◌≡◌, ◌≤◌, Err, All, IfOk};
ghost use Rattle.table_laws.specs.Laws.{IsLawful, IsTable, broken_at};
ghost use Rattle.table_laws.specs.declared.Law.TheVariants.{Climb, Drop as Drops};
ghost use Rattle.unit_rules.specs.Memory.{Gives};
ghost use Rattle.stock_tables.specs.Curve.{IsCurveTo};
ghost use Rattle.stock_tables.specs.Keys.{AreKeys};
ghost use Rattle.stock_tables.specs.Motion.{IsResistance, brake_rows, push_rows};
ghost use Rattle.stock_tables.specs.Rules.{brake_key, effort_key};
ghost use Rattle.stock_tables.specs.Stock.{IsStock, IsStrong, IsTableTo};
ghost use Rattle.stock_tables.specs.StockFile.{lawful_table, stock_of};

use crate::StockFault;
use crate::curve::Curve;
use crate::keys::Keys;
use crate::motion::{Resistance, brake_rows, moved_mass, push_rows};
use crate::rules::{BRAKE_KEY, EFFORT_KEY};
use std::alloc::Global;
use std::marker::Model;
use table_laws::{Bands, Law, LawFault};

/// A train: its masses, its length, its top speed, and its tables of push and braking by speed.
#[derive(Drop)]
pub struct Stock {
    mass: u32,
    moved_mass: u32,
    length: u32,
    top: u32,
    push: Bands,
    brake: Bands,
}

impl Model for Stock {
    ghost use Rattle.stock_tables.specs.Stock.{IsStock, StockView};

    ghost Value = { StockView };

    ghost view = { λ s. record {
      mass = s.mass;
      moved_mass = s.moved_mass;
      length = s.length;
      top = s.top;
      push = s.push;
      brake = s.brake;
    } };

    ghost invariant = { λ s. IsStock (record {
      mass = s.mass;
      moved_mass = s.moved_mass;
      length = s.length;
      top = s.top;
      push = s.push;
      brake = s.brake;
    }) };
}

// The first speed from which values break their law, in km/h.
fn broken_at(fault: LawFault) -> u32
    ensures { result ≡ broken_at fault }
{
    match fault {
        LawFault::Broken { k } => k,
    }
}

// The table of the key with that number, or the first speed from which its values break the law.
fn lawful_table(number: u32, law: Law, rows: Vec<i64>) -> Result<Bands, StockFault>
    requires { IsTable rows.items }
    ensures value { result ≡ lawful_table number law rows.items }
    ensures kept { IfOk result IsLawful }
{
    match Bands::new(rows, law) {
        Ok(bands) => Ok(bands),
        Err(fault) => Err(StockFault::Law {
            table: number,
            k: broken_at(fault),
        }),
    }
}

// The table of push of a train with that moved mass.
fn push_of(
    alloc: Global,
    top: u32,
    effort: &Curve,
    resistance: Resistance,
    moved_mass: u32,
) -> Result<Bands, StockFault>
    requires effort { IsCurveTo top effort.now }
    requires resistance { IsResistance resistance }
    requires some { 1 ≤ top }
    ensures value { Gives (Err StockFault.Memory)
        (lawful_table effort_key (Drops moved_mass) (push_rows top effort.now resistance)) result }
    ensures kept { IfOk result (IsTableTo top (Drops moved_mass)) }
{
    let efforts = effort.values_to(alloc, top)?;
    let law = Law::Drop { per: moved_mass };
    lawful_table(EFFORT_KEY, law, push_rows(efforts, resistance))
}

// The table of braking.
fn brake_of(alloc: Global, top: u32, rates: &Curve) -> Result<Bands, StockFault>
    requires rates { IsCurveTo top rates.now }
    requires strong { All (λ r. 50 ≤ r.value) rates.now }
    requires some { 1 ≤ top }
    ensures value { Gives (Err StockFault.Memory)
        (lawful_table brake_key Climb (brake_rows top rates.now)) result }
    ensures kept { IfOk result (IsTableTo top Climb) }
    ensures strong { IfOk result (IsStrong top) }
{
    let rates = rates.values_to(alloc, top)?;
    lawful_table(BRAKE_KEY, Law::Climb, brake_rows(rates))
}

impl Stock {
    /// The train that the values of the keys describe, or the first speed from which a table breaks
    /// its law.
    pub(crate) fn new(alloc: Global, keys: Keys) -> Result<Stock, StockFault>
        requires { AreKeys keys }
        ensures stock { Gives (Err StockFault.Memory) (stock_of keys) result }
        ensures kept { IfOk result IsStock }
    {
        let moved_mass = moved_mass(keys.mass, keys.rotating);
        let push = push_of(alloc, keys.top, &keys.effort, keys.resistance, moved_mass)?;
        let brake = brake_of(alloc, keys.top, &keys.brake)?;
        Ok(Stock {
            mass: keys.mass,
            moved_mass,
            length: keys.length,
            top: keys.top,
            push,
            brake,
        })
    }

    /// The mass in kg.
    pub fn mass(&self) -> u32
        ensures mass { result ≡ self.now.mass }
        ensures kept { IsStock self.now }
    {
        self.mass
    }

    /// The mass that has to be moved, in kg: the mass and what its rotating parts add to it.
    pub fn moved_mass(&self) -> u32
        ensures moved_mass { result ≡ self.now.moved_mass }
        ensures kept { IsStock self.now }
    {
        self.moved_mass
    }

    /// The length in metres.
    pub fn length(&self) -> u32
        ensures length { result ≡ self.now.length }
        ensures kept { IsStock self.now }
    {
        self.length
    }

    /// The top speed in km/h.
    pub fn top(&self) -> u32
        ensures top { result ≡ self.now.top }
        ensures kept { IsStock self.now }
    {
        self.top
    }

    /// The push at each whole km/h: divided by the moved mass, it is what full effort adds to the
    /// squared speed over a level metre.
    pub fn push(&self) -> &Bands
        ensures push { result.now ≡ self.now.push }
        ensures kept { IsStock self.now }
    {
        &self.push
    }

    /// What braking takes from the squared speed over a metre, at each whole km/h.
    pub fn brake(&self) -> &Bands
        ensures brake { result.now ≡ self.now.brake }
        ensures kept { IsStock self.now }
    {
        &self.brake
    }

    /// The tables of push and braking.
    pub fn into_bands(self) -> (Bands, Bands)
        ensures push { result.0 ≡ self.push }
        ensures brake { result.1 ≡ self.brake }
        ensures kept { IsStock self }
    {
        (self.push, self.brake)
    }
}
