//! Stock files: the keys that they hold, the rules that these may break, and the train that an
//! accepted file describes.
#![tactic(auto)]

mod curve;
mod document;
mod keys;
mod motion;
mod rules;
mod stock;

ghost use Rattle.std.specs.Prelude.{◌≡◌, Err, IfOk};
ghost use Rattle.unit_rules.specs.Memory.{Gives};
ghost use Rattle.stock_tables.specs.Stock.{IsStock};
ghost use Rattle.stock_tables.specs.StockFile.{read_as_stock};
ghost use Rattle.stock_tables.specs.declared.StockFault.TheVariants.{Memory as OutOfMemory};

use crate::document::read_document;
use crate::keys::read_keys;
pub use rules::{
    BRAKE_KEY, BRAKE_LAW, EFFORT_KEY, EFFORT_LAW, LENGTH_KEY, MASS_KEY, MISSING, OUT_OF_ORDER,
    OUT_OF_RANGE, RESISTANCE_KEY, ROTATING_KEY, TOP_KEY, WRONG_SHAPE,
};
use std::alloc::{AllocError, Global};
pub use stock::Stock;
use thiserror::Error;

/// Why a stock file is refused.
#[derive(Debug, Drop, Error)]
pub enum StockFault {
    /// The bytes are no TOML document.
    #[error("no TOML document")]
    NotToml,
    /// The first key that breaks a rule, and the least rule that it breaks.
    #[error("key {key} breaks rule {rule}")]
    Key { key: u32, rule: u32 },
    /// The table of that key, [`EFFORT_KEY`] or [`BRAKE_KEY`], breaks its law first from `k` km/h to
    /// the next.
    #[error("table {table} breaks its law from {k} km/h on")]
    Law { table: u32, k: u32 },
    #[error("out of memory")]
    Memory,
}

impl From<AllocError> for StockFault {
    ghost from_gives = { λ _ e. e ≡ OutOfMemory };

    fn from(_e: AllocError) -> StockFault {
        StockFault::Memory
    }
}

/// Reads a stock file: the train that it describes, or its first fault.
///
/// It is a TOML document with these keys, and others that are ignored:
///
/// | | key | holds |
/// |---|---|---|
/// | 1 | `mass` | the mass in kg, 1000 to 20000000 |
/// | 2 | `rotating` | what rotating parts add to it, in per mille, 0 to 300 |
/// | 3 | `length` | the length in metres, 1 to 5000 |
/// | 4 | `top` | the top speed in km/h, 1 to 500 |
/// | 5 | `effort` | rows `[kmh, newton]`, 0 to 500 and 0 to 3000000 |
/// | 6 | `resistance` | `[A, B, C]` of the form of Davis, in N, mN per km/h and mN per (km/h)², up to 1000000, 10000000 and 1000000 |
/// | 7 | `brake` | rows `[kmh, rate]`, 0 to 500 and 50 to 3000 mm/s² |
///
/// A key breaks rule 1 where it is missing, 2 where its type or shape is another, 3 where a number
/// is out of range, and 4 where there are fewer than two rows, or their speeds don't rise from 0 to
/// the top speed. Last come the laws of the tables: from `k` km/h to the next the push drops by at
/// most 10000·(2k+1) times the moved mass, and the braking climbs by at most 10000·(2k+1).
pub fn read_stock(alloc: Global, bytes: &[u8]) -> Result<Stock, StockFault>
    ensures stock { Gives (Err StockFault.Memory) (read_as_stock bytes.now) result }
    ensures kept { IfOk result IsStock }
{
    let document = read_document(alloc, bytes)?;
    let keys = read_keys(alloc, &document)?;
    Stock::new(alloc, keys)
}
