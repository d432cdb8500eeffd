//! TOML documents, and what the keys of one hold.

ghost use Rattle.std.specs.Result.{result_map_both};
ghost use Rattle.stock_tables.specs.StockFile.{document_of};
ghost use Rattle.std.specs.Prelude.{◌≡◌, ℕ, ◌≤◌, IfOk, IfSome, Err, option_map, option_and_then, map, All};
ghost use Rattle.unit_rules.specs.Memory.{Gives};
ghost use Rattle.toml.specs.Data.{get_member};
ghost use Rattle.toml.specs.View.{table_view, view};
ghost use Rattle.stock_tables.specs.Curve.{IsCurveTo, IsRow};
ghost use Rattle.stock_tables.specs.Key.{each, elements, key_number, key_resistance, key_rows, pair_of, resistance_from, row_in, three_in};
ghost use Rattle.stock_tables.specs.Motion.{IsResistance};
ghost use Rattle.stock_tables.specs.declared.document.KeyFault.TheVariants.{Memory as OutOfMemory};

use crate::StockFault;
use crate::curve::{Curve, Row};
use crate::motion::Resistance;
use crate::rules::{MISSING, OUT_OF_ORDER, OUT_OF_RANGE, WRONG_SHAPE};
use std::alloc::{AllocError, Global};
use toml::{Table, Value};
use unit_rules::{GREATEST_SPEED, within};

/// Why a key isn't read.
#[derive(Debug, Drop)]
pub(crate) enum KeyFault {
    /// The least rule that it breaks.
    Rule(u32),
    Memory,
}

impl From<AllocError> for KeyFault {
    ghost from_gives = { λ _ e. e ≡ OutOfMemory };

    fn from(_e: AllocError) -> KeyFault {
        KeyFault::Memory
    }
}

/// The document that the bytes of a file are.
pub(crate) fn read_document(alloc: Global, bytes: &[u8]) -> Result<Table, StockFault>
    ensures { Gives (Err StockFault.Memory) (document_of bytes.now)
        (result_map_both table_view (λ e. e) result) }
{
    match toml::table_from_slice(alloc, bytes) {
        Ok(document) => Ok(document),
        Err(error) => {
            if error.is_memory() {
                Err(StockFault::Memory)
            } else {
                Err(StockFault::NotToml)
            }
        }
    }
}

// What a key holds.
fn find<'a>(document: &'a Table, key: &str) -> Option<&'a Value>
    ensures { option_map (λ v. view v.now) result ≡ get_member key.now (table_view document.now) }
{
    document.get(key)
}

/// The number from `low` to `high` at a key.
pub(crate) fn key_number(document: &Table, key: &str, low: u32, high: u32) -> Result<u32, KeyFault>
    ensures value { result ≡ key_number low high (get_member key.now (table_view document.now)) }
    ensures ranges { IfOk result (λ n. (low ≤ n) × (n ≤ high)) }
{
    let Some(value) = find(document, key) else {
        return Err(KeyFault::Rule(MISSING));
    };
    let Some(number) = value.as_integer() else {
        return Err(KeyFault::Rule(WRONG_SHAPE));
    };
    match within(low, high, number) {
        Some(number) => Ok(number),
        None => Err(KeyFault::Rule(OUT_OF_RANGE)),
    }
}

/// The rows at a key, whose values are from `low` to `high` and whose last speed is the top speed.
pub(crate) fn key_curve(
    alloc: Global,
    document: &Table,
    key: &str,
    values: (u32, u32),
    top: u32,
) -> Result<Curve, KeyFault>
    requires { values.1 ≤ 3000000 }
    ensures value { Gives (Err KeyFault.Memory)
        (key_rows values.0 values.1 top (get_member key.now (table_view document.now))) result }
    ensures curve { IfOk result (IsCurveTo top) }
    ensures least { IfOk result (All (λ r. values.0 ≤ r.value)) }
{
    let Some(value) = find(document, key) else {
        return Err(KeyFault::Rule(MISSING));
    };
    let Some(pairs) = pairs(alloc, value)? else {
        return Err(KeyFault::Rule(WRONG_SHAPE));
    };
    let Some(rows) = rows(alloc, &pairs, values.0, values.1)? else {
        return Err(KeyFault::Rule(OUT_OF_RANGE));
    };
    match Curve::new(rows, top) {
        Some(curve) => Ok(curve),
        None => Err(KeyFault::Rule(OUT_OF_ORDER)),
    }
}

// The elements of an array.
fn elements(value: &Value) -> Option<&[Value]>
    ensures { option_map (λ vs. map view vs.now) result ≡ elements (view value.now) }
{
    match value.as_array() {
        Some(array) => Some(array.as_slice()),
        None => None,
    }
}

// An array of two integers.
fn pair(value: &Value) -> Option<(i64, i64)>
    ensures { result ≡ pair_of (view value.now) }
{
    match elements(value)? {
        [first, second] => Some((first.as_integer()?, second.as_integer()?)),
        _ => None,
    }
}

// An array of arrays of two integers.
fn pairs(alloc: Global, value: &Value) -> Result<Option<Vec<(i64, i64)>>, AllocError>
    ensures { IfOk result (λ o. option_map (λ v. v.items) o
        ≡ option_and_then (each pair_of) (elements (view value.now))) }
{
    let Some(values) = elements(value) else {
        return Ok(None);
    };
    let mut pairs = Vec::new(alloc);
    for value in values {
        match pair(value) {
            Some(pair) => pairs.push(pair)?,
            None => return Ok(None),
        }
    }
    Ok(Some(pairs))
}

// The row of a speed and a value from `low` to `high`.
fn row_in(pair: (i64, i64), low: u32, high: u32) -> Option<Row>
    requires { high ≤ 3000000 }
    ensures value { result ≡ row_in low high pair }
    ensures ranges { IfSome result IsRow }
    ensures least { IfSome result (λ r. low ≤ r.value) }
{
    let kmh = within(0, GREATEST_SPEED, pair.0)?;
    let value = within(low, high, pair.1)?;
    Some(Row { kmh, value })
}

// The rows of speeds and of values from `low` to `high`.
fn rows(
    alloc: Global,
    pairs: &[(i64, i64)],
    low: u32,
    high: u32,
) -> Result<Option<Vec<Row>>, AllocError>
    requires { high ≤ 3000000 }
    ensures value { IfOk result
        (λ o. option_map (λ v. v.items) o ≡ each (row_in low high) pairs.now) }
    ensures ranges { IfOk result (λ o. IfSome o (λ v. All IsRow v.items)) }
    ensures least { IfOk result (λ o. IfSome o (λ v. All (λ r. low ≤ r.value) v.items)) }
{
    let mut rows = Vec::new(alloc);
    for pair in pairs {
        match row_in(*pair, low, high) {
            Some(row) => rows.push(row)?,
            None => return Ok(None),
        }
    }
    Ok(Some(rows))
}

// An array of three integers.
fn three(value: &Value) -> Option<(i64, (i64, i64))>
    ensures { result ≡ option_and_then three_in (elements (view value.now)) }
{
    match elements(value)? {
        [first, second, third] => {
            let first = first.as_integer()?;
            let second = second.as_integer()?;
            let third = third.as_integer()?;
            Some((first, (second, third)))
        }
        _ => None,
    }
}

// The resistance of three numbers in their ranges.
fn resistance_from(three: (i64, (i64, i64))) -> Option<Resistance>
    ensures value { result ≡ resistance_from three }
    ensures ranges { IfSome result IsResistance }
{
    let constant = within(0, 1_000_000, three.0)?;
    let linear = within(0, 10_000_000, three.1.0)?;
    let quadratic = within(0, 1_000_000, three.1.1)?;
    Some(Resistance {
        constant,
        linear,
        quadratic,
    })
}

/// The resistance at a key.
pub(crate) fn key_resistance(document: &Table, key: &str) -> Result<Resistance, KeyFault>
    ensures value { result ≡ key_resistance (get_member key.now (table_view document.now)) }
    ensures ranges { IfOk result IsResistance }
{
    let Some(value) = find(document, key) else {
        return Err(KeyFault::Rule(MISSING));
    };
    let Some(three) = three(value) else {
        return Err(KeyFault::Rule(WRONG_SHAPE));
    };
    match resistance_from(three) {
        Some(resistance) => Ok(resistance),
        None => Err(KeyFault::Rule(OUT_OF_RANGE)),
    }
}
