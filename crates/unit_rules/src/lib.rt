//! The rules of units that every layer shares: want of memory, numerals, exact quotients and roots,
//! zones of a line, and a counter of steps.
#![tactic(auto)]

mod counter;
mod divisors;
mod limits;
mod numerals;
mod quotients;
mod roots;

pub use counter::Steps;
pub use divisors::Divisor;
pub use limits::{GREATEST_SPEED, LONGEST_LINE, LONGEST_TRAIN, MOST_BYTES, MOST_SEED};
pub use numerals::{number_in, read_whole, signed_within, within};
pub use quotients::{div_ceil, div_floor};
pub use roots::{both_roots, root_ceil, root_floor};

/// Memory was wanted and could not be had.
#[derive(Clone, Copy, Debug, PartialEq, Eq)]
pub struct Memory;

/// How far a train gets.
#[derive(Clone, Copy, Debug, PartialEq, Eq)]
pub enum Reach {
    /// To the end of the line.
    Whole,
    /// Point `k` is the first that no train gets to which can still keep the limits and stops ahead.
    Stalled { k: u32 },
}

/// The greatest squared speed at one point, in (0.01 km/h)².
#[derive(Clone, Copy, Debug, PartialEq, Eq)]
pub struct Bound {
    /// The point.
    pub at: u32,
    /// The greatest squared speed there.
    pub most: u32,
}

/// A speed of `kmh` km/h over the metres from point `from` up to point `to` of a line.
#[derive(Clone, Copy, Debug, PartialEq, Eq)]
pub struct Zone {
    /// The point at which it begins.
    pub from: u32,
    /// The point at which it ends.
    pub to: u32,
    /// The speed in km/h.
    pub kmh: u32,
}
