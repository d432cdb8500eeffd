//! The keys of a stock file, and the rules of a key, by number. Keys are judged in this order, and
//! each of them by the rules in theirs.

/// The key `mass`.
pub const MASS_KEY: u32 = 1;

/// The key `rotating`.
pub const ROTATING_KEY: u32 = 2;

/// The key `length`.
pub const LENGTH_KEY: u32 = 3;

/// The key `top`.
pub const TOP_KEY: u32 = 4;

/// The key `effort`, and its table.
pub const EFFORT_KEY: u32 = 5;

/// The key `resistance`.
pub const RESISTANCE_KEY: u32 = 6;

/// The key `brake`, and its table.
pub const BRAKE_KEY: u32 = 7;

/// The key is missing.
pub const MISSING: u32 = 1;

/// What the key holds is of another type or shape.
pub const WRONG_SHAPE: u32 = 2;

/// A number is outside its range.
pub const OUT_OF_RANGE: u32 = 3;

/// There are fewer than two rows, or their speeds don't rise from 0 to the top speed.
pub const OUT_OF_ORDER: u32 = 4;

/// The effort breaks its law.
pub const EFFORT_LAW: u32 = 5;

/// The brakes break their law.
pub const BRAKE_LAW: u32 = 6;
