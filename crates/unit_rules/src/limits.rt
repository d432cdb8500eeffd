//! The greatest numbers that rtime takes.

/// The longest line, in metres.
pub const LONGEST_LINE: u32 = 500_000;

/// The longest train, in metres.
pub const LONGEST_TRAIN: u32 = 5_000;

/// The greatest speed, in km/h.
pub const GREATEST_SPEED: u32 = 500;

/// The most bytes of a file.
pub const MOST_BYTES: u64 = 67_108_864;

/// The greatest number of a made-up case.
pub const MOST_SEED: u32 = 1_000_000;
