//! The fastest run of a train, and what is kept of it.

use time_brackets::Sums;
use unit_rules::Reach;

/// The fastest run of a train, or what goes before its stall: squared speeds by point, in
/// (0.01 km/h)².
#[derive(Drop)]
pub struct Drive {
    /// The braking list: the greatest ones from which the train can brake for all that is ahead.
    pub brakes: Vec<u32>,
    /// The greatest ones of the train, up to the end of the line or to the stall.
    pub speeds: Vec<u32>,
    /// How far the train gets.
    pub reach: Reach,
}

// The braking list and the squared speeds by point, in (0.01 km/h)², how far the train gets, and the
// sums of its times. Speeds from a stalled point on mean nothing.
#[derive(Drop)]
pub(crate) struct Run {
    pub(crate) brakes: Vec<u32>,
    pub(crate) speeds: Vec<u32>,
    pub(crate) reach: Reach,
    pub(crate) sums: Sums,
}
