//! The fastest run of a train over a line by a plan, kept while restrictions are put in force and
//! taken out: an edit costs what it touches.
#![tactic(auto)]

mod envelope;
mod run;
mod scratch;
#[cfg(test)]
mod tests;
mod walks;

pub use crate::envelope::Envelope;
pub use crate::run::Drive;
pub use crate::scratch::{braking_list, drive};
