//! Commands of sessions and of files of edits, and the restrictions that they put in force.
#![tactic(auto)]

mod commands;
mod edits;
mod force;
mod ids;
mod seats;
#[cfg(test)]
mod tests;
mod words;

pub use commands::{Command, CommandFault, read_command};
pub use edits::{EditsFault, FirstLine, first_line, read_edits, without_cr};
pub use force::{EditFault, InForce, MOST_IN_FORCE};
pub use ids::Id;
