//! What a session replies to its lines: a train on a line by a plan, with the restrictions that its
//! lines put in force and take out; and the summary of a session whose replies nobody reads.
#![tactic(auto)]

mod answers;
mod commands;
mod replies;
mod session;
mod summary;
#[cfg(test)]
mod tests;

pub use answers::{Answer, Change};
pub use session::Session;
pub use summary::{Summary, Tally, summarize, write_summary};
