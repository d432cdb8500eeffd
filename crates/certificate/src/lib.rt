//! Certificates: for each point of a line the greatest squared speed from which the train can still
//! brake for all that is ahead, and the greatest that it can have there; and how far it gets. Their
//! text is written and read here.
#![tactic(auto)]

mod lines;
mod reading;
mod rows;
#[cfg(test)]
mod tests;
mod writing;

pub use reading::{Cert, CertText, read_cert};
pub use writing::write_cert;
