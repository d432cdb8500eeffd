//! What a run of rtime reads, and how it ends: the files of each kind, fetched by name and read, and the
//! statuses by which their faults, and the ends of all else, are told.
#![tactic(auto)]

mod cases;
mod edits;
mod files;
mod status;

pub use cases::{Case, Claim};
pub use files::{INPUT, load_both, load_case, load_claim, load_line, load_stock, read_case};
pub use status::Status;
