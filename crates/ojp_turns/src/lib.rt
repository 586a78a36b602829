//! A search over regions, by turns: several subrequests are live at once, and just those that the search wants.
#![tactic(auto)]

pub mod asking;
mod cancelling;
pub mod kept;
mod polling;
mod search;
mod tracing;

pub use search::{Outcome, Search, Turn};
