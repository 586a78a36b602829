//! The board of a search: it stores the record, and answers from it at once what is wanted, what is best and how it
//! ends.
#![tactic(auto)]

mod board;
mod comparing;
mod faults;
mod hearing;
mod labels;
mod starting;
mod states;
mod targets;

pub use board::Board;
pub use ojp_records::{Entry, PlaceState, Query, examples, laws};
