//! A search over many regions, as a future of `futures`: each poll is one turn and one rest.
#![tactic(auto)]

mod searching;

pub use searching::{Searching, Sought};
