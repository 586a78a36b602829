//! Conformance cases of documents: bytes, with what a reader must make of them.
#![tactic(auto)]

mod case;
mod reading;
mod runs;
pub mod shipped;
mod vectors;

pub use case::{Case, CaseOutcome};
pub use vectors::Vectors;
