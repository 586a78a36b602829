//! The grammar of the documents: their shapes, their spelling, and where bytes are refused.
#![tactic(auto)]

pub mod draft;
pub mod fields;
mod front;
pub mod laws;
pub mod machine;
mod reason_words;
pub mod refusals;
pub mod shapes;
pub mod stacks;
pub mod whole;
