//! The markup texts of the documents, and their names.
#![tactic(auto)]

pub mod markup;
pub mod names;
pub mod runs;
pub mod table;
