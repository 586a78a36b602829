//! Laws of the networks that are made from numbers.
#![tactic(auto)]

pub mod laws;
