//! The record of a search: its queries and replies, and the laws of what it may conclude.
#![tactic(auto)]

pub mod examples;
pub mod laws;
mod places;
mod queries;

pub use places::PlaceState;
pub use queries::{Entry, Query, same_query};
