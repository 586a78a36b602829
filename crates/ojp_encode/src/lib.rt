//! Writes the documents as they are spelled, and tells how long they are.
#![tactic(auto)]

mod asks;
mod documents;
mod faults;
mod lengths;
mod lists;
mod markup;
mod names;
mod points;
mod replies;
mod spelled;
mod stop_events;
mod trips;

pub use documents::{length, write};
