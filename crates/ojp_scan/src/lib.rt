//! The search for earliest arrivals in the timetable of one region.
//!
//! A scan keeps the hops of the timetable by their departures. Started, it looks once at each of those that
//! leave within a day from the start, and keeps a label for each stop: the earliest arrival that was found.
//! Contracts say what a caller sees: the arrivals are the earliest of all regional journeys.
#![tactic(auto)]

pub mod answers;
mod days;
mod hops;
mod legs;
mod networks;
mod rows;
mod scans;
mod views;

pub use hops::Hop;
pub use scans::Scan;
