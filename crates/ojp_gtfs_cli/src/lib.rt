//! The program `ojp_gtfs` as a call over the words, a folder, a store and the streams that are handed in.
#![tactic(auto)]

mod converting;
mod days;
mod failures;
mod fitting;
mod report;
mod running;
mod words;
mod zones;

pub use running::run;
