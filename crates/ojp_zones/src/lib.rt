//! The zone of a timetable and the noon of each of its operating days.
#![tactic(auto)]

mod calendar;
pub mod laws;
pub mod noons;
pub mod numbers;
pub mod parts;
pub mod splits;
mod year;
pub mod zone;
pub mod zone_text;
