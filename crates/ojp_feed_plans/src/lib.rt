//! What a timetable of a feed declares: its places, services and journeys, and what becomes of each trip.
#![tactic(auto)]

pub mod boxes;
pub mod changes;
pub mod counting;
mod counts;
pub mod days;
pub mod journeys;
pub mod memory;
pub mod places;
mod planning;
mod plans;
mod refusals;
pub mod served;
pub mod stations;
pub mod trips;

pub use counts::{Counts, Tally};
pub use planning::plan;
pub use plans::{Plan, PlannedJourney, PlannedPlace};
pub use refusals::PlanRefused;
