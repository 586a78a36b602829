//! Stop events of a region: the departures from a stop, or the arrivals there, by their order.
#![tactic(auto)]

mod answers;
mod calls;

pub use answers::events;
