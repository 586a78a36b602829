//! The trace of a search: a line for each event, and the trace that a search has where its replies come in a stated order.
#![tactic(auto)]

mod events;
pub mod examples;
mod trace;

pub use events::Event;
pub use trace::Trace;
