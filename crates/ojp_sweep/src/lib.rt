//! Earliest arrivals over the hops of runs, by one sweep in the order of their departures.
//!
//! The engine knows neither stops nor services nor dates: a place is a number, an hour of departure is an
//! offset in a day, and up to four days have a base each. So whoever gives it rows of hops may search
//! forward in time or, with mirrored rows, backward.
#![tactic(auto)]

mod connections;
mod labels;
mod progress;
mod ranks;
mod searches;
mod sweeps;

pub use connections::{Asked, Connection, Connections, Days, Walk};
pub use labels::Hop;
pub use ranks::{Counts, Ranks};
pub use searches::Sweep;
