//! The trips of a feed: why one is left out, and the halts of one that is written.
#![tactic(auto)]

pub mod access;
pub mod checks;
mod fates;
pub mod gaps;
mod halts;
pub mod rows;
mod starts;
mod weighing;

pub use fates::{Changed, Fate};
pub use halts::Halt;
pub use starts::{inexact, starts_of};
pub use weighing::{Pattern, Weighed, weigh};
