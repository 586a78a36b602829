//! The commands of the program `ojp` that may wait: `region`, which serves the timetable of a file, `gateway`, which
//! serves the regions of a file of regions together, and `ask`, which asks one server; and the call that runs them.
#![tactic(auto)]

mod adding;
mod asking;
mod files;
mod hearing;
mod joining;
mod net;
mod serving;
mod serving_region;
mod words;

pub use asking::ask;
pub use joining::gateway;
pub use net::run_net;
pub use words::is_option_word;
