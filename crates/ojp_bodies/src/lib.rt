//! What a server of asks makes of a request, and writes as the response: once for each server, whatever it answers.
#![tactic(auto)]

mod bodies;
mod requests;

pub use bodies::{read_ask, spell, tell};
pub use requests::{Declined, decline, deliver, take_ask};
