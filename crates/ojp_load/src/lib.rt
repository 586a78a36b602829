//! The command `load` of the program `ojp`: a network that is made from a number, and its asks, put through the gateway.
#![tactic(auto)]

mod asking;
mod counting;
mod loading;
mod opening;
mod replies;
mod tables;

pub use loading::load;
