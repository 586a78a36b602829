//! What an operator should look at before a converted feed is served: each notice is a line.
#![tactic(auto)]

mod against;
mod calls;
mod days;
mod exchanges;
mod lines;
mod notices;
mod places;
mod services;
mod stops;

pub use notices::{Seen, look};
