//! A network of twelve regions, with 200 asks, that is made from a number.
#![tactic(auto)]

mod asks;
mod draws;
mod journeys;
mod making;
mod regions;
mod ring;
pub mod shapes;
mod texts;

pub use making::network;
