//! Links to regions: what is asked of them, what is seen of them, and which replies fit an ask.
#![tactic(auto)]

mod expect;
mod fitting;
pub mod laws;
mod links;

pub use expect::Expect;
pub use fitting::fits;
pub use links::{AskRefused, Links, More, PacedLinks, Runtime, Sub, WaitLinks};
