//! The gateway: it answers asks over many regions by searches, which ask the regions, and serves connections so.
#![tactic(auto)]

mod answering;
mod learning;
mod seeking;
mod serving;
mod waiting;

pub use answering::{Answer, answer_paced};
pub use learning::{LearnRefused, hear_waiting, learn_paced, learn_waiting};
pub use ojp_turns::{Outcome, Search, Turn};
pub use serving::{Serving, serve_paced, serve_waiting};
pub use waiting::answer_waiting;
