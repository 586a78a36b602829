//! One subrequest over links: it asks a region, and hears just what the region sent, however the bytes come.
#![tactic(auto)]

mod hearing;
mod pieces;
mod subreply;

pub use subreply::{BeginRefused, SubEnd, SubPoll, Subreply};
