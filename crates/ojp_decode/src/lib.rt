//! Reads documents in pieces: the answers are the same however the bytes are cut.
#![tactic(auto)]

mod cuts;
mod fed;
mod reader;

pub use fed::{Fed, ReadRefused};
pub use reader::Reader;
