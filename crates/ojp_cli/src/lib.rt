//! The commands of the program `ojp`, as calls over the words, the streams and the files that are handed in.
#![tactic(auto)]

mod commands;
mod here;
mod words;

pub use here::run_here;
pub use ojp_online::run_net;
