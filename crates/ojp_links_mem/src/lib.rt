//! Regions in memory as links, whose replies are those of the regions' own servers.
#![tactic(auto)]

mod files;
mod memory;
mod pending;
mod regions;
mod script;
mod server;
mod sorting;
mod twice;

pub use files::{FileLinks, OpenRefused};
pub use memory::MemLinks;
pub use script::{Script, What};
