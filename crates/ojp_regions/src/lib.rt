//! The file of regions: which regions a gateway has, and where the server of each listens.
#![tactic(auto)]

mod host;
pub mod laws;
mod line;
mod port;
mod reading;

pub use host::{Host, is_host};
pub use line::RegionLine;
pub use port::read_port;
pub use reading::{RegionsRefused, read_regions};
