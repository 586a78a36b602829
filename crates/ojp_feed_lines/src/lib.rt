//! The files of a GTFS feed, read in a stream into typed rows, each with the first fault as a refusal.
#![tactic(auto)]

mod agency;
mod columns;
mod counted_file;
pub mod fields;
mod files;
mod folder;
mod frequencies;
mod ids;
mod mem_folder;
mod operator;
mod reading;
mod refusals;
mod routes;
mod rows;
mod services;
mod stop_times;
mod stops;
mod system_folder;
mod table;
mod transfers;
mod trips;

pub use columns::Column;
pub use counted_file::CountedFile;
pub use files::FeedFile;
pub use folder::{Folder, MOST_BYTES, OpenRefused, OpenedFile};
pub use mem_folder::{MemFile, MemFolder, MemReader};
pub use reading::{Asked, read_feed};
pub use refusals::{FeedRefused, RowReason};
pub use services::runs_within;
pub use system_folder::{Bounded, SystemFolder};
