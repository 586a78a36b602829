//! Timetables of one region: what a file holds, its runs and rides, and the journeys and answers that they make.
#![tactic(auto)]

mod calls;
pub mod draft;
pub mod file;
mod kept;
pub mod laws;
mod point_lists;
mod rides;
pub mod stops;
mod table;

pub use calls::Call;
pub use file::fields::body;
pub use file::lines::TableReason;
pub use file::reading::split_line;
pub use file::refusals::TableRefused;
pub use kept::{FoundCall, JourneyView, KeptCall, PlaceView};
pub use table::Timetable;
