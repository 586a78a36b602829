//! A region's server: its timetable's file, what the timetable answers to an ask, and one connection that is served so.
#![tactic(auto)]

mod answers;
mod files;
mod serving;
mod trips;

pub use answers::answer;
pub use files::{FileRefused, read_table};
pub use serving::serve_one;
