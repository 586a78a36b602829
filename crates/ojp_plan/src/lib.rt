//! The command `plan` of the program `ojp`: one request, answered over the regions of timetable files that it reads.
#![tactic(auto)]

mod answering;
mod learning;
mod planning;
mod reading;

pub use planning::plan;
