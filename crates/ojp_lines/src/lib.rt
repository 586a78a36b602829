//! The lines of a timetable's text, each written behind what a text has. Fields are given as their bytes, and times in seconds.
//! The only error is want of memory, and behind it the text is of no use.
#![tactic(auto)]

mod fields;
mod lines;

pub use fields::marks;
pub use lines::{put_call, put_head, put_journey, put_neighbour, put_place, put_service};
