//! A feed converted to the text of a timetable.
#![tactic(auto)]

mod converting;
mod lines;
mod texts;

pub use converting::{ConvertRefused, Converted, convert};
