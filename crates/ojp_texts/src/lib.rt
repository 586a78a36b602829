//! Laws of the text of a timetable, told by its lines and by how they are spelled.
#![tactic(auto)]

pub mod laws;
