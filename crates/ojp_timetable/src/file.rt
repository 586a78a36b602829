//! The file of a timetable: its lines, the checks of each, and reading them from first to last.

pub mod above;
pub(crate) mod checks;
pub(crate) mod fields;
pub(crate) mod lines;
mod read_words;
pub(crate) mod reading;
mod reason_words;
pub(crate) mod refusals;
mod said;
pub mod words;
