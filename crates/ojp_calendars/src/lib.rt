//! Sets of operating days as the services of a timetable, and zone files as the zones of one.
//!
//! A set of days becomes boxes, each an interval of days times weekdays, which is what a service line
//! says. A zone file becomes a zone's text, whose noons are the file's on each day of a window.
#![tactic(auto)]

mod dates;
mod day_box;
mod day_sets;
mod faults;
mod labels;
mod marks;
mod noons;
mod rules;
mod texts;
mod window;
mod zone_file;

pub use day_box::DayBox;
pub use day_sets::boxes;
pub use faults::ZoneFault;
pub use labels::label;
pub use rules::zone_rule;
pub use zone_file::{last_line, zone_of_file};
