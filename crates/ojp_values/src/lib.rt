//! The values that requests and replies of the journey planner are made of.
//!
//! A code, a stop reference, a label and a name are seen by contracts as their bytes, an instant and
//! an operating day as a number, a list as its items. Asks, trips, replies and documents are plain data.
#![tactic(auto)]

mod asks;
pub mod dates;
mod documents;
pub mod fields;
mod fixed;
mod kinds;
mod lists;
mod memory;
mod moments;
pub mod names;
mod numbers;
mod replies;
mod texts;
mod trips;

pub use asks::{Ask, EventAsk, MultiAsk, PointsAsk, TripAsk};
pub use documents::Doc;
pub use kinds::{BadText, EventKind, Kind};
pub use lists::List;
pub use memory::NoMemory;
pub use moments::{Day, FIRST_DAY, Instant, LAST_DAY, LAST_SECOND};
pub use numbers::{are_digits, is_plain, read_digits, read_duration, read_number};
pub use replies::{Delivery, EventsReply, Fault, MultiReply, PointsReply, TripReply, TripResult};
pub use texts::{Code, Label, Name, StopRef};
pub use trips::{Event, Leg, Neighbour, Point, Trip};
