//! The rows of a GTFS feed as typed values, with what an operator adds to them.
//!
//! Plain data, as the GTFS Schedule reference has it: a reader of files makes a `Feed`, a conversion reads it. A number in
//! place of an id counts from 0 the rows of the file that declares the id, in their order. A day counts from 1970-01-01, a
//! time of day in seconds from noon less twelve hours of the service day, so that 25:10:00 is 90,600.
#![tactic(auto)]

mod counts;
mod feed;
mod operator;
mod services;
mod settings;
mod stops;
mod trips;

pub use counts::Passed;
pub use feed::Feed;
pub use operator::{Exchange, NeighbourOf, Operator, StopChange};
pub use services::{Exception, Service, Weekly};
pub use settings::{Settings, Window};
pub use stops::{LocationKind, Route, Stop, Transfer};
pub use trips::{Access, Frequency, StopTime, Trip};
