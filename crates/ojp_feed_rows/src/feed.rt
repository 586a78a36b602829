//! The rows of a feed.

use crate::counts::Passed;
use crate::operator::Operator;
use crate::services::Service;
use crate::settings::Window;
use crate::stops::{Route, Stop, Transfer};
use crate::trips::Trip;

/// A feed, its rows in the order of their files. Each number of a stop, a route or a service is below the number of these.
#[derive(Debug, Drop)]
pub struct Feed {
    /// The one `agency_timezone` of all rows of `agency.txt`, as `Europe/Vienna`.
    pub zone_name: String,
    pub stops: Vec<Stop>,
    pub routes: Vec<Route>,
    pub services: Vec<Service>,
    pub trips: Vec<Trip>,
    pub transfers: Vec<Transfer>,
    /// The operator's lines.
    pub operator: Operator,
    /// The days that were asked for, as far as some service has a row about a day there or beyond on both sides.
    pub window: Window,
    /// What was passed over.
    pub passed: Passed,
}
