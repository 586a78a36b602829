//! What a conversion is asked for.

use ojp_values::Code;

/// The days for which a feed is read, both included, from 2 (1970-01-03) to 84,002 (2199-12-28).
#[derive(Clone, Copy, Debug, PartialEq, Eq)]
pub struct Window {
    pub first: u32,
    /// Not before the first.
    pub last: u32,
}

/// The settings of a conversion.
#[derive(Debug, Drop)]
pub struct Settings {
    /// The code of the region.
    pub code: Code,
    /// The rule of the timetable's zone, as its line has it.
    pub zone: String,
    /// The seconds of a change where nothing says more, 1 to 7,200; without a wish 60.
    pub change: u32,
    /// The same at a stop with several platforms that are served; without a wish 180.
    pub station_change: u32,
    /// Calls that forbid to board or to alight are kept as open ones.
    pub as_open: bool,
}
