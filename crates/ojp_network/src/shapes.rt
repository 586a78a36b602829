//! What a network is made of.

use ojp_values::{List, TripAsk};

/// An ask, and the order in which replies become ready for it, from 0 to 10.
#[derive(Clone, Copy, Debug, PartialEq, Eq)]
pub struct LoadAsk {
    pub ask: TripAsk,
    pub order: u64,
}

/// The timetables of the regions, as files, and the asks.
#[derive(Debug, Drop)]
pub struct Network {
    pub files: List<List<u8>>,
    pub asks: List<LoadAsk>,
}
