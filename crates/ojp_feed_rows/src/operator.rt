//! What an operator adds to a feed: exchange points, neighbours there, and change times.

use ojp_values::{Code, StopRef};

/// A stop of the feed stands for an exchange point; several may stand for one.
#[derive(Clone, Copy, Debug, PartialEq, Eq)]
pub struct Exchange {
    /// `x:LOCAL`
    pub point: StopRef,
    /// The seconds of a change there, 1 to 7,200.
    pub change: u32,
    /// The number of the stop.
    pub stop: u32,
}

/// Another region at an exchange point.
#[derive(Clone, Copy, Debug, PartialEq, Eq)]
pub struct NeighbourOf {
    /// `x:LOCAL`, of an `Exchange`.
    pub point: StopRef,
    pub region: Code,
    /// The seconds of a change from the rides of that region, 1 to 7,200.
    pub change: u32,
}

/// The seconds of a change at a stop, in place of what the feed says.
#[derive(Clone, Copy, Debug, PartialEq, Eq)]
pub struct StopChange {
    /// 1 to 7,200
    pub change: u32,
    /// The number of the stop.
    pub stop: u32,
}

/// The lines of an operator's file, each kind in their order.
#[derive(Debug, Drop)]
pub struct Operator {
    pub exchanges: Vec<Exchange>,
    pub neighbours: Vec<NeighbourOf>,
    pub changes: Vec<StopChange>,
}
