//! Rows of `stops.txt`, `transfers.txt` and `routes.txt`.

/// What a row of `stops.txt` is, by its `location_type`.
#[derive(Clone, Copy, Debug, PartialEq, Eq)]
pub enum LocationKind {
    /// 0 or empty: where passengers board or alight.
    Platform,
    /// 1: a station, which has platforms.
    Station,
    /// 2
    Entrance,
    /// 3
    Node,
    /// 4: a part of a platform.
    BoardingArea,
}

/// A row of `stops.txt`.
#[derive(Debug, Drop)]
pub struct Stop {
    /// `stop_id`, of no other stop.
    pub id: String,
    /// `stop_name`, which may be empty.
    pub name: String,
    pub kind: LocationKind,
    /// The number of the stop that `parent_station` names; none where it is empty or names no stop.
    pub parent: Option<u32>,
}

/// A row of `transfers.txt` of type 2 that names a time and two stops, and no route and no trip.
#[derive(Clone, Copy, Debug, PartialEq, Eq)]
pub struct Transfer {
    /// The number of the stop `from_stop_id`.
    pub from: u32,
    /// The number of the stop `to_stop_id`.
    pub to: u32,
    /// `min_transfer_time` in seconds.
    pub seconds: u32,
}

/// A row of `routes.txt`.
#[derive(Debug, Drop)]
pub struct Route {
    /// `route_id`, of no other route.
    pub id: String,
    /// `route_short_name`, which may be empty.
    pub short_name: String,
}
