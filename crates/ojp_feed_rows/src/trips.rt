//! Rows of `trips.txt`, each with its rows of `stop_times.txt` and `frequencies.txt`.

/// Whether passengers may board or alight at a call, by `pickup_type` or `drop_off_type`.
#[derive(Clone, Copy, Debug, PartialEq, Eq)]
pub enum Access {
    /// 0 or empty.
    Open,
    /// 2 or 3: after a call to the operator or a word to the driver.
    OnDemand,
    /// 1
    Closed,
}

/// A row of `stop_times.txt`.
#[derive(Clone, Copy, Debug, PartialEq, Eq)]
pub struct StopTime {
    /// `stop_sequence`
    pub sequence: u32,
    /// The number of the stop.
    pub stop: u32,
    /// `arrival_time` in seconds, below 3,600,000; none where it is empty.
    pub arrival: Option<u32>,
    /// `departure_time`, as the arrival.
    pub departure: Option<u32>,
    /// `pickup_type`
    pub boarding: Access,
    /// `drop_off_type`
    pub alighting: Access,
}

/// A row of `frequencies.txt`: departures from `start_time` on, `headway` apart, each before `end_time`.
#[derive(Clone, Copy, Debug, PartialEq, Eq)]
pub struct Frequency {
    /// Seconds, below 3,600,000.
    pub start: u32,
    /// Seconds, below 3,600,000; may be at `start` or before, and then there is no departure.
    pub end: u32,
    /// `headway_secs`, at least 1 and at most 3,600,000.
    pub headway: u32,
    /// `exact_times` is 1.
    pub exact: bool,
}

/// A row of `trips.txt`.
#[derive(Debug, Drop)]
pub struct Trip {
    /// `trip_id`, of no other trip.
    pub id: String,
    /// The number of its route; none where `route_id` names none.
    pub route: Option<u32>,
    /// The number of its service; none where `service_id` names none.
    pub service: Option<u32>,
    /// One of its rows of `stop_times.txt` names a stop that `stops.txt` does not have.
    pub has_unknown_stop: bool,
    /// Its rows of `stop_times.txt` that name a known stop, by sequence, equal ones in the order of the file. Empty where the
    /// trip has no service or its service has no day in the window.
    pub stop_times: Vec<StopTime>,
    /// Its rows of `frequencies.txt`, in the order of the file.
    pub frequencies: Vec<Frequency>,
}
