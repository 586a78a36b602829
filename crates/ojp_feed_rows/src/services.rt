//! Rows of `calendar.txt` and `calendar_dates.txt`, by service.

/// The days of a row of `calendar.txt`: from `start_date` to `end_date`, both included, on the weekdays that it marks.
#[derive(Clone, Copy, Debug, PartialEq, Eq)]
pub struct Weekly {
    pub first: u32,
    pub last: u32,
    /// Monday first.
    pub marks: [bool; 7],
}

/// A row of `calendar_dates.txt`.
#[derive(Clone, Copy, Debug, PartialEq, Eq)]
pub struct Exception {
    pub day: u32,
    /// The service runs on the day (`exception_type` 1); else it does not (2).
    pub runs: bool,
}

/// A service: its row of `calendar.txt` and its rows of `calendar_dates.txt`, at least one of them.
#[derive(Debug, Drop)]
pub struct Service {
    /// `service_id`, of no other service.
    pub id: String,
    /// None where the service has no row of `calendar.txt`.
    pub weekly: Option<Weekly>,
    /// At most one of a day, in the order of the file.
    pub exceptions: Vec<Exception>,
}
