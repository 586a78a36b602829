//! The events of a search, each with the number of its ask, from 1 on.

use ojp_records::Query;

/// What happened to an ask.
#[derive(Clone, Copy, Debug, PartialEq, Eq)]
pub enum Event {
    /// The query was asked.
    Asked { number: u64, query: Query },
    /// Its delivery was heard.
    Replied { number: u64 },
    /// It failed, when it was asked or when it was polled.
    Failed { number: u64 },
    /// It was cancelled because it is not wanted.
    Dropped { number: u64 },
}
