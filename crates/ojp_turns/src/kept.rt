//! A subrequest that a search has live.

use ojp_records::Query;
use ojp_subrequests::Subreply;

/// A subrequest that is live, with its query and the number of its ask, from 1 on.
#[derive(Drop)]
pub struct Kept {
    pub query: Query,
    pub number: u64,
    pub sub: Subreply,
}
