//! The queries of a search, and the entries of its record.

ghost use Rattle.std.specs.Prelude.{◌≡◌};
ghost use Rattle.ojp_records.specs.Records.{same_query};

use ojp_values::{Code, Delivery, Instant, StopRef};

/// What a search may want to know from a region.
#[derive(Clone, Copy, Debug, PartialEq, Eq)]
pub enum Query {
    /// Whether the region has the stop.
    Check {
        region: Code,
        stop: StopRef,
    },
    /// The earliest trips of the region from the stop, not before the start.
    Reach {
        region: Code,
        stop: StopRef,
        start: Instant,
    },
}

/// A query that was told to a search with its reply; a reply that is missing is a failure.
#[derive(Debug, PartialEq, Eq, Drop)]
pub struct Entry {
    pub query: Query,
    pub reply: Option<Delivery>,
}

/// Whether the queries are the same.
pub fn same_query(query: &Query, other: &Query) -> bool
    ensures { result ≡ same_query query.now other.now }
{
    match query {
        Query::Check { region, stop } => is_check(region, stop, other),
        Query::Reach {
            region,
            stop,
            start,
        } => is_reach(region, stop, *start, other),
    }
}

// Whether the query is the check of the stop by the region.
#[tactic(auto, unfolding(ojp_values::specs::Texts::same))]
fn is_check(region: &Code, stop: &StopRef, query: &Query) -> bool
    ensures { result ≡ same_query (Query.Check region.now stop.now) query.now }
{
    match query {
        Query::Check {
            region: code,
            stop: place,
        } => *region == *code && *stop == *place,
        Query::Reach { .. } => false,
    }
}

// Whether the query is that of the region from the stop at the start.
#[tactic(auto, unfolding(ojp_values::specs::Texts::same))]
fn is_reach(region: &Code, stop: &StopRef, start: Instant, query: &Query) -> bool
    ensures { result ≡ same_query (Query.Reach region.now stop.now start) query.now }
{
    match query {
        Query::Check { .. } => false,
        Query::Reach {
            region: code,
            stop: place,
            start: moment,
        } => *region == *code && *stop == *place && start == *moment,
    }
}
