//! Queries that are live, and those that stand in a slot.

ghost use Rattle.std.specs.Prelude.{◌≡◌, Some, MatchBool};
ghost use Rattle.ojp_records.specs.Wanted.{is_live};
ghost use Rattle.ojp_labels.specs.Slots.{stop_check};

use ojp_records::{Query, same_query};
use ojp_values::StopRef;

/// Whether the query is one of the live ones.
pub fn is_live(live: &[Query], query: &Query) -> bool
    ensures { result ≡ is_live live.now query.now }
{
    live.iter().any(|other| same_query(other, query))
}

/// Whether the slot has the query.
pub fn is_this(slot: &Option<Query>, query: &Query) -> bool
    ensures { MatchBool result (slot.now ≡ Some query.now) (slot.now ≡ Some query.now → ⊥) }
{
    match slot {
        Some(found) => same_query(found, query),
        None => false,
    }
}

/// The check of the stop by its region, if it is no exchange point.
pub fn stop_check(stop: StopRef) -> Option<Query>
    ensures { result ≡ stop_check stop }
{
    let region = stop.region()?;
    Some(Query::Check { region, stop })
}
