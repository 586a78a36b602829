//! The calls of a timetable, by number.

use ojp_timetable::{Call, Timetable};

/// The call at that place of the journey of that number, both counted from 0; none where there is none.
#[tactic(auto, using(ojp_timetable::proofs::ReadFacts::calls_told))]
pub(crate) fn call_at(table: &Timetable, journey: usize, position: usize) -> Option<Call> {
    if journey >= table.journeys() {
        return None;
    }
    let view = table.journey(journey);
    if position >= view.calls {
        return None;
    }
    Some(table.call(journey, position))
}
