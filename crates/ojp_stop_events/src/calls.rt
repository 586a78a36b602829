//! The calls of a timetable as events.

ghost use Rattle.std.specs.Prelude.{◌≡◌, ◌≢◌, ◌+◌, ◌≤◌, MatchBool, MatchOption};
ghost use Rattle.ojp_timetable.specs.Answers.{offset_of};
ghost use Rattle.ojp_timetable.specs.Runs.{IsWell, day_long};
ghost use Rattle.ojp_stop_events.specs.Found.{HasNoEvent, IsCalled, IsEventOf};

use ojp_timetable::{Call, Timetable};
use ojp_values::{Day, Event, EventAsk, EventKind, Instant};

/// The asked day: an event is at most so many seconds after the asked start.
pub const DAY_LONG: u64 = 86_400;

// The offset of the asked kind.
fn offset_of(kind: EventKind, call: &Call) -> Option<u32>
    ensures { result ≡ offset_of kind call.now }
{
    match kind {
        EventKind::Departure => call.departs,
        EventKind::Arrival => call.arrives,
    }
}

/// Whether the call is at the asked stop.
pub fn is_at_stop(call: &Call, ask: &EventAsk) -> bool
    ensures { MatchBool result (call.now.stop ≡ ask.now.stop) (call.now.stop ≢ ask.now.stop) }
{
    call.stop == ask.stop
}

// Whether the moment lies within the asked day.
fn is_in_day(moment: Instant, ask: &EventAsk) -> bool
    ensures { MatchBool result ((ask.now.start ≤ moment) × (moment ≤ ask.now.start + day_long)) ((ask.now.start ≤ moment) × (moment ≤ ask.now.start + day_long) → ⊥) }
{
    ask.start.seconds() <= moment.seconds() && moment.seconds() <= ask.start.seconds() + DAY_LONG
}

/// The event of the call on the day, if it is one of the asked.
pub fn event_on(
    table: &Timetable,
    ask: &EventAsk,
    journey: usize,
    position: usize,
    day: Day,
) -> Option<Event>
    requires well { IsWell table.now }
    requires call { IsCalled table.now journey position }
    ensures { MatchOption result (HasNoEvent table.now ask.now journey position day) (λ event. IsEventOf table.now ask.now event (record { journey = journey; position = position; day = day })) }
{
    let call = table.call(journey, position);
    if !is_at_stop(&call, ask) {
        return None;
    }
    let offset = offset_of(ask.kind, &call)?;
    let view = table.journey(journey);
    if !table.runs_on(view.service, day) {
        return None;
    }
    let moment = table.moment(day, offset);
    if !is_in_day(moment, ask) {
        return None;
    }
    Some(Event {
        region: table.region(),
        journey: view.id,
        line: view.line,
        day,
        stop: ask.stop,
        order: position as u32 + 1,
        moment,
    })
}
