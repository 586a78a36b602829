//! What a region answers to an ask for stop events.

ghost use Rattle.std.specs.Prelude.{◌≡◌, ◌+◌, ◌<◌, Some, length, slice_get, take, position, unwrap_or, MatchOption, OnOk, IfOk};
ghost use Rattle.ojp_timetable.specs.Answers.{AreEvents, event_lt};
ghost use Rattle.ojp_timetable.specs.Runs.{IsWell};
ghost use Rattle.ojp_stop_events.specs.Found.{AreFirst, IsCalled, with_event};

use crate::calls::{DAY_LONG, event_on, is_at_stop};
use ojp_timetable::Timetable;
use ojp_values::{Day, Event, EventAsk, List, NoMemory};
use std::alloc::Global;

/// How many seconds before the UTC noon of the operating day the noon of a zone may be, and after it.
const FAR_NOON: u64 = 57_540;

/// How many seconds after the UTC midnight of its operating day a call may be.
const LATEST_CALL: u64 = 129_600 + FAR_NOON;

/// The first events of the asked kind at the stop within the asked day, as many as were asked; none
/// where the region has no such stop.
///
/// Each call of the timetable is looked at once. Only those at the stop are followed, on the few days
/// around the asked one, and no more events are kept than were asked.
pub fn events(alloc: Global, table: &Timetable, ask: &EventAsk) -> Result<List<Event>, NoMemory>
    ensures { IfOk result (AreEvents table.now ask.now) }
{
    table.is_well();
    let mut first = Vec::new(alloc);
    'journeys: for journey in 0..table.journeys() {
        add_journey(table, ask, journey, &mut first)?;
    }
    Ok(List::from_items(first))
}

// Adds the events of the journey to those of the journeys before it.
fn add_journey(
    table: &Timetable,
    ask: &EventAsk,
    journey: usize,
    first: &mut Vec<Event>,
) -> Result<(), NoMemory>
    requires well { IsWell table.now }
    requires within { journey < length table.now.journeys }
    requires before { AreFirst table.now ask.now journey 0 0 first.old.items }
    ensures { OnOk result (AreFirst table.now ask.now (journey + 1) 0 0 first.new.items) }
{
    let calls = table.journey(journey).calls;
    'calls: for position in 0..calls {
        let call = table.call(journey, position);
        if is_at_stop(&call, ask) {
            add_call(table, ask, journey, position, first)?;
        }
    }
    Ok(())
}

// Adds the events of the call to those of the calls before it.
fn add_call(
    table: &Timetable,
    ask: &EventAsk,
    journey: usize,
    position: usize,
    first: &mut Vec<Event>,
) -> Result<(), NoMemory>
    requires well { IsWell table.now }
    requires call { IsCalled table.now journey position }
    requires before { AreFirst table.now ask.now journey position 0 first.old.items }
    ensures { OnOk result (AreFirst table.now ask.now journey (position + 1) 0 first.new.items) }
{
    let from = ask.start.seconds().saturating_sub(LATEST_CALL) / DAY_LONG;
    let end = (ask.start.seconds() + DAY_LONG + FAR_NOON) / DAY_LONG + 1;
    'days: for number in from..end {
        if let Ok(day) = Day::new(number as u32) {
            add_run(table, ask, journey, position, day, first)?;
        }
    }
    Ok(())
}

// Adds the event of the call on the day, if it is one of the asked.
fn add_run(
    table: &Timetable,
    ask: &EventAsk,
    journey: usize,
    position: usize,
    day: Day,
    first: &mut Vec<Event>,
) -> Result<(), NoMemory>
    requires well { IsWell table.now }
    requires call { IsCalled table.now journey position }
    requires before { AreFirst table.now ask.now journey position day first.old.items }
    ensures { OnOk result (AreFirst table.now ask.now journey position (day + 1) first.new.items) }
{
    match event_on(table, ask, journey, position, day) {
        None => Ok(()),
        Some(event) => add_event(first, ask.number as usize, event),
    }
}

// Puts the event in its place among the first, of which so many are kept.
fn add_event(first: &mut Vec<Event>, number: usize, event: Event) -> Result<(), NoMemory>
    ensures { OnOk result (first.new.items ≡ take number (with_event first.old.items event)) }
{
    let place = event_after(first.as_slice(), &event).unwrap_or(first.len());
    let Ok(()) = first.insert(place, event) else {
        return Err(NoMemory);
    };
    first.truncate(number);
    Ok(())
}

// The number of the first event that the event is before.
fn event_after(events: &[Event], event: &Event) -> Option<usize>
    ensures { result ≡ position (event_lt event.now) events.now }
{
    events.iter().position(|other| is_before(event, other))
}

// Whether the event stands before the other: by moment, region, journey, day and order.
#[tactic(auto, unfolding(ojp_timetable::specs::Answers::event_lt, ojp_values::specs::Texts::text_lt, ojp_values::specs::Texts::same))]
fn is_before(event: &Event, other: &Event) -> bool
    ensures { result ≡ event_lt event.now other.now }
{
    event.moment < other.moment
        || (event.moment == other.moment
            && (event.region < other.region
                || (event.region == other.region
                    && (event.journey < other.journey
                        || (event.journey == other.journey
                            && (event.day < other.day
                                || (event.day == other.day && event.order < other.order)))))))
}
