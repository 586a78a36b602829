//! The text of a plan.

ghost use Rattle.std.specs.Prelude.{◌≡◌, ◌++◌, IfOk, OnOk, Some, None, cond, option_copied};
ghost use Rattle.std.specs.List.{flat_map};
ghost use Rattle.ojp_feed.specs.Texts.{begin_row, call_at, end_row, halt_text, journey_lines, place_of, shifted, text_of, text_of_neighbour, text_of_place, text_of_service};

use crate::lines::{put_call, put_journey, put_neighbour, put_place, put_service};
use ojp_calendars::DayBox;
use ojp_feed_plans::{Plan, PlannedJourney, PlannedPlace};
use ojp_feed_rows::{NeighbourOf, Settings};
use ojp_feed_trips::{Halt, Pattern};
use ojp_lines::put_head;
use ojp_timetable::Call;
use ojp_values::NoMemory;
use std::alloc::Global;

/// The text of the plan.
#[tactic(auto, unfolding(crate::specs::Texts::text_of))]
pub fn text_of(alloc: Global, settings: &Settings, plan: &Plan) -> Result<Vec<u8>, NoMemory>
    ensures { IfOk result (λ text. text.items ≡ text_of settings.now plan.now) }
{
    let mut out = Vec::new(alloc);
    put_head(&mut out, settings.code.text(), settings.zone.as_bytes())?;
    put_places(&mut out, plan.places.as_slice())?;
    put_neighbours(&mut out, plan.neighbours.as_slice())?;
    put_services(&mut out, plan.services.as_slice())?;
    put_journeys(&mut out, plan)?;
    Ok(out)
}

// Writes the lines of the places.
#[tactic(auto, using(crate::proofs::TextFacts::grows_all))]
fn put_places(out: &mut Vec<u8>, places: &[PlannedPlace]) -> Result<(), NoMemory>
    ensures { OnOk result (out.new.items ≡ out.old.items ++ flat_map text_of_place places.now) }
{
    for place in places {
        put_place(out, place)?;
    }
    Ok(())
}

// Writes the lines of the neighbours.
#[tactic(auto, using(crate::proofs::TextFacts::grows_all))]
fn put_neighbours(out: &mut Vec<u8>, neighbours: &[NeighbourOf]) -> Result<(), NoMemory>
    ensures { OnOk result (out.new.items ≡ out.old.items ++ flat_map text_of_neighbour neighbours.now) }
{
    for neighbour in neighbours {
        put_neighbour(out, neighbour)?;
    }
    Ok(())
}

// Writes the lines of the services.
#[tactic(auto, using(crate::proofs::TextFacts::grows_all))]
fn put_services(out: &mut Vec<u8>, services: &[DayBox]) -> Result<(), NoMemory>
    ensures { OnOk result (out.new.items ≡ out.old.items ++ flat_map text_of_service services.now) }
{
    for days in services {
        put_service(out, days)?;
    }
    Ok(())
}

// Writes the lines of the journeys, each with those of its calls.
#[tactic(auto, using(crate::proofs::TextFacts::grows_all))]
fn put_journeys(out: &mut Vec<u8>, plan: &Plan) -> Result<(), NoMemory>
    ensures { OnOk result (out.new.items ≡ out.old.items ++ flat_map (journey_lines plan.now) plan.now.journeys.items) }
{
    for journey in plan.journeys.as_slice() {
        put_lines(out, plan, journey)?;
    }
    Ok(())
}

// Writes the lines of a journey: its own and those of its calls.
#[tactic(auto, unfolding(crate::specs::Texts::journey_lines))]
fn put_lines(out: &mut Vec<u8>, plan: &Plan, journey: &PlannedJourney) -> Result<(), NoMemory>
    ensures { OnOk result (out.new.items ≡ out.old.items ++ journey_lines plan.now journey.now) }
{
    put_journey(out, journey)?;
    match plan.patterns.as_slice().get(journey.pattern) {
        None => Ok(()),
        Some(pattern) => put_calls(out, plan, pattern, journey.start),
    }
}

// Writes the lines of the calls of the pattern, whose first row departs at the start.
#[tactic(auto, using(crate::proofs::TextFacts::grows_all))]
fn put_calls(out: &mut Vec<u8>, plan: &Plan, pattern: &Pattern, start: u32) -> Result<(), NoMemory>
    ensures { OnOk result (out.new.items ≡ out.old.items ++ flat_map (halt_text plan.now pattern.now start) pattern.now.halts.items) }
{
    for halt in pattern.halts.as_slice() {
        put_halt(out, plan, pattern, start, halt)?;
    }
    Ok(())
}

// Writes the line of the call at the halt; none where the plan lacks its place.
#[tactic(auto, unfolding(crate::specs::Texts::halt_text))]
fn put_halt(
    out: &mut Vec<u8>,
    plan: &Plan,
    pattern: &Pattern,
    start: u32,
    halt: &Halt,
) -> Result<(), NoMemory>
    ensures { OnOk result (out.new.items ≡ out.old.items ++ halt_text plan.now pattern.now start halt.now) }
{
    match place_of(plan, halt.place) {
        None => Ok(()),
        Some(place) => put_call(out, &call_at(pattern, start, halt, place)),
    }
}

// The call of the halt at the place.
fn call_at(pattern: &Pattern, start: u32, halt: &Halt, place: &PlannedPlace) -> Call
    ensures { result ≡ call_at pattern.now start halt.now place.now }
{
    Call {
        stop: place.stop,
        arrives: unless(
            halt.first == begin_row(pattern),
            shifted(pattern.begin, start, halt.arrives),
        ),
        departs: unless(
            halt.last == end_row(pattern),
            shifted(pattern.begin, start, halt.departs),
        ),
    }
}

// The time, and none at an end.
fn unless(is_end: bool, time: u32) -> Option<u32>
    ensures { result ≡ cond is_end None (Some time) }
{
    if is_end { None } else { Some(time) }
}

// The row that the pattern begins with.
fn begin_row(pattern: &Pattern) -> usize
    ensures { result ≡ begin_row pattern.now }
{
    match pattern.halts.as_slice().first() {
        Some(halt) => halt.first,
        None => 0,
    }
}

// The row that the pattern ends with.
fn end_row(pattern: &Pattern) -> usize
    ensures { result ≡ end_row pattern.now }
{
    match pattern.halts.as_slice().last() {
        Some(halt) => halt.last,
        None => 0,
    }
}

// The place of the plan that the place of the feed has there.
fn place_of(plan: &Plan, place: usize) -> Option<&PlannedPlace>
    ensures { option_copied result ≡ place_of plan.now place }
{
    match plan.numbers.as_slice().get(place) {
        None => None,
        Some(number) => plan.places.as_slice().get(*number),
    }
}

// The time where what began at the one begins at the other.
fn shifted(begin: u32, start: u32, time: u32) -> u32
    ensures { result ≡ shifted begin start time }
{
    time.saturating_sub(begin).saturating_add(start)
}
