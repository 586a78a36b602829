//! The checks of a line that speak of the lines above it, in their order.
ghost use Rattle.std.specs.Prelude.{◌≡◌, ◌≤◌, false, None, [], is_some, length};
ghost use Rattle.std.specs.List.{list_any, position, position_or_len};
ghost use Rattle.ojp_values.specs.Texts.{code_part, is_colon, is_x, same};
ghost use Rattle.ojp_values.specs.declared.trips.Neighbour.{Neighbour as NeighbourValue};
ghost use Rattle.ojp_timetable.specs.Contents.{has_place, has_service};
ghost use Rattle.ojp_timetable.specs.WellContents.{Passes};
ghost use Rattle.ojp_timetable.specs.Said.{call_of, journey_line};
ghost use Rattle.ojp_timetable.specs.Checks.{checks, departed, falls_from, first_failing, has_neighbour, is_before, is_doubled, is_falling, is_foreign, is_full, is_stop_elsewhere, lacks_service, lacks_stop, later_of};

use crate::draft::Draft;
use crate::file::fields::is_same;
use crate::file::lines::{Line, Open, TableReason};
use crate::kept::{SaidCall, SaidJourney};
use ojp_values::{Code, Neighbour, StopRef};

// Where the first colon stands.
fn first_colon(stop: &[u8]) -> Option<usize>
    ensures { result ≡ position is_colon stop.now }
{
    stop.iter().position(|byte| *byte == b':')
}

// How many bytes stand before the first colon.
fn colon_place(stop: &[u8]) -> usize
    ensures value { result ≡ position_or_len is_colon stop.now }
    ensures fits { result ≤ length stop.now }
{
    first_colon(stop).unwrap_or(stop.len())
}

// What stands before the first colon.
fn code_part(stop: &[u8]) -> &[u8]
    ensures { result.now ≡ code_part stop.now }
{
    stop.split_at(colon_place(stop)).0
}

// Whether the text is `x`.
fn is_x(text: &[u8]) -> bool
    ensures { result ≡ is_x text.now }
{
    matches!(text, [b'x'])
}

// Whether this is an own stop of another region.
fn is_stop_elsewhere(region: &[u8], stop: &[u8]) -> bool
    ensures { result ≡ is_stop_elsewhere region.now stop.now }
{
    let code = code_part(stop);
    !is_x(code) && !is_same(code, region)
}

#[tactic(auto, unfolding(crate::specs::Checks::is_foreign))]
fn is_foreign(draft: &Draft, line: &Line) -> bool
    ensures { result ≡ is_foreign draft.now line.now }
{
    match line {
        Line::Header | Line::Region(_) | Line::Zone(_) => false,
        Line::Place(stop, _, _) => is_stop_elsewhere(draft.region_text(), stop.text()),
        Line::Neighbour(stop, _) => is_stop_elsewhere(draft.region_text(), stop.text()),
        Line::Service(_, _) | Line::Journey(_, _, _) => false,
        Line::Call(call) => is_stop_elsewhere(draft.region_text(), call.stop.text()),
    }
}

// Whether the code is that of a neighbour.
#[tactic(auto, unfolding(ojp_values::specs::Texts::same))]
fn is_listed(neighbours: &[Neighbour], code: &Code) -> bool
    ensures { result ≡ list_any (λ (neighbour : NeighbourValue). same code.now neighbour.code) neighbours.now }
{
    neighbours.iter().any(|neighbour| *code == neighbour.code)
}

#[tactic(auto, unfolding(crate::specs::Checks::has_neighbour))]
fn has_neighbour(draft: &Draft, stop: &StopRef, code: &Code) -> bool
    ensures { result ≡ has_neighbour draft.now stop.now code.now }
{
    is_listed(draft.neighbours_at(stop), code)
}

#[tactic(auto, unfolding(crate::specs::Checks::is_doubled))]
fn is_doubled(draft: &Draft, line: &Line) -> bool
    ensures { result ≡ is_doubled draft.now line.now }
{
    match line {
        Line::Header | Line::Region(_) | Line::Zone(_) => false,
        Line::Place(stop, _, _) => draft.has_place(stop),
        Line::Neighbour(stop, neighbour) => has_neighbour(draft, stop, &neighbour.code),
        Line::Service(id, _) => draft.has_service(id),
        Line::Journey(id, _, _) => draft.has_journey(id),
        Line::Call(_) => false,
    }
}

#[tactic(auto, unfolding(crate::specs::Checks::lacks_stop))]
fn lacks_stop(draft: &Draft, line: &Line) -> bool
    ensures { result ≡ lacks_stop draft.now line.now }
{
    match line {
        Line::Header | Line::Region(_) | Line::Zone(_) | Line::Place(_, _, _) => false,
        Line::Neighbour(stop, _) => !(stop.is_exchange() && draft.has_place(stop)),
        Line::Service(_, _) | Line::Journey(_, _, _) => false,
        Line::Call(call) => !draft.has_place(&call.stop),
    }
}

#[tactic(auto, unfolding(crate::specs::Checks::lacks_service))]
fn lacks_service(draft: &Draft, line: &Line) -> bool
    ensures { result ≡ lacks_service draft.now line.now }
{
    match line {
        Line::Header | Line::Region(_) | Line::Zone(_) | Line::Place(_, _, _) => false,
        Line::Neighbour(_, _) | Line::Service(_, _) | Line::Call(_) => false,
        Line::Journey(_, service, _) => !draft.has_service(service),
    }
}

// Whether the time is before the other.
fn is_before(other: u32, time: Option<u32>) -> bool
    ensures { result ≡ is_before other time }
{
    match time {
        None => false,
        Some(time) => time < other,
    }
}

fn later_of(other: u32, time: Option<u32>) -> u32
    ensures { result ≡ later_of other time }
{
    match time {
        None => other,
        Some(time) => time,
    }
}

// When the call before departs.
fn departed(left: &Open) -> u32
    ensures { result ≡ departed left.now }
{
    match left {
        Open::Nothing => 0,
        Open::Begun => 0,
        Open::Since(departs) => *departs,
    }
}

// Whether a time of a call is before one above it, where the call before departs then.
fn falls_from(before: u32, arrives: Option<u32>, departs: Option<u32>) -> bool
    ensures { result ≡ falls_from before (record { stop = []; arrives = arrives; departs = departs }) }
{
    is_before(before, arrives) || is_before(later_of(before, arrives), departs)
}

#[tactic(auto, unfolding(crate::specs::Checks::is_falling))]
fn is_falling(left: &Open, line: &Line) -> bool
    ensures { result ≡ is_falling left.now line.now }
{
    match line {
        Line::Header | Line::Region(_) | Line::Zone(_) | Line::Place(_, _, _) => false,
        Line::Neighbour(_, _) | Line::Service(_, _) | Line::Journey(_, _, _) => false,
        Line::Call(call) => falls_from(departed(left), call.arrives, call.departs),
    }
}

/// The most of each kind that a timetable may have.
pub const PLACES: usize = 5_000;

pub const POINTS: usize = 255;

pub const NEIGHBOURS: usize = 31;

pub const SERVICES: usize = 1_000;

pub const JOURNEYS: usize = 20_000;

pub const CALLS: usize = 100_000;

#[tactic(auto, unfolding(crate::specs::Checks::is_full))]
fn is_full(draft: &Draft, line: &Line) -> bool
    ensures { result ≡ is_full draft.now line.now }
{
    match line {
        Line::Header | Line::Region(_) | Line::Zone(_) => false,
        Line::Place(stop, _, _) => {
            draft.places() >= PLACES || (stop.is_exchange() && draft.points() >= POINTS)
        }
        Line::Neighbour(stop, _) => draft.neighbours_at(stop).len() >= NEIGHBOURS,
        Line::Service(_, _) => draft.services() >= SERVICES,
        Line::Journey(_, _, _) => draft.journeys() >= JOURNEYS,
        Line::Call(_) => draft.calls() >= CALLS,
    }
}

/// The first check that the line fails; `is_long` says whether it ends past the last byte that a
/// file may have.
pub fn first_failing(draft: &Draft, left: &Open, is_long: bool, line: &Line) -> Option<TableReason>
    ensures value { result ≡ first_failing (checks draft.now left.now is_long line.now) }
    ensures passes { result ≡ None → Passes draft.now left.now line.now }
    ensures short { result ≡ None → is_long ≡ false }
{
    if is_foreign(draft, line) {
        return Some(TableReason::ForeignStop);
    }
    if is_doubled(draft, line) {
        return Some(TableReason::DoubledName);
    }
    if lacks_stop(draft, line) {
        return Some(TableReason::UnknownStop);
    }
    if lacks_service(draft, line) {
        return Some(TableReason::UnknownService);
    }
    if is_falling(left, line) {
        return Some(TableReason::FallingTimes);
    }
    if is_full(draft, line) || is_long {
        return Some(TableReason::Limit);
    }
    None
}

/// The first check that a journey fails, as `first_failing` says it of its line; `is_known` says whether its service
/// stands above.
#[tactic(auto, unfolding(crate::specs::Checks::is_foreign, crate::specs::Checks::is_doubled, crate::specs::Checks::lacks_stop, crate::specs::Checks::lacks_service, crate::specs::Checks::is_falling, crate::specs::Checks::is_full))]
pub fn first_failing_of_journey(
    draft: &Draft,
    is_long: bool,
    is_known: bool,
    said: &SaidJourney,
) -> Option<TableReason>
    requires { is_known ≡ has_service draft.now said.now.service }
    ensures value { (left : Open) → result ≡ first_failing (checks draft.now left is_long (journey_line said.now)) }
    ensures passes { (left : Open) → result ≡ None → Passes draft.now left (journey_line said.now) }
    ensures short { result ≡ None → is_long ≡ false }
{
    if draft.has_journey(&said.id) {
        return Some(TableReason::DoubledName);
    }
    if !is_known {
        return Some(TableReason::UnknownService);
    }
    if draft.journeys() >= JOURNEYS || is_long {
        return Some(TableReason::Limit);
    }
    None
}

/// The first check that a call fails, as `first_failing` says it of its line, where its stop was looked up.
#[tactic(auto, unfolding(crate::specs::Checks::is_foreign, crate::specs::Checks::is_doubled, crate::specs::Checks::lacks_stop, crate::specs::Checks::lacks_service, crate::specs::Checks::is_falling, crate::specs::Checks::is_full))]
pub fn first_failing_of_call(
    draft: &Draft,
    left: &Open,
    is_long: bool,
    said: &SaidCall<'_>,
) -> Option<TableReason>
    requires { is_some said.now.place ≡ has_place draft.now said.now.stop.now }
    ensures value { result ≡ first_failing (checks draft.now left.now is_long (Line.Call (call_of said.now))) }
    ensures passes { result ≡ None → Passes draft.now left.now (Line.Call (call_of said.now)) }
    ensures short { result ≡ None → is_long ≡ false }
{
    if is_stop_elsewhere(draft.region_text(), said.stop) {
        return Some(TableReason::ForeignStop);
    }
    if said.place.is_none() {
        return Some(TableReason::UnknownStop);
    }
    if falls_from(departed(left), said.arrives, said.departs) {
        return Some(TableReason::FallingTimes);
    }
    if draft.calls() >= CALLS || is_long {
        return Some(TableReason::Limit);
    }
    None
}
