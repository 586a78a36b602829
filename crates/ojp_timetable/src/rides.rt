//! Whether legs are a journey of the region.

ghost use Rattle.std.specs.Prelude.{ℕ, ◌≡◌, ◌≢◌, ◌+◌, ◌<◌, ◌≤◌, length, Some, slice_get, MatchBool, MatchOption, IsTrue, ◌↔◌};
ghost use Rattle.ojp_timetable.specs.Runs.{IsLeg, IsOffset, IsWell, RunsOn};
ghost use Rattle.ojp_timetable.specs.Tables.{name_of};
ghost use Rattle.ojp_timetable.specs.Views.{calls_at};
ghost use Rattle.ojp_timetable.specs.Legal.{AlightsBehind, Alights, AreOffsets, Begins, Boards, BoardsNowhere, Ends, GoesOnBy, HasChanged, IsFirstBoard};

use crate::calls::Call;
use crate::table::Timetable;
use ojp_values::{Code, Instant, Label, Leg, Name, StopRef};

// Whether the stops are the same.
fn is_same_stop(stop: &StopRef, other: &StopRef) -> bool
    ensures { MatchBool result (stop.now ≡ other.now) (stop.now ≢ other.now) }
{
    *stop == *other
}

// Whether the instants are the same.
fn is_same_instant(instant: Instant, other: Instant) -> bool
    ensures { MatchBool result (instant ≡ other) (instant ≢ other) }
{
    instant == other
}

// Whether the leg boards at the call.
fn boards(table: &Timetable, leg: &Leg, call: &Call) -> bool
    requires { IsOffset call.now.departs }
    ensures { MatchBool result (Boards table.now leg.now call.now) (Boards table.now leg.now call.now → ⊥) }
{
    if !is_same_stop(&call.stop, &leg.board) {
        return false;
    }
    match call.departs {
        None => false,
        Some(offset) => is_same_instant(table.moment(leg.day, offset), leg.departs),
    }
}

// Whether the leg alights at the call.
fn alights(table: &Timetable, leg: &Leg, call: &Call) -> bool
    requires { IsOffset call.now.arrives }
    ensures { MatchBool result (Alights table.now leg.now call.now) (Alights table.now leg.now call.now → ⊥) }
{
    if !is_same_stop(&call.stop, &leg.alight) {
        return false;
    }
    match call.arrives {
        None => false,
        Some(offset) => is_same_instant(table.moment(leg.day, offset), leg.arrives),
    }
}

// The first call where the leg boards.
fn first_board(table: &Timetable, leg: &Leg, number: usize, calls: usize) -> Option<usize>
    requires range { AreOffsets (calls_at table.now.journeys number) }
    requires all { calls ≡ length (calls_at table.now.journeys number) }
    ensures { MatchOption result (BoardsNowhere table.now leg.now (calls_at table.now.journeys number)) (IsFirstBoard table.now leg.now (calls_at table.now.journeys number)) }
{
    'calls: for i in 0..calls {
        let call = table.call(number, i);
        if boards(table, leg, &call) {
            return Some(i);
        }
    }
    None
}

// Whether the leg alights at a call behind the one of that number.
fn alights_behind(table: &Timetable, leg: &Leg, number: usize, calls: usize, from: usize) -> bool
    requires range { AreOffsets (calls_at table.now.journeys number) }
    requires all { calls ≡ length (calls_at table.now.journeys number) }
    requires from { from < calls }
    ensures { MatchBool result (AlightsBehind table.now leg.now (calls_at table.now.journeys number) from) (AlightsBehind table.now leg.now (calls_at table.now.journeys number) from → ⊥) }
{
    'calls: for i in from + 1..calls {
        let call = table.call(number, i);
        if alights(table, leg, &call) {
            return true;
        }
    }
    false
}

// Whether the stop has that name.
fn has_name(table: &Timetable, stop: &StopRef, name: &Name) -> bool
    ensures { MatchBool result (name_of table.now stop.now ≡ Some name.now) (name_of table.now stop.now ≡ Some name.now → ⊥) }
{
    match table.name(*stop) {
        None => false,
        Some(found) => found == *name,
    }
}

// Whether the codes are the same.
fn is_same_code(code: &Code, other: &Code) -> bool
    ensures { MatchBool result (code.now ≡ other.now) (code.now ≢ other.now) }
{
    *code == *other
}

// Whether the labels are the same.
fn is_same_label(label: &Label, other: &Label) -> bool
    ensures { MatchBool result (label.now ≡ other.now) (label.now ≢ other.now) }
{
    *label == *other
}

// Whether the leg is that of a ride.
fn is_ride(table: &Timetable, leg: &Leg) -> bool
    requires { IsWell table.now }
    ensures { MatchBool result (IsLeg table.now leg.now) (IsLeg table.now leg.now → ⊥) }
{
    let Some(number) = table.journey_of(leg.journey) else {
        return false;
    };
    let journey = table.journey(number);
    if !is_same_code(&leg.region, &table.region()) {
        return false;
    }
    if !is_same_label(&leg.line, &journey.line) {
        return false;
    }
    if !table.runs_on(journey.service, leg.day) {
        return false;
    }
    if !has_name(table, &leg.board, &leg.board_name) {
        return false;
    }
    if !has_name(table, &leg.alight, &leg.alight_name) {
        return false;
    }
    match first_board(table, leg, number, journey.calls) {
        None => false,
        Some(from) => alights_behind(table, leg, number, journey.calls, from),
    }
}

// Whether the leg is that of a ride which leaves the stop not before the start.
fn begins(table: &Timetable, origin: StopRef, start: Instant, leg: &Leg) -> bool
    requires { IsWell table.now }
    ensures { MatchBool result (Begins table.now origin start leg.now) (Begins table.now origin start leg.now → ⊥) }
{
    is_same_stop(&leg.board, &origin)
        && start.seconds() <= leg.departs.seconds()
        && is_ride(table, leg)
}

// Whether the change time of the stop has passed since the arrival there.
fn is_after_change(table: &Timetable, stop: StopRef, arrives: Instant, departs: Instant) -> bool
    requires { IsWell table.now }
    ensures { MatchBool result (HasChanged table.now stop arrives departs) (HasChanged table.now stop arrives departs → ⊥) }
{
    match table.change(stop) {
        None => false,
        Some(change) => arrives.seconds() + u64::from(change) <= departs.seconds(),
    }
}

// Whether the leg is that of a ride which may follow the one before it.
fn follows(table: &Timetable, last: &Leg, leg: &Leg) -> bool
    requires { IsWell table.now }
    ensures { MatchBool result (GoesOnBy table.now last.now leg.now) (GoesOnBy table.now last.now leg.now → ⊥) }
{
    is_same_stop(&leg.board, &last.alight)
        && is_after_change(table, last.alight, last.arrives, leg.departs)
        && is_ride(table, leg)
}

// Whether the leg ends at the stop within the requested day.
fn ends(leg: &Leg, target: StopRef, start: Instant) -> bool
    ensures { MatchBool result (Ends leg.now target start) (Ends leg.now target start → ⊥) }
{
    is_same_stop(&leg.alight, &target) && leg.arrives.seconds() <= start.seconds() + 86_400
}

impl Timetable {
    ghost use Rattle.ojp_timetable.specs.Journeys.{Regional};

    /// Whether the legs are a journey of the region from the origin, not before the start, to the
    /// target, where it arrives within the requested day. It takes no memory.
    pub fn is_legal(&self, origin: StopRef, start: Instant, target: StopRef, legs: &[Leg]) -> bool
        ensures { IsTrue result ↔ ((a : ℕ) × Regional self.now origin start target a legs.now) }
    {
        self.is_well();
        if is_same_stop(&origin, &target) {
            return false;
        }
        if legs.is_empty() {
            return false;
        }
        if !begins(self, origin, start, &legs[0]) {
            return false;
        }
        'legs: for i in 0..legs.len() - 1 {
            if !follows(self, &legs[i], &legs[i + 1]) {
                return false;
            }
        }
        ends(&legs[legs.len() - 1], target, start)
    }
}
