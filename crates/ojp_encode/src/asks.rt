//! Asks.

ghost use Rattle.std.specs.Prelude.{◌^◌, length};
ghost use Rattle.ojp_values.specs.Limits.{IsBetween, IsWellAsk};
ghost use Rattle.ojp_grammar.specs.Syntax.{Fits};
ghost use Rattle.ojp_grammar.specs.Grammar.{TO, TRIP_ASK, MULTI_ASK, EVENT_ASK, POINTS_ASK, ASK};
ghost use Rattle.ojp_grammar.specs.Documents.{to_said, trip_ask_said, multi_ask_said, event_ask_said, points_ask_said, ask_said};
ghost use Rattle.ojp_encode.specs.Writing.{Writes, spelling};

use crate::lengths::{MOMENT, length_each, number_length, stop_length};
use crate::lists::{put, put_list};
use crate::markup::*;
use crate::spelled::Spelled;
use itoa::Buffer;
use ojp_outside::{Sink, WriteFault};
use ojp_tables::put_tag;
use ojp_tables::runs::*;
use ojp_values::{Ask, EventAsk, EventKind, MultiAsk, PointsAsk, StopRef, TripAsk};

/// A stop is a target where it stands in a list.
impl Spelled for StopRef {
    ghost bytes = { λ s. spelling TO (to_said s) };

    ghost is_well = { λ _. Unit {0} };

    ghost fits = { λ s. Fits TO (to_said s) };

    ghost most = { 1_024 };

    fn put<S: Sink>(&self, sink: &mut S) -> Result<(), WriteFault> {
        let stop = self.text();
        put_tag!(put, sink; TARGET_START, stop, TARGET_END)
    }

    fn length(&self) -> u64 {
        TARGET_MARKUP + stop_length(self)
    }
}

impl Spelled for TripAsk {
    ghost bytes = { λ a. spelling TRIP_ASK (trip_ask_said a) };

    ghost is_well = { λ _. Unit {0} };

    ghost fits = { λ a. Fits TRIP_ASK (trip_ask_said a) };

    ghost most = { 2_048 };

    fn put<S: Sink>(&self, sink: &mut S) -> Result<(), WriteFault> {
        let origin = self.origin.text();
        let start: &[u8] = &self.start.text();
        let target = self.target.text();
        put_tag!(put, sink;
            TRIP_ASK_START, origin, ORIGIN_TIME, start, TIME_TARGET, target, TRIP_ASK_END
        )
    }

    fn length(&self) -> u64 {
        TRIP_ASK_MARKUP + stop_length(&self.origin) + MOMENT + stop_length(&self.target)
    }
}

impl Spelled for MultiAsk {
    ghost bytes = { λ a. spelling MULTI_ASK (multi_ask_said a) };

    ghost is_well = { λ a. IsBetween 1 256 (length a.targets) };

    ghost fits = { λ a. Fits MULTI_ASK (multi_ask_said a) };

    ghost most = { 2 ^ 20 };

    fn put<S: Sink>(&self, sink: &mut S) -> Result<(), WriteFault> {
        let origin = self.origin.text();
        let start: &[u8] = &self.start.text();
        let targets = self.targets.as_slice();
        put_list(
            sink,
            &[MULTI_ASK_START, origin, ORIGIN_TIME, start, ORIGIN_END],
            targets,
            MULTI_ASK_END,
        )
    }

    fn length(&self) -> u64 {
        let targets = self.targets.as_slice();
        MULTI_ASK_MARKUP + stop_length(&self.origin) + MOMENT + length_each(targets)
    }
}

impl Spelled for EventAsk {
    ghost bytes = { λ a. spelling EVENT_ASK (event_ask_said a) };

    ghost is_well = { λ a. IsBetween 1 100 a.number };

    ghost fits = { λ a. Fits EVENT_ASK (event_ask_said a) };

    ghost most = { 2_048 };

    fn put<S: Sink>(&self, sink: &mut S) -> Result<(), WriteFault> {
        let mut digits = Buffer::new();
        let stop = self.stop.text();
        let start: &[u8] = &self.start.text();
        let number = digits.format(self.number).as_bytes();
        match self.kind {
            EventKind::Departure => put_tag!(put, sink;
                EVENT_ASK_START, stop, ORIGIN_TIME, start, TIME_NUMBER, number, DEPARTURE_END
            ),
            EventKind::Arrival => put_tag!(put, sink;
                EVENT_ASK_START, stop, ORIGIN_TIME, start, TIME_NUMBER, number, ARRIVAL_END
            ),
        }
    }

    fn length(&self) -> u64 {
        let fields = stop_length(&self.stop) + MOMENT + number_length(self.number);
        match self.kind {
            EventKind::Departure => DEPARTURES_MARKUP + fields,
            EventKind::Arrival => ARRIVALS_MARKUP + fields,
        }
    }
}

impl Spelled for PointsAsk {
    ghost bytes = { λ a. spelling POINTS_ASK (points_ask_said a) };

    ghost is_well = { λ _. Unit {0} };

    ghost fits = { λ a. Fits POINTS_ASK (points_ask_said a) };

    ghost most = { 1_024 };

    fn put<S: Sink>(&self, sink: &mut S) -> Result<(), WriteFault> {
        match &self.place {
            None => put_tag!(put, sink; POINTS_ASK_START, POINTS_ASK_END),
            Some(stop) => {
                let stop = stop.text();
                put_tag!(put, sink; POINTS_PLACE_START, stop, POINTS_PLACE_END)
            }
        }
    }

    fn length(&self) -> u64 {
        match &self.place {
            None => POINTS_ASK_MARKUP,
            Some(stop) => POINTS_PLACE_MARKUP + stop_length(stop),
        }
    }
}

impl Spelled for Ask {
    ghost bytes = { λ a. spelling ASK (ask_said a) };

    ghost is_well = { IsWellAsk };

    ghost fits = { λ a. Fits ASK (ask_said a) };

    ghost most = { 2 ^ 20 };

    fn put<S: Sink>(&self, sink: &mut S) -> Result<(), WriteFault> {
        match self {
            Ask::Trip(ask) => ask.put(sink),
            Ask::Multi(ask) => ask.put(sink),
            Ask::Events(ask) => ask.put(sink),
            Ask::Points(ask) => ask.put(sink),
        }
    }

    fn length(&self) -> u64 {
        match self {
            Ask::Trip(ask) => ask.length(),
            Ask::Multi(ask) => ask.length(),
            Ask::Events(ask) => ask.length(),
            Ask::Points(ask) => ask.length(),
        }
    }
}
