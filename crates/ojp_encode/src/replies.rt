//! Deliveries of the four services.

ghost use Rattle.std.specs.Prelude.{◌^◌};
ghost use Rattle.ojp_values.specs.Limits.{IsWellTripReply, IsWellResult, IsWellMultiReply, IsWellEventsReply, IsWellPointsReply, IsWellDelivery};
ghost use Rattle.ojp_grammar.specs.Syntax.{Fits};
ghost use Rattle.ojp_grammar.specs.Grammar.{TRIP_DELIVERY, MULTI_RESULT, MULTI_DELIVERY, EVENT_DELIVERY, POINTS_DELIVERY, REPLY};
ghost use Rattle.ojp_grammar.specs.Documents.{trip_reply_said, result_said, multi_reply_said, events_reply_said, points_reply_said, reply_said};
ghost use Rattle.ojp_encode.specs.Writing.{Writes, spelling};

use crate::lengths::{length_each, stop_length};
use crate::lists::{put, put_around, put_list};
use crate::markup::*;
use crate::spelled::Spelled;
use ojp_outside::{Sink, WriteFault};
use ojp_tables::put_tag;
use ojp_tables::runs::*;
use ojp_values::{Delivery, EventsReply, MultiReply, PointsReply, TripReply, TripResult};

impl Spelled for TripReply {
    ghost bytes = { λ r. spelling TRIP_DELIVERY (trip_reply_said r) };

    ghost is_well = { IsWellTripReply };

    ghost fits = { λ r. Fits TRIP_DELIVERY (trip_reply_said r) };

    ghost most = { 2 ^ 31 };

    fn put<S: Sink>(&self, sink: &mut S) -> Result<(), WriteFault> {
        match self {
            TripReply::Trip(trip) => put_around(sink, &[TRIP_RESULT_START], trip, TRIP_RESULT_END),
            TripReply::Fault(fault) => put_around(
                sink,
                &[TRIP_DELIVERY_START],
                fault,
                TRIP_DELIVERY_END,
            ),
        }
    }

    fn length(&self) -> u64 {
        match self {
            TripReply::Trip(trip) => TRIP_RESULT_MARKUP + trip.length(),
            TripReply::Fault(fault) => TRIP_DELIVERY_MARKUP + fault.length(),
        }
    }
}

impl Spelled for TripResult {
    ghost bytes = { λ r. spelling MULTI_RESULT (result_said r) };

    ghost is_well = { IsWellResult };

    ghost fits = { λ r. Fits MULTI_RESULT (result_said r) };

    ghost most = { 2 ^ 31 };

    fn put<S: Sink>(&self, sink: &mut S) -> Result<(), WriteFault> {
        match self {
            TripResult::Trip(trip) => put_around(sink, &[RESULT_START], trip, RESULT_END),
            TripResult::NoTrip(stop) => {
                let stop = stop.text();
                put_tag!(put, sink; RESULT_NO_TRIP, stop, RESULT_NO_TRIP_END)
            }
        }
    }

    fn length(&self) -> u64 {
        match self {
            TripResult::Trip(trip) => RESULT_MARKUP + trip.length(),
            TripResult::NoTrip(stop) => RESULT_NO_TRIP_MARKUP + stop_length(stop),
        }
    }
}

impl Spelled for MultiReply {
    ghost bytes = { λ r. spelling MULTI_DELIVERY (multi_reply_said r) };

    ghost is_well = { IsWellMultiReply };

    ghost fits = { λ r. Fits MULTI_DELIVERY (multi_reply_said r) };

    ghost most = { 2 ^ 40 };

    fn put<S: Sink>(&self, sink: &mut S) -> Result<(), WriteFault> {
        match self {
            MultiReply::Results(results) => {
                let results = results.as_slice();
                put_list(sink, &[MULTI_DELIVERY_START], results, MULTI_DELIVERY_END)
            }
            MultiReply::Fault(fault) => put_around(
                sink,
                &[MULTI_DELIVERY_START],
                fault,
                MULTI_DELIVERY_END,
            ),
        }
    }

    fn length(&self) -> u64 {
        match self {
            MultiReply::Results(results) => {
                let results = results.as_slice();
                MULTI_DELIVERY_MARKUP + length_each(results)
            }
            MultiReply::Fault(fault) => MULTI_DELIVERY_MARKUP + fault.length(),
        }
    }
}

impl Spelled for EventsReply {
    ghost bytes = { λ r. spelling EVENT_DELIVERY (events_reply_said r) };

    ghost is_well = { IsWellEventsReply };

    ghost fits = { λ r. Fits EVENT_DELIVERY (events_reply_said r) };

    ghost most = { 2 ^ 40 };

    fn put<S: Sink>(&self, sink: &mut S) -> Result<(), WriteFault> {
        match self {
            EventsReply::Events(events) => {
                let events = events.as_slice();
                put_list(sink, &[EVENTS_START], events, EVENTS_END)
            }
            EventsReply::Fault(fault) => put_around(sink, &[EVENTS_START], fault, EVENTS_END),
        }
    }

    fn length(&self) -> u64 {
        match self {
            EventsReply::Events(events) => {
                let events = events.as_slice();
                EVENTS_MARKUP + length_each(events)
            }
            EventsReply::Fault(fault) => EVENTS_MARKUP + fault.length(),
        }
    }
}

impl Spelled for PointsReply {
    ghost bytes = { λ r. spelling POINTS_DELIVERY (points_reply_said r) };

    ghost is_well = { IsWellPointsReply };

    ghost fits = { λ r. Fits POINTS_DELIVERY (points_reply_said r) };

    ghost most = { 2 ^ 40 };

    fn put<S: Sink>(&self, sink: &mut S) -> Result<(), WriteFault> {
        match self {
            PointsReply::Points(points) => {
                let points = points.as_slice();
                put_list(sink, &[POINTS_START], points, POINTS_END)
            }
            PointsReply::Fault(fault) => put_around(sink, &[POINTS_START], fault, POINTS_END),
        }
    }

    fn length(&self) -> u64 {
        match self {
            PointsReply::Points(points) => {
                let points = points.as_slice();
                POINTS_MARKUP + length_each(points)
            }
            PointsReply::Fault(fault) => POINTS_MARKUP + fault.length(),
        }
    }
}

impl Spelled for Delivery {
    ghost bytes = { λ r. spelling REPLY (reply_said r) };

    ghost is_well = { IsWellDelivery };

    ghost fits = { λ r. Fits REPLY (reply_said r) };

    ghost most = { 2 ^ 40 };

    fn put<S: Sink>(&self, sink: &mut S) -> Result<(), WriteFault> {
        match self {
            Delivery::Trip(reply) => reply.put(sink),
            Delivery::Multi(reply) => reply.put(sink),
            Delivery::Events(reply) => reply.put(sink),
            Delivery::Points(reply) => reply.put(sink),
        }
    }

    fn length(&self) -> u64 {
        match self {
            Delivery::Trip(reply) => reply.length(),
            Delivery::Multi(reply) => reply.length(),
            Delivery::Events(reply) => reply.length(),
            Delivery::Points(reply) => reply.length(),
        }
    }
}
