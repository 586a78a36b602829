//! What a region or the gateway replies.

ghost use Rattle.std.specs.Prelude.{◌↔◌, IsTrue, All};
ghost use Rattle.ojp_values.specs.Limits.{IsWellPoint, IsWellResult};

use crate::lists::List;
use crate::texts::{Code, StopRef};
use crate::trips::{Event, Point, Trip};

/// Why a service has no answer.
#[derive(Clone, Copy, Debug, PartialEq, Eq)]
pub enum Fault {
    SameStop(StopRef),
    StopUnknown(StopRef),
    NoTrip(StopRef),
    RegionFailed(Code),
    NotServed,
}

/// The answer for one target of many.
#[derive(Clone, Debug, PartialEq, Eq, Drop)]
pub enum TripResult {
    Trip(Trip),
    NoTrip(StopRef),
}

/// The answer to a trip ask.
#[derive(Debug, PartialEq, Eq, Drop)]
pub enum TripReply {
    Trip(Trip),
    Fault(Fault),
}

/// The answer to an ask with many targets: one result for each, in their order.
#[derive(Debug, PartialEq, Eq, Drop)]
pub enum MultiReply {
    Results(List<TripResult>),
    Fault(Fault),
}

/// The answer to an ask for stop events.
#[derive(Debug, PartialEq, Eq, Drop)]
pub enum EventsReply {
    Events(List<Event>),
    Fault(Fault),
}

/// The answer to an ask for exchange points.
#[derive(Debug, PartialEq, Eq, Drop)]
pub enum PointsReply {
    Points(List<Point>),
    Fault(Fault),
}

/// The answer of one of the four services.
#[derive(Debug, PartialEq, Eq, Drop)]
pub enum Delivery {
    Trip(TripReply),
    Multi(MultiReply),
    Events(EventsReply),
    Points(PointsReply),
}

impl TripResult {
    /// Whether a trip that is given is well.
    pub fn is_well(&self) -> bool
        ensures { IsTrue result ↔ IsWellResult self.now }
    {
        match self {
            TripResult::Trip(trip) => trip.is_well(),
            TripResult::NoTrip(_) => true,
        }
    }
}

impl TripReply {
    ghost use Rattle.ojp_values.specs.Limits.{IsWellTripReply};

    /// Whether a trip that is given is well.
    pub fn is_well(&self) -> bool
        ensures { IsTrue result ↔ IsWellTripReply self.now }
    {
        match self {
            TripReply::Trip(trip) => trip.is_well(),
            TripReply::Fault(_) => true,
        }
    }
}

impl MultiReply {
    ghost use Rattle.ojp_values.specs.Limits.{IsWellMultiReply};

    /// Whether 1 to 256 results are given, and each is well.
    pub fn is_well(&self) -> bool
        ensures { IsTrue result ↔ IsWellMultiReply self.now }
    {
        match self {
            MultiReply::Results(results) => {
                1 <= results.len() && results.len() <= 256 && are_well_results(results.as_slice())
            }
            MultiReply::Fault(_) => true,
        }
    }
}

impl EventsReply {
    ghost use Rattle.ojp_values.specs.Limits.{IsWellEventsReply};

    /// Whether at most 100 events are given.
    pub fn is_well(&self) -> bool
        ensures { IsTrue result ↔ IsWellEventsReply self.now }
    {
        match self {
            EventsReply::Events(events) => events.len() <= 100,
            EventsReply::Fault(_) => true,
        }
    }
}

impl PointsReply {
    ghost use Rattle.ojp_values.specs.Limits.{IsWellPointsReply};

    /// Whether at most 65,535 exchange points are given, and each is well.
    pub fn is_well(&self) -> bool
        ensures { IsTrue result ↔ IsWellPointsReply self.now }
    {
        match self {
            PointsReply::Points(points) => points.len() <= 65_535
                && are_well_points(points.as_slice()),
            PointsReply::Fault(_) => true,
        }
    }
}

impl Delivery {
    ghost use Rattle.ojp_values.specs.Limits.{IsWellDelivery};

    /// Whether the reply of the service is well.
    pub fn is_well(&self) -> bool
        ensures { IsTrue result ↔ IsWellDelivery self.now }
    {
        match self {
            Delivery::Trip(reply) => reply.is_well(),
            Delivery::Multi(reply) => reply.is_well(),
            Delivery::Events(reply) => reply.is_well(),
            Delivery::Points(reply) => reply.is_well(),
        }
    }
}

fn are_well_results(results: &[TripResult]) -> bool
    ensures { IsTrue result ↔ All IsWellResult results.now }
{
    results.iter().all(|outcome| outcome.is_well())
}

fn are_well_points(points: &[Point]) -> bool
    ensures { IsTrue result ↔ All IsWellPoint points.now }
{
    points.iter().all(|point| point.is_well())
}
