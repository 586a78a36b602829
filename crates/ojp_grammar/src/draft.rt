//! The values of a document that is being read.
#![tactic(auto)]

ghost use Rattle.std.specs.Prelude.{◌≡◌, [], ◌∷◌, IfOk, MatchResult};
ghost use Rattle.ojp_grammar.specs.Folding as folding;
ghost use Rattle.ojp_grammar.specs.Drafting.{Takes};
ghost use Rattle.ojp_grammar.specs.Fronts as fronts;

use crate::fields::FieldValue;
use crate::stacks::{Stack, Unbuilt, keep};
use ojp_tables::names::*;
use ojp_values::{
    Ask, Code, Day, Delivery, Doc, Event, EventAsk, EventKind, EventsReply, Fault, Instant, Label,
    Leg, List, MultiAsk, MultiReply, Name, Neighbour, Point, PointsAsk, PointsReply, StopRef, Trip,
    TripAsk, TripReply, TripResult,
};
use std::alloc::Global;
use std::marker::Model;
use std::mem;

/// The values that wait for their part, by kind, the parts of the lists that are open, and the document
/// where it is whole. A closing text makes a part of the values that wait.
#[derive(Drop)]
pub struct Draft {
    alloc: Global,
    stops: Stack<StopRef>,
    codes: Stack<Code>,
    labels: Stack<Label>,
    names: Stack<Name>,
    moments: Stack<Instant>,
    days: Stack<Day>,
    numbers: Stack<u32>,
    kinds: Stack<EventKind>,
    failed: Stack<u8>,
    faults: Stack<Fault>,
    targets: List<StopRef>,
    legs: List<Leg>,
    trips: Stack<Trip>,
    results: List<TripResult>,
    events: List<Event>,
    neighbours: List<Neighbour>,
    points: List<Point>,
    done: Stack<Doc>,
}

impl Model for Draft {
    ghost use Rattle.ojp_grammar.specs.Folding.{Waiting};

    ghost Value = { Waiting };

    ghost view = { λ d. record {
      stops = d.stops;
      codes = d.codes;
      labels = d.labels;
      names = d.names;
      moments = d.moments;
      days = d.days;
      numbers = d.numbers;
      kinds = d.kinds;
      failed = d.failed;
      faults = d.faults;
      targets = d.targets;
      legs = d.legs;
      trips = d.trips;
      results = d.results;
      events = d.events;
      neighbours = d.neighbours;
      points = d.points;
      done = d.done;
    } };
}

impl Draft {
    /// Nothing waits; takes no memory.
    pub fn new(alloc: Global) -> Draft
        ensures { result ≡ folding.nothing }
    {
        Draft {
            alloc,
            stops: Stack::new(alloc),
            codes: Stack::new(alloc),
            labels: Stack::new(alloc),
            names: Stack::new(alloc),
            moments: Stack::new(alloc),
            days: Stack::new(alloc),
            numbers: Stack::new(alloc),
            kinds: Stack::new(alloc),
            failed: Stack::new(alloc),
            faults: Stack::new(alloc),
            targets: List::new(alloc),
            legs: List::new(alloc),
            trips: Stack::new(alloc),
            results: List::new(alloc),
            events: List::new(alloc),
            neighbours: List::new(alloc),
            points: List::new(alloc),
            done: Stack::new(alloc),
        }
    }

    /// The document that is whole; takes no memory.
    pub fn into_document(mut self) -> Option<Doc>
        ensures { (doc : Doc) → self.done ≡ doc ∷ [] → result ≡ Some doc }
    {
        self.done.pop()
    }

    /// Takes the value of a field.
    pub fn take_value(&mut self, value: FieldValue) -> Result<(), Unbuilt>
        ensures { Takes (Some (folding.push_value value self.old)) result self.new }
    {
        match value {
            FieldValue::StopRef(stop) => self.stops.push(stop),
            FieldValue::Code(code) => self.codes.push(code),
            FieldValue::Label(label) => self.labels.push(label),
            FieldValue::Name(name) => self.names.push(name),
            FieldValue::Moment(moment) => self.moments.push(moment),
            FieldValue::Day(day) => self.days.push(day),
            FieldValue::Seconds(number)
            | FieldValue::Change(number)
            | FieldValue::Number(number)
            | FieldValue::Count(number) => self.numbers.push(number),
            FieldValue::EventKind(kind) => self.kinds.push(kind),
        }
    }

    /// Ends a leg.
    fn end_leg(&mut self) -> Result<(), Unbuilt>
        ensures { Takes (folding.end_leg self.old) result self.new }
    {
        let alight = self.stops.take()?;
        let board = self.stops.take()?;
        let alight_name = self.names.take()?;
        let board_name = self.names.take()?;
        let arrives = self.moments.take()?;
        let departs = self.moments.take()?;
        let line = self.labels.take()?;
        let journey = self.labels.take()?;
        let day = self.days.take()?;
        let region = self.codes.take()?;
        let leg = Leg {
            region,
            journey,
            line,
            day,
            board,
            board_name,
            departs,
            alight,
            alight_name,
            arrives,
        };
        keep(&mut self.legs, leg)
    }

    /// Keeps a leg that was read whole.
    pub fn keep_leg(&mut self, leg: Leg) -> Result<(), Unbuilt>
        ensures { Takes (Some (fronts.keep_leg leg self.old)) result self.new }
    {
        keep(&mut self.legs, leg)
    }

    /// Ends a trip.
    fn end_trip(&mut self) -> Result<(), Unbuilt>
        ensures { Takes (folding.end_trip self.old) result self.new }
    {
        let transfers = self.numbers.take()?;
        let duration = self.numbers.take()?;
        let end = self.moments.take()?;
        let start = self.moments.take()?;
        let trip = Trip {
            duration,
            start,
            end,
            transfers,
            legs: mem::replace(&mut self.legs, List::new(self.alloc)),
        };
        self.trips.push(trip)
    }

    /// Ends the result for one target of many.
    fn end_result(&mut self) -> Result<(), Unbuilt>
        ensures { Takes (folding.result_of self.old.trips self.old) result self.new }
    {
        match self.trips.pop() {
            Some(trip) => keep(&mut self.results, TripResult::Trip(trip)),
            None => {
                let fault = self.faults.take()?;
                match missed_by(fault) {
                    Some(stop) => keep(&mut self.results, TripResult::NoTrip(stop)),
                    None => Err(Unbuilt::Mismatch),
                }
            }
        }
    }

    /// Ends a stop event.
    fn end_event(&mut self) -> Result<(), Unbuilt>
        ensures { Takes (folding.end_event self.old) result self.new }
    {
        let stop = self.stops.take()?;
        let order = self.numbers.take()?;
        let moment = self.moments.take()?;
        let day = self.days.take()?;
        let line = self.labels.take()?;
        let journey = self.labels.take()?;
        let region = self.codes.take()?;
        let event = Event {
            region,
            journey,
            line,
            day,
            stop,
            order,
            moment,
        };
        keep(&mut self.events, event)
    }

    /// Ends a neighbour of an exchange point.
    fn end_neighbour(&mut self) -> Result<(), Unbuilt>
        ensures { Takes (folding.end_neighbour self.old) result self.new }
    {
        let code = self.codes.take()?;
        let change = self.numbers.take()?;
        keep(&mut self.neighbours, Neighbour { code, change })
    }

    /// Ends an exchange point.
    fn end_point(&mut self) -> Result<(), Unbuilt>
        ensures { Takes (folding.end_point self.old) result self.new }
    {
        let region = self.codes.take()?;
        let stop = self.stops.take()?;
        let change = self.numbers.take()?;
        let point = Point {
            region,
            stop,
            change,
            neighbours: mem::replace(&mut self.neighbours, List::new(self.alloc)),
        };
        keep(&mut self.points, point)
    }

    /// Ends a target.
    fn end_target(&mut self) -> Result<(), Unbuilt>
        ensures { Takes (folding.end_target self.old) result self.new }
    {
        let stop = self.stops.take()?;
        keep(&mut self.targets, stop)
    }

    /// Ends a fault.
    fn end_fault(&mut self) -> Result<(), Unbuilt>
        ensures { Takes (folding.end_fault self.old) result self.new }
    {
        let code = self.failed.take()?;
        self.end_code(code)
    }

    /// Ends the fault of an error code.
    fn end_code(&mut self, code: u8) -> Result<(), Unbuilt>
        ensures { Takes (folding.end_code code self.old) result self.new }
    {
        if code == SAME_STOP {
            let stop = self.stops.take()?;
            self.faults.push(Fault::SameStop(stop))
        } else if code == STOP_UNKNOWN {
            let stop = self.stops.take()?;
            self.faults.push(Fault::StopUnknown(stop))
        } else if code == NO_TRIP {
            let stop = self.stops.take()?;
            self.faults.push(Fault::NoTrip(stop))
        } else if code == REGION_FAILED {
            let region = self.codes.take()?;
            self.faults.push(Fault::RegionFailed(region))
        } else {
            self.faults.push(Fault::NotServed)
        }
    }

    /// The document is whole.
    fn finish(&mut self, document: Doc) -> Result<(), Unbuilt>
        ensures { Takes (folding.finish document self.old) result self.new }
    {
        self.done.push(document)
    }

    /// Ends a trip ask.
    fn end_trip_ask(&mut self) -> Result<(), Unbuilt>
        ensures { Takes (folding.end_trip_ask self.old) result self.new }
    {
        let origin = self.stops.take()?;
        let start = self.moments.take()?;
        let targets = mem::replace(&mut self.targets, List::new(self.alloc));
        match targets.as_slice().first() {
            Some(target) => {
                let target = *target;
                self.finish(Doc::Ask(Ask::Trip(TripAsk {
                    origin,
                    start,
                    target,
                })))
            }
            None => Err(Unbuilt::Mismatch),
        }
    }

    /// Ends a multi ask.
    fn end_multi_ask(&mut self) -> Result<(), Unbuilt>
        ensures { Takes (folding.end_multi_ask self.old) result self.new }
    {
        let origin = self.stops.take()?;
        let start = self.moments.take()?;
        let targets = mem::replace(&mut self.targets, List::new(self.alloc));
        self.finish(Doc::Ask(Ask::Multi(MultiAsk {
            origin,
            start,
            targets,
        })))
    }

    /// Ends an event ask.
    fn end_event_ask(&mut self) -> Result<(), Unbuilt>
        ensures { Takes (folding.end_event_ask self.old) result self.new }
    {
        let stop = self.stops.take()?;
        let start = self.moments.take()?;
        let number = self.numbers.take()?;
        let kind = self.kinds.take()?;
        self.finish(Doc::Ask(Ask::Events(EventAsk {
            stop,
            start,
            kind,
            number,
        })))
    }

    /// Ends a points ask.
    fn end_points_ask(&mut self) -> Result<(), Unbuilt>
        ensures { Takes (folding.end_points_ask self.old.stops self.old) result self.new }
    {
        match self.stops.pop() {
            Some(stop) => self.finish(Doc::Ask(Ask::Points(PointsAsk { place: Some(stop) }))),
            None => self.finish(Doc::Ask(Ask::Points(PointsAsk { place: None }))),
        }
    }

    /// Ends the delivery of a trip.
    fn end_trip_reply(&mut self) -> Result<(), Unbuilt>
        ensures { Takes (folding.end_trip_reply self.old) result self.new }
    {
        match self.faults.pop() {
            Some(fault) => self.finish(Doc::Delivery(Delivery::Trip(TripReply::Fault(fault)))),
            None => {
                let trip = self.trips.take()?;
                self.finish(Doc::Delivery(Delivery::Trip(TripReply::Trip(trip))))
            }
        }
    }

    /// Ends the delivery of trips to many targets.
    fn end_multi_reply(&mut self) -> Result<(), Unbuilt>
        ensures { Takes (folding.end_multi_reply self.old) result self.new }
    {
        match self.faults.pop() {
            Some(fault) => self.finish(Doc::Delivery(Delivery::Multi(MultiReply::Fault(fault)))),
            None => {
                let results = mem::replace(&mut self.results, List::new(self.alloc));
                self.finish(Doc::Delivery(Delivery::Multi(MultiReply::Results(results))))
            }
        }
    }

    /// Ends the delivery of stop events.
    fn end_events_reply(&mut self) -> Result<(), Unbuilt>
        ensures { Takes (folding.end_events_reply self.old) result self.new }
    {
        match self.faults.pop() {
            Some(fault) => self.finish(Doc::Delivery(Delivery::Events(EventsReply::Fault(fault)))),
            None => {
                let events = mem::replace(&mut self.events, List::new(self.alloc));
                self.finish(Doc::Delivery(Delivery::Events(EventsReply::Events(events))))
            }
        }
    }

    /// Ends the delivery of exchange points.
    fn end_points_reply(&mut self) -> Result<(), Unbuilt>
        ensures { Takes (folding.end_points_reply self.old) result self.new }
    {
        match self.faults.pop() {
            Some(fault) => self.finish(Doc::Delivery(Delivery::Points(PointsReply::Fault(fault)))),
            None => {
                let points = mem::replace(&mut self.points, List::new(self.alloc));
                self.finish(Doc::Delivery(Delivery::Points(PointsReply::Points(points))))
            }
        }
    }

    /// Takes a markup text: a closing text ends its part, an error code waits for its fault.
    pub fn take_text(&mut self, n: u8) -> Result<(), Unbuilt>
        ensures { Takes (folding.take_text n self.old) result self.new }
    {
        if n == TRIP_LEG + 1 {
            self.end_leg()
        } else if n == TRIP + 1 {
            self.end_trip()
        } else if n == MULTI_POINT_TRIP_RESULT + 1 {
            self.end_result()
        } else if n == STOP_EVENT_RESULT + 1 {
            self.end_event()
        } else if n == NEIGHBOUR + 1 {
            self.end_neighbour()
        } else if n == EXCHANGE_POINT + 1 {
            self.end_point()
        } else if n == DESTINATION + 1 {
            self.end_target()
        } else if n == ERROR_CONDITION + 1 {
            self.end_fault()
        } else if is_code(n) {
            self.failed.push(n)
        } else {
            self.take_end(n)
        }
    }

    /// Takes a text that may end an ask or a delivery.
    fn take_end(&mut self, n: u8) -> Result<(), Unbuilt>
        ensures { Takes (folding.take_end n self.old) result self.new }
    {
        if n == OJP_TRIP_REQUEST + 1 {
            self.end_trip_ask()
        } else if n == OJP_MULTI_POINT_TRIP_REQUEST + 1 {
            self.end_multi_ask()
        } else if n == OJP_STOP_EVENT_REQUEST + 1 {
            self.end_event_ask()
        } else if n == OJP_EXCHANGE_POINTS_REQUEST + 1 {
            self.end_points_ask()
        } else if n == OJP_TRIP_DELIVERY + 1 {
            self.end_trip_reply()
        } else if n == OJP_MULTI_POINT_TRIP_DELIVERY + 1 {
            self.end_multi_reply()
        } else if n == OJP_STOP_EVENT_DELIVERY + 1 {
            self.end_events_reply()
        } else if n == OJP_EXCHANGE_POINTS_DELIVERY + 1 {
            self.end_points_reply()
        } else {
            Ok(())
        }
    }
}

/// Whether the text is an error code.
fn is_code(n: u8) -> bool
    ensures { result ≡ folding.is_code n }
{
    n == SAME_STOP || n == STOP_UNKNOWN || n == NO_TRIP || n == REGION_FAILED || n == NOT_SERVED
}

/// The target that no trip reaches, if the fault says so.
fn missed_by(fault: Fault) -> Option<StopRef>
    ensures { result ≡ folding.missed_by fault }
{
    match fault {
        Fault::NoTrip(stop) => Some(stop),
        Fault::SameStop(_) | Fault::StopUnknown(_) | Fault::RegionFailed(_) | Fault::NotServed => {
            None
        }
    }
}
