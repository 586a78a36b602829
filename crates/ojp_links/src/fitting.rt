//! Which replies fit what is expected of them.

mod entries;
mod rising;
mod trips;

ghost use Rattle.std.specs.Prelude.{◌↔◌, IsTrue};
ghost use Rattle.ojp_values.specs.declared.asks.Ask.TheVariants as asks;
ghost use Rattle.ojp_links.specs.Fits.{Fits, FitsMultiReply, FitsTripReply};
ghost use Rattle.ojp_links.specs.Replies.{FitsExpected, IsOfKind};

use crate::expect::Expect;
use crate::fitting::entries::{fits_events, fits_points};
use crate::fitting::trips::{are_results, is_trip};
use ojp_values::{
    Ask, Code, Delivery, EventAsk, Fault, MultiAsk, MultiReply, PointsAsk, TripAsk, TripReply,
};

/// Whether the reply fits what is expected. It takes no memory.
pub fn fits(expect: &Expect, reply: &Delivery) -> bool
    ensures { IsTrue result ↔ FitsExpected expect.now reply.now }
{
    match expect {
        Expect::Region { code, ask } => fits_ask(code, ask, reply),
        Expect::Kind(ask) => is_of_kind(ask, reply),
    }
}

/// Whether the reply is of the ask's kind.
fn is_of_kind(ask: &Ask, reply: &Delivery) -> bool
    ensures { IsTrue result ↔ IsOfKind ask.now reply.now }
{
    match ask {
        Ask::Trip(_) => matches!(reply, Delivery::Trip(_)),
        Ask::Multi(_) => matches!(reply, Delivery::Multi(_)),
        Ask::Events(_) => matches!(reply, Delivery::Events(_)),
        Ask::Points(_) => matches!(reply, Delivery::Points(_)),
    }
}

/// Whether the reply fits the ask to the region with the code.
fn fits_ask(code: &Code, ask: &Ask, reply: &Delivery) -> bool
    ensures { IsTrue result ↔ Fits code.now ask.now reply.now }
{
    match ask {
        Ask::Trip(ask) => answers_trip(code, ask, reply),
        Ask::Multi(ask) => answers_multi(code, ask, reply),
        Ask::Events(ask) => answers_events(code, ask, reply),
        Ask::Points(ask) => answers_points(code, ask, reply),
    }
}

fn answers_trip(code: &Code, ask: &TripAsk, reply: &Delivery) -> bool
    ensures { IsTrue result ↔ Fits code.now (asks.Trip ask.now) reply.now }
{
    match reply {
        Delivery::Trip(reply) => fits_trip(code, ask, reply),
        _ => false,
    }
}

fn answers_multi(code: &Code, ask: &MultiAsk, reply: &Delivery) -> bool
    ensures { IsTrue result ↔ Fits code.now (asks.Multi ask.now) reply.now }
{
    match reply {
        Delivery::Multi(reply) => fits_multi(code, ask, reply),
        _ => false,
    }
}

fn answers_events(code: &Code, ask: &EventAsk, reply: &Delivery) -> bool
    ensures { IsTrue result ↔ Fits code.now (asks.Events ask.now) reply.now }
{
    match reply {
        Delivery::Events(reply) => fits_events(code, ask, reply),
        _ => false,
    }
}

fn answers_points(code: &Code, ask: &PointsAsk, reply: &Delivery) -> bool
    ensures { IsTrue result ↔ Fits code.now (asks.Points ask.now) reply.now }
{
    match reply {
        Delivery::Points(reply) => fits_points(code, &ask.place, reply),
        _ => false,
    }
}

fn fits_trip(code: &Code, ask: &TripAsk, reply: &TripReply) -> bool
    ensures { IsTrue result ↔ FitsTripReply code.now ask.now reply.now }
{
    match reply {
        TripReply::Trip(trip) => is_trip(code, &ask.origin, ask.start, &ask.target, trip),
        TripReply::Fault(Fault::NoTrip(stop)) => *stop == ask.target,
        TripReply::Fault(_) => false,
    }
}

fn fits_multi(code: &Code, ask: &MultiAsk, reply: &MultiReply) -> bool
    ensures { IsTrue result ↔ FitsMultiReply code.now ask.now reply.now }
{
    match reply {
        MultiReply::Results(results) => are_results(
            code,
            &ask.origin,
            ask.start,
            ask.targets.as_slice(),
            results.as_slice(),
        ),
        MultiReply::Fault(_) => false,
    }
}
