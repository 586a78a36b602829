//! One request of a connection, and the response to it.

ghost use Rattle.ojp_values.specs.Limits.{IsWellDelivery};
ghost use Rattle.ojp_bodies.specs.Reading.{TakesAsk};
ghost use Rattle.ojp_bodies.specs.Writing.{Declines, Delivers, Refuses};

use crate::bodies::{read_ask, spell, tell};
use ojp_grammar::refusals::{Refused, WholeRefused};
use ojp_http::{HttpRefusal, Served, give_up, read_request, refuse, respond};
use ojp_outside::{Sink, Source};
use ojp_values::{Ask, Delivery, NoMemory};
use std::alloc::Global;

/// Why a request asks nothing.
#[derive(Clone, Copy, Debug, PartialEq, Eq)]
pub enum Declined {
    /// It is refused as a request, a read failed, or memory ran out.
    Http(HttpRefusal),
    /// Its body is no document of an ask.
    Body(Refused),
}

/// Reads one request, and gives the ask that its body spells. Of what the input has behind the request only the rest of
/// its last piece is read.
pub fn take_ask<I: Source>(alloc: Global, input: &mut I) -> Result<Ask, Declined>
    ensures { TakesAsk (I.seen input.old) (I.seen input.new) result }
{
    let body = match read_request(alloc, input) {
        Ok(body) => body,
        Err(refusal) => return Err(Declined::Http(refusal)),
    };
    match read_ask(alloc, body.as_slice()) {
        Ok(ask) => Ok(ask),
        Err(WholeRefused::At(refused)) => Err(Declined::Body(refused)),
        Err(WholeRefused::NoMemory) => Err(Declined::Http(HttpRefusal::NoMemory)),
    }
}

/// Writes the delivery as a response of status 200.
pub fn deliver<O: Sink>(alloc: Global, delivery: Delivery, output: &mut O) -> Served
    requires { IsWellDelivery delivery }
    ensures { Delivers delivery (O.seen output.old) (O.seen output.new) result }
{
    match spell(alloc, delivery) {
        Ok(text) => respond(200, text.written(), output),
        Err(NoMemory) => give_up(output),
    }
}

/// Writes the response to a request that asks nothing; nothing is written where a read failed.
pub fn decline<O: Sink>(alloc: Global, declined: Declined, output: &mut O) -> Served
    ensures { Declines declined (O.seen output.old) (O.seen output.new) result }
{
    match declined {
        Declined::Http(refusal) => refuse_request(refusal, output),
        Declined::Body(refused) => match tell(alloc, refused) {
            Ok(text) => respond(400, text.written(), output),
            Err(NoMemory) => give_up(output),
        },
    }
}

// The response to a request that is refused as one.
fn refuse_request<O: Sink>(refusal: HttpRefusal, output: &mut O) -> Served
    ensures { Refuses refusal (O.seen output.old) (O.seen output.new) result }
{
    match refusal {
        HttpRefusal::ReadFault => Served::ReadFault,
        HttpRefusal::NoMemory => give_up(output),
        _ => refuse(refusal, output),
    }
}
