//! One connection of a gateway's server.

ghost use Rattle.std.specs.Prelude.{◌≡◌, [], IfOk};
ghost use Rattle.ojp_values.specs.Limits.{IsWellDelivery};
ghost use Rattle.ojp_http.specs.Connections.{wire};
ghost use Rattle.ojp_links.specs.Seen.{NoneLive};
ghost use Rattle.ojp_turns.specs.Held.{HasRegions};
ghost use Rattle.ojp_gateway.specs.Serving.{Concludes, ServesOne};

use crate::answering::{Answer, answer_paced};
use crate::waiting::answer_waiting;
use ojp_bodies::{decline, deliver, take_ask};
use ojp_exchange::Book;
use ojp_http::{Served, give_up};
use ojp_links::{PacedLinks, Runtime, WaitLinks};
use ojp_outside::{Sink, Source};
use ojp_records::Entry;
use ojp_traces::Trace;
use ojp_values::{List, NoMemory};
use std::alloc::Global;

/// How a connection was served, with the record of its search. The record is empty where no delivery was made.
#[derive(Debug, Drop)]
pub struct Serving {
    pub served: Served,
    pub told: List<Entry>,
}

/// Reads one request and writes the response to it over paced links: a refusal of the request, a refusal of the document,
/// or the gateway's answer. Of what the input has behind the request only the rest of its last piece is read.
pub fn serve_paced<L: PacedLinks, I: Source, O: Sink>(
    alloc: Global,
    book: &Book,
    links: &mut L,
    input: &mut I,
    output: &mut O,
) -> Serving
    requires regions { HasRegions book.now (L.seen links.old) }
    requires none_live { NoneLive (L.seen links.old) }
    ensures { ServesOne book.now (L.seen links.old) (L.seen links.new)
        (wire (I.seen input.old) (O.seen output.old)) (wire (I.seen input.new) (O.seen output.new)) result.served result.told }
{
    match take_ask(alloc, input) {
        Ok(ask) => {
            let mut trace = Trace::off(alloc);
            let answer = answer_paced(alloc, book, links, &ask, &mut trace);
            conclude(alloc, answer, output)
        }
        Err(declined) => without_record(alloc, decline(alloc, declined, output)),
    }
}

/// The same over links that may wait. It may wait; its promise holds if it returns.
pub fn serve_waiting<R: Runtime, L: WaitLinks, I: Source, O: Sink>(
    rt: &mut R,
    alloc: Global,
    book: &Book,
    links: &mut L,
    input: &mut I,
    output: &mut O,
) -> Serving
    requires regions { HasRegions book.now (L.seen links.old) }
    requires none_live { NoneLive (L.seen links.old) }
    ensures { ServesOne book.now (L.seen links.old) (L.seen links.new)
        (wire (I.seen input.old) (O.seen output.old)) (wire (I.seen input.new) (O.seen output.new)) result.served result.told }
{
    match take_ask(alloc, input) {
        Ok(ask) => conclude(alloc, answer_waiting(rt, alloc, book, links, &ask), output),
        Err(declined) => without_record(alloc, decline(alloc, declined, output)),
    }
}

// Writes the answer, and hands its record back where memory sufficed.
fn conclude<O: Sink>(alloc: Global, answer: Result<Answer, NoMemory>, output: &mut O) -> Serving
    requires { IfOk answer (λ answer. IsWellDelivery answer.delivery) }
    ensures { Concludes answer (O.seen output.old) (O.seen output.new) result.served result.told }
{
    let Ok(Answer { delivery, told }) = answer else {
        return without_record(alloc, give_up(output));
    };
    match deliver(alloc, delivery, output) {
        Served::NoMemory => without_record(alloc, Served::NoMemory),
        served => Serving { served, told },
    }
}

// A connection for which no delivery was made.
fn without_record(alloc: Global, served: Served) -> Serving
    ensures served { result.served ≡ served }
    ensures told { result.told ≡ [] }
{
    Serving {
        served,
        told: List::new(alloc),
    }
}
