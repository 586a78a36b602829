//! One ask of a network, put through the gateway.

ghost use Rattle.std.specs.Prelude.{IfOk, OnOk, List};
ghost use Rattle.ojp_values.specs.declared.asks.Ask.TheVariants as asks;
ghost use Rattle.ojp_values.specs.declared.replies.Delivery.{Delivery};
ghost use Rattle.ojp_timetable.specs.GatewayAnswers.{EndsAreKnown, GatewayAnswers, TripByTables};
ghost use Rattle.ojp_timetable.specs.Tables.{Timetable};
ghost use Rattle.ojp_values.specs.declared.asks.Ask.{Ask as AskValue};
ghost use Rattle.ojp_links_mem.specs.Memory.{links_of};
ghost use Rattle.ojp_load.specs.Ready.{IsGoodAsk, IsReady};
ghost use Rattle.ojp_load.specs.Asking.{IsRequestOf, IsToldOf};

use crate::replies::delivery_of;
use ojp_encode::write;
use ojp_exchange::Book;
use ojp_gateway::serve_paced;
use ojp_grammar::laws::{one_spelling, requests_are_short};
use ojp_http::laws::a_request_gives_its_body;
use ojp_http::{Served, request};
use ojp_links::Links;
use ojp_links_mem::MemLinks;
use ojp_network::shapes::LoadAsk;
use ojp_outside::{MemSink, MemSource, WriteFault};
use ojp_values::{Ask, Delivery, Doc, List, NoMemory, TripAsk, TripReply};
use std::alloc::Global;

/// The most bytes of a read.
const PIECE: usize = 100;

/// Posts an ask to the gateway, with its order of replies, and gives how many seconds after its start the trip arrives;
/// none where there is no trip.
pub(crate) fn ask_one(
    alloc: Global,
    book: &Book,
    links: &mut MemLinks,
    load: &LoadAsk,
) -> Result<Option<u64>, NoMemory>
    requires { (tables : List Timetable) × IsReady tables book.now (links_of links.old) × IsGoodAsk tables load.now }
    ensures ready { (tables : List Timetable) → IsReady tables book.now (links_of links.old) → OnOk result (IsReady tables book.now (links_of links.new)) }
    ensures told { (tables : List Timetable) → IsReady tables book.now (links_of links.old) → IsGoodAsk tables load.now
        → IfOk result (IsToldOf tables load.now.ask) }
{
    links.renumber(load.order);
    let request = request_of(alloc, &load.ask)?;
    let delivery = post(alloc, book, links, request)?;
    Ok(told_by(&load.ask, &delivery))
}

// The request that posts an ask for a trip.
fn request_of(alloc: Global, ask: &TripAsk) -> Result<List<u8>, NoMemory>
    ensures { IfOk result (IsRequestOf (asks.Trip ask.now)) }
{
    requests_are_short();
    a_request_gives_its_body();
    let mut text = MemSink::new(alloc, Vec::new(alloc));
    match write(&Doc::Ask(Ask::Trip(*ask)), &mut text) {
        Ok(()) => request(alloc, b"GATEWAY", text.written()),
        // A sink in memory that no write is to fail has only want of memory.
        Err(WriteFault) => Err(NoMemory),
    }
}

// Puts a request through the gateway, and reads the delivery of its response.
fn post(
    alloc: Global,
    book: &Book,
    links: &mut MemLinks,
    request: List<u8>,
) -> Result<Delivery, NoMemory>
    requires { (tables : List Timetable) × (ask : AskValue) × IsReady tables book.now (links_of links.old) × IsRequestOf ask request }
    ensures ready { (tables : List Timetable) → IsReady tables book.now (links_of links.old) → OnOk result (IsReady tables book.now (links_of links.new)) }
    ensures answers { (tables : List Timetable) (ask : AskValue) → IsReady tables book.now (links_of links.old) → IsRequestOf ask request
        → IfOk result (GatewayAnswers tables ask) }
{
    one_spelling();
    let mut input = MemSource::new(request.into_items(), PIECE, Vec::new(alloc));
    let mut output = MemSink::new(alloc, Vec::new(alloc));
    links.is_sound();
    let serving = serve_paced(alloc, book, links, &mut input, &mut output);
    links.is_sound();
    match serving.served {
        Served::Answered(200) => delivery_of(alloc, output.written()),
        Served::Answered(_) => unreachable!(),
        // Neither the source nor the sink is to fail, so only memory was wanted.
        Served::ReadFault => Err(NoMemory),
        Served::WriteFault => Err(NoMemory),
        Served::NoMemory => Err(NoMemory),
    }
}

// How many seconds after its start the ask's trip arrives; none where there is no trip.
fn told_by(ask: &TripAsk, delivery: &Delivery) -> Option<u64>
    requires { (tables : List Timetable) × GatewayAnswers tables (asks.Trip ask.now) delivery.now }
    ensures { (tables : List Timetable) → GatewayAnswers tables (asks.Trip ask.now) delivery.now → EndsAreKnown tables ask.now
        → IsToldOf tables ask.now result }
{
    match delivery {
        Delivery::Trip(reply) => seconds_of(ask, reply),
        // A trip is asked for.
        Delivery::Multi(_) => unreachable!(),
        Delivery::Events(_) => unreachable!(),
        Delivery::Points(_) => unreachable!(),
    }
}

// The same for the reply to it.
fn seconds_of(ask: &TripAsk, reply: &TripReply) -> Option<u64>
    ensures { (tables : List Timetable) → TripByTables tables ask.now reply.now → EndsAreKnown tables ask.now → IsToldOf tables ask.now result }
{
    match reply {
        TripReply::Trip(trip) => { Some(trip.end.seconds().saturating_sub(ask.start.seconds())) }
        TripReply::Fault(_) => None,
    }
}
