//! What is written and read.

use ojp_encode::write;
use ojp_http::request;
use ojp_outside::MemSink;
use ojp_values::{
    Code, Day, Delivery, Doc, Instant, Label, Leg, List, MultiReply, Name, StopRef, Trip,
    TripResult,
};
use std::alloc::Global;

/// The results of a delivery, as many as it may have.
const RESULTS: u32 = 256;

/// The legs of each result's trip.
const LEGS: u32 = 9;

/// The bytes of a request's body, as many as it may have.
const BODY: usize = 1_048_576;

/// The bytes of a chunk, and how many chunks make the body.
const CHUNK: usize = 64;

/// A delivery of many trips with its spelling, and requests with a body in one part and in chunks.
#[derive(Drop)]
pub struct Inputs {
    pub delivery: Doc,
    pub spelled: Vec<u8>,
    pub by_length: Vec<u8>,
    pub in_chunks: Vec<u8>,
}

impl Inputs {
    pub fn new(alloc: Global) -> Option<Inputs> {
        let body = Vec::from_elem(alloc, b'a', BODY).ok()?;
        let by_length = request(alloc, b"AA", &body).ok()?.into_items();
        let in_chunks = in_chunks(alloc, &body)?;
        let delivery = delivery(alloc)?;
        let spelled = spelled(alloc, &delivery)?;
        Some(Inputs {
            delivery,
            spelled,
            by_length,
            in_chunks,
        })
    }
}

fn delivery(alloc: Global) -> Option<Doc> {
    let mut results = List::new(alloc);
    for _ in 0..RESULTS {
        results.push(TripResult::Trip(trip(alloc)?)).ok()?;
    }
    Some(Doc::Delivery(Delivery::Multi(MultiReply::Results(results))))
}

fn trip(alloc: Global) -> Option<Trip> {
    let start = Instant::new(1_714_983_000).ok()?;
    let end = Instant::new(1_714_990_200).ok()?;
    let mut legs = List::new(alloc);
    for _ in 0..LEGS {
        legs.push(leg(start, end)?).ok()?;
    }
    Some(Trip {
        duration: 7_200,
        start,
        end,
        transfers: LEGS - 1,
        legs,
    })
}

fn leg(departs: Instant, arrives: Instant) -> Option<Leg> {
    Some(Leg {
        region: Code::new("AA").ok()?,
        journey: Label::new("J1234").ok()?,
        line: Label::new("L5").ok()?,
        day: Day::new(19_849).ok()?,
        board: StopRef::new("AA:s10").ok()?,
        board_name: Name::new("Alder & Beech, Platform 10").ok()?,
        departs,
        alight: StopRef::new("AA:s20").ok()?,
        alight_name: Name::new("Beech Street, Platform 2").ok()?,
        arrives,
    })
}

fn spelled(alloc: Global, document: &Doc) -> Option<Vec<u8>> {
    if !document.is_well() {
        return None;
    }
    let mut sink = MemSink::new(alloc, Vec::new(alloc));
    write(document, &mut sink).ok()?;
    Vec::from_slice(alloc, sink.written()).ok()
}

fn in_chunks(alloc: Global, body: &[u8]) -> Option<Vec<u8>> {
    let head = b"POST /ojp HTTP/1.1\r\nHost: AA\r\nTransfer-Encoding: chunked\r\n\r\n";
    let mut bytes = Vec::new(alloc);
    bytes.extend_from_slice(head).ok()?;
    for chunk in body.chunks_exact(CHUNK) {
        bytes.extend_from_slice(b"40\r\n").ok()?;
        bytes.extend_from_slice(chunk).ok()?;
        bytes.extend_from_slice(b"\r\n").ok()?;
    }
    bytes.extend_from_slice(b"0\r\n\r\n").ok()?;
    Some(bytes)
}
