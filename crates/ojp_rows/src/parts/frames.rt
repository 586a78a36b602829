//! Requests, replies and responses, framed.

ghost use Rattle.std.specs.Prelude.{◌<◌};

use crate::parts::spelled::bytes_of;
use crate::words::text_of;
use ojp_http::{
    HttpRefusal, Reply, ReplyFed, ReplyRefused, read_request, request, write_no_memory,
    write_refusal, write_response,
};
use ojp_outside::{MemSink, MemSource};
use ojp_values::List;
use std::alloc::Global;

/// What a request of these bytes gives, in reads of at most `most` bytes.
fn read_by(alloc: Global, bytes: &[u8], most: usize) -> Option<Result<List<u8>, HttpRefusal>>
    requires { 0 < most }
{
    let bytes = Vec::from_slice(alloc, bytes).ok()?;
    let mut input = MemSource::new(bytes, most, Vec::new(alloc));
    Some(read_request(alloc, &mut input))
}

/// The body or the refusal of a request, in pieces of three lengths.
pub(crate) fn asked(alloc: Global, text: &str) -> Option<String> {
    let bytes = bytes_of(alloc, text)?;
    let by_byte = read_by(alloc, &bytes, 1)?;
    let by_seven = read_by(alloc, &bytes, 7)?;
    let at_once = read_by(alloc, &bytes, 8192)?;
    let is_same = by_byte == by_seven && by_byte == at_once;
    let outcome = outcome_text(alloc, &by_byte)?;
    format!(in alloc; "{outcome} {is_same}").ok()
}

/// A refusal by its name, and a body by its length and its first bytes.
fn outcome_text(alloc: Global, outcome: &Result<List<u8>, HttpRefusal>) -> Option<String> {
    match outcome {
        Ok(body) => {
            let length = body.len();
            let front = text_of(&body.as_slice()[..length.min(8)])?;
            format!(in alloc; "{length} {front}").ok()
        }
        Err(refusal) => format!(in alloc; "{refusal:?}").ok(),
    }
}

/// The refusal of a request whose second read fails.
pub(crate) fn failed(alloc: Global, text: &str) -> Option<String> {
    let bytes = bytes_of(alloc, text)?;
    let failing = Vec::from_slice(alloc, &[2]).ok()?;
    let mut input = MemSource::new(bytes, 7, failing);
    let outcome = read_request(alloc, &mut input);
    outcome_text(alloc, &outcome)
}

/// What is written for a request that is refused.
pub(crate) fn refused(alloc: Global, text: &str) -> Option<String> {
    let bytes = bytes_of(alloc, text)?;
    let mut sink = MemSink::new(alloc, Vec::new(alloc));
    match read_by(alloc, &bytes, 8192)? {
        Ok(_) | Err(HttpRefusal::ReadFault | HttpRefusal::NoMemory) => return None,
        Err(refusal) => write_refusal(refusal, &mut sink).ok()?,
    }
    shown(alloc, &sink)
}

/// What each piece of a reply gives, and the body.
pub(crate) fn replied(alloc: Global, text: &str) -> Option<String> {
    let mut reply = Reply::new(alloc);
    let outcome = outcome_of_pieces(alloc, &mut reply, text);
    drop(reply);
    outcome
}

fn outcome_of_pieces(alloc: Global, reply: &mut Reply, text: &str) -> Option<String> {
    let mut body = List::new(alloc);
    let mut outcome = String::new(alloc);
    for piece in text.split("|") {
        let piece = bytes_of(alloc, piece)?;
        let fed = reply.feed(&piece, &mut body);
        let fed = fed_text(alloc, fed)?;
        outcome.push_str(&fed).ok()?;
    }
    outcome.push_str(text_of(body.as_slice())?).ok()?;
    Some(outcome)
}

/// How many bytes of a reply are fed one by one until it ends, and the body.
pub(crate) fn replied_by_bytes(alloc: Global, text: &str) -> Option<String> {
    let bytes = bytes_of(alloc, text)?;
    let mut reply = Reply::new(alloc);
    let outcome = outcome_of_bytes(alloc, &mut reply, &bytes);
    drop(reply);
    outcome
}

fn outcome_of_bytes(alloc: Global, reply: &mut Reply, bytes: &[u8]) -> Option<String> {
    let mut body = List::new(alloc);
    let mut count = 0_usize;
    for byte in bytes {
        if reply.feed(&[*byte], &mut body) == Ok(ReplyFed::More) {
            count = count.saturating_add(1);
        }
    }
    let body = text_of(body.as_slice())?;
    format!(in alloc; "{count} {body}").ok()
}

/// What a piece of a reply gives, and a blank.
fn fed_text(alloc: Global, fed: Result<ReplyFed, ReplyRefused>) -> Option<String> {
    match fed {
        Ok(ReplyFed::More) => String::from_str(alloc, "more ").ok(),
        Ok(ReplyFed::Whole { used }) => format!(in alloc; "{used} ").ok(),
        Err(refused) => format!(in alloc; "{refused:?} ").ok(),
    }
}

/// The bytes of a request with the body.
pub(crate) fn requested(alloc: Global, body: &str) -> Option<String> {
    let bytes = request(alloc, b"AA", body.as_bytes()).ok()?;
    String::from_str(alloc, text_of(bytes.as_slice())?).ok()
}

/// The bytes of a response with the body.
pub(crate) fn responded(alloc: Global, body: &str) -> Option<String> {
    let mut sink = MemSink::new(alloc, Vec::new(alloc));
    write_response(200, body.as_bytes(), &mut sink).ok()?;
    shown(alloc, &sink)
}

/// The bytes of a response whose second write fails.
pub(crate) fn broken(alloc: Global, body: &str) -> Option<String> {
    let mut sink = MemSink::new(alloc, Vec::from_slice(alloc, &[2]).ok()?);
    let Err(_) = write_response(200, body.as_bytes(), &mut sink) else {
        return None;
    };
    shown(alloc, &sink)
}

/// The bytes that answer where memory is wanting.
pub(crate) fn wanting(alloc: Global) -> Option<String> {
    let mut sink = MemSink::new(alloc, Vec::new(alloc));
    write_no_memory(&mut sink).ok()?;
    shown(alloc, &sink)
}

/// The text that was written.
fn shown(alloc: Global, sink: &MemSink) -> Option<String> {
    String::from_str(alloc, text_of(sink.written())?).ok()
}
