//! Requests: reading one, and the bytes of one.
ghost use Rattle.std.specs.Prelude.{◌≡◌, ◌≢◌, ◌≤◌, ◌++◌, IfOk, Err, length};
ghost use Rattle.std.specs.List.{flat_map};
ghost use Rattle.ojp_outside.specs.Causes.{Rose};
ghost use Rattle.ojp_http.specs.Asking.{Allows, ReadsNoFurther};
ghost use Rattle.ojp_http.specs.Responses.{request_bytes};
ghost use Rattle.ojp_http.specs.Stops.{refusal_by};

use crate::machine::{Framing, Stop};
use crate::refusal::{HttpRefusal, Refusal};
use itoa::Buffer;
use ojp_outside::{Failed, Source};
use ojp_values::{List, NoMemory};
use std::alloc::Global;

/// The most bytes of one read.
const PIECE: usize = 8192;

/// What is answered where the machine stops.
fn refusal_of(stop: Stop) -> HttpRefusal
    ensures { result ≡ refusal_by stop }
{
    match stop {
        Stop::NoMemory => HttpRefusal::NoMemory,
        Stop::Refused(refusal) => match refusal {
            Refusal::Head => HttpRefusal::Head,
            Refusal::TooLargeHead => HttpRefusal::TooLargeHead,
            Refusal::Method => HttpRefusal::Method,
            Refusal::Target => HttpRefusal::Target,
            Refusal::Host => HttpRefusal::Host,
            Refusal::Length => HttpRefusal::Length,
            Refusal::Conflict => HttpRefusal::Conflict,
            Refusal::Coding => HttpRefusal::Coding,
            Refusal::TooLong => HttpRefusal::TooLong,
            Refusal::Chunk => HttpRefusal::Chunk,
        },
    }
}

/// Reads a request, and gives its body, which has at most 1,048,576 bytes. Of the bytes behind the
/// request only those may be read that come in one piece with its end.
///
/// # Errors
///
/// `ReadFault` where a read failed, `NoMemory`, and else the refusal that the bytes of the source give,
/// in whatever pieces they come.
pub fn read_request<I: Source>(alloc: Global, input: &mut I) -> Result<List<u8>, HttpRefusal>
    ensures allowed { Allows (I.seen input.old).left result }
    ensures taken { ReadsNoFurther (I.seen input.old).left (I.seen input.new).left }
    ensures most { IfOk result (λ body. length body ≤ 1048576) }
    ensures later { (I.seen input.old).faults ≤ (I.seen input.new).faults }
    ensures at_rest { result ≢ Err HttpRefusal.ReadFault → (I.seen input.new).faults ≡ (I.seen input.old).faults }
    ensures fault { result ≡ Err HttpRefusal.ReadFault → Rose (I.seen input.old).faults (I.seen input.new).faults }
{
    let mut framing = Framing::request(alloc);
    let mut body: Vec<u8> = Vec::new(alloc);
    let mut piece = [0u8; PIECE];
    'reading: loop {
        let count = match input.read(&mut piece) {
            Ok(count) => count,
            Err(Failed) => return Err(HttpRefusal::ReadFault),
        };
        if count == 0 {
            return Err(HttpRefusal::Cut);
        }
        match framing.feed(&piece[..count], &mut body) {
            Ok(_) => {}
            Err(stop) => return Err(refusal_of(stop)),
        }
        if framing.is_whole() {
            return Ok(List::from_items(body));
        }
    }
}

/// The bytes of all parts, one after another.
fn joined(alloc: Global, parts: &[&[u8]]) -> Result<List<u8>, NoMemory>
    ensures { IfOk result (λ bytes. bytes ≡ flat_map (λ part. part.now) parts.now) }
{
    let mut bytes: Vec<u8> = Vec::new(alloc);
    for part in parts {
        let Ok(()) = bytes.extend_from_slice(part) else {
            return Err(NoMemory);
        };
    }
    Ok(List::from_items(bytes))
}

/// The whole bytes of a request with this body.
pub fn request(alloc: Global, host: &[u8], body: &[u8]) -> Result<List<u8>, NoMemory>
    ensures { IfOk result (λ bytes. bytes ≡ request_bytes host.now body.now) }
{
    let mut digits = Buffer::new();
    joined(
        alloc,
        &[
            b"POST /ojp HTTP/1.1\r\nHost: ",
            host,
            b"\r\nContent-Type: application/xml\r\nContent-Length: ",
            digits.format(body.len()).as_bytes(),
            b"\r\nConnection: close\r\n\r\n",
            body,
        ],
    )
}
