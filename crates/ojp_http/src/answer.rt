//! Responses, which take no memory.
ghost use Rattle.std.specs.Prelude.{◌≡◌, ◌≢◌, ◌≤◌, ◌+◌, ◌++◌, IsTrue, OnOk, OnErr, [], length, unwrap_or};
ghost use Rattle.std.specs.Io.KnownBytes.{Appends};
ghost use Rattle.ojp_outside.specs.Causes.{HasCause};
ghost use Rattle.ojp_outside.specs.Known.{AppendsPrefix};
ghost use Rattle.ojp_http.specs.Responses.{is_answer_status, allow_line, type_line, response_head, no_memory_response};
ghost use Rattle.ojp_http.specs.Serving.{response, refusal_response};
ghost use Rattle.http.specs.StatusCode.{reason_phrase};

use crate::refusal::HttpRefusal;
use arrayvec::ArrayVec;
use http::StatusCode;
use itoa::Buffer;
use ojp_outside::{Sink, WriteFault, put_all, put_parts};

/// What a 405 names as allowed.
fn allow_line(status: u16) -> &'static [u8]
    ensures value { result.now ≡ allow_line status }
    ensures short { length result.now ≤ 13 }
{
    if status == 405 {
        b"Allow: POST\r\n"
    } else {
        b""
    }
}

/// The type of the body: XML for a delivery, text for a refusal.
fn type_line(status: u16) -> &'static [u8]
    ensures value { result.now ≡ type_line status }
    ensures short { length result.now ≤ 31 }
{
    if status == 200 {
        b"Content-Type: application/xml\r\n"
    } else {
        b"Content-Type: text/plain\r\n"
    }
}

/// The most bytes of a head.
const HEAD_ROOM: usize = 192;

/// A head in memory.
type Head = ArrayVec<u8, HEAD_ROOM>;

/// Writes the head of a response with `size` bytes behind it, in one piece.
///
/// # Errors
///
/// `WriteFault` where a write failed; a prefix of the head is written then.
pub fn write_response_head<S: Sink>(status: u16, size: u64, sink: &mut S) -> Result<(), WriteFault>
    requires { IsTrue (is_answer_status status) }
    ensures ok { OnOk result (Appends (S.seen sink.old).written (S.seen sink.new).written (response_head status size)) }
    ensures err { OnErr result (AppendsPrefix (S.seen sink.old).written (S.seen sink.new).written (response_head status size)) }
    ensures cause { HasCause (S.seen sink.old).faults (S.seen sink.new).faults result }
{
    put_all(sink, head_of(status, size).as_slice())
}

/// Writes a whole response, its head in one piece.
///
/// # Errors
///
/// `WriteFault` where a write failed; a prefix of the response is written then.
pub fn write_response<S: Sink>(status: u16, text: &[u8], sink: &mut S) -> Result<(), WriteFault>
    requires { IsTrue (is_answer_status status) }
    ensures ok { OnOk result (Appends (S.seen sink.old).written (S.seen sink.new).written (response status text.now)) }
    ensures err { OnErr result (AppendsPrefix (S.seen sink.old).written (S.seen sink.new).written (response status text.now)) }
    ensures cause { HasCause (S.seen sink.old).faults (S.seen sink.new).faults result }
{
    let head = head_of(status, text.len() as u64);
    put_parts(sink, &[head.as_slice(), text])
}

/// Writes the whole response to a refusal, which has its name as a line.
///
/// # Errors
///
/// `WriteFault` where a write failed; a prefix of the response is written then.
pub fn write_refusal<S: Sink>(refusal: HttpRefusal, sink: &mut S) -> Result<(), WriteFault>
    requires read { refusal ≢ HttpRefusal.ReadFault }
    requires memory { refusal ≢ HttpRefusal.NoMemory }
    ensures ok { OnOk result (Appends (S.seen sink.old).written (S.seen sink.new).written (refusal_response refusal)) }
    ensures err { OnErr result (AppendsPrefix (S.seen sink.old).written (S.seen sink.new).written (refusal_response refusal)) }
    ensures cause { HasCause (S.seen sink.old).faults (S.seen sink.new).faults result }
{
    let name = refusal.name().as_bytes();
    let head = head_of(refusal.status(), name.len() as u64 + 1);
    put_parts(sink, &[head.as_slice(), name, b"\n"])
}

/// The head of a response with `size` bytes behind it.
fn head_of(status: u16, size: u64) -> Head
    requires { IsTrue (is_answer_status status) }
    ensures { result.items ≡ response_head status size }
{
    let code = code_of(status);
    let mut digits = Buffer::new();
    let mut head = Head::new();
    push_part(&mut head, b"HTTP/1.1 ");
    push_part(&mut head, code.as_str().as_bytes());
    push_part(&mut head, b" ");
    push_part(&mut head, reason_of(status).as_bytes());
    push_part(&mut head, b"\r\n");
    push_part(&mut head, allow_line(status));
    push_part(&mut head, type_line(status));
    push_part(&mut head, b"Content-Length: ");
    push_part(&mut head, digits.format(size).as_bytes());
    push_part(&mut head, b"\r\nConnection: close\r\n\r\n");
    head
}

/// Adds a part for which there is room.
fn push_part(head: &mut Head, part: &[u8])
    requires { length head.old.items + length part.now ≤ 192 }
    ensures { head.new.items ≡ head.old.items ++ part.now }
{
    match head.try_extend_from_slice(part) {
        Ok(()) => {}
        Err(_) => unreachable!(),
    }
}

/// The code of a status that responses have.
fn code_of(status: u16) -> StatusCode
    requires { IsTrue (is_answer_status status) }
    ensures { result ≡ status }
{
    match StatusCode::from_u16(status) {
        Ok(code) => code,
        Err(_) => unreachable!(),
    }
}

/// The phrase of a status that responses have.
fn reason_of(status: u16) -> &'static str
    requires { IsTrue (is_answer_status status) }
    ensures value { result.now ≡ unwrap_or (reason_phrase status) [] }
    ensures short { length result.now ≤ 31 }
{
    match code_of(status).canonical_reason() {
        Some(reason) => reason,
        None => "",
    }
}

/// Writes the whole response for want of memory.
///
/// # Errors
///
/// `WriteFault` where a write failed; a prefix of the response is written then.
pub fn write_no_memory<S: Sink>(sink: &mut S) -> Result<(), WriteFault>
    ensures ok { OnOk result (Appends (S.seen sink.old).written (S.seen sink.new).written no_memory_response) }
    ensures err { OnErr result (AppendsPrefix (S.seen sink.old).written (S.seen sink.new).written no_memory_response) }
    ensures cause { HasCause (S.seen sink.old).faults (S.seen sink.new).faults result }
{
    put_all(
        sink,
        b"HTTP/1.1 503 Service Unavailable\r\nContent-Length: 0\r\nConnection: close\r\n\r\n",
    )
}
