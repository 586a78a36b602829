//! A head at its newest byte: found, refused, or not decided.
//!
//! The bytes before the newest one are known not to hold a head and not to be full. A head is parsed
//! from its front only at an empty line or where the bytes are full.
ghost use Rattle.std.specs.Prelude.{◌≡◌, length};
ghost use Rattle.httparse.specs.Grammar.{ReadsRequest, RequestHead, ReadsResponse, ResponseHead};
ghost use Rattle.ojp_http.specs.Bodies.{ReadsTrailer};
ghost use Rattle.ojp_http.specs.Fields.{ask_frame as frame_of_request, reply_frame as frame_of_response};
ghost use Rattle.ojp_http.specs.Outcomes.{HasGrown, Decides, EndsIn, decided_by};
ghost use Rattle.ojp_http.specs.LineCounts.{no_lines, count_from};

use crate::count::LineCount;
use crate::fields::{ask_frame, reply_frame};
use crate::refusal::{Frame, Refusal};
use httparse::spans::{EMPTY_HEADER_SPAN, parse_headers, parse_request, parse_response};
use httparse::{Error, Result as Parsed, Status};

/// The most fields of a head.
const FIELD_LIMIT: usize = 64;

/// So many lines of a head without an empty one are full.
pub const HEAD_LINES: usize = 66;

/// So many lines of a trailer without an empty one are full.
pub const TRAILER_LINES: usize = 65;

/// What a parser's answer decides, where the bytes are full or not: it found a head, or a refusal is
/// decided, as malformed or as full, or nothing is.
fn decided<H>(
    parsed: Parsed<H>,
    is_full: bool,
    malformed: Refusal,
    full: Refusal,
) -> Result<Option<H>, Refusal>
    ensures { result ≡ decided_by parsed is_full malformed full }
{
    match parsed {
        Ok(Status::Complete(head)) => Ok(Some(head)),
        Ok(Status::Partial) if is_full => Err(full),
        Ok(Status::Partial) => Ok(None),
        Err(error) => match error {
            Error::TooManyHeaders => Err(full),
            _ => Err(malformed),
        },
    }
}

/// The frame of the request with this head, a refusal, or nothing where no more is decided.
pub fn request_frame(bytes: &[u8], count: LineCount) -> Result<Option<Frame>, Refusal>
    requires grown { HasGrown ReadsRequest (λ (h : RequestHead). h.fields) 66 bytes.now }
    requires counted { count ≡ count_from no_lines bytes.now }
    ensures { Decides ReadsRequest (λ (h : RequestHead). h.fields) 66 Refusal.Head Refusal.TooLargeHead frame_of_request bytes.now result }
{
    let is_full = count.is_full(HEAD_LINES, bytes.len());
    if !is_full && !count.has_empty {
        return Ok(None);
    }
    let mut headers = [EMPTY_HEADER_SPAN; FIELD_LIMIT];
    let parsed = parse_request(bytes, &mut headers);
    match decided(parsed, is_full, Refusal::Head, Refusal::TooLargeHead) {
        Ok(Some(head)) => Ok(Some(ask_frame(
            head.method.of(bytes),
            head.path.of(bytes),
            head.version,
            bytes,
            &headers[..head.headers],
        ))),
        Ok(None) => Ok(None),
        Err(refusal) => Err(refusal),
    }
}

/// The frame of the reply with this head, a refusal, or nothing where no more is decided.
pub fn response_frame(bytes: &[u8], count: LineCount) -> Result<Option<Frame>, Refusal>
    requires grown { HasGrown ReadsResponse (λ (h : ResponseHead). h.fields) 66 bytes.now }
    requires counted { count ≡ count_from no_lines bytes.now }
    ensures { Decides ReadsResponse (λ (h : ResponseHead). h.fields) 66 Refusal.Head Refusal.TooLargeHead frame_of_response bytes.now result }
{
    let is_full = count.is_full(HEAD_LINES, bytes.len());
    if !is_full && !count.has_empty {
        return Ok(None);
    }
    let mut headers = [EMPTY_HEADER_SPAN; FIELD_LIMIT];
    let parsed = parse_response(bytes, &mut headers);
    match decided(parsed, is_full, Refusal::Head, Refusal::TooLargeHead) {
        Ok(Some(head)) => Ok(Some(reply_frame(
            head.code,
            head.version,
            bytes,
            &headers[..head.headers],
        ))),
        Ok(None) => Ok(None),
        Err(refusal) => Err(refusal),
    }
}

/// Whether a trailer is there, which may be its last empty line alone, a refusal, or nothing where no
/// more is decided.
pub fn trailer_end(bytes: &[u8], newest: u8, count: LineCount) -> Result<Option<()>, Refusal>
    requires grown { HasGrown ReadsTrailer (λ t. t.0) 65 bytes.now }
    requires newest { EndsIn newest bytes.now }
    requires counted { count ≡ count_from no_lines bytes.now }
    ensures { Decides ReadsTrailer (λ t. t.0) 65 Refusal.Chunk Refusal.Chunk (λ t. tt) bytes.now result }
{
    let is_full = count.is_full(TRAILER_LINES, bytes.len());
    if !is_full && newest != b'\n' {
        return Ok(None);
    }
    let mut headers = [EMPTY_HEADER_SPAN; FIELD_LIMIT];
    let parsed = parse_headers(bytes, &mut headers);
    match decided(parsed, is_full, Refusal::Chunk, Refusal::Chunk) {
        Ok(Some(_)) => Ok(Some(())),
        Ok(None) => Ok(None),
        Err(refusal) => Err(refusal),
    }
}
