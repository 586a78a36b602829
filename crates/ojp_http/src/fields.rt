//! What the fields of a head say of its body.
ghost use Rattle.std.specs.Prelude.{◌≡◌, ◌<◌, ◌≤◌, ◌+◌, ◌-◌, ◌==◌, ◌&&◌, [], if◌then◌else◌, length, map, All, IsTrue, MatchOption, take, codes, ◌*◌, ◌^◌};
ghost use Rattle.std.specs.List.{list_all};
ghost use Rattle.std.specs.Char.{is_ascii_digit, digit_value};
ghost use Rattle.std.specs.Str.Parse.{digits_value};
ghost use Rattle.httparse.specs.Spans.{IsHeaderWithin, IsWithin, header_bytes, span_bytes};
ghost use Rattle.ojp_http.specs.Tallies.{Counts, IsTally};
ghost use Rattle.ojp_http.specs.Fields.{is_same, count_named, is_number, is_conflict, is_host_wrong, frame_by, frame_of, ask_fields, ask_by, reply_by};

use crate::refusal::{Frame, Refusal};
use httparse::spans::{HeaderSpan, Span};

/// The most bytes of a request's body.
pub const BODY_LIMIT: u64 = 1_048_576;

/// Whether two texts are equal without regard to ASCII case.
fn is_same(a: &[u8], b: &[u8]) -> bool
    ensures { result ≡ is_same a.now b.now }
{
    a.eq_ignore_ascii_case(b)
}

/// The fields of one name: how many there are, and where the value of the first is.
#[derive(Clone, Copy, Debug)]
struct Named {
    count: usize,
    first: Span,
}

impl Named {
    /// No field yet: the value is nothing.
    fn none() -> Named
        ensures { result ≡ record { count = 0; first = record { start = 0; end = 0 } } }
    {
        Named {
            count: 0,
            first: Span { start: 0, end: 0 },
        }
    }

    /// With one field more, if it has the name.
    fn with(self, has_name: bool, value: Span) -> Named
        requires { self.count < 2 ^ 64 - 1 }
        ensures count { result.count ≡ (if has_name then self.count + 1 else self.count) }
        ensures first { result.first ≡ (if has_name && (self.count == 0) then value else self.first) }
    {
        if !has_name {
            return self;
        }
        let first = if self.count == 0 { value } else { self.first };
        Named {
            count: self.count + 1,
            first,
        }
    }
}

/// The fields of a head that say how its body is framed, and those of the host.
#[derive(Clone, Copy, Debug)]
struct Fields {
    hosts: Named,
    lengths: Named,
    codings: Named,
}

/// The fields, by one pass.
fn fields_of(bytes: &[u8], headers: &[HeaderSpan]) -> Fields
    requires { All (IsHeaderWithin (length bytes.now)) headers.now }
    ensures hosts { result.hosts.count ≡ count_named (codes "host") (map (header_bytes bytes.now) headers.now) }
    ensures lengths { IsTally (codes "content-length") bytes.now headers.now result.lengths }
    ensures codings { IsTally (codes "transfer-encoding") bytes.now headers.now result.codings }
{
    let mut fields = Fields {
        hosts: Named::none(),
        lengths: Named::none(),
        codings: Named::none(),
    };
    for header in headers {
        fields = with_field(fields, bytes, header);
    }
    fields
}

/// The fields with one more.
fn with_field(fields: Fields, bytes: &[u8], header: &HeaderSpan) -> Fields
    requires within { IsHeaderWithin (length bytes.now) header.now }
    requires hosts { fields.hosts.count < 2 ^ 64 - 1 }
    requires lengths { fields.lengths.count < 2 ^ 64 - 1 }
    requires codings { fields.codings.count < 2 ^ 64 - 1 }
    ensures hosts { Counts (codes "host") bytes.now header.now fields.hosts result.hosts }
    ensures lengths { Counts (codes "content-length") bytes.now header.now fields.lengths result.lengths }
    ensures codings { Counts (codes "transfer-encoding") bytes.now header.now fields.codings result.codings }
{
    let name = header.name.of(bytes);
    Fields {
        hosts: fields.hosts.with(is_same(name, b"host"), header.value),
        lengths: fields
            .lengths
            .with(is_same(name, b"content-length"), header.value),
        codings: fields
            .codings
            .with(is_same(name, b"transfer-encoding"), header.value),
    }
}

/// Whether a text is one or more digits.
fn is_number(text: &[u8]) -> bool
    ensures { result ≡ is_number text.now }
{
    !text.is_empty() && are_digits(text)
}

/// Whether each byte is a digit.
fn are_digits(text: &[u8]) -> bool
    ensures { result ≡ list_all is_ascii_digit text.now }
{
    text.iter().all(|byte| byte.is_ascii_digit())
}

/// The number with one digit more, where it has 64 bits.
fn with_digit(value: u64, digit: u8) -> Option<u64>
    requires { IsTrue (is_ascii_digit digit) }
    ensures { MatchOption result (2 ^ 64 ≤ value * 10 + digit_value digit) (λ n. n ≡ value * 10 + digit_value digit) }
{
    match value.checked_mul(10) {
        Some(tens) => tens.checked_add(u64::from(digit - b'0')),
        None => None,
    }
}

/// The number that the digits write, where it is at most `most`.
fn number(text: &[u8], most: u64) -> Option<u64>
    requires { IsTrue (list_all is_ascii_digit text.now) }
    ensures { MatchOption result (most < digits_value 10 text.now) (λ n. (n ≡ digits_value 10 text.now) × (n ≤ most)) }
{
    let mut value: u64 = 0;
    for digit in text {
        match with_digit(value, *digit) {
            Some(next) => value = next,
            None => return None,
        }
    }
    if value <= most { Some(value) } else { None }
}

/// Whether the fields contradict each other.
fn is_conflict(minor: u8, lengths: usize, codings: usize, length_text: &[u8]) -> bool
    ensures { result ≡ is_conflict minor lengths codings length_text.now }
{
    let are_both = lengths > 0 && codings > 0;
    let is_length_wrong = lengths > 1 || (lengths == 1 && !is_number(length_text));
    are_both || is_length_wrong || (codings > 0 && minor == 0)
}

/// The frame by the numbers of fields Content-Length and Transfer-Encoding and the first value of each.
fn frame_by(
    most: u64,
    minor: u8,
    lengths: usize,
    codings: usize,
    length_text: &[u8],
    coding: &[u8],
) -> Frame
    ensures { result ≡ frame_by most minor lengths codings length_text.now coding.now }
{
    if lengths == 0 && codings == 0 {
        return Frame::Refused(Refusal::Length);
    }
    if is_conflict(minor, lengths, codings, length_text) {
        return Frame::Refused(Refusal::Conflict);
    }
    if codings > 0 {
        if codings == 1 && is_same(coding, b"chunked") {
            return Frame::Chunked;
        }
        return Frame::Refused(Refusal::Coding);
    }
    match number(length_text, most) {
        Some(length) => Frame::Counted(length),
        None => Frame::Refused(Refusal::TooLong),
    }
}

/// The frame by the fields, where a Content-Length is at most `most`.
fn frame_of(most: u64, minor: u8, bytes: &[u8], fields: Fields) -> Frame
    requires length { IsWithin (length bytes.now) fields.lengths.first }
    requires coding { IsWithin (length bytes.now) fields.codings.first }
    ensures { result ≡ frame_by most minor fields.lengths.count fields.codings.count (span_bytes bytes.now fields.lengths.first) (span_bytes bytes.now fields.codings.first) }
{
    frame_by(
        most,
        minor,
        fields.lengths.count,
        fields.codings.count,
        fields.lengths.first.of(bytes),
        fields.codings.first.of(bytes),
    )
}

/// The frame of a request's body, or the first refusal of its head.
pub fn ask_frame(
    method: &[u8],
    target: &[u8],
    minor: u8,
    bytes: &[u8],
    headers: &[HeaderSpan],
) -> Frame
    requires { All (IsHeaderWithin (length bytes.now)) headers.now }
    ensures { result ≡ ask_by method.now target.now minor (map (header_bytes bytes.now) headers.now) }
{
    if method != b"POST".as_slice() {
        return Frame::Refused(Refusal::Method);
    }
    if target != b"/ojp".as_slice() {
        return Frame::Refused(Refusal::Target);
    }
    let fields = fields_of(bytes, headers);
    let hosts = fields.hosts.count;
    if hosts > 1 || (hosts == 0 && minor == 1) {
        return Frame::Refused(Refusal::Host);
    }
    frame_of(BODY_LIMIT, minor, bytes, fields)
}

/// The frame of a reply's body; a status other than 200 is refused.
pub fn reply_frame(code: u16, minor: u8, bytes: &[u8], headers: &[HeaderSpan]) -> Frame
    requires { All (IsHeaderWithin (length bytes.now)) headers.now }
    ensures { result ≡ reply_by code minor (map (header_bytes bytes.now) headers.now) }
{
    if code == 200 {
        frame_of(u64::MAX, minor, bytes, fields_of(bytes, headers))
    } else {
        Frame::Refused(Refusal::Head)
    }
}
