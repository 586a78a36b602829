//! Why a request is refused.

use thiserror::Error;

/// Why a request gets no answer of its own, in the order in which the causes are looked for.
#[derive(Clone, Copy, Debug, PartialEq, Eq, Drop, Error)]
pub enum HttpRefusal {
    /// The head is malformed; status 400.
    #[error("malformed head")]
    Head,
    /// There is no head within its limits; status 431.
    #[error("head too large")]
    TooLargeHead,
    /// The method is not `POST`; status 405.
    #[error("method not allowed")]
    Method,
    /// The target is not `/ojp`; status 404.
    #[error("no such target")]
    Target,
    /// There is more than one Host field, or none in version 1.1; status 400.
    #[error("host missing or repeated")]
    Host,
    /// There is neither Content-Length nor Transfer-Encoding; status 411.
    #[error("length required")]
    Length,
    /// The fields that frame the body contradict each other; status 400.
    #[error("conflicting lengths")]
    Conflict,
    /// The transfer coding is not `chunked` alone; status 501.
    #[error("unknown transfer coding")]
    Coding,
    /// The body is longer than 1,048,576 bytes; status 413.
    #[error("body too long")]
    TooLong,
    /// A chunk is malformed; status 400.
    #[error("malformed chunk")]
    Chunk,
    /// The input ends before the request does; status 400.
    #[error("incomplete request")]
    Cut,
    /// A read failed; nothing is written.
    #[error("read failed")]
    ReadFault,
    /// Memory ran out; status 503.
    #[error("no memory")]
    NoMemory,
}

impl HttpRefusal {
    ghost use Rattle.std.specs.Prelude.{◌≡◌, ◌≢◌};
    ghost use Rattle.ojp_http.specs.Serving.{refusal_status, refusal_name};

    /// The status that answers it; a failed read is not answered.
    pub fn status(self) -> u16
        requires { self ≢ HttpRefusal.ReadFault }
        ensures { result ≡ refusal_status self }
    {
        match self {
            HttpRefusal::Head => 400,
            HttpRefusal::TooLargeHead => 431,
            HttpRefusal::Method => 405,
            HttpRefusal::Target => 404,
            HttpRefusal::Host => 400,
            HttpRefusal::Length => 411,
            HttpRefusal::Conflict => 400,
            HttpRefusal::Coding => 501,
            HttpRefusal::TooLong => 413,
            HttpRefusal::Chunk => 400,
            HttpRefusal::Cut => 400,
            HttpRefusal::ReadFault => unreachable!(),
            HttpRefusal::NoMemory => 503,
        }
    }

    /// Its name, which is the body of the response.
    pub fn name(self) -> &'static str
        ensures { result.now ≡ refusal_name self }
    {
        match self {
            HttpRefusal::Head => "Head",
            HttpRefusal::TooLargeHead => "TooLargeHead",
            HttpRefusal::Method => "Method",
            HttpRefusal::Target => "Target",
            HttpRefusal::Host => "Host",
            HttpRefusal::Length => "Length",
            HttpRefusal::Conflict => "Conflict",
            HttpRefusal::Coding => "Coding",
            HttpRefusal::TooLong => "TooLong",
            HttpRefusal::Chunk => "Chunk",
            HttpRefusal::Cut => "Cut",
            HttpRefusal::ReadFault => "ReadFault",
            HttpRefusal::NoMemory => "NoMemory",
        }
    }
}

/// The refusals that the bytes alone decide.
#[derive(Clone, Copy, Debug, PartialEq, Eq)]
pub enum Refusal {
    Head,
    TooLargeHead,
    Method,
    Target,
    Host,
    Length,
    Conflict,
    Coding,
    TooLong,
    Chunk,
}

/// How a body is framed.
#[derive(Clone, Copy, Debug, PartialEq, Eq)]
pub enum Frame {
    /// By its length.
    Counted(u64),
    /// In chunks.
    Chunked,
    /// Not at all.
    Refused(Refusal),
}
