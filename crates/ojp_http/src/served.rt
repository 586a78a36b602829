//! How a connection was served, and the ends that serving it can take.

ghost use Rattle.std.specs.Prelude.{◌≡◌, ◌≢◌, IsTrue};
ghost use Rattle.ojp_http.specs.Connections.{WritesAs, WritesNoMemory};
ghost use Rattle.ojp_http.specs.Responses.{is_answer_status};
ghost use Rattle.ojp_http.specs.Serving.{response, refusal_response, refusal_status};

use crate::answer::{write_no_memory, write_refusal, write_response};
use crate::refusal::HttpRefusal;
use ojp_outside::Sink;

/// How a connection was served.
#[derive(Clone, Copy, Debug, PartialEq, Eq)]
pub enum Served {
    /// A whole response of this status was written.
    Answered(u16),
    /// A read failed; nothing was written.
    ReadFault,
    /// A write failed; a prefix of the response was written.
    WriteFault,
    /// Memory ran out; a prefix of the fixed response for it was written.
    NoMemory,
}

/// Serves a connection with this response.
pub fn respond<S: Sink>(status: u16, text: &[u8], sink: &mut S) -> Served
    requires { IsTrue (is_answer_status status) }
    ensures { WritesAs status (response status text.now) (S.seen sink.old) (S.seen sink.new) result }
{
    match write_response(status, text, sink) {
        Ok(()) => Served::Answered(status),
        Err(_) => Served::WriteFault,
    }
}

/// Serves a connection whose request was refused.
pub fn refuse<S: Sink>(refusal: HttpRefusal, sink: &mut S) -> Served
    requires read { refusal ≢ HttpRefusal.ReadFault }
    requires memory { refusal ≢ HttpRefusal.NoMemory }
    ensures { WritesAs (refusal_status refusal) (refusal_response refusal)
        (S.seen sink.old) (S.seen sink.new) result }
{
    match write_refusal(refusal, sink) {
        Ok(()) => Served::Answered(refusal.status()),
        Err(_) => Served::WriteFault,
    }
}

/// Serves a connection for which there is no memory.
pub fn give_up<S: Sink>(sink: &mut S) -> Served
    ensures served { result ≡ Served.NoMemory }
    ensures written { WritesNoMemory (S.seen sink.old) (S.seen sink.new) }
{
    // Where this write fails too, nobody is left to be told.
    let _ = write_no_memory(sink);
    Served::NoMemory
}
