//! A reply piece by piece: its framing, and the document in its body.
ghost use Rattle.std.specs.Prelude.{◌≡◌, ◌++◌, ℕ, [], List as Items};
ghost use Rattle.ojp_http.specs.declared.fed.Stage.TheVariants as stages;
ghost use Rattle.ojp_http.specs.Replying.{HasFed};
ghost use Rattle.ojp_subrequests.specs.Pieces.{FinishesAs, IsFramed, IsReadOn, IsReadTo};

use ojp_decode::{Fed, ReadRefused, Reader};
use ojp_grammar::laws::{one_place, one_spelling};
use ojp_http::laws::no_reply_begins_another;
use ojp_http::{Reply, ReplyFed, ReplyRefused};
use ojp_values::{Delivery, Doc, List};

/// What the bytes of a reply are, by their framing.
#[derive(Clone, Copy)]
pub(crate) enum Framed {
    /// The front of a reply.
    Open,
    /// One whole reply of status 200.
    Whole,
    /// No reply of status 200 begins with them.
    Refused,
    NoMemory,
}

/// What the bytes of a body are.
#[derive(Clone, Copy)]
pub(crate) enum Read {
    /// The front of a delivery, or a whole one.
    Open,
    /// No delivery begins with them.
    Refused,
    NoMemory,
}

/// What bytes that end a body are.
#[derive(Drop)]
pub(crate) enum Finished {
    Whole(Delivery),
    /// No delivery.
    Refused,
    NoMemory,
}

/// Feeds a piece to the framing, and adds what it holds of the body.
pub(crate) fn frame(reply: &mut Reply, piece: &[u8], body: &mut List<u8>) -> Framed
    requires { body.old ≡ [] }
    ensures { (bytes got : Items ℕ) → reply.old.stage ≡ stages.Reading → HasFed reply.old bytes got → IsFramed reply.new (bytes ++ piece.now) (got ++ body.new) result }
{
    no_reply_begins_another();
    match reply.feed(piece, body) {
        Ok(ReplyFed::More) => Framed::Open,
        Ok(ReplyFed::Whole { used }) => {
            if used < piece.len() {
                return Framed::Refused;
            }
            Framed::Whole
        }
        Err(ReplyRefused::Bad) => Framed::Refused,
        Err(ReplyRefused::NoMemory) => Framed::NoMemory,
    }
}

/// Reads a piece of the document.
pub(crate) fn read_piece(reader: &mut Reader, piece: &[u8]) -> Read
    ensures { (got : Items ℕ) → IsReadTo reader.old got → IsReadOn reader.new (got ++ piece.now) result }
{
    one_place();
    one_spelling();
    match reader.feed(piece) {
        Ok(Fed::More) => Read::Open,
        Ok(Fed::Whole { used }) => {
            if used < piece.len() {
                return Read::Refused;
            }
            Read::Open
        }
        Err(ReadRefused::At(_)) => Read::Refused,
        Err(ReadRefused::NoMemory) => Read::NoMemory,
    }
}

/// The delivery that was read.
pub(crate) fn finish(reader: Reader) -> Finished
    requires { (got : Items ℕ) × IsReadTo reader got }
    ensures { (got : Items ℕ) → IsReadTo reader got → FinishesAs got result }
{
    match reader.finish() {
        Ok(Doc::Delivery(delivery)) => Finished::Whole(delivery),
        Ok(Doc::Ask(_)) => unreachable!(),
        Err(ReadRefused::At(_)) => Finished::Refused,
        Err(ReadRefused::NoMemory) => Finished::NoMemory,
    }
}
