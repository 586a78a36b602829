//! What a subrequest hears of its reply.
ghost use Rattle.std.specs.Prelude.{◌≡◌, ◌++◌, ℕ, [], List as Items};
ghost use Rattle.ojp_http.specs.Replying.{ReplyView};
ghost use Rattle.ojp_links.specs.Replies.{IsFront};
ghost use Rattle.ojp_subrequests.specs.Pieces.{IsFramed, IsReadTo};
ghost use Rattle.ojp_subrequests.specs.Hearing.{HasHeard, Hears, HearsBy};

use crate::pieces::{Finished, Framed, Read, finish, frame, read_piece};
use ojp_decode::Reader;
use ojp_grammar::refusals::Want;
use ojp_http::Reply;
use ojp_http::laws::{an_open_reply, no_reply_begins_another, one_body};
use ojp_values::{Delivery, List};
use std::alloc::Global;
use std::marker::Model;
use std::mem;

/// What all the bytes of a reply are.
#[derive(Drop)]
pub(crate) enum Heard {
    /// They may become a reply.
    Open,
    /// One whole reply with this delivery.
    Whole(Delivery),
    /// No reply with a delivery begins with them.
    Refused,
    NoMemory,
}

/// The reply so far: how many bytes of it were heard, its framing, and the document in its body. It keeps
/// no bytes but those of the item that the last piece cut.
#[derive(Drop)]
pub(crate) struct Hearing {
    alloc: Global,
    taken: usize,
    reply: Reply,
    reader: Reader,
    /// Memory for the body of a piece, kept for the next.
    spare: Vec<u8>,
}

impl Model for Hearing {
    ghost use Rattle.std.specs.Coded.{codes};
    ghost use Rattle.ojp_grammar.specs.contracts.shapes.Shape as shapes;
    ghost use Rattle.ojp_subrequests.specs.Hearing.{HearingView};

    ghost Value = { HearingView };

    ghost coded = { Prim.hlevel (codes, shapes.the_row.coded) };

    ghost view = { λ h. record { taken = h.taken; reply = h.reply; reader = h.reader } };
}

/// Reads what a piece held of the body, and its end where the reply is whole.
fn read_on(alloc: Global, reader: &mut Reader, framed: Framed, body: &[u8]) -> Heard
    requires { (before : Items ℕ) × IsReadTo reader.old before }
    ensures { (reply : ReplyView) (bytes before : Items ℕ) → IsFramed reply bytes (before ++ body.now) framed → IsReadTo reader.old before → HearsBy reply reader.new bytes (before ++ body.now) result }
{
    one_body();
    no_reply_begins_another();
    match framed {
        Framed::Refused => Heard::Refused,
        Framed::NoMemory => Heard::NoMemory,
        Framed::Open => match read_piece(reader, body) {
            Read::Open => Heard::Open,
            Read::Refused => Heard::Refused,
            Read::NoMemory => Heard::NoMemory,
        },
        Framed::Whole => match read_piece(reader, body) {
            Read::Open => match finish(mem::replace(reader, Reader::new(alloc, Want::Delivery))) {
                Finished::Whole(delivery) => Heard::Whole(delivery),
                Finished::Refused => Heard::Refused,
                Finished::NoMemory => Heard::NoMemory,
            },
            Read::Refused => Heard::Refused,
            Read::NoMemory => Heard::NoMemory,
        },
    }
}

impl Hearing {
    /// Before the first byte.
    pub fn new(alloc: Global) -> Hearing
        ensures { HasHeard result [] }
    {
        Hearing {
            alloc,
            taken: 0,
            reply: Reply::new(alloc),
            reader: Reader::new(alloc, Want::Delivery),
            spare: Vec::new(alloc),
        }
    }

    /// Hears what came: the bytes are all those of the reply so far. It costs the new ones alone.
    pub fn hear(&mut self, bytes: &[u8]) -> Heard
        requires { (before : Items ℕ) × IsFront before bytes.now × HasHeard self.old before }
        ensures { Hears bytes.now self.new result }
    {
        an_open_reply();
        let piece = &bytes[self.taken..];
        let mut spare = mem::replace(&mut self.spare, Vec::new(self.alloc));
        spare.clear();
        let mut body = List::from_items(spare);
        let framed = frame(&mut self.reply, piece, &mut body);
        self.taken = bytes.len();
        let heard = read_on(self.alloc, &mut self.reader, framed, body.as_slice());
        self.spare = body.into_items();
        heard
    }
}
