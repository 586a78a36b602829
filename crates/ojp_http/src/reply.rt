//! Replies, read in pieces.
ghost use Rattle.std.specs.Prelude.{◌≡◌, ℕ, [], List as Items};
ghost use Rattle.ojp_http.specs.Machine.{IsOpen};
ghost use Rattle.ojp_http.specs.Replying.{HasFed, HasTaken, Answers, ReadsOn, refusal_at, IsSoundIn, framed, seen_as};
ghost use Rattle.ojp_http.specs.declared.fed.Stage.TheVariants.{Reading};

use crate::fed::{ReplyFed, ReplyRefused};
use crate::machine::{Framing, Stop};
use ojp_values::List;
use std::alloc::Global;
use std::marker::Model;
use std::mem;

/// Where a reply stands: it is framed, it is whole, or no more of it is read.
#[derive(Drop)]
pub enum State {
    Reading(Framing),
    Whole,
    Over(ReplyRefused),
}

/// One reply, whatever pieces it comes in.
#[derive(Drop)]
pub struct Reply {
    alloc: Global,
    state: State,
}

impl Model for Reply {
    ghost use Rattle.ojp_http.specs.Replying.{ReplyView, IsSoundIn, seen_as};

    ghost Value = { ReplyView };

    ghost view = { λ r. seen_as r.state };

    ghost invariant = { λ r. IsSoundIn r.state };
}

/// What is answered where the machine stops.
fn refusal_of(stop: Stop) -> ReplyRefused
    ensures { result ≡ refusal_at stop }
{
    match stop {
        Stop::Refused(_) => ReplyRefused::Bad,
        Stop::NoMemory => ReplyRefused::NoMemory,
    }
}

impl State {
    /// What a piece leads to, and adds what it holds of the body.
    fn feed(
        self,
        alloc: Global,
        piece: &[u8],
        body: &mut List<u8>,
    ) -> (State, Result<ReplyFed, ReplyRefused>)
        requires { IsSoundIn self }
        ensures sound { IsSoundIn result.0 }
        ensures answers { (bytes got : Items ℕ) → HasFed (seen_as self) bytes got → Answers (seen_as self) (seen_as result.0) bytes got piece.now body.old body.new result.1 }
    {
        match self {
            State::Reading(framing) => read_on(alloc, framing, piece, body),
            State::Whole if piece.is_empty() => (State::Whole, Ok(ReplyFed::Whole { used: 0 })),
            State::Whole => (State::Over(ReplyRefused::Bad), Err(ReplyRefused::Bad)),
            State::Over(refused) => (State::Over(refused), Err(refused)),
        }
    }
}

/// Frames a piece of a reply.
fn read_on(
    alloc: Global,
    mut framing: Framing,
    piece: &[u8],
    body: &mut List<u8>,
) -> (State, Result<ReplyFed, ReplyRefused>)
    requires { IsOpen framing }
    ensures sound { IsSoundIn result.0 }
    ensures reads { (bytes got : Items ℕ) → HasTaken (framed framing) bytes got → ReadsOn (seen_as result.0) bytes got piece.now body.old body.new result.1 }
{
    let mut items = mem::replace(body, List::new(alloc)).into_items();
    let fed = framing.feed(piece, &mut items);
    *body = List::from_items(items);
    match fed {
        Ok(used) => {
            if framing.is_whole() {
                return (State::Whole, Ok(ReplyFed::Whole { used }));
            }
            (State::Reading(framing), Ok(ReplyFed::More))
        }
        Err(stop) => {
            let refused = refusal_of(stop);
            (State::Over(refused), Err(refused))
        }
    }
}

impl Reply {
    /// Before the first byte.
    pub fn new(alloc: Global) -> Reply
        ensures stage { result.stage ≡ Reading }
        ensures fed { HasFed result [] [] }
    {
        Reply {
            alloc,
            state: State::Reading(Framing::reply(alloc)),
        }
    }

    /// Reads a piece of the reply, and adds what it holds of the body.
    ///
    /// # Errors
    ///
    /// `Bad` where the bytes decide a refusal, or follow a whole reply, and `NoMemory`. After either
    /// every call answers the same.
    pub fn feed(&mut self, piece: &[u8], body: &mut List<u8>) -> Result<ReplyFed, ReplyRefused>
        ensures { (bytes got : Items ℕ) → HasFed self.old bytes got → Answers self.old self.new bytes got piece.now body.old body.new result }
    {
        let state = mem::replace(&mut self.state, State::Whole);
        let (state, fed) = state.feed(self.alloc, piece, body);
        self.state = state;
        fed
    }
}
