//! Links to regions, which are asked by number.
ghost use Rattle.std.specs.Prelude.{◌≡◌, ℕ, ◌<◌, ◌+◌, length, Option, IsSome, OnOk, OnErr, Some, None, true};
ghost use Rattle.ojp_links.specs.Seen.{View, ask_at, IsLive, code_at, IsSound};
ghost use Rattle.ojp_links.specs.Calls.{Asks, Looks, Closes, Rejects, MayReject, RestsOnce, Idles, Adds, IsNewCode};

use crate::expect::Expect;
use ojp_values::{Code, NoMemory};
use std::net::Net;
use std::sync::Wait;

/// What a call that waits needs.
pub trait Runtime: Wait + Net {}

impl<T: Wait + Net> Runtime for T {}

/// A live ask. Once it has ended, the key may name a later one.
#[derive(Debug, PartialEq, Eq, Drop)]
pub struct Sub {
    pub key: usize,
}

/// Why an ask was not made.
#[derive(Clone, Copy, Debug, PartialEq, Eq)]
pub enum AskRefused {
    /// The region can't be asked; its count of faults rose.
    Failed,
    /// Memory ran out.
    NoMemory,
}

/// What a look at an ask gave.
#[derive(Clone, Copy, Debug, PartialEq, Eq)]
pub enum More {
    /// At least one more byte of the reply.
    Got,
    /// Nothing yet.
    NotYet,
    /// The end of the reply.
    End,
    /// The ask failed; the region's count of faults rose.
    Failed,
    /// Memory ran out.
    NoMemory,
}

/// Links to regions, with a count of faults and a count of rejections for each.
pub trait Links: Drop {
    /// What is seen of the links.
    ghost seen: { Self → View };

    /// How many regions there are.
    fn regions(&self) -> usize
        ensures { result ≡ length (seen self.now).fixed.stations };

    /// The code of a region.
    fn code(&self, region: usize) -> Code
        requires { region < length (seen self.now).fixed.stations }
        ensures { result ≡ code_at (seen self.now) region };

    /// What the links tell is so. The call does nothing.
    fn is_sound(&self)
        ensures { IsSound (seen self.now) };

    /// Sends a request to a region.
    fn ask(&mut self, region: usize, request: &[u8]) -> Result<Sub, AskRefused>
        requires { region < length (seen self.old).fixed.stations }
        ensures { Asks (seen self.old) (seen self.new) region request.now result };

    /// Looks whether more of the reply came.
    fn more(&mut self, sub: &Sub) -> More
        requires { IsLive (seen self.old) sub.now.key }
        ensures { Looks (seen self.old) (seen self.new) sub.now.key result };

    /// All bytes of the reply that were taken so far.
    fn bytes(&self, sub: &Sub) -> &[u8]
        requires { IsLive (seen self.now) sub.now.key }
        ensures { result.now ≡ (ask_at (seen self.now) sub.now.key).taken };

    /// Ends an ask.
    fn close(&mut self, sub: Sub)
        requires { IsLive (seen self.old) sub.key }
        ensures { Closes (seen self.old) (seen self.new) sub.key };

    /// Ends an ask whose bytes can't become a reply that fits.
    fn reject(&mut self, sub: Sub, expect: &Expect)
        requires { MayReject (seen self.old) sub.key expect.now }
        ensures { Rejects (seen self.old) (seen self.new) sub.key };
}

/// Links over which a rest brings replies nearer.
pub trait PacedLinks: Links {
    /// Lets replies become ready.
    fn rest(&mut self)
        ensures { RestsOnce (Self.seen self.old) (Self.seen self.new) };

    /// Patience is told.
    ghost patient: { (l : Self) → IsSome (Self.seen l).patience };
}

/// Links that may wait for replies, and to which regions are added.
pub trait WaitLinks: Links {
    /// Adds a region behind the others.
    fn add(&mut self, code: Code, host: &str, port: u16) -> Result<(), NoMemory>
        requires { IsNewCode (Self.seen self.old) code }
        ensures ok { OnOk result (Adds (Self.seen self.old) (Self.seen self.new) code host.now port) }
        ensures err { OnErr result (Self.seen self.new ≡ Self.seen self.old) };

    /// Waits until something may have come.
    fn wait<R: Runtime>(&mut self, rt: &mut R)
        ensures { Idles (Self.seen self.old) (Self.seen self.new) };
}
