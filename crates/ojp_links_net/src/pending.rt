//! Live asks.

ghost use Rattle.std.specs.Prelude.{◌≡◌, ◌≢◌, ◌≤◌, ◌<◌, ◌+◌, ◌-◌, ◌↔◌, IsTrue, length, vec_len, vec_capacity, true, false};
ghost use Rattle.ojp_links_net.specs.Pending.{GoesOn, LooksAt, live_of, new_live};
ghost use Rattle.ojp_links_net.specs.Progress.{IsTimely, KeepsMoment, first_progress, most_silence, progress_of};

use crate::sockets::{Passed, Trouble, read_piece, trouble_of, write_piece};
use mio::net::TcpStream;
use mio::{Interest, Registry, Token};
use ojp_links::More;
use std::alloc::Global;

/// An ask without progress for so many milliseconds fails.
const MOST_SILENCE: u64 = 30_000;

/// The most bytes that a look takes.
const PIECE: usize = 16_384;

/// A live ask: its socket, what is still to be sent, and the front of the reply that was taken.
#[derive(Drop)]
pub(crate) struct Pending {
    pub region: usize,
    stream: TcpStream,
    pub request: Vec<u8>,
    /// How many bytes of the request were sent.
    sent: usize,
    pub taken: Vec<u8>,
    /// Whether the end was seen.
    pub ended: bool,
    pub looks: u64,
    /// The moment of the last progress: the ask itself, a connection made, a byte sent or received.
    progress: u64,
    is_connected: bool,
    /// Whether a wait ends when the socket is ready.
    is_registered: bool,
    /// Whether the last look gave bytes, so that more may be there of which no wait tells.
    has_more: bool,
    /// What the next look will tell. A failure stays.
    trouble: Option<Trouble>,
}

/// Whether the last progress is so long ago that an ask fails.
fn is_late(progress: u64, now: u64) -> bool
    ensures { IsTrue result ↔ most_silence ≤ now - progress }
{
    now.saturating_sub(progress) >= MOST_SILENCE
}

impl Pending {
    /// An ask that is being connected since this moment.
    pub fn new(
        alloc: Global,
        stream: TcpStream,
        region: usize,
        request: Vec<u8>,
        now: u64,
    ) -> Pending
        ensures live { live_of result ≡ new_live region request.items }
        ensures moment { progress_of result ≡ first_progress now }
    {
        Pending {
            region,
            stream,
            request,
            sent: 0,
            taken: Vec::new(alloc),
            ended: false,
            looks: 0,
            progress: now,
            is_connected: false,
            is_registered: false,
            has_more: false,
            trouble: None,
        }
    }

    /// Sends what is not yet sent and reads what came, without waiting.
    pub fn look(&mut self, now: u64) -> More
        ensures looks { LooksAt (live_of self.old) (live_of self.new) result }
        ensures timely { IsTimely (progress_of self.old) (progress_of self.new) now result }
    {
        self.looks = self.looks.saturating_add(1);
        self.go_on(now)
    }

    fn go_on(&mut self, now: u64) -> More
        ensures goes_on { GoesOn (live_of self.old) (live_of self.new) result }
        ensures timely { IsTimely (progress_of self.old) (progress_of self.new) now result }
    {
        if self.ended {
            return More::End;
        }
        match self.advance(now) {
            Ok(()) => self.receive(now),
            Err(trouble) => self.fail(trouble),
        }
    }

    /// Sends what is not yet sent, unless there is trouble.
    fn advance(&mut self, now: u64) -> Result<(), Trouble>
        ensures same { live_of self.new ≡ live_of self.old }
        ensures moment { KeepsMoment (progress_of self.old) (progress_of self.new) now }
    {
        if let Some(trouble) = self.trouble {
            return Err(trouble);
        }
        self.note_connection(now);
        self.send(now)
    }

    /// A connection that was made since the last look is progress.
    fn note_connection(&mut self, now: u64)
        ensures same { live_of self.new ≡ live_of self.old }
        ensures moment { KeepsMoment (progress_of self.old) (progress_of self.new) now }
    {
        if !self.is_connected && self.stream.peer_addr().is_ok() {
            self.is_connected = true;
            self.progress = now;
        }
    }

    /// Sends what is not yet sent, as far as the socket takes it now.
    fn send(&mut self, now: u64) -> Result<(), Trouble>
        ensures same { live_of self.new ≡ live_of self.old }
        ensures moment { KeepsMoment (progress_of self.old) (progress_of self.new) now }
    {
        'pieces: while self.sent < self.request.len() {
            match write_piece(&mut self.stream, &self.request[self.sent..]) {
                Passed::Bytes(count) => {
                    self.sent += count;
                    self.progress = now;
                }
                Passed::Troubled(trouble) => return Err(trouble),
                Passed::End => return Ok(()),
                Passed::Nothing => return Ok(()),
            }
        }
        Ok(())
    }

    /// Takes what came, at most a piece. Room is made before, so that no byte is lost where memory runs out.
    fn receive(&mut self, now: u64) -> More
        requires { self.old.ended ≡ false }
        ensures goes_on { GoesOn (live_of self.old) (live_of self.new) result }
        ensures timely { IsTimely (progress_of self.old) (progress_of self.new) now result }
    {
        let Ok(()) = self.taken.reserve(PIECE) else {
            return More::NoMemory;
        };
        let mut piece = [0u8; PIECE];
        match read_piece(&mut self.stream, &mut piece) {
            Passed::Bytes(count) => self.take(&piece[..count], now),
            Passed::End => self.end(),
            Passed::Nothing => self.wait_on(now),
            Passed::Troubled(trouble) => self.fail(trouble),
        }
    }

    /// Takes bytes for which there is room.
    fn take(&mut self, bytes: &[u8], now: u64) -> More
        requires some { 0 < length bytes.now }
        requires room { vec_len self.old.taken + length bytes.now ≤ vec_capacity self.old.taken }
        requires going { self.old.ended ≡ false }
        ensures goes_on { GoesOn (live_of self.old) (live_of self.new) result }
        ensures timely { IsTimely (progress_of self.old) (progress_of self.new) now result }
    {
        let Ok(()) = self.taken.extend_from_slice(bytes) else {
            unreachable!()
        };
        self.progress = now;
        self.has_more = true;
        More::Got
    }

    /// Notes that no more will come.
    fn end(&mut self) -> More
        ensures goes_on { GoesOn (live_of self.old) (live_of self.new) result }
        ensures moment { progress_of self.new ≡ progress_of self.old }
        ensures tells { result ≢ More.NotYet }
    {
        self.ended = true;
        More::End
    }

    /// Nothing came: fails where that was so for too long.
    fn wait_on(&mut self, now: u64) -> More
        ensures goes_on { GoesOn (live_of self.old) (live_of self.new) result }
        ensures timely { IsTimely (progress_of self.old) (progress_of self.new) now result }
        ensures late { result ≡ More.Failed ↔ most_silence ≤ now - self.old.progress }
    {
        self.has_more = false;
        if is_late(self.progress, now) {
            return self.fail(Trouble::Failed);
        }
        More::NotYet
    }

    /// Tells trouble. A failure is told at each later look too, a want of memory once.
    fn fail(&mut self, trouble: Trouble) -> More
        ensures goes_on { GoesOn (live_of self.old) (live_of self.new) result }
        ensures moment { progress_of self.new ≡ progress_of self.old }
        ensures tells { result ≢ More.NotYet }
        ensures failed { trouble ≡ Trouble.Failed → result ≡ More.Failed }
    {
        match trouble {
            Trouble::Failed => {
                self.trouble = Some(Trouble::Failed);
                More::Failed
            }
            Trouble::NoMemory => {
                self.trouble = None;
                More::NoMemory
            }
        }
    }

    /// Has the next look tell trouble, unless there is some to be told.
    pub fn mark(&mut self, trouble: Trouble)
        ensures same { live_of self.new ≡ live_of self.old }
        ensures moment { progress_of self.new ≡ progress_of self.old }
    {
        if self.trouble.is_none() {
            self.trouble = Some(trouble);
        }
    }

    /// Has a wait end when the socket is ready. What fails is told at the next look.
    pub fn register(&mut self, registry: &Registry, key: usize)
        ensures same { live_of self.new ≡ live_of self.old }
        ensures moment { progress_of self.new ≡ progress_of self.old }
    {
        if self.is_registered {
            return;
        }
        let both = Interest::READABLE | Interest::WRITABLE;
        match registry.register(&mut self.stream, Token(key), both) {
            Ok(()) => self.is_registered = true,
            Err(error) => self.mark(trouble_of(&error)),
        }
    }

    /// How many milliseconds a wait for the ask may last: none where a look may have something to tell.
    pub fn time_left(&self, now: u64) -> u64
        ensures { result ≤ most_silence }
    {
        if self.ended || self.has_more || self.trouble.is_some() {
            return 0;
        }
        MOST_SILENCE.saturating_sub(now.saturating_sub(self.progress))
    }
}
