//! Waiting for sockets.

use crate::sockets::{Trouble, trouble_of};
use mio::{Events, Poll, Registry};
use std::alloc::Global;
use std::net::Net;
use std::time::Duration;

/// How many sockets one wait tells of at most. The others are told of at the next.
const EVENTS: usize = 64;

/// What waits until a socket is ready.
#[derive(Drop)]
pub(crate) struct Waiter {
    poll: Poll,
    events: Events,
}

impl Waiter {
    pub fn new<R: Net>(alloc: Global, rt: &R) -> Result<Waiter, Trouble> {
        let poll = match Poll::new(rt) {
            Ok(poll) => poll,
            Err(error) => return Err(trouble_of(&error)),
        };
        match Events::with_capacity(alloc, EVENTS) {
            Ok(events) => Ok(Waiter { poll, events }),
            Err(_) => Err(Trouble::NoMemory),
        }
    }

    /// The sockets that it waits for.
    pub fn registry(&self) -> &Registry {
        self.poll.registry()
    }

    /// Waits until a socket is ready, so many milliseconds at most.
    pub fn wait(&mut self, millis: u64) -> Result<(), Trouble> {
        let most = Duration::from_millis(millis);
        match self.poll.poll(&mut self.events, Some(most)) {
            Ok(()) => Ok(()),
            Err(error) => Err(trouble_of(&error)),
        }
    }
}
