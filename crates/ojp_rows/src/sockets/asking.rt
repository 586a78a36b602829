//! An ask of one region over sockets.

ghost use Rattle.std.specs.Prelude.{◌≡◌};
ghost use Rattle.ojp_links.specs.Seen.{IsLive};
ghost use Rattle.ojp_links_net.specs.Links.{net_seen};

use ojp_links::{AskRefused, Links, More, Runtime, Sub, WaitLinks};
use ojp_links_net::NetLinks;
use ojp_outside::MemClock;
use ojp_values::Code;
use std::alloc::Global;
use std::net::Net;

/// An ask that is live, with its links.
#[derive(Drop)]
pub(crate) struct Asked<N: Net + Drop> {
    links: NetLinks<N, MemClock>,
    sub: Sub,
    ghost live: { IsLive (net_seen links) sub.key },
}

impl<N: Net + Drop> Asked<N> {
    /// Sends a request to a region that listens there; none where there is no memory.
    pub fn begin(
        alloc: Global,
        net: N,
        clock: MemClock,
        host: &str,
        port: u16,
        request: &[u8],
    ) -> Option<Result<Asked<N>, AskRefused>> {
        let code = Code::new("AA").ok()?;
        let mut links = NetLinks::new(alloc, net, clock);
        if links.add(code, host, port).is_err() {
            drop(links);
            return None;
        }
        match links.ask(0, request) {
            Ok(sub) => Some(Ok(Asked { links, sub })),
            Err(refused) => {
                drop(links);
                Some(Err(refused))
            }
        }
    }

    pub fn look(&mut self) -> More {
        self.links.more(&self.sub)
    }

    /// How many bytes of the reply were taken.
    pub fn count(&self) -> usize {
        self.links.bytes(&self.sub).len()
    }

    pub fn wait<R: Runtime>(&mut self, rt: &R) {
        let mut lent = rt;
        self.links.wait(&mut lent);
    }

    pub fn close(self) {
        let Asked { links, sub } = self;
        let mut links = links;
        links.close(sub);
        drop(links);
    }
}
