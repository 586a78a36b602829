//! Links to regions over sockets.

ghost use Rattle.std.specs.Prelude.{◌≡◌, ◌<◌, OnErr, OnOk, length};
ghost use Rattle.ojp_links.specs.Seen.{IsLive, ask_at};
ghost use Rattle.ojp_links.specs.Calls.{Adds, Asks, Closes, Idles, IsNewCode, Looks, MayReject, Rejects};
ghost use Rattle.ojp_links_net.specs.Counting.{CountsAnswer, CountsAsk, CountsNone, CountsOne};
ghost use Rattle.ojp_links_net.specs.Links.{net_moment, net_progress, net_seen};
ghost use Rattle.ojp_links_net.specs.Progress.{BeginsInTime, LooksInTime, SameProgress, SameProgressElsewhere};
ghost use Rattle.ojp_links_net.specs.Table.{HasNoRegions, SameSeen};

use crate::sockets::Trouble;
use crate::table::Table;
use crate::waiter::Waiter;
use ojp_links::{AskRefused, Expect, Links, More, Runtime, Sub, WaitLinks};
use ojp_outside::Clock;
use ojp_values::{Code, NoMemory};
use std::alloc::Global;
use std::net::Net;

/// Regions that listen elsewhere. An ask has a connection of its own. It fails at a look where nothing came and it
/// made no progress for 30,000 milliseconds of the clock: no connection made, no byte sent and none received.
#[derive(Drop)]
pub struct NetLinks<H: Net + Drop, C: Clock + Drop> {
    alloc: Global,
    net: H,
    clock: C,
    table: Table,
    /// None before the first wait.
    waiter: Option<Waiter>,
}

impl<H: Net + Drop, C: Clock + Drop> NetLinks<H, C> {
    /// Links to no region yet. Asks connect with `net`. It takes no memory.
    pub fn new(alloc: Global, net: H, clock: C) -> NetLinks<H, C>
        ensures { HasNoRegions (net_seen result) }
    {
        NetLinks {
            alloc,
            net,
            clock,
            table: Table::new(alloc),
            waiter: None,
        }
    }

    /// Makes what waits, where there is none yet.
    fn make_waiter<R: Runtime>(&mut self, rt: &R) -> Result<(), Trouble>
        ensures { self.new.table ≡ self.old.table }
    {
        if self.waiter.is_none() {
            self.waiter = Some(Waiter::new(self.alloc, rt)?);
        }
        Ok(())
    }

    /// Waits until a socket is ready, or the next ask is due to fail.
    fn wait_once<R: Runtime>(&mut self, rt: &R) -> Result<(), Trouble>
        ensures { SameSeen self.old.table self.new.table }
    {
        self.make_waiter(rt)?;
        let Some(waiter) = &mut self.waiter else {
            return Ok(());
        };
        self.table.register_all(waiter.registry());
        let now = self.clock.now();
        match self.table.time_left(now) {
            Some(millis) => waiter.wait(millis),
            None => Ok(()),
        }
    }
}

impl<H: Net + Drop, C: Clock + Drop> Links for NetLinks<H, C> {
    ghost seen = { net_seen };

    fn regions(&self) -> usize {
        self.table.regions()
    }

    fn code(&self, region: usize) -> Code {
        self.table.code(region)
    }

    fn is_sound(&self) {
        self.table.is_sound();
    }

    fn ask(&mut self, region: usize, request: &[u8]) -> Result<Sub, AskRefused>
        requires { region < length (net_seen self.old).fixed.stations }
        ensures asks { Asks (net_seen self.old) (net_seen self.new) region request.now result }
        ensures counts { CountsAsk result (net_seen self.old).faults (net_seen self.new).faults region }
        ensures in_time { BeginsInTime result (net_progress self.old) (net_progress self.new) (net_moment C.last self.new) }
    {
        let now = self.clock.now();
        self.table.ask(&self.net, region, request, now)
    }

    fn more(&mut self, sub: &Sub) -> More
        requires { IsLive (net_seen self.old) sub.now.key }
        ensures looks { Looks (net_seen self.old) (net_seen self.new) sub.now.key result }
        ensures counts { CountsAnswer result (net_seen self.old).faults (net_seen self.new).faults (ask_at (net_seen self.old) sub.now.key).region }
        ensures in_time { LooksInTime (net_progress self.old) (net_progress self.new) sub.now.key (net_moment C.last self.new) result }
    {
        let now = self.clock.now();
        self.table.more(sub, now)
    }

    fn bytes(&self, sub: &Sub) -> &[u8] {
        self.table.bytes(sub)
    }

    fn close(&mut self, sub: Sub)
        requires { IsLive (net_seen self.old) sub.key }
        ensures closes { Closes (net_seen self.old) (net_seen self.new) sub.key }
        ensures counts { CountsNone (net_seen self.old).faults (net_seen self.new).faults }
        ensures progress { SameProgressElsewhere (net_progress self.old) (net_progress self.new) sub.key }
    {
        self.table.close(&sub);
    }

    fn reject(&mut self, sub: Sub, expect: &Expect)
        requires { MayReject (net_seen self.old) sub.key expect.now }
        ensures rejects { Rejects (net_seen self.old) (net_seen self.new) sub.key }
        ensures faults { CountsOne (net_seen self.old).faults (net_seen self.new).faults (ask_at (net_seen self.old) sub.key).region }
        ensures rejections { CountsOne (net_seen self.old).rejections (net_seen self.new).rejections (ask_at (net_seen self.old) sub.key).region }
        ensures progress { SameProgressElsewhere (net_progress self.old) (net_progress self.new) sub.key }
    {
        let _ = expect;
        self.table.reject(&sub);
    }
}

impl<H: Net + Drop, C: Clock + Drop> WaitLinks for NetLinks<H, C> {
    fn add(&mut self, code: Code, host: &str, port: u16) -> Result<(), NoMemory>
        requires { IsNewCode (net_seen self.old) code }
        ensures ok { OnOk result (Adds (net_seen self.old) (net_seen self.new) code host.now port) }
        ensures err { OnErr result (net_seen self.new ≡ net_seen self.old) }
        ensures counts { CountsNone (net_seen self.old).faults (net_seen self.new).faults }
        ensures progress { SameProgress (net_progress self.old) (net_progress self.new) }
    {
        self.table.add(code, host, port)
    }

    fn wait<R: Runtime>(&mut self, rt: &mut R)
        ensures idles { Idles (net_seen self.old) (net_seen self.new) }
        ensures counts { CountsNone (net_seen self.old).faults (net_seen self.new).faults }
        ensures progress { SameProgress (net_progress self.old) (net_progress self.new) }
    {
        if let Err(trouble) = self.wait_once(&*rt) {
            self.table.mark_all(trouble);
        }
    }
}
