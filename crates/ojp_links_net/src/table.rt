//! The regions and the live asks.

ghost use Rattle.std.specs.Prelude.{◌≡◌, ◌≤◌, ◌<◌, IfOk, IfSome, IsSome, OnErr, OnOk, None, length};
ghost use Rattle.ojp_links.specs.Seen.{IsLive, IsSound, ask_at, code_at};
ghost use Rattle.ojp_links.specs.Calls.{Adds, Asks, Closes, IsNewCode, Looks, Rejects};
ghost use Rattle.ojp_links_net.specs.Counting.{CountsAnswer, CountsAsk, CountsNone, CountsOne};
ghost use Rattle.ojp_links_net.specs.Pending.{AsksOthersStay, LooksAtOne, SameLive, ask_in, live_in, live_of, new_live};
ghost use Rattle.ojp_links_net.specs.Progress.{BeginsInTime, LooksInTime, SameProgress, SameProgressElsewhere, first_progress, most_silence, progress_in, progress_of};
ghost use Rattle.ojp_links_net.specs.Table.{IsUnused, SameSeen, links_of};

use crate::pending::Pending;
use crate::regions::Regions;
use crate::sockets::Trouble;
use mio::Registry;
use ojp_links::{AskRefused, More, Sub};
use ojp_values::{Code, NoMemory};
use slab::Slab;
use std::alloc::Global;
use std::marker::Model;
use std::net::Net;

/// Regions, and asks of them that are live.
#[derive(Drop)]
pub(crate) struct Table {
    alloc: Global,
    regions: Regions,
    asks: Slab<Pending>,
    made: u64,
}

impl Model for Table {
    ghost use Rattle.ojp_links_net.specs.Table.{TableView};

    ghost Value = { TableView };

    ghost use Rattle.ojp_links_net.specs.Kept.{AreOfRegions, table_of};

    ghost view = { table_of };

    ghost invariant = { AreOfRegions };
}

/// A new ask of the region, which is being connected since this moment.
fn begin<H: Net>(
    alloc: Global,
    net: &H,
    regions: &Regions,
    region: usize,
    request: &[u8],
    now: u64,
) -> Result<Pending, AskRefused>
    requires { region < length regions.now.stations }
    ensures live { IfOk result (λ ask. live_of ask ≡ new_live region request.now) }
    ensures moment { IfOk result (λ ask. progress_of ask ≡ first_progress now) }
{
    let Ok(kept) = Vec::from_slice(alloc, request) else {
        return Err(AskRefused::NoMemory);
    };
    match regions.connect(net, region) {
        Ok(stream) => Ok(Pending::new(alloc, stream, region, kept, now)),
        Err(Trouble::Failed) => Err(AskRefused::Failed),
        Err(Trouble::NoMemory) => Err(AskRefused::NoMemory),
    }
}

/// The region of the ask with the key.
fn region_of(asks: &Slab<Pending>, key: usize) -> usize
    requires { IsSome (live_in asks.now key) }
    ensures { result ≡ (ask_in asks.now key).region }
{
    asks[key].region
}

/// Looks at the ask with the key.
fn look_at(asks: &mut Slab<Pending>, key: usize, now: u64) -> More
    requires { IsSome (live_in asks.old key) }
    ensures looks { LooksAtOne asks.old asks.new key result }
    ensures in_time { LooksInTime (progress_in asks.old) (progress_in asks.new) key now result }
{
    let Some(ask) = asks.get_mut(key) else {
        unreachable!()
    };
    ask.look(now)
}

/// Ends the ask with the key, and gives its region.
fn remove(asks: &mut Slab<Pending>, key: usize) -> usize
    requires { IsSome (live_in asks.old key) }
    ensures region { result ≡ (ask_in asks.old key).region }
    ensures gone { live_in asks.new key ≡ None }
    ensures others { AsksOthersStay asks.old asks.new key }
    ensures progress { SameProgressElsewhere (progress_in asks.old) (progress_in asks.new) key }
{
    asks.remove(key).region
}

/// Has a wait end when the socket of the ask with the key is ready.
fn register_at(asks: &mut Slab<Pending>, key: usize, registry: &Registry)
    ensures live { SameLive asks.old asks.new }
    ensures progress { SameProgress (progress_in asks.old) (progress_in asks.new) }
{
    if let Some(ask) = asks.get_mut(key) {
        ask.register(registry, key);
    }
}

/// Has the next look at the ask with the key tell trouble.
fn mark_at(asks: &mut Slab<Pending>, key: usize, trouble: Trouble)
    ensures live { SameLive asks.old asks.new }
    ensures progress { SameProgress (progress_in asks.old) (progress_in asks.new) }
{
    if let Some(ask) = asks.get_mut(key) {
        ask.mark(trouble);
    }
}

/// Has a wait end when a socket of an ask is ready.
fn register_all(asks: &mut Slab<Pending>, registry: &Registry)
    ensures live { SameLive asks.old asks.new }
    ensures progress { SameProgress (progress_in asks.old) (progress_in asks.new) }
{
    'keys: for key in 0..asks.capacity() {
        register_at(asks, key, registry);
    }
}

/// Has the next look at each ask tell trouble.
fn mark_all(asks: &mut Slab<Pending>, trouble: Trouble)
    ensures live { SameLive asks.old asks.new }
    ensures progress { SameProgress (progress_in asks.old) (progress_in asks.new) }
{
    'keys: for key in 0..asks.capacity() {
        mark_at(asks, key, trouble);
    }
}

/// The lesser of the two, where there is one already.
fn lesser(least: Option<u64>, left: u64) -> Option<u64>
    requires some { IfSome least (λ before. before ≤ most_silence) }
    requires low { left ≤ most_silence }
    ensures { IfSome result (λ after. after ≤ most_silence) }
{
    match least {
        Some(before) => Some(before.min(left)),
        None => Some(left),
    }
}

impl Table {
    pub fn new(alloc: Global) -> Table
        ensures { IsUnused result }
    {
        Table {
            alloc,
            regions: Regions::new(alloc),
            asks: Slab::new(alloc),
            made: 0,
        }
    }

    pub fn regions(&self) -> usize
        ensures { result ≡ length self.now.regions.stations }
    {
        self.regions.len()
    }

    pub fn code(&self, region: usize) -> Code
        requires { region < length self.now.regions.stations }
        ensures { result ≡ code_at (links_of self.now) region }
    {
        self.regions.code(region)
    }

    /// What is seen of it is so. The call does nothing.
    pub fn is_sound(&self)
        ensures { IsSound (links_of self.now) }
    {
        self.regions.are_distinct();
    }

    pub fn add(&mut self, code: Code, host: &str, port: u16) -> Result<(), NoMemory>
        requires { IsNewCode (links_of self.old) code }
        ensures ok { OnOk result (Adds (links_of self.old) (links_of self.new) code host.now port) }
        ensures err { OnErr result (links_of self.new ≡ links_of self.old) }
        ensures counts { CountsNone (links_of self.old).faults (links_of self.new).faults }
        ensures progress { SameProgress (progress_in self.old.asks) (progress_in self.new.asks) }
    {
        self.regions.add(code, host, port)
    }

    /// Begins to connect to the region, and keeps the request to be sent.
    pub fn ask<H: Net>(
        &mut self,
        net: &H,
        region: usize,
        request: &[u8],
        now: u64,
    ) -> Result<Sub, AskRefused>
        requires { region < length self.old.regions.stations }
        ensures asks { Asks (links_of self.old) (links_of self.new) region request.now result }
        ensures counts { CountsAsk result (links_of self.old).faults (links_of self.new).faults region }
        ensures in_time { BeginsInTime result (progress_in self.old.asks) (progress_in self.new.asks) now }
    {
        match begin(self.alloc, net, &self.regions, region, request, now) {
            Ok(ask) => self.keep(ask),
            Err(AskRefused::Failed) => {
                self.regions.count_fault(region);
                Err(AskRefused::Failed)
            }
            Err(AskRefused::NoMemory) => Err(AskRefused::NoMemory),
        }
    }

    /// Keeps a new ask.
    fn keep(&mut self, ask: Pending) -> Result<Sub, AskRefused>
        requires region { ask.region < length self.old.regions.stations }
        requires fresh { live_of ask ≡ new_live ask.region ask.request.items }
        requires now { progress_of ask ≡ first_progress (progress_of ask).moment }
        ensures asks { Asks (links_of self.old) (links_of self.new) ask.region ask.request.items result }
        ensures counts { CountsAsk result (links_of self.old).faults (links_of self.new).faults ask.region }
        ensures in_time { BeginsInTime result (progress_in self.old.asks) (progress_in self.new.asks) (progress_of ask).moment }
    {
        let Ok(key) = self.asks.insert(ask) else {
            return Err(AskRefused::NoMemory);
        };
        self.made = self.made.saturating_add(1);
        Ok(Sub { key })
    }

    pub fn more(&mut self, sub: &Sub, now: u64) -> More
        requires { IsLive (links_of self.old) sub.now.key }
        ensures looks { Looks (links_of self.old) (links_of self.new) sub.now.key result }
        ensures counts { CountsAnswer result (links_of self.old).faults (links_of self.new).faults (ask_at (links_of self.old) sub.now.key).region }
        ensures in_time { LooksInTime (progress_in self.old.asks) (progress_in self.new.asks) sub.now.key now result }
    {
        let region = region_of(&self.asks, sub.key);
        let answer = look_at(&mut self.asks, sub.key, now);
        self.regions.count_look(region, answer);
        answer
    }

    pub fn bytes(&self, sub: &Sub) -> &[u8]
        requires { IsLive (links_of self.now) sub.now.key }
        ensures { result.now ≡ (ask_at (links_of self.now) sub.now.key).taken }
    {
        self.asks[sub.key].taken.as_slice()
    }

    pub fn close(&mut self, sub: &Sub)
        requires { IsLive (links_of self.old) sub.now.key }
        ensures closes { Closes (links_of self.old) (links_of self.new) sub.now.key }
        ensures counts { CountsNone (links_of self.old).faults (links_of self.new).faults }
        ensures progress { SameProgressElsewhere (progress_in self.old.asks) (progress_in self.new.asks) sub.now.key }
    {
        remove(&mut self.asks, sub.key);
    }

    pub fn reject(&mut self, sub: &Sub)
        requires { IsLive (links_of self.old) sub.now.key }
        ensures rejects { Rejects (links_of self.old) (links_of self.new) sub.now.key }
        ensures faults { CountsOne (links_of self.old).faults (links_of self.new).faults (ask_at (links_of self.old) sub.now.key).region }
        ensures rejections { CountsOne (links_of self.old).rejections (links_of self.new).rejections (ask_at (links_of self.old) sub.now.key).region }
        ensures progress { SameProgressElsewhere (progress_in self.old.asks) (progress_in self.new.asks) sub.now.key }
    {
        let region = remove(&mut self.asks, sub.key);
        self.regions.count_rejection(region);
    }

    /// Has a wait end when a socket of an ask is ready. What fails is told at the next look at that ask.
    pub fn register_all(&mut self, registry: &Registry)
        ensures { SameSeen self.old self.new }
    {
        register_all(&mut self.asks, registry);
    }

    /// Has the next look at each ask tell trouble.
    pub fn mark_all(&mut self, trouble: Trouble)
        ensures { SameSeen self.old self.new }
    {
        mark_all(&mut self.asks, trouble);
    }

    /// How many milliseconds a wait may last; none where no ask is live.
    pub fn time_left(&self, now: u64) -> Option<u64>
        ensures { IfSome result (λ left. left ≤ most_silence) }
    {
        let mut least = None;
        'asks: for (_, ask) in self.asks.iter() {
            least = lesser(least, ask.time_left(now));
        }
        least
    }
}
