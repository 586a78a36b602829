//! The labels of a search: the earliest arrival that was found at each place.

ghost use Rattle.std.specs.Prelude.{◌≡◌, ◌+◌, ◌<◌, ◌≤◌, ◌^◌, length, slice_index, IfOk};
ghost use Rattle.ojp_sweep.specs.Rides.{IsWell};
ghost use Rattle.ojp_sweep.specs.Labels.{IsLowered, IsConnected, IsReadied, IsAtMost, IsRestarted, IsCleared};

use crate::connections::{Asked, Connections};
use std::alloc::{AllocError, Global};
use std::mem::swap;

/// A chain ends at most so many seconds after the start.
pub const DAY_LONG: u64 = 86_400;

/// The ride that made a label: on that day from one connection of its journey to the same or a later one.
#[derive(Clone, Copy, Debug)]
pub struct Hop {
    pub day: u32,
    pub board: u32,
    pub alight: u32,
}

/// For each place the earliest arrival, the moment from which one may board there, in a round the moment from
/// which one may in the next, and the ride of the arrival. A place that was not reached has the second after
/// the day that begins at the start.
#[derive(Drop)]
pub struct Labels {
    pub arrives: Vec<u64>,
    pub ready: Vec<u64>,
    pub next: Vec<u64>,
    pub hops: Vec<Hop>,
}

impl Labels {
    /// Labels for so many places.
    pub fn new(alloc: Global, places: usize) -> Result<Labels, AllocError>
        ensures arrives { IfOk result (λ labels. length labels.arrives.items ≡ places) }
        ensures ready { IfOk result (λ labels. length labels.ready.items ≡ places) }
        ensures next { IfOk result (λ labels. length labels.next.items ≡ places) }
        ensures hops { IfOk result (λ labels. length labels.hops.items ≡ places) }
    {
        let none = Hop {
            day: 0,
            board: 0,
            alight: 0,
        };
        let arrives = Vec::from_elem(alloc, 0, places)?;
        let ready = Vec::from_elem(alloc, 0, places)?;
        let next = Vec::from_elem(alloc, 0, places)?;
        let hops = Vec::from_elem(alloc, none, places)?;
        Ok(Labels {
            arrives,
            ready,
            next,
            hops,
        })
    }

    /// Lowers the label of the place to the arrival, unless it is as early.
    pub fn lower(&mut self, net: &Connections, in_round: bool, place: usize, arrives: u64, hop: Hop)
        requires well { IsWell net.now }
        requires place { place < length net.now.changes.items }
        requires arrives { length self.old.arrives.items ≡ length net.now.changes.items }
        requires ready { length self.old.ready.items ≡ length net.now.changes.items }
        requires next { length self.old.next.items ≡ length net.now.changes.items }
        requires hops { length self.old.hops.items ≡ length net.now.changes.items }
        requires room { arrives ≤ 2 ^ 50 }
        ensures { IsLowered self.old self.new net.now in_round place arrives hop }
    {
        if arrives < self.arrives[place] {
            self.arrives[place] = arrives;
            self.hops[place] = hop;
            self.connect(net, in_round, place, arrives);
        }
    }

    /// Makes ready what an arrival connects with: in a round, for the next one.
    fn connect(&mut self, net: &Connections, in_round: bool, place: usize, arrives: u64)
        requires well { IsWell net.now }
        requires place { place < length net.now.changes.items }
        requires ready { length self.old.ready.items ≡ length net.now.changes.items }
        requires next { length self.old.next.items ≡ length net.now.changes.items }
        requires room { arrives ≤ 2 ^ 50 }
        ensures arrives { self.new.arrives.items ≡ self.old.arrives.items }
        ensures hops { self.new.hops.items ≡ self.old.hops.items }
        ensures rows { IsConnected in_round self.old self.new net.now place arrives }
    {
        if in_round {
            transfer(net, &mut self.next, place, arrives);
        } else {
            transfer(net, &mut self.ready, place, arrives);
        }
    }

    /// Before rounds one may board at the origin alone.
    pub fn restart(&mut self, asked: Asked)
        requires { asked.start ≤ 2 ^ 40 }
        ensures arrives { self.new.arrives.items ≡ self.old.arrives.items }
        ensures ready { self.new.ready.items ≡ self.old.ready.items }
        ensures next { IsRestarted self.old.next.items self.new.next.items asked }
        ensures hops { self.new.hops.items ≡ self.old.hops.items }
    {
        restart(&mut self.next, asked);
    }

    /// In the next round one boards by what this one made ready.
    pub fn exchange(&mut self)
        ensures arrives { self.new.arrives.items ≡ self.old.arrives.items }
        ensures ready { self.new.ready.items ≡ self.old.next.items }
        ensures next { self.new.next.items ≡ self.old.ready.items }
        ensures hops { self.new.hops.items ≡ self.old.hops.items }
    {
        swap(&mut self.ready, &mut self.next);
    }

    /// The labels of a search that begins: no place was reached.
    pub fn clear(&mut self, asked: Asked)
        requires start { asked.start ≤ 2 ^ 40 }
        ensures { IsCleared self.old self.new asked }
    {
        self.arrives.as_mut_slice().fill(asked.start + DAY_LONG + 1);
        if asked.in_round {
            restart(&mut self.next, asked);
        } else {
            restart(&mut self.ready, asked);
        }
    }
}

/// One may board at the origin alone, from the start on.
fn restart(ready: &mut Vec<u64>, asked: Asked)
    requires { asked.start ≤ 2 ^ 40 }
    ensures { IsRestarted ready.old.items ready.new.items asked }
{
    ready.as_mut_slice().fill(asked.start + DAY_LONG + 1);
    if asked.origin < ready.len() {
        ready[asked.origin] = asked.start;
    }
}

/// From an arrival on, one may board at its place after the change, and at the ends of its walks.
fn transfer(net: &Connections, ready: &mut Vec<u64>, place: usize, arrives: u64)
    requires well { IsWell net.now }
    requires place { place < length net.now.changes.items }
    requires ready { length ready.old.items ≡ length net.now.changes.items }
    requires room { arrives ≤ 2 ^ 50 }
    ensures { IsReadied ready.old.items ready.new.items net.now place arrives }
{
    make_ready(ready, place, arrives + u64::from(net.changes[place]));
    'walks: for index in net.firsts[place]..net.firsts[place + 1] {
        let walk = net.walks[index];
        make_ready(ready, walk.to as usize, arrives + u64::from(walk.seconds));
    }
}

/// One may board at the place from the moment on, if not before.
fn make_ready(ready: &mut Vec<u64>, place: usize, moment: u64)
    requires { place < length ready.old.items }
    ensures { IsAtMost ready.old.items ready.new.items place moment }
{
    if moment < ready[place] {
        ready[place] = moment;
    }
}
