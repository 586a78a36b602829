//! Searches over one network, as its caller sees them.

ghost use Rattle.std.specs.Prelude.{◌≡◌, true, false, ◌+◌, ◌<◌, ◌≤◌, ◌^◌, length, MatchOption, IfOk, ℕ};
ghost use Rattle.ojp_sweep.specs.declared.connections.Days.{Days as FourDays};
ghost use Rattle.ojp_sweep.specs.declared.connections.Asked.{Asked as OneAsked};
ghost use Rattle.ojp_sweep.specs.Rides.{IsWell, AreDaysOf, Arrives};
ghost use Rattle.ojp_sweep.specs.Rounds.{IsInRounds, HasRounds, IsRoundOf, NeverArrivesBy, ArrivesFirstBy};
ghost use Rattle.ojp_sweep.specs.Searches.{IsMade, IsSweepOf, NeverArrives, ArrivesFirst, IsLastHop};

use crate::connections::{Asked, Connections, Days};
use crate::labels::{DAY_LONG, Hop, Labels};
use crate::progress::Progress;
use crate::sweeps::Search;
use std::alloc::{AllocError, Global};

/// A search over the network for which it was made. It may be started by `from` any number of times.
#[derive(Drop)]
pub struct Sweep {
    net: Connections,
    progress: Progress,
    asked: Asked,
}

impl Sweep {
    /// A search over the network, not yet started. It takes here all the memory that it uses.
    pub fn new(alloc: Global, net: Connections) -> Result<Sweep, AllocError>
        requires well { IsWell net }
        requires runs { length net.services.items < 2 ^ 32 }
        ensures made { IfOk result (λ sweep. IsMade sweep) }
        ensures net { IfOk result (λ sweep. sweep.net ≡ net) }
    {
        let places = net.changes.len();
        let labels = Labels::new(alloc, places)?;
        let boarded = Vec::from_elem(alloc, 0, 4 * net.services.len())?;
        let cursors = Vec::from_elem(alloc, 0, 4)?;
        let ends = Vec::from_elem(alloc, 0, 4)?;
        Ok(Sweep {
            net,
            progress: Progress {
                labels,
                boarded,
                cursors,
                ends,
            },
            asked: Asked {
                origin: 0,
                start: 0,
                in_round: false,
            },
        })
    }

    /// The network.
    pub fn net(&self) -> &Connections
        ensures { result.now ≡ self.now.net }
    {
        &self.net
    }

    /// Finds the earliest arrivals at all places on the days, for one who leaves the origin not before the start.
    /// It takes no memory.
    pub fn from(&mut self, days: &Days, asked: Asked)
        requires made { IsMade self.old }
        requires days { AreDaysOf days.now self.old.net }
        requires start { asked.start ≤ 2 ^ 40 }
        requires whole { asked.in_round ≡ false }
        ensures made { IsMade self.new }
        ensures net { self.new.net ≡ self.old.net }
        ensures found { IsSweepOf self.new days.now asked }
    {
        self.asked = asked;
        let search = Search {
            net: &self.net,
            days,
            asked,
        };
        search.settle(&mut self.progress);
    }

    /// Begins rounds: in each a chain may have one ride more. It takes no memory.
    pub fn begin_rounds(&mut self, asked: Asked)
        requires made { IsMade self.old }
        requires start { asked.start ≤ 2 ^ 40 }
        requires in_round { asked.in_round ≡ true }
        ensures made { IsMade self.new }
        ensures net { self.new.net ≡ self.old.net }
        ensures asked { self.new.asked ≡ asked }
        ensures begun { (days : FourDays) → AreDaysOf days self.new.net → IsInRounds self.new days 0 }
    {
        self.asked = asked;
        self.progress.labels.restart(asked);
    }

    /// Finds the earliest arrivals by chains with one ride more than before. It takes no memory.
    pub fn round(&mut self, days: &Days)
        requires made { IsMade self.old }
        requires begun { HasRounds self.old days.now }
        ensures made { IsMade self.new }
        ensures net { self.new.net ≡ self.old.net }
        ensures found { (count : ℕ) → IsInRounds self.old days.now count → IsRoundOf self.new days.now self.old.asked (count + 1) }
    {
        self.progress.labels.exchange();
        let search = Search {
            net: &self.net,
            days,
            asked: self.asked,
        };
        search.settle(&mut self.progress);
    }

    /// The earliest arrival at the place by a chain of rides from the origin of the last `from` and within the day
    /// from its start, or after a `round` by one with as many rides at most; `None` exactly where there is no such
    /// chain. It takes no memory.
    pub fn arrival(&self, place: usize) -> Option<u64>
        ensures whole { (days : FourDays) (asked : OneAsked) → IsSweepOf self.now days asked → MatchOption result (NeverArrives self.now.net days asked place) (λ a. ArrivesFirst self.now.net days asked place a) }
        ensures round { (days : FourDays) (asked : OneAsked) (count : ℕ) → IsRoundOf self.now days asked count → MatchOption result (NeverArrivesBy self.now.net days asked count place) (λ a. ArrivesFirstBy self.now.net days asked count place a) }
    {
        let arrives = *self.progress.labels.arrives.get(place)?;
        if arrives.saturating_sub(self.asked.start) > DAY_LONG {
            return None;
        }
        Some(arrives)
    }

    /// The last ride of a chain that arrives at the place first, where one arrives: before it, there are the hops to
    /// the place where it is boarded.
    pub fn hop(&self, place: usize) -> Hop
        requires place { place < length self.now.net.changes.items }
        requires made { IsMade self.now }
        ensures { (days : FourDays) (asked : OneAsked) (a : ℕ) → IsSweepOf self.now days asked → Arrives self.now.net days asked place a → IsLastHop self.now.net days asked place result }
    {
        self.progress.labels.hops[place]
    }
}
