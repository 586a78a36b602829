//! The connections of a network: the hops of its journeys, in the order of their departures.

ghost use Rattle.std.specs.Prelude.{◌≡◌, ℕ, ◌+◌, ◌<◌, ◌^◌, List, length, slice_index, IfOk};
ghost use Rattle.ojp_sweep.specs.Ranks.{AreAllPut};
ghost use Rattle.ojp_sweep.specs.Rows.{AreRows, AreChanges, IsNetworkOf};

use crate::ranks::Ranks;
use std::alloc::{AllocError, Global};

/// A hop of a journey from a call to the next: its ends are places, its times offsets in a day and a half.
#[derive(Clone, Copy, Debug)]
pub struct Connection {
    pub departs: u32,
    pub arrives: u32,
    pub from: u32,
    pub to: u32,
    pub journey: u32,
    pub position: u32,
}

/// A walk after a ride from one place to another, in seconds.
#[derive(Clone, Copy, Debug)]
pub struct Walk {
    pub from: u32,
    pub to: u32,
    pub seconds: u32,
}

/// The connections by departure, the service of each journey, the change time of each place in seconds, and
/// the walks: those from one place stand together, from its first up to the first of the next place.
#[derive(Drop)]
pub struct Connections {
    pub sorted: Vec<Connection>,
    pub services: Vec<u32>,
    pub changes: Vec<u32>,
    pub walks: Vec<Walk>,
    pub firsts: Vec<usize>,
}

/// Four days that are numbered from 0: the moment at which each begins, and for each service, one after
/// the other, whether it runs on each of them.
#[derive(Drop)]
pub struct Days {
    pub bases: Vec<u64>,
    pub running: Vec<bool>,
}

/// Where a search begins: the place, and the moment from which one may leave it. In a round one boards by what
/// the round before made ready alone, and so chains have one ride more; else by all that is found.
#[derive(Clone, Copy, Debug)]
pub struct Asked {
    pub origin: usize,
    pub start: u64,
    pub in_round: bool,
}

impl Connections {
    /// The network of the rows that have been put, without walks.
    pub fn new(
        alloc: Global,
        ranks: Ranks,
        services: Vec<u32>,
        changes: Vec<u32>,
    ) -> Result<Connections, AllocError>
        requires changes { AreChanges changes.items }
        requires places { length changes.items < 2 ^ 32 }
        ensures { IfOk result (λ net. (rows : List Connection) → AreAllPut ranks rows → AreRows rows (length changes.items) (length services.items) → IsNetworkOf net rows services.items changes.items) }
    {
        let firsts = zeros(alloc, changes.len() + 1)?;
        Ok(Connections {
            sorted: ranks.sorted(),
            services,
            changes,
            walks: Vec::new(alloc),
            firsts,
        })
    }
}

/// So many zeros.
fn zeros(alloc: Global, count: usize) -> Result<Vec<usize>, AllocError>
    ensures count { IfOk result (λ zeros. length zeros.items ≡ count) }
    ensures zero { IfOk result (λ zeros. (i : ℕ) → i < count → slice_index zeros.items i ≡ 0) }
{
    Vec::from_elem(alloc, 0, count)
}
