//! Regions that can be asked, with their counts.

ghost use Rattle.std.specs.Prelude.{◌≡◌, ◌<◌, OnOk, OnErr, length, map, vec_capacity, vec_len};
ghost use Rattle.ojp_links.specs.Seen.{AreDistinct, code_in, code_of_station};
ghost use Rattle.ojp_links_net.specs.Regions.{AddsRegion, CountsAt, CountsFault, CountsLook, CountsRejection, IsNewAmong, no_regions};

use crate::sockets::{Trouble, connect};
use mio::net::TcpStream;
use ojp_links::More;
use ojp_values::{Code, NoMemory};
use std::alloc::Global;
use std::marker::Model;
use std::net::Net;

/// A region and where it listens.
#[derive(Drop)]
pub(crate) struct Endpoint {
    pub code: Code,
    pub host: String,
    pub port: u16,
}

/// Regions by their numbers, with a count of faults and one of rejections for each.
#[derive(Drop)]
pub(crate) struct Regions {
    alloc: Global,
    places: Vec<Endpoint>,
    faults: Vec<u64>,
    rejections: Vec<u64>,
}

impl Model for Regions {
    ghost use Rattle.ojp_links_net.specs.Regions.{RegionsView};

    ghost Value = { RegionsView };

    ghost use Rattle.ojp_links_net.specs.Kept.{AreCounted, regions_of};

    ghost view = { regions_of };

    ghost invariant = { AreCounted };
}

/// The count of the region rises; it stays at its last value.
fn count_at(counts: &mut Vec<u64>, at: usize)
    requires { at < length counts.old.items }
    ensures counts { CountsAt counts.old.items counts.new.items at }
    ensures len { length counts.new.items ≡ length counts.old.items }
{
    let count = counts[at];
    counts[at] = count.saturating_add(1);
}

/// Makes room for one region more.
fn make_room(
    places: &mut Vec<Endpoint>,
    faults: &mut Vec<u64>,
    rejections: &mut Vec<u64>,
) -> Result<(), NoMemory>
    ensures places { places.new.items ≡ places.old.items }
    ensures faults { faults.new.items ≡ faults.old.items }
    ensures rejections { rejections.new.items ≡ rejections.old.items }
    ensures for_place { OnOk result (vec_len places.new < vec_capacity places.new) }
    ensures for_faults { OnOk result (vec_len faults.new < vec_capacity faults.new) }
    ensures for_rejections { OnOk result (vec_len rejections.new < vec_capacity rejections.new) }
{
    let Ok(()) = places.reserve(1) else {
        return Err(NoMemory);
    };
    let Ok(()) = faults.reserve(1) else {
        return Err(NoMemory);
    };
    let Ok(()) = rejections.reserve(1) else {
        return Err(NoMemory);
    };
    Ok(())
}

impl Regions {
    pub fn new(alloc: Global) -> Regions
        ensures { result ≡ no_regions }
    {
        Regions {
            alloc,
            places: Vec::new(alloc),
            faults: Vec::new(alloc),
            rejections: Vec::new(alloc),
        }
    }

    pub fn len(&self) -> usize
        ensures { result ≡ length self.now.stations }
    {
        self.places.len()
    }

    pub fn code(&self, at: usize) -> Code
        requires { at < length self.now.stations }
        ensures { result ≡ code_in (map code_of_station self.now.stations) at }
    {
        self.places[at].code
    }

    /// No two regions have one code. The call does nothing.
    pub fn are_distinct(&self)
        ensures { AreDistinct (map code_of_station self.now.stations) }
    {
        let _ = &self.places;
    }

    /// Begins to connect to the region.
    pub fn connect<H: Net>(&self, net: &H, at: usize) -> Result<TcpStream, Trouble>
        requires { at < length self.now.stations }
    {
        let place = &self.places[at];
        connect(net, place.host.as_str(), place.port)
    }

    /// Adds a region behind the others, whose counts are 0.
    pub fn add(&mut self, code: Code, host: &str, port: u16) -> Result<(), NoMemory>
        requires { IsNewAmong self.old.stations code }
        ensures ok { OnOk result (AddsRegion self.old self.new code host.now port) }
        ensures err { OnErr result (self.new ≡ self.old) }
    {
        let Ok(host) = String::from_str(self.alloc, host) else {
            return Err(NoMemory);
        };
        let Ok(()) = make_room(&mut self.places, &mut self.faults, &mut self.rejections) else {
            return Err(NoMemory);
        };
        self.places.push_reserved(Endpoint { code, host, port });
        self.faults.push_reserved(0);
        self.rejections.push_reserved(0);
        Ok(())
    }

    /// Counts a fault of the region.
    pub fn count_fault(&mut self, at: usize)
        requires { at < length self.old.stations }
        ensures { CountsFault self.old self.new at }
    {
        count_at(&mut self.faults, at);
    }

    /// Counts a fault of the region where the look failed.
    pub fn count_look(&mut self, at: usize, answer: More)
        requires { at < length self.old.stations }
        ensures { CountsLook answer self.old self.new at }
    {
        match answer {
            More::Failed => self.count_fault(at),
            More::Got => {}
            More::NotYet => {}
            More::End => {}
            More::NoMemory => {}
        }
    }

    /// Counts a fault of the region that is a rejection.
    pub fn count_rejection(&mut self, at: usize)
        requires { at < length self.old.stations }
        ensures { CountsRejection self.old self.new at }
    {
        count_at(&mut self.faults, at);
        count_at(&mut self.rejections, at);
    }
}
