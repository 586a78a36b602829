//! Links to regions in memory.

ghost use Rattle.std.specs.Prelude.{◌≡◌, [], ◌≤◌, ◌<◌, ℕ, length, map, IfOk, OnOk, OnErr, refl};
ghost use Rattle.ojp_links.specs.Seen.{AreDistinct, IsLive, NoneLive, code_at, region_of_table};
ghost use Rattle.ojp_links.specs.Calls.{Adds, Asks, Closes, Idles, IsNewCode, Looks, MayReject, Rejects, RestsOnce};
ghost use Rattle.ojp_links_mem.specs.Memory.{AddsBy, AsksBy, ClosesBy, GivesBy, IsFresh, IsNewOver, IsScriptedOver, IsUnopenedOver, RejectsBy, Renumbers, RestsBy, links_of};

use crate::pending::{Pending, look_at, region_of, rest_all};
use crate::regions::{
    Address, Region, answering, count_fault, count_look, count_rejection, number_of, regions_of,
    rests_of, tells_with,
};
use crate::script::{Script, What, said_by};
use crate::server::{Server, asked, servers_of};
use crate::sorting::sort_tables;
use ojp_links::{AskRefused, Expect, Links, More, PacedLinks, Runtime, Sub, WaitLinks};
use ojp_timetable::Timetable;
use ojp_values::{Code, NoMemory};
use slab::Slab;
use std::alloc::Global;
use std::collections::BTreeMap;
use std::marker::Model;

/// Regions in memory: each ask is answered at once by the region's own server, and its reply becomes ready
/// after as many rests as its number and the order say.
#[derive(Drop)]
pub struct MemLinks {
    alloc: Global,
    /// The timetables that answer, in rising order of their codes.
    servers: Vec<Server>,
    regions: Vec<Region>,
    script: BTreeMap<u64, What>,
    asks: Slab<Pending>,
    /// At least as many rests as any live ask still needs.
    patience: u64,
    order: u64,
    most: usize,
    made: u64,
    rested: u64,
    tells_servers: bool,
    tells_order: bool,
}

impl Model for MemLinks {
    ghost use Rattle.ojp_links_mem.specs.Memory.{MemView};

    ghost Value = { MemView };

    ghost use Rattle.ojp_links_mem.specs.Kept.{IsWhole, view_of};

    ghost view = { view_of };

    ghost invariant = { IsWhole };
}

impl MemLinks {
    /// Links to the regions of these timetables, in rising order of their codes. A look gives at most `most`
    /// bytes, or all where that is 0.
    pub fn new(
        alloc: Global,
        tables: Vec<Timetable>,
        order: u64,
        most: usize,
    ) -> Result<MemLinks, NoMemory>
        requires distinct { AreDistinct (map region_of_table tables.items) }
        requires low { order ≤ 10 }
        ensures { IfOk result (IsNewOver tables.items order most) }
    {
        let mut tables = tables;
        sort_tables(&mut tables);
        let servers = servers_of(alloc, tables)?;
        let regions = regions_of(alloc, &servers)?;
        let script = BTreeMap::new(alloc);
        let asks = Slab::new(alloc);
        let tells_order = most == 0;
        Ok(MemLinks {
            alloc,
            servers,
            regions,
            script,
            asks,
            patience: 0,
            order,
            most,
            made: 0,
            rested: 0,
            tells_servers: true,
            tells_order,
        })
    }

    /// As `new`, but the asks that the script names fail or have replies as it says.
    pub fn scripted(
        alloc: Global,
        tables: Vec<Timetable>,
        order: u64,
        most: usize,
        script: Vec<Script>,
    ) -> Result<MemLinks, NoMemory>
        requires distinct { AreDistinct (map region_of_table tables.items) }
        requires low { order ≤ 10 }
        ensures { IfOk result (IsScriptedOver tables.items order most script.items) }
    {
        let mut tables = tables;
        sort_tables(&mut tables);
        let servers = servers_of(alloc, tables)?;
        let regions = regions_of(alloc, &servers)?;
        let said = said_by(alloc, script)?;
        let asks = Slab::new(alloc);
        Ok(MemLinks {
            alloc,
            servers,
            regions,
            script: said,
            asks,
            patience: 0,
            order,
            most,
            made: 0,
            rested: 0,
            tells_servers: false,
            tells_order: false,
        })
    }

    /// Links to no region yet. One that is added is answered by the timetable whose code is its host.
    pub fn unopened(alloc: Global, tables: Vec<Timetable>, order: u64) -> Result<MemLinks, NoMemory>
        requires distinct { AreDistinct (map region_of_table tables.items) }
        requires low { order ≤ 10 }
        ensures { IfOk result (IsUnopenedOver tables.items order) }
    {
        let mut tables = tables;
        sort_tables(&mut tables);
        let servers = servers_of(alloc, tables)?;
        let regions = Vec::new(alloc);
        let script = BTreeMap::new(alloc);
        let asks = Slab::new(alloc);
        Ok(MemLinks {
            alloc,
            servers,
            regions,
            script,
            asks,
            patience: 0,
            order,
            most: 0,
            made: 0,
            rested: 0,
            tells_servers: true,
            tells_order: false,
        })
    }

    /// Links to no region, of no timetable; it takes no memory.
    pub(crate) fn bare(alloc: Global) -> MemLinks
        ensures no_region { (links_of result).fixed.stations ≡ [] }
        ensures fresh { IsFresh result }
    {
        let servers = Vec::new(alloc);
        let regions = Vec::new(alloc);
        let script = BTreeMap::new(alloc);
        let asks = Slab::new(alloc);
        MemLinks {
            alloc,
            servers,
            regions,
            script,
            asks,
            patience: 0,
            order: 0,
            most: 0,
            made: 0,
            rested: 0,
            tells_servers: true,
            tells_order: false,
        }
    }

    /// Counts asks from 1 again, in the new order.
    pub fn renumber(&mut self, order: u64)
        requires none_live { NoneLive (links_of self.old) }
        requires low { order ≤ 10 }
        ensures { Renumbers self.old self.new order }
    {
        self.order = order;
        self.made = 0;
    }

    /// How often `rest` was called; the count stays at its last value.
    pub fn rests(&self) -> u64
        ensures { result ≡ self.now.rested }
    {
        self.rested
    }
}

impl Links for MemLinks {
    ghost seen = { links_of };

    fn regions(&self) -> usize {
        self.regions.len()
    }

    fn code(&self, region: usize) -> Code {
        self.regions[region].code
    }

    fn is_sound(&self) {
        let _ = &self.order;
    }

    fn ask(&mut self, region: usize, request: &[u8]) -> Result<Sub, AskRefused>
        requires { region < length (links_of self.old).fixed.stations }
        ensures asks { Asks (links_of self.old) (links_of self.new) region request.now result }
        ensures by { AsksBy self.old self.new region request.now result }
    {
        let made = self.made.saturating_add(1);
        let Some(number) = answering(&self.script, made, &self.regions, region) else {
            self.made = made;
            count_fault(&mut self.regions, region);
            return Err(AskRefused::Failed);
        };
        let rests = rests_of(self.order, made);
        let said = self.script.get(&made);
        let Ok(pending) = asked(
            self.alloc,
            &mut self.servers,
            number,
            said,
            region,
            request,
            rests,
        ) else {
            return Err(AskRefused::NoMemory);
        };
        let Ok(key) = self.asks.insert(pending) else {
            return Err(AskRefused::NoMemory);
        };
        self.made = made;
        self.patience = self.patience.max(rests);
        Ok(Sub { key })
    }

    fn more(&mut self, sub: &Sub) -> More
        requires { IsLive (links_of self.old) sub.now.key }
        ensures looks { Looks (links_of self.old) (links_of self.new) sub.now.key result }
        ensures by { GivesBy self.old self.new sub.now.key result }
    {
        let most = self.most;
        let region = region_of(&self.asks, sub.key);
        let answer = look_at(&mut self.asks, sub.key, most);
        count_look(&mut self.regions, region, answer);
        answer
    }

    fn bytes(&self, sub: &Sub) -> &[u8] {
        let ask = &self.asks[sub.key];
        &ask.reply[..ask.taken]
    }

    fn close(&mut self, sub: Sub)
        requires { IsLive (links_of self.old) sub.key }
        ensures closes { Closes (links_of self.old) (links_of self.new) sub.key }
        ensures by { ClosesBy self.old self.new }
    {
        self.asks.remove(sub.key);
    }

    fn reject(&mut self, sub: Sub, expect: &Expect)
        requires { MayReject (links_of self.old) sub.key expect.now }
        ensures rejects { Rejects (links_of self.old) (links_of self.new) sub.key }
        ensures by { RejectsBy self.old self.new sub.key }
    {
        let _ = expect;
        let ask = self.asks.remove(sub.key);
        count_rejection(&mut self.regions, ask.region);
    }
}

impl PacedLinks for MemLinks {
    fn rest(&mut self)
        ensures rests { RestsOnce (links_of self.old) (links_of self.new) }
        ensures by { RestsBy self.old self.new }
    {
        rest_all(&mut self.asks);
        self.patience = self.patience.saturating_sub(1);
        self.rested = self.rested.saturating_add(1);
    }

    ghost patient = { λ l. refl };
}

impl WaitLinks for MemLinks {
    fn add(&mut self, code: Code, host: &str, port: u16) -> Result<(), NoMemory>
        requires { IsNewCode (links_of self.old) code }
        ensures ok { OnOk result (Adds (links_of self.old) (links_of self.new) code host.now port) }
        ensures err { OnErr result (links_of self.new ≡ links_of self.old) }
        ensures by { OnOk result (AddsBy self.old self.new host.now) }
    {
        let table = number_of(&self.servers, host);
        let Ok(host) = String::from_str(self.alloc, host) else {
            return Err(NoMemory);
        };
        let region = Region {
            code,
            address: Some(Address { host, port }),
            table,
            faults: 0,
            rejections: 0,
        };
        let Ok(()) = self.regions.push(region) else {
            return Err(NoMemory);
        };
        self.tells_servers = tells_with(self.tells_servers, table);
        self.tells_order = false;
        Ok(())
    }

    fn wait<R: Runtime>(&mut self, rt: &mut R)
        ensures idles { Idles (links_of self.old) (links_of self.new) }
        ensures by { RestsBy self.old self.new }
    {
        let _ = rt;
        self.rest();
    }
}
