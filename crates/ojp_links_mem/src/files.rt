//! Links to the regions of files.

ghost use Rattle.std.specs.Prelude.{◌≡◌, ◌<◌, ◌≤◌, false, length, refl};
ghost use Rattle.ojp_links.specs.Seen.{IsLive, NoneLive};
ghost use Rattle.ojp_links.specs.Calls.{Asks, Closes, Looks, MayReject, Rejects, RestsOnce};
ghost use Rattle.ojp_links_mem.specs.Memory.{AsksBy, ClosesBy, GivesBy, RejectsBy, RestsBy};
ghost use Rattle.ojp_links_mem.specs.Files.{HasReadNone, OpenEnds, ReadEnds, RenumbersFiles, SameFiles, StaysShut, files_seen, links_seen};

use crate::memory::MemLinks;
use crate::twice::twice_in;
use ojp_links::{AskRefused, Expect, Links, More, PacedLinks, Sub};
use ojp_outside::Store;
use ojp_region::{FileRefused, read_table};
use ojp_timetable::Timetable;
use ojp_values::Code;
use std::alloc::Global;
use std::mem;

/// Why links were not opened.
#[derive(Clone, Copy, Debug, PartialEq, Eq)]
pub enum OpenRefused {
    /// Two timetables are of the region with this code; it is the least such code.
    TwiceRegion(Code),
    /// Memory ran out; no timetable is kept.
    NoMemory,
}

/// Links to the regions whose timetables are read from files. They have no region before they are open.
#[derive(Drop)]
pub struct FileLinks<F: Store + Drop> {
    alloc: Global,
    store: F,
    /// The timetables read, before the links are open.
    tables: Vec<Timetable>,
    is_open: bool,
    links: MemLinks,
}

impl<F: Store + Drop> FileLinks<F> {
    /// Links to no region yet; it takes no memory.
    pub fn new(alloc: Global, store: F) -> FileLinks<F>
        ensures none { HasReadNone (files_seen F.seen result) }
        ensures store { F.seen result.store ≡ F.seen store }
    {
        let tables = Vec::new(alloc);
        let links = MemLinks::bare(alloc);
        FileLinks {
            alloc,
            store,
            tables,
            is_open: false,
            links,
        }
    }

    /// Reads a timetable's file, and gives the code of its region.
    pub fn read(&mut self, name: &str) -> Result<Code, FileRefused>
        requires { self.old.is_open ≡ false }
        ensures ends { ReadEnds name.now (files_seen F.seen self.old) (files_seen F.seen self.new) result }
        ensures shut { StaysShut (files_seen F.seen self.old) (files_seen F.seen self.new) }
    {
        let table = read_table(self.alloc, name, &mut self.store)?;
        let code = table.region();
        let Ok(()) = self.tables.push(table) else {
            return Err(FileRefused::NoMemory);
        };
        Ok(code)
    }

    /// Opens the links to the regions of the timetables that were read, in rising order of their codes.
    pub fn open(&mut self) -> Result<(), OpenRefused>
        requires { self.old.is_open ≡ false }
        ensures { OpenEnds (files_seen F.seen self.old) (files_seen F.seen self.new) result }
    {
        let none = Vec::new(self.alloc);
        let Ok(twice) = twice_in(self.alloc, &self.tables) else {
            self.tables = none;
            return Err(OpenRefused::NoMemory);
        };
        if let Some(code) = twice {
            return Err(OpenRefused::TwiceRegion(code));
        }
        let tables = mem::replace(&mut self.tables, none);
        let Ok(links) = MemLinks::new(self.alloc, tables, 0, 0) else {
            return Err(OpenRefused::NoMemory);
        };
        self.links = links;
        self.is_open = true;
        Ok(())
    }

    /// Counts asks from 1 again, in the new order.
    pub fn renumber(&mut self, order: u64)
        requires none_live { NoneLive (links_seen self.old) }
        requires low { order ≤ 10 }
        ensures { RenumbersFiles (files_seen F.seen self.old) (files_seen F.seen self.new) order }
    {
        self.links.renumber(order);
    }
}

impl<F: Store + Drop> Links for FileLinks<F> {
    ghost seen = { links_seen };

    fn regions(&self) -> usize {
        self.links.regions()
    }

    fn code(&self, region: usize) -> Code {
        self.links.code(region)
    }

    fn is_sound(&self) {
        self.links.is_sound();
    }

    fn ask(&mut self, region: usize, request: &[u8]) -> Result<Sub, AskRefused>
        requires { region < length (links_seen self.old).fixed.stations }
        ensures asks { Asks (links_seen self.old) (links_seen self.new) region request.now result }
        ensures by { AsksBy self.old.links self.new.links region request.now result }
        ensures files { SameFiles (files_seen F.seen self.old) (files_seen F.seen self.new) }
    {
        self.links.ask(region, request)
    }

    fn more(&mut self, sub: &Sub) -> More
        requires { IsLive (links_seen self.old) sub.now.key }
        ensures looks { Looks (links_seen self.old) (links_seen self.new) sub.now.key result }
        ensures by { GivesBy self.old.links self.new.links sub.now.key result }
        ensures files { SameFiles (files_seen F.seen self.old) (files_seen F.seen self.new) }
    {
        self.links.more(sub)
    }

    fn bytes(&self, sub: &Sub) -> &[u8] {
        self.links.bytes(sub)
    }

    fn close(&mut self, sub: Sub)
        requires { IsLive (links_seen self.old) sub.key }
        ensures closes { Closes (links_seen self.old) (links_seen self.new) sub.key }
        ensures by { ClosesBy self.old.links self.new.links }
        ensures files { SameFiles (files_seen F.seen self.old) (files_seen F.seen self.new) }
    {
        self.links.close(sub);
    }

    fn reject(&mut self, sub: Sub, expect: &Expect)
        requires { MayReject (links_seen self.old) sub.key expect.now }
        ensures rejects { Rejects (links_seen self.old) (links_seen self.new) sub.key }
        ensures by { RejectsBy self.old.links self.new.links sub.key }
        ensures files { SameFiles (files_seen F.seen self.old) (files_seen F.seen self.new) }
    {
        self.links.reject(sub, expect);
    }
}

impl<F: Store + Drop> PacedLinks for FileLinks<F> {
    fn rest(&mut self)
        ensures rests { RestsOnce (links_seen self.old) (links_seen self.new) }
        ensures by { RestsBy self.old.links self.new.links }
        ensures files { SameFiles (files_seen F.seen self.old) (files_seen F.seen self.new) }
    {
        self.links.rest();
    }

    ghost patient = { λ l. refl };
}
