//! The command `gateway`: the regions of a file, served together at a port.

ghost use Rattle.std.specs.Prelude.{◌≡◌, [], false};
ghost use Rattle.ojp_links.specs.Seen.{NoneLive};
ghost use Rattle.ojp_steps.specs.Endings.{HasEnding};
ghost use Rattle.ojp_steps.specs.Lent.{lent};
ghost use Rattle.ojp_steps.specs.Serving.{seen_as};
ghost use Rattle.ojp_online.specs.Added.{HasRejectedNoneTold};
ghost use Rattle.ojp_online.specs.Gateways.{GatewayServed, GatewayFails};
ghost use Rattle.ojp_online.specs.Learned.{failure_of_learning};

use crate::adding::add_regions;
use crate::files::read_region_file;
use crate::serving::serve_gateway;
use ojp_gateway::{LearnRefused, learn_waiting};
use ojp_links::{Runtime, WaitLinks};
use ojp_outside::{Doors, Sink, Store};
use ojp_steps::failures::{Failure, failure_of_book};
use ojp_steps::files::failure_of;
use ojp_steps::serving::{Listening, NotServed};
use ojp_values::NoMemory;
use std::alloc::Global;

/// Reads the file of regions, learns their book from their servers, and serves them where the words say.
pub fn gateway<'a, R: Runtime, O: Sink, F: Store, D: Doors, L: WaitLinks>(
    rt: &mut R,
    alloc: Global,
    file: &'a str,
    listening: Listening,
    output: &mut O,
    store: &mut F,
    doors: &mut D,
    links: &mut L,
) -> Result<(), Failure<'a>>
    requires none_out { (D.seen doors.old).is_out ≡ false }
    requires none { (L.seen links.old).fixed.stations ≡ [] }
    requires none_live { NoneLive (L.seen links.old) }
    ensures ends { let lent_store = lent F.seen store.old store.new in
        let lent_output = lent O.seen output.old output.new in
        let lent_doors = lent (λ d. seen_as (D.seen d) (D.faults d)) doors.old doors.new in
        let lent_links = lent L.seen links.old links.new in
        HasEnding (GatewayServed file.now listening.port listening.count lent_store lent_output lent_doors lent_links)
        (GatewayFails file.now listening.port listening.count lent_store lent_output lent_doors lent_links) result }
    ensures none_live { NoneLive (L.seen links.new) }
    ensures rejections { HasRejectedNoneTold (L.seen links.new) }
{
    let regions = match read_region_file(alloc, file, store) {
        Ok(regions) => regions,
        Err(refused) => return Err(failure_of(file, refused)),
    };
    match add_regions(links, regions.as_slice()) {
        Ok(()) => {}
        Err(NoMemory) => return Err(Failure::Memory),
    }
    let book = match learn_waiting(rt, alloc, links) {
        Ok(book) => book,
        Err(refused) => return Err(failure_of_learning(refused)),
    };
    match serve_gateway(rt, alloc, &book, listening, output, doors, links) {
        Ok(()) => Ok(()),
        Err(NotServed::Memory) => Err(Failure::Memory),
        Err(NotServed::Output) => Err(Failure::Output),
        Err(NotServed::Doors) => Err(Failure::Doors),
    }
}

/// The failure of a command that learned no book.
fn failure_of_learning(refused: LearnRefused) -> Failure<'static>
    ensures { result ≡ failure_of_learning refused }
{
    match refused {
        LearnRefused::Region(code) => Failure::Region { code },
        LearnRefused::Book(reason) => failure_of_book(reason),
        LearnRefused::NoMemory => Failure::Memory,
    }
}
