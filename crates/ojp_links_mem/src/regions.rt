//! Regions that can be asked, with their counts.

ghost use Rattle.std.specs.Prelude.{◌≡◌, ◌<◌, ◌≤◌, ◌&&◌, IfOk, IfSome, is_some, length, slice_get};
ghost use Rattle.ojp_values.specs.Texts.{same};
ghost use Rattle.ojp_links.specs.Seen.{rests_needed};
ghost use Rattle.ojp_links_mem.specs.Memory.{CountsLook, IsNumberOf, said_in, table_number};
ghost use Rattle.ojp_links_mem.specs.Regions.{ChangesAt, DoesNotFall, faulted, regions_from, rejected};
ghost use Rattle.ojp_links_mem.specs.Scripts.{answering};

use crate::script::What;
use crate::server::Server;
use ojp_links::More;
use ojp_values::{Code, NoMemory};
use std::alloc::Global;
use std::collections::BTreeMap;

/// Where a region was added.
#[derive(Drop)]
pub(crate) struct Address {
    pub host: String,
    pub port: u16,
}

/// A region that can be asked.
#[derive(Drop)]
pub(crate) struct Region {
    pub code: Code,
    /// None where no call added it.
    pub address: Option<Address>,
    /// The number of the timetable that answers, if there is one.
    pub table: Option<usize>,
    pub faults: u64,
    pub rejections: u64,
}

/// The regions of the timetables, in their order.
pub(crate) fn regions_of(alloc: Global, servers: &[Server]) -> Result<Vec<Region>, NoMemory>
    ensures { IfOk result (λ regions. regions.items ≡ regions_from 0 servers.now) }
{
    let mut regions = Vec::new(alloc);
    'servers: for server in servers {
        let region = Region {
            code: server.code(),
            address: None,
            table: Some(regions.len()),
            faults: 0,
            rejections: 0,
        };
        let Ok(()) = regions.push(region) else {
            return Err(NoMemory);
        };
    }
    Ok(regions)
}

/// The number of the timetable that answers the ask with the number, unless it fails at once.
pub(crate) fn answering(
    script: &BTreeMap<u64, What>,
    ask: u64,
    regions: &[Region],
    region: usize,
) -> Option<usize>
    requires { region < length regions.now }
    ensures { result ≡ answering (said_in script.now.entries ask) (table_number (slice_get regions.now region)) }
{
    match script.get(&ask) {
        Some(What::FailAsk) => None,
        _ => regions[region].table,
    }
}

/// Counts a fault of the region.
pub(crate) fn count_fault(regions: &mut Vec<Region>, at: usize)
    requires { at < length regions.old.items }
    ensures changes { ChangesAt faulted regions.old.items regions.new.items at }
    ensures later { IfSome (slice_get regions.old.items at) DoesNotFall }
{
    let region = &mut regions[at];
    region.faults = region.faults.saturating_add(1);
}

/// Counts a fault of the region that is a rejection.
pub(crate) fn count_rejection(regions: &mut Vec<Region>, at: usize)
    requires { at < length regions.old.items }
    ensures changes { ChangesAt rejected regions.old.items regions.new.items at }
    ensures later { IfSome (slice_get regions.old.items at) DoesNotFall }
{
    let region = &mut regions[at];
    region.faults = region.faults.saturating_add(1);
    region.rejections = region.rejections.saturating_add(1);
}

/// Counts a fault of the region where the look failed.
pub(crate) fn count_look(regions: &mut Vec<Region>, at: usize, answer: More)
    requires { at < length regions.old.items }
    ensures counts { CountsLook answer regions.old.items regions.new.items at }
    ensures later { answer ≡ More.Failed → IfSome (slice_get regions.old.items at) DoesNotFall }
{
    match answer {
        More::Failed => count_fault(regions, at),
        More::Got => {}
        More::NotYet => {}
        More::End => {}
        More::NoMemory => {}
    }
}

/// Whether timetables are told with one more region, which this one answers.
pub(crate) fn tells_with(tells: bool, table: Option<usize>) -> bool
    ensures { result ≡ (tells && is_some table) }
{
    tells && table.is_some()
}

/// How many rests the ask with this number needs, by the order in which replies become ready.
pub(crate) fn rests_of(order: u64, number: u64) -> u64
    requires { order ≤ 10 }
    ensures { result ≡ rests_needed order number }
{
    ((u128::from(number) * 7 + u128::from(order)) % 11) as u64 + 1
}

/// Whether the server's region has the code.
#[tactic(auto, unfolding(ojp_values::specs::Texts::same))]
fn has_code(server: &Server, code: &str) -> bool
    ensures { result ≡ same server.now.region code.now }
{
    server.code().text() == code.as_bytes()
}

/// The number of the timetable whose region has this code.
pub(crate) fn number_of(servers: &[Server], code: &str) -> Option<usize>
    ensures { IsNumberOf servers.now code.now result }
{
    'servers: for number in 0..servers.len() {
        if has_code(&servers[number], code) {
            return Some(number);
        }
    }
    None
}
