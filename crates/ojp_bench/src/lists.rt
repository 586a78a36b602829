//! The exchange points of many regions.

ghost use Rattle.std.specs.Prelude.{IfSome};
ghost use Rattle.ojp_timetable.specs.Points.{AreWellPoints};
ghost use Rattle.ojp_exchange.specs.Joins.{AreWellLists};

use ojp_exchange::{RegionPoints, points_of};
use ojp_timetable::Timetable;
use std::alloc::Global;

/// As many regions as a book may have.
const REGIONS: u32 = 32;

/// How many regions share a point.
const SHARE: u32 = 4;

/// The lists of all regions, where so many points are shared.
pub fn lists(alloc: Global, points: u32) -> Option<Vec<RegionPoints>>
    ensures { IfSome result (λ lists. AreWellLists lists.items) }
{
    let mut lists = Vec::new(alloc);
    'regions: for region in 0..REGIONS {
        let text = text(alloc, region, points)?;
        add(alloc, &mut lists, text.as_slice())?;
    }
    Some(lists)
}

/// Adds what the timetable of the text declares.
fn add(alloc: Global, lists: &mut Vec<RegionPoints>, text: &[u8]) -> Option<()>
    requires { AreWellLists lists.old.items }
    ensures { IfSome result (λ _. AreWellLists lists.new.items) }
{
    let list = list_of(alloc, text)?;
    lists.push(list).ok()
}

/// What the timetable of the text declares.
fn list_of(alloc: Global, text: &[u8]) -> Option<RegionPoints>
    ensures { IfSome result (λ list. AreWellPoints list.code list.points) }
{
    let Ok(table) = Timetable::read(alloc, text) else {
        return None;
    };
    table.is_well();
    let code = table.region();
    let declared = points_of(alloc, &table, None);
    drop(table);
    match declared {
        Ok(points) => Some(RegionPoints { code, points }),
        Err(_) => None,
    }
}

/// Whether the region is one of those that share the point.
fn shares(region: u32, point: u32) -> bool {
    (region % REGIONS + REGIONS - point % REGIONS) % REGIONS < SHARE
}

/// A timetable of the region with its points and its neighbours there.
fn text(alloc: Global, region: u32, points: u32) -> Option<Vec<u8>> {
    let mut lines = Vec::new(alloc);
    let head = format!(in alloc; "ojp-timetable 1\nregion R{region:02}\nzone +00:00\n").ok()?;
    lines.extend_from_slice(head.as_bytes()).ok()?;
    for point in 0..points {
        if shares(region, point) {
            add_point(alloc, &mut lines, region, point)?;
        }
    }
    Some(lines)
}

/// Adds the lines of the point.
fn add_point(alloc: Global, lines: &mut Vec<u8>, region: u32, point: u32) -> Option<()> {
    let line = format!(in alloc; "exchange x:p{point:04} 60 Point {point}\n").ok()?;
    lines.extend_from_slice(line.as_bytes()).ok()?;
    for other in 0..REGIONS {
        if other != region && shares(other, point) {
            let line = format!(in alloc; "neighbour x:p{point:04} R{other:02} 60\n").ok()?;
            lines.extend_from_slice(line.as_bytes()).ok()?;
        }
    }
    Some(())
}
