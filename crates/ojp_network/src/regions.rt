//! The timetable of a region.

ghost use Rattle.std.specs.Prelude.{◌≡◌, ◌++◌, ◌≤◌, ◌<◌, codes, OnOk, IfOk};
ghost use Rattle.std.specs.List.{flat_map};
ghost use Rattle.ojp_network.specs.Draws.{state_after};
ghost use Rattle.ojp_network.specs.Regions.{file, own_places, point_text, text_of_place};

use crate::draws::Draws;
use crate::journeys::put_journeys;
use crate::ring::{higher_point, joined_region, lower_point};
use crate::texts::{own_name, own_stop, point_name, region_code, shared_stop};
use ojp_lines::{put_head, put_neighbour, put_place, put_service};
use ojp_values::{List, NoMemory};
use std::alloc::Global;

// Writes the own stops.
fn put_own_places(out: &mut Vec<u8>, draws: &mut Draws, region: u64) -> Result<(), NoMemory>
    ensures text { OnOk result (out.new.items ≡ out.old.items ++ flat_map (text_of_place (codes "stop")) (own_places draws.old.state region)) }
    ensures drawn { OnOk result (draws.new.state ≡ state_after draws.old.state 30) }
{
    for k in 0..30u64 {
        let change = 60 * (1 + draws.below(5));
        put_place(
            out,
            b"stop",
            &own_stop(region, k + 1),
            change,
            &own_name(region, k + 1),
        )?;
    }
    Ok(())
}

// Writes an exchange point, followed at once by its neighbour.
fn put_point(out: &mut Vec<u8>, draws: &mut Draws, region: u64, point: u64) -> Result<(), NoMemory>
    requires low { 1 ≤ region }
    requires high { region ≤ 12 }
    ensures text { OnOk result (out.new.items ≡ out.old.items ++ point_text draws.old.state region point) }
    ensures drawn { OnOk result (draws.new.state ≡ state_after draws.old.state 2) }
{
    let stop = shared_stop(point);
    let code = region_code(joined_region(region, point));
    let change = 60 * (1 + draws.below(5));
    put_place(out, b"exchange", &stop, change, &point_name(point))?;
    let passage = 60 * (1 + draws.below(10));
    put_neighbour(out, &stop, &code, passage)
}

/// The timetable of the region with the number.
pub fn file(alloc: Global, draws: &mut Draws, region: u64) -> Result<List<u8>, NoMemory>
    requires low { 1 ≤ region }
    requires high { region ≤ 12 }
    ensures text { IfOk result (λ text. text ≡ file draws.old.state region) }
    ensures drawn { OnOk result (draws.new.state ≡ state_after draws.old.state 1954) }
{
    let mut out = Vec::new(alloc);
    put_head(&mut out, &region_code(region), b"+00:00")?;
    put_own_places(&mut out, draws, region)?;
    put_point(&mut out, draws, region, lower_point(region))?;
    put_point(&mut out, draws, region, higher_point(region))?;
    put_service(&mut out, b"D", b"2024-01-01", b"2024-12-31", b"1111111")?;
    put_journeys(&mut out, draws, region)?;
    Ok(List::from_items(out))
}
