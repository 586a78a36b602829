//! The whole network.

ghost use Rattle.std.specs.Prelude.{◌≡◌, IfOk, OnOk};
ghost use Rattle.ojp_network.specs.Draws.{state_after};
ghost use Rattle.ojp_network.specs.Networks.{asks, asks_from, files};

use crate::asks::draw_ask;
use crate::draws::Draws;
use crate::regions::file;
use crate::shapes::{LoadAsk, Network};
use ojp_values::{List, NoMemory};
use std::alloc::Global;

// The files of the regions.
fn draw_files(alloc: Global, draws: &mut Draws) -> Result<List<List<u8>>, NoMemory>
    ensures files { IfOk result (λ drawn. drawn ≡ files draws.old.state) }
    ensures drawn { OnOk result (draws.new.state ≡ state_after draws.old.state 23448) }
{
    let mut drawn = List::new(alloc);
    for k in 0..12u64 {
        let file = file(alloc, draws, k + 1)?;
        match drawn.push(file) {
            Ok(()) => {}
            Err(_) => return Err(NoMemory),
        }
    }
    Ok(drawn)
}

// The asks.
fn draw_asks(alloc: Global, draws: &mut Draws) -> Result<List<LoadAsk>, NoMemory>
    ensures { IfOk result (λ drawn. drawn ≡ asks_from draws.old.state) }
{
    let mut drawn = List::new(alloc);
    for _k in 0..200u64 {
        match drawn.push(draw_ask(draws)) {
            Ok(()) => {}
            Err(_) => return Err(NoMemory),
        }
    }
    Ok(drawn)
}

/// Makes the network of a number: the same number makes the same network. A region's file is a timetable of its 30 stops,
/// its two exchange points and 120 journeys of six calls; the regions stand in a ring. Each of the 200 asks is for a trip
/// between two different stops of any two regions on one day.
///
/// # Errors
///
/// `NoMemory` alone.
pub fn network(alloc: Global, number: u64) -> Result<Network, NoMemory>
    ensures files { IfOk result (λ made. made.files ≡ files number) }
    ensures asks { IfOk result (λ made. made.asks ≡ asks number) }
{
    let mut draws = Draws { state: number };
    let files = draw_files(alloc, &mut draws)?;
    let asks = draw_asks(alloc, &mut draws)?;
    Ok(Network { files, asks })
}
