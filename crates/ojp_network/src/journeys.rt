//! The journeys of a region.

ghost use Rattle.std.specs.Prelude.{◌≡◌, ◌+◌, ◌*◌, ◌++◌, ◌≤◌, ◌<◌, codes, OnOk, IfOk, Some, None};
ghost use Rattle.std.specs.List.{flat_map};
ghost use Rattle.ojp_lines.specs.Lines.{call_text};
ghost use Rattle.ojp_network.specs.Draws.{below, drawn_from, next_state, state_after};
ghost use Rattle.ojp_network.specs.Regions.{arrives_behind, calls, departs_at, first_call, journey, journeys, last_call, middle_call, stop_at, text_of_call, text_of_journey};

use crate::draws::Draws;
use crate::ring::{higher_point, lower_point};
use crate::texts::{journey_label, line_label, own_stop, shared_stop};
use ojp_lines::{put_call, put_journey};
use ojp_values::NoMemory;

// Writes the line of a call at one of the 32 stops of a region: its own ones, then its exchange points.
fn put_call_at(
    out: &mut Vec<u8>,
    region: u64,
    stop: u64,
    arrives: Option<u64>,
    departs: Option<u64>,
) -> Result<(), NoMemory>
    requires low { 1 ≤ region }
    requires few { stop < 32 }
    ensures { OnOk result (out.new.items ≡ out.old.items ++ call_text (stop_at region stop) arrives departs) }
{
    if stop < 30 {
        put_call(out, &own_stop(region, stop + 1), arrives, departs)
    } else if stop == 30 {
        put_call(out, &shared_stop(lower_point(region)), arrives, departs)
    } else {
        put_call(out, &shared_stop(higher_point(region)), arrives, departs)
    }
}

// Writes the six calls of a journey.
fn put_calls(out: &mut Vec<u8>, draws: &mut Draws, region: u64) -> Result<(), NoMemory>
    requires low { 1 ≤ region }
    ensures text { OnOk result (out.new.items ≡ out.old.items ++ flat_map text_of_call (calls draws.old.state region)) }
    ensures drawn { OnOk result (draws.new.state ≡ state_after draws.old.state 16) }
{
    let mut departs = 14_400 + 60 * draws.below(1_200);
    let stop = draws.below(32);
    put_call_at(out, region, stop, None, Some(departs))?;
    for _k in 0..4u64 {
        let arrives = departs + 60 * (1 + draws.below(20));
        let stop = draws.below(32);
        departs = arrives + 60 * draws.below(3);
        put_call_at(out, region, stop, Some(arrives), Some(departs))?;
    }
    let arrives = departs + 60 * (1 + draws.below(20));
    let stop = draws.below(32);
    put_call_at(out, region, stop, Some(arrives), None)
}

/// Writes the journeys of a region.
pub fn put_journeys(out: &mut Vec<u8>, draws: &mut Draws, region: u64) -> Result<(), NoMemory>
    requires low { 1 ≤ region }
    ensures text { OnOk result (out.new.items ≡ out.old.items ++ flat_map text_of_journey (journeys draws.old.state region)) }
    ensures drawn { OnOk result (draws.new.state ≡ state_after draws.old.state 1920) }
{
    for k in 0..120u64 {
        put_journey(out, &journey_label(k + 1), b"D", &line_label(k + 1))?;
        put_calls(out, draws, region)?;
    }
    Ok(())
}
