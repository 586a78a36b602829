//! The asks of a network.

ghost use Rattle.std.specs.Prelude.{◌≡◌, ◌≤◌, ◌<◌, ◌+◌, IfOk};
ghost use Rattle.ojp_network.specs.Draws.{state_after};
ghost use Rattle.ojp_network.specs.Networks.{apart, load_ask};
ghost use Rattle.ojp_network.specs.Regions.{own_stop};

use crate::draws::Draws;
use crate::shapes::LoadAsk;
use crate::texts::own_stop;
use ojp_values::{Instant, StopRef, TripAsk};

// The own stop of a region, both numbered from 1.
fn stop_of(region: u64, stop: u64) -> StopRef
    requires region_low { 1 ≤ region }
    requires region_high { region ≤ 12 }
    requires stop_low { 1 ≤ stop }
    requires stop_high { stop ≤ 30 }
    ensures { result ≡ own_stop region stop }
{
    match StopRef::from_bytes(&own_stop(region, stop)) {
        Some(stop) => stop,
        None => unreachable!(),
    }
}

// So many seconds from 2024-05-06T00:00:00Z on.
fn moment(seconds: u64) -> Instant
    requires { seconds ≤ 86400 }
    ensures { result ≡ 1_714_953_600 + seconds }
{
    match Instant::new(1_714_953_600 + seconds) {
        Ok(moment) => moment,
        Err(_) => unreachable!(),
    }
}

// The target's stop: the given one, or the next where it is the origin. Stops are numbered from 0 here.
fn apart(from: u64, board: u64, to: u64, given: u64) -> u64
    requires { given < 30 }
    ensures value { result ≡ apart from board to given }
    ensures small { result < 30 }
{
    if from == to && board == given {
        (given + 1) % 30
    } else {
        given
    }
}

/// Draws an ask.
#[tactic(auto, unfolding(crate::specs::Networks::load_ask))]
pub fn draw_ask(draws: &mut Draws) -> LoadAsk
    ensures ask { result ≡ load_ask draws.old.state }
    ensures drawn { draws.new.state ≡ state_after draws.old.state 6 }
{
    let from = draws.below(12);
    let board = draws.below(30);
    let to = draws.below(12);
    let given = draws.below(30);
    let alight = apart(from, board, to, given);
    let start = moment(60 * draws.below(1_440));
    let ask = TripAsk {
        origin: stop_of(from + 1, board + 1),
        start,
        target: stop_of(to + 1, alight + 1),
    };
    LoadAsk {
        ask,
        order: draws.below(11),
    }
}
