//! The legs of rides.

ghost use Rattle.std.specs.Prelude.{◌≡◌};
ghost use Rattle.ojp_timetable.specs.Runs.{IsWell};
ghost use Rattle.ojp_scan.specs.Walks.{AreEnds, leg_between};

use crate::views::{call_at, journey_at};
use ojp_sweep::Connection;
use ojp_timetable::Timetable;
use ojp_values::{Day, Leg};

/// The last leg of a journey, and the number of the place where it is boarded.
#[derive(Clone, Copy, Debug)]
pub struct LastLeg {
    pub leg: Leg,
    pub from: usize,
}

/// The leg on the day that boards at the one hop and alights at the end of the other, with the names of its stops.
pub fn leg_of(table: &Timetable, day: Day, first: &Connection, last: &Connection) -> Leg
    requires well { IsWell table.now }
    requires ends { AreEnds table.now first.now last.now }
    ensures { (ends : AreEnds table.now first.now last.now) → result ≡ leg_between table.now day first.now last.now ends }
{
    let journey = journey_at(table, first.journey as usize);
    let board = call_at(table, first.journey as usize, first.position as usize);
    let alight = call_at(table, last.journey as usize, last.position as usize + 1);
    Leg {
        region: table.region(),
        journey: journey.id,
        line: journey.line,
        day,
        board: board.stop,
        board_name: table.name(board.stop).unwrap(),
        departs: table.moment(day, first.departs),
        alight: alight.stop,
        alight_name: table.name(alight.stop).unwrap(),
        arrives: table.moment(day, last.arrives),
    }
}
