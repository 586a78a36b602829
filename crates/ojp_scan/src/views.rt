//! The journeys of a timetable and their calls, as the search reads them.

ghost use Rattle.std.specs.Prelude.{◌<◌, length};
ghost use Rattle.ojp_scan.specs.Views.{IsJourneyAt, IsInJourney, IsCallOf};

use ojp_timetable::{Call, JourneyView, Timetable};

/// The journey of that number.
pub fn journey_at(table: &Timetable, i: usize) -> JourneyView
    requires { i < length table.now.journeys }
    ensures { IsJourneyAt table.now i result }
{
    table.journey(i)
}

/// The call at that position, from 0, of the journey of that number.
pub fn call_at(table: &Timetable, i: usize, position: usize) -> Call
    requires { IsInJourney table.now i position }
    ensures { IsCallOf table.now i position result }
{
    table.call(i, position)
}
