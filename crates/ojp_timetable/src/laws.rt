//! Laws of the definitions, each the contract of a function with nothing to do.

ghost use Rattle.ojp_timetable.specs.Bounds.{AnswersAreBounded};
ghost use Rattle.ojp_timetable.specs.Examples.{ChangeIsExact, DayIsExact, FaultsAreNamed, OutAndBackIsNone, PointsAreListed, RideIsAJourney};
ghost use Rattle.ojp_timetable.specs.Journeys.{LegsAreBounded};
ghost use Rattle.ojp_timetable.specs.SaidLines.{AboveIsAsSaid, TablesAreAsSaid};
ghost use Rattle.ojp_timetable.specs.Stepwise.{FormsAgree};
ghost use Rattle.ojp_timetable.specs.TextLaws.{DaysAreSpelled, PointsAreWell, RefusalIsOne, TableIsOne, TextIsNotRefused};

/// A ride of a small timetable is a journey of its region, and of the regions together.
pub fn ride_is_a_journey()
    ensures { RideIsAJourney }
{}

/// A journey ends at most a day after its start, to the second.
pub fn day_is_exact()
    ensures { DayIsExact }
{}

/// The time for a change within a region is exact to the second.
pub fn change_is_exact()
    ensures { ChangeIsExact }
{}

/// Rides out of an exchange point and back to it are no part of a journey.
pub fn out_and_back_is_none()
    ensures { OutAndBackIsNone }
{}

/// The faults that a region answers with, by a small timetable.
pub fn faults_are_named()
    ensures { FaultsAreNamed }
{}

/// A united journey that is told by its flat rules, or leg by leg, is the same.
pub fn forms_agree()
    ensures { FormsAgree }
{}

/// A journey of one region has no more legs than a document may have.
pub fn legs_are_bounded()
    ensures { LegsAreBounded }
{}

/// The answer of a region to a trip request is within the limits of a document.
pub fn answers_are_bounded()
    ensures { AnswersAreBounded }
{}

/// A file is refused at one line and for one reason.
pub fn refusal_is_one()
    ensures { RefusalIsOne }
{}

/// The text of a timetable is not refused.
pub fn text_is_not_refused()
    ensures { TextIsNotRefused }
{}

/// A text is that of one timetable.
pub fn table_is_one()
    ensures { TableIsOne }
{}

/// The exchange points that a text declares are those of its region, at most 255, and rise by
/// reference; the neighbours of each are at most 31 and rise by code, none being the region itself;
/// and each change time is from 1 to 7,200 seconds.
pub fn points_are_well()
    ensures { PointsAreWell }
{}

/// The gateway lists the entries of all regions at an exchange point, by their codes.
pub fn points_are_listed()
    ensures { PointsAreListed }
{}

/// The days of services are spelled as those of documents are.
pub fn days_are_spelled()
    ensures { DaysAreSpelled }
{}

/// The places, services and journeys of a timetable are those that the lines of its text declare, in
/// their order, each journey with the calls behind it.
pub fn tables_are_as_said()
    ensures { TablesAreAsSaid }
{}

/// A place, a service or a journey stands above a line exactly where a line above declares it.
pub fn above_is_as_said()
    ensures { AboveIsAsSaid }
{}
