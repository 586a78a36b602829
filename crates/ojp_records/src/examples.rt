//! Small networks, computed by the definitions: what a search wants at each step, and how it ends.

ghost use Rattle.ojp_records.specs.LimitExamples.{ChangeDecides, DayIsExact, BestIsExact, LeastCodeIsNamed, UnknownOriginEnds, DocumentsAsk};
ghost use Rattle.ojp_records.specs.OneRegion.{PremisesAreMet};
ghost use Rattle.ojp_records.specs.Examples.{LaterArrivalWins, OutAndBack, PointToPoint, FailureIsSuperseded, ChangeIsExact, PlacesAreChecked, LaterStartsAreDropped};

/// An arrival that is later at an exchange point may have the shorter time for the change.
pub fn later_arrival_wins()
    ensures { LaterArrivalWins }
{}

/// A trip within one region may be quicker by another region.
pub fn out_and_back()
    ensures { OutAndBack }
{}

/// Between exchange points no place is checked, and each region that serves them is asked.
pub fn point_to_point()
    ensures { PointToPoint }
{}

/// A failure stands no longer once an earlier start is known; the failure at that start does.
pub fn failure_is_superseded()
    ensures { FailureIsSuperseded }
{}

/// The time for a change is exact to the second.
pub fn change_is_exact()
    ensures { ChangeIsExact }
{}

/// Places are checked by their own regions, and the end names the one that is unknown.
pub fn places_are_checked()
    ensures { PlacesAreChecked }
{}

/// What can't lead to an earlier arrival any more is wanted no more.
pub fn later_starts_are_dropped()
    ensures { LaterStartsAreDropped }
{}

/// A second more for a change leads to the next ride, and the search ends with it.
pub fn change_decides()
    ensures { ChangeDecides }
{}

/// The requested day and the last moment are exact to the second, for starts and for arrivals.
pub fn day_is_exact()
    ensures { DayIsExact }
{}

/// A start at the best arrival is wanted no more.
pub fn best_is_exact()
    ensures { BestIsExact }
{}

/// Of several regions that failed, the one of the least code is named.
pub fn least_code_is_named()
    ensures { LeastCodeIsNamed }
{}

/// An unknown origin ends a search whatever is open.
pub fn unknown_origin_ends()
    ensures { UnknownOriginEnds }
{}

/// What a check and a reach ask; a neighbour that the book lacks leads nowhere.
pub fn documents_ask()
    ensures { DocumentsAsk }
{}

/// Every premise of the law on ends holds of one small region and a record, which ends with a trip.
pub fn premises_are_met()
    ensures { PremisesAreMet }
{}
