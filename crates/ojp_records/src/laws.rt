//! What a search may conclude from its record, whatever was told: laws of the definitions alone.

ghost use Rattle.ojp_records.specs.Laws.{BestIsChained, ChainsAreJourneys, EndIsRight, StartsFall, BestFalls, NeverAgain, PairsAreListed, BooksAreInOrder, WantedIsOpen, FailureDropsOne, TargetsAreFew, NextIsFirst, AskedStartsFall, StartsAreLow, WantedStartsAreWithin, OpenIsSure};

/// The end of a search is right, whatever was told and in whatever order.
///
/// Where the record was told in turn, its replies fit, the regions of the book gave them by their timetables, and
/// nothing is wanted any more: a trip ends at the earliest arrival of all united journeys, `NoTrip` means that
/// there is no united journey, `StopUnknown` that the stop is no place, and `RegionFailed` names a region of which
/// a failure stands.
pub fn end_is_right()
    ensures { EndIsRight }
{}

/// As the record grows, the least known start of a pair only falls.
pub fn starts_fall()
    ensures { StartsFall }
{}

/// As the record grows, the best arrival only falls.
pub fn best_falls()
    ensures { BestFalls }
{}

/// A query that was wanted and no longer is, is never wanted again.
pub fn never_again()
    ensures { NeverAgain }
{}

/// Where the record has a best arrival, trips of it are chained that end then, whatever fitting replies were told.
pub fn best_is_chained()
    ensures { BestIsChained }
{}

/// Legs that are chained from the trips of a record are a united journey, where the regions of the book gave the
/// replies of the record by their timetables.
pub fn chains_are_journeys()
    ensures { ChainsAreJourneys }
{}

/// What is wanted of the pairs is listed once each, rising by stop and region, and nothing else is listed.
pub fn pairs_are_listed()
    ensures { PairsAreListed }
{}

/// The book of well timetables has its spots in order, each at an exchange point.
pub fn books_are_in_order()
    ensures { BooksAreInOrder }
{}

/// A wanted query is open: it was not told.
pub fn wanted_is_open()
    ensures { WantedIsOpen }
{}

/// Where a wanted query fails, just it is wanted no more.
pub fn failure_drops_one()
    ensures { FailureDropsOne }
{}

/// A pair that can improve has 1 to 256 targets, as many as a document may ask for.
pub fn targets_are_few()
    ensures { TargetsAreFew }
{}

/// What is asked next is the first wanted query that is not live; where there is none, all are live.
pub fn next_is_first()
    ensures { NextIsFirst }
{}

/// Where a pair is wanted at one start and later at another one, the later one is less.
pub fn asked_starts_fall()
    ensures { AskedStartsFall }
{}

/// No start is known before the asked one, whatever fitting replies were told.
pub fn starts_are_low()
    ensures { StartsAreLow }
{}

/// A start at which a pair is wanted is within the requested day, whatever fitting replies were told.
pub fn wanted_starts_are_within()
    ensures { WantedStartsAreWithin }
{}

/// A region is sure of the subrequest of each open query, where the regions of the book gave the replies by their
/// timetables: it has each place that is asked for, and no target is the stop that is asked from.
pub fn open_is_sure()
    ensures { OpenIsSure }
{}
