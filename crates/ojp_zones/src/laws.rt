//! Laws of days and numbers, each the contract of a function with nothing to do.

ghost use Rattle.ojp_zones.specs.Laws.{DaysAreCounted, NumbersAreDecimal};

/// The days of five dates, counted from 1970-01-01.
pub fn days_are_counted()
    ensures { DaysAreCounted }
{}

/// The numbers of a timetable are spelled as those of a document are.
pub fn numbers_are_decimal()
    ensures { NumbersAreDecimal }
{}
