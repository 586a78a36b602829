//! Laws of the definitions, each the contract of a function with nothing to do.

ghost use Rattle.ojp_regions.specs.Examples.{LinesAreExact, RegionsAreSaid};
ghost use Rattle.ojp_regions.specs.Laws.{RefusalIsOne, TextIsNotRefused, TextIsOne};

/// A file is refused at one line and for one reason.
pub fn refusal_is_one()
    ensures { RefusalIsOne }
{}

/// The text of regions is not refused.
pub fn text_is_not_refused()
    ensures { TextIsNotRefused }
{}

/// A text is that of one list of regions.
pub fn text_is_one()
    ensures { TextIsOne }
{}

/// What small files say.
pub fn regions_are_said()
    ensures { RegionsAreSaid }
{}

/// Where small files are refused, and why.
pub fn lines_are_exact()
    ensures { LinesAreExact }
{}
