//! Laws of the text of a timetable, each the contract of a function with nothing to do.

ghost use Rattle.ojp_texts.specs.PointsSaid.{NeighboursAreAsSaid, PointsAreAsSaid};
ghost use Rattle.ojp_texts.specs.Spelled.{LinesAreSpelled, SpelledIsText, TextsCanBeSpelled};

/// The exchange points of a timetable are the shared places that the lines of its text declare, and
/// their neighbours are those that lines declare there.
pub fn points_are_as_said()
    ensures { PointsAreAsSaid }
{}

/// A neighbour stands at an exchange point above a line exactly where a line above declares it
/// there.
pub fn neighbours_are_as_said()
    ensures { NeighboursAreAsSaid }
{}

/// The spelled lines of a timetable are its text: read, they give that timetable, and each says what
/// it spells.
pub fn spelled_is_text()
    ensures { SpelledIsText }
{}

/// A timetable that has a text can be spelled, where it is well, as every timetable that was read is.
pub fn texts_can_be_spelled()
    ensures { TextsCanBeSpelled }
{}

/// Each line of the text of a timetable is spelled as what it says.
pub fn lines_are_spelled()
    ensures { LinesAreSpelled }
{}
