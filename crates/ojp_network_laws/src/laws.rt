//! Laws of networks, each the contract of a function with nothing to do.

ghost use Rattle.ojp_network_laws.specs.Laws.{AsksAreGood, BooksJoin, CodesRise, FilesAreAccepted, FilesAreTexts};

/// Each file of a network is the text of the timetable of the values that were drawn.
pub fn files_are_texts()
    ensures texts { FilesAreTexts }
    ensures accepted { FilesAreAccepted }
{}

/// The codes of the timetables of a network rise.
pub fn codes_rise()
    ensures { CodesRise }
{}

/// The regions of a network agree, so that they make a book.
pub fn books_join()
    ensures { BooksJoin }
{}

/// The asks of a network are for trips between two different known stops.
pub fn asks_are_good()
    ensures { AsksAreGood }
{}
