//! Laws of the documents.

ghost use Rattle.ojp_grammar.specs.Laws.{OneSpelling, OnePlace, MoreIsRefused, OnlyMoreIsRefused, AreShort};
ghost use Rattle.ojp_grammar.specs.Short.{RequestsAreShort};

/// Documents that are spelled at the front of the same bytes are one document, and the same bytes
/// stand behind it: each document has one spelling, and no spelling begins another.
pub fn one_spelling()
    ensures { OneSpelling }
{}

/// Bytes are refused at one place at most, and for one reason.
pub fn one_place()
    ensures { OnePlace }
{}

/// What was written is read: it is refused where more bytes follow, at the document's end, and nowhere
/// else. By `one_spelling` no other document stands in front of these bytes.
pub fn written_is_read()
    ensures more { MoreIsRefused }
    ensures only { OnlyMoreIsRefused }
{}

/// No wanted document is long: it has fewer than 2^41 bytes.
pub fn documents_are_short()
    ensures { AreShort }
{}

/// A request fits the limit of a body: it has at most 1,048,576 bytes.
pub fn requests_are_short()
    ensures { RequestsAreShort }
{}
