//! Reading the words of lines.
ghost use Rattle.std.specs.Prelude.{◌≡◌};
ghost use Rattle.ojp_timetable.specs.Said.{word_of};

use crate::file::words::Word;

/// The word that the text is.
#[tactic(auto, unfolding(crate::specs::Said::word_of, ojp_values::specs::Texts::same))]
pub fn word_of(text: &[u8]) -> Option<Word>
    ensures { result ≡ word_of text.now }
{
    if text == b"call".as_slice() {
        return Some(Word::Call);
    }
    if text == b"journey".as_slice() {
        return Some(Word::Journey);
    }
    if text == b"stop".as_slice() {
        return Some(Word::Stop);
    }
    if text == b"exchange".as_slice() {
        return Some(Word::Exchange);
    }
    if text == b"neighbour".as_slice() {
        return Some(Word::Neighbour);
    }
    if text == b"service".as_slice() {
        return Some(Word::Service);
    }
    None
}
