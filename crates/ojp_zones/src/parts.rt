//! The parts of a text, one after another.
ghost use Rattle.std.specs.Prelude.{◌≡◌, ◌==◌, position, List, ℕ, [], ◌∷◌, option_map, MatchOption};
ghost use Rattle.ojp_zones.specs.Parts.{parts, parts_left};

use std::marker::Model;

/// The parts of a text that are not yet taken: what stands between its separators. They are seen
/// as their list.
#[derive(Drop)]
pub struct Parts<'a> {
    rest: Option<&'a [u8]>,
    separator: u8,
}

impl<'a> Model for Parts<'a> {
    ghost Value = { List (List ℕ) };

    ghost view = { λ s. parts_left s.separator (option_map (λ rest. rest.now) s.rest) };
}

// Where the byte first stands.
fn first_of(text: &[u8], byte: u8) -> Option<usize>
    ensures { result ≡ position (λ b. b == byte) text.now }
{
    text.iter().position(|b| *b == byte)
}

impl<'a> Parts<'a> {
    /// All parts of the text.
    pub fn new(text: &'a [u8], separator: u8) -> Parts<'a>
        ensures { result ≡ parts separator text.now }
    {
        Parts {
            rest: Some(text),
            separator,
        }
    }

    /// The next part, or `None` where all are taken.
    pub fn next(&mut self) -> Option<&'a [u8]>
        ensures { MatchOption result ((self.old ≡ []) × (self.new ≡ [])) (λ part. self.old ≡ part.now ∷ self.new) }
    {
        let text = self.rest?;
        match first_of(text, self.separator) {
            Some(end) => {
                self.rest = Some(text.split_at(end + 1).1);
                Some(&text[..end])
            }
            None => {
                self.rest = None;
                Some(text)
            }
        }
    }
}

/// A text by its parts, where there are three at most.
#[derive(Drop)]
pub enum Split<'a> {
    One(&'a [u8]),
    Two(&'a [u8], &'a [u8]),
    Three(&'a [u8], &'a [u8], &'a [u8]),
    More,
}
