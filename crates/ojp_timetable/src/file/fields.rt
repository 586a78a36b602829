//! The fields of a line, one after another.
ghost use Rattle.std.specs.Prelude.{◌≡◌, ◌==◌, position, List, ℕ, [], ◌∷◌, option_map, MatchOption, IfSome, length, slice_index, ◌-◌};
ghost use Rattle.ojp_values.specs.Texts.{same};
ghost use Rattle.ojp_timetable.specs.Fields.{fields_of, fields_left, joined, body, IsSomeList};

use std::marker::Model;

/// The fields of a line that are not yet taken: what stands between single spaces. They are seen as
/// their list.
#[derive(Drop)]
pub struct Fields<'a> {
    rest: Option<&'a [u8]>,
}

impl<'a> Model for Fields<'a> {
    ghost Value = { List (List ℕ) };

    ghost view = { λ s. fields_left (option_map (λ rest. rest.now) s.rest) };
}

// Where the first space stands. Inlined, its loop would want for registers.
#[inline(never)]
fn first_space(text: &[u8]) -> Option<usize>
    ensures { result ≡ position (λ b. b == 32) text.now }
{
    text.iter().position(|b| *b == b' ')
}

impl<'a> Fields<'a> {
    /// All fields of the line.
    pub fn new(line: &'a [u8]) -> Fields<'a>
        ensures { result ≡ fields_of line.now }
    {
        Fields { rest: Some(line) }
    }

    /// The next field, or `None` where all are taken.
    pub fn next(&mut self) -> Option<&'a [u8]>
        ensures { MatchOption result ((self.old ≡ []) × (self.new ≡ [])) (λ field. self.old ≡ field.now ∷ self.new) }
    {
        let text = self.rest?;
        match first_space(text) {
            Some(end) => {
                self.rest = Some(text.split_at(end + 1).1);
                Some(&text[..end])
            }
            None => {
                self.rest = None;
                Some(text)
            }
        }
    }

    /// The fields that are left as the one text that they were, or `None` where all are taken.
    pub fn rest(&self) -> Option<&'a [u8]>
        ensures { MatchOption result (self.now ≡ []) (λ text. (text.now ≡ joined self.now) × IsSomeList self.now) }
    {
        self.rest
    }
}

/// The line without its line feed.
#[tactic(auto, unfolding(crate::specs::Fields::body))]
pub fn body(line: &[u8]) -> &[u8]
    ensures { result.now ≡ body line.now }
{
    match line {
        [text @ .., b'\n'] => text,
        _ => line,
    }
}

/// Whether the texts are the same bytes.
#[tactic(auto, unfolding(ojp_values::specs::Texts::same))]
pub fn is_same(text: &[u8], other: &[u8]) -> bool
    ensures { result ≡ same text.now other.now }
{
    text == other
}
