//! Tables of texts.
#![tactic(auto)]

ghost use Rattle.std.specs.Prelude.{◌≡◌, ◌<◌, length, map, nat_eq, position, slice_index_or, []};
ghost use Rattle.std.specs.List.{starts_with};
ghost use Rattle.std.specs.Cmp.Lexicographic.{pointwise};
ghost use Rattle.ojp_tables.specs.Texts.{place_of, front_of};

use std::marker::Model;

/// A table of `N` texts, numbered from 0.
#[derive(Drop)]
pub struct Table<const N: usize> {
    pub(crate) texts: &'static [&'static [u8]],
}

impl<const N: usize> Model for Table<N> {
    ghost use Rattle.std.specs.Prelude.{◌≡◌, ℕ, List, length, map};

    ghost Value = { List (List ℕ) };

    ghost view = { λ t. map (λ text. text.now) t.texts.now };

    ghost invariant = { λ t. length t.texts.now ≡ N };
}

impl<const N: usize> Table<N> {
    /// A table of these texts.
    pub fn new(texts: &'static [&'static [u8]]) -> Table<N>
        requires { length texts.now ≡ N }
        ensures { result ≡ map (λ text. text.now) texts.now }
    {
        Table { texts }
    }

    /// The text of a number.
    pub fn at(&self, i: usize) -> &'static [u8]
        requires { i < N }
        ensures { result.now ≡ slice_index_or self.now i [] }
    {
        let texts: &'static [&'static [u8]] = self.texts;
        texts[i]
    }

    /// The least number whose text is `bytes`; none exactly where no text is.
    pub fn place_of(&self, bytes: &[u8]) -> Option<usize>
        ensures { result ≡ place_of self.now bytes.now }
    {
        first_equal(self.texts, bytes)
    }

    /// The least number whose text `bytes` begin with; none exactly where they begin with no text.
    pub fn front_of(&self, bytes: &[u8]) -> Option<usize>
        ensures { result ≡ front_of self.now bytes.now }
    {
        first_prefix(self.texts, bytes)
    }
}

fn first_equal(texts: &[&[u8]], bytes: &[u8]) -> Option<usize>
    ensures { result ≡ position (λ text. pointwise nat_eq text.now bytes.now) texts.now }
{
    texts.iter().position(|text| *text == bytes)
}

fn first_prefix(texts: &[&[u8]], bytes: &[u8]) -> Option<usize>
    ensures { result ≡ position (λ text. starts_with nat_eq bytes.now text.now) texts.now }
{
    texts.iter().position(|text| bytes.starts_with(text))
}
