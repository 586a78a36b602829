//! Tables of cases.
ghost use Rattle.std.specs.Prelude.{◌≡◌, ◌≤◌, IfOk, MatchBool, length, map};
ghost use Rattle.ojp_vectors.specs.Cases.{Holds, IsFirstWrong, stated};

use crate::case::{Case, is_same};
use crate::reading::outcome_of;
use ojp_values::NoMemory;
use std::alloc::Global;
use std::marker::Model;

/// A table of `N` cases, numbered from 0.
#[derive(Drop)]
pub struct Vectors<const N: usize> {
    cases: &'static [Case],
}

impl<const N: usize> Model for Vectors<N> {
    ghost use Rattle.std.specs.Prelude.{◌≡◌, List, length};
    ghost use Rattle.std.specs.Prelude.{map};
    ghost use Rattle.ojp_vectors.specs.Cases.{Stated, stated};

    ghost Value = { List Stated };

    ghost view = { λ v. map stated v.cases.now };

    ghost invariant = { λ v. length v.cases.now ≡ N };
}

impl<const N: usize> Vectors<N> {
    /// The table of these cases.
    pub fn new(cases: &'static [Case]) -> Vectors<N>
        requires { length cases.now ≡ N }
        ensures { result ≡ map stated cases.now }
    {
        Vectors { cases }
    }

    /// The number of the first case that a reader, fed pieces of this length, does not find as stated;
    /// none where each case holds. So the answer is the same for every length of a piece.
    pub fn wrong(&self, alloc: Global, piece: usize) -> Result<Option<usize>, NoMemory>
        requires { 1 ≤ piece }
        ensures first { IfOk result (λ found. IsFirstWrong self.now found) }
    {
        first_wrong(alloc, self.cases, piece)
    }
}

/// The number of the first case that a reader does not find as stated.
fn first_wrong(alloc: Global, cases: &[Case], piece: usize) -> Result<Option<usize>, NoMemory>
    requires { 1 ≤ piece }
    ensures { IfOk result (λ found. IsFirstWrong (map stated cases.now) found) }
{
    for number in 0..cases.len() {
        if !is_right(alloc, cases[number], piece)? {
            return Ok(Some(number));
        }
    }
    Ok(None)
}

/// Whether a reader finds the case as it is stated.
fn is_right(alloc: Global, case: Case, piece: usize) -> Result<bool, NoMemory>
    requires { 1 ≤ piece }
    ensures { IfOk result (λ right. MatchBool right (Holds (stated case)) (Holds (stated case) → ⊥)) }
{
    let found = outcome_of(alloc, case.want, case.bytes, piece)?;
    Ok(is_same(found, case.outcome))
}
