//! Short bytes in a fixed array: the base of codes, stop references, labels and names.

ghost use Rattle.std.specs.Prelude.{◌≡◌, ◌≤◌, Some, length, refl};
ghost use Rattle.std.proofs.Common.{rules};
ghost use Rattle.std.specs.Ordering.{nat_cmp};
ghost use Rattle.std.specs.Cmp.{partial_equiv_from_equiv};
ghost use Rattle.std.specs.Cmp.Lexicographic.{pointwise, slice_cmp, texts_ties, texts_po};
ghost use Rattle.std.specs.Prelude.{nat_eq};
ghost use Rattle.std.specs.Hash as fed;
ghost use Rattle.std.specs.Cmp.Rules.{hashing};
ghost use Rattle.std.proofs.lemmas.Cmp.{nat_list_eq_equiv, nat_list_cmp_total};

use std::cmp::Ordering;
use std::hash::{Hash, Hasher};
use std::marker::Model;

/// At most `N` bytes, compared and hashed as a text.
#[derive(Clone, Copy, Debug)]
pub struct Fixed<const N: usize> {
    len: usize,
    bytes: [u8; N],
}

impl<const N: usize> Model for Fixed<N> {
    ghost use Rattle.std.specs.Prelude.{◌≡◌, ◌≤◌, ◌-◌, ◌++◌, ℕ, List, length, take, drop, replicate};
    ghost use Rattle.std.proofs.Common.{arith, take-append-drop, length-take-le, ap, sym, ◌∙◌};

    ghost Value = { List ℕ };

    ghost view = { λ s. take s.len s.bytes };

    ghost invariant = { λ s. (s.len ≤ N) × (length s.bytes ≡ N) × (drop s.len s.bytes ≡ replicate (N - s.len) 0) };

    ghost inverse = { λ v. record { bytes = v ++ replicate (N - length v) 0; len = length v } };

    ghost inverse_ok = { λ s h i. record {
      bytes = (ap (λ (n : ℕ). take s.len s.bytes ++ replicate (N - n) 0) (length-take-le s.len s.bytes (omega (arith, h.0, h.1)))
          ∙ (ap (λ (d : List ℕ). take s.len s.bytes ++ d) (sym h.2) ∙ take-append-drop s.len s.bytes)) i;
      len = length-take-le s.len s.bytes (omega (arith, h.0, h.1)) i;
    } };
}

impl<const N: usize> Fixed<N> {
    /// The bytes of a text that fits.
    pub fn new(text: &[u8]) -> Fixed<N>
        requires { length text.now ≤ N }
        ensures { result ≡ text.now }
    {
        let mut bytes = [0; N];
        bytes[..text.len()].copy_from_slice(text);
        Fixed {
            len: text.len(),
            bytes,
        }
    }

    /// The bytes of the text.
    pub fn bytes(&self) -> &[u8]
        ensures { result.now ≡ self.now }
    {
        &self.bytes[..self.len]
    }
}

impl<const N: usize> PartialEq for Fixed<N> {
    ghost eq = { pointwise nat_eq };

    ghost laws = { partial_equiv_from_equiv nat_list_eq_equiv };

    fn eq(&self, other: &Fixed<N>) -> bool {
        self.bytes() == other.bytes()
    }
}

impl<const N: usize> Eq for Fixed<N> {
    ghost laws = { nat_list_eq_equiv };
}

impl<const N: usize> PartialOrd for Fixed<N> {
    ghost partial_cmp = { λ x y. Some (slice_cmp nat_cmp x y) };

    ghost laws = { texts_po };

    fn partial_cmp(&self, other: &Fixed<N>) -> Option<Ordering> {
        Some(self.cmp(other))
    }
}

impl<const N: usize> Ord for Fixed<N> {
    ghost cmp = { slice_cmp nat_cmp };

    ghost total = { nat_list_cmp_total };

    ghost matches_partial_cmp = { λ x y. refl };

    ghost matches_eq = { texts_ties };

    fn cmp(&self, other: &Fixed<N>) -> Ordering {
        self.bytes().cmp(&other.bytes())
    }
}

impl<const N: usize> Hash for Fixed<N> {
    ghost hash_input = { fed.str };

    ghost respects_eq = { Prim.search (hashing, rules) };

    fn hash<H: Hasher>(&self, state: &mut H) {
        state.write(self.bytes());
        state.write_u8(0xff);
    }
}
