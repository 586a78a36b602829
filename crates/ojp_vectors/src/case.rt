//! A case: bytes, and what they are to those who want a document of one side.
ghost use Rattle.std.specs.Prelude.{◌≡◌, ◌≢◌, MatchBool};

use ojp_grammar::refusals::{Reason, Want};

/// What bytes are.
#[derive(Clone, Copy, Debug, PartialEq, Eq)]
pub enum CaseOutcome {
    /// They spell a wanted document.
    Document,
    /// They are refused at this place, in bytes from the first, for this reason.
    At { at: u64, reason: Reason },
}

/// Bytes, and what they are stated to be.
#[derive(Clone, Copy, Debug)]
pub struct Case {
    pub want: Want,
    pub bytes: &'static [u8],
    pub outcome: CaseOutcome,
}

/// Whether two outcomes are the same.
pub(crate) fn is_same(one: CaseOutcome, other: CaseOutcome) -> bool
    ensures { MatchBool result (one ≡ other) (one ≢ other) }
{
    one == other
}
