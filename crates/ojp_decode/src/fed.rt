//! What a piece of a document was.

use ojp_grammar::refusals::Refused;
use thiserror::Error;

/// What a piece was.
#[derive(Clone, Copy, Debug, PartialEq, Eq)]
pub enum Fed {
    /// The document goes on.
    More,
    /// The document ends behind so many bytes of the piece.
    Whole { used: usize },
}

/// Why no document is read.
#[derive(Clone, Copy, Debug, PartialEq, Eq, Error)]
pub enum ReadRefused {
    /// The bytes are refused.
    #[error("no document")]
    At(Refused),
    /// Memory ran out.
    #[error("no memory")]
    NoMemory,
}

/// Where a reader stands.
#[derive(Clone, Copy, Debug, PartialEq, Eq)]
pub enum Stage {
    Reading,
    Whole,
    Over(ReadRefused),
}
