//! What a piece of a reply was.

use thiserror::Error;

/// What a piece was.
#[derive(Clone, Copy, Debug, PartialEq, Eq)]
pub enum ReplyFed {
    /// The reply goes on.
    More,
    /// The reply ends behind so many bytes of the piece.
    Whole { used: usize },
}

/// Why a reply is refused.
#[derive(Clone, Copy, Debug, PartialEq, Eq, Drop, Error)]
pub enum ReplyRefused {
    /// No reply of status 200 begins with the bytes.
    #[error("bad reply")]
    Bad,
    /// Memory ran out.
    #[error("no memory")]
    NoMemory,
}

/// Where a reply stands.
#[derive(Clone, Copy, Debug, PartialEq, Eq)]
pub enum Stage {
    Reading,
    Whole,
    Over(ReplyRefused),
}
