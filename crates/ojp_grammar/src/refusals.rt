//! Why bytes are no document.

use ojp_values::Kind;
use thiserror::Error;

/// Which documents are meant.
#[derive(Clone, Copy, Debug, PartialEq, Eq)]
pub enum Want {
    Request,
    Delivery,
    Either,
}

/// What stands at the place of a refusal.
#[derive(Clone, Copy, Debug, PartialEq, Eq)]
pub enum Reason {
    /// None of the markup texts that may come next.
    Markup,
    /// No text of the kind, up to the next `<`.
    Field(Kind),
    /// The bytes end where more may come.
    Truncated,
    /// Bytes behind a whole document.
    Trailing,
}

/// The place of a refusal, in bytes from the first, and what stands there.
#[derive(Clone, Copy, Debug, PartialEq, Eq)]
pub struct Refused {
    pub at: u64,
    pub reason: Reason,
}

/// Why whole bytes give no document.
#[derive(Clone, Copy, Debug, PartialEq, Eq, Error)]
pub enum WholeRefused {
    #[error("no document")]
    At(Refused),
    #[error("no memory")]
    NoMemory,
}
