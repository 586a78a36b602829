//! Want of memory.

use thiserror::Error;

/// Memory was wanted and not given.
#[derive(Clone, Copy, Debug, PartialEq, Eq, Drop, Error)]
#[error("no memory")]
pub struct NoMemory;
