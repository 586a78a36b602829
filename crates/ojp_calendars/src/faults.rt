//! Why a zone file gives no zone.

use ojp_values::NoMemory;
use std::alloc::AllocError;
use thiserror::Error;

/// Why no zone is given for a zone file: memory was wanted, the bytes are no zone file, or no text
/// that is tried has the noons of the file on each day of the window.
#[derive(Clone, Copy, Debug, PartialEq, Eq, Drop, Error)]
pub enum ZoneFault {
    #[error("no memory")]
    Memory,
    #[error("no zone file")]
    File,
    #[error("no rule")]
    Rule,
}
