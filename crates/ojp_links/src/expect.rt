//! What a reply must be.

use ojp_values::{Ask, Code};

/// What a reply must be.
#[derive(Debug, Drop)]
pub enum Expect {
    /// An answer of the region with the code to the ask.
    Region { code: Code, ask: Ask },
    /// Any delivery of the ask's kind.
    Kind(Ask),
}
