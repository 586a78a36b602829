//! Why lists of exchange points make no book.

use ojp_values::{Code, StopRef};

/// The first of these that applies.
#[derive(Clone, Copy, Debug, PartialEq, Eq)]
pub enum BookRefused {
    /// Two lists have this code, the least such.
    TwiceRegion(Code),
    /// There are more than 32 regions or more than 2,000 points.
    TooMany,
    /// The region `left` declares the region `right` at the point, which does not declare `left`
    /// there; the least such.
    Disagree {
        point: StopRef,
        left: Code,
        right: Code,
    },
    /// There is no memory for the book.
    NoMemory,
}
