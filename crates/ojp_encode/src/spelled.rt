//! What documents are made of.

ghost use Rattle.std.specs.Prelude.{◌≡◌, ◌≤◌, ℕ, List, OnOk, length};
ghost use Rattle.ojp_encode.specs.Writing.{Writes};

use ojp_outside::{Sink, WriteFault};

/// A part of a document, which is spelled in one way.
pub trait Spelled {
    /// The bytes that spell it.
    ghost bytes: { Self → List ℕ };

    /// Its numbers and the lengths of its lists are within their limits.
    ghost is_well: { Self → Type 0 };

    /// Each field and the length of each list are within the limits of its shape.
    ghost fits: { Self → Type 0 };

    /// No more bytes spell it.
    ghost most: { ℕ };

    /// Writes it.
    fn put<S: Sink>(&self, sink: &mut S) -> Result<(), WriteFault>
        requires { is_well self.now }
        ensures spelled { Writes (S.seen sink.old).written (S.seen sink.new).written (S.seen sink.old).faults (S.seen sink.new).faults
            (bytes self.now) result }
        ensures fits { OnOk result (fits self.now) };

    /// The number of bytes that spell it.
    fn length(&self) -> u64
        requires { is_well self.now }
        ensures value { result ≡ length (bytes self.now) }
        ensures bound { result ≤ most };
}
