//! A source of bytes.
ghost use Rattle.std.specs.Prelude.{◌≡◌, IsTrue, IfOk, length, ◌||◌, ◌&&◌, ◌==◌, nat_lt};
ghost use Rattle.std.specs.Io.{ReadsAtMost};
ghost use Rattle.std.specs.Io.KnownBytes.{ReadConsumes};
ghost use Rattle.ojp_outside.specs.Causes.{HasCause};
ghost use Rattle.ojp_outside.specs.Known.{ended_by};
ghost use Rattle.ojp_outside.specs.Seen.{SourceView};

/// A read or a write failed; the count of faults rose.
#[derive(Clone, Copy, Debug, PartialEq, Eq)]
pub struct Failed;

/// A source of bytes with a count of faults that never falls.
pub trait Source {
    /// The bytes left, where they are told, whether the end was seen, and how often a read failed.
    ghost seen: { Self → SourceView };

    /// Reads some bytes into the front of `into`, at most `into.len()`. Zero for a non-empty `into`
    /// is the end of the input, and every later read gives zero or fails.
    fn read(&mut self, into: &mut [u8]) -> Result<usize, Failed>
        ensures bound { ReadsAtMost result into.new }
        ensures bytes { ReadConsumes (seen self.old).left (seen self.new).left result into.new }
        ensures end { (seen self.new).ended ≡ ended_by (seen self.old).ended result (length into.new) }
        ensures after_end { IsTrue (seen self.old).ended → IfOk result (λ count. count ≡ 0) }
        ensures cause { HasCause (seen self.old).faults (seen self.new).faults result };
}

/// Whether the end was seen, after a read that gave `count` bytes where there was `room` for so many.
pub(crate) fn sees_end(was_seen: bool, count: usize, room: usize) -> bool
    ensures { result ≡ (was_seen || (count == 0 && nat_lt 0 room)) }
{
    was_seen || (count == 0 && room > 0)
}
