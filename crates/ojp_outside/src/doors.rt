//! Doors at which connections come in.
ghost use Rattle.std.specs.Prelude.{◌≡◌, ◌≢◌, ◌≤◌, ◌↔◌, ℕ, List, [], IfOk, IfErr, OnErr, IfSome, IsSome, IsTrue, Option, Some, None, Err, true, false};
ghost use Rattle.ojp_outside.specs.Causes.{Rose};
ghost use Rattle.ojp_outside.specs.Doors.{DoorsView, listening, has_all, had_by, Gives, Returns};

use crate::{Sink, Source};

/// Why no connection was given.
#[derive(Clone, Copy, Debug, PartialEq, Eq)]
pub enum DoorRefused {
    /// The call failed; the count of faults rose.
    Failed,
    /// As many connections as were asked for were given.
    Closed,
}

/// Doors that give one connection at a time, with a count of faults that never falls.
pub trait Doors {
    type In: Source;

    type Out: Sink;

    /// What was asked of them, and which connections were given and came back.
    ghost seen: { Self → DoorsView };

    /// How often a call failed.
    ghost faults: { Self → ℕ };

    /// Listens at a port, for so many connections or without end.
    fn listen(&mut self, at: u16, most: Option<u64>) -> Result<(), DoorRefused>
        ensures listening { seen self.new ≡ listening (seen self.old) at most }
        ensures not_closed { result ≢ Err DoorRefused.Closed }
        ensures later { faults self.old ≤ faults self.new }
        ensures at_rest { result ≢ Err DoorRefused.Failed → faults self.new ≡ faults self.old }
        ensures failed { result ≡ Err DoorRefused.Failed → Rose (faults self.old) (faults self.new) };

    /// The next connection, whose output has written nothing.
    fn next(&mut self) -> Result<(Self::In, Self::Out), DoorRefused>
        requires { (seen self.old).is_out ≡ false }
        ensures given { IfOk result (λ connection. Gives (seen self.old) (seen self.new)
            (had_by (Self.In.seen connection.0) (Self.Out.seen connection.1))) }
        ensures empty { IfOk result (λ connection. IfSome (Self.Out.seen connection.1).written (λ bytes. bytes ≡ [])) }
        ensures told_empty { IfOk result (λ connection. IfSome (seen self.old).returned (λ entries. (Self.Out.seen connection.1).written ≡ Some [])) }
        ensures kept { OnErr result (seen self.new ≡ seen self.old) }
        ensures closed { result ≡ Err DoorRefused.Closed ↔ IsTrue (has_all (seen self.old).asked (seen self.old).given) }
        ensures later { faults self.old ≤ faults self.new }
        ensures at_rest { result ≢ Err DoorRefused.Failed → faults self.new ≡ faults self.old }
        ensures failed { result ≡ Err DoorRefused.Failed → Rose (faults self.old) (faults self.new) };

    /// Takes back the connection that is out.
    fn back(&mut self, input: Self::In, output: Self::Out)
        requires { (seen self.old).is_out ≡ true }
        ensures returned { Returns (seen self.old) (seen self.new)
            (had_by (Self.In.seen input) (Self.Out.seen output)) (Self.Out.seen output).written }
        ensures at_rest { faults self.new ≡ faults self.old };

    /// Of a connection that is out it is told what it had, where the connections that came back are told.
    ghost told: { (d : Self) → (seen d).is_out ≡ true → IfSome (seen d).returned (λ entries. IsSome (seen d).out) };
}
