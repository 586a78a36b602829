//! A clock.
ghost use Rattle.std.specs.Prelude.{◌≡◌, ◌≤◌, ℕ};

/// A clock that never goes back.
pub trait Clock {
    /// The moment that it last gave, in milliseconds; 0 before the first.
    ghost last: { Self → ℕ };

    /// Milliseconds since some start.
    fn now(&mut self) -> u64
        ensures later { last self.old ≤ result }
        ensures last { last self.new ≡ result };
}
