//! A clock in memory.
ghost use Rattle.std.specs.Prelude.{◌≡◌, ◌≤◌, ◌<◌, ◌+◌, ◌-◌, ℕ, length, slice_index, min};
ghost use Rattle.std.specs.List.Sorted.{IsNonDecreasing};

use crate::Clock;
use std::marker::Model;

/// Moments in order; the last is repeated.
#[derive(Debug, Drop)]
pub struct MemClock {
    moments: Vec<u64>,
    at: usize,
    last: u64,
}

impl Model for MemClock {
    ghost use Rattle.std.specs.Prelude.{◌≤◌, ◌<◌, length, slice_index};
    ghost use Rattle.std.specs.List.Sorted.{IsNonDecreasing};
    ghost use Rattle.ojp_outside.specs.Memory.{MemClockView};

    ghost Value = { MemClockView };

    ghost view = { λ c. record { moments = c.moments.items; at = c.at; last = c.last } };

    ghost invariant = { λ c. (c.at < length c.moments.items) × IsNonDecreasing c.moments.items × (c.last ≤ slice_index c.moments.items c.at) };
}

impl MemClock {
    /// A clock that gives these moments.
    pub fn new(moments: Vec<u64>) -> MemClock
        requires some { 0 < length moments.items }
        requires rising { IsNonDecreasing moments.items }
        ensures { result ≡ record { moments = moments.items; at = 0; last = 0 } }
    {
        MemClock {
            moments,
            at: 0,
            last: 0,
        }
    }
}

impl Clock for MemClock {
    ghost last = { λ c. c.last };

    fn now(&mut self) -> u64
        ensures later { self.old.last ≤ result }
        ensures last { self.new.last ≡ result }
        ensures given { result ≡ slice_index self.old.moments self.old.at }
        ensures next { self.new.at ≡ min (self.old.at + 1) (length self.old.moments - 1) }
        ensures moments { self.new.moments ≡ self.old.moments }
    {
        let moment = self.moments[self.at];
        self.at = (self.at + 1).min(self.moments.len() - 1);
        self.last = moment;
        moment
    }
}
