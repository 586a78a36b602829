//! The clock of the system.
ghost use Rattle.std.specs.Prelude.{◌≡◌};

use std::rt;

/// The clock of the system, which repeats its last moment where it cannot be read.
#[derive(Drop)]
pub struct StdClock<C: rt::Clock + Drop> {
    clock: C,
    last: u64,
}

impl<C: rt::Clock + Drop> StdClock<C> {
    pub fn new(clock: C) -> StdClock<C>
        ensures { ⟦<StdClock<C> as crate::Clock>⟧.last result ≡ 0 }
    {
        StdClock { clock, last: 0 }
    }
}

impl<C: rt::Clock + Drop> crate::Clock for StdClock<C> {
    ghost last = { λ c. c.last };

    fn now(&mut self) -> u64 {
        if let Ok(moment) = self.clock.monotonic() {
            let seconds = moment.as_secs().saturating_mul(1000);
            let millis = seconds.saturating_add(u64::from(moment.subsec_millis()));
            self.last = self.last.max(millis);
        }
        self.last
    }
}
