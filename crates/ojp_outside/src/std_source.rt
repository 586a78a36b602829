//! A source over a reader of `std`.
ghost use Rattle.std.specs.Prelude.{◌≡◌, ℕ, List, [], IsTrue, Option, false};
ghost use Rattle.std.specs.Option.{ForSome};

use crate::source::sees_end;
use crate::{Failed, Source};
use std::io::Read;

/// A reader with a count of the reads that failed. It tells the bytes left where the reader does.
#[derive(Drop)]
pub struct StdSource<R: Read + Drop> {
    reader: R,
    faults: u64,
    ended: bool,
    ghost at_end: { IsTrue ended → ForSome (R.remaining reader) (λ left. left ≡ []) },
}

impl<R: Read + Drop> StdSource<R> {
    pub fn new(reader: R) -> StdSource<R>
        ensures { ⟦<StdSource<R> as Source>⟧.seen result ≡ record { left = R.remaining reader; ended = false; faults = 0 } }
    {
        StdSource {
            reader,
            faults: 0,
            ended: false,
        }
    }

    /// The reader itself.
    pub(crate) fn into_reader(self) -> R {
        self.reader
    }
}

impl<R: Read + Drop> Source for StdSource<R> {
    ghost seen = { λ s. record { left = R.remaining s.reader; ended = s.ended; faults = s.faults } };

    fn read(&mut self, into: &mut [u8]) -> Result<usize, Failed> {
        if self.ended {
            return Ok(0);
        }
        match self.reader.read(into) {
            Ok(count) => {
                self.ended = sees_end(self.ended, count, into.len());
                Ok(count)
            }
            Err(_) => {
                self.faults = self.faults.saturating_add(1);
                Err(Failed)
            }
        }
    }
}
