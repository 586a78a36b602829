//! A sink over a writer of `std`.
ghost use Rattle.std.specs.Prelude.{◌≡◌, ℕ, List, Option};

use crate::{Failed, Sink};
use std::io::Write;

/// A writer with a count of the writes that failed. It tells the bytes written where the writer does.
#[derive(Drop)]
pub struct StdSink<W: Write + Drop> {
    writer: W,
    faults: u64,
}

impl<W: Write + Drop> StdSink<W> {
    pub fn new(writer: W) -> StdSink<W>
        ensures { ⟦<StdSink<W> as Sink>⟧.seen result ≡ record { written = W.contents writer; faults = 0 } }
    {
        StdSink { writer, faults: 0 }
    }
}

impl<W: Write + Drop> Sink for StdSink<W> {
    ghost seen = { λ s. record { written = W.contents s.writer; faults = s.faults } };

    fn write(&mut self, from: &[u8]) -> Result<usize, Failed> {
        match self.writer.write(from) {
            Ok(count) if count > 0 || from.is_empty() => Ok(count),
            _ => {
                self.faults = self.faults.saturating_add(1);
                Err(Failed)
            }
        }
    }
}
