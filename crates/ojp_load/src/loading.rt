//! The command itself.

ghost use Rattle.std.specs.Prelude.{IfOk};
ghost use Rattle.ojp_steps.specs.Endings.{HasEnding};
ghost use Rattle.ojp_steps.specs.Lent.{lent};
ghost use Rattle.ojp_load.specs.Loads.{IsSummary, LoadFails, Loaded};

use crate::counting::{Summary, count};
use crate::opening::{learn, open};
use crate::tables::tables_of;
use itoa::Buffer;
use ojp_network::network;
use ojp_network_laws::laws::{asks_are_good, books_join, codes_rise, files_are_texts};
use ojp_outside::{Sink, WriteFault, put_parts};
use ojp_steps::failures::Failure;
use ojp_values::NoMemory;
use std::alloc::Global;

/// Makes the network of the number, puts its asks through the gateway over its regions in memory, and writes four lines:
/// how many asks there are, how many have a trip, how many have none, and how many seconds after their starts the trips
/// arrive, all together.
///
/// # Errors
///
/// `Memory` where memory ran out, `Output` where a write failed.
pub fn load<O: Sink>(alloc: Global, number: u64, output: &mut O) -> Result<(), Failure<'static>>
    ensures { let lent_output = lent O.seen output.old output.new in HasEnding (Loaded number lent_output) (LoadFails number lent_output) result }
{
    let summary = match summarize(alloc, number) {
        Ok(summary) => summary,
        Err(NoMemory) => return Err(Failure::Memory),
    };
    let (mut trips, mut others, mut seconds) = (Buffer::new(), Buffer::new(), Buffer::new());
    let parts: [&[u8]; 7] = [
        b"requests 200\ntrips ",
        trips.format(summary.trips).as_bytes(),
        b"\nno trips ",
        others
            .format(200u64.saturating_sub(summary.trips))
            .as_bytes(),
        b"\nseconds ",
        seconds.format(summary.seconds).as_bytes(),
        b"\n",
    ];
    match put_parts(output, &parts) {
        Ok(()) => Ok(()),
        Err(WriteFault) => Err(Failure::Output),
    }
}

// Makes the network of the number, and counts its asks.
fn summarize(alloc: Global, number: u64) -> Result<Summary, NoMemory>
    ensures { IfOk result (λ summary. IsSummary number summary.trips summary.seconds) }
{
    files_are_texts();
    codes_rise();
    books_join();
    asks_are_good();
    let made = network(alloc, number)?;
    let tables = tables_of(alloc, made.files.as_slice())?;
    let mut links = open(alloc, tables)?;
    let book = learn(alloc, &mut links)?;
    count(alloc, &book, &mut links, made.asks.as_slice())
}
