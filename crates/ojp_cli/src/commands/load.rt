//! The command `load`, by its word.

ghost use Rattle.std.specs.Prelude.{◌≡◌, ◌⊎◌, ℕ};
ghost use Rattle.ojp_steps.specs.Lent.{lent};
ghost use Rattle.ojp_cli.specs.Runs.{LoadDue, RunsLoad};

use crate::words::read_network;
use ojp_load::load;
use ojp_outside::Sink;
use ojp_steps::failures::{Failure, conclude};
use std::alloc::Global;

/// Puts the asks of the network that the word names through the gateway, and gives the exit status.
pub(crate) fn load_network<O: Sink, E: Sink>(
    alloc: Global,
    word: &str,
    output: &mut O,
    faults: &mut E,
) -> u8
    ensures runs { RunsLoad word.now (lent O.seen output.old output.new) (lent E.seen faults.old faults.new) result }
    ensures due { (status : ℕ) → LoadDue word.now (lent O.seen output.old output.new) status → (result ≡ 5) ⊎ (result ≡ status) }
{
    match read_network(word) {
        Some(number) => conclude(&load(alloc, number, output), faults),
        None => conclude(&Err(Failure::Words), faults),
    }
}
