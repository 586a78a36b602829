//! Halts at which nobody may board or alight.

ghost use Rattle.std.specs.Prelude.{◌≡◌, IfOk, option_copied};
ghost use Rattle.std.specs.List.{filter, find};
ghost use Rattle.ojp_feed_trips.specs.declared.halts.Halt.{Halt as HaltValue};
ghost use Rattle.ojp_feed_trips.specs.Halts.{begins_at, last_alighting, open_halts, first_boarding, stays};

use crate::halts::Halt;
use ojp_values::NoMemory;
use std::alloc::Global;

/// The halts that are written. One for boarding alone stays as the first, one for alighting alone as the last; as open ones
/// the others stay too, but for those without both.
pub fn open_halts(alloc: Global, halts: &[Halt], as_open: bool) -> Result<Vec<Halt>, NoMemory>
    ensures { IfOk result (λ kept. kept.items ≡ open_halts as_open halts.now) }
{
    let first = first_boarding(halts);
    let last = last_alighting(halts);
    match halts
        .iter()
        .copied()
        .filter(|halt| stays(first, last, as_open, halt))
        .collect(alloc)
    {
        Ok(open) => Ok(open),
        Err(_) => Err(NoMemory),
    }
}

// The first row of the first halt where passengers may board.
fn first_boarding(halts: &[Halt]) -> Option<usize>
    ensures { result ≡ first_boarding halts.now }
{
    match boarding(halts) {
        Some(halt) => Some(halt.first),
        None => None,
    }
}

// The first halt where passengers may board.
fn boarding(halts: &[Halt]) -> Option<&Halt>
    ensures { option_copied result ≡ find (λ (halt : HaltValue). halt.boards) halts.now }
{
    halts.iter().find(|halt| halt.boards)
}

// The first row of the last halt where passengers may alight.
fn last_alighting(halts: &[Halt]) -> Option<usize>
    ensures { result ≡ last_alighting halts.now }
{
    let mut found = None;
    for halt in halts {
        if halt.alights {
            found = Some(halt.first);
        }
    }
    found
}

// Whether the halt begins at that row.
fn begins_at(row: Option<usize>, halt: &Halt) -> bool
    ensures { result ≡ begins_at row halt.now }
{
    match row {
        Some(row) => row == halt.first,
        None => false,
    }
}

// Whether the halt is written.
fn stays(first: Option<usize>, last: Option<usize>, as_open: bool, halt: &Halt) -> bool
    ensures { result ≡ stays first last as_open halt.now }
{
    let is_end = begins_at(first, halt) || begins_at(last, halt);
    (halt.boards && halt.alights) || ((is_end || as_open) && (halt.boards || halt.alights))
}

/// How many halts forbid to board or to alight, and are neither the first nor the last.
pub fn inner_closed(halts: &[Halt]) -> u64 {
    let mut count: u64 = 0;
    for (place, halt) in halts.iter().enumerate() {
        if place > 0 && place < halts.len().saturating_sub(1) && !(halt.boards && halt.alights) {
            count = count.saturating_add(1);
        }
    }
    count
}
