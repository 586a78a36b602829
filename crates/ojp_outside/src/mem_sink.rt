//! A sink in memory.
ghost use Rattle.std.specs.Prelude.{◌≡◌, ◌<◌, ◌+◌, ℕ, List, [], length, IsErr, IsTrue, IfOk, Some, ◌↔◌, ◌⊎◌};
ghost use Rattle.std.specs.Io.{WritesAtMost};
ghost use Rattle.std.specs.Io.KnownBytes.{WriteAppends};
ghost use Rattle.ojp_outside.specs.Causes.{HasCause, next_count};
ghost use Rattle.ojp_outside.specs.Planned.{is_planned, refused_after, faults_after};
ghost use Rattle.ojp_outside.specs.MemorySeen.{sink_of};

use crate::plan::Plan;
use crate::{Failed, Sink};
use std::alloc::Global;
use std::marker::Model;

/// The bytes written, in memory.
#[derive(Debug, Drop)]
pub struct MemSink {
    bytes: Vec<u8>,
    plan: Plan,
    refused: u64,
}

impl Model for MemSink {
    ghost use Rattle.ojp_outside.specs.Memory.{MemSinkView};

    ghost Value = { MemSinkView };

    ghost view = { λ s. record { written = s.bytes.items; fails_at = s.plan.fails_at.items; calls = s.plan.calls; faults = s.plan.faults; refused = s.refused } };
}

impl MemSink {
    /// An empty sink. Its writes of the numbers in `faults`, counted from 1, fail.
    pub fn new(alloc: Global, faults: Vec<u64>) -> MemSink
        ensures { result ≡ record { written = []; fails_at = faults.items; calls = 0; faults = 0; refused = 0 } }
    {
        MemSink {
            bytes: Vec::new(alloc),
            plan: Plan::new(faults),
            refused: 0,
        }
    }

    /// The bytes written so far.
    pub fn written(&self) -> &[u8]
        ensures { result.now ≡ self.now.written }
    {
        &self.bytes
    }

    /// How many writes found no memory; each of them failed too.
    pub fn refused(&self) -> u64
        ensures { result ≡ self.now.refused }
    {
        self.refused
    }
}

impl Sink for MemSink {
    ghost seen = { sink_of };

    fn write(&mut self, from: &[u8]) -> Result<usize, Failed>
        ensures bound { WritesAtMost result from.now }
        ensures some { 0 < length from.now → IfOk result (λ count. 0 < count) }
        ensures bytes { WriteAppends (Some self.old.written) (Some self.new.written) result from.now }
        ensures cause { HasCause self.old.faults self.new.faults result }
        ensures whole { IfOk result (λ count. count ≡ length from.now) }
        ensures planned { IsTrue (is_planned self.new.calls self.old.fails_at) → IsErr result }
        ensures faults { self.new.faults ≡ faults_after result self.old.faults }
        ensures calls { self.new.calls ≡ next_count self.old.calls }
        ensures fails_at { self.new.fails_at ≡ self.old.fails_at }
        ensures refused { self.new.refused ≡ refused_after (is_planned self.new.calls self.old.fails_at) result self.old.refused }
    {
        if self.plan.fails_now() {
            return Err(Failed);
        }
        match self.bytes.extend_from_slice(from) {
            Ok(()) => Ok(from.len()),
            Err(_) => {
                self.plan.count_fault();
                self.refused = self.refused.saturating_add(1);
                Err(Failed)
            }
        }
    }
}
