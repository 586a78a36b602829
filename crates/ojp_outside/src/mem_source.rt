//! A source in memory.
ghost use Rattle.std.specs.Prelude.{◌≡◌, ◌≤◌, ◌<◌, ◌↔◌, ℕ, Bool, List, drop, length, IsTrue, IsErr, IfOk, Some, false, min, take};
ghost use Rattle.std.specs.Io.{ReadsAtMost};
ghost use Rattle.std.specs.Io.KnownBytes.{ReadConsumes};
ghost use Rattle.ojp_outside.specs.Causes.{HasCause, next_count};
ghost use Rattle.ojp_outside.specs.Known.{ended_by};
ghost use Rattle.ojp_outside.specs.Planned.{is_planned, faults_after};
ghost use Rattle.ojp_outside.specs.MemorySeen.{source_of};

use crate::plan::Plan;
use crate::source::sees_end;
use crate::{Failed, Source};
use std::marker::Model;

/// Bytes in memory, of which a read gives at most `most`.
#[derive(Debug, Drop)]
pub struct MemSource {
    bytes: Vec<u8>,
    at: usize,
    most: usize,
    plan: Plan,
    ended: bool,
}

impl Model for MemSource {
    ghost use Rattle.std.specs.Prelude.{◌≡◌, ◌≤◌, ◌<◌, ℕ, drop, length, true};
    ghost use Rattle.ojp_outside.specs.Memory.{MemSourceView};

    ghost Value = { MemSourceView };

    ghost view = { λ s. record { left = drop s.at s.bytes.items; most = s.most; fails_at = s.plan.fails_at.items; calls = s.plan.calls; faults = s.plan.faults; ended = s.ended } };

    ghost invariant = { λ s. (s.at ≤ length s.bytes.items) × (0 < s.most) × (s.ended ≡ true → s.at ≡ length s.bytes.items) };
}

impl MemSource {
    /// A source of these bytes. Its reads of the numbers in `faults`, counted from 1, fail.
    pub fn new(bytes: Vec<u8>, most: usize, faults: Vec<u64>) -> MemSource
        requires { 0 < most }
        ensures { result ≡ record { left = bytes.items; most = most; fails_at = faults.items; calls = 0; faults = 0; ended = false } }
    {
        MemSource {
            bytes,
            at: 0,
            most,
            plan: Plan::new(faults),
            ended: false,
        }
    }

    /// The bytes that are left.
    pub fn left(&self) -> &[u8]
        ensures { result.now ≡ self.now.left }
    {
        &self.bytes[self.at..]
    }

    /// How many reads failed.
    pub fn faults(&self) -> u64
        ensures { result ≡ self.now.faults }
    {
        self.plan.faults
    }
}

/// Copies as many bytes as both hold, and at most `most`.
fn copy_front(from: &[u8], into: &mut [u8], most: usize) -> usize
    ensures count { result ≡ min (min (length from.now) (length into.new)) most }
    ensures copied { take result into.new ≡ take result from.now }
{
    let count = from.len().min(into.len()).min(most);
    into[..count].copy_from_slice(&from[..count]);
    count
}

impl Source for MemSource {
    ghost seen = { source_of };

    fn read(&mut self, into: &mut [u8]) -> Result<usize, Failed>
        ensures bound { ReadsAtMost result into.new }
        ensures bytes { ReadConsumes (Some self.old.left) (Some self.new.left) result into.new }
        ensures end { self.new.ended ≡ ended_by self.old.ended result (length into.new) }
        ensures after_end { IsTrue self.old.ended → IfOk result (λ count. count ≡ 0) }
        ensures cause { HasCause self.old.faults self.new.faults result }
        ensures planned { IsErr result ↔ IsTrue (is_planned self.new.calls self.old.fails_at) }
        ensures piece { IfOk result (λ count. count ≤ self.old.most) }
        ensures faults { self.new.faults ≡ faults_after result self.old.faults }
        ensures calls { self.new.calls ≡ next_count self.old.calls }
        ensures fails_at { self.new.fails_at ≡ self.old.fails_at }
        ensures most { self.new.most ≡ self.old.most }
    {
        if self.plan.fails_now() {
            return Err(Failed);
        }
        let count = copy_front(&self.bytes[self.at..], into, self.most);
        self.at += count;
        self.ended = sees_end(self.ended, count, into.len());
        Ok(count)
    }
}
