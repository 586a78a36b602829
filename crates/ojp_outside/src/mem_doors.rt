//! Doors in memory.
ghost use Rattle.std.specs.Prelude.{◌≡◌, ◌≢◌, ◌≤◌, ◌↔◌, ◌∷◌, [], ◌<◌, ℕ, length, map, IfOk, OnErr, OnOk, IsErr, IsTrue, Some, None, Ok, Err, true, false, slice_get, vec_capacity, vec_len, is_some, ◌⊎◌};
ghost use Rattle.std.specs.Option.{option_map};
ghost use Rattle.ojp_outside.specs.Causes.{Rose, next_count};
ghost use Rattle.ojp_outside.specs.Doors.{Gives, Returns, had_by, has_all, listening, faults_after_call};
ghost use Rattle.ojp_outside.specs.MemoryDoors.{seen_of};
ghost use Rattle.ojp_outside.specs.MemorySeen.{source_of, sink_of};
ghost use Rattle.ojp_outside.specs.Planned.{is_planned};

use crate::connections::{Given, Returned, Waiting};
use crate::plan::Plan;
use crate::wanted::{Wanted, is_complete};
use crate::{DoorRefused, Doors, MemSink, MemSource};
use std::alloc::{AllocError, Global};
use std::collections::VecDeque;
use std::marker::Model;

/// Connections in memory, given in order. They take all their memory in `new`.
#[derive(Drop)]
pub struct MemDoors {
    alloc: Global,
    waiting: VecDeque<Waiting>,
    out: Option<Given>,
    returned: Vec<Returned>,
    wanted: Option<Wanted>,
    given: u64,
    plan: Plan,
}

impl Model for MemDoors {
    ghost use Rattle.std.specs.Prelude.{◌≤◌, vec_capacity};
    ghost use Rattle.ojp_outside.specs.MemoryDoors.{MemDoorsView};

    ghost Value = { MemDoorsView };

    ghost use Rattle.ojp_outside.specs.Connections.{view_of, room_needed};

    ghost view = { view_of };

    ghost invariant = { λ d. room_needed d ≤ vec_capacity d.returned };
}

/// The connections in order, each with a copy of the bytes that it has left.
fn with_copies(alloc: Global, connections: Vec<MemSource>) -> Result<VecDeque<Waiting>, AllocError>
    ensures { IfOk result (λ waiting. map (λ w. w.input) waiting.items ≡ connections.items) }
{
    let mut waiting = VecDeque::new(alloc);
    for input in connections {
        let left = Vec::from_slice(alloc, input.left())?;
        waiting.push_back(Waiting { input, left })?;
    }
    Ok(waiting)
}

impl MemDoors {
    /// Doors that give these connections. Their calls `listen` and `next` of the numbers in `faults`,
    /// counted from 1, fail.
    pub fn new(
        alloc: Global,
        connections: Vec<MemSource>,
        faults: Vec<u64>,
    ) -> Result<MemDoors, AllocError>
        ensures { IfOk result (λ doors. doors ≡ record { asked = None; waiting = connections.items; out = None; returned = []; given = 0; fails_at = faults.items; calls = 0; faults = 0 }) }
    {
        let returned = Vec::with_capacity(alloc, connections.len())?;
        let waiting = with_copies(alloc, connections)?;
        Ok(MemDoors {
            alloc,
            waiting,
            out: None,
            returned,
            wanted: None,
            given: 0,
            plan: Plan::new(faults),
        })
    }

    /// How many connections came back.
    pub fn returned(&self) -> usize
        ensures { result ≡ length self.now.returned }
    {
        self.returned.len()
    }

    /// What the `i`-th connection that came back wrote.
    pub fn written(&self, i: usize) -> &[u8]
        requires { i < length self.now.returned }
        ensures { option_map (λ entry. entry.written) (slice_get self.now.returned i) ≡ Some (Some result.now) }
    {
        self.returned[i].output.written()
    }
}

impl Doors for MemDoors {
    type In = MemSource;

    type Out = MemSink;

    ghost seen = { seen_of };

    ghost faults = { λ d. d.faults };

    ghost told = { λ d out. out };

    fn listen(&mut self, at: u16, most: Option<u64>) -> Result<(), DoorRefused>
        ensures listening { seen_of self.new ≡ listening (seen_of self.old) at most }
        ensures not_closed { result ≢ Err DoorRefused.Closed }
        ensures later { self.old.faults ≤ self.new.faults }
        ensures failed { result ≡ Err DoorRefused.Failed → Rose self.old.faults self.new.faults }
        ensures planned { result ≡ Err DoorRefused.Failed ↔ IsTrue (is_planned self.new.calls self.old.fails_at) }
        ensures at_rest { result ≢ Err DoorRefused.Failed → self.new.faults ≡ self.old.faults }
        ensures faults { self.new.faults ≡ faults_after_call result self.old.faults }
        ensures waiting { self.new.waiting ≡ self.old.waiting }
        ensures calls { self.new.calls ≡ next_count self.old.calls }
        ensures fails_at { self.new.fails_at ≡ self.old.fails_at }
    {
        self.wanted = Some(Wanted { port: at, most });
        self.given = 0;
        if self.plan.fails_now() {
            return Err(DoorRefused::Failed);
        }
        Ok(())
    }

    fn next(&mut self) -> Result<(MemSource, MemSink), DoorRefused>
        requires { is_some self.old.out ≡ false }
        ensures given { IfOk result (λ connection. Gives (seen_of self.old) (seen_of self.new)
            (had_by (source_of connection.0) (sink_of connection.1))) }
        ensures empty { IfOk result (λ connection. connection.1.written ≡ []) }
        ensures told_empty { IfOk result (λ connection. Some connection.1.written ≡ Some []) }
        ensures kept { OnErr result (seen_of self.new ≡ seen_of self.old) }
        ensures closed { result ≡ Err DoorRefused.Closed ↔ IsTrue (has_all self.old.asked self.old.given) }
        ensures later { self.old.faults ≤ self.new.faults }
        ensures failed { result ≡ Err DoorRefused.Failed → Rose self.old.faults self.new.faults }
        ensures in_order { IfOk result (λ connection. self.old.waiting ≡ connection.0 ∷ self.new.waiting) }
        ensures calls { self.new.calls ≡ next_count self.old.calls }
        ensures failed_only { result ≡ Err DoorRefused.Failed
            → IsTrue (is_planned self.new.calls self.old.fails_at) ⊎ (self.old.waiting ≡ []) }
        ensures planned { IsTrue (is_planned self.new.calls self.old.fails_at) → IsErr result }
        ensures at_rest { result ≢ Err DoorRefused.Failed → self.new.faults ≡ self.old.faults }
        ensures faults { self.new.faults ≡ faults_after_call result self.old.faults }
        ensures waiting { OnErr result (self.new.waiting ≡ self.old.waiting) }
        ensures fails_at { self.new.fails_at ≡ self.old.fails_at }
        ensures new { IfOk result (λ connection. connection.1 ≡ record { written = []; fails_at = []; calls = 0; faults = 0; refused = 0 }) }
    {
        if is_complete(self.wanted, self.given) {
            self.plan.count_call();
            return Err(DoorRefused::Closed);
        }
        let is_planned = self.plan.fails_now();
        if !is_planned && let Some(Waiting { input, left }) = self.waiting.pop_front() {
            self.given = self.given.saturating_add(1);
            self.out = Some(Given {
                left,
                input_faults: input.faults(),
                output_faults: 0,
            });
            return Ok((input, MemSink::new(self.alloc, Vec::new(self.alloc))));
        }
        self.plan.count_unplanned(is_planned);
        Err(DoorRefused::Failed)
    }

    fn back(&mut self, input: MemSource, output: MemSink)
        requires { is_some self.old.out ≡ true }
        ensures returned { Returns (seen_of self.old) (seen_of self.new)
            (had_by (source_of input) (sink_of output)) (Some output.written) }
        ensures at_rest { self.new.faults ≡ self.old.faults }
        ensures kept { self.new ≡ record self.old { out = None; returned = self.new.returned } }
    {
        if let Some(given) = self.out.take() {
            self.returned.push_reserved(Returned {
                given,
                input,
                output,
            });
        }
    }
}
