//! Calls that fail as a list of their numbers says.
ghost use Rattle.std.specs.Prelude.{◌≡◌, ◌≤◌, if◌then◌else◌};
ghost use Rattle.ojp_outside.specs.Causes.{next_count};
ghost use Rattle.ojp_outside.specs.Planned.{is_planned};

/// The numbers of the calls that fail, counted from 1, the number of calls so far and of those that failed.
#[derive(Debug, Drop)]
pub struct Plan {
    pub fails_at: Vec<u64>,
    pub calls: u64,
    pub faults: u64,
}

impl Plan {
    pub fn new(fails_at: Vec<u64>) -> Plan
        ensures plan { result.fails_at.items ≡ fails_at.items }
        ensures calls { result.calls ≡ 0 }
        ensures faults { result.faults ≡ 0 }
    {
        Plan {
            fails_at,
            calls: 0,
            faults: 0,
        }
    }

    /// Counts a call, and says whether it is to fail; the fault is not counted.
    pub fn is_planned_now(&mut self) -> bool
        ensures plan { self.new.fails_at ≡ self.old.fails_at }
        ensures calls { self.new.calls ≡ next_count self.old.calls }
        ensures planned { result ≡ is_planned (next_count self.old.calls) self.old.fails_at.items }
        ensures faults { self.new.faults ≡ self.old.faults }
    {
        self.calls = self.calls.saturating_add(1);
        self.fails_at.contains(&self.calls)
    }

    /// Counts a call, and says whether it fails; a fault is counted.
    pub fn fails_now(&mut self) -> bool
        ensures plan { self.new.fails_at ≡ self.old.fails_at }
        ensures calls { self.new.calls ≡ next_count self.old.calls }
        ensures planned { result ≡ is_planned (next_count self.old.calls) self.old.fails_at.items }
        ensures later { self.old.faults ≤ self.new.faults }
        ensures faults { self.new.faults ≡ (if result then next_count self.old.faults else self.old.faults) }
    {
        let is_planned = self.is_planned_now();
        if is_planned {
            self.count_fault();
        }
        is_planned
    }

    /// Counts a call that does not fail.
    pub fn count_call(&mut self)
        ensures { self.new ≡ record self.old { calls = next_count self.old.calls } }
    {
        self.calls = self.calls.saturating_add(1);
    }

    /// Counts a fault.
    pub fn count_fault(&mut self)
        ensures counted { self.new ≡ record self.old { faults = next_count self.old.faults } }
        ensures later { self.old.faults ≤ self.new.faults }
    {
        self.faults = self.faults.saturating_add(1);
    }

    /// Counts a fault that no plan counted.
    pub fn count_unplanned(&mut self, is_planned: bool)
        ensures plan { self.new.fails_at ≡ self.old.fails_at }
        ensures calls { self.new.calls ≡ self.old.calls }
        ensures later { self.old.faults ≤ self.new.faults }
        ensures faults { self.new.faults ≡ (if is_planned then self.old.faults else next_count self.old.faults) }
    {
        if !is_planned {
            self.count_fault();
        }
    }
}
