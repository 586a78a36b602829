//! Laws of the trace of a search.
#![tactic(auto)]

ghost use Rattle.ojp_traces.specs.Traces.{OneTrace};

/// A trace depends on the timetables, the ask and the order alone: whichever of several equally early trips the regions
/// give, its lines are the same.
pub fn one_trace()
    ensures { OneTrace }
{}
