//! Small networks, computed by the definitions: the traces of whole searches.

ghost use Rattle.ojp_traces.specs.TraceExamples.{TracesExactChange, TracesPoints, TracesOrders, TracesDrops, TracesNothing};

/// A change that is exactly met.
pub fn traces_exact_change()
    ensures { TracesExactChange }
{}

/// From one exchange point to another.
pub fn traces_points()
    ensures { TracesPoints }
{}

/// Out and back, in three orders.
pub fn traces_orders()
    ensures { TracesOrders }
{}

/// What can't improve is dropped.
pub fn traces_drops()
    ensures { TracesDrops }
{}

/// A place of no region.
pub fn traces_nothing()
    ensures { TracesNothing }
{}
