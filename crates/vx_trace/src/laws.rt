// The law of picking: the function does nothing, and its clause is the law.

ghost use Rattle.vx_trace.specs.Picked.{OnePick};

/// At most one trace is picked in a graph by its counts.
pub fn one_pick()
    ensures { OnePick }
{}
