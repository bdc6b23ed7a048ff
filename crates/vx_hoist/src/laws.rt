// Laws of growing, each the clause of a function that does nothing.

ghost use Rattle.vx_hoist.specs.Growing.{GrownRuns, GrownStays};

/// With more silent operations a flow that never fails comes to the same, at every bound.
pub fn grown_runs()
    ensures { GrownRuns }
{}

/// A flow of a program stays one with them.
pub fn grown_stays()
    ensures { GrownStays }
{}
