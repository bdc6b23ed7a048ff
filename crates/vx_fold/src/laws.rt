// Laws of numbers in place of values, each the clause of a function that does nothing.

ghost use Rattle.vx_fold.specs.Folding.{FoldedRuns, FoldedStays};

/// With values that only ever hold one number read as that number a flow that never fails comes to the same, at every bound.
pub fn folded_runs()
    ensures { FoldedRuns }
{}

/// A flow of a program stays one with them.
pub fn folded_stays()
    ensures { FoldedStays }
{}
