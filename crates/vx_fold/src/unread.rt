// Laws of flows without unread results, each the clause of a function that does nothing.

ghost use Rattle.vx_fold.specs.Thinning.{ThinnedRuns, ThinnedStays};

/// Without the operations whose results are not read a flow that never fails comes to the same, at every bound.
pub fn thinned_runs()
    ensures { ThinnedRuns }
{}

/// A flow of a program stays one without them.
pub fn thinned_stays()
    ensures { ThinnedStays }
{}
