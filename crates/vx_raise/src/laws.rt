// Laws of moving operations up, each the clause of a function that does nothing.

ghost use Rattle.vx_raise.specs.Lifting.{LiftedMoved};
ghost use Rattle.vx_raise.specs.Moving.{MovedPaths, MovedRuns, MovedStays};
ghost use Rattle.vx_raise.specs.Raising.{RaisedRuns, RaisedStays};

/// With an operation raised in each graph, or none, a flow that never fails comes to the same, at every bound.
pub fn raised_runs()
    ensures { RaisedRuns }
{}

/// A flow of a program stays one.
pub fn raised_stays()
    ensures { RaisedStays }
{}

/// With any number of operations raised and exchanged a flow that never fails comes to the same, at every bound.
pub fn moved_runs()
    ensures { MovedRuns }
{}

/// It passes the same blocks and edges, so that counts of them stay true.
pub fn moved_paths()
    ensures { MovedPaths }
{}

/// A flow of a program stays one with them.
pub fn moved_stays()
    ensures { MovedStays }
{}

/// A row of operations raised from anywhere in their blocks, which passes its test, is steps of raising and of exchanging.
pub fn lifted_moved()
    ensures { LiftedMoved }
{}
