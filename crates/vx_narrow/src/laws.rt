// Laws of graphs that go by checked facts, each the clause of a function that does nothing.

ghost use Rattle.vx_narrow.specs.Narrowing.{NarrowedGraphsRun, NarrowedStays};
ghost use Rattle.vx_narrow.specs.Rewriting.{DecidedGoes, NarrowedRuns};
ghost use Rattle.vx_narrow.specs.Staying.{StaysFlow};

/// Where the facts at a split decide its test, the run goes that way or has no meaning.
pub fn decided_splits_go_one_way()
    ensures { DecidedGoes }
{}

/// With each decided split one way a program comes to the same, at every bound.
pub fn narrowed_runs_stay()
    ensures { NarrowedRuns }
{}

/// A flow of a program stays one.
pub fn flow_stays()
    ensures { StaysFlow }
{}

/// A flow of a program stays one where each of its graphs is narrowed by claims of its own.
pub fn narrowed_graphs_stay()
    ensures { NarrowedStays }
{}

/// With its graphs narrowed a program comes to the same, at every bound, whatever the shape of the graphs.
pub fn narrowed_graphs_run()
    ensures { NarrowedGraphsRun }
{}
