// Laws of cleaning, each the clause of a function that does nothing.

ghost use Rattle.vx_clean.specs.Cleaning.{CleanedFlow, CleanedRuns};
ghost use Rattle.vx_clean.specs.LaidFlows.{LaidFlow};
ghost use Rattle.vx_clean.specs.Laying.{LaidCleaned};
ghost use Rattle.vx_clean.specs.LinkTest.{LinkedWhereTested};
ghost use Rattle.vx_clean.specs.Staying.{StaysByGraphs};

/// With blocks skipped and merged a flow that never fails does the same, and never fails.
pub fn cleaned_runs()
    ensures { CleanedRuns }
{}

/// A flow of a program stays one.
pub fn cleaned_flow()
    ensures { CleanedFlow }
{}

/// A graph whose blocks are linked chains of blocks of another is that one cleaned.
pub fn laid_cleaned()
    ensures { LaidCleaned }
{}

/// A flow of a program, laid out as linked chains, stays one.
pub fn laid_flows_stay()
    ensures { LaidFlow }
{}

/// Chains that pass the test are linked.
pub fn linked_where_tested()
    ensures { LinkedWhereTested }
{}

/// A flow of a program stays one where each of its graphs is exchanged for one that is that graph cleaned.
pub fn stays_by_graphs()
    ensures { StaysByGraphs }
{}
