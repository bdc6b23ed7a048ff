// Laws of other names, each the clause of a function that does nothing.

ghost use Rattle.vx_rename.specs.Renaming.{RenamedRuns, RenamedStays, RenamedWays};

/// Where each value is read at its name a flow that never fails comes to the same, at every bound.
pub fn renamed_runs()
    ensures { RenamedRuns }
{}

/// A flow of a program stays one.
pub fn renamed_stays()
    ensures { RenamedStays }
{}

/// Its blocks stay, and each leads where it did.
pub fn renamed_ways()
    ensures { RenamedWays }
{}
