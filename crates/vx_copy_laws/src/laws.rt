// Laws of the copies in clustered traces, each the clause of a function that does nothing.

ghost use Rattle.vx_copy_laws.specs.CopyLaws.{CopiesLaw, AssignedLaw, OneLaw};
ghost use Rattle.vx_copy_laws.specs.CopiesExample.{CopiesExample};

/// A copy of a value to a cluster stands in front of an operation exactly where the operation reads the value away on that cluster
/// and no earlier one does from which on to it there is neither a join nor a writer of the value, which it may be itself. Nothing else
/// is added, and no operation is left out or moved.
pub fn copies_stand_where_they_are_needed()
    ensures { CopiesLaw }
{}

/// So it is in what `assign` of vx_bug gives.
pub fn assigned_copies_stand_where_they_are_needed()
    ensures { AssignedLaw }
{}

/// Only one clustered trace of a trace is so, by the same homes and clusters.
pub fn one_clustered_trace()
    ensures { OneLaw }
{}

/// Worked rows: one copy for two readers, and two where a join or a writer of the value is between them, or the first of them writes
/// the value itself; none for one that was copied as compensation.
pub fn copies_example_law()
    ensures { CopiesExample }
{}
