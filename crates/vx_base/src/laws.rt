// The laws of runs that are the same, and of operations that move: each function does nothing, and its clause is the law.

ghost use Rattle.vx_base.specs.Outcome.{SameFromFollowing, SameIsReflexive, SameIsSymmetric, SameIsTransitive};
ghost use Rattle.vx_base.specs.Schedule.{ScheduleLaw, ThroughLaw};

/// Every family of runs is the same as itself.
pub fn same_is_reflexive()
    ensures { SameIsReflexive }
{}

/// If one family of runs is the same as another, then the other is the same as the one.
pub fn same_is_symmetric()
    ensures { SameIsSymmetric }
{}

/// A family of runs that is the same as a second, which is the same as a third, is the same as the third.
pub fn same_is_transitive()
    ensures { SameIsTransitive }
{}

/// A steady family that follows another at every bound is the same as it and never fails.
pub fn same_from_following()
    ensures { SameFromFollowing }
{}

/// Operations that are executed in words, with the order of reads and writes kept, leave what they leave in the order
/// of the trace.
pub fn schedule_law()
    ensures { ScheduleLaw }
{}

/// Words that keep the delays keep that order also where they are entered by a join and left by a split, with the
/// copies that stand on both edges.
pub fn through_law()
    ensures { ThroughLaw }
{}
