// The laws of placement: each function does nothing, and its clause is the law.

ghost use Rattle.vx_sched.specs.Placement.{OnePlacement, Tight};

/// At most one list of words is that of a clustered trace.
pub fn one_placement()
    ensures { OnePlacement }
{}

/// No operation of a placed trace could stand in an earlier word, at or after the first that its delays allow, beside all
/// that stands there in the end.
pub fn tight()
    ensures { Tight }
{}
