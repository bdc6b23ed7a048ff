// The laws of delays and heights: each function does nothing, and its clause is the law.

ghost use Rattle.vx_dep.specs.Delays.{OneDelay, OneHeight};

/// A pair of places has one delay or none.
#[tactic(auto, using(crate::proofs::Unique::one_delay))]
pub fn one_delay()
    ensures { OneDelay }
{}

/// An operation of a trace has one height.
#[tactic(auto, using(crate::proofs::Unique::one_height))]
pub fn one_height()
    ensures { OneHeight }
{}
