// Laws of the definitions, each the clause of a function that does nothing.

ghost use Rattle.vx_check.specs.Checked.{OneVerdict, PassedIsStrict};

/// A program of words has one verdict for a machine at most.
#[tactic(auto, using(crate::proofs::Verdicts::one_verdict))]
pub fn one_verdict()
    ensures { OneVerdict }
{}

/// A program that passes the check fits the machine, and no run of it reads a register in flight, whenever within its latency each
/// write lands.
#[tactic(auto, using(crate::proofs::Verdicts::passed_is_strict))]
pub fn passed_is_strict()
    ensures { PassedIsStrict }
{}
