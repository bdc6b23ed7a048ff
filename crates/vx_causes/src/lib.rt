// Laws of refused texts of words: what a reader finds is the first faulty line, and its code that of the first cause which the
// line has, each cause said of the text. Each law is the clause of a function that does nothing.
#![tactic(auto)]

ghost use Rattle.vx_causes.specs.Laws.{FaultIsFound, FoundIsFault};

/// The fault that a reader finds in a text of less than 4 GiB is the fault of that text.
#[tactic(auto, using(crate::proofs::Refused::found_is_fault))]
pub fn found_is_fault()
    ensures { FoundIsFault }
{}

/// The fault of a text of less than 4 GiB is what a reader finds in it.
pub fn fault_is_found()
    ensures { FaultIsFound }
{}
