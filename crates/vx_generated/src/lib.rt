// The laws of generated sources: each is an accepted source, and so none is refused. Each is the clause of a function that does
// nothing.
#![tactic(auto)]

ghost use Rattle.vx_generated.specs.Laws.{GeneratedIsNotRefused, GeneratedIsRead};

/// Every source that a seed and a size up to 10,000 give reads as a program: it has tokens, they are derived by the grammar, no
/// name or kind is at fault, and no limit is passed.
#[tactic(auto, using(crate::proofs::Limits::program_reads))]
pub fn generated_is_read()
    ensures { GeneratedIsRead }
{}

/// None of them is refused.
#[tactic(auto, using(crate::proofs::Refused::never_refused))]
pub fn generated_is_not_refused()
    ensures { GeneratedIsNotRefused }
{}
