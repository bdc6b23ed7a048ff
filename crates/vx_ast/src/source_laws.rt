// The laws of what a program does: each function does nothing, and its clause is the law.

ghost use Rattle.vx_ast.specs.Range.{SourceStaysInRange};
ghost use Rattle.vx_ast.specs.SourceLaws.{SourceIsSteady};

/// With more turns, a run that ends or traps stays as it is, and the output of one that goes on only grows.
#[tactic(auto, using(crate::proofs::MoreTurns::source_steady))]
pub fn source_is_steady()
    ensures { SourceIsSteady }
{}

/// A program that is accepted gives a number of 32 bits, where its input has no others. So do all its parts: see
/// proofs/Ranges.antt.
#[tactic(auto, using(crate::proofs::Ranges::source_fits))]
pub fn source_stays_in_range()
    ensures { SourceStaysInRange }
{}
