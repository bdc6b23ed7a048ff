// The laws of sources: each function does nothing, and its clause is the law.

ghost use Rattle.vx_files.specs.Laws.{OneProgram, ReadOrNot, OneRefusal};

/// A source has one program.
pub fn one_program()
    ensures { OneProgram }
{}

/// No source is both accepted and refused.
pub fn read_or_not()
    ensures { ReadOrNot }
{}

/// A source is refused for one cause.
#[tactic(auto, using(crate::proofs::SourceLaws::one_refusal))]
pub fn one_refusal()
    ensures { OneRefusal }
{}
