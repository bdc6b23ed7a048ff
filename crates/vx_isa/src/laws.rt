// Laws of the definitions, each the clause of a function that does nothing.

ghost use Rattle.vx_isa.specs.Fits.{FitsInWords};
ghost use Rattle.vx_isa.specs.Sound.{SoundInWords};
ghost use Rattle.vx_isa.specs.Steady.{WordsAreSteady};
ghost use Rattle.vx_isa.specs.Paths.{AnyTimingLaw, PathStrictLaw};

/// A word fits a machine exactly where each cluster has slots, units, ports and registers for its operations, the
/// machine has the copy paths, at most as many control operations are there as it has branches, two of them both branches
/// on a register, and at most one observable operation is there.
#[tactic(auto, using(crate::proofs::FitsLaw::fits_in_words))]
pub fn fits_law()
    ensures { FitsInWords }
{}

/// A program is sound exactly where its version is 1 or 2, its memory is a multiple of 4 and small enough, its start list ascends over
/// words of the memory and holds no 0, an empty time is short and alone in its word, and each operation has
/// operands of its form and names what is there.
#[tactic(auto, using(crate::proofs::SoundLaw::sound_in_words))]
pub fn sound_law()
    ensures { SoundInWords }
{}

/// The run of a program of words is steady: with a larger bound, what does not go on stays, and the output only grows.
pub fn words_run_is_steady()
    ensures { WordsAreSteady }
{}

/// A program of words that fit, on whose static paths no word reads a register early, has no run in which a word reads
/// a register in flight, whenever within its latency each write lands.
#[tactic(auto, using(crate::proofs::AnyTiming::path_strict_law))]
pub fn path_strict_law()
    ensures { PathStrictLaw }
{}

/// Where on no static path a word reads or writes a register early, a program runs alike under every timing.
#[tactic(auto, using(crate::proofs::AnyTiming::any_timing_law))]
pub fn any_timing_law()
    ensures { AnyTimingLaw }
{}
