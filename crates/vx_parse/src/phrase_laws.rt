// Laws of phrases, programs and sources, each the clause of a function.

ghost use Rattle.vx_parse.specs.PhraseLaws.{OneDerivation, OneMisparse, OneProgram, OneRefusal, OneTree, ParsedOrNot, ReadOrNot, ReadOrStuck, StuckIsUnexpected};

/// A list of tokens has one derivation of a phrase at its front at most, and one rest.
pub fn one_derivation()
    ensures { OneDerivation }
{}

/// A list of tokens is never both read and stuck.
pub fn never_read_and_stuck()
    ensures { ReadOrStuck }
{}

/// Where a list of tokens is stuck, the tokens up to there go on to a program, and with the next one they do not.
pub fn stuck_is_unexpected()
    ensures { StuckIsUnexpected }
{}

/// A list of tokens is one program at most.
pub fn one_tree()
    ensures { OneTree }
{}

/// A list of tokens is never both a program and none.
pub fn parsed_or_not()
    ensures { ParsedOrNot }
{}

/// A list of tokens that is no program is so for one reason.
pub fn one_misparse()
    ensures { OneMisparse }
{}

/// A source is one program at most.
pub fn one_program()
    ensures { OneProgram }
{}

/// A source is never both read and refused.
pub fn read_or_not()
    ensures { ReadOrNot }
{}

/// A source is refused in one way.
pub fn one_refusal()
    ensures { OneRefusal }
{}
