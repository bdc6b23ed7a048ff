// The laws of unrolling (specs/Laws.antt): each function does nothing, and its clause is the law.

ghost use Rattle.vx_unroll.specs.Laws.{NamesStay, NamesStayBy, StatementsKeep, UnrolledByIsSame, UnrolledIsAccepted, UnrolledIsSame, UnrollingKeeps, WordsStayWithin};

/// A statement with loops unrolled does from every state what it did, in some other number of turns.
#[tactic(auto, using(crate::proofs::Unrolled::statements_keep))]
pub fn statements_keep()
    ensures { StatementsKeep }
{}

/// Whichever loops of a program are unrolled, it ends and prints alike.
#[tactic(auto, using(crate::proofs::Unrolled::unrolling_keeps))]
pub fn unrolling_keeps()
    ensures { UnrollingKeeps }
{}

/// So does the program whose loops are unrolled where there is room.
#[tactic(auto, using(crate::proofs::Unrolled::unrolled_is_same))]
pub fn unrolled_is_same()
    ensures { UnrolledIsSame }
{}

/// The unrolled program is accepted where the program was.
#[tactic(auto, using(crate::proofs::Accepting::unrolled_is_accepted))]
pub fn unrolled_is_accepted()
    ensures { UnrolledIsAccepted }
{}

/// Its functions declare no more words of arrays than may be, where those of the program did not.
#[tactic(auto, using(crate::proofs::Sizes::words_stay_within))]
pub fn words_stay_within()
    ensures { WordsStayWithin }
{}

/// Its functions have their names.
#[tactic(auto, using(crate::proofs::Accepting::names_stay))]
pub fn names_stay()
    ensures { NamesStay }
{}

/// A program whose loops are unrolled where that is asked ends and prints alike.
#[tactic(auto, using(crate::proofs::Asking::unrolled_by_is_same))]
pub fn unrolled_by_is_same()
    ensures { UnrolledByIsSame }
{}

/// Its functions have their names.
#[tactic(auto, using(crate::proofs::Asking::names_stay_by))]
pub fn names_stay_by()
    ensures { NamesStayBy }
{}
