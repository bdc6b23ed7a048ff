// Laws of sources: every list of bytes has one answer, the program that it reads as or why it is refused; the table by which
// the grammar is read derives what its productions do. Each law is the clause of a function that does nothing.
#![tactic(auto)]

ghost use Rattle.vx_sources.specs.Answers.{AnsweredOnce, EverySourceIsAnswered, TokensAreParsedOrNot};
ghost use Rattle.vx_sources.specs.Fronts.{BegunIsFront, FaultIsFirst, FirstIsFault, FrontIsBegun};
ghost use Rattle.vx_sources.specs.Productions.{TableIsProductions};

/// Every list of tokens that ends with the end token, and holds no other, is a program or is none for a reason.
#[tactic(auto, using(crate::proofs::Sources::tokens_are_parsed_or_not))]
pub fn tokens_are_parsed_or_not()
    ensures { TokensAreParsedOrNot }
{}

/// Every list of bytes has an answer.
#[tactic(auto, using(crate::proofs::Sources::every_source_is_answered))]
pub fn every_source_is_answered()
    ensures { EverySourceIsAnswered }
{}

/// No list of bytes has two answers.
#[tactic(auto, using(crate::proofs::Sources::answered_once))]
pub fn answered_once()
    ensures { AnsweredOnce }
{}

/// The table of predictions derives a program, with the end token behind it, exactly as the productions of the grammar do, where
/// each `else` belongs to the nearest `if` and `printf` begins no simple statement.
#[tactic(auto, using(crate::proofs::Predicted::table_is_productions))]
pub fn table_is_productions()
    ensures { TableIsProductions }
{}

/// Tokens that begin a program go on to one: there are tokens that, put behind them, make a program.
#[tactic(auto, using(crate::proofs::Fronts::begun_is_front))]
pub fn begun_is_front()
    ensures { BegunIsFront }
{}

/// Up to each of its tokens a program is begun.
#[tactic(auto, using(crate::proofs::Fronts::front_is_begun))]
pub fn front_is_begun()
    ensures { FrontIsBegun }
{}

/// S4 stands at the first token with which no program goes on.
#[tactic(auto, using(crate::proofs::Fronts::fault_is_first))]
pub fn fault_is_first()
    ensures { FaultIsFirst }
{}

/// Where tokens have a first token with which no program goes on, S4 stands there, or a construct is too deep.
#[tactic(auto, using(crate::proofs::Fronts::first_is_fault))]
pub fn first_is_fault()
    ensures { FirstIsFault }
{}
