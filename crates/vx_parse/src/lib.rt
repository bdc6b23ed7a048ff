// The tree of a list of tokens, by recursive descent with one token of lookahead, or the token at which the list leaves
// the grammar. What phrases, derivations and their trees are is specs/Phrases.antt and specs/Derivations.antt of vx_ast.
#![tactic(auto)]

pub mod choice;
pub mod definition;
pub mod expression;
pub mod first_token;
mod memory;
pub mod parser;
pub mod phrase_laws;
pub mod simple;
pub mod statement;
pub mod stop;
pub mod token;

pub use parser::parse;
