// The source language: its tokens and grammar, the tree of a program, names, faults and limits, and what a program does.
#![tactic(auto)]

pub mod fault;
pub mod names;
pub mod source_laws;
pub mod syntax;
pub mod token;
pub mod token_laws;
pub mod tree;
pub mod typed;
