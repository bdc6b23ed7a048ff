// What compiled words owe to the program that was read (specs/Compiled.antt), and what commands ask of a compiler, whose passes they do
// not know.
#![tactic(auto)]

pub mod compiler;
pub mod program;

pub use compiler::WordCompiler;
pub use program::{CompiledProgram, FlowSize, SizedProgram};
