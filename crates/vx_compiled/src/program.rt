// Compiled programs: words, their plan, and the size of the graphs that they are made from.

use vx_isa::program::WordProgram;
use vx_report::Plan;

/// The words of a program, and how they were planned.
#[derive(Drop)]
pub struct CompiledProgram {
    /// The words.
    pub words: WordProgram,
    /// The plan.
    pub plan: Plan,
}

/// How large the graphs of a program are.
#[derive(Clone, Copy)]
pub struct FlowSize {
    /// How many functions there are.
    pub functions: u32,
    /// How many blocks all of them have.
    pub blocks: u32,
}

/// A compiled program, and how large the graphs are that its words are made from.
#[derive(Drop)]
pub struct SizedProgram {
    /// The words and their plan.
    pub compiled: CompiledProgram,
    /// How large the graphs are.
    pub size: FlowSize,
}
