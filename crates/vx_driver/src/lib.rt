// The top call `vexc`: from the words of a command line to its answer, from the bytes of a source to the bytes of its words.
#![tactic(auto)]

mod passes;
pub mod top;

pub use top::vexc;
pub use vx_compile::compile;
pub use vx_compiled::CompiledProgram;
pub use vx_report::{Plan, report};
