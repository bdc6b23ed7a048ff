// What commands ask of a compiler.

ghost use Rattle.std.specs.Prelude.{IfOk};
ghost use Rattle.vx_ast.specs.View as view;
ghost use Rattle.vx_compiled.specs.CompiledWith.{CompiledWith};
ghost use Rattle.vx_compiled.specs.Sized.{Sized};

use crate::program::{CompiledProgram, SizedProgram};
use std::alloc::Global;
use vx_ast::typed::Typed;
use vx_base::outcome::NoMemory;
use vx_machine::Machine;
use vx_profile::counts::Counts;
use vx_rewrite::FlowOptions;

/// A compiler: from an accepted program to words for a machine. Its traces are picked by counts of blocks and edges, whatever these are;
/// at most so many operations are copied onto the edges of splits and joins. `Err` comes only where memory runs out.
pub trait WordCompiler {
    /// The words of a program, and how they were planned, with calls inlined and diamonds converted as it is asked.
    fn compile(
        &self,
        alloc: Global,
        program: &Typed,
        counts: &Counts,
        machine: &Machine,
        growth: u32,
        options: FlowOptions,
    ) -> Result<CompiledProgram, NoMemory>
        ensures { IfOk result (λ x. CompiledWith (view.program_of program.now.program) counts.now machine.now growth options.inline options.select x.words x.plan) };

    /// What `compile` answers where nothing is asked, and how large the graphs are.
    fn compile_sized(
        &self,
        alloc: Global,
        program: &Typed,
        counts: &Counts,
        machine: &Machine,
        growth: u32,
    ) -> Result<SizedProgram, NoMemory>
        ensures { IfOk result (λ x. Sized (view.program_of program.now.program) counts.now machine.now growth x.compiled.words x.compiled.plan x.size) };
}
