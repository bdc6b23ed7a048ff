// The compiler of the commands: the passes of vx_compile.

use std::alloc::Global;
use vx_ast::typed::Typed;
use vx_base::outcome::NoMemory;
use vx_compiled::{CompiledProgram, SizedProgram, WordCompiler};
use vx_flow::graph::Flow;
use vx_machine::Machine;
use vx_profile::counts::Counts;
use vx_rewrite::FlowOptions;
use vx_runs::compiler::Compiler;

/// The passes of vx_compile.
#[derive(Clone, Copy)]
pub(crate) struct Passes;

impl Compiler for Passes {
    fn flow_of(
        &self,
        alloc: Global,
        program: &Typed,
        options: FlowOptions,
    ) -> Result<Flow, NoMemory> {
        vx_compile::counted_flow_of(alloc, program, options)
    }
}

impl WordCompiler for Passes {
    fn compile(
        &self,
        alloc: Global,
        program: &Typed,
        counts: &Counts,
        machine: &Machine,
        growth: u32,
        options: FlowOptions,
    ) -> Result<CompiledProgram, NoMemory> {
        vx_compile::compile_with(alloc, program, counts, machine, growth, options)
    }

    fn compile_sized(
        &self,
        alloc: Global,
        program: &Typed,
        counts: &Counts,
        machine: &Machine,
        growth: u32,
    ) -> Result<SizedProgram, NoMemory> {
        vx_compile::compile_sized(alloc, program, counts, machine, growth)
    }
}
