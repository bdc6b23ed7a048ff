// A program that was read, and what the compiler makes of it: the graphs that it plans, and the words of just these.

use std::alloc::Global;
use vx_ast::typed::Typed;
use vx_base::listed::Bytes;
use vx_base::outcome::NoMemory;
use vx_compile::{compile_flow, planned_with};
use vx_compiled::CompiledProgram;
use vx_flow::graph::Flow;
use vx_machine::Machine;
use vx_page::declarations::ArrayNames;
use vx_profile::counts::Counts;
use vx_rewrite::FlowOptions;

/// A program that was read, and what it is compiled by.
#[derive(Clone, Copy)]
pub(crate) struct Read<'a> {
    pub(crate) program: &'a Typed,
    pub(crate) functions: &'a [Bytes],
    pub(crate) arrays: &'a ArrayNames,
    pub(crate) source: &'a [u8],
    pub(crate) counts: &'a Counts,
    pub(crate) machine: &'a Machine,
    pub(crate) growth: u32,
    pub(crate) options: FlowOptions,
}

/// Graphs that were planned, and their words.
#[derive(Drop)]
pub(crate) struct Planned {
    pub(crate) flow: Flow,
    pub(crate) compiled: CompiledProgram,
}

/// The graphs of a program that are planned, and their words.
pub(crate) fn planned_of(alloc: Global, read: &Read) -> Result<Planned, NoMemory> {
    let flow = planned_with(alloc, read.program, read.counts, read.machine, read.options)?;
    let compiled = compile_flow(
        alloc,
        read.program,
        &flow,
        read.counts,
        read.machine,
        read.growth,
    )?;
    Ok(Planned { flow, compiled })
}
