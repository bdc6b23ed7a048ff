// The graphs of a program as they are asked for: with room for more values, calls inlined until nothing is left to inline, and then
// diamonds converted. Without options they stay as they are.

ghost use Rattle.std.specs.Prelude.{◌≡◌, ◌≤◌, true, None, IfOk, IfSome};
ghost use Rattle.vx_ast.specs.View.{program_of};
ghost use Rattle.vx_flow.specs.Sound.{is_sound_flow};
ghost use Rattle.vx_lower.specs.FlowOf.{FlowOf};
ghost use Rattle.vx_rewrite.specs.Rewritten.{ConvertedBy, IsFull, NoneLeft, Rewritten};

use crate::filling::filled;
use crate::options::FlowOptions;
use std::alloc::Global;
use vx_ast::typed::Typed;
use vx_base::outcome::NoMemory;
use vx_flow::graph::Flow;
use vx_inline::inlined_all;
use vx_profile::counts::Counts;

/// The graphs of a program as they are asked for: each gets as many values as its function allows, calls are inlined until none is
/// left whose callee has at most so many operations, those of the most counted blocks first, and then short diamonds become choices.
/// Without options the graphs stay as they are. It fails only for want of memory.
pub fn rewritten(
    alloc: Global,
    program: &Typed,
    flow: Flow,
    counts: &Counts,
    options: FlowOptions,
) -> Result<Flow, NoMemory>
    requires sound { is_sound_flow flow ≡ true }
    requires flow { FlowOf (program_of program.now.program) flow }
    ensures rewritten { IfOk result (λ new. Rewritten (program_of program.now.program) options.inline options.select new) }
    ensures sound { IfOk result (λ new. is_sound_flow new ≡ true) }
    ensures flow { IfOk result (λ new. FlowOf (program_of program.now.program) new) }
{
    if is_nothing(options) {
        return Ok(flow);
    }
    let full = filled(alloc, program, flow)?;
    let before = inlined(alloc, program, full, counts, options.inline)?;
    converted(alloc, before, options.select)
}

/// Nothing is asked.
fn is_nothing(options: FlowOptions) -> bool
    ensures inline { result ≡ true → options.inline ≡ None }
    ensures select { result ≡ true → options.select ≡ None }
{
    match options.inline {
        Some(_) => false,
        None => match options.select {
            Some(_) => false,
            None => true,
        },
    }
}

/// The graphs with calls inlined, where that is asked.
fn inlined(
    alloc: Global,
    program: &Typed,
    flow: Flow,
    counts: &Counts,
    inline: Option<u32>,
) -> Result<Flow, NoMemory>
    requires full { IsFull (program_of program.now.program) flow }
    requires flow { FlowOf (program_of program.now.program) flow }
    ensures full { IfOk result (λ new. IsFull (program_of program.now.program) new) }
    ensures none { IfOk result (λ new. IfSome inline (λ most. NoneLeft new most)) }
    ensures sound { IfOk result (λ new. is_sound_flow new ≡ true) }
    ensures flow { IfOk result (λ new. FlowOf (program_of program.now.program) new) }
{
    match inline {
        Some(most) => inlined_all(alloc, flow, counts, most),
        None => Ok(flow),
    }
}

/// The graphs with diamonds converted, where that is asked.
fn converted(alloc: Global, flow: Flow, select: Option<u32>) -> Result<Flow, NoMemory>
    requires sound { is_sound_flow flow ≡ true }
    requires sides { IfSome select (λ most. (1 ≤ most) × (most ≤ 16)) }
    ensures converted { IfOk result (λ new. ConvertedBy select flow new) }
    ensures sound { IfOk result (λ new. is_sound_flow new ≡ true) }
{
    match select {
        Some(most) => vx_select::selection::select(alloc, flow, most),
        None => Ok(flow),
    }
}
