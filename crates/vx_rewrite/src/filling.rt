// Graphs with all the values that their functions allow, so that calls and diamonds find room.

ghost use Rattle.std.specs.Prelude.{◌≡◌, ◌<◌, ◌^◌, true, map, IfOk};
ghost use Rattle.vx_ast.specs.Accepted.{function_nodes};
ghost use Rattle.vx_ast.specs.View.{function_of, program_of};
ghost use Rattle.vx_flow.specs.Sound.{is_sound_flow};
ghost use Rattle.vx_lower.specs.FlowOf.{FlowOf};
ghost use Rattle.vx_rewrite.specs.Filling.{AreSmall};
ghost use Rattle.vx_rewrite.specs.Rewritten.{IsFull};

use std::alloc::Global;
use vx_ast::tree::Function;
use vx_ast::typed::Typed;
use vx_base::outcome::NoMemory;
use vx_flow::graph::Flow;
use vx_limits::nodes;
use vx_select::padding::padded;

/// How many nodes a function has.
fn nodes_in(function: &Function) -> u32
    requires { function_nodes (function_of function.now) < 2 ^ 32 }
    ensures { result ≡ function_nodes (function_of function.now) }
{
    nodes(function)
}

/// How many nodes each function has.
fn sizes_in(alloc: Global, functions: &[Function]) -> Result<Vec<u32>, NoMemory>
    requires { AreSmall (map function_of functions.now) }
    ensures { IfOk result (λ sizes. sizes.items ≡ map function_nodes (map function_of functions.now)) }
{
    let mut sizes = Vec::new(alloc);
    for function in functions {
        sizes.push(nodes_in(function))?;
    }
    Ok(sizes)
}

/// The graphs of a program with exactly three general values and two branch values for each node of their functions.
pub(crate) fn filled(alloc: Global, program: &Typed, flow: Flow) -> Result<Flow, NoMemory>
    requires { FlowOf (program_of program.now.program) flow }
    ensures full { IfOk result (λ new. IsFull (program_of program.now.program) new) }
    ensures sound { IfOk result (λ new. is_sound_flow new ≡ true) }
    ensures flow { IfOk result (λ new. FlowOf (program_of program.now.program) new) }
{
    let sizes = sizes_in(alloc, program.program.functions.as_slice())?;
    padded(alloc, flow, sizes.as_slice())
}
