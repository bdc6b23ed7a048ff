// Whether calls hand over what their functions take: an argument for each parameter, which is a base exactly where the parameter is the
// base of an array.

ghost use Rattle.std.specs.Prelude.{◌≡◌, ◌==◌, ◌∷◌, [], map, slice_get, IfOk};
ghost use Rattle.std.specs.List.{list_all, list_any};
ghost use Rattle.vx_flow.specs.Sound.{agrees, hands_over, is_base, is_base_operand, is_given_base, is_that, makes_base, takes};
ghost use Rattle.vx_sound.specs.Origins.{bases_taken, hands_shown, is_block_named, is_call_shown, takes_shown};

use crate::bases::{is_that, makes_base};
use crate::origins::Origin;
use crate::places::is_free_operand;
use crate::program_names::are_texts_there;
use std::alloc::Global;
use vx_base::listed::Listed;
use vx_base::outcome::NoMemory;
use vx_flow::graph::{Array, Block, Exit, Flow, Graph, Op, Operand, Value};

// Without memory: bases are looked for in the whole graph.

/// Whether the function is there and takes these arguments of a graph.
pub(crate) fn takes(
    graph: &Graph,
    arguments: &[Operand],
    functions: &[Graph],
    function: u32,
) -> bool
    ensures { result ≡ takes graph.now arguments.now (slice_get functions.now function) }
{
    match functions.get(function as usize) {
        Some(called) => hands_over(graph, called, arguments, called.parameters.as_slice()),
        None => false,
    }
}

fn hands_over(graph: &Graph, called: &Graph, arguments: &[Operand], parameters: &[Value]) -> bool
    ensures { result ≡ hands_over graph.now called.now arguments.now parameters.now }
{
    let mut left = parameters;
    for argument in arguments {
        match left {
            [parameter, later @ ..] => {
                if !agrees(
                    is_base_operand(graph, argument),
                    is_given_base(called, *parameter),
                ) {
                    return false;
                }
                left = later;
            }
            [] => return false,
        }
    }
    left.is_empty()
}

fn agrees(one: bool, other: bool) -> bool
    ensures { result ≡ agrees one other }
{
    one == other
}

fn is_base_operand(graph: &Graph, operand: &Operand) -> bool
    ensures { result ≡ is_base_operand graph.now operand.now }
{
    match operand {
        Operand::Held(value) => is_base(graph, *value),
        _ => false,
    }
}

/// Whether the value is the base of an array that was handed over, or one that the graph makes.
fn is_base(graph: &Graph, value: Value) -> bool
    ensures { result ≡ is_base graph.now value }
{
    is_given_base(graph, value) || blocks_make(value, graph.blocks.as_slice())
}

/// Whether the value is the base of an array that was handed over to the graph.
fn is_given_base(graph: &Graph, value: Value) -> bool
    ensures { result ≡ is_given_base graph.now value }
{
    have_base(graph.arrays.as_slice(), value)
}

fn have_base(arrays: &[Array], value: Value) -> bool
    ensures { result ≡ list_any (λ array. is_that value array.base) arrays.now }
{
    for array in arrays {
        if is_that(value, array.base) {
            return true;
        }
    }
    false
}

fn blocks_make(value: Value, blocks: &[Block]) -> bool
    ensures { result ≡ list_any (λ block. list_any (makes_base value) block.ops) blocks.now }
{
    for block in blocks {
        if block_makes(value, block) {
            return true;
        }
    }
    false
}

fn block_makes(value: Value, block: &Block) -> bool
    ensures { result ≡ list_any (makes_base value) block.now.ops }
{
    ops_make(value, block.ops.as_slice())
}

fn ops_make(value: Value, ops: &[Op]) -> bool
    ensures { result ≡ list_any (makes_base value) ops.now }
{
    for op in ops {
        if makes_base(value, op) {
            return true;
        }
    }
    false
}

// By tables: what is noted of each value of the graph, and what each function takes.

/// For each function which of its parameters are bases.
pub(crate) fn all_taken(
    alloc: Global,
    functions: &[Graph],
) -> Result<Listed<Listed<bool>>, NoMemory>
    ensures { IfOk result (λ taken. taken ≡ map bases_taken functions.now) }
{
    let mut taken = Listed::new(alloc);
    let mut rest = functions;
    'take: loop {
        match rest.split_first() {
            None => return Ok(taken),
            Some((function, others)) => {
                taken.push(bases_taken(alloc, function)?)?;
                rest = others;
            }
        }
    }
}

fn bases_taken(alloc: Global, graph: &Graph) -> Result<Listed<bool>, NoMemory>
    ensures { IfOk result (λ taken. taken ≡ bases_taken graph.now) }
{
    let mut taken = Listed::new(alloc);
    let mut rest = graph.parameters.as_slice();
    'mark: loop {
        match rest.split_first() {
            None => return Ok(taken),
            Some((parameter, others)) => {
                taken.push(is_given_base(graph, *parameter))?;
                rest = others;
            }
        }
    }
}

/// Whether the texts that blocks print are there, and the functions that they call, which take the arguments.
pub(crate) fn are_blocks_named(
    origins: &[Option<Origin>],
    taken: &[Listed<bool>],
    flow: &Flow,
    blocks: &[Block],
) -> bool
    ensures { result ≡ list_all (is_block_named origins.now taken.now flow.now) blocks.now }
{
    for block in blocks {
        if !is_block_named(origins, taken, flow, block) {
            return false;
        }
    }
    true
}

fn is_block_named(
    origins: &[Option<Origin>],
    taken: &[Listed<bool>],
    flow: &Flow,
    block: &Block,
) -> bool
    ensures { result ≡ is_block_named origins.now taken.now flow.now block.now }
{
    are_texts_there(flow, block.ops.as_slice()) && is_call_shown(origins, taken, &block.exit)
}

fn is_call_shown(origins: &[Option<Origin>], taken: &[Listed<bool>], exit: &Exit) -> bool
    ensures { result ≡ is_call_shown origins.now taken.now exit.now }
{
    match exit {
        Exit::Call {
            function,
            arguments,
            ..
        } => takes_shown(origins, arguments.as_slice(), taken, *function),
        _ => true,
    }
}

fn takes_shown(
    origins: &[Option<Origin>],
    arguments: &[Operand],
    taken: &[Listed<bool>],
    function: u32,
) -> bool
    ensures { result ≡ takes_shown origins.now arguments.now (slice_get taken.now function) }
{
    match taken.get(function as usize) {
        Some(bases) => hands_shown(origins, arguments, bases.as_slice()),
        None => false,
    }
}

fn hands_shown(origins: &[Option<Origin>], arguments: &[Operand], bases: &[bool]) -> bool
    ensures { result ≡ hands_shown origins.now arguments.now bases.now }
{
    let mut left = bases;
    for argument in arguments {
        match left {
            [base, later @ ..] => {
                if !agrees(!is_free_operand(origins, argument), *base) {
                    return false;
                }
                left = later;
            }
            [] => return false,
        }
    }
    left.is_empty()
}
