// Whether graphs are ones that the calls on graphs and flows ask for. The clauses are `Sound` and `SoundFlow` of vx_flow's
// specs/Sound.antt, and the tests there. Nothing here takes memory: each operation is tested once with what it names, and each place
// of, and each access to, an array that is no global, and each base, by at most one pass over the operations of its graph.

ghost use Rattle.std.specs.Prelude.{◌≡◌, ◌↔◌, ◌==◌, true, not};
ghost use Rattle.std.specs.List.{list_all, list_any};
ghost use Rattle.vx_flow.specs.Sound.{block_keeps, has_place_in, is_access_placed, is_kept, is_only_place, is_place_in, is_placed, is_placed_by, is_placed_in, is_sound, is_sound_block, is_sound_flow, is_sound_function, is_sound_in, is_value, keeps_place, leaves_alone, Sound, SoundFlow};

use crate::bases::{are_arrays_kept, blocks_keep_base, is_based, is_parameter, is_result};
use crate::named::{are_general, is_place_in, is_sound_exit, is_sound_operation, keeps_place};
use crate::program_names::{
    are_blocks_there, are_distinct, are_others, begins_with, has_parameters,
};
use vx_flow::arrays::{is_handed, is_local};
use vx_flow::graph::{Block, Exit, Flow, Graph, Op, Operand, Value};
use vx_flow::operands::is_value;

/// Whether all of this holds of a graph.
///
/// - The blocks, values and arrays that are named are there, and kinds agree: parameters, operands and the results
///   of calls are general values, tests are branch values, and a compare to a branch value writes one.
/// - No operand is the stack pointer but that of a `Base` of a local array, which always is; that of a global array is
///   `Number(0)`. No block holds an `Across`.
/// - An array with a base was handed over: it has no words of its own and is no global, and its base is a parameter. The
///   array of a `PlaceIn` is such an array, whose base it names, and that of a `Place` or a `Base` is none.
/// - A value that a `Place` of a local array or a `PlaceIn` writes is written only by such places of that array. It is
///   no parameter and no result of a call, and it is used only as the place of that array's loads and stores.
/// - A load or store of a local array has such a value or a number as its place, one of an array that was handed over
///   such a value.
/// - The base of an array is written by no operation and no call. A value that a `Base` writes is no parameter and no
///   result of a call, and is written only by `Base`s. Both are read only by `PlaceIn`s, as their bases, and as
///   arguments.
/// - What stands as the right operand of a move is `Number(0)`.
///
/// It takes no memory. The time is that of one pass over the graph, and of one more for each base, each place of an array
/// that is no global, and each access to one.
pub fn graph_is_sound(graph: &Graph) -> bool
    ensures test { result ≡ is_sound graph.now }
    ensures words { (result ≡ true) ↔ Sound graph.now }
{
    is_sound_graph(graph)
}

/// Whether all of this holds of the graphs of a program.
///
/// - Every graph is sound, has at least one block and has no parameter twice.
/// - `main`, every function that is called and every text that is named are there.
/// - `main` has no parameter, and a call has one argument for each parameter of its function. It is a base exactly where
///   the parameter is the base of an array.
/// - The arrays of every graph begin with the globals in their order, with their words, and no later array is
///   global.
///
/// It takes no memory.
pub fn flow_is_sound(flow: &Flow) -> bool
    ensures test { result ≡ is_sound_flow flow.now }
    ensures words { (result ≡ true) ↔ SoundFlow flow.now }
{
    is_sound_flow(flow)
}

fn is_sound_graph(graph: &Graph) -> bool
    ensures { result ≡ is_sound graph.now }
{
    are_general(graph.banks.as_slice(), graph.parameters.as_slice())
        && are_sound_blocks(graph, graph.blocks.as_slice())
        && are_arrays_kept(graph, graph.arrays.as_slice())
}

fn is_sound_flow(flow: &Flow) -> bool
    ensures { result ≡ is_sound_flow flow.now }
{
    has_parameters(0, flow.functions.as_slice(), flow.main)
        && are_sound_functions(flow, flow.functions.as_slice())
}

/// Each operation with what it names, and the exit.
fn is_sound_block(graph: &Graph, block: &Block) -> bool
    ensures { result ≡ is_sound_block graph.now block.now }
{
    are_sound_in(graph, block.ops.as_slice())
        && is_sound_exit(graph.banks.as_slice(), graph.blocks.len(), &block.exit)
}

fn are_sound_blocks(graph: &Graph, blocks: &[Block]) -> bool
    ensures { result ≡ list_all (is_sound_block graph.now) blocks.now }
{
    for block in blocks {
        if !is_sound_block(graph, block) {
            return false;
        }
    }
    true
}

fn are_sound_in(graph: &Graph, ops: &[Op]) -> bool
    ensures { result ≡ list_all (is_sound_in graph.now) ops.now }
{
    for op in ops {
        if !is_sound_in(graph, op) {
            return false;
        }
    }
    true
}

fn is_sound_in(graph: &Graph, op: &Op) -> bool
    ensures { result ≡ is_sound_in graph.now op.now }
{
    is_sound_operation(graph.banks.as_slice(), graph.arrays.len(), op)
        && is_based(graph.arrays.as_slice(), op)
        && is_kept(graph, op)
        && is_access_placed(graph, op)
}

/// Where the operation is a place of a local array, or of one that was handed over, whether its value is only that; where it is a base,
/// whether its value is only a base and no parameter.
fn is_kept(graph: &Graph, op: &Op) -> bool
    ensures { result ≡ is_kept graph.now op.now }
{
    match op {
        Op::Place { to, array, .. } => {
            !is_local(graph.arrays.as_slice(), *array) || is_only_place(graph, *to, *array)
        }
        Op::PlaceIn { to, array, .. } => is_only_place(graph, *to, *array),
        Op::Base { to, .. } => {
            !is_parameter(graph, *to) && blocks_keep_base(*to, graph.blocks.as_slice())
        }
        _ => true,
    }
}

/// Whether the value is a place of the array and nothing else.
fn is_only_place(graph: &Graph, value: Value, array: u32) -> bool
    ensures { result ≡ is_only_place graph.now value array }
{
    are_others(value, graph.parameters.as_slice())
        && blocks_keep(value, array, graph.blocks.as_slice())
}

fn block_keeps(value: Value, array: u32, block: &Block) -> bool
    ensures { result ≡ block_keeps value array block.now }
{
    keep_place(value, array, block.ops.as_slice()) && leaves_alone(value, &block.exit)
}

fn blocks_keep(value: Value, array: u32, blocks: &[Block]) -> bool
    ensures { result ≡ list_all (block_keeps value array) blocks.now }
{
    for block in blocks {
        if !block_keeps(value, array, block) {
            return false;
        }
    }
    true
}

fn keep_place(value: Value, array: u32, ops: &[Op]) -> bool
    ensures { result ≡ list_all (keeps_place value array) ops.now }
{
    for op in ops {
        if !keeps_place(value, array, op) {
            return false;
        }
    }
    true
}

fn are_not_held(value: Value, operands: &[Operand]) -> bool
    ensures { result ≡ list_all (λ x. not (is_value value x)) operands.now }
{
    for operand in operands {
        if is_value(value, operand) {
            return false;
        }
    }
    true
}

/// Whether the exit neither reads nor writes the value.
fn leaves_alone(value: Value, exit: &Exit) -> bool
    ensures { result ≡ leaves_alone value exit.now }
{
    match exit {
        Exit::Goto(_) => true,
        Exit::Split { test, .. } => *test != value,
        Exit::Call {
            arguments,
            result,
            ..
        } => { are_not_held(value, arguments.as_slice()) && !is_result(value, *result) }
        Exit::Return(operand) => !is_value(value, operand),
        Exit::Ends(_) => true,
    }
}

/// Where the operation is an access to an array, whether its place is what the array asks.
fn is_access_placed(graph: &Graph, op: &Op) -> bool
    ensures { result ≡ is_access_placed graph.now op.now }
{
    match op {
        Op::Load { array, place, .. } => is_placed_in(graph, *array, place),
        Op::Store { array, place, .. } => is_placed_in(graph, *array, place),
        _ => true,
    }
}

/// A local array is accessed at numbers and at values that its places write, one that was handed over at such values alone.
fn is_placed_in(graph: &Graph, array: u32, place: &Operand) -> bool
    ensures { result ≡ is_placed_in graph.now array place.now }
{
    (!is_local(graph.arrays.as_slice(), array) || is_placed(graph, array, place))
        && (!is_handed(graph.arrays.as_slice(), array) || is_placed_by(graph, array, place))
}

fn is_placed(graph: &Graph, array: u32, place: &Operand) -> bool
    ensures { result ≡ is_placed graph.now array place.now }
{
    match place {
        Operand::Held(_) => is_placed_by(graph, array, place),
        Operand::Number(_) => true,
        Operand::Stack => false,
    }
}

fn is_placed_by(graph: &Graph, array: u32, place: &Operand) -> bool
    ensures { result ≡ is_placed_by graph.now array place.now }
{
    match place {
        Operand::Held(value) => have_place_in(*value, array, graph.blocks.as_slice()),
        _ => false,
    }
}

fn has_place_in(value: Value, array: u32, block: &Block) -> bool
    ensures { result ≡ has_place_in value array block.now }
{
    is_place_among(value, array, block.ops.as_slice())
}

fn have_place_in(value: Value, array: u32, blocks: &[Block]) -> bool
    ensures { result ≡ list_any (has_place_in value array) blocks.now }
{
    for block in blocks {
        if has_place_in(value, array, block) {
            return true;
        }
    }
    false
}

fn is_place_among(value: Value, array: u32, ops: &[Op]) -> bool
    ensures { result ≡ list_any (is_place_in value array) ops.now }
{
    for op in ops {
        if is_place_in(value, array, op) {
            return true;
        }
    }
    false
}

/// Whether a graph is sound, and what it names of the program is there.
pub(crate) fn is_sound_function(flow: &Flow, graph: &Graph) -> bool
    ensures { result ≡ is_sound_function flow.now graph.now }
{
    is_sound_graph(graph)
        && !graph.blocks.is_empty()
        && are_distinct(graph.parameters.as_slice())
        && begins_with(flow.globals.as_slice(), graph.arrays.as_slice())
        && are_blocks_there(flow, graph, graph.blocks.as_slice())
}

fn are_sound_functions(flow: &Flow, graphs: &[Graph]) -> bool
    ensures { result ≡ list_all (is_sound_function flow.now) graphs.now }
{
    for graph in graphs {
        if !is_sound_function(flow, graph) {
            return false;
        }
    }
    true
}
