// Whether a table of origins shows a graph sound: each operation, exit and array is tested once with the table. Nothing here takes
// memory.

ghost use Rattle.std.specs.Prelude.{◌≡◌};
ghost use Rattle.std.specs.List.{list_all};
ghost use Rattle.vx_sound.specs.Origins.{are_free_reads, is_argument, is_array, is_for, is_free, is_free_operand, is_free_or_none, is_given_at, is_given_one, is_made, is_made_one, is_origin, is_parameter_shown, is_place_or_free, is_shown, is_shown_access, is_shown_array, is_shown_base, is_shown_block, is_shown_by, is_shown_in, is_shown_place, keeps_origins, leaves_origins};

use crate::bases::is_based;
use crate::named::{are_general, is_sound_exit, is_sound_operation};
use crate::origins::{Origin, noted};
use crate::witnesses::{is_base_found, is_found};
use vx_flow::arrays::{is_handed, is_local};
use vx_flow::graph::{Array, ArrayId, Block, Exit, Graph, Op, Operand, Value};
use vx_flow::operands::{Reads, read_by, written_by};

/// Whether a table shows that a graph is sound.
pub fn is_shown(origins: &[Option<Origin>], graph: &Graph) -> bool
    ensures { result ≡ is_shown origins.now graph.now }
{
    are_general(graph.banks.as_slice(), graph.parameters.as_slice())
        && are_parameters_shown(origins, graph.parameters.as_slice())
        && are_shown_blocks(origins, graph, graph.blocks.as_slice())
        && are_shown_arrays(origins, graph, graph.arrays.as_slice())
}

fn are_parameters_shown(origins: &[Option<Origin>], values: &[Value]) -> bool
    ensures { result ≡ list_all (is_parameter_shown origins.now) values.now }
{
    for value in values {
        if !is_parameter_shown(origins, *value) {
            return false;
        }
    }
    true
}

/// A parameter is a number or the base of an array that was handed over.
fn is_parameter_shown(origins: &[Option<Origin>], value: Value) -> bool
    ensures { result ≡ is_parameter_shown origins.now value }
{
    is_free(origins, value) || is_given_at(origins, value)
}

fn are_shown_arrays(origins: &[Option<Origin>], graph: &Graph, arrays: &[Array]) -> bool
    ensures { result ≡ list_all (is_shown_array origins.now graph.now) arrays.now }
{
    for array in arrays {
        if !is_shown_array(origins, graph, array) {
            return false;
        }
    }
    true
}

/// An array that was handed over has no words of its own, and its base is noted.
fn is_shown_array(origins: &[Option<Origin>], graph: &Graph, array: &Array) -> bool
    ensures { result ≡ is_shown_array origins.now graph.now array.now }
{
    is_shown_base(origins, graph, array, array.base)
}

fn is_shown_base(
    origins: &[Option<Origin>],
    graph: &Graph,
    array: &Array,
    base: Option<Value>,
) -> bool
    ensures { result ≡ is_shown_base origins.now graph.now array.now base }
{
    match base {
        Some(base) => {
            !array.global
                && array.words == 0
                && is_given_at(origins, base)
                && is_base_found(noted(origins, base), graph, base)
        }
        None => true,
    }
}

fn are_shown_blocks(origins: &[Option<Origin>], graph: &Graph, blocks: &[Block]) -> bool
    ensures { result ≡ list_all (is_shown_block origins.now graph.now) blocks.now }
{
    for block in blocks {
        if !is_shown_block(origins, graph, block) {
            return false;
        }
    }
    true
}

fn is_shown_block(origins: &[Option<Origin>], graph: &Graph, block: &Block) -> bool
    ensures { result ≡ is_shown_block origins.now graph.now block.now }
{
    are_shown_in(origins, graph, block.ops.as_slice())
        && is_sound_exit(graph.banks.as_slice(), graph.blocks.len(), &block.exit)
        && leaves_origins(origins, graph, &block.exit)
}

fn are_shown_in(origins: &[Option<Origin>], graph: &Graph, ops: &[Op]) -> bool
    ensures { result ≡ list_all (is_shown_in origins.now graph.now) ops.now }
{
    for op in ops {
        if !is_shown_in(origins, graph, op) {
            return false;
        }
    }
    true
}

fn is_shown_in(origins: &[Option<Origin>], graph: &Graph, op: &Op) -> bool
    ensures { result ≡ is_shown_in origins.now graph.now op.now }
{
    is_sound_operation(graph.banks.as_slice(), graph.arrays.len(), op)
        && is_based(graph.arrays.as_slice(), op)
        && keeps_origins(origins, op)
        && is_origin(origins, graph, op)
}

/// Whether nothing is noted of a value.
fn is_free(origins: &[Option<Origin>], value: Value) -> bool
    ensures { result ≡ is_free origins.now value }
{
    match noted(origins, value) {
        Some(_) => false,
        None => true,
    }
}

/// Whether a value is noted as a place of the array.
fn is_array(origins: &[Option<Origin>], array: ArrayId, value: Value) -> bool
    ensures { result ≡ is_array origins.now array value }
{
    is_for(noted(origins, value), array)
}

fn is_for(origin: Option<Origin>, array: ArrayId) -> bool
    ensures { result ≡ is_for array origin }
{
    match origin {
        Some(Origin::Element { array: other, .. }) => other == array,
        _ => false,
    }
}

/// Whether a value is noted as a base that is made.
fn is_made(origins: &[Option<Origin>], value: Value) -> bool
    ensures { result ≡ is_made origins.now value }
{
    is_made_one(noted(origins, value))
}

fn is_made_one(origin: Option<Origin>) -> bool
    ensures { result ≡ is_made_one origin }
{
    match origin {
        Some(Origin::Made { .. }) => true,
        _ => false,
    }
}

/// Whether a value is noted as the base of an array that was handed over.
fn is_given_at(origins: &[Option<Origin>], value: Value) -> bool
    ensures { result ≡ is_given_at origins.now value }
{
    is_given_one(noted(origins, value))
}

fn is_given_one(origin: Option<Origin>) -> bool
    ensures { result ≡ is_given_one origin }
{
    match origin {
        Some(Origin::Given { .. }) => true,
        _ => false,
    }
}

pub(crate) fn is_free_operand(origins: &[Option<Origin>], operand: &Operand) -> bool
    ensures { result ≡ is_free_operand origins.now operand.now }
{
    match operand {
        Operand::Held(value) => is_free(origins, *value),
        _ => true,
    }
}

/// Whether an operand may be the place of a load or store of the array.
fn is_place_or_free(origins: &[Option<Origin>], array: ArrayId, operand: &Operand) -> bool
    ensures { result ≡ is_place_or_free origins.now array operand.now }
{
    match operand {
        Operand::Held(value) => is_free(origins, *value) || is_array(origins, array, *value),
        _ => true,
    }
}

/// Whether the operation writes what is noted as places of an array only so, and reads it only as the place of that array's loads
/// and stores; and whether it writes what is noted as a base only so, and reads it only to make a place from it.
fn keeps_origins(origins: &[Option<Origin>], op: &Op) -> bool
    ensures { result ≡ keeps_origins origins.now op.now }
{
    match op {
        Op::Place { to, array, index } => {
            (is_free(origins, *to) || is_array(origins, *array, *to))
                && is_free_operand(origins, index)
        }
        Op::Load {
            to,
            array,
            place,
            ..
        } => is_free(origins, *to) && is_place_or_free(origins, *array, place),
        Op::Store { array, place, from } => {
            is_place_or_free(origins, *array, place) && is_free_operand(origins, from)
        }
        Op::Base { to, .. } => is_made(origins, *to),
        Op::PlaceIn {
            to,
            array,
            base,
            index,
        } => {
            is_array(origins, *array, *to)
                && is_free_operand(origins, index)
                && is_given_at(origins, *base)
        }
        _ => is_free_or_none(origins, written_by(op)) && are_free_reads(origins, &read_by(op)),
    }
}

/// Whether nothing is noted of the values that are read.
fn are_free_reads(origins: &[Option<Origin>], read: &Reads) -> bool
    ensures { result ≡ are_free_reads origins.now read.now }
{
    is_free_or_none(origins, read.first)
        && is_free_or_none(origins, read.second)
        && is_free_or_none(origins, read.third)
}

/// Whether the exit neither reads nor writes what is noted.
fn leaves_origins(origins: &[Option<Origin>], graph: &Graph, exit: &Exit) -> bool
    ensures { result ≡ leaves_origins origins.now graph.now exit.now }
{
    match exit {
        Exit::Goto(_) => true,
        Exit::Split { test, .. } => is_free(origins, *test),
        Exit::Call {
            arguments,
            result,
            ..
        } => {
            are_arguments(origins, graph, arguments.as_slice()) && is_free_or_none(origins, *result)
        }
        Exit::Return(operand) => is_free_operand(origins, operand),
        Exit::Ends(_) => true,
    }
}

fn are_arguments(origins: &[Option<Origin>], graph: &Graph, operands: &[Operand]) -> bool
    ensures { result ≡ list_all (is_argument origins.now graph.now) operands.now }
{
    for operand in operands {
        if !is_argument(origins, graph, operand) {
            return false;
        }
    }
    true
}

/// An argument may be a base.
fn is_argument(origins: &[Option<Origin>], graph: &Graph, operand: &Operand) -> bool
    ensures { result ≡ is_argument origins.now graph.now operand.now }
{
    match operand {
        Operand::Held(value) => {
            is_free(origins, *value) || is_base_found(noted(origins, *value), graph, *value)
        }
        _ => true,
    }
}

/// Whether nothing is noted of the value, if there is one.
fn is_free_or_none(origins: &[Option<Origin>], value: Option<Value>) -> bool
    ensures { result ≡ is_free_or_none origins.now value }
{
    match value {
        Some(value) => is_free(origins, value),
        None => true,
    }
}

/// Whether a place of a local array and a base that is made are noted, and whether a load or store has a place as its array asks.
fn is_origin(origins: &[Option<Origin>], graph: &Graph, op: &Op) -> bool
    ensures { result ≡ is_origin origins.now graph.now op.now }
{
    match op {
        Op::Place { to, array, .. } => {
            !is_local(graph.arrays.as_slice(), *array) || is_array(origins, *array, *to)
        }
        Op::Load { array, place, .. } => is_shown_access(origins, graph, *array, place),
        Op::Store { array, place, .. } => is_shown_access(origins, graph, *array, place),
        Op::Base { to, .. } => is_base_found(noted(origins, *to), graph, *to),
        _ => true,
    }
}

/// A local array is accessed at numbers and at its places, one that was handed over at its places alone.
fn is_shown_access(
    origins: &[Option<Origin>],
    graph: &Graph,
    array: ArrayId,
    place: &Operand,
) -> bool
    ensures { result ≡ is_shown_access origins.now graph.now array place.now }
{
    (!is_local(graph.arrays.as_slice(), array) || is_shown_place(origins, graph, array, place))
        && (!is_handed(graph.arrays.as_slice(), array) || is_shown_by(origins, graph, array, place))
}

fn is_shown_place(
    origins: &[Option<Origin>],
    graph: &Graph,
    array: ArrayId,
    place: &Operand,
) -> bool
    ensures { result ≡ is_shown_place origins.now graph.now array place.now }
{
    match place {
        Operand::Held(_) => is_shown_by(origins, graph, array, place),
        Operand::Number(_) => true,
        Operand::Stack => false,
    }
}

fn is_shown_by(origins: &[Option<Origin>], graph: &Graph, array: ArrayId, place: &Operand) -> bool
    ensures { result ≡ is_shown_by origins.now graph.now array place.now }
{
    match place {
        Operand::Held(value) => is_found(noted(origins, *value), graph, *value, array),
        _ => false,
    }
}
