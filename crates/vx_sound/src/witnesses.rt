// What stands where a table of origins notes it. Nothing here takes memory.

ghost use Rattle.std.specs.Prelude.{◌≡◌, slice_get};
ghost use Rattle.vx_sound.specs.Origins.{is_base_found, is_base_of, is_found, is_made_at, is_place_at, is_place_of};

use crate::bases::{is_that, makes_base};
use crate::named::is_place_in;
use crate::origins::Origin;
use vx_flow::arrays::base_at;
use vx_flow::graph::{ArrayId, Block, Graph, Op, Value};

/// Whether a place of the array stands where it is noted, and writes the value.
pub(crate) fn is_found(origin: Option<Origin>, graph: &Graph, value: Value, array: ArrayId) -> bool
    ensures { result ≡ is_found graph.now.blocks value array origin }
{
    match origin {
        Some(Origin::Element { block, op, .. }) => is_place_at(
            graph.blocks.as_slice(),
            block,
            op,
            value,
            array,
        ),
        _ => false,
    }
}

/// Whether a value is a base as is noted: one that is made there, or that of the array and the parameter there.
pub(crate) fn is_base_found(origin: Option<Origin>, graph: &Graph, value: Value) -> bool
    ensures { result ≡ is_base_found graph.now value origin }
{
    match origin {
        Some(Origin::Made { block, op }) => is_made_at(graph.blocks.as_slice(), block, op, value),
        Some(Origin::Given { array, place }) => {
            is_that(value, base_at(graph.arrays.as_slice(), array))
                && is_that(value, value_at(graph.parameters.as_slice(), place))
        }
        _ => false,
    }
}

fn value_at(values: &[Value], place: usize) -> Option<Value>
    ensures { result ≡ slice_get values.now place }
{
    match values.get(place) {
        Some(value) => Some(*value),
        None => None,
    }
}

fn is_made_at(blocks: &[Block], block: usize, op: usize, value: Value) -> bool
    ensures { result ≡ is_made_at value op (slice_get blocks.now block) }
{
    match blocks.get(block) {
        Some(found) => is_base_of(found.ops.as_slice(), op, value),
        None => false,
    }
}

fn is_base_of(ops: &[Op], op: usize, value: Value) -> bool
    ensures { result ≡ is_base_of value (slice_get ops.now op) }
{
    match ops.get(op) {
        Some(found) => makes_base(value, found),
        None => false,
    }
}

fn is_place_at(blocks: &[Block], block: usize, op: usize, value: Value, array: ArrayId) -> bool
    ensures { result ≡ is_place_at value array op (slice_get blocks.now block) }
{
    match blocks.get(block) {
        Some(found) => is_place_of(found.ops.as_slice(), op, value, array),
        None => false,
    }
}

fn is_place_of(ops: &[Op], op: usize, value: Value, array: ArrayId) -> bool
    ensures { result ≡ is_place_of value array (slice_get ops.now op) }
{
    match ops.get(op) {
        Some(found) => is_place_in(value, array, found),
        None => false,
    }
}
