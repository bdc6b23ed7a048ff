// The values that are places of arrays or bases of them, and where that is seen. Whatever is noted here is tested before it is used.

ghost use Rattle.std.specs.Prelude.{◌≡◌};
ghost use Rattle.vx_sound.specs.Origins.{noted};

use std::alloc::Global;
use vx_base::outcome::NoMemory;
use vx_flow::arrays::is_local;
use vx_flow::graph::{Array, ArrayId, Graph, Op, Value};

/// What a value is that is no number, and where that is seen.
#[derive(Clone, Copy)]
pub enum Origin {
    /// A place of an array, which is local or was handed over. One that writes the value stands in this block, behind so many
    /// operations.
    Element {
        array: ArrayId,
        block: usize,
        op: usize,
    },
    /// A base that is made. One that writes the value stands in this block, behind so many operations.
    Made {
        block: usize,
        op: usize,
    },
    /// The base of this array, which was handed over. It is the parameter at this place.
    Given {
        array: ArrayId,
        place: usize,
    },
}

/// For each value of a graph the origin that was found last. The time is that of one pass over the arrays and the blocks, and of one
/// over the parameters.
pub(crate) fn find_origins(alloc: Global, graph: &Graph) -> Result<Vec<Option<Origin>>, NoMemory> {
    let mut origins = vec![in alloc; None; graph.banks.len()]?;
    note_bases(&mut origins, graph.arrays.as_slice());
    note_parameters(&mut origins, graph.parameters.as_slice());
    for (block, found) in graph.blocks.as_slice().iter().enumerate() {
        note_ops(
            &mut origins,
            graph.arrays.as_slice(),
            block,
            found.ops.as_slice(),
        );
    }
    Ok(origins)
}

fn note_bases(origins: &mut Vec<Option<Origin>>, arrays: &[Array]) {
    let mut number = 0;
    for array in arrays {
        if let Some(base) = array.base {
            note(
                origins,
                base,
                Origin::Given {
                    array: number,
                    place: 0,
                },
            );
        }
        number = number.wrapping_add(1);
    }
}

/// Where a parameter is noted as a base, its place.
fn note_parameters(origins: &mut Vec<Option<Origin>>, parameters: &[Value]) {
    for (place, parameter) in parameters.iter().enumerate() {
        if let Some(Origin::Given { array, .. }) = noted(origins.as_slice(), *parameter) {
            note(origins, *parameter, Origin::Given { array, place });
        }
    }
}

fn note_ops(origins: &mut Vec<Option<Origin>>, arrays: &[Array], block: usize, ops: &[Op]) {
    for (op, found) in ops.iter().enumerate() {
        match found {
            Op::Place { to, array, .. } => {
                if is_local(arrays, *array) {
                    note_element(origins, *to, *array, block, op);
                }
            }
            Op::PlaceIn { to, array, .. } => note_element(origins, *to, *array, block, op),
            Op::Base { to, .. } => note(origins, *to, Origin::Made { block, op }),
            _ => {}
        }
    }
}

fn note_element(
    origins: &mut Vec<Option<Origin>>,
    value: Value,
    array: ArrayId,
    block: usize,
    op: usize,
) {
    note(origins, value, Origin::Element { array, block, op });
}

fn note(origins: &mut Vec<Option<Origin>>, value: Value, origin: Origin) {
    if (value as usize) < origins.len() {
        origins[value as usize] = Some(origin);
    }
}

/// What is noted of a value.
pub fn noted(origins: &[Option<Origin>], value: Value) -> Option<Origin>
    ensures { result ≡ noted origins.now value }
{
    match origins.get(value as usize) {
        Some(origin) => *origin,
        None => None,
    }
}
