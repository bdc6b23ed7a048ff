// What a page shows of a trace, and the names that it needs for it.

use crate::declarations::ArrayNames;
use vx_base::listed::Bytes;
use vx_dep::copies::{EdgeCopies, Rejoin};
use vx_dep::mode::Mode;
use vx_flow::graph::{Array, Block, BlockId, Flow, Graph};
use vx_flow::trace::Placed;

/// The names of a program: its functions, the texts that it prints, and the arrays and blocks of one function.
#[derive(Clone, Copy)]
pub struct Names<'a> {
    /// The names of the functions, by number.
    pub functions: &'a [Bytes],
    /// The texts, by number.
    pub texts: &'a [Bytes],
    /// The names of the globals, by number; none where they are not known.
    pub globals: &'a [Bytes],
    /// The names of the function's own arrays, in their order; none where they are not known.
    pub own: &'a [Bytes],
    /// The arrays of the function, by number.
    pub arrays: &'a [Array],
    /// The blocks of the function's graph, by number.
    pub blocks: &'a [Block],
}

/// How many arrays are globals.
fn globals_among(arrays: &[Array]) -> usize {
    let mut count: usize = 0;
    for array in arrays {
        if array.global {
            count = count.saturating_add(1);
        }
    }
    count
}

/// The names of the arrays that a function declares.
fn own_names(found: &ArrayNames, function: u32) -> &[Bytes] {
    match found.own.get(function as usize) {
        Some(own) => own.names.as_slice(),
        None => &[],
    }
}

/// The names for a function of a program and its graph. Arrays have names if the source declares as many as the graph has.
pub fn names_of_graph<'a>(
    functions: &'a [Bytes],
    found: &'a ArrayNames,
    flow: &'a Flow,
    function: u32,
    graph: &'a Graph,
) -> Names<'a> {
    let arrays = graph.arrays.as_slice();
    let globals = found.globals.as_slice();
    let own = own_names(found, function);
    let count = globals_among(arrays);
    let are_known = globals.len() == count && own.len() == arrays.len().saturating_sub(count);
    Names {
        functions,
        texts: flow.texts.as_slice(),
        globals: if are_known { globals } else { &[] },
        own: if are_known { own } else { &[] },
        arrays,
        blocks: graph.blocks.as_slice(),
    }
}

/// A trace that became a region.
#[derive(Clone, Copy)]
pub struct TraceView<'a> {
    /// Its number in the plan, from 0.
    pub number: u32,
    /// The number of its function.
    pub function: u32,
    /// Its blocks, in their order.
    pub blocks: &'a [BlockId],
    /// How often its seed was passed.
    pub count: u64,
    /// Whether operations may pass its splits and joins.
    pub mode: Mode,
    /// Its operations with their clusters and words.
    pub placed: &'a Placed,
    /// What is copied at its splits.
    pub splits: &'a [EdgeCopies],
    /// What is copied at its joins.
    pub rejoins: &'a [Rejoin],
}
