// Graphs as a plain text: function by function, block by block, an operation a line.

use crate::declarations::ArrayNames;
use crate::operations::{put_exit, put_function, put_op};
use crate::page::{Page, small};
use crate::view::{Names, names_of_graph};
use vx_base::listed::Bytes;
use vx_flow::graph::{Block, Flow, Graph, Value};
use vx_profile::counts::Counts;

fn put_block(page: &mut Page, names: &Names, number: u32, count: u64, block: &Block) {
    page.field(b"block ", number);
    page.put(b" count ");
    page.long(count);
    page.put(b"\n");
    for op in block.ops.as_slice() {
        page.put(b"  ");
        put_op(page, names, op);
        page.put(b"\n");
    }
    page.put(b"  ");
    put_exit(page, names, &block.exit);
    page.put(b"\n");
}

fn put_parameters(page: &mut Page, parameters: &[Value]) {
    page.put(b" parameters");
    for value in parameters {
        page.field(b" v", *value);
    }
    page.put(b"\n");
}

fn put_graph(page: &mut Page, names: &Names, number: u32, counts: &Counts, graph: &Graph) {
    page.field(b"function ", number);
    page.put(b" ");
    put_function(page, names, number);
    put_parameters(page, graph.parameters.as_slice());
    for (place, block) in graph.blocks.as_slice().iter().enumerate() {
        let count = counts.of_block(number, small(place));
        put_block(page, names, small(place), count, block);
    }
}

/// Puts the graphs of a program, whose functions and arrays have these names, as a plain text.
pub fn put_graphs(
    page: &mut Page,
    functions: &[Bytes],
    arrays: &ArrayNames,
    counts: &Counts,
    flow: &Flow,
) {
    for (number, graph) in flow.functions.as_slice().iter().enumerate() {
        let function = small(number);
        let names = names_of_graph(functions, arrays, flow, function, graph);
        put_graph(page, &names, function, counts, graph);
    }
}
