// The back edges and headers of graphs worked out by hand.

ghost use Rattle.vx_flow.specs.Walking.{LeadWithin};

use std::alloc::Global;
use std::test::Fail;
use vx_base::outcome::NoMemory;
use vx_flow::graph::{Bank, Edge, Graph, Operand};
use vx_flow::{back_edges, headers};
use vx_sound::graph_is_sound;
use vx_test_graphs::{Part, Shape, Way, graph};

const RETURNS: Way = Way::Return(Operand::Number(0));

/// Block 0 goes to 1, block 1 splits to 2 and 3, block 2 goes to 1, block 3 returns.
const LOOP: [Part<'static>; 4] = [
    Part(&[], Way::Goto(1)),
    Part(&[], Way::Split(0, 2, 3)),
    Part(&[], Way::Goto(1)),
    Part(&[], RETURNS),
];

/// Blocks 1 and 2 lead to each other, both from block 0. The walk comes to 1 first, from there to 2, and back from 2 to 1;
/// the edges from 0 to 2 and to 3 go across and forward. Block 4 is reached by no edge and leads to itself.
const ACROSS: [Part<'static>; 5] = [
    Part(&[], Way::Split(0, 2, 1)),
    Part(&[], Way::Split(0, 3, 2)),
    Part(&[], Way::Split(0, 1, 3)),
    Part(&[], RETURNS),
    Part(&[], Way::Goto(4)),
];

fn are_back(alloc: Global, graph: &Graph, wanted: &[Edge]) -> Result<bool, NoMemory>
    requires { LeadWithin graph.now }
{
    let back = back_edges(alloc, graph)?;
    Ok(back.as_slice() == wanted)
}

fn are_headers(alloc: Global, graph: &Graph, wanted: &[u32]) -> Result<bool, NoMemory>
    requires { LeadWithin graph.now }
{
    let headers = headers(alloc, graph)?;
    Ok(headers.as_slice() == wanted)
}

/// Whether a graph is sound and has these back edges and headers.
fn has(alloc: Global, graph: &Graph, back: &[Edge], headers: &[u32]) -> Result<bool, NoMemory> {
    if !graph_is_sound(graph) {
        return Ok(false);
    }
    Ok(are_back(alloc, graph, back)? && are_headers(alloc, graph, headers)?)
}

/// Whether blocks make such a graph.
fn have(alloc: Global, parts: &[Part], back: &[Edge], headers: &[u32]) -> Result<bool, NoMemory> {
    let shape = Shape {
        parts,
        banks: &[Bank::Branch],
        parameters: &[],
        arrays: &[],
    };
    let graph = graph(alloc, &shape)?;
    has(alloc, &graph, back, headers)
}

#[test]
fn back_edges_and_headers(rt: HostRuntime) -> Result<(), Fail> {
    let one = [Edge { from: 2, to: 1 }];
    let two = [Edge { from: 2, to: 1 }, Edge { from: 4, to: 4 }];
    assert!(rt; have(rt.alloc(), &LOOP, &one, &[1])?);
    assert!(rt; have(rt.alloc(), &ACROSS, &two, &[1, 4])?);
    Ok(())
}
