// Short diamonds as selects, in each graph of a flow: as long as there is one, the one with the lowest block is converted.

ghost use Rattle.std.specs.Prelude.{◌≡◌, ◌≤◌, true, IfOk};
ghost use Rattle.vx_ast.specs.Tree.{Program};
ghost use Rattle.vx_flow.specs.Sound.{is_sound_flow};
ghost use Rattle.vx_lower.specs.FlowOf.{FlowOf};
ghost use Rattle.vx_shape.specs.Flows.{Each};
ghost use Rattle.vx_select.specs.Known.{told, whole, AreAddresses};
ghost use Rattle.vx_select.specs.Selected.{converted, Selected, Selects};
ghost use Rattle.vx_select.specs.Step.{Step};

use crate::addresses::addresses;
use crate::conversion::converted;
use crate::corners::Corners;
use crate::known::{Known, known_of};
use crate::search::first;
use crate::values::values_of;
use std::alloc::Global;
use vx_base::listed::Listed;
use vx_base::outcome::NoMemory;
use vx_flow::copies::copied_graph;
use vx_flow::graph::{Flow, Graph};
use vx_shape::copies::with_graphs;

/// The graphs of a program in which no diamond of at most so many operations is left. A diamond is a block with a split whose two
/// sides have no other block before them, only compute and choose general values, and go on to one block. As long as a graph has
/// one, the one with the lowest block is converted: the block that splits takes the operations of both sides, which write values
/// that are free there, then a choice of each value that is live where the sides meet, and goes on to there; the sides are gone
/// (if-conversion). It fails only for want of memory.
pub fn select(alloc: Global, flow: Flow, most: u32) -> Result<Flow, NoMemory>
    requires sound { is_sound_flow flow ≡ true }
    requires least { 1 ≤ most }
    requires greatest { most ≤ 16 }
    ensures selected { IfOk result (λ new. Selected flow most new) }
    ensures flow { IfOk result (λ new. (p : Program) → FlowOf p flow → FlowOf p new) }
    ensures sound { IfOk result (λ new. is_sound_flow new ≡ true) }
{
    let new = selected_flow(alloc, &flow, most);
    drop(flow);
    new
}

fn selected_flow(alloc: Global, flow: &Flow, most: u32) -> Result<Flow, NoMemory>
    ensures { IfOk result (λ new. Selected flow.now most new) }
{
    let functions = selected_graphs(alloc, flow.functions.as_slice(), most)?;
    with_graphs(alloc, flow, functions)
}

fn selected_graphs(alloc: Global, graphs: &[Graph], most: u32) -> Result<Listed<Graph>, NoMemory>
    ensures { IfOk result (λ new. Each (Selects most) graphs.now new) }
{
    let mut new = Listed::new(alloc);
    for graph in graphs {
        new.push(selected_graph(alloc, graph, most)?)?;
    }
    Ok(new)
}

/// The graph without diamonds. Each conversion takes a block away.
fn selected_graph(alloc: Global, graph: &Graph, most: u32) -> Result<Graph, NoMemory>
    ensures { IfOk result (λ new. Selects most graph.now new) }
{
    let mut current = copied_graph(alloc, graph)?;
    'conversions: loop {
        match next(alloc, &current, most)? {
            Some(new) => current = new,
            None => return Ok(current),
        }
    }
}

/// The graph with its lowest diamond converted, if it has one.
#[tactic(auto, using(crate::proofs::Steps::step_none))]
fn next(alloc: Global, graph: &Graph, most: u32) -> Result<Option<Graph>, NoMemory>
    ensures { IfOk result (λ found. Step most graph.now found) }
{
    let known = known_of(alloc, graph)?;
    let addresses = addresses(alloc, graph)?;
    match first(alloc, &known, addresses.as_slice(), graph, most)? {
        Some(corners) => {
            let new = convert(alloc, &known, addresses.as_slice(), graph, &corners)?;
            Ok(Some(new))
        }
        None => Ok(None),
    }
}

fn convert(
    alloc: Global,
    known: &Known,
    addresses: &[bool],
    graph: &Graph,
    corners: &Corners,
) -> Result<Graph, NoMemory>
    requires { AreAddresses graph.now addresses.now }
    ensures { IfOk result (λ new. new ≡ converted (told known.now) graph.now (whole graph.now corners.now)) }
{
    let values = values_of(alloc, known, addresses, graph, corners)?;
    converted(alloc, graph, corners, &values)
}
