// Graphs with exactly three general values and two branch values for each node of their functions.

ghost use Rattle.std.specs.Prelude.{◌≡◌, ◌++◌, ◌-◌, true, count_by, replicate, IfOk};
ghost use Rattle.vx_ast.specs.Tree.{Program};
ghost use Rattle.vx_flow.specs.Sound.{is_sound_flow};
ghost use Rattle.vx_lower.specs.FlowOf.{is_branch, is_general, FlowOf};
ghost use Rattle.vx_shape.specs.Flows.{with_graphs};
ghost use Rattle.vx_select.specs.Padding.{all_padded_to, lacking, padded_to, AreSizes, AreWithin, FlowPadded};

use std::alloc::Global;
use vx_base::listed::Listed;
use vx_base::outcome::NoMemory;
use vx_flow::copies::copied_graph;
use vx_flow::graph::{Bank, Flow, Graph};
use vx_shape::copies::with_graphs;

/// The flow with values that no operation names at the end of the banks of each graph, so that it has exactly three general values
/// and two branch values a node. The list has the nodes of each function; no graph has more values than that. It fails only for
/// want of memory.
pub fn padded(alloc: Global, flow: Flow, sizes: &[u32]) -> Result<Flow, NoMemory>
    requires { AreWithin sizes.now flow.functions }
    ensures padded { IfOk result (λ new. FlowPadded sizes.now flow new) }
    ensures flow { IfOk result (λ new. (p : Program) → AreSizes p sizes.now → FlowOf p flow → FlowOf p new) }
    ensures sound { IfOk result (λ new. is_sound_flow flow ≡ true → is_sound_flow new ≡ true) }
{
    let new = padded_flow(alloc, &flow, sizes);
    drop(flow);
    new
}

fn padded_flow(alloc: Global, flow: &Flow, sizes: &[u32]) -> Result<Flow, NoMemory>
    ensures { IfOk result (λ new. new ≡ with_graphs flow.now (all_padded_to sizes.now flow.now.functions)) }
{
    let mut functions = Listed::new(alloc);
    push_padded(alloc, &mut functions, flow.functions.as_slice(), sizes)?;
    with_graphs(alloc, flow, functions)
}

/// Adds the graphs with their values, one for each size.
fn push_padded(
    alloc: Global,
    padded: &mut Listed<Graph>,
    graphs: &[Graph],
    sizes: &[u32],
) -> Result<(), NoMemory>
    ensures { IfOk result (λ _. padded.new ≡ padded.old ++ all_padded_to sizes.now graphs.now) }
{
    match graphs.split_first() {
        Some((graph, graphs)) => match sizes.split_first() {
            Some((size, sizes)) => {
                padded.push(padded_graph(alloc, graph, *size)?)?;
                push_padded(alloc, padded, graphs, sizes)
            }
            None => Ok(()),
        },
        None => Ok(()),
    }
}

fn padded_graph(alloc: Global, graph: &Graph, size: u32) -> Result<Graph, NoMemory>
    ensures { IfOk result (λ new. new ≡ padded_to size graph.now) }
{
    let mut new = copied_graph(alloc, graph)?;
    push_lacking(&mut new.banks, size)?;
    Ok(new)
}

/// Adds the values that a graph lacks where its function has so many nodes.
fn push_lacking(banks: &mut Listed<Bank>, size: u32) -> Result<(), NoMemory>
    ensures { IfOk result (λ _. banks.new ≡ banks.old ++ lacking size banks.old) }
{
    let nodes = size as usize;
    let general = lack(3 * nodes, generals(banks.as_slice()));
    let branch = lack(2 * nodes, branches(banks.as_slice()));
    push_many(banks, Bank::General, general)?;
    push_many(banks, Bank::Branch, branch)
}

fn lack(needed: usize, count: usize) -> usize
    ensures { result ≡ needed - count }
{
    needed.saturating_sub(count)
}

fn push_many(banks: &mut Listed<Bank>, bank: Bank, count: usize) -> Result<(), NoMemory>
    ensures { IfOk result (λ _. banks.new ≡ banks.old ++ replicate count bank) }
{
    for _place in 0..count {
        banks.push(bank)?;
    }
    Ok(())
}

fn generals(banks: &[Bank]) -> usize
    ensures { result ≡ count_by is_general banks.now }
{
    let mut count: usize = 0;
    for bank in banks {
        if *bank == Bank::General {
            count += 1;
        }
    }
    count
}

fn branches(banks: &[Bank]) -> usize
    ensures { result ≡ count_by is_branch banks.now }
{
    let mut count: usize = 0;
    for bank in banks {
        if *bank == Bank::Branch {
            count += 1;
        }
    }
    count
}
