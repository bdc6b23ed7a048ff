// The lists that a graph begins with as a graph of blocks and regions: copies of its blocks, and what is told of its values. Each
// call fails only for want of memory.

ghost use Rattle.std.specs.Prelude.{◌≡◌, ◌++◌, ◌∷◌, [], ◌<◌, ◌^◌, None, Some, IfOk, length, map, replicate};
ghost use Rattle.vx_flow.specs.Walk.{edge, successors_of};
ghost use Rattle.vx_mixed.specs.declared.region.Node.TheVariants.{Unused};
ghost use Rattle.vx_mixed.specs.Edges.{edges_from};
ghost use Rattle.vx_mixed.specs.FromGraph.{bound_by, bound_in, bound_to};

use std::alloc::Global;
use vx_base::listed::Listed;
use vx_base::outcome::NoMemory;
use vx_flow::copies::{copied_block, with_blocks};
use vx_flow::graph::{Array, Bank, Block, BlockId, Edge, Exit, Graph, Op, Value};
use vx_flow::operands::binds;
use vx_mixed::nodes::Nodes;
use vx_mixed::region::{Node, Origin};

/// What is made of the blocks of a graph: what stands at their numbers, the edges, and that none was made.
#[derive(Drop)]
pub(crate) struct Begun {
    pub(crate) nodes: Nodes,
    pub(crate) edges: Listed<Edge>,
    pub(crate) origins: Listed<Option<Origin>>,
}

/// The blocks of a graph, of which none is in a region.
pub(crate) fn begun_blocks(alloc: Global, blocks: &[Block]) -> Result<Begun, NoMemory>
    ensures nodes { IfOk result (λ begun. begun.nodes ≡ map Unused blocks.now) }
    ensures edges { IfOk result (λ begun. begun.edges ≡ edges_from 0 blocks.now) }
    ensures origins { IfOk result (λ begun. begun.origins ≡ replicate (length blocks.now) None) }
{
    let nodes = unused_nodes(alloc, blocks)?;
    let edges = block_edges(alloc, blocks)?;
    let origins = no_origins(alloc, blocks.len())?;
    Ok(Begun {
        nodes,
        edges,
        origins,
    })
}

/// What is told of the values of a graph, and of its arrays.
#[derive(Drop)]
pub(crate) struct Told {
    pub(crate) clusters: Listed<Option<u32>>,
    pub(crate) banks: Listed<Bank>,
    pub(crate) parameters: Listed<Value>,
    pub(crate) arrays: Listed<Array>,
}

/// The values of a graph with the clusters on which they stand from the start.
pub(crate) fn told_values(alloc: Global, graph: &Graph) -> Result<Told, NoMemory>
    ensures clusters { IfOk result (λ told. told.clusters ≡ bound_by graph.now.blocks (replicate (length graph.now.banks) None)) }
    ensures banks { IfOk result (λ told. told.banks ≡ graph.now.banks) }
    ensures parameters { IfOk result (λ told. told.parameters ≡ graph.now.parameters) }
    ensures arrays { IfOk result (λ told. told.arrays ≡ graph.now.arrays) }
{
    let clusters = start_homes(alloc, graph.banks.len(), graph.blocks.as_slice())?;
    let rest = with_blocks(alloc, graph, Listed::new(alloc))?;
    Ok(Told {
        clusters,
        banks: rest.banks,
        parameters: rest.parameters,
        arrays: rest.arrays,
    })
}

/// The blocks, each in no region.
fn unused_nodes(alloc: Global, blocks: &[Block]) -> Result<Nodes, NoMemory>
    ensures { IfOk result (λ nodes. nodes ≡ map Unused blocks.now) }
{
    let mut nodes = Nodes::new(alloc);
    for block in blocks {
        let copy = copied_block(alloc, block)?;
        nodes.push(Node::Unused(copy))?;
    }
    Ok(nodes)
}

/// No block was made.
fn no_origins(alloc: Global, blocks: usize) -> Result<Listed<Option<Origin>>, NoMemory>
    ensures { IfOk result (λ origins. origins ≡ replicate blocks None) }
{
    let mut origins = Listed::new(alloc);
    for _block in 0..blocks {
        origins.push(None)?;
    }
    Ok(origins)
}

/// The edges of blocks, ascending.
fn block_edges(alloc: Global, blocks: &[Block]) -> Result<Listed<Edge>, NoMemory>
    requires { length blocks.now < 2 ^ 32 }
    ensures { IfOk result (λ edges. edges ≡ edges_from 0 blocks.now) }
{
    let mut edges = Listed::new(alloc);
    for (index, block) in blocks.iter().enumerate() {
        push_edges(&mut edges, index as u32, &block.exit)?;
    }
    Ok(edges)
}

/// The edges of an exit, ascending, each once.
fn push_edges(edges: &mut Listed<Edge>, from: BlockId, exit: &Exit) -> Result<(), NoMemory>
    ensures { IfOk result (λ _. edges.new ≡ edges.old ++ map (edge from) (successors_of exit.now)) }
{
    match exit {
        Exit::Goto(to) => push_edge(edges, from, *to),
        Exit::Split { yes, no, .. } => {
            let (low, high) = if *yes < *no { (*yes, *no) } else { (*no, *yes) };
            push_edge(edges, from, low)?;
            if low < high {
                push_edge(edges, from, high)
            } else {
                Ok(())
            }
        }
        Exit::Call { next, .. } => push_edge(edges, from, *next),
        Exit::Return(_) => Ok(()),
        Exit::Ends(_) => Ok(()),
    }
}

fn push_edge(edges: &mut Listed<Edge>, from: BlockId, to: BlockId) -> Result<(), NoMemory>
    ensures { IfOk result (λ _. edges.new ≡ edges.old ++ edge from to ∷ []) }
{
    edges.push(Edge { from, to })?;
    Ok(())
}

/// The clusters on which values stand from the start.
fn start_homes(
    alloc: Global,
    banks: usize,
    blocks: &[Block],
) -> Result<Listed<Option<u32>>, NoMemory>
    ensures { IfOk result (λ homes. homes ≡ bound_by blocks.now (replicate banks None)) }
{
    let mut homes = no_numbers(alloc, banks)?;
    bind_blocks(&mut homes, blocks);
    Ok(Listed::from_vec(homes)?)
}

/// No number, so many times.
pub(crate) fn no_numbers(alloc: Global, count: usize) -> Result<Vec<Option<u32>>, NoMemory>
    ensures { IfOk result (λ numbers. numbers.items ≡ replicate count None) }
{
    Ok(vec![in alloc; None; count]?)
}

fn bind_blocks(homes: &mut Vec<Option<u32>>, blocks: &[Block])
    ensures { homes.new.items ≡ bound_by blocks.now homes.old.items }
{
    for block in blocks {
        bind_ops(homes, block.ops.as_slice());
    }
}

fn bind_ops(homes: &mut Vec<Option<u32>>, ops: &[Op])
    ensures { homes.new.items ≡ bound_in ops.now homes.old.items }
{
    for op in ops {
        bind(homes, binds(op));
    }
}

fn bind(homes: &mut Vec<Option<u32>>, value: Option<Value>)
    ensures { homes.new.items ≡ bound_to value homes.old.items }
{
    if let Some(value) = value {
        if (value as usize) < homes.len() {
            homes[value as usize] = Some(0);
        }
    }
}
