// The graphs of a program without the operations whose results are not read. In each graph the needed values are looked for and
// tested; a graph that does not pass, and a flow that would not be sound, stay as they are.

ghost use Rattle.std.specs.Prelude.{◌≡◌, true, IfOk, IfSome, map};
ghost use Rattle.std.specs.List.{list_all};
ghost use Rattle.vx_flow.specs.Sound.{is_sound_flow};
ghost use Rattle.vx_shape.specs.Flows.{FlowStays};
ghost use Rattle.vx_fold.specs.Thinning.{block_reads_read, GraphThins, thinned, thinned_block, thinned_ops, unread_of};

use crate::needed::find_needed;
use crate::reads::{blocks_read_needed, is_dropped};
use std::alloc::Global;
use vx_base::listed::Listed;
use vx_base::outcome::NoMemory;
use vx_flow::copies::{copied_exit, with_blocks};
use vx_flow::graph::{Block, Flow, Graph, Op};
use vx_shape::copies::with_graphs;
use vx_shape::origins::origins;
use vx_shape::passes::{GraphPass, each_made};
use vx_shape::shape_test::is_shaped;
use vx_sound::is_sound;

/// The flow with fewer operations, where there is such a one.
pub fn thinned_once(alloc: Global, flow: &Flow) -> Result<Option<Flow>, NoMemory>
    ensures sound { IfOk result (λ found. IfSome found (λ thinned. is_sound_flow thinned ≡ true)) }
    ensures flow { IfOk result (λ found. IfSome found (λ thinned. FlowStays flow.now thinned)) }
{
    let functions = each_made(alloc, &ThinPass, flow.functions.as_slice())?;
    if ops_of(functions.as_slice()) >= ops_of(flow.functions.as_slice()) {
        return Ok(None);
    }
    let thinned = with_graphs(alloc, flow, functions)?;
    if is_sound(alloc, &thinned)? {
        Ok(Some(thinned))
    } else {
        Ok(None)
    }
}

/// How many operations graphs have.
fn ops_of(graphs: &[Graph]) -> usize {
    let mut count: usize = 0;
    for graph in graphs {
        count = count.saturating_add(ops_in(graph.blocks.as_slice()));
    }
    count
}

fn ops_in(blocks: &[Block]) -> usize {
    let mut count: usize = 0;
    for block in blocks {
        count = count.saturating_add(block.ops.len());
    }
    count
}

/// The pass over one graph: what is needed is looked for, and the other results go.
struct ThinPass;

impl GraphPass for ThinPass {
    ghost makes = { GraphThins };

    fn made(
        &self,
        alloc: Global,
        _function: usize,
        graph: &Graph,
    ) -> Result<Option<Graph>, NoMemory> {
        let needed = find_needed(alloc, graph.blocks.as_slice(), graph.banks.len())?;
        thinned_where_read(alloc, graph, needed.as_slice())
    }
}

fn thinned_where_read(
    alloc: Global,
    graph: &Graph,
    needed: &[bool],
) -> Result<Option<Graph>, NoMemory>
    ensures { IfOk result (λ found. IfSome found (λ thinned. GraphThins graph.now thinned)) }
{
    if blocks_read_needed(needed, graph.blocks.as_slice()) {
        thinned_where_shaped(alloc, graph, needed)
    } else {
        Ok(None)
    }
}

/// The graph without operations whose results are not needed, where it has its shape.
fn thinned_where_shaped(
    alloc: Global,
    graph: &Graph,
    needed: &[bool],
) -> Result<Option<Graph>, NoMemory>
    requires { list_all (block_reads_read (unread_of needed.now)) graph.now.blocks ≡ true }
    ensures { IfOk result (λ found. IfSome found (λ thinned. GraphThins graph.now thinned)) }
{
    let thinned = thinned(alloc, graph, needed)?;
    let origins = origins(alloc, thinned.blocks.as_slice())?;
    if is_shaped(origins.as_slice(), thinned.blocks.as_slice()) {
        Ok(Some(thinned))
    } else {
        Ok(None)
    }
}

fn thinned(alloc: Global, graph: &Graph, needed: &[bool]) -> Result<Graph, NoMemory>
    ensures { IfOk result (λ new. new ≡ thinned (unread_of needed.now) graph.now) }
{
    let blocks = thinned_blocks(alloc, graph.blocks.as_slice(), needed)?;
    with_blocks(alloc, graph, blocks)
}

fn thinned_blocks(
    alloc: Global,
    blocks: &[Block],
    needed: &[bool],
) -> Result<Listed<Block>, NoMemory>
    ensures { IfOk result (λ thinned. thinned ≡ map (thinned_block (unread_of needed.now)) blocks.now) }
{
    let mut thinned = Listed::new(alloc);
    for block in blocks {
        thinned.push(thinned_block(alloc, block, needed)?)?;
    }
    Ok(thinned)
}

fn thinned_block(alloc: Global, block: &Block, needed: &[bool]) -> Result<Block, NoMemory>
    ensures { IfOk result (λ thinned. thinned ≡ thinned_block (unread_of needed.now) block.now) }
{
    let ops = thinned_ops(alloc, block.ops.as_slice(), needed)?;
    let exit = copied_exit(alloc, &block.exit)?;
    Ok(Block { ops, exit })
}

fn thinned_ops(alloc: Global, ops: &[Op], needed: &[bool]) -> Result<Listed<Op>, NoMemory>
    ensures { IfOk result (λ thinned. thinned ≡ thinned_ops (unread_of needed.now) ops.now) }
{
    let mut thinned = Listed::new(alloc);
    for op in ops {
        if !is_dropped(needed, op) {
            thinned.push(*op)?;
        }
    }
    Ok(thinned)
}
