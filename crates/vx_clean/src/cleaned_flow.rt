// The graphs of a program with fewer blocks and operations. In each graph a layout is looked for, tested, and used where it
// passes; a graph that does not pass, and a flow that would not be sound, stay as they are.

ghost use Rattle.std.specs.Prelude.{◌≡◌, true, IfOk, IfSome};
ghost use Rattle.vx_ast.specs.Tree.{Program};
ghost use Rattle.vx_flow.specs.Sound.{is_sound_flow};
ghost use Rattle.vx_lower.specs.FlowOf.{FlowOf};
ghost use Rattle.vx_clean.specs.LinkTest.{is_laid_out};
ghost use Rattle.vx_shape.specs.Flows.{FlowStays};
ghost use Rattle.vx_clean.specs.Staying.{GraphStays};

use crate::chain_graph::laid;
use crate::layout::find_layout;
use crate::link_test::is_laid_out;
use std::alloc::Global;
use vx_base::listed::Listed;
use vx_base::outcome::NoMemory;
use vx_flow::graph::{BlockId, Flow, Graph};
use vx_fold::{folded_once, thinned_once};
use vx_shape::copies::with_graphs;
use vx_shape::origins::origins;
use vx_shape::passes::{GraphPass, each_made};
use vx_shape::shape_test::is_shaped;
use vx_sound::is_sound;

/// How often the graphs are cleaned at most.
const MOST_ROUNDS: u32 = 8;

/// The graphs of a program with fewer blocks and operations. A value that only ever holds one number is read as that number, and
/// a split by such a value is a jump. A block that no path from the entry reaches is gone. An empty block that ends by a jump is
/// skipped, unless a split leads to it and the block behind it has others before it. A block with one entry, by a jump, is joined
/// to the block before it, up to 512 operations. An operation that does nothing but write a value that is not read is left out.
/// Blocks are numbered in the order of the old ones. Blocks and operations are gone through until none goes, eight times at most.
pub fn clean(alloc: Global, flow: Flow) -> Result<Flow, NoMemory>
    requires { is_sound_flow flow ≡ true }
    ensures sound { IfOk result (λ cleaned. is_sound_flow cleaned ≡ true) }
    ensures flow { IfOk result (λ cleaned. (p : Program) → FlowOf p flow → FlowOf p cleaned) }
{
    let folded = with_numbers(alloc, flow)?;
    shrunk(alloc, folded)
}

/// The flow with numbers in place of values that hold them.
fn with_numbers(alloc: Global, flow: Flow) -> Result<Flow, NoMemory>
    requires { is_sound_flow flow ≡ true }
    ensures sound { IfOk result (λ folded. is_sound_flow folded ≡ true) }
    ensures flow { IfOk result (λ folded. FlowStays flow folded) }
{
    match folded_once(alloc, &flow)? {
        Some(folded) => Ok(folded),
        None => Ok(flow),
    }
}

/// The flow with fewer blocks and operations.
fn shrunk(alloc: Global, flow: Flow) -> Result<Flow, NoMemory>
    requires { is_sound_flow flow ≡ true }
    ensures sound { IfOk result (λ cleaned. is_sound_flow cleaned ≡ true) }
    ensures flow { IfOk result (λ cleaned. FlowStays flow cleaned) }
{
    let mut current = flow;
    for _round in 0..MOST_ROUNDS {
        match smaller(alloc, &current)? {
            Some(cleaned) => current = cleaned,
            None => return Ok(current),
        }
    }
    Ok(current)
}

/// The flow with fewer blocks or with fewer operations, where there is such a one.
fn smaller(alloc: Global, flow: &Flow) -> Result<Option<Flow>, NoMemory>
    ensures sound { IfOk result (λ found. IfSome found (λ cleaned. is_sound_flow cleaned ≡ true)) }
    ensures flow { IfOk result (λ found. IfSome found (λ cleaned. FlowStays flow.now cleaned)) }
{
    match cleaned_once(alloc, flow)? {
        Some(cleaned) => Ok(Some(cleaned)),
        None => thinned_once(alloc, flow),
    }
}

/// The flow with fewer blocks, where there is such a one.
fn cleaned_once(alloc: Global, flow: &Flow) -> Result<Option<Flow>, NoMemory>
    ensures sound { IfOk result (λ found. IfSome found (λ cleaned. is_sound_flow cleaned ≡ true)) }
    ensures flow { IfOk result (λ found. IfSome found (λ cleaned. FlowStays flow.now cleaned)) }
{
    let functions = each_made(alloc, &LayoutPass, flow.functions.as_slice())?;
    if blocks_of(functions.as_slice()) >= blocks_of(flow.functions.as_slice()) {
        return Ok(None);
    }
    let cleaned = with_graphs(alloc, flow, functions)?;
    if is_sound(alloc, &cleaned)? {
        Ok(Some(cleaned))
    } else {
        Ok(None)
    }
}

/// How many blocks graphs have.
fn blocks_of(graphs: &[Graph]) -> usize {
    let mut count: usize = 0;
    for graph in graphs {
        count = count.saturating_add(graph.blocks.len());
    }
    count
}

/// The pass over one graph: a layout is looked for, and the blocks of its chains become one.
struct LayoutPass;

impl GraphPass for LayoutPass {
    ghost makes = { GraphStays };

    fn made(
        &self,
        alloc: Global,
        _function: usize,
        graph: &Graph,
    ) -> Result<Option<Graph>, NoMemory> {
        let layout = find_layout(alloc, graph.blocks.as_slice())?;
        laid_where_fit(alloc, graph, layout.to.as_slice(), layout.chains.as_slice())
    }
}

/// The graph whose blocks are the chains, where they are linked and it has its shape.
fn laid_where_fit(
    alloc: Global,
    graph: &Graph,
    to: &[BlockId],
    chains: &[Listed<BlockId>],
) -> Result<Option<Graph>, NoMemory>
    ensures { IfOk result (λ found. IfSome found (λ cleaned. GraphStays graph.now cleaned)) }
{
    if is_laid_out(to, graph.blocks.as_slice(), chains) {
        laid_where_shaped(alloc, graph, to, chains)
    } else {
        Ok(None)
    }
}

/// The graph whose blocks are the chains, where it has its shape.
fn laid_where_shaped(
    alloc: Global,
    graph: &Graph,
    to: &[BlockId],
    chains: &[Listed<BlockId>],
) -> Result<Option<Graph>, NoMemory>
    requires { is_laid_out to.now graph.now.blocks chains.now ≡ true }
    ensures { IfOk result (λ found. IfSome found (λ cleaned. GraphStays graph.now cleaned)) }
{
    let cleaned = laid(alloc, graph, to, chains)?;
    let origins = origins(alloc, cleaned.blocks.as_slice())?;
    if is_shaped(origins.as_slice(), cleaned.blocks.as_slice()) {
        Ok(Some(cleaned))
    } else {
        Ok(None)
    }
}
