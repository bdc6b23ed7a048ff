// The blocks and regions of a graph after a replacement: copies whose edges go to their new ends, and what stands in place of
// the trace's blocks. specs/Next.antt of vx_mixed says what they are. Each call fails only for want of memory.

ghost use Rattle.std.specs.Prelude.{◌≡◌, ◌==◌, ◌+◌, ◌<◌, ◌^◌, ◌++◌, ℕ, IfOk, length, map};
ghost use Rattle.std.specs.List.{list_any};
ghost use Rattle.vx_flow.specs.Walk.{edge};
ghost use Rattle.vx_mixed.specs.Next.{made_node, made_on, new_end, nodes_from, rejoin_at, renamed_exit, renamed_node, renamed_region, trace_node, rename};

use std::alloc::Global;
use vx_base::listed::{Listed, copied};
use vx_base::outcome::NoMemory;
use vx_flow::copies::copied_exit;
use vx_flow::graph::{Block, BlockId, Edge, Exit};
use vx_flow::trace::Join;
use vx_mixed::mixed::MixedGraph;
use vx_mixed::nodes::Nodes;
use vx_mixed::region::{Item, Made, Node, Region};
use vx_mixed::replacement::Replacement;

/// What stands at the numbers of the blocks so far.
pub(crate) fn push_old_nodes(
    alloc: Global,
    nodes: &mut Nodes,
    graph: &MixedGraph,
    replacement: &Replacement,
) -> Result<(), NoMemory>
    requires { length graph.now.nodes + length replacement.now.made < 2 ^ 32 }
    ensures { IfOk result (λ _. nodes.new ≡ nodes.old ++ nodes_from graph.now replacement.now 0 graph.now.nodes) }
{
    let old = graph.nodes.as_slice();
    for (index, node) in old.iter().enumerate() {
        let after = node_after(alloc, graph, replacement, index as u32, node)?;
        nodes.push(after)?;
    }
    Ok(())
}

/// The blocks that are made.
pub(crate) fn push_made_nodes(
    alloc: Global,
    nodes: &mut Nodes,
    made: &[Made],
) -> Result<(), NoMemory>
    ensures { IfOk result (λ _. nodes.new ≡ nodes.old ++ map made_node made.now) }
{
    for block in made {
        let ops = copied(alloc, block.ops.as_slice())?;
        let exit = Exit::Goto(block.edge.to);
        nodes.push(Node::Unused(Block { ops, exit }))?;
    }
    Ok(())
}

/// What stands at a block's number: a word of the region where it is entered, nothing where the block is inside the trace,
/// else what stood there, with its edges to their new ends.
fn node_after(
    alloc: Global,
    graph: &MixedGraph,
    replacement: &Replacement,
    block: BlockId,
    node: &Node,
) -> Result<Node, NoMemory>
    requires { length graph.now.nodes + length replacement.now.made < 2 ^ 32 }
    ensures { IfOk result (λ after. after ≡ trace_node graph.now replacement.now replacement.now.trace.blocks block node.now) }
{
    let region = graph.regions.len() as u32;
    match replacement.trace.blocks.as_slice() {
        [] => renamed_node(alloc, graph, replacement, block, node),
        [first, others @ ..] => {
            if *first == block {
                Ok(Node::Enters { region, word: 0 })
            } else if is_among(others, block) {
                let joins = replacement.trace.joins.as_slice();
                match rejoin_at(joins, replacement.rejoins.as_slice(), block) {
                    Some(word) => Ok(Node::Enters { region, word }),
                    None => Ok(Node::Inner),
                }
            } else {
                renamed_node(alloc, graph, replacement, block, node)
            }
        }
    }
}

/// Whether a block is one of these.
pub(crate) fn is_among(blocks: &[BlockId], block: BlockId) -> bool
    ensures { result ≡ list_any (λ other. other == block) blocks.now }
{
    for other in blocks {
        if *other == block {
            return true;
        }
    }
    false
}

/// The word behind the join at a block.
fn rejoin_at(joins: &[Join], rejoins: &[u32], block: BlockId) -> Option<u32>
    ensures { result ≡ rejoin_at joins.now rejoins.now block }
{
    for (index, join) in joins.iter().enumerate() {
        if index >= rejoins.len() {
            return None;
        }
        if join.block == block {
            return Some(rejoins[index]);
        }
    }
    None
}

fn renamed_node(
    alloc: Global,
    graph: &MixedGraph,
    replacement: &Replacement,
    block: BlockId,
    node: &Node,
) -> Result<Node, NoMemory>
    requires { length graph.now.nodes + length replacement.now.made < 2 ^ 32 }
    ensures { IfOk result (λ after. after ≡ renamed_node (new_end graph.now replacement.now.made) block node.now) }
{
    match node {
        Node::Unused(unused) => {
            let ops = copied(alloc, unused.ops.as_slice())?;
            let exit = renamed_exit(alloc, graph, replacement, block, &unused.exit)?;
            Ok(Node::Unused(Block { ops, exit }))
        }
        Node::Enters { region, word } => Ok(Node::Enters {
            region: *region,
            word: *word,
        }),
        Node::Inner => Ok(Node::Inner),
    }
}

/// The exit of a block, to its new ends.
pub(crate) fn renamed_exit(
    alloc: Global,
    graph: &MixedGraph,
    replacement: &Replacement,
    from: BlockId,
    exit: &Exit,
) -> Result<Exit, NoMemory>
    requires { length graph.now.nodes + length replacement.now.made < 2 ^ 32 }
    ensures { IfOk result (λ after. after ≡ renamed_exit (new_end graph.now replacement.now.made from) exit.now) }
{
    match copied_exit(alloc, exit)? {
        Exit::Goto(to) => Ok(Exit::Goto(new_end(graph, replacement, from, to))),
        Exit::Split { test, yes, no } => Ok(Exit::Split {
            test,
            yes: new_end(graph, replacement, from, yes),
            no: new_end(graph, replacement, from, no),
        }),
        Exit::Call {
            function,
            arguments,
            result,
            next,
        } => Ok(Exit::Call {
            function,
            arguments,
            result,
            next: new_end(graph, replacement, from, next),
        }),
        other => Ok(other),
    }
}

/// Where an edge goes: to the block that is made on it, or where it went.
pub(crate) fn new_end(
    graph: &MixedGraph,
    replacement: &Replacement,
    from: BlockId,
    to: BlockId,
) -> BlockId
    requires { length graph.now.nodes + length replacement.now.made < 2 ^ 32 }
    ensures { result ≡ new_end graph.now replacement.now.made from to }
{
    let first = graph.nodes.len() as u32;
    match made_on(first, replacement.made.as_slice(), Edge { from, to }) {
        Some(block) => block,
        None => to,
    }
}

/// The number of the block that is made on an edge, where those from `first` on are made.
fn made_on(first: u32, made: &[Made], edge: Edge) -> Option<u32>
    requires { first + length made.now < 2 ^ 32 }
    ensures { result ≡ made_on first made.now edge }
{
    for (index, block) in made.iter().enumerate() {
        if block.edge == edge {
            return Some(first + index as u32);
        }
    }
    None
}

/// The regions so far, with their edges to their new ends.
pub(crate) fn push_old_regions(
    alloc: Global,
    regions: &mut Listed<Region>,
    graph: &MixedGraph,
    replacement: &Replacement,
) -> Result<(), NoMemory>
    requires { length graph.now.nodes + length replacement.now.made < 2 ^ 32 }
    ensures { IfOk result (λ _. regions.new ≡ regions.old ++ map (renamed_region (new_end graph.now replacement.now.made)) graph.now.regions) }
{
    for region in graph.regions.as_slice() {
        let after = renamed_region(alloc, graph, replacement, region)?;
        regions.push(after)?;
    }
    Ok(())
}

fn renamed_region(
    alloc: Global,
    graph: &MixedGraph,
    replacement: &Replacement,
    region: &Region,
) -> Result<Region, NoMemory>
    requires { length graph.now.nodes + length replacement.now.made < 2 ^ 32 }
    ensures { IfOk result (λ after. after ≡ renamed_region (new_end graph.now replacement.now.made) region.now) }
{
    let blocks = copied(alloc, region.blocks.as_slice())?;
    let words = renamed_words(alloc, graph, replacement, region.words.as_slice())?;
    let last = renamed_exit(alloc, graph, replacement, region.from, &region.last)?;
    Ok(Region {
        blocks,
        words,
        from: region.from,
        last,
        drain: region.drain,
    })
}

fn renamed_words(
    alloc: Global,
    graph: &MixedGraph,
    replacement: &Replacement,
    words: &[Listed<Item>],
) -> Result<Listed<Listed<Item>>, NoMemory>
    requires { length graph.now.nodes + length replacement.now.made < 2 ^ 32 }
    ensures { IfOk result (λ after. after ≡ map (map (rename (new_end graph.now replacement.now.made))) words.now) }
{
    let mut after = Listed::new(alloc);
    for word in words {
        let renamed = renamed_word(alloc, graph, replacement, word.as_slice())?;
        after.push(renamed)?;
    }
    Ok(after)
}

fn renamed_word(
    alloc: Global,
    graph: &MixedGraph,
    replacement: &Replacement,
    word: &[Item],
) -> Result<Listed<Item>, NoMemory>
    requires { length graph.now.nodes + length replacement.now.made < 2 ^ 32 }
    ensures { IfOk result (λ after. after ≡ map (rename (new_end graph.now replacement.now.made)) word.now) }
{
    let mut after = Listed::new(alloc);
    for item in word {
        after.push(renamed_item(graph, replacement, item))?;
    }
    Ok(after)
}

fn renamed_item(graph: &MixedGraph, replacement: &Replacement, item: &Item) -> Item
    requires { length graph.now.nodes + length replacement.now.made < 2 ^ 32 }
    ensures { result ≡ rename (new_end graph.now replacement.now.made) item.now }
{
    match item {
        Item::Plain { op, cluster } => Item::Plain {
            op: *op,
            cluster: *cluster,
        },
        Item::Split {
            test,
            leaves_when,
            edge,
            drain,
        } => Item::Split {
            test: *test,
            leaves_when: *leaves_when,
            edge: Edge {
                from: edge.from,
                to: new_end(graph, replacement, edge.from, edge.to),
            },
            drain: *drain,
        },
    }
}
