// Which values are live at the blocks of a graph of blocks and regions: its ways as routes, and one solver over them.
// specs/Routes.antt says which routes these are; the clause of `live_at_blocks` carries the promise.

ghost use Rattle.std.specs.Prelude.{◌≡◌, ◌↔◌, ◌+◌, ◌<◌, ◌^◌, ◌++◌, ◌∷◌, [], ℕ, IfOk, length, slice_index_or};
ghost use Rattle.std.specs.List.{flat_map};
ghost use Rattle.vx_flow.specs.declared.graph.Exit.{Exit};
ghost use Rattle.vx_flow.specs.declared.routes.Route.{Route};
ghost use Rattle.vx_flow.specs.Effects.{IsIn};
ghost use Rattle.vx_mixed.specs.declared.region.Node.TheVariants.{Unused};
ghost use Rattle.vx_mixed.specs.Live.{Live as IsLive};
ghost use Rattle.vx_mixed.specs.Routes.{behind, exit_route, live_values, node_route, node_routes, off_end, off_ends, region_routes, region_starts, routes, word_route, word_routes};
ghost use Rattle.vx_mixed.specs.Valid.{Valid};

use crate::mixed::MixedGraph;
use crate::region::{Item, Node, Region};
use crate::touches::{push_exit, push_ops, push_word};
use std::alloc::Global;
use vx_base::listed::{Listed, copied, with_item};
use vx_base::outcome::NoMemory;
use vx_flow::graph::{Block, BlockId, Exit, Value};
use vx_flow::live_on;
use vx_flow::live_rows::Live;
use vx_flow::routes::{Route, targets_of};

/// The values that are live at each block: on some way from there the value is read before it is written.
pub fn live_at_blocks(alloc: Global, graph: &MixedGraph) -> Result<Live, NoMemory>
    requires { Valid graph.now }
    ensures { IfOk result (λ live. (b : ℕ) (v : ℕ) → b < length graph.now.nodes → (IsIn v (live_values live b) ↔ IsLive graph.now b v)) }
{
    let routes = routes_of(alloc, graph)?;
    live_on(alloc, routes.len(), &routes)
}

/// The values that are live at a block, ascending.
pub fn values_at(alloc: Global, live: &Live, block: BlockId) -> Result<Listed<Value>, NoMemory>
    ensures { IfOk result (λ values. values ≡ live_values live.now block) }
{
    Ok(copied(alloc, live.values_at(block))?)
}

fn routes_of(alloc: Global, graph: &MixedGraph) -> Result<Listed<Route>, NoMemory>
    ensures { IfOk result (λ list. list ≡ routes graph.now) }
{
    let first = graph.nodes.len() as u32;
    let starts = starts_of(alloc, first, graph.regions.as_slice())?;
    let mut routes = Listed::new(alloc);
    push_nodes(
        alloc,
        &mut routes,
        starts.as_slice(),
        graph.nodes.as_slice(),
    )?;
    push_regions(alloc, &mut routes, first, graph.regions.as_slice())?;
    Ok(routes)
}

/// The nodes of the regions' first words, where those of the first region begin at node `first`.
fn starts_of(alloc: Global, first: u32, regions: &[Region]) -> Result<Listed<u32>, NoMemory>
    ensures { IfOk result (λ starts. starts ≡ region_starts first regions.now) }
{
    let mut starts = Listed::new(alloc);
    let mut node = first;
    for region in regions {
        starts.push(node)?;
        node = behind(node, region)?;
    }
    Ok(starts)
}

/// The node behind those of a region.
fn behind(node: u32, region: &Region) -> Result<u32, NoMemory>
    ensures { IfOk result (λ end. end ≡ behind node region.now) }
{
    let places = region.words.len() as u64 + 1;
    match u32::try_from(u64::from(node) + places) {
        Ok(end) => Ok(end),
        Err(_) => Err(NoMemory),
    }
}

fn push_nodes(
    alloc: Global,
    routes: &mut Listed<Route>,
    starts: &[u32],
    nodes: &[Node],
) -> Result<(), NoMemory>
    requires { length nodes.now < 2 ^ 32 }
    ensures { IfOk result (λ _. routes.new ≡ routes.old ++ node_routes starts.now 0 nodes.now) }
{
    for (index, node) in nodes.iter().enumerate() {
        let route = node_route(alloc, starts, index as u32, node)?;
        routes.push(route)?;
    }
    Ok(())
}

/// A block as a route; one that is in a region leads on to a word of it.
fn node_route(alloc: Global, starts: &[u32], from: BlockId, node: &Node) -> Result<Route, NoMemory>
    ensures { IfOk result (λ route. route ≡ node_route starts.now from node.now) }
{
    let to = match node {
        Node::Unused(block) => return block_route(alloc, from, block),
        Node::Enters { region, word } => with_item(alloc, &[], place_in(starts, *region, *word)?)?,
        Node::Inner => Listed::new(alloc),
    };
    Ok(Route {
        from,
        to,
        touches: Listed::new(alloc),
    })
}

fn place_in(starts: &[u32], region: u32, word: u32) -> Result<u32, NoMemory>
    ensures { IfOk result (λ place. place ≡ slice_index_or starts.now region 0 + word) }
{
    let start = match starts.get(region as usize) {
        Some(start) => *start,
        None => 0,
    };
    match start.checked_add(word) {
        Some(place) => Ok(place),
        None => Err(NoMemory),
    }
}

fn block_route(alloc: Global, from: BlockId, block: &Block) -> Result<Route, NoMemory>
    ensures { IfOk result (λ route. route ≡ node_route [] from (Unused block.now)) }
{
    let to = targets_of(alloc, &block.exit)?;
    let mut touches = Listed::new(alloc);
    push_ops(&mut touches, block.ops.as_slice())?;
    push_exit(&mut touches, &block.exit)?;
    Ok(Route { from, to, touches })
}

/// The words of regions and their exits as routes.
fn push_regions(
    alloc: Global,
    routes: &mut Listed<Route>,
    first: u32,
    regions: &[Region],
) -> Result<(), NoMemory>
    ensures { IfOk result (λ _. routes.new ≡ routes.old ++ region_routes first regions.now) }
{
    let mut node = first;
    for region in regions {
        push_region(alloc, routes, node, region)?;
        node = behind(node, region)?;
    }
    Ok(())
}

fn push_region(
    alloc: Global,
    routes: &mut Listed<Route>,
    first: u32,
    region: &Region,
) -> Result<(), NoMemory>
    ensures { IfOk result (λ _. routes.new ≡ routes.old ++ word_routes first region.now.last region.now.words) }
{
    let end = push_words(alloc, routes, first, region.words.as_slice())?;
    let route = exit_route(alloc, end, &region.last)?;
    routes.push(route)?;
    Ok(())
}

/// The words of a region as routes, up to the node that is told.
fn push_words(
    alloc: Global,
    routes: &mut Listed<Route>,
    first: u32,
    words: &[Listed<Item>],
) -> Result<u32, NoMemory>
    ensures { IfOk result (λ end. (exit : Exit) → routes.new ++ exit_route end exit ∷ [] ≡ routes.old ++ word_routes first exit words.now) }
{
    let mut node = first;
    for word in words {
        let next = next_node(node)?;
        let route = word_route(alloc, node, next, word.as_slice())?;
        routes.push(route)?;
        node = next;
    }
    Ok(node)
}

fn next_node(node: u32) -> Result<u32, NoMemory>
    ensures { IfOk result (λ next. next ≡ node + 1) }
{
    match node.checked_add(1) {
        Some(next) => Ok(next),
        None => Err(NoMemory),
    }
}

/// A word as a route: on to the next one, or out by one of its splits.
fn word_route(alloc: Global, from: u32, next: u32, word: &[Item]) -> Result<Route, NoMemory>
    requires { next ≡ from + 1 }
    ensures { IfOk result (λ route. route ≡ word_route from word.now) }
{
    let mut to = Listed::new(alloc);
    push_off_ends(&mut to, word)?;
    to.push(next)?;
    let mut touches = Listed::new(alloc);
    push_word(&mut touches, word)?;
    Ok(Route { from, to, touches })
}

fn push_off_ends(to: &mut Listed<BlockId>, word: &[Item]) -> Result<(), NoMemory>
    ensures { IfOk result (λ _. to.new ≡ to.old ++ off_ends word.now) }
{
    for item in word {
        push_off_end(to, item)?;
    }
    Ok(())
}

fn push_off_end(to: &mut Listed<BlockId>, item: &Item) -> Result<(), NoMemory>
    ensures { IfOk result (λ _. to.new ≡ to.old ++ off_end item.now) }
{
    match item {
        Item::Plain { .. } => Ok(()),
        Item::Split { edge, .. } => {
            to.push(edge.to)?;
            Ok(())
        }
    }
}

fn exit_route(alloc: Global, from: u32, exit: &Exit) -> Result<Route, NoMemory>
    ensures { IfOk result (λ route. route ≡ exit_route from exit.now) }
{
    let to = targets_of(alloc, exit)?;
    let mut touches = Listed::new(alloc);
    push_exit(&mut touches, exit)?;
    Ok(Route { from, to, touches })
}
