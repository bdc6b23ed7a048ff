// The depth-first walk of a graph, without recursion: its back edges. The time is that of the blocks and
// edges. The clauses are those of specs/Walk.antt; specs/Walking.antt says what holds on the way.

ghost use Rattle.std.specs.Prelude.{◌≡◌, ◌<◌, ℕ, true, false, [], ◌∷◌, ◌++◌, if◌then◌else◌, IfOk, IfSome, Some, length, slice_get, slice_set};
ghost use Rattle.vx_flow.specs.Rows.{is_marked};
ghost use Rattle.vx_flow.specs.Walk.{BackEdges, ascending, edge, successors, successors_in, successors_of};
ghost use Rattle.vx_flow.specs.Walking.{LeadWithin, Walking, back_after, path_after, path_begun, places_after, places_begun, seen_after, seen_begun};

use crate::graph::{BlockId, Edge, Exit, Graph};
use crate::live_nodes::unmarked;
use std::alloc::Global;
use vx_base::outcome::NoMemory;

/// A block of the walk's path, and how many of its successors were taken.
#[derive(Clone, Copy)]
pub struct Place {
    block: BlockId,
    taken: u32,
}

/// The back edges of a graph whose exits lead to blocks of it, as those of every sound graph do: the edges to a block that is
/// on the path of the depth-first walk, in the order in which the walk finds them. The walk begins at block 0 and then at
/// each block not reached so far, ascending, and takes successors in ascending order.
pub fn back_edges(alloc: Global, graph: &Graph) -> Result<Vec<Edge>, NoMemory>
    requires { LeadWithin graph.now }
    ensures { IfOk result (λ back. BackEdges graph.now back.items) }
{
    let mut seen = unmarked(alloc, graph.blocks.len())?;
    let mut on_path = unmarked(alloc, graph.blocks.len())?;
    walk(alloc, graph, &mut seen, &mut on_path)
}

/// Walks the whole graph, of which no block is marked as reached or as on the path.
fn walk(
    alloc: Global,
    graph: &Graph,
    seen: &mut Vec<bool>,
    on_path: &mut Vec<bool>,
) -> Result<Vec<Edge>, NoMemory>
    requires within { LeadWithin graph.now }
    requires none_seen { (b : ℕ) → is_marked seen.old.items b ≡ true → ⊥ }
    requires none_on_path { (b : ℕ) → is_marked on_path.old.items b ≡ true → ⊥ }
    requires seen_len { length seen.old.items ≡ length graph.now.blocks }
    requires path_len { length on_path.old.items ≡ length graph.now.blocks }
    ensures { IfOk result (λ back. BackEdges graph.now back.items) }
{
    let blocks = graph.blocks.len() as u32;
    let mut places: Vec<Place> = Vec::new(alloc);
    let mut back: Vec<Edge> = Vec::new(alloc);
    let mut root: BlockId = 0;
    'steps: loop {
        match places.pop() {
            Some(place) => {
                let next = successor(graph, place.block, place.taken);
                step(place, next, seen, on_path, &mut places, &mut back)?;
            }
            None => {
                if root >= blocks {
                    return Ok(back);
                }
                begin(root, seen, on_path, &mut places)?;
                root += 1;
            }
        }
    }
}

/// One step from the last place of the path, which was taken off, to its next successor.
fn step(
    place: Place,
    next: Option<BlockId>,
    seen: &mut Vec<bool>,
    on_path: &mut Vec<bool>,
    places: &mut Vec<Place>,
    back: &mut Vec<Edge>,
) -> Result<(), NoMemory>
    requires block { place.block < length on_path.old.items }
    requires few { IfSome next (λ c. place.taken < 2) }
    requires seen_has { IfSome next (λ c. c < length seen.old.items) }
    requires path_has { IfSome next (λ c. c < length on_path.old.items) }
    ensures seen { IfOk result (λ _. seen.new.items ≡ seen_after next seen.old.items on_path.old.items) }
    ensures on_path { IfOk result (λ _. on_path.new.items ≡ path_after next place seen.old.items on_path.old.items) }
    ensures places { IfOk result (λ _. places.new.items ≡ places_after next place seen.old.items on_path.old.items places.old.items) }
    ensures back { IfOk result (λ _. back.new.items ≡ back_after next place on_path.old.items back.old.items) }
    ensures seen_len { length seen.new.items ≡ length seen.old.items }
    ensures path_len { length on_path.new.items ≡ length on_path.old.items }
{
    match next {
        Some(to) => {
            let block = place.block;
            let taken = place.taken + 1;
            places.push(Place { block, taken })?;
            come_to(block, to, seen, on_path, places, back)
        }
        None => {
            on_path[place.block as usize] = false;
            Ok(())
        }
    }
}

/// Comes from a block to one of its successors: along a back edge where that is on the path.
fn come_to(
    from: BlockId,
    to: BlockId,
    seen: &mut Vec<bool>,
    on_path: &mut Vec<bool>,
    places: &mut Vec<Place>,
    back: &mut Vec<Edge>,
) -> Result<(), NoMemory>
    requires seen_has { to < length seen.old.items }
    requires path_has { to < length on_path.old.items }
    ensures seen { IfOk result (λ _. seen.new.items ≡ (if is_marked on_path.old.items to then seen.old.items else seen_begun seen.old.items to)) }
    ensures on_path { IfOk result (λ _. on_path.new.items ≡ (if is_marked on_path.old.items to then on_path.old.items else path_begun seen.old.items on_path.old.items to)) }
    ensures places { IfOk result (λ _. places.new.items ≡ (if is_marked on_path.old.items to then places.old.items else places_begun seen.old.items places.old.items to)) }
    ensures back { IfOk result (λ _. back.new.items ≡ (if is_marked on_path.old.items to then back.old.items ++ edge from to ∷ [] else back.old.items)) }
    ensures seen_len { length seen.new.items ≡ length seen.old.items }
    ensures path_len { length on_path.new.items ≡ length on_path.old.items }
{
    if on_path[to as usize] {
        back.push(Edge { from, to })?;
        Ok(())
    } else {
        begin(to, seen, on_path, places)
    }
}

/// Begins at a block that was not reached before.
fn begin(
    block: BlockId,
    seen: &mut Vec<bool>,
    on_path: &mut Vec<bool>,
    places: &mut Vec<Place>,
) -> Result<(), NoMemory>
    requires seen_has { block < length seen.old.items }
    requires path_has { block < length on_path.old.items }
    ensures seen { IfOk result (λ _. seen.new.items ≡ seen_begun seen.old.items block) }
    ensures on_path { IfOk result (λ _. on_path.new.items ≡ path_begun seen.old.items on_path.old.items block) }
    ensures places { IfOk result (λ _. places.new.items ≡ places_begun seen.old.items places.old.items block) }
    ensures seen_len { length seen.new.items ≡ length seen.old.items }
    ensures path_len { length on_path.new.items ≡ length on_path.old.items }
{
    if !seen[block as usize] {
        seen[block as usize] = true;
        on_path[block as usize] = true;
        places.push(Place { block, taken: 0 })?;
    }
    Ok(())
}

/// The successor of a block with a number, the successors counted ascending from 0.
fn successor(graph: &Graph, block: BlockId, number: u32) -> Option<BlockId>
    ensures { result ≡ slice_get (successors graph.now block) number }
{
    match graph.blocks.as_slice().get(block as usize) {
        Some(found) => successor_of(&found.exit, number),
        None => None,
    }
}

fn successor_of(exit: &Exit, number: u32) -> Option<BlockId>
    ensures { result ≡ slice_get (successors_of exit.now) number }
{
    match exit {
        Exit::Goto(to) | Exit::Call { next: to, .. } => first_or_none(*to, number),
        Exit::Split { yes, no, .. } => of_two(*yes, *no, number),
        Exit::Return(_) | Exit::Ends(_) => None,
    }
}

fn first_or_none(to: BlockId, number: u32) -> Option<BlockId>
    ensures { result ≡ slice_get (to ∷ []) number }
{
    if number == 0 { Some(to) } else { None }
}

fn of_two(yes: BlockId, no: BlockId, number: u32) -> Option<BlockId>
    ensures { result ≡ slice_get (ascending yes no) number }
{
    if yes == no {
        first_or_none(yes, number)
    } else if yes < no {
        in_order(yes, no, number)
    } else {
        in_order(no, yes, number)
    }
}

fn in_order(first: BlockId, second: BlockId, number: u32) -> Option<BlockId>
    ensures { result ≡ slice_get (first ∷ second ∷ []) number }
{
    if number == 0 {
        Some(first)
    } else if number == 1 {
        Some(second)
    } else {
        None
    }
}
