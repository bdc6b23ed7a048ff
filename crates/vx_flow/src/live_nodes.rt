// Where a value is live: nodes are marked from the routes that read it on, against the routes. specs/Closing.antt says
// what holds meanwhile. Then the value is listed under them, and no node is marked again. The time is that of looking at the
// routes into the nodes that are marked.

ghost use Rattle.std.specs.Prelude.{◌≡◌, ◌↔◌, ◌==◌, ◌<◌, ◌≤◌, ℕ, true, false, [], if◌then◌else◌, IfOk, Some, None, length, slice_get};
ghost use Rattle.vx_flow.specs.declared.routes.Route.{Route};
ghost use Rattle.vx_flow.specs.Effects.{IsIn};
ghost use Rattle.std.specs.List.{list_any};
ghost use Rattle.vx_flow.specs.Live.{first_touch, LiveOn};
ghost use Rattle.vx_flow.specs.Rows.{Added, is_marked, work};
ghost use Rattle.vx_flow.specs.Closing.{BeginWithin, Closing, EnteringFound, PutUnder, Spreads, Starting, cleared_row, marked_pending, marked_row, passes, pending_passed, pending_started, row_passed, row_started, starts};

use crate::graph::{BlockId, Value};
use crate::routes::{Route, Touch};
use std::alloc::Global;
use vx_base::listed::Listed;
use vx_base::outcome::NoMemory;
use vx_tables::rows::Rows;

/// Whether the first that a route does to a value is to read it; `None` where it does nothing to it.
pub fn first_touch(touches: &[Touch], value: Value) -> Option<bool>
    ensures { result ≡ first_touch value touches.now }
{
    for touch in touches {
        if touch.value == value {
            return Some(touch.reads);
        }
    }
    None
}

fn is_among(nodes: &[BlockId], node: BlockId) -> bool
    ensures { result ≡ list_any (λ u. u == node) nodes.now }
{
    for other in nodes {
        if *other == node {
            return true;
        }
    }
    false
}

/// Whether the route reads the value before writing it.
fn starts(route: &Route, value: Value) -> bool
    ensures { result ≡ starts route.now value }
{
    match first_touch(route.touches.as_slice(), value) {
        Some(reads) => reads,
        None => false,
    }
}

/// Whether the route does nothing to the value and leads to the node.
fn passes(route: &Route, value: Value, node: BlockId) -> bool
    ensures { result ≡ passes route.now value node }
{
    is_among(route.to.as_slice(), node)
        && match first_touch(route.touches.as_slice(), value) {
            Some(_) => false,
            None => true,
        }
}

/// Marks a node that is not marked yet, which then pends.
fn mark(row: &mut Vec<bool>, pending: &mut Vec<BlockId>, node: BlockId) -> Result<(), NoMemory>
    requires { node < length row.old.items }
    ensures row { IfOk result (λ _. row.new.items ≡ marked_row row.old.items node) }
    ensures pending { IfOk result (λ _. pending.new.items ≡ marked_pending row.old.items pending.old.items node) }
    ensures len { length row.new.items ≡ length row.old.items }
{
    if !row[node as usize] {
        row[node as usize] = true;
        pending.push(node)?;
    }
    Ok(())
}

/// Marks a node that is not marked yet, if this is asked.
fn mark_if(
    row: &mut Vec<bool>,
    pending: &mut Vec<BlockId>,
    node: BlockId,
    asked: bool,
) -> Result<(), NoMemory>
    requires { node < length row.old.items }
    ensures row { IfOk result (λ _. row.new.items ≡ (if asked then marked_row row.old.items node else row.old.items)) }
    ensures pending { IfOk result (λ _. pending.new.items ≡ (if asked then marked_pending row.old.items pending.old.items node else pending.old.items)) }
    ensures len { length row.new.items ≡ length row.old.items }
{
    if asked {
        mark(row, pending, node)
    } else {
        Ok(())
    }
}

/// Marks the beginning of a route that reads the value first.
fn start(
    routes: &[Route],
    index: u32,
    value: Value,
    row: &mut Vec<bool>,
    pending: &mut Vec<BlockId>,
) -> Result<(), NoMemory>
    requires { BeginWithin (length row.old.items) routes.now }
    ensures row { IfOk result (λ _. row.new.items ≡ row_started (slice_get routes.now index) value row.old.items) }
    ensures pending { IfOk result (λ _. pending.new.items ≡ pending_started (slice_get routes.now index) value row.old.items pending.old.items) }
    ensures len { length row.new.items ≡ length row.old.items }
{
    match routes.get(index as usize) {
        Some(route) => mark_if(row, pending, route.from, starts(route, value)),
        None => Ok(()),
    }
}

/// Marks the beginning of a route that does nothing to the value and leads to the node.
fn follow(
    routes: &[Route],
    index: u32,
    value: Value,
    node: BlockId,
    row: &mut Vec<bool>,
    pending: &mut Vec<BlockId>,
) -> Result<(), NoMemory>
    requires { BeginWithin (length row.old.items) routes.now }
    ensures row { IfOk result (λ _. row.new.items ≡ row_passed (slice_get routes.now index) value node row.old.items) }
    ensures pending { IfOk result (λ _. pending.new.items ≡ pending_passed (slice_get routes.now index) value node row.old.items pending.old.items) }
    ensures len { length row.new.items ≡ length row.old.items }
{
    match routes.get(index as usize) {
        Some(route) => mark_if(row, pending, route.from, passes(route, value, node)),
        None => Ok(()),
    }
}

/// Marks the beginnings of the listed routes that read the value first.
fn start_all(
    routes: &[Route],
    readers: &[u32],
    value: Value,
    row: &mut Vec<bool>,
    pending: &mut Vec<BlockId>,
) -> Result<(), NoMemory>
    requires within { BeginWithin (length row.old.items) routes.now }
    requires starting { Starting routes.now value readers.now row.old.items pending.old.items }
    ensures started { IfOk result (λ _. Starting routes.now value [] row.new.items pending.new.items) }
    ensures len { length row.new.items ≡ length row.old.items }
{
    for index in readers {
        start(routes, *index, value, row, pending)?;
    }
    Ok(())
}

/// Marks the beginnings of the listed routes that do nothing to the value and lead to the node.
fn follow_all(
    routes: &[Route],
    entering: &[u32],
    value: Value,
    node: BlockId,
    row: &mut Vec<bool>,
    pending: &mut Vec<BlockId>,
) -> Result<(), NoMemory>
    requires within { BeginWithin (length row.old.items) routes.now }
    requires closing { Closing routes.now value node entering.now row.old.items pending.old.items }
    ensures closed { IfOk result (λ _. Closing routes.now value node [] row.new.items pending.new.items) }
    ensures less { IfOk result (λ _. work row.new.items pending.new.items ≤ work row.old.items pending.old.items) }
    ensures spreads { IfOk result (λ _. Spreads row.old.items row.new.items pending.old.items pending.new.items) }
    ensures len { length row.new.items ≡ length row.old.items }
{
    for index in entering {
        follow(routes, *index, value, node, row, pending)?;
    }
    Ok(())
}

/// A row of nodes, none marked.
pub fn unmarked(alloc: Global, nodes: usize) -> Result<Vec<bool>, NoMemory>
    ensures none { IfOk result (λ row. (b : ℕ) → is_marked row.items b ≡ true → ⊥) }
    ensures len { IfOk result (λ row. length row.items ≡ nodes) }
{
    let mut row = Vec::new(alloc);
    'nodes: for _ in 0..nodes {
        row.push(false)?;
    }
    Ok(row)
}

/// Marks the nodes where a value is live, and gives them. Each node pends once.
pub fn live_nodes(
    alloc: Global,
    routes: &[Route],
    entering: &Rows,
    readers: &[u32],
    value: Value,
    row: &mut Vec<bool>,
) -> Result<Vec<BlockId>, NoMemory>
    requires within { BeginWithin (length row.old.items) routes.now }
    requires none { (b : ℕ) → is_marked row.old.items b ≡ true → ⊥ }
    requires entering { EnteringFound routes.now entering.now }
    requires readers { (i : ℕ) (r : Route) → slice_get routes.now i ≡ Some r → first_touch value r.touches ≡ Some true → IsIn i readers.now }
    ensures exact { IfOk result (λ _. (b : ℕ) → (is_marked row.new.items b ≡ true) ↔ LiveOn routes.now b value) }
    ensures found { IfOk result (λ found. (b : ℕ) → (is_marked row.new.items b ≡ true) ↔ IsIn b found.items) }
    ensures len { IfOk result (λ _. length row.new.items ≡ length row.old.items) }
{
    let mut found = Vec::new(alloc);
    let mut pending = Vec::new(alloc);
    start_all(routes, readers, value, row, &mut pending)?;
    'pending: loop {
        match pending.pop() {
            Some(node) => {
                let routes_in = entering.of(node as usize);
                found.push(node)?;
                follow_all(routes, routes_in, value, node, row, &mut pending)?;
            }
            None => return Ok(found),
        }
    }
}

/// Takes the mark of a node away, and puts the value at the end of its row; a node that is not marked is let be.
fn list_node(
    rows: &mut Rows,
    marks: &mut Vec<bool>,
    node: BlockId,
    value: Value,
) -> Result<(), NoMemory>
    requires { node < length marks.old.items }
    ensures marks { IfOk result (λ _. marks.new.items ≡ cleared_row marks.old.items node) }
    ensures added { IfOk result (λ _. is_marked marks.old.items node ≡ true → Added node value rows.old rows.new) }
    ensures same { IfOk result (λ _. is_marked marks.old.items node ≡ false → rows.new ≡ rows.old) }
    ensures len { length marks.new.items ≡ length marks.old.items }
{
    if marks[node as usize] {
        marks[node as usize] = false;
        rows.add(node as usize, value)?;
    }
    Ok(())
}

/// Puts the value at the end of the row of each marked node, of which each is among the nodes found, and takes the marks
/// away.
pub fn list_found(
    rows: &mut Rows,
    marks: &mut Vec<bool>,
    found: &[BlockId],
    value: Value,
) -> Result<(), NoMemory>
    requires within { (b : ℕ) → IsIn b found.now → b < length marks.old.items }
    requires found { (b : ℕ) → is_marked marks.old.items b ≡ true → IsIn b found.now }
    ensures listed { IfOk result (λ _. PutUnder value marks.old.items rows.old rows.new) }
    ensures none { IfOk result (λ _. (b : ℕ) → is_marked marks.new.items b ≡ true → ⊥) }
    ensures len { length marks.new.items ≡ length marks.old.items }
{
    for node in found {
        list_node(rows, marks, *node, value)?;
    }
    Ok(())
}
