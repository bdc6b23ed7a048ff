// Which values are live at the start of each node of a graph. The solver goes over routes, so that it serves blocks and
// regions alike; `live` is for the blocks of a graph.

ghost use Rattle.std.specs.Prelude.{◌≡◌, ◌↔◌, ℕ, length, ◌<◌, ◌^◌, ◌++◌, IfOk, IsTrue};
ghost use Rattle.std.specs.List.{flat_map};
ghost use Rattle.vx_flow.specs.Live.{IsLive, LiveOn, route_of, routes_from, touches_of};
ghost use Rattle.vx_flow.specs.Rows.{lives, row_at, Rising};
ghost use Rattle.vx_flow.specs.Closing.{BeginWithin, EnteringFound, ReadersFound};

use crate::graph::{Block, BlockId, Graph, Op};
use crate::live_nodes::{list_found, live_nodes, unmarked};
use crate::live_rows::Live;
use crate::route_index::{entering_of, readers_of};
use crate::routes::{Route, Touch, targets_of};
use crate::touched_values::{touch_exit, touch_reads, touch_writes};
use std::alloc::Global;
use vx_base::listed::Listed;
use vx_base::outcome::NoMemory;
use vx_tables::rows::Rows;

/// The values that are live at the start of each block of a graph.
pub fn live(alloc: Global, graph: &Graph) -> Result<Live, NoMemory>
    ensures exact { IfOk result (λ live. (b : ℕ) (v : ℕ) → IsTrue (lives live b v) ↔ IsLive graph.now b v) }
{
    let nodes = graph.blocks.len();
    let routes = routes_of(alloc, graph.blocks.as_slice())?;
    live_on(alloc, nodes, &routes)
}

/// The values that are live at the start of each node, where the ways from node to node are these routes. Each begins at
/// one of so many nodes. Value after value, the nodes where it is live are marked, and then the value is listed under them
/// and their marks are taken away: the time is that of what is live, not that of all nodes for each value.
pub fn live_on(alloc: Global, nodes: usize, routes: &Listed<Route>) -> Result<Live, NoMemory>
    requires { BeginWithin nodes routes.now }
    ensures exact { IfOk result (λ live. (b : ℕ) (v : ℕ) → IsTrue (lives live b v) ↔ LiveOn routes.now b v) }
{
    let _count = routes.len();
    let entering = entering_of(alloc, routes.as_slice())?;
    let readers = readers_of(alloc, routes.as_slice())?;
    let rows = rows_of(alloc, nodes, routes.as_slice(), &entering, &readers)?;
    Ok(Live::from_rows(rows))
}

/// The values under the nodes where they are live, one value after the other.
fn rows_of(
    alloc: Global,
    nodes: usize,
    routes: &[Route],
    entering: &Rows,
    readers: &Rows,
) -> Result<Rows, NoMemory>
    requires within { BeginWithin nodes routes.now }
    requires entering { EnteringFound routes.now entering.now }
    requires readers { ReadersFound routes.now readers.now }
    ensures exact { IfOk result (λ rows. (b : ℕ) (v : ℕ) → IsTrue (lives rows b v) ↔ LiveOn routes.now b v) }
    ensures rising { IfOk result (λ rows. (b : ℕ) → Rising (row_at rows b)) }
{
    let values = match u32::try_from(readers.len()) {
        Ok(values) => values,
        Err(_) => return Err(NoMemory),
    };
    let mut rows = Rows::new(alloc);
    let mut marks = unmarked(alloc, nodes)?;
    for value in 0..values {
        let read_by = readers.of(value as usize);
        let found = live_nodes(alloc, routes, entering, read_by, value, &mut marks)?;
        list_found(&mut rows, &mut marks, found.as_slice(), value)?;
    }
    Ok(rows)
}

/// The blocks as routes.
fn routes_of(alloc: Global, blocks: &[Block]) -> Result<Listed<Route>, NoMemory>
    requires { length blocks.now < 2 ^ 32 }
    ensures { IfOk result (λ routes. routes ≡ routes_from 0 blocks.now) }
{
    let mut routes = Listed::new(alloc);
    for (index, block) in blocks.iter().enumerate() {
        let route = route_of(alloc, index as u32, block)?;
        routes.push(route)?;
    }
    Ok(routes)
}

/// A block as a route.
fn route_of(alloc: Global, from: BlockId, block: &Block) -> Result<Route, NoMemory>
    ensures { IfOk result (λ route. route ≡ route_of from block.now) }
{
    let to = targets_of(alloc, &block.exit)?;
    let mut touches = Listed::new(alloc);
    push_ops(&mut touches, block.ops.as_slice())?;
    touch_exit(&mut touches, &block.exit)?;
    Ok(Route { from, to, touches })
}

/// What operations do to values, in order.
fn push_ops(touches: &mut Listed<Touch>, ops: &[Op]) -> Result<(), NoMemory>
    ensures { IfOk result (λ _. touches.new ≡ touches.old ++ flat_map touches_of ops.now) }
{
    for op in ops {
        push_op(touches, op)?;
    }
    Ok(())
}

/// What an operation does to values: it reads, and then writes.
fn push_op(touches: &mut Listed<Touch>, op: &Op) -> Result<(), NoMemory>
    ensures { IfOk result (λ _. touches.new ≡ touches.old ++ touches_of op.now) }
{
    touch_reads(touches, op)?;
    touch_writes(touches, op)
}
