// The headers of a graph: the blocks to which its back edges lead.

ghost use Rattle.std.specs.Prelude.{◌≡◌, ℕ, true, IfOk, length, slice_set};
ghost use Rattle.std.specs.List.{filter};
ghost use Rattle.vx_flow.specs.Rows.{is_marked};
ghost use Rattle.vx_flow.specs.Walk.{Headers, numbers};
ghost use Rattle.vx_flow.specs.Walking.{LeadWithin, MarksTargets};

use crate::graph::{BlockId, Edge, Graph};
use crate::live_nodes::unmarked;
use crate::walk::back_edges;
use std::alloc::Global;
use vx_base::outcome::NoMemory;

/// The headers of a graph whose exits lead to blocks of it, as those of every sound graph do: the blocks to which back edges
/// lead, ascending.
pub fn headers(alloc: Global, graph: &Graph) -> Result<Vec<BlockId>, NoMemory>
    requires { LeadWithin graph.now }
    ensures { IfOk result (λ headers. Headers graph.now headers.items) }
{
    let back = back_edges(alloc, graph)?;
    let mut targets = unmarked(alloc, graph.blocks.len())?;
    mark_targets(&mut targets, back.as_slice());
    marked_blocks(alloc, targets.as_slice(), graph.blocks.len() as u32)
}

/// Marks the blocks to which edges lead.
fn mark_targets(targets: &mut Vec<bool>, edges: &[Edge])
    requires { (b : ℕ) → is_marked targets.old.items b ≡ true → ⊥ }
    ensures { MarksTargets targets.new.items edges.now (length targets.old.items) }
{
    for edge in edges {
        mark_target(targets, edge.to);
    }
}

fn mark_target(targets: &mut Vec<bool>, to: BlockId)
    ensures { targets.new.items ≡ slice_set targets.old.items to true }
{
    if (to as usize) < targets.len() {
        targets[to as usize] = true;
    }
}

/// The blocks that are marked, ascending.
fn marked_blocks(alloc: Global, marks: &[bool], blocks: u32) -> Result<Vec<BlockId>, NoMemory>
    ensures { IfOk result (λ found. found.items ≡ filter (λ b. is_marked marks.now b) (numbers 0 blocks)) }
{
    let mut found = Vec::new(alloc);
    for block in 0..blocks {
        if is_marked(marks, block) {
            found.push(block)?;
        }
    }
    Ok(found)
}

fn is_marked(marks: &[bool], block: BlockId) -> bool
    ensures { result ≡ is_marked marks.now block }
{
    match marks.get(block as usize) {
        Some(marked) => *marked,
        None => false,
    }
}
