// The lowest diamond of a graph.

ghost use Rattle.std.specs.Prelude.{◌≡◌, ◌==◌, ◌||◌, ◌&&◌, ◌+◌, nat_le, IfOk, length, slice_get};
ghost use Rattle.std.specs.List.{list_all};
ghost use Rattle.std.specs.Option.{option_map};
ghost use Rattle.vx_flow.specs.Sound.{targets_of};
ghost use Rattle.vx_select.specs.Known.{diamond_in, diamond_of, is_formed, is_no_side, ops_at, told, whole, AreAddresses};
ghost use Rattle.vx_select.specs.Search.{are_alone, first_diamond, is_good};
ghost use Rattle.vx_select.specs.Selected.{is_simple};

use crate::corners::{Corners, corners_by, ops_at, stays};
use crate::known::Known;
use crate::values::{Values, is_general, values_of};
use std::alloc::Global;
use vx_base::outcome::NoMemory;
use vx_flow::graph::{Bank, BlockId, Exit, Graph, Op};

/// The most operations of a block.
const MOST_OPS: usize = 512;

/// The corners of the diamond with the lowest block, if there is one.
pub(crate) fn first(
    alloc: Global,
    known: &Known,
    addresses: &[bool],
    graph: &Graph,
    most: u32,
) -> Result<Option<Corners>, NoMemory>
    requires { AreAddresses graph.now addresses.now }
    ensures { IfOk result (λ found. option_map (whole graph.now) found ≡ first_diamond (told known.now) most graph.now) }
{
    for block in 0..graph.blocks.len() as u32 {
        match found_at(alloc, known, addresses, graph, block, most)? {
            Some(corners) => return Ok(Some(corners)),
            None => {}
        }
    }
    Ok(None)
}

/// The corners of the diamond that a block begins, if it begins one.
fn found_at(
    alloc: Global,
    known: &Known,
    addresses: &[bool],
    graph: &Graph,
    block: BlockId,
    most: u32,
) -> Result<Option<Corners>, NoMemory>
    requires { AreAddresses graph.now addresses.now }
    ensures { IfOk result (λ found. option_map (whole graph.now) found ≡ diamond_in (told known.now) most graph.now block (slice_get graph.now.blocks block)) }
{
    match graph.blocks.as_slice().get(block as usize) {
        Some(found) => {
            let corners = corners_by(graph, block, &found.exit);
            where_good(alloc, known, addresses, graph, corners, most)
        }
        None => Ok(None),
    }
}

/// Corners, where they are those of a diamond.
fn where_good(
    alloc: Global,
    known: &Known,
    addresses: &[bool],
    graph: &Graph,
    corners: Option<Corners>,
    most: u32,
) -> Result<Option<Corners>, NoMemory>
    requires { AreAddresses graph.now addresses.now }
    ensures { IfOk result (λ found. option_map (whole graph.now) found ≡ diamond_of (told known.now) most graph.now corners) }
{
    match corners {
        Some(corners) => {
            if is_good(alloc, known, addresses, graph, &corners, most)? {
                Ok(Some(corners))
            } else {
                Ok(None)
            }
        }
        None => Ok(None),
    }
}

/// Whether corners are those of a diamond.
#[tactic(auto, using(crate::proofs::Finding::not_good))]
fn is_good(
    alloc: Global,
    known: &Known,
    addresses: &[bool],
    graph: &Graph,
    corners: &Corners,
    most: u32,
) -> Result<bool, NoMemory>
    requires { AreAddresses graph.now addresses.now }
    ensures { IfOk result (λ good. good ≡ is_good (told known.now) most graph.now (whole graph.now corners.now)) }
{
    if has_form(graph, corners, most) {
        let values = values_of(alloc, known, addresses, graph, corners)?;
        Ok(has_room(&values, graph, corners))
    } else {
        Ok(false)
    }
}

fn has_form(graph: &Graph, corners: &Corners, most: u32) -> bool
    ensures { result ≡ (is_formed most graph.now (whole graph.now corners.now) && are_alone (whole graph.now corners.now) 0 graph.now.blocks) }
{
    is_formed(graph, corners, most) && are_alone(graph, corners)
}

/// Whether both sides only compute and choose general values, together at least once and at most so often, and neither the block
/// where they meet is a corner nor the entry is a side.
fn is_formed(graph: &Graph, corners: &Corners, most: u32) -> bool
    ensures { result ≡ is_formed most graph.now (whole graph.now corners.now) }
{
    let left = ops_at(graph, corners.yes);
    let right = ops_at(graph, corners.no);
    stays(corners, corners.join)
        && corners.join != corners.block
        && stays(corners, 0)
        && are_simple(graph.banks.as_slice(), left)
        && are_simple(graph.banks.as_slice(), right)
        && are_few(left.len(), right.len(), most)
}

fn are_few(left: usize, right: usize, most: u32) -> bool
    ensures { result ≡ (nat_le 1 (left + right) && nat_le (left + right) most) }
{
    let most = most as usize;
    left <= most && right <= most - left && (left >= 1 || right >= 1)
}

fn are_simple(banks: &[Bank], ops: &[Op]) -> bool
    ensures { result ≡ list_all (is_simple banks.now) ops.now }
{
    for op in ops {
        if !is_simple(banks, op) {
            return false;
        }
    }
    true
}

/// Whether an operation computes or chooses a general value.
fn is_simple(banks: &[Bank], op: &Op) -> bool
    ensures { result ≡ is_simple banks.now op.now }
{
    match op {
        Op::Compute { to, .. } | Op::Select { to, .. } => is_general(banks, *to),
        _ => false,
    }
}

/// Whether of the blocks only the one that splits leads to a side.
fn are_alone(graph: &Graph, corners: &Corners) -> bool
    ensures { result ≡ are_alone (whole graph.now corners.now) 0 graph.now.blocks }
{
    for (place, block) in graph.blocks.as_slice().iter().enumerate() {
        if !is_past(corners, place, &block.exit) {
            return false;
        }
    }
    true
}

/// Whether the block with this exit is the one that splits, or leads to no side.
fn is_past(corners: &Corners, place: usize, exit: &Exit) -> bool
    ensures { result ≡ ((place == corners.now.block) || list_all (is_no_side corners.now) (targets_of exit.now)) }
{
    place == corners.block as usize || leads_past(corners, exit)
}

fn leads_past(corners: &Corners, exit: &Exit) -> bool
    ensures { result ≡ list_all (is_no_side corners.now) (targets_of exit.now) }
{
    match exit {
        Exit::Goto(next) | Exit::Call { next, .. } => stays(corners, *next),
        Exit::Split { yes, no, .. } => stays(corners, *yes) && stays(corners, *no),
        Exit::Return(_) | Exit::Ends(_) => true,
    }
}

/// Whether as many values are free as both sides write, and the block has at most 512 operations with what is added.
fn has_room(values: &Values, graph: &Graph, corners: &Corners) -> bool
    ensures { result ≡ (nat_le (length values.now.left.items + length values.now.right.items) (length values.now.free.items) && nat_le (length (ops_at graph.now corners.now.block) + (length (ops_at graph.now corners.now.yes) + (length (ops_at graph.now corners.now.no) + length values.now.chosen.items))) 512) }
{
    has_free(values) && is_short(values, graph, corners)
}

fn has_free(values: &Values) -> bool
    ensures { result ≡ nat_le (length values.now.left.items + length values.now.right.items) (length values.now.free.items) }
{
    values.left.len() + values.right.len() <= values.free.len()
}

fn is_short(values: &Values, graph: &Graph, corners: &Corners) -> bool
    ensures { result ≡ nat_le (length (ops_at graph.now corners.now.block) + (length (ops_at graph.now corners.now.yes) + (length (ops_at graph.now corners.now.no) + length values.now.chosen.items))) 512 }
{
    let before = ops_at(graph, corners.block).len();
    let left = ops_at(graph, corners.yes).len();
    let right = ops_at(graph, corners.no).len();
    are_within(before, left, right, values.chosen.len())
}

/// Whether four numbers are 512 at most together.
fn are_within(one: usize, two: usize, three: usize, four: usize) -> bool
    ensures { result ≡ nat_le (one + (two + (three + four))) 512 }
{
    one <= MOST_OPS
        && two <= MOST_OPS - one
        && three <= MOST_OPS - one - two
        && four <= MOST_OPS - one - two - three
}
