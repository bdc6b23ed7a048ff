// What is raised past splits on whose ways it stands twice: an operation that the next turn of a loop reads, from both ways at once. It
// owes nothing, as all that is looked for.

use crate::lift_test::result_of;
use crate::search::MOST_BESIDE;
use crate::sketch::{Ground, Sketch};
use crate::steps::block_at;
use crate::turns::Turn;
use vx_base::outcome::NoMemory;
use vx_flow::graph::{BlockId, Op};

/// Over how many blocks beside the path an operation is brought up at most.
const MOST_BROUGHT: usize = 4;

/// Raises what the next turn reads past splits both of whose ways have it. Answers whether there was something.
pub(crate) fn climb_all(
    ground: &Ground,
    sketch: &mut Sketch,
    turn: &Turn,
) -> Result<bool, NoMemory> {
    let start = sketch.count();
    for row in 1..turn.path.len() {
        climb_from(ground, sketch, turn, row)?;
    }
    Ok(sketch.count() > start)
}

fn climb_from(
    ground: &Ground,
    sketch: &mut Sketch,
    turn: &Turn,
    row: usize,
) -> Result<(), NoMemory> {
    let path = turn.path.as_slice();
    let count = match block_at(path, row) {
        Some(block) => sketch.ops_at(block).len().min(MOST_BESIDE),
        None => 0,
    };
    let mut place = 0usize;
    for _ in 0..count {
        let climbs = is_awaited(ground, sketch, path, row, place);
        if !(climbs && climb(ground, sketch, turn, row, place)?) {
            place = place.saturating_add(1);
        }
    }
    Ok(())
}

/// Whether an operation of a block of the path writes a value that is live at the header.
fn is_awaited(
    ground: &Ground,
    sketch: &Sketch,
    path: &[BlockId],
    row: usize,
    place: usize,
) -> bool {
    match (block_at(path, row), block_at(path, 0)) {
        (Some(block), Some(header)) => match sketch.ops_at(block).get(place) {
            Some(op) => match result_of(op) {
                Some(value) => sketch.is_live(ground, header, value),
                None => false,
            },
            None => false,
        },
        _ => false,
    }
}

/// Raises an operation up the path, to before the highest split whose ways both have it then. Answers whether there is one.
fn climb(
    ground: &Ground,
    sketch: &mut Sketch,
    turn: &Turn,
    row: usize,
    place: usize,
) -> Result<bool, NoMemory> {
    let path = turn.path.as_slice();
    let start = sketch.count();
    let mut kept = start;
    let mut at = place;
    for above in 0..row {
        let here = row.saturating_sub(above);
        let is_raised = match block_at(path, here) {
            Some(block) => raise_by_both(ground, sketch, turn, block, at)?,
            None => false,
        };
        if !is_raised {
            break;
        }
        if sketch.is_last_double() {
            kept = sketch.count();
        }
        at = end_of(sketch, path, here.saturating_sub(1));
    }
    sketch.back_to(kept)?;
    Ok(kept > start)
}

/// Raises an operation of a block of the path: from both ways of the split above it where it can be brought up the other one too, else
/// from the one. Answers whether it was; if not all is as before.
fn raise_by_both(
    ground: &Ground,
    sketch: &mut Sketch,
    turn: &Turn,
    block: BlockId,
    place: usize,
) -> Result<bool, NoMemory> {
    let start = sketch.count();
    if ground.units.is_one_cluster()
        && bring_up(ground, sketch, turn, block, place)?
        && sketch.raise(ground, block, place)?
    {
        return Ok(true);
    }
    sketch.back_to(start)?;
    sketch.raise(ground, block, place)
}

/// Brings what an operation of a block does up the other way of the split above, from a block beside the path that does it too. Answers
/// whether it came there.
fn bring_up(
    ground: &Ground,
    sketch: &mut Sketch,
    turn: &Turn,
    block: BlockId,
    place: usize,
) -> Result<bool, NoMemory> {
    let op = match sketch.ops_at(block).get(place) {
        Some(op) => *op,
        None => return Ok(false),
    };
    match sketch.other_way(ground, block) {
        Some(other) => {
            for stop in turn.others.as_slice() {
                if stop.row > 0 && bring_from(ground, sketch, &op, stop.block, other)? {
                    return Ok(true);
                }
            }
            Ok(false)
        }
        None => Ok(false),
    }
}

/// Raises an operation from block to block up to another one. Answers whether it came there; if not all is as before.
fn bring_from(
    ground: &Ground,
    sketch: &mut Sketch,
    op: &Op,
    from: BlockId,
    to: BlockId,
) -> Result<bool, NoMemory> {
    let start = sketch.count();
    let mut block = from;
    for _ in 0..MOST_BROUGHT {
        if block == to {
            return Ok(true);
        }
        if !raise_same(ground, sketch, block, op)? {
            break;
        }
        match sketch.leading_to(block).first() {
            Some(source) => block = *source,
            None => break,
        }
    }
    sketch.back_to(start)?;
    Ok(false)
}

/// Raises the operation of a block that does the same. Answers whether there is one and it was.
fn raise_same(
    ground: &Ground,
    sketch: &mut Sketch,
    block: BlockId,
    op: &Op,
) -> Result<bool, NoMemory> {
    match sketch.same_in(ground, block, op) {
        Some(mate) => sketch.raise(ground, block, mate.place),
        None => Ok(false),
    }
}

/// The place of the last operation of a block of the path.
pub(crate) fn end_of(sketch: &Sketch, path: &[BlockId], row: usize) -> usize {
    match path.get(row) {
        Some(block) => sketch.ops_at(*block).len().saturating_sub(1),
        None => 0,
    }
}
