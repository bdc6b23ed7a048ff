// What is raised so that the turns of loops get shorter: what stands in the first word of an estimated plan of the turn is
// put round the back edge, again and again, as long as that helps (rotation scheduling, Chao, LaPaugh and Sha, 1993). It owes nothing:
// each move is tested when it is made.

use crate::climb::{climb_all, end_of};
use crate::costs::cost_of;
use crate::known::Move;
use crate::names::{Names, Passing, names_of};
use crate::plan::{Plan, number_at, plan_of};
use crate::raised_flow::Wanted;
use crate::sketch::{Ground, Sketch, as_number};
use crate::steps::{Effect, Step, block_at, steps_of};
use crate::turns::{Turn, Walk, turn_of, walk_of};
use crate::units::Units;
use std::alloc::Global;
use vx_base::listed::Listed;
use vx_base::outcome::NoMemory;
use vx_flow::graph::{BlockId, Flow, Graph};
use vx_flow::live;
use vx_profile::counts::Counts;

/// How often the first word is put round at most, and how often without use.
const MOST_ROUNDS: usize = 12;

const MOST_IDLE: usize = 3;

/// The most operations that are raised in a graph.
const MOST_MOVES: usize = 512;

/// The most operations of a block beside the path, or where ways meet, that are raised.
pub(crate) const MOST_BESIDE: usize = 16;

/// What is looked for: what shortens the ways beside the turns of loops, or the turns too.
#[derive(Clone, Copy, PartialEq, Eq)]
pub(crate) enum Aim {
    Beside,
    Turns,
}

/// Which operations of the first word are put round.
#[derive(Clone, Copy, PartialEq, Eq)]
enum Kind {
    /// Those on which most cycles hang.
    Critical,
    /// All that may be.
    All,
}

/// How operations are put round: which, and whether each time those that the next turn reads are first raised past splits whose ways
/// both have them.
#[derive(Clone, Copy)]
struct Way {
    kind: Kind,
    climbs: bool,
}

/// What the registers allow: the values that are kept before, and those that pass in the turn.
#[derive(Clone, Copy)]
struct Limits<'a> {
    names: &'a Names,
    passing: Passing,
}

/// What an attempt comes to: its cost, and its moves.
#[derive(Drop)]
struct Attempt {
    cost: u64,
    moves: Vec<Move>,
}

/// What is to be raised in each graph of a program.
pub(crate) fn wanted_of(
    alloc: Global,
    flow: &Flow,
    counts: &Counts,
    units: &Units,
    aim: Aim,
) -> Result<Vec<Wanted>, NoMemory> {
    let mut all = Vec::new(alloc);
    for (function, graph) in flow.functions.as_slice().iter().enumerate() {
        let moves = moves_of(alloc, graph, counts, as_number(function), units, aim)?;
        all.push(Wanted { moves })?;
    }
    Ok(all)
}

/// What is to be raised in a graph: nothing where a cluster issues one operation in a word.
fn moves_of(
    alloc: Global,
    graph: &Graph,
    counts: &Counts,
    function: u32,
    units: &Units,
    aim: Aim,
) -> Result<Listed<Move>, NoMemory> {
    let mut sketch = Sketch::of_graph(alloc, graph.blocks.as_slice())?;
    let mut walk = walk_of(alloc, graph, counts, function)?;
    if units.first_slots > 1 && has_turn(alloc, &sketch, &mut walk, graph.blocks.len())? {
        raise_in(alloc, graph, units, &mut sketch, &mut walk, aim)?;
    }
    sketch.moves(alloc)
}

/// Whether there is a loop that may be turned.
fn has_turn(
    alloc: Global,
    sketch: &Sketch,
    walk: &mut Walk,
    count: usize,
) -> Result<bool, NoMemory> {
    for header in 0..count {
        if may_turn(alloc, sketch, walk, as_number(header))? {
            return Ok(true);
        }
    }
    Ok(false)
}

fn may_turn(
    alloc: Global,
    sketch: &Sketch,
    walk: &mut Walk,
    header: BlockId,
) -> Result<bool, NoMemory> {
    if !walk.is_header(sketch, header) {
        return Ok(false);
    }
    match turn_of(alloc, sketch, walk, header)? {
        Some(_turn) => Ok(true),
        None => Ok(false),
    }
}

fn raise_in(
    alloc: Global,
    graph: &Graph,
    units: &Units,
    sketch: &mut Sketch,
    walk: &mut Walk,
    aim: Aim,
) -> Result<(), NoMemory> {
    let live = live(alloc, graph)?;
    let ground = Ground {
        graph,
        live: &live,
        units,
    };
    raise_at_headers(alloc, &ground, sketch, walk, aim)
}

fn raise_at_headers(
    alloc: Global,
    ground: &Ground,
    sketch: &mut Sketch,
    walk: &mut Walk,
    aim: Aim,
) -> Result<(), NoMemory> {
    for header in 0..ground.graph.blocks.len() {
        raise_at(alloc, ground, sketch, walk, as_number(header), aim)?;
    }
    Ok(())
}

fn raise_at(
    alloc: Global,
    ground: &Ground,
    sketch: &mut Sketch,
    walk: &mut Walk,
    header: BlockId,
    aim: Aim,
) -> Result<(), NoMemory> {
    if !walk.is_header(sketch, header) || sketch.count() >= MOST_MOVES {
        return Ok(());
    }
    match turn_of(alloc, sketch, walk, header)? {
        Some(turn) => {
            let mut names = names_of(alloc, ground, sketch, turn.path.as_slice())?;
            shorten(alloc, ground, sketch, &mut names, &turn, aim)
        }
        None => Ok(()),
    }
}

/// Raises what makes the turns of a loop shortest.
fn shorten(
    alloc: Global,
    ground: &Ground,
    sketch: &mut Sketch,
    names: &mut Names,
    turn: &Turn,
    aim: Aim,
) -> Result<(), NoMemory> {
    if aim == Aim::Beside && !turn.has_beside() {
        return Ok(());
    }
    let first = cost_of(alloc, ground, sketch, turn)?;
    let before = raise_beside(alloc, ground, sketch, names, turn, first)?;
    if aim == Aim::Beside {
        return Ok(());
    }
    let best = best_within(alloc, ground, sketch, names, turn, before)?;
    if best.cost.saturating_add(before / 64) < before {
        raise_each(ground, sketch, names, best.moves.as_slice())?;
        let _cost = raise_beside(alloc, ground, sketch, names, turn, best.cost)?;
    }
    Ok(())
}

/// Raises what shortens the ways beside the path: from blocks where ways meet into all that lead there, and from the sides of splits to
/// before those. Answers the cost.
fn raise_beside(
    alloc: Global,
    ground: &Ground,
    sketch: &mut Sketch,
    names: &mut Names,
    turn: &Turn,
    before: u64,
) -> Result<u64, NoMemory> {
    let mut cost = before;
    for stop in turn.stops.as_slice() {
        if stop.row > 0 && has_beside(turn, stop.row) && sketch.count() < MOST_MOVES {
            cost = raise_all_of(alloc, ground, sketch, names, turn, stop.block, cost)?;
        }
    }
    for stop in turn.others.as_slice() {
        if stop.row > 0 && sketch.count() < MOST_MOVES {
            cost = raise_some_of(alloc, ground, sketch, names, turn, stop.block, cost)?;
        }
    }
    for stop in turn.outs.as_slice() {
        if sketch.count() < MOST_MOVES {
            cost = raise_some_of(alloc, ground, sketch, names, turn, stop.block, cost)?;
        }
    }
    Ok(cost)
}

/// Whether a block beside the path leads to the block of it at a place.
fn has_beside(turn: &Turn, row: usize) -> bool {
    for stop in turn.others.as_slice() {
        if stop.row == row {
            return true;
        }
    }
    false
}

/// Raises all operations of a block that may be, if that is shorter in all. Answers the cost.
fn raise_all_of(
    alloc: Global,
    ground: &Ground,
    sketch: &mut Sketch,
    names: &mut Names,
    turn: &Turn,
    block: BlockId,
    before: u64,
) -> Result<u64, NoMemory> {
    let start = sketch.count();
    let count = sketch.ops_at(block).len().min(MOST_BESIDE);
    let mut place = 0usize;
    for _ in 0..count {
        if !sketch.raise(ground, block, place)? {
            place = place.saturating_add(1);
        }
    }
    keep_if_shorter(alloc, ground, sketch, names, turn, start, before)
}

/// Raises each operation of a block that may be and by which it is shorter in all. Answers the cost.
fn raise_some_of(
    alloc: Global,
    ground: &Ground,
    sketch: &mut Sketch,
    names: &mut Names,
    turn: &Turn,
    block: BlockId,
    before: u64,
) -> Result<u64, NoMemory> {
    let mut cost = before;
    let mut place = 0usize;
    for _ in 0..sketch.ops_at(block).len().min(MOST_BESIDE) {
        let start = sketch.count();
        if sketch.raise(ground, block, place)? {
            cost = keep_if_shorter(alloc, ground, sketch, names, turn, start, cost)?;
        }
        if sketch.count() == start {
            place = place.saturating_add(1);
        }
    }
    Ok(cost)
}

/// Takes back what was raised since so many moves if there are no registers for it or it is not shorter in all. Answers the cost.
fn keep_if_shorter(
    alloc: Global,
    ground: &Ground,
    sketch: &mut Sketch,
    names: &mut Names,
    turn: &Turn,
    start: usize,
    before: u64,
) -> Result<u64, NoMemory> {
    if sketch.count() > start {
        let passing = passing_of(alloc, ground, sketch, names, turn)?;
        let cost = cost_of(alloc, ground, sketch, turn)?;
        if cost < before && names.has_room(ground, passing, sketch.raised_since(start)) {
            keep_since(ground, sketch, names, start);
            return Ok(cost);
        }
    }
    sketch.back_to(start)?;
    Ok(before)
}

fn keep_since(ground: &Ground, sketch: &Sketch, names: &mut Names, start: usize) {
    for trial in sketch.raised_since(start) {
        names.keep(ground.graph, trial.value);
    }
}

fn passing_of(
    alloc: Global,
    ground: &Ground,
    sketch: &Sketch,
    names: &Names,
    turn: &Turn,
) -> Result<Passing, NoMemory> {
    let steps = steps_of(alloc, ground, sketch, turn.path.as_slice())?;
    Ok(names.count_passing(ground.graph, steps.as_slice()))
}

fn best_within(
    alloc: Global,
    ground: &Ground,
    sketch: &mut Sketch,
    names: &Names,
    turn: &Turn,
    before: u64,
) -> Result<Attempt, NoMemory> {
    let passing = passing_of(alloc, ground, sketch, names, turn)?;
    let limits = Limits { names, passing };
    best_of(alloc, ground, sketch, &limits, turn, before)
}

fn best_of(
    alloc: Global,
    ground: &Ground,
    sketch: &mut Sketch,
    limits: &Limits,
    turn: &Turn,
    before: u64,
) -> Result<Attempt, NoMemory> {
    let mut best = best_by(alloc, ground, sketch, limits, turn, false, before)?;
    if has_joins(sketch, turn.path.as_slice()) {
        let other = best_by(alloc, ground, sketch, limits, turn, true, before)?;
        if other.cost < best.cost {
            best = other;
        }
    }
    Ok(best)
}

fn best_by(
    alloc: Global,
    ground: &Ground,
    sketch: &mut Sketch,
    limits: &Limits,
    turn: &Turn,
    climbs: bool,
    before: u64,
) -> Result<Attempt, NoMemory> {
    let critical = Way {
        kind: Kind::Critical,
        climbs,
    };
    let all = Way {
        kind: Kind::All,
        climbs,
    };
    let one = attempt_by(alloc, ground, sketch, limits, turn, critical, before)?;
    let other = attempt_by(alloc, ground, sketch, limits, turn, all, before)?;
    Ok(if other.cost < one.cost { other } else { one })
}

/// Whether ways meet at a block of the path behind the header.
fn has_joins(sketch: &Sketch, path: &[BlockId]) -> bool {
    for (row, block) in path.iter().enumerate() {
        if row > 0 && sketch.leading_to(*block).len() > 1 {
            return true;
        }
    }
    false
}

fn raise_each(
    ground: &Ground,
    sketch: &mut Sketch,
    names: &mut Names,
    moves: &[Move],
) -> Result<(), NoMemory> {
    let start = sketch.count();
    for found in moves {
        let _is_raised = sketch.raise(ground, found.block, found.place as usize)?;
    }
    keep_since(ground, sketch, names, start);
    Ok(())
}

/// Puts operations round as long as it helps, and takes all back. Answers the moves with the least cost.
fn attempt_by(
    alloc: Global,
    ground: &Ground,
    sketch: &mut Sketch,
    limits: &Limits,
    turn: &Turn,
    way: Way,
    before: u64,
) -> Result<Attempt, NoMemory> {
    let start = sketch.count();
    let mut best = before;
    let mut count = start;
    let mut idle = 0usize;
    for _ in 0..MOST_ROUNDS {
        let climbed = way.climbs && climb_all(ground, sketch, turn)?;
        let moved = put_round(alloc, ground, sketch, limits, turn, way.kind, start)?;
        if !(moved || climbed) || idle >= MOST_IDLE || sketch.count() >= MOST_MOVES {
            break;
        }
        let cost = cost_of(alloc, ground, sketch, turn)?;
        if cost < best {
            best = cost;
            count = sketch.count();
            idle = 0;
        } else {
            idle = idle.saturating_add(1);
        }
    }
    sketch.back_to(count)?;
    let moves = moves_since(alloc, sketch, start)?;
    sketch.back_to(start)?;
    Ok(Attempt { cost: best, moves })
}

fn moves_since(alloc: Global, sketch: &Sketch, start: usize) -> Result<Vec<Move>, NoMemory> {
    let mut moves = Vec::new(alloc);
    for trial in sketch.raised_since(start) {
        moves.push(trial.one)?;
    }
    Ok(moves)
}

/// Puts operations of the first word of the plan round. Answers whether there was one.
fn put_round(
    alloc: Global,
    ground: &Ground,
    sketch: &mut Sketch,
    limits: &Limits,
    turn: &Turn,
    kind: Kind,
    start: usize,
) -> Result<bool, NoMemory> {
    let steps = steps_of(alloc, ground, sketch, turn.path.as_slice())?;
    let plan = plan_of(alloc, ground, sketch, steps.as_slice())?;
    let least = least_tail(steps.as_slice(), &plan, kind);
    let mut is_moved = false;
    let mut row = 0usize;
    let mut gone = 0usize;
    for (index, step) in steps.iter().enumerate() {
        if step.row != row {
            row = step.row;
            gone = 0;
        }
        if is_wanted(&plan, index, step, least) {
            let place = step.place.saturating_sub(gone);
            if carry(ground, sketch, limits, turn, row, place, start)? {
                is_moved = true;
                gone = gone.saturating_add(1);
            }
        }
    }
    Ok(is_moved)
}

/// Whether a step stands in the first word, may be raised, and so many cycles hang on it.
fn is_wanted(plan: &Plan, index: usize, step: &Step, least: u32) -> bool {
    number_at(plan.words.as_slice(), index) == 0
        && is_movable(step)
        && number_at(plan.tails.as_slice(), index) >= least
}

/// The cycles that hang on each step that is put round, at least.
fn least_tail(steps: &[Step], plan: &Plan, kind: Kind) -> u32 {
    let mut least = 0u32;
    if kind == Kind::Critical {
        for (index, step) in steps.iter().enumerate() {
            if is_wanted(plan, index, step, 0) {
                least = least.max(number_at(plan.tails.as_slice(), index));
            }
        }
    }
    least
}

fn is_movable(step: &Step) -> bool {
    match step.effect {
        Effect::Nothing | Effect::Loads(_) => true,
        _ => false,
    }
}

/// Raises an operation of a block of the path to the header and round the back edge, where it may be and there is a register for what
/// it writes. Answers whether it was; if not all is as before.
fn carry(
    ground: &Ground,
    sketch: &mut Sketch,
    limits: &Limits,
    turn: &Turn,
    row: usize,
    place: usize,
    start: usize,
) -> Result<bool, NoMemory> {
    let count = sketch.count();
    if raise_along(ground, sketch, turn.path.as_slice(), row, place)?
        && limits
            .names
            .has_room(ground, limits.passing, sketch.raised_since(start))
    {
        Ok(true)
    } else {
        sketch.back_to(count)?;
        Ok(false)
    }
}

/// Raises an operation from block to block up the path, and from its first block too. Answers whether that went through.
fn raise_along(
    ground: &Ground,
    sketch: &mut Sketch,
    path: &[BlockId],
    row: usize,
    place: usize,
) -> Result<bool, NoMemory> {
    let mut at = place;
    for above in 0..row.saturating_add(1) {
        match path.get(row.saturating_sub(above)) {
            Some(block) => {
                if !sketch.raise(ground, *block, at)? {
                    return Ok(false);
                }
            }
            None => return Ok(false),
        }
        at = end_of(sketch, path, row.saturating_sub(above).saturating_sub(1));
    }
    Ok(true)
}
