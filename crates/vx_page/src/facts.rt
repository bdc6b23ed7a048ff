// What is told of each operation of a trace: where it stands, how it got there, what it waits for, and how far the end of the trace is.

use crate::notes::{BlockNote, note_of};
use crate::page::small;
use crate::view::TraceView;
use std::alloc::Global;
use vx_base::outcome::NoMemory;
use vx_dep::copies::{EdgeCopies, Rejoin, word_at};
use vx_dep::{Deps, Earlier, pairs};
use vx_flow::graph::{BlockId, Op};
use vx_flow::trace::TraceOp;
use vx_machine::Machine;
use vx_room::items::Item;

/// What an operation passed: the first of it in the order of the trace, and how many.
#[derive(Clone, Copy)]
pub struct Passed {
    /// The place of the first split, or the block of the first join.
    pub first: u32,
    /// How many, 1 at least.
    pub count: u32,
}

/// One more passed.
fn one_more(passed: Option<Passed>, at: u32) -> Option<Passed> {
    match passed {
        Some(before) => Some(Passed {
            first: before.first,
            count: before.count.saturating_add(1),
        }),
        None => Some(Passed {
            first: at,
            count: 1,
        }),
    }
}

/// An operation of a trace.
#[derive(Clone, Copy)]
pub struct OpFact {
    /// Its word.
    pub word: u32,
    /// Its cluster.
    pub cluster: u32,
    /// The block that it is of.
    pub block: BlockId,
    /// The greatest sum of delays from it to the end.
    pub height: u32,
    /// The greatest sum of delays from the start to it.
    pub depth: u32,
    /// Cycles until its result has landed.
    pub latency: u32,
    /// The first word in which its delays let it stand.
    pub ready: u32,
    /// The operation by which it may not stand earlier.
    pub waits_for: Option<Earlier>,
    /// The splits that it was moved above.
    pub above_split: Option<Passed>,
    /// The splits that it was moved below.
    pub below_split: Option<Passed>,
    /// The joins that it was moved above.
    pub above_join: Option<Passed>,
    /// Whether it brings a value to another cluster, and stands in no block.
    pub is_across: bool,
    /// Whether it is a load that may stand where its place is outside of the array.
    pub is_dismissible: bool,
}

/// Where the blocks of a trace are while its operations are walked through.
#[derive(Clone, Copy)]
struct Walk {
    index: usize,
    left: u32,
}

fn block_at(blocks: &[BlockId], index: usize) -> BlockId {
    match blocks.get(index) {
        Some(block) => *block,
        None => 0,
    }
}

/// On to the next block that has an operation left, where there is one.
fn to_next_op(walk: Walk, blocks: &[BlockId], notes: &[BlockNote]) -> Walk {
    let mut walk = walk;
    for _block in 0..blocks.len() {
        let next = walk.index.saturating_add(1);
        if walk.left > 0 || next >= blocks.len() {
            return walk;
        }
        walk.index = next;
        walk.left = note_of(notes, block_at(blocks, next)).ops;
    }
    walk
}

/// On to a block.
fn to_block(walk: Walk, blocks: &[BlockId], block: BlockId) -> Walk {
    let mut index = walk.index;
    for _block in 0..blocks.len() {
        if block_at(blocks, index) == block {
            return Walk { index, left: 0 };
        }
        index = index.saturating_add(1);
    }
    walk
}

/// The walk behind an operation.
fn walk_on(
    walk: Walk,
    blocks: &[BlockId],
    notes: &[BlockNote],
    op: &TraceOp,
    is_across: bool,
) -> Walk {
    match op {
        TraceOp::Split { edge, .. } => to_block(walk, blocks, edge.from),
        TraceOp::Plain(_) => {
            if is_across {
                return walk;
            }
            let on = to_next_op(walk, blocks, notes);
            Walk {
                index: on.index,
                left: on.left.saturating_sub(1),
            }
        }
    }
}

/// Whether an operation was put into the trace for another cluster: a copy that stands in no block.
fn is_across(op: &TraceOp, fixed: Option<u32>) -> bool {
    match (op, fixed) {
        (TraceOp::Plain(Op::Across { .. }), None) => true,
        _ => false,
    }
}

fn is_load(op: &TraceOp) -> bool {
    match op {
        TraceOp::Plain(Op::Load { .. }) => true,
        _ => false,
    }
}

fn is_dismissible(op: &TraceOp) -> bool {
    match op {
        TraceOp::Plain(Op::Load { dismissible, .. }) => *dismissible,
        _ => false,
    }
}

fn fixed_at(fixed: &[Option<u32>], place: usize) -> Option<u32> {
    match fixed.get(place) {
        Some(found) => *found,
        None => None,
    }
}

/// The first word in which delays let an operation stand, and the operation that it waits for.
#[derive(Clone, Copy)]
struct Wait {
    ready: u32,
    depth: u32,
    on: Option<Earlier>,
}

fn wait_of(earlier: &[Earlier], facts: &[OpFact]) -> Wait {
    let mut wait = Wait {
        ready: 0,
        depth: 0,
        on: None,
    };
    for above in earlier {
        if let Some(fact) = facts.get(above.place as usize) {
            let ready = fact.word.saturating_add(above.delay);
            wait.depth = wait.depth.max(fact.depth.saturating_add(above.delay));
            if ready > wait.ready {
                wait.ready = ready;
                wait.on = Some(*above);
            }
        }
    }
    wait
}

/// The splits above an operation that do not stand in an earlier word.
fn passed_splits(splits: &[EdgeCopies], words: &[u32], place: u32, word: u32) -> Option<Passed> {
    let mut found = None;
    for split in splits {
        if split.split < place && word <= word_at(words, split.split) {
            found = one_more(found, split.split);
        }
    }
    found
}

/// The splits that an operation was moved above. A split passes none: beside another in one word it leaves where that one stays.
fn passed_above(
    splits: &[EdgeCopies],
    words: &[u32],
    place: u32,
    word: u32,
    op: &TraceOp,
) -> Option<Passed> {
    match op {
        TraceOp::Plain(_) => passed_splits(splits, words, place, word),
        TraceOp::Split { .. } => None,
    }
}

/// What is told of the operation at a place, where these were told of the ones above it.
fn fact_at(
    machine: &Machine,
    trace: &TraceView,
    deps: &Deps,
    facts: &[OpFact],
    place: usize,
    op: &TraceOp,
    block: BlockId,
    across: bool,
) -> OpFact {
    let number = small(place);
    let words = trace.placed.words.as_slice();
    let word = word_at(words, number);
    let wait = wait_of(deps.earlier(number), facts);
    let above_split = passed_above(trace.splits, words, number, word, op);
    OpFact {
        word,
        cluster: word_at(trace.placed.clustered.clusters.as_slice(), number),
        block,
        height: deps.height(number),
        depth: wait.depth,
        latency: Item::of_trace(op).latency(machine),
        ready: wait.ready,
        waits_for: wait.on,
        above_split,
        below_split: None,
        above_join: None,
        is_across: across,
        is_dismissible: is_dismissible(op) || (is_load(op) && above_split.is_some()),
    }
}

fn push_facts(
    machine: &Machine,
    trace: &TraceView,
    notes: &[BlockNote],
    deps: &Deps,
    facts: &mut Vec<OpFact>,
) -> Result<(), NoMemory> {
    let fixed = trace.placed.clustered.trace.fixed.as_slice();
    let mut walk = Walk {
        index: 0,
        left: note_of(notes, block_at(trace.blocks, 0)).ops,
    };
    for (place, op) in trace
        .placed
        .clustered
        .trace
        .ops
        .as_slice()
        .iter()
        .enumerate()
    {
        let across = is_across(op, fixed_at(fixed, place));
        walk = walk_on(walk, trace.blocks, notes, op, across);
        let block = block_at(trace.blocks, walk.index);
        let fact = fact_at(
            machine,
            trace,
            deps,
            facts.as_slice(),
            place,
            op,
            block,
            across,
        );
        facts.push(fact)?;
    }
    Ok(())
}

fn mark_below(facts: &mut Vec<OpFact>, places: &[u32], split: u32) {
    for place in places {
        if let Some(fact) = facts.get_mut(*place as usize) {
            fact.below_split = one_more(fact.below_split, split);
        }
    }
}

fn mark_above(facts: &mut Vec<OpFact>, places: &[u32], block: BlockId) {
    for place in places {
        if let Some(fact) = facts.get_mut(*place as usize) {
            fact.above_join = one_more(fact.above_join, block);
        }
    }
}

fn mark_splits(facts: &mut Vec<OpFact>, splits: &[EdgeCopies]) {
    for split in splits {
        mark_below(facts, split.copies.as_slice(), split.split);
    }
}

fn mark_joins(facts: &mut Vec<OpFact>, rejoins: &[Rejoin]) {
    for rejoin in rejoins {
        mark_above(facts, rejoin.copies.as_slice(), rejoin.block);
    }
}

/// What is told of the operations of a trace, where these are the blocks of its function.
pub fn facts_of(
    alloc: Global,
    machine: &Machine,
    trace: &TraceView,
    notes: &[BlockNote],
) -> Result<Vec<OpFact>, NoMemory> {
    let mut facts = Vec::new(alloc);
    put_facts(alloc, machine, trace, notes, &mut facts)?;
    mark_splits(&mut facts, trace.splits);
    mark_joins(&mut facts, trace.rejoins);
    Ok(facts)
}

fn put_facts(
    alloc: Global,
    machine: &Machine,
    trace: &TraceView,
    notes: &[BlockNote],
    facts: &mut Vec<OpFact>,
) -> Result<(), NoMemory> {
    let deps = pairs(alloc, &trace.placed.clustered.trace, machine, trace.mode)?;
    push_facts(machine, trace, notes, &deps, facts)
}

/// The greatest sum of delays from the start of a trace to its end.
pub fn longest(facts: &[OpFact]) -> u32 {
    let mut most: u32 = 0;
    for fact in facts {
        most = most.max(fact.depth.saturating_add(fact.height));
    }
    most
}
