// The loops of a graph that may be turned: the blocks that a turn likely passes, by counts, and how often it does.

use crate::sketch::Sketch;
use crate::steps::block_at;
use std::alloc::Global;
use vx_base::outcome::NoMemory;
use vx_flow::graph::{BlockId, Exit, Graph};
use vx_loops::order_of;
use vx_profile::counts::Counts;

/// The most blocks of a turn, and the most operations.
const MOST_BLOCKS: usize = 32;

const MOST_OPERATIONS: usize = 160;

/// How often blocks and edges are taken to be passed in a function that was not counted: blocks and edges of a loop, others.
const OFTEN: u64 = 8;

const HALF: u64 = 4;

const ONCE: u64 = 1;

/// A block beside a turn is not looked at where it is passed once in so many turns, or less often.
const SELDOM: u64 = 16;

/// A graph with the counts of its function, the order of its blocks, and the blocks of the loop that is looked at.
#[derive(Drop)]
pub(crate) struct Walk<'a> {
    graph: &'a Graph,
    counts: &'a Counts,
    function: u32,
    ranks: Vec<usize>,
    members: Vec<bool>,
}

/// A block that a turn passes.
#[derive(Clone, Copy)]
pub(crate) struct Stop {
    pub(crate) block: BlockId,
    /// Whether a trace of its own begins there.
    pub(crate) begins: bool,
    /// How often it is passed.
    pub(crate) weight: u64,
    /// How often it is left to another block than the next one.
    pub(crate) leaves: u64,
    /// The place in the turn of the block itself, or of the one to which it leads.
    pub(crate) row: usize,
}

/// A loop that may be turned.
#[derive(Drop)]
pub(crate) struct Turn {
    /// The blocks that a turn likely passes, the header first.
    pub(crate) path: Vec<BlockId>,
    /// What is known of each.
    pub(crate) stops: Vec<Stop>,
    /// The blocks besides that lead to one of them.
    pub(crate) others: Vec<Stop>,
    /// The blocks to which one of them leads besides, and which lead to none of them.
    pub(crate) outs: Vec<Stop>,
}

impl Turn {
    /// Whether there are ways beside the path that are looked at.
    pub(crate) fn has_beside(&self) -> bool {
        for stop in self.others.as_slice() {
            if stop.row > 0 {
                return true;
            }
        }
        !self.outs.is_empty()
    }
}

/// The order of the blocks of a graph, with no loop looked at.
pub(crate) fn walk_of<'a>(
    alloc: Global,
    graph: &'a Graph,
    counts: &'a Counts,
    function: u32,
) -> Result<Walk<'a>, NoMemory> {
    let ranks = ranks_of(alloc, graph)?;
    let members = vec![in alloc; false; graph.blocks.len()]?;
    Ok(Walk {
        graph,
        counts,
        function,
        ranks,
        members,
    })
}

fn ranks_of(alloc: Global, graph: &Graph) -> Result<Vec<usize>, NoMemory> {
    let order = order_of(alloc, graph.blocks.as_slice())?;
    let mut ranks = vec![in alloc; usize::MAX; graph.blocks.len()]?;
    for (rank, block) in order.iter().enumerate() {
        if (*block as usize) < ranks.len() {
            ranks[*block as usize] = rank;
        }
    }
    Ok(ranks)
}

impl<'a> Walk<'a> {
    fn rank(&self, block: BlockId) -> usize {
        match self.ranks.get(block as usize) {
            Some(rank) => *rank,
            None => usize::MAX,
        }
    }

    fn is_member(&self, block: BlockId) -> bool {
        match self.members.get(block as usize) {
            Some(is_member) => *is_member,
            None => false,
        }
    }

    /// Whether an edge to the block closes a loop.
    pub(crate) fn is_header(&self, sketch: &Sketch, block: BlockId) -> bool {
        for source in sketch.leading_to(block) {
            if self.rank(*source) >= self.rank(block) {
                return true;
            }
        }
        false
    }

    /// Marks the blocks of the loop of a header. Answers whether it may be turned: where another loop stands in it, only counts tell
    /// that a turn likely passes by that.
    fn gather(
        &mut self,
        alloc: Global,
        sketch: &Sketch,
        header: BlockId,
    ) -> Result<bool, NoMemory> {
        self.clear();
        let _is_new = self.mark(header);
        let mut waiting = self.back_of(alloc, sketch, header)?;
        for _ in 0..self.members.len().saturating_mul(3) {
            match waiting.pop() {
                Some(block) => {
                    if self.mark(block) {
                        if !self.is_counted() && self.is_header(sketch, block) {
                            return Ok(false);
                        }
                        waiting.extend_from_slice(sketch.leading_to(block))?;
                    }
                }
                None => return Ok(true),
            }
        }
        Ok(false)
    }

    /// The blocks from which edges to a header close its loop.
    fn back_of(
        &self,
        alloc: Global,
        sketch: &Sketch,
        header: BlockId,
    ) -> Result<Vec<BlockId>, NoMemory> {
        let mut back = Vec::new(alloc);
        for source in sketch.leading_to(header) {
            if self.rank(*source) >= self.rank(header) {
                back.push(*source)?;
            }
        }
        Ok(back)
    }

    fn clear(&mut self) {
        for place in 0..self.members.len() {
            self.unmark(place);
        }
    }

    fn unmark(&mut self, place: usize) {
        if place < self.members.len() {
            self.members[place] = false;
        }
    }

    /// Marks a block. Answers whether it was not marked.
    fn mark(&mut self, block: BlockId) -> bool {
        let place = block as usize;
        if place < self.members.len() && !self.members[place] {
            self.members[place] = true;
            true
        } else {
            false
        }
    }

    fn is_counted(&self) -> bool {
        self.counts.of_block(self.function, 0) > 0
    }

    /// How often a block is passed.
    fn weight(&self, block: BlockId) -> u64 {
        if self.is_counted() {
            self.counts.of_block(self.function, block)
        } else if self.is_member(block) {
            OFTEN
        } else {
            ONCE
        }
    }

    /// How often an edge is passed.
    fn weight_of_edge(&self, from: BlockId, to: BlockId) -> u64 {
        if self.is_counted() {
            self.counts.of_edge(self.function, from, to)
        } else if self.is_member(from) && self.is_member(to) {
            HALF
        } else {
            ONCE
        }
    }

    /// Whether the loop is passed again more often than it is entered.
    fn is_passed_often(&self, sketch: &Sketch, header: BlockId) -> bool {
        let mut back = 0u64;
        let mut entries = 0u64;
        for source in sketch.leading_to(header) {
            let weight = self.weight_of_edge(*source, header);
            if self.is_member(*source) {
                back = back.saturating_add(weight);
            } else {
                entries = entries.saturating_add(weight);
            }
        }
        back > entries
    }

    fn inside(&self, block: BlockId) -> Option<BlockId> {
        if self.is_member(block) {
            Some(block)
        } else {
            None
        }
    }

    /// The block of the loop to which a block likely leads.
    fn likely_next(&self, block: BlockId) -> Option<BlockId> {
        match self.graph.blocks.as_slice().get(block as usize) {
            Some(found) => match &found.exit {
                Exit::Goto(next) => self.inside(*next),
                Exit::Split { yes, no, .. } => self.heavier(block, *yes, *no),
                Exit::Call { next, .. } => self.inside(*next),
                _ => None,
            },
            None => None,
        }
    }

    fn heavier(&self, block: BlockId, yes: BlockId, no: BlockId) -> Option<BlockId> {
        let first = self.weight_of_edge(block, yes);
        let second = self.weight_of_edge(block, no);
        if !self.is_member(no) {
            self.inside(yes)
        } else if self.is_member(yes) && (first > second || (first == second && yes < no)) {
            Some(yes)
        } else {
            Some(no)
        }
    }

    /// How often a block is left by a split to another block than the next.
    fn leaving(&self, block: BlockId, next: Option<BlockId>) -> u64 {
        match next {
            Some(next) => match self.other_way(block, next) {
                Some(other) => self.weight_of_edge(block, other),
                None => 0,
            },
            None => 0,
        }
    }

    fn other_way(&self, block: BlockId, next: BlockId) -> Option<BlockId> {
        match self.graph.blocks.as_slice().get(block as usize) {
            Some(found) => match &found.exit {
                Exit::Split { yes, no, .. } => { if *yes == next { Some(*no) } else { Some(*yes) } }
                _ => None,
            },
            None => None,
        }
    }

    /// Whether at least every second turn of a loop goes back by this block.
    fn is_likely(&self, last: BlockId, header: BlockId) -> bool {
        let back = self.weight_of_edge(last, header);
        back.saturating_add(back) >= self.weight(header)
    }

    /// Whether a trace goes on along the edge: it is the heaviest out of the one block and into the other.
    fn is_heaviest(&self, sketch: &Sketch, from: BlockId, to: BlockId) -> bool {
        let weight = self.weight_of_edge(from, to);
        for source in sketch.leading_to(to) {
            let other = self.weight_of_edge(*source, to);
            if other > weight || (other == weight && *source < from) {
                return false;
            }
        }
        self.leaving(from, Some(to)) <= weight
    }

    fn begins(&self, sketch: &Sketch, above: Option<BlockId>, block: BlockId) -> bool {
        match above {
            Some(above) => self.calls(above) || !self.is_heaviest(sketch, above, block),
            None => true,
        }
    }

    /// Whether a block is passed at least in every sixteenth turn or so, by counts.
    fn is_frequent(&self, turn: &Turn, block: BlockId) -> bool {
        match turn.stops.as_slice().first() {
            Some(header) => {
                self.is_counted() && self.weight(block).saturating_mul(SELDOM) > header.weight
            }
            None => false,
        }
    }

    /// Whether a block ends by a call.
    fn calls(&self, block: BlockId) -> bool {
        match self.graph.blocks.as_slice().get(block as usize) {
            Some(found) => match &found.exit {
                Exit::Call { .. } => true,
                _ => false,
            },
            None => false,
        }
    }
}

/// The turn of a loop that is passed again more often than it is entered, if it has one without another loop.
pub(crate) fn turn_of(
    alloc: Global,
    sketch: &Sketch,
    walk: &mut Walk,
    header: BlockId,
) -> Result<Option<Turn>, NoMemory> {
    if !walk.gather(alloc, sketch, header)? || !walk.is_passed_often(sketch, header) {
        return Ok(None);
    }
    match path_of(alloc, sketch, walk, header)? {
        Some(path) => turn_along(alloc, sketch, walk, path),
        None => Ok(None),
    }
}

/// The blocks that a turn likely passes, if it goes back to the header by them and passes no other header.
fn path_of(
    alloc: Global,
    sketch: &Sketch,
    walk: &Walk,
    header: BlockId,
) -> Result<Option<Vec<BlockId>>, NoMemory> {
    let mut path = Vec::new(alloc);
    let mut last = header;
    for _ in 0..MOST_BLOCKS {
        path.push(last)?;
        match walk.likely_next(last) {
            Some(next) => {
                if next == header {
                    return Ok(path_if(walk.is_likely(last, header), path));
                }
                if walk.is_header(sketch, next) {
                    return Ok(None);
                }
                last = next;
            }
            None => return Ok(None),
        }
    }
    Ok(None)
}

fn path_if(is_likely: bool, path: Vec<BlockId>) -> Option<Vec<BlockId>> {
    if is_likely { Some(path) } else { None }
}

fn count_ops(sketch: &Sketch, path: &[BlockId]) -> usize {
    let mut count = 0usize;
    for block in path {
        count = count.saturating_add(sketch.ops_at(*block).len());
    }
    count
}

fn turn_along(
    alloc: Global,
    sketch: &Sketch,
    walk: &Walk,
    path: Vec<BlockId>,
) -> Result<Option<Turn>, NoMemory> {
    if count_ops(sketch, path.as_slice()) > MOST_OPERATIONS {
        return Ok(None);
    }
    let mut turn = Turn {
        path,
        stops: Vec::new(alloc),
        others: Vec::new(alloc),
        outs: Vec::new(alloc),
    };
    for index in 0..turn.path.len() {
        push_stop(&mut turn, sketch, walk, index)?;
    }
    for index in 0..turn.path.len() {
        push_out(&mut turn, walk, index)?;
    }
    Ok(Some(turn))
}

fn push_stop(turn: &mut Turn, sketch: &Sketch, walk: &Walk, index: usize) -> Result<(), NoMemory> {
    match block_at(turn.path.as_slice(), index) {
        Some(block) => {
            let next = block_at(turn.path.as_slice(), index.saturating_add(1));
            let above = above_of(turn.path.as_slice(), index);
            turn.stops.push(Stop {
                block,
                begins: walk.begins(sketch, above, block),
                weight: walk.weight(block),
                leaves: walk.leaving(block, next),
                row: index,
            })?;
            push_others(turn, sketch, walk, block, index)
        }
        None => Ok(()),
    }
}

/// Notes the block to which a block of the path leads besides, if that is passed and leads to none of the path.
fn push_out(turn: &mut Turn, walk: &Walk, index: usize) -> Result<(), NoMemory> {
    match out_of(turn, walk, index) {
        Some(block) => {
            turn.outs.push(Stop {
                block,
                begins: true,
                weight: walk.weight(block),
                leaves: 0,
                row: index,
            })?;
            Ok(())
        }
        None => Ok(()),
    }
}

fn out_of(turn: &Turn, walk: &Walk, index: usize) -> Option<BlockId> {
    let block = block_at(turn.path.as_slice(), index)?;
    let next = block_at(turn.path.as_slice(), index.saturating_add(1))?;
    let out = walk.other_way(block, next)?;
    if walk.is_frequent(turn, out)
        && !is_on_path(turn.path.as_slice(), out)
        && !is_among(turn.others.as_slice(), out)
    {
        Some(out)
    } else {
        None
    }
}

fn above_of(path: &[BlockId], index: usize) -> Option<BlockId> {
    if index == 0 {
        None
    } else {
        block_at(path, index - 1)
    }
}

fn push_others(
    turn: &mut Turn,
    sketch: &Sketch,
    walk: &Walk,
    block: BlockId,
    row: usize,
) -> Result<(), NoMemory> {
    for source in sketch.leading_to(block) {
        if !is_on_path(turn.path.as_slice(), *source)
            && !is_among(turn.others.as_slice(), *source)
            && (row == 0 || walk.is_frequent(turn, *source))
        {
            turn.others.push(Stop {
                block: *source,
                begins: true,
                weight: walk.weight(*source),
                leaves: 0,
                row,
            })?;
        }
    }
    Ok(())
}

fn is_on_path(path: &[BlockId], block: BlockId) -> bool {
    for other in path {
        if *other == block {
            return true;
        }
    }
    false
}

fn is_among(stops: &[Stop], block: BlockId) -> bool {
    for stop in stops {
        if stop.block == block {
            return true;
        }
    }
    false
}
