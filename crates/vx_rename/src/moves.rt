// Moves whose source and target can share a name (coalescing, Chaitin, 1982): their webs become one where neither is written while the
// other one is live, but by moves from one to the other. Where there may be more webs than names, only those do of which the new one has
// fewer neighbours that are hard to name than there are names (Briggs, Cooper and Torczon, 1994). A write that can go up past a split
// must not lose that, so webs stay apart if one is live at the other side of a split above a write of the other.

use crate::made_block::result_of;
use crate::made_ops::source_of;
use crate::names::{BlockNames, Name};
use crate::neighbours::Neighbours;
use crate::value_sets::{NONE, at, put};
use crate::web_names::WebNames;
use crate::webs::Webs;
use std::alloc::Global;
use vx_base::outcome::NoMemory;
use vx_flow::graph::{Block, BlockId, Exit, Graph, Op, Value};
use vx_flow::operands::written_by;
use vx_loops::{Loops, loops_of};

/// How many blocks are gone over above a write.
const MOST_ABOVE: usize = 64;

/// How many values at the starts of blocks are looked at above writes of a graph.
const MOST_LOOKS: usize = 4000000;

/// A move from one web to another.
#[derive(Clone, Copy)]
struct Move {
    from: u32,
    to: u32,
}

/// The moves of a graph, found by a walk over its blocks, and the blocks in which each web is written by another operation.
#[derive(Drop)]
struct Moves {
    /// The web in which each value is where the walk is.
    webs: Vec<u32>,
    found: Vec<Move>,
    writes: Neighbours,
}

impl Moves {
    fn write(&mut self, value: Option<Value>, web: u32) {
        if let Some(value) = value {
            put(&mut self.webs, value, web);
        }
    }

    fn enter(&mut self, start: &[Name]) {
        for name in start {
            put(&mut self.webs, name.old, name.new);
        }
    }

    fn walk_op(&mut self, block: BlockId, op: &Op, to: u32) -> Result<(), NoMemory> {
        match source_of(op) {
            Some(source) => {
                let from = at(self.webs.as_slice(), source);
                self.found.push(Move { from, to })?;
            }
            None => self.writes.note(to, block)?,
        }
        self.write(written_by(op), to);
        Ok(())
    }

    fn walk_block(
        &mut self,
        number: BlockId,
        block: &Block,
        names: &BlockNames,
    ) -> Result<(), NoMemory> {
        self.enter(names.start.as_slice());
        let written = names.written.as_slice();
        for (place, op) in block.ops.as_slice().iter().enumerate() {
            match written.get(place) {
                Some(Some(web)) => self.walk_op(number, op, *web)?,
                _ => {}
            }
        }
        self.write(result_of(&block.exit), names.result);
        Ok(())
    }
}

fn moves_of(
    alloc: Global,
    graph: &Graph,
    names: &WebNames,
    webs: usize,
) -> Result<Moves, NoMemory> {
    let row = vec![in alloc; NONE; graph.banks.len()]?;
    let writes = Neighbours::new(alloc, webs, 0)?;
    let mut moves = Moves {
        webs: row,
        found: Vec::new(alloc),
        writes,
    };
    let mut number: BlockId = 0;
    for block in graph.blocks.as_slice() {
        match names.blocks.as_slice().get(number as usize) {
            Some(names) => moves.walk_block(number, block, names)?,
            None => {}
        }
        number = number.saturating_add(1);
    }
    Ok(moves)
}

/// The blocks above one, up to the header of its loop, and those that are still to be gone over.
#[derive(Drop)]
struct Above<'a> {
    graph: &'a Graph,
    names: &'a WebNames,
    loops: &'a Loops,
    /// The walk in which each block was found last.
    found: Vec<u32>,
    walk: u32,
    todo: Vec<BlockId>,
    /// How many values may still be looked at.
    looks: usize,
}

impl<'a> Above<'a> {
    /// Whether a web is live at the start of a block.
    fn is_live(&mut self, block: BlockId, web: u32, webs: &mut Webs) -> bool {
        match self.names.blocks.as_slice().get(block as usize) {
            Some(names) => {
                self.looks = self.looks.saturating_sub(names.start.len());
                is_among(names.start.as_slice(), web, webs)
            }
            None => false,
        }
    }

    /// Whether a block above this one leads to it by a jump or a split.
    fn is_passed(&self, above: BlockId, block: BlockId) -> bool {
        if self.loops.rank(above as usize) >= self.loops.rank(block as usize) {
            return false;
        }
        match self.graph.blocks.as_slice().get(above as usize) {
            Some(block) => match block.exit {
                Exit::Goto(_) | Exit::Split { .. } => true,
                _ => false,
            },
            None => false,
        }
    }

    /// Whether operations may go up from a block.
    fn is_open(&self, block: BlockId) -> bool {
        for above in self.loops.leading_to(block as usize) {
            if !self.is_passed(*above, block) {
                return false;
            }
        }
        true
    }

    /// The block to which one leads besides this one; this one where there is none.
    fn other(&self, above: BlockId, block: BlockId) -> BlockId {
        match self.graph.blocks.as_slice().get(above as usize) {
            Some(found) => match &found.exit {
                Exit::Split { yes, no, .. } => { if *yes == block { *no } else { *yes } }
                _ => block,
            },
            None => block,
        }
    }

    /// A block is to be gone over.
    fn put(&mut self, block: BlockId) -> Result<(), NoMemory> {
        if at(self.found.as_slice(), block) != self.walk {
            put(&mut self.found, block, self.walk);
            self.todo.push(block)?;
        }
        Ok(())
    }

    /// Whether a web is live at the other side of a split that leads to a block. Those before the block are to be gone over.
    fn is_beside(&mut self, block: BlockId, web: u32, webs: &mut Webs) -> Result<bool, NoMemory> {
        if !self.is_open(block) {
            return Ok(false);
        }
        let loops = self.loops;
        for above in loops.leading_to(block as usize) {
            let other = self.other(*above, block);
            if other != block && self.is_live(other, web, webs) {
                return Ok(true);
            }
            self.put(*above)?;
        }
        Ok(false)
    }

    /// Whether a web is live at the other side of a split above a block, or too much was gone over.
    fn is_across(&mut self, block: BlockId, web: u32, webs: &mut Webs) -> Result<bool, NoMemory> {
        self.walk = self.walk.saturating_add(1);
        self.todo.clear();
        self.todo.push(block)?;
        for _ in 0..MOST_ABOVE {
            match self.todo.pop() {
                Some(next) => {
                    if self.is_beside(next, web, webs)? {
                        return Ok(true);
                    }
                }
                None => return Ok(self.looks == 0),
            }
        }
        Ok(true)
    }

    /// Whether one is live across a split above a write of another.
    fn is_held(
        &mut self,
        writes: &Neighbours,
        written: u32,
        web: u32,
        webs: &mut Webs,
    ) -> Result<bool, NoMemory> {
        let mut place = writes.first(written);
        for _ in 0..writes.len() {
            match writes.link_at(place) {
                Some(link) => {
                    if self.is_across(link.with, web, webs)? {
                        return Ok(true);
                    }
                    place = link.next;
                }
                None => return Ok(false),
            }
        }
        Ok(false)
    }
}

/// Whether a value that is listed is in a web.
fn is_among(start: &[Name], web: u32, webs: &mut Webs) -> bool {
    for name in start {
        if webs.find(name.new) == web {
            return true;
        }
    }
    false
}

/// Webs while some of them become one.
#[derive(Drop)]
struct Merging<'a> {
    /// The kinds of values.
    kinds: &'a [u32],
    webs: &'a mut Webs,
    neighbours: &'a mut Neighbours,
    writes: Neighbours,
    /// How many neighbours each web has at most.
    degrees: Vec<u32>,
    /// The look at which a web was come to last.
    seen: Vec<u32>,
    look: u32,
}

impl<'a> Merging<'a> {
    fn kind_of(&self, web: u32) -> u32 {
        at(self.kinds, at(self.webs.values(), web))
    }

    /// Whether the second web is a neighbour of the first one.
    fn are_neighbours(&mut self, one: u32, other: u32) -> bool {
        let mut place = self.neighbours.first(one);
        for _ in 0..self.neighbours.len() {
            match self.neighbours.link_at(place) {
                Some(link) => {
                    if self.webs.find(link.with) == other {
                        return true;
                    }
                    place = link.next;
                }
                None => return false,
            }
        }
        false
    }

    /// 1 for a neighbour of a kind to which this look comes first and which has so many of its own at least, else 0.
    fn hard_one(&mut self, web: u32, kind: u32, least: u32) -> u32 {
        if at(self.seen.as_slice(), web) == self.look || self.kind_of(web) != kind {
            return 0;
        }
        put(&mut self.seen, web, self.look);
        if at(self.degrees.as_slice(), web) < least {
            0
        } else {
            1
        }
    }

    /// How many such neighbours of its kind a web has.
    fn count_hard(&mut self, web: u32, least: u32) -> u32 {
        let kind = self.kind_of(web);
        let mut count: u32 = 0;
        let mut place = self.neighbours.first(web);
        for _ in 0..self.neighbours.len() {
            match self.neighbours.link_at(place) {
                Some(link) => {
                    let with = self.webs.find(link.with);
                    count = count.saturating_add(self.hard_one(with, kind, least));
                    place = link.next;
                }
                None => return count,
            }
        }
        count
    }

    /// Counts the neighbours of its kind of each web.
    fn count_all(&mut self) {
        let webs = self.webs.len().min(NONE as usize) as u32;
        for web in 0..webs {
            self.look = self.look.saturating_add(1);
            let count = self.count_hard(web, 0);
            put(&mut self.degrees, web, count);
        }
    }

    /// Whether what two webs become has fewer neighbours that are hard to name than there are names.
    fn is_easy(&mut self, one: u32, other: u32, room: u32) -> bool {
        self.look = self.look.saturating_add(1);
        let hard = self.count_hard(one, room);
        let more = self.count_hard(other, room);
        hard.saturating_add(more) < room
    }

    /// Two webs become one.
    fn merge(&mut self, from: u32, to: u32) {
        self.webs.unite(from, to);
        self.neighbours.join(from, to);
        self.writes.join(from, to);
        let degrees = self.degrees.as_slice();
        let sum = at(degrees, from).saturating_add(at(degrees, to));
        put(&mut self.degrees, to, sum);
    }

    /// Whether two webs may become one by their kinds and neighbours, where there are so many names of each kind.
    fn may_share(&mut self, from: u32, to: u32, rooms: &[u32]) -> bool {
        let kind = self.kind_of(to);
        from != to
            && self.kind_of(from) == kind
            && !self.are_neighbours(from, to)
            && self.is_easy(from, to, at(rooms, kind))
    }

    /// Whether writes of two webs can go up as before when they are one.
    fn are_free(&mut self, from: u32, to: u32, above: &mut Above<'_>) -> Result<bool, NoMemory> {
        if above.is_held(&self.writes, from, to, self.webs)? {
            return Ok(false);
        }
        let held = above.is_held(&self.writes, to, from, self.webs)?;
        Ok(!held)
    }

    /// The webs of a move become one where they may.
    fn take(&mut self, step: Move, rooms: &[u32], above: &mut Above<'_>) -> Result<(), NoMemory> {
        let from = self.webs.find(step.from);
        let to = self.webs.find(step.to);
        if self.may_share(from, to, rooms) && self.are_free(from, to, above)? {
            self.merge(from, to);
        }
        Ok(())
    }
}

/// Makes webs one between which moves lead, where they can share a name; there are so many names of each kind.
pub(crate) fn merge_moves<'a>(
    alloc: Global,
    graph: &'a Graph,
    names: &'a WebNames,
    kinds: &'a [u32],
    rooms: &[u32],
    webs: &'a mut Webs,
    neighbours: &'a mut Neighbours,
) -> Result<(), NoMemory> {
    let moves = moves_of(alloc, graph, names, webs.len())?;
    let loops = loops_of(alloc, graph)?;
    let mut above = Above {
        graph,
        names,
        loops: &loops,
        found: vec![in alloc; 0; graph.blocks.len()]?,
        walk: 0,
        todo: Vec::new(alloc),
        looks: MOST_LOOKS,
    };
    let degrees = vec![in alloc; 0; webs.len()]?;
    let seen = vec![in alloc; 0; webs.len()]?;
    let mut merging = Merging {
        kinds,
        webs,
        neighbours,
        writes: moves.writes,
        degrees,
        seen,
        look: 0,
    };
    merging.count_all();
    for step in moves.found.as_slice() {
        merging.take(*step, rooms, &mut above)?;
    }
    Ok(())
}
