// The operations of a graph's blocks while it is tried what to raise, with each move that was made, so that it can be taken back.
// What is tried here owes nothing: in the end each move is tested again.

use crate::known::Move;
use crate::lift_test::{Origins, passes, result_of, same_op};
use crate::units::Units;
use std::alloc::Global;
use vx_base::arithmetic::Code;
use vx_base::listed::Listed;
use vx_base::outcome::NoMemory;
use vx_flow::graph::{Block, BlockId, Exit, Graph, Op, Value};
use vx_flow::live_rows::Live;
use vx_flow::operands::dismissed;

/// The most operations of a block at whose end more are put.
const MOST_OPERATIONS: usize = 256;

/// What stays as it is while it is tried what to raise in a graph.
#[derive(Clone, Copy)]
pub(crate) struct Ground<'a> {
    pub(crate) graph: &'a Graph,
    /// What is live in the graph as it came.
    pub(crate) live: &'a Live,
    pub(crate) units: &'a Units,
}

/// An operation that was raised, and where it stood: in one block, or in both ways of a split.
#[derive(Clone, Copy)]
pub(crate) struct Trial {
    pub one: Move,
    pub op: Op,
    /// As it stood in the other block.
    pub other_op: Op,
    pub value: Value,
}

impl Trial {
    /// Whether it was raised from both ways of a split.
    pub(crate) fn is_double(self) -> bool {
        self.one.block != self.one.other
    }

    /// Whether it was raised from the block.
    pub(crate) fn is_from(self, block: BlockId) -> bool {
        self.one.block == block || self.one.other == block
    }
}

/// Where the same operation stands in another block.
#[derive(Clone, Copy)]
pub(crate) struct Mate {
    block: BlockId,
    pub(crate) place: usize,
    op: Op,
}

/// The operations of each block, the blocks that lead to each, and what was raised so far.
#[derive(Drop)]
pub(crate) struct Sketch {
    ops: Vec<Vec<Op>>,
    sources: Vec<Vec<BlockId>>,
    raised: Vec<Trial>,
}

impl Sketch {
    /// A graph of which nothing is raised.
    pub(crate) fn of_graph(alloc: Global, blocks: &[Block]) -> Result<Sketch, NoMemory> {
        let ops = ops_of(alloc, blocks)?;
        let sources = sources_of(alloc, blocks)?;
        Ok(Sketch {
            ops,
            sources,
            raised: Vec::new(alloc),
        })
    }

    /// The operations of a block.
    pub(crate) fn ops_at(&self, block: BlockId) -> &[Op] {
        match self.ops.get(block as usize) {
            Some(ops) => ops.as_slice(),
            None => &[],
        }
    }

    /// The blocks that lead to a block.
    pub(crate) fn leading_to(&self, block: BlockId) -> &[BlockId] {
        match self.sources.get(block as usize) {
            Some(sources) => sources.as_slice(),
            None => &[],
        }
    }

    /// How many operations were raised.
    pub(crate) fn count(&self) -> usize {
        self.raised.len()
    }

    /// Whether a value may be live at the start of a block by now.
    pub(crate) fn is_live(&self, ground: &Ground, block: BlockId, value: Value) -> bool {
        for trial in self.raised.as_slice() {
            if trial.is_from(block) && trial.value == value {
                return true;
            }
        }
        ground.live.at(block, value)
    }

    /// Whether the last operation that was raised was so from both ways of a split.
    pub(crate) fn is_last_double(&self) -> bool {
        match self.raised.as_slice().last() {
            Some(trial) => trial.is_double(),
            None => false,
        }
    }

    /// Raises an operation to the ends of the blocks that lead to its block, where it may be. Answers whether it was.
    pub(crate) fn raise(
        &mut self,
        ground: &Ground,
        block: BlockId,
        place: usize,
    ) -> Result<bool, NoMemory> {
        match self.trial_at(ground, block, place) {
            Some(trial) => {
                self.put(trial)?;
                Ok(true)
            }
            None => Ok(false),
        }
    }

    /// The operation at a place of a block, where it may be raised: from both ways of a split at once if it stands in both.
    fn trial_at(&self, ground: &Ground, block: BlockId, place: usize) -> Option<Trial> {
        let ops = self.ops_at(block);
        match ops.get(place) {
            Some(op) => {
                if block != 0 && passes(ground.graph.arrays.as_slice(), op, place, ops) {
                    self.trial_of(ground, block, place, op)
                } else {
                    None
                }
            }
            None => None,
        }
    }

    /// A move stays where it is: what follows it there reads its source, which need not wait for it.
    fn trial_of(&self, ground: &Ground, block: BlockId, place: usize, op: &Op) -> Option<Trial> {
        if is_move(op) {
            return None;
        }
        let value = result_of(op)?;
        match self.mate_of(ground, block, op, value) {
            Some(mate) => Some(Trial {
                one: Move {
                    block,
                    place: as_number(place),
                    other: mate.block,
                    other_place: as_number(mate.place),
                },
                op: *op,
                other_op: mate.op,
                value,
            }),
            None => {
                if self.all_take_in(
                    ground,
                    Origins {
                        block,
                        other: block,
                    },
                    value,
                ) {
                    Some(Trial {
                        one: Move::single(block, as_number(place)),
                        op: *op,
                        other_op: *op,
                        value,
                    })
                } else {
                    None
                }
            }
        }
    }

    /// The same operation in the other way of the split that leads to a block, if it may be raised from both.
    fn mate_of(&self, ground: &Ground, block: BlockId, op: &Op, value: Value) -> Option<Mate> {
        let other = self.other_way(ground, block)?;
        let mate = self.same_in(ground, other, op)?;
        if other != 0 && self.all_take_in(ground, Origins { block, other }, value) {
            Some(mate)
        } else {
            None
        }
    }

    /// The other way of the split that alone leads to a block, if nothing else leads there either.
    pub(crate) fn other_way(&self, ground: &Ground, block: BlockId) -> Option<BlockId> {
        let source = single(self.leading_to(block))?;
        let other = match ground.graph.blocks.as_slice().get(source as usize) {
            Some(found) => match &found.exit {
                Exit::Split { yes, no, .. } => { if *yes == block { *no } else { *yes } }
                _ => return None,
            },
            None => return None,
        };
        let _source = single(self.leading_to(other))?;
        if other == block { None } else { Some(other) }
    }

    /// The same operation in a block, if it may pass those before it there.
    pub(crate) fn same_in(&self, ground: &Ground, block: BlockId, op: &Op) -> Option<Mate> {
        let ops = self.ops_at(block);
        for (place, there) in ops.iter().enumerate() {
            if same_op(op, there) && passes(ground.graph.arrays.as_slice(), there, place, ops) {
                return Some(Mate {
                    block,
                    place,
                    op: *there,
                });
            }
        }
        None
    }

    fn all_take_in(&self, ground: &Ground, from: Origins, value: Value) -> bool {
        for source in self.leading_to(from.block) {
            if !self.takes_in(ground, from, value, *source) {
                return false;
            }
        }
        true
    }

    fn takes_in(&self, ground: &Ground, from: Origins, value: Value, source: BlockId) -> bool {
        match ground.graph.blocks.as_slice().get(source as usize) {
            Some(found) => {
                self.ops_at(source).len() < MOST_OPERATIONS
                    && self.lets_in(ground, from, value, &found.exit)
            }
            None => false,
        }
    }

    /// Whether an exit does not read the value, which is not live at another block that it leads to.
    fn lets_in(&self, ground: &Ground, from: Origins, value: Value, exit: &Exit) -> bool {
        match exit {
            Exit::Goto(_) => true,
            Exit::Split { test, yes, no } => {
                *test != value
                    && (from.has(*yes) || !self.is_live(ground, *yes, value))
                    && (from.has(*no) || !self.is_live(ground, *no, value))
            }
            _ => false,
        }
    }

    fn put(&mut self, trial: Trial) -> Result<(), NoMemory> {
        let one = trial.one;
        self.take_out(one.block, one.place as usize);
        if trial.is_double() {
            self.take_out(one.other, one.other_place as usize);
        }
        let count = self.leading_to(one.block).len();
        for index in 0..count {
            self.put_end(one.block, index, trial.op)?;
        }
        self.raised.push(trial)?;
        Ok(())
    }

    fn take_out(&mut self, block: BlockId, place: usize) {
        match self.ops.get_mut(block as usize) {
            Some(ops) => {
                if place < ops.len() {
                    let _op = ops.remove(place);
                }
            }
            None => {}
        }
    }

    /// Puts an operation at the end of one of the blocks that lead to a block.
    fn put_end(&mut self, block: BlockId, index: usize, op: Op) -> Result<(), NoMemory> {
        match self.source_at(block, index) {
            Some(source) => match self.ops.get_mut(source as usize) {
                Some(ops) => {
                    ops.push(dismissed(op))?;
                    Ok(())
                }
                None => Ok(()),
            },
            None => Ok(()),
        }
    }

    fn source_at(&self, block: BlockId, index: usize) -> Option<BlockId> {
        match self.leading_to(block).get(index) {
            Some(source) => Some(*source),
            None => None,
        }
    }

    /// Takes moves back until so many are left.
    pub(crate) fn back_to(&mut self, count: usize) -> Result<(), NoMemory> {
        let more = self.raised.len().saturating_sub(count);
        for _ in 0..more {
            self.undo()?;
        }
        Ok(())
    }

    fn undo(&mut self) -> Result<(), NoMemory> {
        match self.raised.pop() {
            Some(trial) => {
                let one = trial.one;
                let count = self.leading_to(one.block).len();
                for index in 0..count {
                    self.drop_end(one.block, index);
                }
                if trial.is_double() {
                    self.put_in(one.other, one.other_place as usize, trial.other_op)?;
                }
                self.put_in(one.block, one.place as usize, trial.op)
            }
            None => Ok(()),
        }
    }

    fn drop_end(&mut self, block: BlockId, index: usize) {
        match self.source_at(block, index) {
            Some(source) => match self.ops.get_mut(source as usize) {
                Some(ops) => {
                    let _op = ops.pop();
                }
                None => {}
            },
            None => {}
        }
    }

    fn put_in(&mut self, block: BlockId, place: usize, op: Op) -> Result<(), NoMemory> {
        match self.ops.get_mut(block as usize) {
            Some(ops) => {
                if place <= ops.len() {
                    ops.insert(place, op)?;
                }
                Ok(())
            }
            None => Ok(()),
        }
    }

    /// What was raised, in its order.
    pub(crate) fn moves(&self, alloc: Global) -> Result<Listed<Move>, NoMemory> {
        let mut moves = Listed::new(alloc);
        for trial in self.raised.as_slice() {
            moves.push(trial.one)?;
        }
        Ok(moves)
    }

    /// What was raised behind so many moves.
    pub(crate) fn raised_since(&self, count: usize) -> &[Trial] {
        if count <= self.raised.len() {
            &self.raised.as_slice()[count..]
        } else {
            &[]
        }
    }
}

/// A place as a number of 32 bits; the greatest where it has none.
pub(crate) fn as_number(place: usize) -> u32 {
    if place <= u32::MAX as usize {
        place as u32
    } else {
        u32::MAX
    }
}

/// The one block of a list that has no other.
fn single(blocks: &[BlockId]) -> Option<BlockId> {
    match blocks {
        [block] => Some(*block),
        _ => None,
    }
}

fn ops_of(alloc: Global, blocks: &[Block]) -> Result<Vec<Vec<Op>>, NoMemory> {
    let mut all = Vec::new(alloc);
    for block in blocks {
        let mut ops = Vec::new(alloc);
        ops.extend_from_slice(block.ops.as_slice())?;
        all.push(ops)?;
    }
    Ok(all)
}

fn sources_of(alloc: Global, blocks: &[Block]) -> Result<Vec<Vec<BlockId>>, NoMemory> {
    let mut sources = Vec::new(alloc);
    for _ in 0..blocks.len() {
        sources.push(Vec::new(alloc))?;
    }
    for (place, block) in blocks.iter().enumerate() {
        note_exit(&mut sources, as_number(place), &block.exit)?;
    }
    Ok(sources)
}

fn note_exit(sources: &mut Vec<Vec<BlockId>>, from: BlockId, exit: &Exit) -> Result<(), NoMemory> {
    match exit {
        Exit::Goto(next) => note(sources, from, *next),
        Exit::Split { yes, no, .. } => {
            note(sources, from, *yes)?;
            note(sources, from, *no)
        }
        Exit::Call { next, .. } => note(sources, from, *next),
        Exit::Return(_) | Exit::Ends(_) => Ok(()),
    }
}

fn note(sources: &mut Vec<Vec<BlockId>>, from: BlockId, to: BlockId) -> Result<(), NoMemory> {
    match sources.get_mut(to as usize) {
        Some(row) => {
            row.push(from)?;
            Ok(())
        }
        None => Ok(()),
    }
}

fn is_move(op: &Op) -> bool {
    match op {
        Op::Compute {
            code: Code::Mov,
            ..
        } => true,
        _ => false,
    }
}
