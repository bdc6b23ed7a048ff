// A graph that is being made: its blocks, as far as they are finished, and one that is open. A call that answers want
// of memory leaves what was made unfinished, to be dropped. specs/Builds.antt says what each step keeps.

ghost use Rattle.std.specs.Prelude.{◌≡◌, ℕ, ◌+◌, ◌<◌, List, [], ◌∷◌, ◌++◌, length, IfOk, OnOk, Option, Some, None};
ghost use Rattle.vx_lower.specs.Adds.{Added, Forked, Trapped};
ghost use Rattle.vx_lower.specs.Builds.{closed, reserved, turned_to, with_op, with_value, filled, Ready, Puts, Branches, Guards};

use crate::slots::Slots;
use std::alloc::Global;
use std::mem;
use vx_base::listed::{Listed, MOST_ITEMS};
use vx_base::outcome::{NoMemory, Trap};
use vx_flow::graph::{Bank, Block, BlockId, Exit, Op, Value};

/// The most operations of a block.
pub const MOST_OPERATIONS: usize = 512;

/// A graph that is being made.
#[derive(Drop)]
pub struct Builder {
    /// The blocks that are finished, and those that wait.
    pub blocks: Slots<Option<Block>>,
    /// The open block, which is one of those that wait.
    pub current: BlockId,
    /// The operations of the open block so far.
    pub ops: Listed<Op>,
    /// The bank of each value that was taken.
    pub banks: Listed<Bank>,
}

impl Builder {
    /// One more block, which is not finished.
    pub fn reserve(&mut self) -> Result<BlockId, NoMemory>
        ensures { IfOk result (λ n. (n ≡ length self.old.blocks) × (self.new ≡ reserved self.old)) }
    {
        let count = self.blocks.len();
        if count >= MOST_ITEMS {
            return Err(NoMemory);
        }
        self.blocks.push(None)?;
        Ok(count as u32)
    }

    /// The open block ends, and another one is open.
    pub fn close(&mut self, alloc: Global, exit: Exit, then: BlockId)
        ensures { self.new ≡ closed self.old exit then }
    {
        let ops = mem::replace(&mut self.ops, Listed::new(alloc));
        self.blocks
            .set(self.current as usize, Some(Block { ops, exit }));
        self.current = then;
    }

    /// A reserved block is finished at once.
    pub fn fill(&mut self, place: BlockId, block: Block)
        ensures { self.new ≡ filled self.old place block }
    {
        self.blocks.set(place as usize, Some(block));
    }

    /// A block that has no operation yet waits, and another one is open.
    pub fn turn(&mut self, to: BlockId) -> BlockId
        ensures { (result ≡ self.old.current) × (self.new ≡ turned_to self.old to) }
    {
        mem::replace(&mut self.current, to)
    }

    /// A value of its own.
    pub fn fresh(&mut self, bank: Bank) -> Result<Value, NoMemory>
        ensures { IfOk result (λ v. (v ≡ length self.old.banks) × (self.new ≡ with_value self.old bank)) }
    {
        let value = self.banks.len();
        self.banks.push(bank)?;
        Ok(value as u32)
    }

    fn push(&mut self, op: Op) -> Result<(), NoMemory>
        ensures { OnOk result (self.new ≡ with_op self.old op) }
    {
        self.ops.push(op)?;
        Ok(())
    }

    /// One more operation, in a block of its own where the open one is full.
    pub fn put(&mut self, alloc: Global, op: Op) -> Result<(), NoMemory>
        ensures code { OnOk result (Ready self.old → Puts op self.old self.new) }
        ensures steps { OnOk result (Added op self.old self.new) }
    {
        if self.ops.len() >= MOST_OPERATIONS {
            return self.put_in_next(alloc, op);
        }
        self.push(op)
    }

    fn put_in_next(&mut self, alloc: Global, op: Op) -> Result<(), NoMemory>
        ensures code { OnOk result (Ready self.old → Puts op self.old self.new) }
        ensures steps { OnOk result (Added op self.old self.new) }
    {
        let next = self.reserve()?;
        self.close(alloc, Exit::Goto(next), next);
        self.push(op)
    }

    /// The open block ends with a test. The open one then is where it holds, and the result is where it does not.
    pub fn branch(&mut self, alloc: Global, op: Op, test: Value) -> Result<BlockId, NoMemory>
        ensures code { IfOk result (λ n. Ready self.old → Branches op test n self.old self.new) }
        ensures steps { IfOk result (λ n. Forked op test n self.old self.new) }
    {
        self.put(alloc, op)?;
        let yes = self.reserve()?;
        let no = self.reserve()?;
        self.close(alloc, Exit::Split { test, yes, no }, yes);
        Ok(no)
    }

    /// The open block ends with a test that ends the program by a trap where it does not hold.
    pub fn guard(&mut self, alloc: Global, op: Op, test: Value, trap: Trap) -> Result<(), NoMemory>
        ensures code { OnOk result (Ready self.old → Guards op test trap self.old self.new) }
        ensures steps { OnOk result (Trapped op test trap self.old self.new) }
    {
        let no = self.branch(alloc, op, test)?;
        self.fill(
            no,
            Block {
                ops: Listed::new(alloc),
                exit: Exit::Ends(trap),
            },
        );
        Ok(())
    }
}
