// How often the blocks and edges of a program's functions stand in a path. specs/Counts.antt says what a count is.

ghost use Rattle.std.specs.Prelude.{◌≡◌, ◌+◌, ◌∷◌, [], IfOk, OnOk};
ghost use Rattle.vx_flow.specs.Meaning.{AlongEdge, AtBlock};
ghost use Rattle.vx_profile.specs.Counts.{block_count, edge_count, CountsMore, CountsOf, CountsReplaced, MoreTimes};

use std::alloc::Global;
use std::collections::BTreeMap;
use vx_base::outcome::NoMemory;
use vx_flow::graph::BlockId;

/// How often blocks and edges were passed: finite maps from function and block, and from function, block and target. What
/// is not there was never passed.
#[derive(Drop)]
pub struct Counts {
    blocks: BTreeMap<(u32, BlockId), u64>,
    edges: BTreeMap<(u32, BlockId, BlockId), u64>,
}

impl Counts {
    /// Nothing was passed.
    pub fn new(alloc: Global) -> Counts
        ensures { CountsOf result [] }
    {
        Counts {
            blocks: BTreeMap::new(alloc),
            edges: BTreeMap::new(alloc),
        }
    }

    /// The count of a block of a function.
    pub fn of_block(&self, function: u32, block: BlockId) -> u64
        ensures { result ≡ block_count self.now function block }
    {
        self.blocks.get(&(function, block)).copied().unwrap_or(0)
    }

    /// The count of an edge of a function.
    pub fn of_edge(&self, function: u32, from: BlockId, to: BlockId) -> u64
        ensures { result ≡ edge_count self.now function from to }
    {
        self.edges.get(&(function, from, to)).copied().unwrap_or(0)
    }

    /// Counts a block once more.
    pub fn add_block(&mut self, function: u32, block: BlockId) -> Result<(), NoMemory>
        ensures { OnOk result (CountsMore self.old self.new (AtBlock function block ∷ [])) }
    {
        self.add_block_times(function, block, 1)?;
        Ok(())
    }

    /// Counts an edge once more.
    pub fn add_edge(&mut self, function: u32, from: BlockId, to: BlockId) -> Result<(), NoMemory>
        ensures { OnOk result (CountsMore self.old self.new (AlongEdge function from to ∷ [])) }
    {
        self.add_edge_times(function, from, to, 1)?;
        Ok(())
    }

    /// Counts a block so many times more.
    pub fn add_block_times(
        &mut self,
        function: u32,
        block: BlockId,
        more: u64,
    ) -> Result<(), NoMemory>
        ensures { OnOk result (MoreTimes self.old self.new (AtBlock function block) more) }
    {
        if more == 0 {
            return Ok(());
        }
        let next = with_more(self.of_block(function, block), more)?;
        self.blocks.insert((function, block), next)?;
        Ok(())
    }

    /// Counts an edge so many times more.
    pub fn add_edge_times(
        &mut self,
        function: u32,
        from: BlockId,
        to: BlockId,
        more: u64,
    ) -> Result<(), NoMemory>
        ensures { OnOk result (MoreTimes self.old self.new (AlongEdge function from to) more) }
    {
        if more == 0 {
            return Ok(());
        }
        let next = with_more(self.of_edge(function, from, to), more)?;
        self.edges.insert((function, from, to), next)?;
        Ok(())
    }

    /// Replaces the count of a block.
    pub fn set_block(&mut self, function: u32, block: BlockId, count: u64) -> Result<(), NoMemory>
        ensures { OnOk result (CountsReplaced self.old self.new (AtBlock function block) count) }
    {
        self.blocks.insert((function, block), count)?;
        Ok(())
    }

    /// Replaces the count of an edge.
    pub fn set_edge(
        &mut self,
        function: u32,
        from: BlockId,
        to: BlockId,
        count: u64,
    ) -> Result<(), NoMemory>
        ensures { OnOk result (CountsReplaced self.old self.new (AlongEdge function from to) count) }
    {
        self.edges.insert((function, from, to), count)?;
        Ok(())
    }

    /// The counts of blocks that are held.
    pub(crate) fn block_counts(&self) -> &BTreeMap<(u32, BlockId), u64>
        ensures { result.now ≡ self.now.blocks }
    {
        &self.blocks
    }

    /// The counts of edges that are held.
    pub(crate) fn edge_counts(&self) -> &BTreeMap<(u32, BlockId, BlockId), u64>
        ensures { result.now ≡ self.now.edges }
    {
        &self.edges
    }
}

/// No count comes to its bound, since that many blocks are never run.
pub fn with_more(count: u64, more: u64) -> Result<u64, NoMemory>
    ensures { IfOk result (λ next. next ≡ count + more) }
{
    match count.checked_add(more) {
        Some(next) => Ok(next),
        None => Err(NoMemory),
    }
}
