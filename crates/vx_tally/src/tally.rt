// How often the blocks and edges of a run are passed, while it goes on: one entry for each block of the graphs, which has room
// for the edges to two blocks, as many as a block has. What finds no room is counted in a map. specs/Tally.antt says what the
// counts are.

ghost use Rattle.std.specs.Prelude.{◌≡◌, ◌+◌, ◌==◌, ◌&&◌, ◌∷◌, [], ℕ, IfOk, IfSome, OnOk, if◌then◌else◌, map, replicate, slice_index_or, slice_set};
ghost use Rattle.vx_flow.specs.Meaning.{AlongEdge, AtBlock};
ghost use Rattle.vx_profile.specs.Counts.{block_count, edge_count, MoreTimes};
ghost use Rattle.vx_tally.specs.Tally.{block_times, edge_times, empty_row, entry_in, never, no_edge, taken, times, IsThere, MoreByEntry, MoreByRow, MoreByRows, TallyMore, TallyOf};

use std::alloc::Global;
use std::marker::Model;
use vx_base::outcome::NoMemory;
use vx_flow::graph::{BlockId, Flow, Graph};
use vx_profile::counts::{Counts, with_more};

/// How often the edge to a block was passed.
#[derive(Clone, Copy)]
pub struct Taken {
    /// The block.
    pub to: BlockId,
    /// How often; the block says nothing where this is 0.
    pub times: u64,
}

/// How often a block was passed, and the edges from it to two blocks.
#[derive(Clone, Copy)]
pub struct Entry {
    /// How often the block was passed.
    pub passed: u64,
    /// An edge.
    pub first: Taken,
    /// Another edge.
    pub second: Taken,
}

/// The entries of a function's blocks. In a contract it is their list.
#[derive(Drop)]
pub struct Row {
    entries: Vec<Entry>,
}

impl Model for Row {
    ghost use Rattle.std.specs.Prelude.{List};
    ghost use Rattle.vx_tally.specs.declared.tally.Entry.{Entry};

    ghost Value = { List Entry };

    ghost view = { λ r. r.entries.items };
}

/// How often the blocks and edges of a run were passed so far.
#[derive(Drop)]
pub struct Tally {
    /// The entries of each function.
    pub rows: Vec<Row>,
    /// What has no entry.
    pub rest: Counts,
}

impl Taken {
    /// No edge.
    fn none() -> Taken
        ensures { result ≡ no_edge }
    {
        Taken { to: 0, times: 0 }
    }

    /// The edge to this block is passed once more; nothing where another edge stands here.
    fn more(self, to: BlockId) -> Result<Option<Taken>, NoMemory>
        ensures { IfOk result (λ more. IfSome more (λ next. (d : ℕ) → times next d ≡ times self d + (if to == d then 1 else 0))) }
    {
        if self.times != 0 && self.to != to {
            return Ok(None);
        }
        let times = with_more(self.times, 1)?;
        Ok(Some(Taken { to, times }))
    }
}

impl Entry {
    /// Nothing was passed.
    fn none() -> Entry
        ensures { result ≡ never }
    {
        Entry {
            passed: 0,
            first: Taken::none(),
            second: Taken::none(),
        }
    }

    /// The edge to this block is passed once more; nothing where two others stand here.
    fn more(self, to: BlockId) -> Result<Option<Entry>, NoMemory>
        ensures passed { IfOk result (λ more. IfSome more (λ next. next.passed ≡ self.passed)) }
        ensures edges { IfOk result (λ more. IfSome more (λ next. (d : ℕ) → taken next d ≡ taken self d + (if to == d then 1 else 0))) }
    {
        match self.first.more(to)? {
            Some(first) => Ok(Some(Entry {
                passed: self.passed,
                first,
                second: self.second,
            })),
            None => self.more_second(to),
        }
    }

    fn more_second(self, to: BlockId) -> Result<Option<Entry>, NoMemory>
        ensures passed { IfOk result (λ more. IfSome more (λ next. next.passed ≡ self.passed)) }
        ensures edges { IfOk result (λ more. IfSome more (λ next. (d : ℕ) → taken next d ≡ taken self d + (if to == d then 1 else 0))) }
    {
        match self.second.more(to)? {
            Some(second) => Ok(Some(Entry {
                passed: self.passed,
                first: self.first,
                second,
            })),
            None => Ok(None),
        }
    }
}

impl Row {
    /// So many blocks, none of which was passed.
    fn empty(alloc: Global, blocks: usize) -> Result<Row, NoMemory>
        ensures { IfOk result (λ row. row ≡ replicate blocks never) }
    {
        let mut entries = Vec::new(alloc);
        'entries: for _ in 0..blocks {
            entries.push(Entry::none())?;
        }
        Ok(Row { entries })
    }

    /// The entries.
    fn as_slice(&self) -> &[Entry]
        ensures { result.now ≡ self.now }
    {
        self.entries.as_slice()
    }

    /// Replaces an entry, where it is there.
    fn set(&mut self, index: usize, entry: Entry)
        ensures { self.new ≡ slice_set self.old index entry }
    {
        if index < self.entries.len() {
            self.entries[index] = entry;
        }
    }
}

impl Tally {
    /// Nothing was passed, with an entry for each block of these graphs.
    pub fn new(alloc: Global, flow: &Flow) -> Result<Tally, NoMemory>
        ensures { IfOk result (λ tally. TallyOf tally []) }
    {
        let rows = empty_rows(alloc, flow.functions.as_slice())?;
        Ok(Tally {
            rows,
            rest: Counts::new(alloc),
        })
    }

    /// The entry of a block, where it is there.
    fn entry(&self, function: u32, block: BlockId) -> Option<Entry>
        ensures { IfSome result (λ entry. IsThere self.now.rows.items function block entry) }
    {
        match self.rows.get(function as usize) {
            Some(row) => row.as_slice().get(block as usize).copied(),
            None => None,
        }
    }

    /// Replaces the entry of a block, where it is there.
    fn set_entry(&mut self, function: u32, block: BlockId, entry: Entry)
        ensures rows { self.new.rows.items ≡ slice_set self.old.rows.items function (slice_set (slice_index_or self.old.rows.items function []) block entry) }
        ensures rest { self.new.rest ≡ self.old.rest }
    {
        if (function as usize) < self.rows.len() {
            let row = &mut self.rows[function as usize];
            row.set(block as usize, entry);
        }
    }

    /// Counts a block once more.
    pub fn add_block(&mut self, function: u32, block: BlockId) -> Result<(), NoMemory>
        ensures { OnOk result (TallyMore self.old self.new (AtBlock function block ∷ [])) }
    {
        match self.entry(function, block) {
            Some(entry) => self.pass(function, block, entry),
            None => self.rest.add_block(function, block),
        }
    }

    fn pass(&mut self, function: u32, block: BlockId, entry: Entry) -> Result<(), NoMemory>
        requires there { IsThere self.now.rows.items function block entry }
        ensures { OnOk result (TallyMore self.old self.new (AtBlock function block ∷ [])) }
    {
        let passed = with_more(entry.passed, 1)?;
        let next = Entry {
            passed,
            first: entry.first,
            second: entry.second,
        };
        self.set_entry(function, block, next);
        Ok(())
    }

    /// Counts an edge once more.
    pub fn add_edge(&mut self, function: u32, from: BlockId, to: BlockId) -> Result<(), NoMemory>
        ensures { OnOk result (TallyMore self.old self.new (AlongEdge function from to ∷ [])) }
    {
        match self.entry(function, from) {
            Some(entry) => self.take(function, from, entry, to),
            None => self.rest.add_edge(function, from, to),
        }
    }

    fn take(
        &mut self,
        function: u32,
        from: BlockId,
        entry: Entry,
        to: BlockId,
    ) -> Result<(), NoMemory>
        requires there { IsThere self.now.rows.items function from entry }
        ensures { OnOk result (TallyMore self.old self.new (AlongEdge function from to ∷ [])) }
    {
        match entry.more(to)? {
            Some(next) => {
                self.set_entry(function, from, next);
                Ok(())
            }
            None => self.rest.add_edge(function, from, to),
        }
    }

    /// The counts of what was passed.
    pub fn into_counts(self) -> Result<Counts, NoMemory>
        ensures blocks { IfOk result (λ counts. (f b : ℕ) → block_count counts f b ≡ block_times self f b) }
        ensures edges { IfOk result (λ counts. (f b d : ℕ) → edge_count counts f b d ≡ edge_times self f b d) }
    {
        let Tally { rows, rest } = self;
        let mut counts = rest;
        add_rows(&mut counts, rows.as_slice())?;
        Ok(counts)
    }
}

fn empty_rows(alloc: Global, graphs: &[Graph]) -> Result<Vec<Row>, NoMemory>
    ensures { IfOk result (λ rows. rows.items ≡ map empty_row graphs.now) }
{
    let mut rows = Vec::new(alloc);
    for graph in graphs {
        let row = Row::empty(alloc, graph.blocks.len())?;
        rows.push(row)?;
    }
    Ok(rows)
}

/// Counts what the entries of all functions hold.
fn add_rows(counts: &mut Counts, rows: &[Row]) -> Result<(), NoMemory>
    ensures { OnOk result (MoreByRows counts.old counts.new rows.now) }
{
    for (index, row) in rows.iter().enumerate() {
        let function = name_of(index)?;
        add_row(counts, function, row.as_slice())?;
    }
    Ok(())
}

/// Counts what the entries of a function hold.
fn add_row(counts: &mut Counts, function: u32, row: &[Entry]) -> Result<(), NoMemory>
    ensures { OnOk result (MoreByRow counts.old counts.new function row.now) }
{
    for (index, entry) in row.iter().enumerate() {
        let block = name_of(index)?;
        add_entry(counts, function, block, entry)?;
    }
    Ok(())
}

/// Counts what the entry of a block holds.
fn add_entry(
    counts: &mut Counts,
    function: u32,
    block: BlockId,
    entry: &Entry,
) -> Result<(), NoMemory>
    ensures { OnOk result (MoreByEntry counts.old counts.new function block entry.now) }
{
    counts.add_block_times(function, block, entry.passed)?;
    add_taken(counts, function, block, entry.first)?;
    add_taken(counts, function, block, entry.second)?;
    Ok(())
}

fn add_taken(
    counts: &mut Counts,
    function: u32,
    block: BlockId,
    edge: Taken,
) -> Result<(), NoMemory>
    ensures { OnOk result (MoreTimes counts.old counts.new (AlongEdge function block edge.to) edge.times) }
{
    counts.add_edge_times(function, block, edge.to, edge.times)?;
    Ok(())
}

/// A place as the number of a function or block. A graph has fewer than 2^32 of them.
fn name_of(index: usize) -> Result<u32, NoMemory>
    ensures { IfOk result (λ name. name ≡ index) }
{
    match u32::try_from(index) {
        Ok(name) => Ok(name),
        Err(_) => Err(NoMemory),
    }
}
