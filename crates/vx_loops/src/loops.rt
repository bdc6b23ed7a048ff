// The loops of a graph: for a header the blocks of its loop, what these do, and the blocks that each turn passes. Which blocks are
// found owes nothing: what is made of them is tested by those who ask.

ghost use Rattle.std.specs.Prelude.{◌≡◌, ◌<◌, ◌≤◌, ◌+◌, ◌-◌, ◌^◌, ◌∷◌, ℕ, List, [], false, IfOk, IfSome, length, replicate};
ghost use Rattle.vx_flow.specs.declared.graph.Graph.{Graph};
ghost use Rattle.vx_flow.specs.Rows.{row_at};
ghost use Rattle.vx_flow.specs.Effects.{IsIn};
ghost use Rattle.vx_flow.specs.Sound.{targets_of};
ghost use Rattle.vx_loops.specs.Noted.{Gains, LooksAt, Notes, NotesOf, SourcesOf, TablesOf};
ghost use Rattle.vx_flow.specs.Sound.{Leads};
ghost use Rattle.vx_loops.specs.Path.{EachFrom, HasWay, Jumps};

use crate::notes::Loops;
use crate::ordering::order_of;
use std::alloc::Global;
use vx_base::listed::Listed;
use vx_base::outcome::NoMemory;
use vx_flow::graph::{Block, BlockId, Exit, Graph};

/// How many edges of a loop are gone over at most, and how many blocks each turn passes.
const MOST_EDGES: usize = 512;

/// The edges and the order of the blocks of a graph. No loop is looked at.
pub fn loops_of(alloc: Global, graph: &Graph) -> Result<Loops, NoMemory>
    ensures tables { IfOk result (λ loops. TablesOf graph.now loops) }
    ensures nothing { IfOk result (λ loops. Notes [] [] [] false loops) }
    ensures number { IfOk result (λ loops. loops.number ≡ 0) }
{
    let ranks = ranks_of(alloc, graph.blocks.as_slice())?;
    let members = vec![in alloc; usize::MAX; graph.blocks.len()]?;
    let writers = vec![in alloc; usize::MAX; graph.banks.len()]?;
    let times = vec![in alloc; 0u32; graph.banks.len()]?;
    let stores = vec![in alloc; usize::MAX; graph.arrays.len()]?;
    let sources = sources_of(alloc, graph.blocks.as_slice())?;
    Ok(Loops {
        ranks,
        sources,
        members,
        writers,
        times,
        stores,
        calls: usize::MAX,
        number: 0,
    })
}

/// The place of each block in the order.
fn ranks_of(alloc: Global, blocks: &[Block]) -> Result<Vec<usize>, NoMemory> {
    let order = order_of(alloc, blocks)?;
    let mut ranks = vec![in alloc; usize::MAX; blocks.len()]?;
    for (rank, block) in order.iter().enumerate() {
        if (*block as usize) < ranks.len() {
            ranks[*block as usize] = rank;
        }
    }
    Ok(ranks)
}

/// The edges of a graph, by the blocks to which they lead.
fn sources_of(alloc: Global, blocks: &[Block]) -> Result<Vec<Listed<BlockId>>, NoMemory>
    ensures { length blocks.now < 2 ^ 32 → IfOk result (λ sources. SourcesOf blocks.now blocks.now sources.items) }
{
    let mut sources = no_sources(alloc, blocks.len())?;
    for (place, block) in blocks.iter().enumerate() {
        note_block(&mut sources, place, &block.exit)?;
    }
    Ok(sources)
}

fn note_block(sources: &mut Vec<Listed<BlockId>>, place: usize, exit: &Exit) -> Result<(), NoMemory>
    ensures { place < 2 ^ 32 → IfOk result (λ _. Gains place (targets_of exit.now) sources.old.items sources.new.items) }
{
    if place <= u32::MAX as usize {
        note_exit(sources, place as BlockId, exit)
    } else {
        Ok(())
    }
}

fn no_sources(alloc: Global, count: usize) -> Result<Vec<Listed<BlockId>>, NoMemory>
    ensures { IfOk result (λ sources. sources.items ≡ replicate count []) }
{
    let mut sources = Vec::new(alloc);
    for _block in 0..count {
        sources.push(Listed::new(alloc))?;
    }
    Ok(sources)
}

fn note_exit(sources: &mut Vec<Listed<BlockId>>, from: BlockId, exit: &Exit) -> Result<(), NoMemory>
    ensures { IfOk result (λ _. Gains from (targets_of exit.now) sources.old.items sources.new.items) }
{
    match exit {
        Exit::Goto(next) => note(sources, from, *next),
        Exit::Split { yes, no, .. } => {
            note(sources, from, *yes)?;
            note(sources, from, *no)
        }
        Exit::Call { next, .. } => note(sources, from, *next),
        Exit::Return(_) => Ok(()),
        Exit::Ends(_) => Ok(()),
    }
}

fn note(sources: &mut Vec<Listed<BlockId>>, from: BlockId, to: BlockId) -> Result<(), NoMemory>
    ensures { IfOk result (λ _. Gains from (to ∷ []) sources.old.items sources.new.items) }
{
    let place = to as usize;
    if place < sources.len() {
        let row = &mut sources[place];
        row.push(from)?;
    }
    Ok(())
}

/// Looks at the loop of a header. Answers the block before it, where it is a header, and one block alone leads to it from outside,
/// by a jump to it; the notes then tell what the blocks of its loop do. After 2^64 - 2 loops they tell nothing: the number of a loop
/// is at most that of the calls so far, and so of the blocks where each is asked of once.
pub fn loop_at(
    alloc: Global,
    blocks: &[Block],
    loops: &mut Loops,
    header: usize,
) -> Result<Option<usize>, NoMemory>
    ensures before { IfOk result (λ found. IfSome found (λ before. Jumps blocks.now before header)) }
    ensures source { IfOk result (λ found. IfSome found (λ before. IsIn before (row_at loops.old.sources.items header))) }
    ensures looks { IfOk result (λ found. IfSome found (λ _. loops.new.number < 2 ^ 64 - 1 → LooksAt blocks.now loops.new)) }
    ensures tables { IfOk result (λ _. (g : Graph) → TablesOf g loops.old → TablesOf g loops.new) }
    ensures number { IfOk result (λ _. loops.new.number ≤ loops.old.number + 1) }
{
    let ends = split_sources(alloc, loops, header)?;
    let entry = match ends.before.as_slice() {
        [before] if ends.inside.len() > 0 => *before as usize,
        _ => return Ok(None),
    };
    if gather(loops, blocks, header, ends.inside)? {
        Ok(jumping(blocks, entry, header))
    } else {
        Ok(None)
    }
}

/// Looks at the loop of a block, which is empty where the block is no header. Answers the blocks that lead to it from outside, none
/// where the loop is too long. The notes tell what the blocks of the loop do, as far as these were found; after 2^64 - 2 loops they
/// tell nothing.
pub fn entries_at(
    alloc: Global,
    blocks: &[Block],
    loops: &mut Loops,
    header: usize,
) -> Result<Vec<BlockId>, NoMemory>
    ensures sources { IfOk result (λ entries. EachFrom (row_at loops.old.sources.items header) entries.items) }
    ensures looks { IfOk result (λ _. loops.new.number < 2 ^ 64 - 1 → LooksAt blocks.now loops.new) }
    ensures tables { IfOk result (λ _. (g : Graph) → TablesOf g loops.old → TablesOf g loops.new) }
    ensures number { IfOk result (λ _. loops.new.number ≤ loops.old.number + 1) }
{
    let ends = split_sources(alloc, loops, header)?;
    let before = ends.before;
    if ends.inside.len() == 0 {
        loops.begin();
        Ok(before)
    } else if gather(loops, blocks, header, ends.inside)? {
        Ok(before)
    } else {
        Ok(Vec::new(alloc))
    }
}

/// The blocks that lead to a block: those before it, and those that close a loop.
#[derive(Drop)]
struct Sources {
    before: Vec<BlockId>,
    inside: Vec<BlockId>,
}

fn split_sources(alloc: Global, loops: &Loops, block: usize) -> Result<Sources, NoMemory>
    ensures { IfOk result (λ sources. EachFrom (row_at loops.now.sources.items block) sources.before.items) }
{
    let mut sources = Sources {
        before: Vec::new(alloc),
        inside: Vec::new(alloc),
    };
    for source in loops.leading_to(block) {
        if loops.rank(*source as usize) >= loops.rank(block) {
            sources.inside.push(*source)?;
        } else {
            sources.before.push(*source)?;
        }
    }
    Ok(sources)
}

/// The block, where it ends by a jump to the header.
fn jumping(blocks: &[Block], found: usize, header: usize) -> Option<usize>
    ensures jumps { IfSome result (λ before. Jumps blocks.now before header) }
    ensures same { IfSome result (λ before. before ≡ found) }
{
    match blocks.get(found) {
        Some(block) => match &block.exit {
            Exit::Goto(next) => {
                if *next as usize == header {
                    Some(found)
                } else {
                    None
                }
            }
            _ => None,
        },
        None => None,
    }
}

/// Marks the blocks from which the edges that close a loop come, and all that lead to them from its header. False where there are
/// too many.
fn gather(
    loops: &mut Loops,
    blocks: &[Block],
    header: usize,
    inside: Vec<BlockId>,
) -> Result<bool, NoMemory>
    ensures looks { IfOk result (λ _. loops.new.number < 2 ^ 64 - 1 → LooksAt blocks.now loops.new) }
    ensures tables { IfOk result (λ _. (g : Graph) → TablesOf g loops.old → TablesOf g loops.new) }
    ensures number { IfOk result (λ _. loops.new.number ≤ loops.old.number + 1) }
{
    loops.begin();
    loops.mark(blocks, header);
    let whole = gather_behind(loops, blocks, inside)?;
    Ok(whole)
}

fn gather_behind(
    loops: &mut Loops,
    blocks: &[Block],
    inside: Vec<BlockId>,
) -> Result<bool, NoMemory>
    ensures number { IfOk result (λ _. loops.new.number ≡ loops.old.number) }
    ensures tables { IfOk result (λ _. (g : Graph) → TablesOf g loops.old → TablesOf g loops.new) }
    ensures looks { IfOk result (λ _. (members : List ℕ) → NotesOf blocks.now members loops.old → LooksAt blocks.now loops.new) }
{
    let mut waiting = inside;
    for _ in 0..MOST_EDGES {
        match waiting.pop() {
            Some(block) => {
                if loops.mark(blocks, block as usize) {
                    push_sources(loops, &mut waiting, block as usize)?;
                }
            }
            None => return Ok(true),
        }
    }
    Ok(false)
}

fn push_sources(loops: &Loops, waiting: &mut Vec<BlockId>, block: usize) -> Result<(), NoMemory> {
    for source in loops.leading_to(block) {
        waiting.push(*source)?;
    }
    Ok(())
}

/// The blocks that each turn passes from the header on, up to the first from which it may go on in two ways: an edge leads from
/// each to the next. There are none where the header has no number of 32 bits.
pub fn spine_of(
    alloc: Global,
    blocks: &[Block],
    loops: &Loops,
    header: usize,
) -> Result<Vec<BlockId>, NoMemory>
    ensures { IfOk result (λ spine. header < 2 ^ 32 → HasWay blocks.now header spine.items) }
{
    let mut spine = Vec::new(alloc);
    if header <= u32::MAX as usize {
        let first = header as BlockId;
        spine.push(first)?;
        follow(blocks, loops, first, &mut spine)?;
    }
    Ok(spine)
}

fn follow(
    blocks: &[Block],
    loops: &Loops,
    first: BlockId,
    spine: &mut Vec<BlockId>,
) -> Result<(), NoMemory>
    requires { spine.old.items ≡ first ∷ [] }
    ensures { IfOk result (λ _. HasWay blocks.now first spine.new.items) }
{
    let mut last = first;
    for _ in 1..MOST_EDGES {
        match following(blocks, loops, first, last) {
            Some(next) => {
                spine.push(next)?;
                last = next;
            }
            None => return Ok(()),
        }
    }
    Ok(())
}

/// The block of the loop to which alone a block leads inside of it, but for the header.
fn following(blocks: &[Block], loops: &Loops, header: BlockId, block: BlockId) -> Option<BlockId>
    ensures { IfSome result (λ next. Leads blocks.now block next) }
{
    match blocks.get(block as usize) {
        Some(found) => match inner_target(loops, &found.exit) {
            Some(next) if next != header => Some(next),
            _ => None,
        },
        None => None,
    }
}

/// The block to which alone an exit leads inside of the loop; where it leads to one block, that one.
fn inner_target(loops: &Loops, exit: &Exit) -> Option<BlockId>
    ensures { IfSome result (λ next. IsIn next (targets_of exit.now)) }
{
    match exit {
        Exit::Goto(next) => Some(*next),
        Exit::Split { yes, no, .. } => one_inside(loops, *yes, *no),
        Exit::Call { next, .. } => Some(*next),
        _ => None,
    }
}

fn one_inside(loops: &Loops, yes: BlockId, no: BlockId) -> Option<BlockId>
    ensures { IfSome result (λ next. IsIn next (yes ∷ no ∷ [])) }
{
    match (loops.is_inside(yes as usize), loops.is_inside(no as usize)) {
        (true, false) => Some(yes),
        (false, true) => Some(no),
        _ => None,
    }
}
