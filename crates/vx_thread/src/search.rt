// Which blocks are copied to the ends of those that lead to them: short ones that end by a test, where what is known on each edge to
// them decides it; and the next turn of a loop, where a block before the loop tells how many turns there are, and these are few. They
// are looked for and owe nothing, since what is copied is tested.

use std::alloc::Global;
use vx_base::arithmetic::Code;
use vx_base::listed::Listed;
use vx_base::outcome::NoMemory;
use vx_claims::behind::known_behind;
use vx_claims::claim::{Claim, accesses_in, facts_in};
use vx_claims::fact::Fact;
use vx_claims::known::decided;
use vx_flow::graph::{Block, BlockId, Exit, Graph, Op, Operand, Value};
use vx_flow::operands::is_value;
use vx_search::find_claims;

/// The most operations of a block that is copied, and the most blocks to whose ends it is.
const MOST_COPIED: usize = 4;

const MOST_TIMES: usize = 16;

/// The most operations of a block to whose end another is copied.
const MOST_BEFORE: usize = 256;

/// The most turns of a loop that are put behind the block before it, and the most operations of all that then.
const MOST_TURNS: usize = 8;

const MOST_TOGETHER: usize = 256;

/// How many sweeps give back what is taken too much where claims are looked for.
const ROUNDS: u32 = 2;

/// The blocks of a graph as chains, each of one block or of one and copies behind it, and for each block the number of its chain. There
/// are none where nothing is copied.
#[derive(Drop)]
pub(crate) struct Copies {
    pub to: Vec<BlockId>,
    pub chains: Vec<Listed<BlockId>>,
}

/// What is copied in each of the graphs of a program.
pub(crate) fn copies_of(alloc: Global, graphs: &[Graph]) -> Result<Vec<Copies>, NoMemory> {
    let mut all = Vec::new(alloc);
    for graph in graphs {
        all.push(copies_in(alloc, graph)?)?;
    }
    Ok(all)
}

/// Whether anything is copied.
pub(crate) fn has_copies(all: &[Copies]) -> bool {
    for copies in all {
        if !copies.chains.is_empty() {
            return true;
        }
    }
    false
}

fn copies_in(alloc: Global, graph: &Graph) -> Result<Copies, NoMemory> {
    let blocks = graph.blocks.as_slice();
    let sources = sources_of(alloc, blocks)?;
    let mut heads = heads_of(alloc, blocks, sources.as_slice())?;
    if has_any(heads.as_slice()) {
        keep_decided(alloc, graph, sources.as_slice(), &mut heads)?;
    }
    let turns = turns_of(alloc, graph, sources.as_slice(), heads.as_slice())?;
    if has_any(heads.as_slice()) || has_turn(turns.as_slice()) {
        chains_of(alloc, blocks, heads.as_slice(), turns.as_slice())
    } else {
        Ok(Copies {
            to: Vec::new(alloc),
            chains: Vec::new(alloc),
        })
    }
}

fn has_any(marks: &[bool]) -> bool {
    for mark in marks {
        if *mark {
            return true;
        }
    }
    false
}

fn is_marked(marks: &[bool], block: BlockId) -> bool {
    match marks.get(block as usize) {
        Some(mark) => *mark,
        None => false,
    }
}

// ---- edges

fn sources_of(alloc: Global, blocks: &[Block]) -> Result<Vec<Vec<BlockId>>, NoMemory> {
    let mut sources = Vec::new(alloc);
    for _ in 0..blocks.len() {
        sources.push(Vec::new(alloc))?;
    }
    for (place, block) in blocks.iter().enumerate() {
        note_exit(&mut sources, number_of(place), &block.exit)?;
    }
    Ok(sources)
}

fn note_exit(sources: &mut Vec<Vec<BlockId>>, from: BlockId, exit: &Exit) -> Result<(), NoMemory> {
    match exit {
        Exit::Goto(next) => note(sources, from, *next),
        Exit::Split { yes, no, .. } => {
            note(sources, from, *yes)?;
            note(sources, from, *no)
        }
        Exit::Call { next, .. } => note(sources, from, *next),
        Exit::Return(_) | Exit::Ends(_) => Ok(()),
    }
}

fn note(sources: &mut Vec<Vec<BlockId>>, from: BlockId, to: BlockId) -> Result<(), NoMemory> {
    match sources.get_mut(to as usize) {
        Some(row) => {
            row.push(from)?;
            Ok(())
        }
        None => Ok(()),
    }
}

fn number_of(place: usize) -> BlockId {
    if place < u32::MAX as usize {
        place as u32
    } else {
        u32::MAX
    }
}

// ---- blocks that may be copied

/// Marks the short blocks that end by a test of a value which a block that leads to them sets to a number, where only jumps lead to
/// them.
fn heads_of(
    alloc: Global,
    blocks: &[Block],
    sources: &[Vec<BlockId>],
) -> Result<Vec<bool>, NoMemory> {
    let mut heads = Vec::new(alloc);
    for (place, block) in blocks.iter().enumerate() {
        let is_head = match sources.get(place) {
            Some(row) => place > 0 && is_head(blocks, block, row.as_slice()),
            None => false,
        };
        heads.push(is_head)?;
    }
    Ok(heads)
}

fn is_head(blocks: &[Block], block: &Block, row: &[BlockId]) -> bool {
    match &block.exit {
        Exit::Split { test, .. } => {
            block.ops.len() <= MOST_COPIED
                && row.len() <= MOST_TIMES
                && all_jump(blocks, row)
                && is_set(blocks, row, block.ops.as_slice(), *test)
        }
        _ => false,
    }
}

/// Whether each of some blocks is short enough and leads on by a jump.
fn all_jump(blocks: &[Block], row: &[BlockId]) -> bool {
    for source in row {
        match blocks.get(*source as usize) {
            Some(block) => {
                if block.ops.len() > MOST_BEFORE || !jumps(&block.exit) {
                    return false;
                }
            }
            None => return false,
        }
    }
    true
}

fn jumps(exit: &Exit) -> bool {
    match exit {
        Exit::Goto(_) => true,
        _ => false,
    }
}

/// Whether one of some blocks sets a value to a number that the test compares.
fn is_set(blocks: &[Block], row: &[BlockId], ops: &[Op], test: Value) -> bool {
    for op in ops {
        match op {
            Op::Compute {
                code: Code::ToBranch(_),
                to,
                left,
                right,
            } => {
                if *to == test {
                    return sets_any(blocks, row, *left) || sets_any(blocks, row, *right);
                }
            }
            _ => {}
        }
    }
    false
}

fn sets_any(blocks: &[Block], row: &[BlockId], operand: Operand) -> bool {
    for source in row {
        match blocks.get(*source as usize) {
            Some(block) => {
                if sets(block.ops.as_slice(), operand) {
                    return true;
                }
            }
            None => {}
        }
    }
    false
}

fn sets(ops: &[Op], operand: Operand) -> bool {
    for op in ops {
        match op {
            Op::Compute {
                code: Code::Mov,
                to,
                left: Operand::Number(_),
                ..
            } => {
                if is_value(*to, &operand) {
                    return true;
                }
            }
            _ => {}
        }
    }
    false
}

// ---- those whose test each edge decides

fn keep_decided(
    alloc: Global,
    graph: &Graph,
    sources: &[Vec<BlockId>],
    heads: &mut Vec<bool>,
) -> Result<(), NoMemory> {
    let claims = find_claims(alloc, graph, &[], ROUNDS, true)?;
    for place in 0..heads.len() {
        if heads[place] {
            heads[place] = match sources.get(place) {
                Some(row) => all_decide(alloc, graph, claims.as_slice(), row.as_slice(), place)?,
                None => false,
            };
        }
    }
    Ok(())
}

fn all_decide(
    alloc: Global,
    graph: &Graph,
    claims: &[Claim],
    row: &[BlockId],
    head: usize,
) -> Result<bool, NoMemory> {
    for source in row {
        if !decides(alloc, graph, claims, *source, head)? {
            return Ok(false);
        }
    }
    Ok(true)
}

/// Whether what is known behind a block, and then behind a head, decides the test of that.
fn decides(
    alloc: Global,
    graph: &Graph,
    claims: &[Claim],
    source: BlockId,
    head: usize,
) -> Result<bool, NoMemory> {
    let blocks = graph.blocks.as_slice();
    match (blocks.get(source as usize), blocks.get(head)) {
        (Some(from), Some(block)) => {
            let place = source as usize;
            let before = known_behind(
                alloc,
                graph.arrays.as_slice(),
                facts_in(claims, place),
                accesses_in(claims, place),
                from.ops.as_slice(),
            )?;
            is_decided(alloc, graph, &before, block)
        }
        _ => Ok(false),
    }
}

fn is_decided(
    alloc: Global,
    graph: &Graph,
    before: &Claim,
    head: &Block,
) -> Result<bool, NoMemory> {
    let behind = known_behind(
        alloc,
        graph.arrays.as_slice(),
        before.facts.as_slice(),
        before.accesses.as_slice(),
        head.ops.as_slice(),
    )?;
    match &head.exit {
        Exit::Split { test, .. } => Ok(has_answer(decided(behind.facts.as_slice(), *test))),
        _ => Ok(false),
    }
}

fn has_answer(answer: Option<bool>) -> bool {
    match answer {
        Some(_) => true,
        None => false,
    }
}

// ---- turns of loops

/// A loop of two blocks: the header, which ends by a test, and the rest of the turn.
#[derive(Clone, Copy)]
struct Turn {
    header: BlockId,
    rest: BlockId,
    /// Whether the rest stands behind the block before the loop first, since the first test of it is decided.
    goes_on: bool,
}

/// For each block the turn of a loop that is copied behind it.
fn turns_of(
    alloc: Global,
    graph: &Graph,
    sources: &[Vec<BlockId>],
    heads: &[bool],
) -> Result<Vec<Option<Turn>>, NoMemory> {
    let mut turns = Vec::new(alloc);
    for (place, block) in graph.blocks.as_slice().iter().enumerate() {
        let found = match turn_behind(graph.blocks.as_slice(), sources, number_of(place), block) {
            Some(turn) => {
                if is_marked(heads, turn.header) || !ends(alloc, graph, block, turn)? {
                    None
                } else {
                    Some(turn)
                }
            }
            None => None,
        };
        turns.push(found)?;
    }
    Ok(turns)
}

fn has_turn(turns: &[Option<Turn>]) -> bool {
    for turn in turns {
        if turn.is_some() {
            return true;
        }
    }
    false
}

/// The loop of two blocks to which a block jumps: to its header, or to the rest of its turn.
fn turn_behind(
    blocks: &[Block],
    sources: &[Vec<BlockId>],
    place: BlockId,
    block: &Block,
) -> Option<Turn> {
    let next = match &block.exit {
        Exit::Goto(next) => *next,
        _ => return None,
    };
    let ahead = match blocks.get(next as usize) {
        Some(found) => found,
        None => return None,
    };
    match &ahead.exit {
        Exit::Split { yes, no, .. } => {
            if closes(blocks, sources, next, *yes, place) {
                Some(Turn {
                    header: next,
                    rest: *yes,
                    goes_on: false,
                })
            } else if closes(blocks, sources, next, *no, place) {
                Some(Turn {
                    header: next,
                    rest: *no,
                    goes_on: false,
                })
            } else {
                None
            }
        }
        Exit::Goto(header) => {
            if is_header_of(blocks, sources, *header, next, place) {
                Some(Turn {
                    header: *header,
                    rest: next,
                    goes_on: true,
                })
            } else {
                None
            }
        }
        _ => None,
    }
}

/// Whether a side of the test of a header jumps back to it, and nothing leads to these two but the block before the loop.
fn closes(
    blocks: &[Block],
    sources: &[Vec<BlockId>],
    header: BlockId,
    side: BlockId,
    before: BlockId,
) -> bool {
    header > 0
        && before != side
        && jumps_to(blocks, side, header)
        && are_sources(sources, header, before, side)
        && are_sources(sources, side, header, header)
}

/// Whether a block is the header of a loop whose turn another one ends, to which a block before the loop jumps.
fn is_header_of(
    blocks: &[Block],
    sources: &[Vec<BlockId>],
    header: BlockId,
    rest: BlockId,
    before: BlockId,
) -> bool {
    header > 0
        && rest > 0
        && before != header
        && are_sources(sources, header, rest, rest)
        && are_sources(sources, rest, header, before)
        && splits_to(blocks, header, rest)
}

fn jumps_to(blocks: &[Block], from: BlockId, to: BlockId) -> bool {
    match blocks.get(from as usize) {
        Some(block) => match &block.exit {
            Exit::Goto(next) => *next == to,
            _ => false,
        },
        None => false,
    }
}

fn splits_to(blocks: &[Block], from: BlockId, to: BlockId) -> bool {
    match blocks.get(from as usize) {
        Some(block) => match &block.exit {
            Exit::Split { yes, no, .. } => *yes == to || *no == to,
            _ => false,
        },
        None => false,
    }
}

/// Whether edges lead to a block from these two alone, and from both.
fn are_sources(sources: &[Vec<BlockId>], block: BlockId, first: BlockId, second: BlockId) -> bool {
    match sources.get(block as usize) {
        Some(row) => {
            let mut has_first = false;
            let mut has_second = false;
            for source in row.as_slice() {
                if *source != first && *source != second {
                    return false;
                }
                has_first = has_first || *source == first;
                has_second = has_second || *source == second;
            }
            has_first && has_second
        }
        None => false,
    }
}

/// Whether a loop behind a block ends after a few turns, by what the block tells alone.
fn ends(alloc: Global, graph: &Graph, block: &Block, turn: Turn) -> Result<bool, NoMemory> {
    let blocks = graph.blocks.as_slice();
    match (
        blocks.get(turn.header as usize),
        blocks.get(turn.rest as usize),
    ) {
        (Some(header), Some(rest)) => {
            let most = MOST_TOGETHER.saturating_sub(block.ops.len());
            let size = header.ops.len().saturating_add(rest.ops.len());
            if size.saturating_add(size) > most {
                return Ok(false);
            }
            let nothing = Claim {
                facts: Listed::new(alloc),
                accesses: Listed::new(alloc),
            };
            let known = behind(alloc, graph, &nothing, block)?;
            ends_behind(alloc, graph, known, header, rest, turn, most)
        }
        _ => Ok(false),
    }
}

fn ends_behind(
    alloc: Global,
    graph: &Graph,
    before: Claim,
    header: &Block,
    rest: &Block,
    turn: Turn,
    most: usize,
) -> Result<bool, NoMemory> {
    let mut known = before;
    let mut total = 0usize;
    let mut goes_on = turn.goes_on;
    for _ in 0..MOST_TURNS {
        if goes_on {
            known = behind(alloc, graph, &known, rest)?;
            total = total.saturating_add(rest.ops.len());
        }
        known = behind(alloc, graph, &known, header)?;
        total = total.saturating_add(header.ops.len());
        goes_on = true;
        if total > most {
            return Ok(false);
        }
        match side_of(header, known.facts.as_slice()) {
            Some(side) => {
                if side != turn.rest {
                    return Ok(true);
                }
            }
            None => return Ok(false),
        }
    }
    Ok(false)
}

/// Where a test leads, if that is known.
fn side_of(header: &Block, facts: &[Fact]) -> Option<BlockId> {
    match &header.exit {
        Exit::Split { test, yes, no } => match decided(facts, *test) {
            Some(true) => Some(*yes),
            Some(false) => Some(*no),
            None => None,
        },
        _ => None,
    }
}

fn behind(alloc: Global, graph: &Graph, before: &Claim, block: &Block) -> Result<Claim, NoMemory> {
    known_behind(
        alloc,
        graph.arrays.as_slice(),
        before.facts.as_slice(),
        before.accesses.as_slice(),
        block.ops.as_slice(),
    )
}

// ---- chains

fn chains_of(
    alloc: Global,
    blocks: &[Block],
    heads: &[bool],
    turns: &[Option<Turn>],
) -> Result<Copies, NoMemory> {
    let mut copies = Copies {
        to: Vec::new(alloc),
        chains: Vec::new(alloc),
    };
    for (place, block) in blocks.iter().enumerate() {
        copies.to.push(number_of(copies.chains.len()))?;
        if !is_marked(heads, number_of(place)) {
            let mut chain = chain_at(alloc, heads, number_of(place), &block.exit)?;
            push_turn(&mut chain, turns, place)?;
            copies.chains.push(chain)?;
        }
    }
    Ok(copies)
}

/// Puts the turn of a loop behind a block that leads to it.
fn push_turn(
    chain: &mut Listed<BlockId>,
    turns: &[Option<Turn>],
    place: usize,
) -> Result<(), NoMemory> {
    match turns.get(place) {
        Some(Some(turn)) => {
            if turn.goes_on {
                chain.push(turn.rest)?;
            }
            chain.push(turn.header)?;
            Ok(())
        }
        _ => Ok(()),
    }
}

/// A block, and the head to which it leads.
fn chain_at(
    alloc: Global,
    heads: &[bool],
    block: BlockId,
    exit: &Exit,
) -> Result<Listed<BlockId>, NoMemory> {
    let mut chain = Listed::new(alloc);
    chain.push(block)?;
    match exit {
        Exit::Goto(next) => {
            if is_marked(heads, *next) {
                chain.push(*next)?;
            }
        }
        _ => {}
    }
    Ok(chain)
}
