// What a block takes over from the blocks that lead to it: what its values hold, and what is known of places and words of
// arrays. What no run comes to leads to nothing. It is looked for and owes nothing, since what does not pass is not used.

ghost use Rattle.std.specs.Prelude.{◌≡◌, IfOk, length};

use crate::shared::Shared;
use std::alloc::Global;
use vx_base::listed::Listed;
use vx_base::outcome::NoMemory;
use vx_claims::access::{Access, tell};
use vx_claims::behind::known_behind;
use vx_claims::claim::{Claim, accesses_in, facts_in};
use vx_claims::effects::without;
use vx_claims::fact::Fact;
use vx_claims::known::is_never;
use vx_flow::arrays::{has_base, is_own_array};
use vx_flow::graph::{Array, ArrayId, Block, BlockId, Exit, Graph, Value};
use vx_loops::{Loops, entries_at, loops_of};

/// How many of the facts and of what is known of arrays are looked at at most, the newest first.
pub(crate) const MOST: usize = 48;

/// Blocks of more operations hand nothing on.
const LONGEST: usize = 64;

/// Adds to what is claimed at each block what is known at the ends of all blocks before it; at the first block of a loop, what the
/// loop does not change of that. Without joins a block with one way in alone takes over. Each block stands behind those before it
/// in the order, but for the edges that close loops.
pub(crate) fn inherit(
    alloc: Global,
    claims: &mut Vec<Claim>,
    order: &[BlockId],
    graph: &Graph,
    joins: bool,
) -> Result<(), NoMemory>
    ensures { IfOk result (λ _. length claims.new.items ≡ length claims.old.items) }
{
    let mut loops = loops_of(alloc, graph)?;
    let inherited = inherit_along(alloc, claims, &mut loops, order, graph, joins);
    drop(loops);
    inherited
}

/// Goes along the order, with the loops of the graph.
fn inherit_along(
    alloc: Global,
    claims: &mut Vec<Claim>,
    loops: &mut Loops,
    order: &[BlockId],
    graph: &Graph,
    joins: bool,
) -> Result<(), NoMemory>
    ensures { IfOk result (λ _. length claims.new.items ≡ length claims.old.items) }
{
    let mut ends = nothing_everywhere(alloc, graph.blocks.len())?;
    let mut shared = Shared::new(alloc, graph.banks.len())?;
    for place in order {
        inherit_at(
            alloc,
            claims,
            loops,
            &mut ends,
            &mut shared,
            graph,
            *place,
            joins,
        )?;
    }
    Ok(())
}

/// Lets a block take over, and notes what is known at its end.
fn inherit_at(
    alloc: Global,
    claims: &mut Vec<Claim>,
    loops: &mut Loops,
    ends: &mut Vec<Claim>,
    shared: &mut Shared,
    graph: &Graph,
    place: BlockId,
    joins: bool,
) -> Result<(), NoMemory>
    ensures { IfOk result (λ _. length claims.new.items ≡ length claims.old.items) }
{
    let blocks = graph.blocks.as_slice();
    match blocks.get(place as usize) {
        Some(block) => {
            if joins || loops.is_single(place) {
                take_over(alloc, claims, loops, ends.as_slice(), shared, graph, place)?;
            }
            let end = end_of(
                alloc,
                graph.arrays.as_slice(),
                claims.as_slice(),
                place,
                block,
            )?;
            put_end(ends, place, end);
            Ok(())
        }
        None => Ok(()),
    }
}

/// Nothing is known at so many blocks.
pub(crate) fn nothing_everywhere(alloc: Global, blocks: usize) -> Result<Vec<Claim>, NoMemory>
    ensures { IfOk result (λ claims. length claims.items ≡ blocks) }
{
    let mut ends = Vec::new(alloc);
    for _block in 0..blocks {
        ends.push(nothing_known(alloc))?;
    }
    Ok(ends)
}

fn nothing_known(alloc: Global) -> Claim {
    Claim {
        facts: Listed::new(alloc),
        accesses: Listed::new(alloc),
    }
}

fn put_end(ends: &mut Vec<Claim>, place: BlockId, end: Claim) {
    if (place as usize) < ends.len() {
        ends[place as usize] = end;
    }
}

/// What is known at the end of a block, wherever it leads.
fn end_of(
    alloc: Global,
    arrays: &[Array],
    claims: &[Claim],
    place: BlockId,
    block: &Block,
) -> Result<Claim, NoMemory> {
    if block.ops.len() > LONGEST {
        return Ok(nothing_known(alloc));
    }
    match &block.exit {
        Exit::Call {
            result: written,
            ..
        } => end_of_call(alloc, arrays, claims, place, block, *written),
        _ => passed_over(alloc, arrays, claims, place, block),
    }
}

/// What is known behind a call that writes this value, if any: no more of arrays.
fn end_of_call(
    alloc: Global,
    arrays: &[Array],
    claims: &[Claim],
    place: BlockId,
    block: &Block,
    written: Option<Value>,
) -> Result<Claim, NoMemory> {
    let mut end = passed_over(alloc, arrays, claims, place, block)?;
    end.accesses = Listed::new(alloc);
    if let Some(value) = written {
        end.facts = without(alloc, end.facts.as_slice(), value)?;
    }
    Ok(end)
}

/// Goes over the operations of a block of a function with these arrays from what is claimed at its start.
pub(crate) fn passed_over(
    alloc: Global,
    arrays: &[Array],
    claims: &[Claim],
    place: BlockId,
    block: &Block,
) -> Result<Claim, NoMemory> {
    known_behind(
        alloc,
        arrays,
        facts_in(claims, place as usize),
        accesses_in(claims, place as usize),
        block.ops.as_slice(),
    )
}

/// Adds to what is claimed at a block what all blocks before it give, and no turn of its loop changes.
fn take_over(
    alloc: Global,
    claims: &mut Vec<Claim>,
    loops: &mut Loops,
    ends: &[Claim],
    shared: &mut Shared,
    graph: &Graph,
    place: BlockId,
) -> Result<(), NoMemory>
    ensures { IfOk result (λ _. length claims.new.items ≡ length claims.old.items) }
{
    let before = entries_at(alloc, graph.blocks.as_slice(), loops, place as usize)?;
    match before.as_slice() {
        [] => Ok(()),
        [first, ..] => {
            let one = first_led(ends, before.as_slice(), *first);
            shared.find(loops, ends, before.as_slice(), one, place)?;
            take_facts(alloc, claims, place, shared.facts())?;
            take_accesses(
                graph.arrays.as_slice(),
                claims,
                loops,
                ends,
                before.as_slice(),
                one,
                place,
            )
        }
    }
}

/// The first of some blocks to which a run comes, or another one where there is none.
fn first_led(ends: &[Claim], before: &[BlockId], otherwise: BlockId) -> BlockId {
    for block in before {
        if !is_never(facts_in(ends, *block as usize)) {
            return *block;
        }
    }
    otherwise
}

/// Puts facts behind what is claimed at a block.
fn take_facts(
    alloc: Global,
    claims: &mut Vec<Claim>,
    block: BlockId,
    facts: &[Fact],
) -> Result<(), NoMemory>
    ensures { IfOk result (λ _. length claims.new.items ≡ length claims.old.items) }
{
    let place = block as usize;
    if place < claims.len() && facts.len() > 0 {
        claims[place].facts = with_facts(alloc, claims[place].facts.as_slice(), facts)?;
    }
    Ok(())
}

fn with_facts(alloc: Global, first: &[Fact], others: &[Fact]) -> Result<Listed<Fact>, NoMemory> {
    let mut both = Vec::with_capacity(alloc, first.len().saturating_add(others.len()))?;
    both.extend_from_slice(first)?;
    both.extend_from_slice(others)?;
    Ok(Listed::from_vec(both)?)
}

/// Adds to what is claimed at a block what is known of arrays at the end of one of the blocks before it, where the ends of the others
/// tell it too and no turn of its loop changes it.
fn take_accesses(
    arrays: &[Array],
    claims: &mut Vec<Claim>,
    loops: &Loops,
    ends: &[Claim],
    before: &[BlockId],
    one: BlockId,
    place: BlockId,
) -> Result<(), NoMemory>
    ensures { IfOk result (λ _. length claims.new.items ≡ length claims.old.items) }
{
    let accesses = accesses_in(ends, one as usize);
    for access in &accesses[..accesses.len().min(MOST)] {
        if keeps_access(arrays, loops, *access) && all_tell(ends, before, one, *access) {
            take_access(claims, place, *access)?;
        }
    }
    Ok(())
}

/// The most arrays of a function for which stores to any of them are looked for.
const MOST_ARRAYS: usize = 256;

/// Whether a turn of a loop may store to a word of an array, by its own name or by that of another which may be the same.
fn may_change(arrays: &[Array], loops: &Loops, array: ArrayId) -> bool {
    if loops.is_stored(array) {
        return true;
    }
    match arrays.get(array as usize) {
        Some(found) => {
            if has_base(found) {
                changes_shared(arrays, loops)
            } else {
                found.global && changes_handed(arrays, loops)
            }
        }
        None => true,
    }
}

fn is_stored_at(loops: &Loops, number: usize) -> bool {
    number >= 4294967296 || loops.is_stored(number as u32)
}

/// Whether a turn stores to an array that was handed over. These stand behind the globals.
fn changes_handed(arrays: &[Array], loops: &Loops) -> bool {
    match arrays.split_last() {
        Some((last, rest)) => {
            !last.global
                && (has_base(last) && is_stored_at(loops, rest.len())
                    || changes_handed(rest, loops))
        }
        None => false,
    }
}

/// Whether a turn stores to an array that is not the function's own, or there are too many to look for one.
fn changes_shared(arrays: &[Array], loops: &Loops) -> bool {
    if arrays.len() > MOST_ARRAYS {
        return true;
    }
    for (number, found) in arrays.iter().enumerate() {
        if !is_own_array(found) && loops.is_stored(number as u32) {
            return true;
        }
    }
    false
}

/// Whether each turn of a loop leaves what is known of an array.
fn keeps_access(arrays: &[Array], loops: &Loops, access: Access) -> bool {
    match access {
        Access::Placed { value, index, .. } => {
            !loops.is_written(value) && loops.keeps(index) && !loops.has_call()
        }
        Access::Stored { array, place, from } => {
            loops.keeps(place)
                && loops.keeps(from)
                && !may_change(arrays, loops, array)
                && !loops.has_call()
        }
    }
}

/// Whether the ends of all blocks tell what is known at the end of one of them, where a run comes there.
fn all_tell(ends: &[Claim], before: &[BlockId], one: BlockId, access: Access) -> bool {
    for block in before {
        let place = *block as usize;
        if !tells_at(ends, place, *block == one, access) && !is_never(facts_in(ends, place)) {
            return false;
        }
    }
    true
}

/// Whether an end tells something. One from which that is taken does where it can be found again.
fn tells_at(ends: &[Claim], place: usize, is_taken: bool, access: Access) -> bool {
    if is_taken {
        tell(&[access], &[access])
    } else {
        tell(accesses_in(ends, place), &[access])
    }
}

fn take_access(claims: &mut Vec<Claim>, block: BlockId, access: Access) -> Result<(), NoMemory>
    ensures { IfOk result (λ _. length claims.new.items ≡ length claims.old.items) }
{
    let place = block as usize;
    if place < claims.len() {
        claims[place].accesses.push(access)?;
    }
    Ok(())
}
