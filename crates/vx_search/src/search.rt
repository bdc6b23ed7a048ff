// Claims that a graph may pass with: intervals and low bits of the values that are live at the starts of blocks, and the blocks to
// which no run comes. They are looked for and owe nothing, since what does not pass is not used.
//
// Blocks are gone over in an order. What the blocks before a block give is then known; what the others give, by which loops
// are closed, is taken to be nothing at first. Where they give more, more is taken: from the third sweep on up to 0, or to the
// least and the greatest number (Cousot and Cousot, 1977). Where they give no more, what was taken too much is given back.

ghost use Rattle.std.specs.Prelude.{◌≡◌, IfOk, length};

use crate::inherited::{inherit, nothing_everywhere};
use crate::sweep::{
    Cell, Mark, Tables, anything, cell_at, either, is_none, is_steady, lying, nowhere, put_cell,
    start_at, sweep, unknown_cell, unseen,
};
use std::alloc::Global;
use vx_base::listed::Listed;
use vx_base::outcome::NoMemory;
use vx_claims::claim::Claim;
use vx_claims::effects::append_stands;
use vx_claims::fact::Fact;
use vx_claims::intervals::{Interval, full};
use vx_claims::known::{Sight, is_inside, together};
use vx_claims::residues::{is_implied, joined, unknown};
use vx_flow::graph::{Bank, Block, BlockId, Graph, Value};
use vx_flow::live;
use vx_flow::live_rows::Live;
use vx_loops::order_of;

/// How many sweeps there are at most until nothing more comes in.
const MOST_SWEEPS: u32 = 16;

/// From which sweep on what grows is taken up to a bound, from which on low bits that change are given up, and from which on all is.
const WIDENS: u32 = 3;

const GIVES_UP_LOW_BITS: u32 = 6;

const GIVES_UP: u32 = 10;

/// Claims at the starts of the blocks of a graph, where its parameters lie in intervals, with so many sweeps that give back. Blocks
/// with several ways in take over what the blocks before them give where that is wanted. There is one list of claims for each
/// block; what they say owes nothing, and is checked.
pub fn find_claims(
    alloc: Global,
    graph: &Graph,
    intervals: &[Interval],
    rounds: u32,
    joins: bool,
) -> Result<Vec<Claim>, NoMemory>
    ensures { IfOk result (λ claims. length claims.items ≡ length graph.now.blocks) }
{
    let live = live(alloc, graph)?;
    let order = order_of(alloc, graph.blocks.as_slice())?;
    claims_in_order(
        alloc,
        graph,
        intervals,
        rounds,
        joins,
        order.as_slice(),
        &live,
    )
}

/// The claims, where blocks are gone over in this order, and these values are live. They say nothing where sweeps do not settle.
fn claims_in_order(
    alloc: Global,
    graph: &Graph,
    intervals: &[Interval],
    rounds: u32,
    joins: bool,
    order: &[BlockId],
    live: &Live,
) -> Result<Vec<Claim>, NoMemory>
    ensures { IfOk result (λ claims. length claims.items ≡ length graph.now.blocks) }
{
    let blocks = graph.blocks.as_slice();
    let mut tables = new_tables(alloc, graph, live)?;
    put_parameters(&mut tables, graph.parameters.as_slice(), intervals, live);
    rank(&mut tables, order);
    let claims = if settles(&mut tables, order, blocks, live) {
        shrink(&mut tables, order, blocks, live, rounds);
        settled_claims(alloc, graph, joins, order, live, &tables)
    } else {
        nothing_everywhere(alloc, blocks.len())
    };
    drop(tables);
    claims
}

/// What settled tables say at the start of each block, and what the block takes over.
fn settled_claims(
    alloc: Global,
    graph: &Graph,
    joins: bool,
    order: &[BlockId],
    live: &Live,
    tables: &Tables,
) -> Result<Vec<Claim>, NoMemory>
    ensures { IfOk result (λ claims. length claims.items ≡ length graph.now.blocks) }
{
    let mut claims = claims_of(alloc, graph, live, tables)?;
    inherit(alloc, &mut claims, order, graph, joins)?;
    Ok(claims)
}

fn new_tables(alloc: Global, graph: &Graph, live: &Live) -> Result<Tables, NoMemory> {
    let blocks = graph.blocks.len();
    let mut marks = Vec::new(alloc);
    let mut size: usize = 0;
    for block in 0..blocks {
        marks.push(Mark {
            start: size,
            rank: 0,
            forward: 0,
            back: 0,
            seen: 0,
        })?;
        size = size.saturating_add(live.values_at(block_number(block)).len());
    }
    let cells = vec![in alloc; unknown_cell(); size]?;
    let values = vec![in alloc; unseen(); graph.banks.len()]?;
    Ok(Tables {
        marks,
        cells,
        values,
        stamp: 0,
        number: 0,
    })
}

/// Puts where those parameters lie that are live at the entry, whose row is the first.
fn put_parameters(tables: &mut Tables, parameters: &[Value], intervals: &[Interval], live: &Live) {
    for (place, value) in live.values_at(0).iter().enumerate() {
        let mut cell = unknown_cell();
        cell.start = lying(interval_of(parameters, intervals, *value));
        put_cell(&mut tables.cells, place, cell);
    }
}

/// The interval at the first place where a value is a parameter.
fn interval_of(parameters: &[Value], intervals: &[Interval], value: Value) -> Interval {
    for (place, parameter) in parameters.iter().enumerate() {
        if *parameter == value {
            return match intervals.get(place) {
                Some(within) => *within,
                None => full(),
            };
        }
    }
    full()
}

/// The number of the block at a place.
pub(crate) fn block_number(place: usize) -> BlockId {
    if place < u32::MAX as usize {
        place as u32
    } else {
        u32::MAX
    }
}

/// Notes the place of each block in the order.
fn rank(tables: &mut Tables, order: &[BlockId]) {
    for (place, block) in order.iter().enumerate() {
        if (*block as usize) < tables.marks.len() {
            tables.marks[*block as usize].rank = place;
        }
    }
}

/// Sweeps until no block gives more than is taken, and says whether that came.
fn settles(tables: &mut Tables, order: &[BlockId], blocks: &[Block], live: &Live) -> bool {
    for number in 1..MOST_SWEEPS {
        sweep(tables, order, blocks, live, number);
        if !take_more(tables, blocks.len(), live, number) {
            return true;
        }
    }
    false
}

/// Takes what was given in a sweep. Says whether there was more than before.
fn take_more(tables: &mut Tables, blocks: usize, live: &Live, number: u32) -> bool {
    let mut more = false;
    for block in 1..blocks {
        let values = live.values_at(block_number(block)).len();
        if take_at(tables, block, values, number) {
            more = true;
        }
    }
    more
}

fn take_at(tables: &mut Tables, block: usize, values: usize, number: u32) -> bool {
    let mark = mark_at(tables, block);
    if mark.back != number {
        return false;
    }
    let mut more = mark.seen != number;
    for index in 0..values {
        let place = mark.start.saturating_add(index);
        let cell = cell_at(tables.cells.as_slice(), place);
        if !says_all(cell.start, cell.back) {
            put_cell(&mut tables.cells, place, taken(cell, number));
            more = true;
        }
    }
    more
}

fn mark_at(tables: &Tables, block: usize) -> Mark {
    match tables.marks.get(block) {
        Some(mark) => *mark,
        None => Mark {
            start: usize::MAX,
            rank: 0,
            forward: 0,
            back: 0,
            seen: 0,
        },
    }
}

/// Whether what is known of a number holds of all numbers of which another thing is known.
fn says_all(known: Sight, other: Sight) -> bool {
    is_none(other)
        || (is_inside(other.within, known.within) && is_implied(other.residue, known.residue))
}

fn taken(cell: Cell, number: u32) -> Cell {
    let mut new = cell;
    new.taken = if number >= GIVES_UP {
        anything()
    } else {
        either(cell.taken, more_of(cell.start, cell.back, number))
    };
    new
}

/// What is taken where something is known of a number and then other things are.
fn more_of(old: Sight, new: Sight, number: u32) -> Sight {
    let residue = joined(old.residue, new.residue);
    together(Sight {
        within: grown(old.within, new.within, number >= WIDENS),
        residue: if number >= GIVES_UP_LOW_BITS && !is_implied(new.residue, old.residue) {
            unknown()
        } else {
            residue
        },
    })
}

fn grown(old: Interval, new: Interval, widens: bool) -> Interval {
    let low = if old.low <= new.low || !widens {
        new.low
    } else if 0 <= new.low {
        0
    } else {
        i32::MIN
    };
    let high = if new.high <= old.high || !widens {
        new.high
    } else {
        i32::MAX
    };
    Interval { low, high }
}

/// Gives back what is taken too much, so many times, or until a sweep would find what the last one did.
fn shrink(tables: &mut Tables, order: &[BlockId], blocks: &[Block], live: &Live, rounds: u32) {
    for round in 0..rounds {
        if !give_back(tables, blocks.len(), live) && is_steady(tables) {
            return;
        }
        sweep(
            tables,
            order,
            blocks,
            live,
            MOST_SWEEPS.saturating_add(round),
        );
    }
}

/// Takes what was given at last, where something is taken. Says whether that is not what was taken.
fn give_back(tables: &mut Tables, blocks: usize, live: &Live) -> bool {
    let mut other = false;
    for block in 1..blocks {
        let values = live.values_at(block_number(block)).len();
        if give_back_at(tables, block, values) {
            other = true;
        }
    }
    other
}

/// The same at a block: nothing where no block leads back to it.
fn give_back_at(tables: &mut Tables, block: usize, values: usize) -> bool {
    let mark = mark_at(tables, block);
    let is_led_to = mark.back == tables.number;
    let mut other = false;
    for index in 0..values {
        let place = mark.start.saturating_add(index);
        if place < tables.cells.len() && !is_none(tables.cells[place].taken) {
            let given = if is_led_to {
                tables.cells[place].back
            } else {
                nowhere()
            };
            if !is_same(given, tables.cells[place].taken) {
                tables.cells[place].taken = given;
                other = true;
            }
        }
    }
    other
}

/// Whether the same is known of two numbers.
fn is_same(first: Sight, second: Sight) -> bool {
    first.within.low == second.within.low
        && first.within.high == second.within.high
        && first.residue.places == second.residue.places
        && first.residue.rest == second.residue.rest
}

/// What the tables say at the start of each block.
fn claims_of(
    alloc: Global,
    graph: &Graph,
    live: &Live,
    tables: &Tables,
) -> Result<Vec<Claim>, NoMemory>
    ensures { IfOk result (λ claims. length claims.items ≡ length graph.now.blocks) }
{
    let mut claims = Vec::new(alloc);
    for block in 0..graph.blocks.len() {
        let facts = claims_at(alloc, graph.banks.as_slice(), live, tables, block)?;
        claims.push(claim_of(alloc, facts))?;
    }
    Ok(claims)
}

fn claim_of(alloc: Global, facts: Listed<Fact>) -> Claim {
    Claim {
        facts,
        accesses: Listed::new(alloc),
    }
}

fn claims_at(
    alloc: Global,
    banks: &[Bank],
    live: &Live,
    tables: &Tables,
    block: usize,
) -> Result<Listed<Fact>, NoMemory> {
    let mut claims = Listed::new(alloc);
    let mark = mark_at(tables, block);
    if block != 0 && mark.seen != tables.number {
        claims.push(Fact::Never)?;
        return Ok(claims);
    }
    for (index, value) in live.values_at(block_number(block)).iter().enumerate() {
        let place = mark.start.saturating_add(index);
        let start = start_at(tables.cells.as_slice(), place);
        if is_general(banks, *value) {
            append_stands(&mut claims, *value, start.within, start.residue)?;
        }
    }
    Ok(claims)
}

fn is_general(banks: &[Bank], value: Value) -> bool {
    match banks.get(value as usize) {
        Some(Bank::General) => true,
        _ => false,
    }
}
