// What is given of the parameters of each function: the hull of what its calls pass. It is looked for and owes nothing, since every
// call is checked against it.
//
// Functions are gone over such that a function comes behind those that call it. What its calls pass is then known, and the claims
// of its blocks are looked for with that. A function that calls itself is given what others pass to it where its own calls stay in
// that, else that up to the next numbers with which it compares, else what others pass to the parameters that its own calls keep, and
// at the end nothing. Where functions call each other in a ring, nothing is given of the first of them.

ghost use Rattle.std.specs.Prelude.{IfOk, length};
ghost use Rattle.vx_search.specs.Rows.{HasRows, SameRows};

use crate::compared::up_to_compared;
use crate::inherited::passed_over;
use crate::search::{block_number, find_claims};
use crate::sweep::{hull, none};
use std::alloc::Global;
use vx_base::listed::Listed;
use vx_base::outcome::NoMemory;
use vx_claims::claim::{Claim, facts_in};
use vx_claims::effects::is_full;
use vx_claims::fact::Fact;
use vx_claims::intervals::{Interval, full};
use vx_claims::known::{is_inside, is_never, range_of};
use vx_flow::graph::{Block, Exit, Graph, Operand};

/// How many facts of all claims are kept at most. The claims of the other functions are looked for once more.
const MOST_KEPT: usize = 1_000_000;

/// How often the claims of a function that passes itself more are looked for before nothing is given.
const MOST_TURNS: u32 = 4;

/// In how many turns what it passes itself is taken up to the next number with which it compares.
const COMPARED_TURNS: u32 = 2;

/// Claims that were looked for, where they are kept.
#[derive(Drop)]
pub struct Kept {
    pub claims: Vec<Claim>,
    pub is_kept: bool,
}

/// What is given of the parameters of each function, and the claims that were looked for with that.
#[derive(Drop)]
pub struct Found {
    pub given: Vec<Listed<Interval>>,
    pub kept: Vec<Kept>,
}

/// What is noted of the functions.
#[derive(Drop)]
struct Calls {
    /// What is noted of each.
    functions: Vec<Noted>,
    /// What the calls of each function pass, an interval for each parameter. What nothing was passed to has its ends exchanged.
    hulls: Vec<Interval>,
    /// The functions that may be gone over next.
    ready: Vec<usize>,
    /// How many facts are kept.
    facts: usize,
}

/// What is noted of a function.
#[derive(Clone, Copy)]
struct Noted {
    /// Where its row begins among the hulls.
    start: usize,
    /// How many calls of it are in functions that were not gone over yet, its own calls left out.
    waiting: usize,
    /// Whether it was gone over.
    is_gone_over: bool,
}

/// Looks for what is given of the parameters of all functions. The time is linear in the calls, beside that of looking for claims
/// once for each function, and up to four times more for one that passes itself more. There is a row for each function; what stands
/// in it owes nothing, and is checked.
pub fn find_given(alloc: Global, functions: &[Graph], rounds: u32) -> Result<Found, NoMemory>
    ensures { IfOk result (λ found. HasRows (length functions.now) found) }
{
    let mut calls = calls_of(alloc, functions)?;
    let found = found_for(alloc, &mut calls, functions, rounds);
    drop(calls);
    found
}

/// What is found for all functions, with what is noted of them.
fn found_for(
    alloc: Global,
    calls: &mut Calls,
    functions: &[Graph],
    rounds: u32,
) -> Result<Found, NoMemory>
    ensures { IfOk result (λ found. HasRows (length functions.now) found) }
{
    let mut found = nothing_found(alloc, functions.len())?;
    go_over_all(alloc, calls, &mut found, functions, rounds)?;
    Ok(found)
}

/// Goes over all functions: those that are ready, and where none is, the first that is left, of which nothing is given.
fn go_over_all(
    alloc: Global,
    calls: &mut Calls,
    found: &mut Found,
    functions: &[Graph],
    rounds: u32,
) -> Result<(), NoMemory>
    ensures { IfOk result (λ _. SameRows found.old found.new) }
{
    ready_at_first(&mut calls.ready, calls.functions.as_slice())?;
    for (function, graph) in functions.iter().enumerate() {
        go_over_ready(alloc, calls, found, functions, rounds)?;
        ready_if_left(calls, function, graph.parameters.len())?;
    }
    go_over_ready(alloc, calls, found, functions, rounds)
}

/// Makes a function ready that was not gone over, of which nothing is given.
fn ready_if_left(calls: &mut Calls, function: usize, parameters: usize) -> Result<(), NoMemory> {
    if !was_gone_over(calls, function) {
        give_up(calls, function, parameters);
        calls.ready.push(function)?;
    }
    Ok(())
}

/// Goes over the functions that are ready, and those that then are.
fn go_over_ready(
    alloc: Global,
    calls: &mut Calls,
    found: &mut Found,
    functions: &[Graph],
    rounds: u32,
) -> Result<(), NoMemory>
    ensures { IfOk result (λ _. SameRows found.old found.new) }
{
    'going: for _ in 0..functions.len() {
        match calls.ready.pop() {
            Some(function) => {
                go_over_one(alloc, calls, found, functions, function, rounds)?;
            }
            None => return Ok(()),
        }
    }
    Ok(())
}

/// Goes over a function, and makes those ready that only it kept waiting.
fn go_over_one(
    alloc: Global,
    calls: &mut Calls,
    found: &mut Found,
    functions: &[Graph],
    function: usize,
    rounds: u32,
) -> Result<(), NoMemory>
    ensures { IfOk result (λ _. SameRows found.old found.new) }
{
    match functions.get(function) {
        Some(graph) => {
            go_over(alloc, calls, found, function, graph, rounds)?;
            release(calls, function, graph.blocks.as_slice())
        }
        None => Ok(()),
    }
}

fn was_gone_over(calls: &Calls, function: usize) -> bool {
    match calls.functions.get(function) {
        Some(noted) => noted.is_gone_over,
        None => true,
    }
}

/// Gives nothing of the parameters of a function.
fn give_up(calls: &mut Calls, function: usize, parameters: usize) {
    for place in 0..parameters {
        put_hull(calls, function, place, full());
    }
}

fn calls_of(alloc: Global, functions: &[Graph]) -> Result<Calls, NoMemory> {
    let mut calls = Calls {
        functions: Vec::new(alloc),
        hulls: Vec::new(alloc),
        ready: Vec::new(alloc),
        facts: 0,
    };
    begin_calls(&mut calls, functions)?;
    Ok(calls)
}

/// Notes all functions, to none of which anything was passed so far.
fn begin_calls(calls: &mut Calls, functions: &[Graph]) -> Result<(), NoMemory> {
    let mut size: usize = 0;
    for graph in functions {
        calls.functions.push(Noted {
            start: size,
            waiting: 0,
            is_gone_over: false,
        })?;
        size = size.saturating_add(graph.parameters.len());
    }
    for (function, graph) in functions.iter().enumerate() {
        count_calls(&mut calls.functions, function, graph.blocks.as_slice());
    }
    calls.hulls.resize(size, none())?;
    Ok(())
}

/// The function that a block calls, where it is another one.
fn other_called(block: &Block, caller: usize) -> Option<usize> {
    match &block.exit {
        Exit::Call { function, .. } => {
            if *function as usize == caller {
                None
            } else {
                Some(*function as usize)
            }
        }
        _ => None,
    }
}

fn count_calls(noted: &mut Vec<Noted>, caller: usize, blocks: &[Block]) {
    for block in blocks {
        match other_called(block, caller) {
            Some(function) => {
                if function < noted.len() {
                    noted[function].waiting = noted[function].waiting.saturating_add(1);
                }
            }
            None => {}
        }
    }
}

fn nothing_found(alloc: Global, functions: usize) -> Result<Found, NoMemory>
    ensures { IfOk result (λ found. HasRows functions found) }
{
    let mut given = Vec::new(alloc);
    let mut kept = Vec::new(alloc);
    for _function in 0..functions {
        given.push(Listed::new(alloc))?;
        kept.push(Kept {
            claims: Vec::new(alloc),
            is_kept: false,
        })?;
    }
    Ok(Found { given, kept })
}

/// Makes the functions ready that no other one calls.
fn ready_at_first(ready: &mut Vec<usize>, functions: &[Noted]) -> Result<(), NoMemory> {
    for (function, noted) in functions.iter().enumerate() {
        if noted.waiting == 0 {
            ready.push(function)?;
        }
    }
    Ok(())
}

/// Notes that a function was gone over. A function that it calls is ready where no other one calls it that was not gone over.
fn release(calls: &mut Calls, caller: usize, blocks: &[Block]) -> Result<(), NoMemory> {
    if caller < calls.functions.len() {
        calls.functions[caller].is_gone_over = true;
    }
    for block in blocks {
        match other_called(block, caller) {
            Some(function) => {
                if has_waited(&mut calls.functions, function) && !was_gone_over(calls, function) {
                    calls.ready.push(function)?;
                }
            }
            None => {}
        }
    }
    Ok(())
}

/// Takes off a call for which a function waits, and says whether that was the last.
fn has_waited(noted: &mut Vec<Noted>, function: usize) -> bool {
    if function < noted.len() {
        noted[function].waiting = noted[function].waiting.saturating_sub(1);
        noted[function].waiting == 0
    } else {
        false
    }
}

/// Puts the row of a function into an empty one, which stays so where that says nothing.
fn put_row(
    calls: &Calls,
    function: usize,
    parameters: usize,
    row: &mut Vec<Interval>,
) -> Result<(), NoMemory> {
    for place in 0..parameters {
        row.push(hull_at(calls, function, place))?;
    }
    if !says_something(row.as_slice()) {
        row.clear();
    }
    Ok(())
}

fn hull_at(calls: &Calls, function: usize, place: usize) -> Interval {
    match calls.functions.get(function) {
        Some(noted) => match calls.hulls.get(noted.start.saturating_add(place)) {
            Some(within) => *within,
            None => full(),
        },
        None => full(),
    }
}

/// Whether something was passed for each parameter, and bounds one.
fn says_something(row: &[Interval]) -> bool {
    let mut bounded = false;
    for within in row {
        if within.low > within.high {
            return false;
        }
        if !is_full(*within) {
            bounded = true;
        }
    }
    bounded
}

/// Looks for the claims of a function with what is given of its parameters, and notes what it passes.
fn go_over(
    alloc: Global,
    calls: &mut Calls,
    found: &mut Found,
    function: usize,
    graph: &Graph,
    rounds: u32,
) -> Result<(), NoMemory>
    ensures { IfOk result (λ _. SameRows found.old found.new) }
{
    let mut row = Vec::new(alloc);
    let claims = settle(alloc, calls, function, graph, rounds, &mut row)?;
    keep_claims(calls, found, function, claims);
    keep_row(found, function, row)
}

/// Looks for what is given of the parameters of a function, from an empty row, and for the claims with that. Where it passes itself
/// more, the intervals are made wider and the claims are looked for anew; where it passes itself more in the last turn too, nothing is
/// given.
fn settle(
    alloc: Global,
    calls: &mut Calls,
    function: usize,
    graph: &Graph,
    rounds: u32,
    row: &mut Vec<Interval>,
) -> Result<Vec<Claim>, NoMemory> {
    put_row(calls, function, graph.parameters.len(), row)?;
    let begun = row.as_slice().to_vec(alloc)?;
    settle_from(alloc, calls, function, graph, rounds, begun.as_slice(), row)
}

/// Looks for what is given from a row, which is what was passed by others.
fn settle_from(
    alloc: Global,
    calls: &mut Calls,
    function: usize,
    graph: &Graph,
    rounds: u32,
    begun: &[Interval],
    row: &mut Vec<Interval>,
) -> Result<Vec<Claim>, NoMemory> {
    for turn in 0..MOST_TURNS {
        let claims = passing_on(alloc, calls, graph, row.as_slice(), rounds)?;
        if is_all_inside(calls, function, row.as_slice()) {
            return Ok(claims);
        }
        drop(claims);
        if turn < COMPARED_TURNS {
            widen_to_compared(calls, function, graph.blocks.as_slice(), row);
        } else {
            widen_to_kept(calls, function, begun, row);
        }
    }
    give_up(calls, function, graph.parameters.len());
    row.clear();
    passing_on(alloc, calls, graph, &[], rounds)
}

/// The claims of a function with what is given of its parameters. What its calls then pass is noted.
fn passing_on(
    alloc: Global,
    calls: &mut Calls,
    graph: &Graph,
    row: &[Interval],
    rounds: u32,
) -> Result<Vec<Claim>, NoMemory> {
    let claims = find_claims(alloc, graph, row, rounds, true)?;
    note_calls(alloc, calls, graph, claims.as_slice())?;
    Ok(claims)
}

fn note_calls(
    alloc: Global,
    calls: &mut Calls,
    graph: &Graph,
    claims: &[Claim],
) -> Result<(), NoMemory> {
    for (place, block) in graph.blocks.as_slice().iter().enumerate() {
        match &block.exit {
            Exit::Call {
                function,
                arguments,
                ..
            } => {
                let called = *function as usize;
                let comes = !is_never(facts_in(claims, place));
                if comes && is_bounded(calls, called, arguments.len()) {
                    let arrays = graph.arrays.as_slice();
                    let passed = passed_over(alloc, arrays, claims, block_number(place), block)?;
                    note_call(calls, called, arguments.as_slice(), passed.facts.as_slice());
                }
            }
            _ => {}
        }
    }
    Ok(())
}

/// Whether what was passed so far bounds one of so many parameters.
fn is_bounded(calls: &Calls, function: usize, parameters: usize) -> bool {
    let mut bounded = false;
    for place in 0..parameters {
        if !is_full(hull_at(calls, function, place)) {
            bounded = true;
        }
    }
    bounded
}

fn note_call(calls: &mut Calls, function: usize, arguments: &[Operand], facts: &[Fact]) {
    for (place, argument) in arguments.iter().enumerate() {
        let within = hull(hull_at(calls, function, place), range_of(facts, *argument));
        put_hull(calls, function, place, within);
    }
}

fn put_hull(calls: &mut Calls, function: usize, place: usize, within: Interval) {
    if function < calls.functions.len() {
        let at = calls.functions[function].start.saturating_add(place);
        if at < calls.hulls.len() {
            calls.hulls[at] = within;
        }
    }
}

/// Whether what was passed lies in a row.
fn is_all_inside(calls: &Calls, function: usize, row: &[Interval]) -> bool {
    for (place, within) in row.iter().enumerate() {
        if !is_inside(hull_at(calls, function, place), *within) {
            return false;
        }
    }
    true
}

/// Takes the ends of a row to the next numbers with which the blocks compare where more than it says was passed.
fn widen_to_compared(calls: &Calls, function: usize, blocks: &[Block], row: &mut Vec<Interval>) {
    for place in 0..row.len() {
        if place < row.len() {
            let passed = hull_at(calls, function, place);
            row[place] = up_to_compared(blocks, row[place], passed);
        }
    }
}

/// Takes a row to what is left of another: nothing where more than that says was passed.
fn widen_to_kept(calls: &Calls, function: usize, begun: &[Interval], row: &mut Vec<Interval>) {
    for (place, within) in begun.iter().enumerate() {
        if place < row.len() {
            row[place] = if is_inside(hull_at(calls, function, place), *within) {
                *within
            } else {
                full()
            };
        }
    }
}

/// Keeps what is given of the parameters of a function.
fn keep_row(found: &mut Found, function: usize, row: Vec<Interval>) -> Result<(), NoMemory>
    ensures { IfOk result (λ _. SameRows found.old found.new) }
{
    let given = Listed::from_vec(row)?;
    if function < found.given.len() {
        found.given[function] = given;
    }
    Ok(())
}

/// Keeps the claims that were looked for, where they are not too many.
fn keep_claims(calls: &mut Calls, found: &mut Found, function: usize, claims: Vec<Claim>)
    ensures { SameRows found.old found.new }
{
    let facts = calls.facts.saturating_add(facts_of(claims.as_slice()));
    if function < found.kept.len() && facts <= MOST_KEPT {
        calls.facts = facts;
        found.kept[function] = Kept {
            claims,
            is_kept: true,
        };
    }
}

fn facts_of(claims: &[Claim]) -> usize {
    let mut facts: usize = 0;
    for claim in claims {
        facts = facts
            .saturating_add(claim.facts.len())
            .saturating_add(claim.accesses.len());
    }
    facts
}
