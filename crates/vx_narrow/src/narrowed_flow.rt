// The graphs of a program without splits whose answer is known. For each graph claims at the starts of its blocks are looked
// for and checked, with what all calls give of its parameters; where a call or a graph does not pass, nothing is given of parameters.
// A graph that does not pass then is narrowed by what is known inside of each block, and a flow that would not be sound stays as it
// is.

ghost use Rattle.std.specs.Prelude.{◌≡◌, true, length, nat_le, IfOk, IfSome};
ghost use Rattle.vx_ast.specs.Tree.{Program};
ghost use Rattle.vx_flow.specs.Sound.{is_sound_flow};
ghost use Rattle.vx_lower.specs.FlowOf.{FlowOf};
ghost use Rattle.vx_narrow.specs.Rewriting.{narrowed_from};
ghost use Rattle.vx_narrow.specs.Narrowing.{are_blocks_checked, are_numbers, GraphNarrowed, GraphsNarrowed, NarrowedWith};
ghost use Rattle.vx_claims.specs.Claims.{listed_claims};
ghost use Rattle.vx_narrow.specs.Checking.{listed_given, most_arrays};
ghost use Rattle.vx_shape.specs.Flows.{FlowStays};

use crate::block_pass::narrowed_block;
use crate::checks::{MOST_ARRAYS, is_number};
use crate::given::{given_of, is_entry_checked};
use std::alloc::Global;
use vx_base::listed::Listed;
use vx_base::outcome::NoMemory;
use vx_claims::claim::Claim;
use vx_claims::intervals::Interval;
use vx_flow::copies::with_blocks;
use vx_flow::graph::{Array, Block, Flow, Global as Variable, Graph};
use vx_search::{Kept, find_claims, find_given};
use vx_shape::copies::with_graphs;
use vx_sound::is_sound;

/// How many sweeps give back what is taken too much.
const ROUNDS: u32 = 2;

/// The graphs of a program without splits whose answer is known: such a split is a jump. An operation whose result stands in a
/// value already is a move of that value, and what was moved is read where it was moved from. A product of an operand that is below
/// 2 ^ 16, or a power of 2, is one operation in place of the last of its three.
pub fn narrow(alloc: Global, flow: Flow) -> Result<Flow, NoMemory>
    requires { is_sound_flow flow ≡ true }
    ensures sound { IfOk result (λ narrowed. is_sound_flow narrowed ≡ true) }
    ensures flow { IfOk result (λ narrowed. (p : Program) → FlowOf p flow → FlowOf p narrowed) }
{
    match narrowed_flow(alloc, &flow) {
        Ok(Some(narrowed)) => {
            drop(flow);
            Ok(narrowed)
        }
        Ok(None) => Ok(flow),
        Err(error) => {
            drop(flow);
            Err(error)
        }
    }
}

/// The same by what is known inside of each block alone, without a search: what passes that move operations between blocks leave twice
/// in one is made once.
pub fn narrow_inside(alloc: Global, flow: Flow) -> Result<Flow, NoMemory>
    requires { is_sound_flow flow ≡ true }
    ensures sound { IfOk result (λ narrowed. is_sound_flow narrowed ≡ true) }
    ensures flow { IfOk result (λ narrowed. (p : Program) → FlowOf p flow → FlowOf p narrowed) }
{
    match narrowed_inside(alloc, &flow) {
        Ok(Some(narrowed)) => {
            drop(flow);
            Ok(narrowed)
        }
        Ok(None) => Ok(flow),
        Err(error) => {
            drop(flow);
            Err(error)
        }
    }
}

/// The flow with its graphs narrowed inside of blocks, where it is sound.
fn narrowed_inside(alloc: Global, flow: &Flow) -> Result<Option<Flow>, NoMemory>
    ensures sound { IfOk result (λ found. IfSome found (λ narrowed. is_sound_flow narrowed ≡ true)) }
    ensures flow { IfOk result (λ found. IfSome found (λ narrowed. FlowStays flow.now narrowed)) }
{
    if !are_numbers(flow.globals.as_slice()) {
        return Ok(None);
    }
    let kept = without_claims(alloc, flow.functions.len())?;
    let narrowed = narrowed_with_given(alloc, flow, &[], kept.as_slice());
    drop(kept);
    narrowed
}

/// For so many functions, that nothing is claimed.
fn without_claims(alloc: Global, functions: usize) -> Result<Listed<Kept>, NoMemory> {
    let mut kept = Listed::new(alloc);
    for _function in 0..functions {
        kept.push(Kept {
            claims: Vec::new(alloc),
            is_kept: true,
        })?;
    }
    Ok(kept)
}

/// The flow with its graphs narrowed, where it is sound.
fn narrowed_flow(alloc: Global, flow: &Flow) -> Result<Option<Flow>, NoMemory>
    ensures sound { IfOk result (λ found. IfSome found (λ narrowed. is_sound_flow narrowed ≡ true)) }
    ensures flow { IfOk result (λ found. IfSome found (λ narrowed. FlowStays flow.now narrowed)) }
{
    if !are_numbers(flow.globals.as_slice()) {
        return Ok(None);
    }
    let found = find_given(alloc, flow.functions.as_slice(), ROUNDS)?;
    let by_found = narrowed_with_given(alloc, flow, found.given.as_slice(), found.kept.as_slice());
    drop(found);
    match by_found? {
        Some(narrowed) => Ok(Some(narrowed)),
        None => narrowed_with_given(alloc, flow, &[], &[]),
    }
}

/// The graphs narrowed by what is found of them, and of their parameters, where they pass with that.
pub fn narrowed_functions(
    alloc: Global,
    graphs: &[Graph],
) -> Result<Option<Listed<Graph>>, NoMemory>
    ensures { IfOk result (λ found. IfSome found (λ made. GraphsNarrowed graphs.now made)) }
{
    let found = find_given(alloc, graphs, ROUNDS)?;
    let narrowed = narrowed_graphs(alloc, found.given.as_slice(), found.kept.as_slice(), graphs);
    drop(found);
    narrowed
}

/// The flow with its graphs narrowed by what is given of the parameters, where every call passes it and the flow is sound.
fn narrowed_with_given(
    alloc: Global,
    flow: &Flow,
    given: &[Listed<Interval>],
    kept: &[Kept],
) -> Result<Option<Flow>, NoMemory>
    requires numbers { are_numbers flow.now.globals ≡ true }
    ensures sound { IfOk result (λ found. IfSome found (λ narrowed. is_sound_flow narrowed ≡ true)) }
    ensures flow { IfOk result (λ found. IfSome found (λ narrowed. FlowStays flow.now narrowed)) }
{
    match narrowed_graphs(alloc, given, kept, flow.functions.as_slice())? {
        Some(functions) => with_sound_graphs(alloc, flow, functions),
        None => Ok(None),
    }
}

/// Whether each first number has 32 bits.
pub fn are_numbers(globals: &[Variable]) -> bool
    ensures { result ≡ are_numbers globals.now }
{
    for global in globals {
        if !is_number(global.first) {
            return false;
        }
    }
    true
}

/// The flow with other graphs, where it is sound.
fn with_sound_graphs(
    alloc: Global,
    flow: &Flow,
    functions: Listed<Graph>,
) -> Result<Option<Flow>, NoMemory>
    requires graphs { GraphsNarrowed flow.now.functions functions }
    requires numbers { are_numbers flow.now.globals ≡ true }
    ensures sound { IfOk result (λ found. IfSome found (λ narrowed. is_sound_flow narrowed ≡ true)) }
    ensures flow { IfOk result (λ found. IfSome found (λ narrowed. FlowStays flow.now narrowed)) }
{
    let narrowed = with_graphs(alloc, flow, functions)?;
    match is_sound(alloc, &narrowed) {
        Ok(true) => Ok(Some(narrowed)),
        Ok(false) => {
            drop(narrowed);
            Ok(None)
        }
        Err(error) => {
            drop(narrowed);
            Err(error)
        }
    }
}

/// The graphs narrowed one by one.
fn narrowed_graphs(
    alloc: Global,
    given: &[Listed<Interval>],
    kept: &[Kept],
    graphs: &[Graph],
) -> Result<Option<Listed<Graph>>, NoMemory>
    ensures { IfOk result (λ found. IfSome found (λ made. NarrowedWith (listed_given given.now) 0 graphs.now made)) }
{
    let mut made = Listed::new(alloc);
    for (function, graph) in graphs.iter().enumerate() {
        match narrowed_as_kept(alloc, given, kept, function, graph)? {
            Some(narrowed) => made.push(narrowed)?,
            None => return Ok(None),
        }
    }
    Ok(Some(made))
}

/// The graph narrowed by the claims that are kept for it, where it passes with them, else by those that are found anew.
fn narrowed_as_kept(
    alloc: Global,
    given: &[Listed<Interval>],
    kept: &[Kept],
    function: usize,
    graph: &Graph,
) -> Result<Option<Graph>, NoMemory>
    ensures { IfOk result (λ found. IfSome found (λ made. GraphNarrowed (listed_given given.now) function graph.now made)) }
{
    match narrowed_by_kept(alloc, given, kept, function, graph)? {
        Some(narrowed) => Ok(Some(narrowed)),
        None => narrowed_graph(alloc, given, function, graph),
    }
}

fn narrowed_by_kept(
    alloc: Global,
    given: &[Listed<Interval>],
    kept: &[Kept],
    function: usize,
    graph: &Graph,
) -> Result<Option<Graph>, NoMemory>
    ensures { IfOk result (λ found. IfSome found (λ made. GraphNarrowed (listed_given given.now) function graph.now made)) }
{
    match kept.get(function) {
        Some(found) => {
            if found.is_kept {
                narrowed_by(alloc, given, function, found.claims.as_slice(), graph)
            } else {
                Ok(None)
            }
        }
        None => Ok(None),
    }
}

/// The graph narrowed by the claims that are found for it: by those of blocks with several ways in too, where it passes with them;
/// else by those that blocks with one way in take over, else by none.
fn narrowed_graph(
    alloc: Global,
    given: &[Listed<Interval>],
    function: usize,
    graph: &Graph,
) -> Result<Option<Graph>, NoMemory>
    ensures { IfOk result (λ found. IfSome found (λ made. GraphNarrowed (listed_given given.now) function graph.now made)) }
{
    match narrowed_with(alloc, given, function, graph, true)? {
        Some(narrowed) => Ok(Some(narrowed)),
        None => match narrowed_with(alloc, given, function, graph, false)? {
            Some(narrowed) => Ok(Some(narrowed)),
            None => narrowed_by(alloc, given, function, &[], graph),
        },
    }
}

/// The graph narrowed by the claims that are found, where those of blocks with several ways in are wanted or not.
fn narrowed_with(
    alloc: Global,
    given: &[Listed<Interval>],
    function: usize,
    graph: &Graph,
    joins: bool,
) -> Result<Option<Graph>, NoMemory>
    ensures { IfOk result (λ found. IfSome found (λ made. GraphNarrowed (listed_given given.now) function graph.now made)) }
{
    match narrowed_after(alloc, given, function, graph, ROUNDS, joins)? {
        Some(narrowed) => Ok(Some(narrowed)),
        None => narrowed_after(alloc, given, function, graph, 0, joins),
    }
}

/// The graph narrowed by the claims that are found with so many sweeps that give back.
fn narrowed_after(
    alloc: Global,
    given: &[Listed<Interval>],
    function: usize,
    graph: &Graph,
    rounds: u32,
    joins: bool,
) -> Result<Option<Graph>, NoMemory>
    ensures { IfOk result (λ found. IfSome found (λ made. GraphNarrowed (listed_given given.now) function graph.now made)) }
{
    let claims = find_claims(alloc, graph, given_of(given, function), rounds, joins)?;
    narrowed_by(alloc, given, function, claims.as_slice(), graph)
}

/// The graph of a function narrowed by a table of claims, where its entry and its blocks pass.
fn narrowed_by(
    alloc: Global,
    given: &[Listed<Interval>],
    function: usize,
    table: &[Claim],
    graph: &Graph,
) -> Result<Option<Graph>, NoMemory>
    ensures { IfOk result (λ found. IfSome found (λ made. GraphNarrowed (listed_given given.now) function graph.now made)) }
{
    if !has_few_arrays(graph) {
        return Ok(None);
    }
    if !is_entry_checked(alloc, given, function, graph, table)? {
        return Ok(None);
    }
    match narrowed_blocks(
        alloc,
        graph.arrays.as_slice(),
        given,
        table,
        graph.blocks.as_slice(),
    )? {
        Some(blocks) => {
            let narrowed = with_blocks(alloc, graph, blocks)?;
            Ok(Some(narrowed))
        }
        None => Ok(None),
    }
}

/// Whether a function has so few arrays that where each array of a run stands is a number of 32 bits.
#[tactic(auto, unfolding(crate::specs::Checking::most_arrays))]
fn has_few_arrays(graph: &Graph) -> bool
    ensures { result ≡ nat_le (length graph.now.arrays) most_arrays }
{
    graph.arrays.len() <= MOST_ARRAYS as usize
}

/// The blocks of a function with these arrays narrowed, where all pass.
fn narrowed_blocks(
    alloc: Global,
    arrays: &[Array],
    given: &[Listed<Interval>],
    table: &[Claim],
    blocks: &[Block],
) -> Result<Option<Listed<Block>>, NoMemory>
    ensures narrowed { IfOk result (λ found. IfSome found (λ made. made ≡ narrowed_from arrays.now (listed_claims table.now) 0 blocks.now)) }
    ensures checked { IfOk result (λ found. IfSome found (λ _. are_blocks_checked arrays.now (listed_given given.now) (listed_claims table.now) 0 blocks.now ≡ true)) }
{
    let mut made = Listed::new(alloc);
    for (place, block) in blocks.iter().enumerate() {
        match narrowed_block(alloc, arrays, given, table, place, block)? {
            Some(narrowed) => made.push(narrowed)?,
            None => return Ok(None),
        }
    }
    Ok(Some(made))
}
