// The blocks of each function that end by a call, so that no step looks at others for its site.

ghost use Rattle.std.specs.Prelude.{◌≡◌, ◌++◌, ◌∷◌, [], IfOk, Some, map, slice_get, slice_set};
ghost use Rattle.vx_flow.specs.declared.graph.Flow.{Flow};
ghost use Rattle.vx_inline.specs.CallPlaces.{ListsCalls, call_place, call_places, calling_blocks};
ghost use Rattle.vx_inline.specs.Inlined.{Inlined};
ghost use Rattle.vx_inline.specs.declared.site.Site.{Site};

use crate::fitting::is_calling;
use std::alloc::Global;
use vx_base::listed::Listed;
use vx_base::outcome::NoMemory;
use vx_base::sizes::number_of;
use vx_flow::graph::{Block, BlockId, Flow, Graph};

/// The blocks of each function that call.
pub(crate) fn calls_of(alloc: Global, flow: &Flow) -> Result<Vec<Listed<BlockId>>, NoMemory>
    ensures { IfOk result (λ calls. ListsCalls flow.now calls.items) }
{
    calls_in(alloc, flow.functions.as_slice())
}

fn calls_in(alloc: Global, functions: &[Graph]) -> Result<Vec<Listed<BlockId>>, NoMemory>
    ensures { IfOk result (λ calls. calls.items ≡ map calling_blocks functions.now) }
{
    let mut calls = Vec::new(alloc);
    for graph in functions {
        push_calls(alloc, &mut calls, graph)?;
    }
    Ok(calls)
}

fn push_calls(
    alloc: Global,
    calls: &mut Vec<Listed<BlockId>>,
    graph: &Graph,
) -> Result<(), NoMemory>
    ensures { IfOk result (λ _. calls.new.items ≡ calls.old.items ++ map calling_blocks (graph.now ∷ [])) }
{
    let own = calling_blocks(alloc, graph)?;
    calls.push(own)?;
    Ok(())
}

fn calling_blocks(alloc: Global, graph: &Graph) -> Result<Listed<BlockId>, NoMemory>
    ensures { IfOk result (λ calls. calls ≡ calling_blocks graph.now) }
{
    places_in(alloc, graph.blocks.as_slice())
}

#[tactic(auto, using(crate::proofs::Calling::places_next))]
fn places_in(alloc: Global, blocks: &[Block]) -> Result<Listed<BlockId>, NoMemory>
    ensures { IfOk result (λ calls. calls ≡ call_places 0 blocks.now) }
{
    let mut calls = Listed::new(alloc);
    for (place, block) in blocks.iter().enumerate() {
        let place = number_of(place)?;
        push_place(&mut calls, place, block)?;
    }
    Ok(calls)
}

fn push_place(calls: &mut Listed<BlockId>, place: BlockId, block: &Block) -> Result<(), NoMemory>
    ensures { IfOk result (λ _. calls.new ≡ calls.old ++ call_place place block.now) }
{
    if is_calling(block) {
        calls.push(place)?;
    }
    Ok(())
}

/// The same of a flow in which a call of a function is inlined: only the function is looked through again.
pub(crate) fn calls_next(
    alloc: Global,
    calls: Vec<Listed<BlockId>>,
    function: u32,
    new: &Flow,
) -> Result<Vec<Listed<BlockId>>, NoMemory>
    ensures { IfOk result (λ next. (flow : Flow) (site : Site) → Inlined flow site new.now → site.function ≡ function → ListsCalls flow calls.items → ListsCalls new.now next.items) }
{
    match new.functions.as_slice().get(function as usize) {
        Some(graph) => calls_for(alloc, calls, function, new, graph),
        None => Err(NoMemory),
    }
}

#[tactic(auto, using(crate::proofs::Calling::calls_anew))]
fn calls_for(
    alloc: Global,
    calls: Vec<Listed<BlockId>>,
    function: u32,
    new: &Flow,
    graph: &Graph,
) -> Result<Vec<Listed<BlockId>>, NoMemory>
    requires { slice_get new.now.functions function ≡ Some graph.now }
    ensures { IfOk result (λ next. (flow : Flow) (site : Site) → Inlined flow site new.now → site.function ≡ function → ListsCalls flow calls.items → ListsCalls new.now next.items) }
{
    let _new = new;
    let own = calling_blocks(alloc, graph)?;
    Ok(with_calls(calls, function, own))
}

/// With the blocks that call of one function.
fn with_calls(
    mut calls: Vec<Listed<BlockId>>,
    function: u32,
    own: Listed<BlockId>,
) -> Vec<Listed<BlockId>>
    ensures { result.items ≡ slice_set calls.items function own }
{
    if (function as usize) < calls.len() {
        calls[function as usize] = own;
    }
    calls
}
