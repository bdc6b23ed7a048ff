// Whether what is live behind the calls of a caller stays as it is with a call inlined: the callee reads at its entry no value but
// its parameters, it may return, and the blocks behind the calls of the caller keep their numbers. So it stays without places of arrays
// that are no globals, if the callee makes none.

ghost use Rattle.std.specs.Prelude.{◌≡◌, ◌<◌, ℕ, true, IfOk, get_or, length};
ghost use Rattle.std.specs.List.{list_all};
ghost use Rattle.vx_flow.specs.Effects.{IsIn};
ghost use Rattle.vx_flow.specs.Live.{IsLive};
ghost use Rattle.vx_flow.specs.Sound.{targets_of};
ghost use Rattle.vx_inline.specs.Finding.{seen};
ghost use Rattle.vx_inline.specs.Inlined.{is_among};
ghost use Rattle.vx_inline.specs.Keeping.{KeepsKnown, LeadHere, Passes, Returns, calls_below, calls_stay, front_of, is_return, returns_below};
ghost use Rattle.vx_inline.specs.Values.{marked_all};

use crate::bare::is_bare;
use crate::found_call::FoundCall;
use crate::marks::{is_marked_at, mark, unmarked};
use crate::places::is_plain;
use std::alloc::Global;
use vx_base::outcome::NoMemory;
use vx_base::sizes::sum;
use vx_flow::graph::{Block, Exit, Graph, Value};
use vx_flow::live;

/// How often blocks are gone through for one that returns; paths that go back to lower blocks more often are not found.
const ROUNDS: u32 = 64;

/// Whether what is live behind the calls of the caller surely stays as it is, with the call inlined.
pub(crate) fn keeps_known(alloc: Global, found: &FoundCall) -> Result<bool, NoMemory>
    ensures { IfOk result (λ keeps. keeps ≡ true → KeepsKnown (seen found.now)) }
{
    let arrays = found.caller.arrays.as_slice();
    if !is_bare(arrays, found.callee.blocks.as_slice()) {
        return Ok(false);
    }
    if calls_stay(found.caller.blocks.as_slice())? {
        passes(alloc, found.callee)
    } else {
        Ok(false)
    }
}

/// Whether each call returns to a block before the first trap block.
fn calls_stay(blocks: &[Block]) -> Result<bool, NoMemory>
    ensures { IfOk result (λ stay. stay ≡ calls_stay blocks.now) }
{
    Ok(calls_below(front_of(blocks)?, blocks))
}

fn calls_below(front: u32, blocks: &[Block]) -> bool
    ensures { result ≡ calls_below front blocks.now }
{
    for block in blocks {
        if !returns_below(front, &block.exit) {
            return false;
        }
    }
    true
}

/// How many blocks come before the first trap block.
#[tactic(auto, using(crate::proofs::KnownStays::front_next, crate::proofs::KnownStays::front_stops))]
fn front_of(blocks: &[Block]) -> Result<u32, NoMemory>
    ensures { IfOk result (λ front. front ≡ front_of blocks.now) }
{
    let mut front = 0;
    for block in blocks {
        if !is_plain(block) {
            return Ok(front);
        }
        front = sum(front, 1)?;
    }
    Ok(front)
}

fn returns_below(front: u32, exit: &Exit) -> bool
    ensures { result ≡ returns_below front exit.now }
{
    match exit {
        Exit::Call { next, .. } => *next < front,
        Exit::Goto(_) | Exit::Split { .. } | Exit::Return(_) | Exit::Ends(_) => true,
    }
}

/// Whether a callee surely reads no value at its entry but its parameters, and may return.
fn passes(alloc: Global, callee: &Graph) -> Result<bool, NoMemory>
    ensures { IfOk result (λ passes. passes ≡ true → Passes callee.now) }
{
    if returns(alloc, callee)? {
        is_closed(alloc, callee)
    } else {
        Ok(false)
    }
}

/// Whether only parameters are live at the entry.
#[tactic(auto, using(crate::proofs::PassingSteps::closed_by))]
fn is_closed(alloc: Global, graph: &Graph) -> Result<bool, NoMemory>
    ensures { IfOk result (λ closed. closed ≡ true → (v : ℕ) → IsLive graph.now 0 v → IsIn v graph.now.parameters) }
{
    let live = live(alloc, graph)?;
    Ok(are_among(graph.parameters.as_slice(), live.values_at(0)))
}

fn are_among(values: &[Value], tested: &[Value]) -> bool
    ensures { result ≡ list_all (λ v. is_among values.now v) tested.now }
{
    for value in tested {
        if !is_among(values, *value) {
            return false;
        }
    }
    true
}

fn is_among(values: &[Value], value: Value) -> bool
    ensures { result ≡ is_among values.now value }
{
    for other in values {
        if *other == value {
            return true;
        }
    }
    false
}

/// Whether some path from the entry surely comes to a return: blocks to which paths from the entry lead are marked.
#[tactic(auto, using(crate::proofs::PassingSteps::lead_first))]
fn returns(alloc: Global, graph: &Graph) -> Result<bool, NoMemory>
    ensures { IfOk result (λ returns. returns ≡ true → Returns graph.now 0) }
{
    let mut marks = unmarked(alloc, graph.blocks.len())?;
    mark(&mut marks, 0);
    for _ in 0..ROUNDS {
        if finds_return(graph, &mut marks) {
            return Ok(true);
        }
    }
    Ok(false)
}

/// Marks on from the blocks that are marked, until one of them returns.
fn finds_return(graph: &Graph, marks: &mut Vec<bool>) -> bool
    requires { LeadHere graph.now marks.old.items }
    ensures found { result ≡ true → Returns graph.now 0 }
    ensures marks { LeadHere graph.now marks.new.items }
{
    for (index, block) in graph.blocks.as_slice().iter().enumerate() {
        if finds_at(graph, marks, index, block) {
            return true;
        }
    }
    false
}

/// Marks on from a block, if it is marked; whether it returns then.
#[tactic(auto, using(crate::proofs::PassingSteps::marked_on, crate::proofs::PassingSteps::returns_here))]
fn finds_at(graph: &Graph, marks: &mut Vec<bool>, index: usize, block: &Block) -> bool
    requires lead { LeadHere graph.now marks.old.items }
    requires low { index < length graph.now.blocks }
    requires block { block.now ≡ get_or graph.now.blocks index block.now }
    ensures found { result ≡ true → Returns graph.now 0 }
    ensures marks { LeadHere graph.now marks.new.items }
{
    if !is_marked_at(marks.as_slice(), index) {
        return false;
    }
    mark_targets(marks, &block.exit);
    is_return(&block.exit)
}

fn is_return(exit: &Exit) -> bool
    ensures { result ≡ is_return exit.now }
{
    match exit {
        Exit::Return(_) => true,
        Exit::Goto(_) | Exit::Split { .. } | Exit::Call { .. } | Exit::Ends(_) => false,
    }
}

/// Marks the blocks to which an exit leads.
fn mark_targets(marks: &mut Vec<bool>, exit: &Exit)
    ensures { marks.new.items ≡ marked_all (targets_of exit.now) marks.old.items }
{
    match exit {
        Exit::Goto(next) => mark(marks, *next),
        Exit::Split { yes, no, .. } => {
            mark(marks, *yes);
            mark(marks, *no);
        }
        Exit::Call { next, .. } => mark(marks, *next),
        Exit::Return(_) | Exit::Ends(_) => {}
    }
}
