// What is known of a flow while its calls are inlined, so that no step looks again for what it does not change.

ghost use Rattle.std.specs.Prelude.{◌≡◌, ◌↔◌, ◌<◌, ◌+◌, ◌++◌, ◌∷◌, ℕ, true, [], IfOk, IsTrue, Some, drop, get_or, length, map, slice_get, slice_set};
ghost use Rattle.vx_flow.specs.declared.graph.Flow.{Flow};
ghost use Rattle.vx_flow.specs.declared.graph.Graph.{Graph};
ghost use Rattle.vx_flow.specs.Rows.{lives};
ghost use Rattle.vx_flow.specs.Sound.{SoundFlow};
ghost use Rattle.vx_inline.specs.Inlined.{Inlined, Reaches};
ghost use Rattle.vx_inline.specs.Keeping.{KeepsSite, Knows, KnowsApart, KnowsBehind, LiveFor, NextKnown};
ghost use Rattle.vx_inline.specs.Values.{is_bare};
ghost use Rattle.vx_inline.specs.declared.site.Site.{Site};

use crate::bare::is_bare;
use crate::called::reached;
use crate::fitting::calls_nothing;
use crate::permission::stands_by;
use std::alloc::Global;
use vx_base::outcome::NoMemory;
use vx_base::sizes::number_of;
use vx_flow::graph::{Flow, Graph};
use vx_flow::live;
use vx_flow::live_rows::Live;

/// What is known of a flow, function by function.
#[derive(Drop)]
pub struct Known {
    /// Whether the function is on no cycle of calls, and no function on one reaches it.
    pub apart: Vec<bool>,
    /// The values that are live at the blocks to which its calls return; other rows tell nothing.
    pub live: Vec<Live>,
    /// Whether the function surely makes no place of an array that is no global, and no base.
    pub bare: Vec<bool>,
}

/// What is known of a flow, looked for from nothing.
pub(crate) fn known_of(alloc: Global, flow: &Flow) -> Result<Known, NoMemory>
    ensures { IfOk result (λ known. Knows flow.now known) }
{
    let apart = apart_of(alloc, flow)?;
    let live = live_of(alloc, flow.functions.as_slice())?;
    let bare = bare_of(alloc, flow.functions.as_slice())?;
    Ok(Known { apart, live, bare })
}

/// Which functions make no place of an array that is no global, and no base.
fn bare_of(alloc: Global, functions: &[Graph]) -> Result<Vec<bool>, NoMemory>
    ensures { IfOk result (λ bare. bare.items ≡ map (λ (g : Graph). is_bare g.arrays g.blocks) functions.now) }
{
    let mut bare = Vec::new(alloc);
    for graph in functions {
        bare.push(is_bare_in(graph))?;
    }
    Ok(bare)
}

fn is_bare_in(graph: &Graph) -> bool
    ensures { result ≡ is_bare graph.now.arrays graph.now.blocks }
{
    is_bare(graph.arrays.as_slice(), graph.blocks.as_slice())
}

/// Which functions are on no cycle of calls and reached by none on one.
fn apart_of(alloc: Global, flow: &Flow) -> Result<Vec<bool>, NoMemory>
    ensures { IfOk result (λ apart. KnowsApart flow.now apart.items) }
{
    let count = number_of(flow.functions.len())?;
    let reached = reached(alloc, flow)?;
    apart_by(alloc, flow, &reached, count)
}

#[tactic(auto, using(crate::proofs::KnownStays::apart_first, crate::proofs::KnownStays::apart_next))]
fn apart_by(alloc: Global, flow: &Flow, reached: &Live, count: u32) -> Result<Vec<bool>, NoMemory>
    requires reached { (f g : ℕ) → IsTrue (lives reached.now f g) ↔ Reaches flow.now f g }
    requires count { count ≡ length flow.now.functions }
    ensures { IfOk result (λ apart. KnowsApart flow.now apart.items) }
{
    let mut apart = Vec::new(alloc);
    for function in 0..count {
        apart.push(stands_by(flow, reached, count, function))?;
    }
    Ok(apart)
}

/// What is live behind the calls of each function.
#[tactic(auto, using(crate::proofs::KnownStays::live_first, crate::proofs::KnownStays::live_done))]
fn live_of(alloc: Global, functions: &[Graph]) -> Result<Vec<Live>, NoMemory>
    ensures { IfOk result (λ live. LiveFor functions.now live.items []) }
{
    let mut lives = Vec::new(alloc);
    for (place, graph) in functions.iter().enumerate() {
        push_live(alloc, &mut lives, functions, place, graph)?;
    }
    Ok(lives)
}

fn push_live(
    alloc: Global,
    lives: &mut Vec<Live>,
    functions: &[Graph],
    place: usize,
    graph: &Graph,
) -> Result<(), NoMemory>
    requires low { place < length functions.now }
    requires graph { graph.now ≡ get_or functions.now place graph.now }
    requires before { LiveFor functions.now lives.old.items (drop place functions.now) }
    ensures { IfOk result (λ _. LiveFor functions.now lives.new.items (drop (place + 1) functions.now)) }
{
    let _functions = functions;
    let live = live_behind(alloc, graph)?;
    lives.push(live)?;
    Ok(())
}

/// What is live behind the calls of a function.
fn live_behind(alloc: Global, graph: &Graph) -> Result<Live, NoMemory>
    ensures { IfOk result (λ live. KnowsBehind graph.now live) }
{
    if calls_nothing(graph.blocks.as_slice()) {
        Ok(Live::nowhere(alloc))
    } else {
        live(alloc, graph)
    }
}

/// What is known of a flow in which a call of a function is inlined, by what was known before: if what is live behind the calls of
/// the function may be other, it is looked for again.
pub(crate) fn known_next(
    alloc: Global,
    known: Known,
    stays: bool,
    function: u32,
    new: &Flow,
) -> Result<Known, NoMemory>
    ensures { IfOk result (λ next. (flow : Flow) (site : Site) → Inlined flow site new.now → SoundFlow flow → site.function ≡ function → (stays ≡ true → KeepsSite flow site) → Knows flow known → Knows new.now next) }
{
    if stays {
        Ok(known)
    } else {
        anew(alloc, known, function, new)
    }
}

fn anew(alloc: Global, known: Known, function: u32, new: &Flow) -> Result<Known, NoMemory>
    ensures { IfOk result (λ next. NextKnown new.now function known next) }
{
    match new.functions.as_slice().get(function as usize) {
        Some(graph) => anew_for(alloc, known, function, new, graph),
        None => Err(NoMemory),
    }
}

fn anew_for(
    alloc: Global,
    known: Known,
    function: u32,
    new: &Flow,
    graph: &Graph,
) -> Result<Known, NoMemory>
    requires { slice_get new.now.functions function ≡ Some graph.now }
    ensures { IfOk result (λ next. NextKnown new.now function known next) }
{
    let live = live_behind(alloc, graph)?;
    Ok(with_live(known, function, live, is_bare_in(graph)))
}

/// With what is live behind the calls of one function, and whether it is bare.
fn with_live(known: Known, function: u32, live: Live, bare: bool) -> Known
    ensures apart { result.apart ≡ known.apart }
    ensures live { result.live.items ≡ slice_set known.live.items function live }
    ensures bare { result.bare.items ≡ slice_set known.bare.items function bare }
{
    let Known {
        apart,
        live: mut lives,
        bare: mut bares,
    } = known;
    if (function as usize) < lives.len() {
        lives[function as usize] = live;
    }
    if (function as usize) < bares.len() {
        bares[function as usize] = bare;
    }
    Known {
        apart,
        live: lives,
        bare: bares,
    }
}
