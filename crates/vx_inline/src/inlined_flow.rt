// Calls inlined one after the other, until no site is left.

ghost use Rattle.std.specs.Prelude.{◌≡◌, ◌≤◌, true, map, IfOk, Some, slice_get};
ghost use Rattle.vx_ast.specs.Accepted.{is_accepted};
ghost use Rattle.vx_ast.specs.Tree.{Program};
ghost use Rattle.vx_flow.specs.Sound.{SoundFlow};
ghost use Rattle.vx_lower.specs.FlowOf.{FlowOf};
ghost use Rattle.vx_inline.specs.CallPlaces.{ListsCalls};
ghost use Rattle.vx_inline.specs.Choosing.{Chosen, IsCandidate};
ghost use Rattle.vx_inline.specs.Inlined.{Inlined, Permitted};
ghost use Rattle.vx_inline.specs.Inlining.{banks_of};
ghost use Rattle.vx_inline.specs.Keeping.{KeepsSite, Knows};
ghost use Rattle.vx_inline.specs.Repeating.{InlinesAll};
ghost use Rattle.vx_inline.specs.declared.site.Site.{Site};

use crate::call_lists::{calls_next, calls_of};
use crate::choice::{Asked, chosen};
use crate::found_call::find;
use crate::inlining::with_live;
use crate::known::{Known, known_next, known_of};
use crate::marks::is_marked;
use crate::passing::keeps_known;
use crate::site::Site;
use std::alloc::Global;
use vx_base::listed::Listed;
use vx_base::outcome::NoMemory;
use vx_flow::graph::{BlockId, Flow};
use vx_flow::live_rows::Live;
use vx_profile::counts::Counts;

/// A flow, what is known of it, and the blocks of each function that call.
#[derive(Drop)]
struct State {
    flow: Flow,
    known: Known,
    calls: Vec<Listed<BlockId>>,
}

/// The flow with the call inlined that is chosen, and so on until none is chosen. Each step removes a call. The counts are read by
/// the numbers that blocks have at that moment. What is known of the flow goes from step to step, so that little of it is looked
/// for again.
#[tactic(auto, using(crate::proofs::Stepping::kept_first, crate::proofs::Stepping::kept_last, crate::proofs::Stepping::less_calls, crate::proofs::Stepping::chosen_permitted))]
pub fn inlined_all(alloc: Global, flow: Flow, counts: &Counts, most: u32) -> Result<Flow, NoMemory>
    requires sound { SoundFlow flow }
    ensures stays { IfOk result (λ new. (p : Program) → is_accepted p ≡ true → FlowOf p flow → FlowOf p new) }
    ensures sound { IfOk result (λ new. SoundFlow new) }
    ensures banks { IfOk result (λ new. banks_of new ≡ banks_of flow) }
    ensures all { IfOk result (λ new. InlinesAll counts.now most flow new) }
    ensures none { IfOk result (λ new. (site : Site) → IsCandidate new most site → ⊥) }
{
    let mut now = first_state(alloc, flow)?;
    'sites: loop {
        match site_in(alloc, &now, counts, most)? {
            Some(site) => now = next_state(alloc, now, site)?,
            None => return Ok(flow_of(now)),
        }
    }
}

fn first_state(alloc: Global, flow: Flow) -> Result<State, NoMemory>
    ensures flow { IfOk result (λ state. state.flow ≡ flow) }
    ensures known { IfOk result (λ state. Knows flow state.known) }
    ensures calls { IfOk result (λ state. ListsCalls flow state.calls.items) }
{
    let known = known_of(alloc, &flow)?;
    let calls = calls_of(alloc, &flow)?;
    Ok(State { flow, known, calls })
}

fn flow_of(state: State) -> Flow
    ensures { result ≡ state.flow }
{
    let State { flow, known, calls } = state;
    drop(known);
    drop(calls);
    flow
}

/// The site that is chosen.
fn site_in(
    alloc: Global,
    state: &State,
    counts: &Counts,
    most: u32,
) -> Result<Option<Site>, NoMemory>
    requires known { Knows state.now.flow state.now.known }
    requires calls { ListsCalls state.now.flow state.now.calls.items }
    ensures chosen { IfOk result (λ site. Chosen state.now.flow counts.now most site) }
{
    let asked = Asked {
        flow: &state.flow,
        known: &state.known,
        calls: &state.calls,
        counts,
        most,
    };
    chosen(alloc, &asked)
}

/// The flow with the call of a permitted site inlined, and what is known of it.
fn next_state(alloc: Global, state: State, site: Site) -> Result<State, NoMemory>
    requires sound { SoundFlow state.flow }
    requires permitted { Permitted state.flow site }
    requires known { Knows state.flow state.known }
    requires calls { ListsCalls state.flow state.calls.items }
    ensures inlined { IfOk result (λ new. Inlined state.flow site new.flow) }
    ensures known { IfOk result (λ new. Knows new.flow new.known) }
    ensures calls { IfOk result (λ new. ListsCalls new.flow new.calls.items) }
{
    let State { flow, known, calls } = state;
    let stays = keeps_site(alloc, &flow, &site)?;
    let new = flow_with(alloc, flow, &known, site)?;
    let known = known_next(alloc, known, stays, site.function, &new)?;
    let calls = calls_next(alloc, calls, site.function, &new)?;
    Ok(State {
        flow: new,
        known,
        calls,
    })
}

/// Whether what is live behind the calls of the caller surely stays as it is.
fn keeps_site(alloc: Global, flow: &Flow, site: &Site) -> Result<bool, NoMemory>
    ensures { IfOk result (λ keeps. keeps ≡ true → KeepsSite flow.now site.now) }
{
    match find(flow, site) {
        Some(found) => keeps_known(alloc, &found),
        None => Ok(false),
    }
}

/// The flow with the call inlined, by what is known.
fn flow_with(alloc: Global, flow: Flow, known: &Known, site: Site) -> Result<Flow, NoMemory>
    requires permitted { Permitted flow site }
    requires known { Knows flow known.now }
    ensures inlined { IfOk result (λ new. Inlined flow site new) }
{
    match known.live.as_slice().get(site.function as usize) {
        Some(live) => flow_by(alloc, flow, known, site, live),
        None => Err(NoMemory),
    }
}

fn flow_by(
    alloc: Global,
    flow: Flow,
    known: &Known,
    site: Site,
    live: &Live,
) -> Result<Flow, NoMemory>
    requires permitted { Permitted flow site }
    requires known { Knows flow known.now }
    requires live { slice_get known.now.live.items site.function ≡ Some live.now }
    ensures inlined { IfOk result (λ new. Inlined flow site new) }
{
    let bare = is_marked(known.bare.as_slice(), site.function);
    with_live(alloc, flow, site, live, bare)
}
