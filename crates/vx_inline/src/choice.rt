// The site whose call is inlined next.

ghost use Rattle.std.specs.Prelude.{◌≡◌, ◌+◌, ◌<◌, ◌↔◌, ℕ, true, false, IfOk, IsTrue, Some, is_some, length, slice_get};
ghost use Rattle.std.specs.Option.{option_map};
ghost use Rattle.vx_flow.specs.Rows.{is_marked};
ghost use Rattle.vx_flow.specs.Sound.{SoundFlow};
ghost use Rattle.vx_inline.specs.Choosing.{BestBefore, BestOfBlocks, BestOfFunction, BestOfTwo, Chosen, IsCandidate, IsWorthIt, NoneFirst, NoneIsWorthIt, exceeds, is_below, site_of};
ghost use Rattle.vx_inline.specs.CallPlaces.{ListsCalls};
ghost use Rattle.vx_inline.specs.Finding.{call_in, seen};
ghost use Rattle.vx_inline.specs.Keeping.{Knows};
ghost use Rattle.vx_inline.specs.Permitting.{HasEnough, StandsApart};

use crate::call_lists::calls_of;
use crate::fitting::{fits, has_few};
use crate::found_call::{FoundCall, find};
use crate::free_values::has_values;
use crate::known::{Known, known_of};
use crate::marks::is_marked;
use crate::site::Site;
use std::alloc::Global;
use vx_base::listed::Listed;
use vx_base::outcome::NoMemory;
use vx_base::sizes::number_of;
use vx_flow::graph::{BlockId, Flow, Graph};
use vx_flow::live_rows::Live;
use vx_profile::counts::Counts;

/// What is chosen by: the flow, what is known of it, the blocks of each function that call, the counts of its blocks, and the most
/// operations of a callee.
#[derive(Clone, Copy)]
pub struct Asked<'a> {
    pub flow: &'a Flow,
    pub known: &'a Known,
    pub calls: &'a Vec<Listed<BlockId>>,
    pub counts: &'a Counts,
    pub most: u32,
}

/// Among the permitted sites whose callee has at most so many operations, the one whose block has the greatest count; on ties the
/// one of the lowest function, and then the lowest block. None where there is no such site.
pub fn choose(
    alloc: Global,
    flow: &Flow,
    counts: &Counts,
    most: u32,
) -> Result<Option<Site>, NoMemory>
    requires sound { SoundFlow flow.now }
    ensures chosen { IfOk result (λ site. Chosen flow.now counts.now most site) }
{
    let known = known_of(alloc, flow)?;
    let calls = calls_of(alloc, flow)?;
    let asked = Asked {
        flow,
        known: &known,
        calls: &calls,
        counts,
        most,
    };
    chosen(alloc, &asked)
}

/// The site that is chosen by what is known. By what costs little one comes first; if it is permitted, it is the one, so that free
/// values are seldom looked for at another.
#[tactic(auto, using(crate::proofs::Likely::none_chosen))]
pub(crate) fn chosen(alloc: Global, asked: &Asked) -> Result<Option<Site>, NoMemory>
    requires known { Knows asked.now.flow.now asked.now.known.now }
    requires calls { ListsCalls asked.now.flow.now asked.now.calls.now.items }
    ensures chosen { IfOk result (λ site. Chosen asked.now.flow.now asked.now.counts.now asked.now.most site) }
{
    let functions = number_of(asked.flow.functions.len())?;
    match likely(asked, functions) {
        Some(site) => likely_or_best(alloc, asked, functions, site),
        None => Ok(None),
    }
}

/// A site that comes first by what costs little, if it is permitted; else the one that is found among all.
fn likely_or_best(
    alloc: Global,
    asked: &Asked,
    functions: u32,
    site: Site,
) -> Result<Option<Site>, NoMemory>
    requires known { Knows asked.now.flow.now asked.now.known.now }
    requires functions { functions ≡ length asked.now.flow.now.functions }
    requires first { NoneFirst asked.now.flow.now asked.now.counts.now asked.now.most (Some site) }
    ensures { IfOk result (λ chosen. Chosen asked.now.flow.now asked.now.counts.now asked.now.most chosen) }
{
    if is_candidate(alloc, asked, &site)? {
        Ok(Some(site))
    } else {
        best_of_all(alloc, asked, functions)
    }
}

/// The site that is found among all.
#[tactic(auto, using(crate::proofs::Firsts::none_before, crate::proofs::Firsts::chosen_last))]
fn best_of_all(alloc: Global, asked: &Asked, functions: u32) -> Result<Option<Site>, NoMemory>
    requires known { Knows asked.now.flow.now asked.now.known.now }
    requires functions { functions ≡ length asked.now.flow.now.functions }
    ensures { IfOk result (λ chosen. Chosen asked.now.flow.now asked.now.counts.now asked.now.most chosen) }
{
    let mut best = None;
    for function in 0..functions {
        best = best_with(alloc, asked, function, best)?;
    }
    Ok(best)
}

/// Whether a site is permitted and its callee has few operations, as far as it is known that its caller stands apart.
fn is_candidate(alloc: Global, asked: &Asked, site: &Site) -> Result<bool, NoMemory>
    requires known { Knows asked.now.flow.now asked.now.known.now }
    ensures { IfOk result (λ is. is ≡ true → IsCandidate asked.now.flow.now asked.now.most site.now) }
{
    if !is_apart(asked, site.function) {
        return Ok(false);
    }
    match worth_it(asked, site, None) {
        Some(found) => has_room(alloc, asked, site, &found),
        None => Ok(false),
    }
}

/// Whether a function is known to be on no cycle of calls, and reached by none on one.
fn is_apart(asked: &Asked, function: u32) -> bool
    ensures { result ≡ is_marked asked.now.known.now.apart.items function }
{
    is_marked(asked.known.apart.as_slice(), function)
}

/// Whether of each bank as many values of the caller are free as the callee names, by what is known.
fn has_room(alloc: Global, asked: &Asked, site: &Site, found: &FoundCall) -> Result<bool, NoMemory>
    requires known { Knows asked.now.flow.now asked.now.known.now }
    requires found { call_in asked.now.flow.now site.now ≡ Some (seen found.now) }
    ensures { IfOk result (λ has. IsTrue has ↔ HasEnough (seen found.now)) }
{
    match asked.known.live.as_slice().get(site.function as usize) {
        Some(live) => has_room_by(alloc, asked, site, found, live),
        None => Err(NoMemory),
    }
}

fn has_room_by(
    alloc: Global,
    asked: &Asked,
    site: &Site,
    found: &FoundCall,
    live: &Live,
) -> Result<bool, NoMemory>
    requires known { Knows asked.now.flow.now asked.now.known.now }
    requires found { call_in asked.now.flow.now site.now ≡ Some (seen found.now) }
    requires live { slice_get asked.now.known.now.live.items site.now.function ≡ Some live.now }
    ensures { IfOk result (λ has. IsTrue has ↔ HasEnough (seen found.now)) }
{
    let bare = is_marked(asked.known.bare.as_slice(), site.function);
    has_values(alloc, live, found, bare)
}

/// The site that comes first by what costs little.
fn likely(asked: &Asked, functions: u32) -> Option<Site>
    requires known { Knows asked.now.flow.now asked.now.known.now }
    requires calls { ListsCalls asked.now.flow.now asked.now.calls.now.items }
    requires functions { functions ≡ length asked.now.flow.now.functions }
    ensures { NoneFirst asked.now.flow.now asked.now.counts.now asked.now.most result }
{
    let mut best = None;
    for function in 0..functions {
        best = likely_with(asked, function, best);
    }
    best
}

/// The better of a site and those of a function, by what costs little.
fn likely_with(asked: &Asked, function: u32, best: Option<Site>) -> Option<Site>
    requires known { Knows asked.now.flow.now asked.now.known.now }
    requires calls { ListsCalls asked.now.flow.now asked.now.calls.now.items }
    ensures { BestOfFunction asked.now.flow.now asked.now.counts.now asked.now.most function best result }
{
    if is_apart(asked, function) {
        likely_in(asked, function, best)
    } else {
        best
    }
}

fn likely_in(asked: &Asked, function: u32, best: Option<Site>) -> Option<Site>
    requires calls { ListsCalls asked.now.flow.now asked.now.calls.now.items }
    ensures { BestOfFunction asked.now.flow.now asked.now.counts.now asked.now.most function best result }
{
    match asked.calls.as_slice().get(function as usize) {
        Some(calls) => likely_listed(asked, function, calls, best),
        None => best,
    }
}

fn likely_listed(
    asked: &Asked,
    function: u32,
    calls: &Listed<BlockId>,
    best: Option<Site>,
) -> Option<Site>
    requires calls { ListsCalls asked.now.flow.now asked.now.calls.now.items }
    requires row { slice_get asked.now.calls.now.items function ≡ Some calls.now }
    ensures { BestOfFunction asked.now.flow.now asked.now.counts.now asked.now.most function best result }
{
    likely_of(asked, function, calls.as_slice(), best)
}

fn likely_of(asked: &Asked, function: u32, calls: &[BlockId], best: Option<Site>) -> Option<Site>
    ensures { BestOfBlocks asked.now.flow.now asked.now.counts.now asked.now.most function calls.now best result }
{
    let mut likely = best;
    for block in calls {
        likely = likely_at(
            asked,
            Site {
                function,
                block: *block,
            },
            likely,
        );
    }
    likely
}

#[tactic(auto, using(crate::proofs::Likely::first_passed))]
fn likely_at(asked: &Asked, site: Site, best: Option<Site>) -> Option<Site>
    ensures { BestOfTwo asked.now.flow.now asked.now.counts.now asked.now.most site best result }
{
    if exceeds(asked, &site, best) {
        likely_there(asked, site, best)
    } else {
        best
    }
}

#[tactic(auto, using(crate::proofs::Likely::first_stays, crate::proofs::Likely::first_taken))]
fn likely_there(asked: &Asked, site: Site, best: Option<Site>) -> Option<Site>
    requires { exceeds asked.now.counts.now best site ≡ true }
    ensures { BestOfTwo asked.now.flow.now asked.now.counts.now asked.now.most site best result }
{
    match worth_there(asked, &site, best) {
        Some(_) => Some(site),
        None => best,
    }
}

/// The better of a site and those of one more function.
#[tactic(auto, using(crate::proofs::Firsts::passed_none))]
fn best_with(
    alloc: Global,
    asked: &Asked,
    function: u32,
    best: Option<Site>,
) -> Result<Option<Site>, NoMemory>
    requires known { Knows asked.now.flow.now asked.now.known.now }
    requires best { BestBefore asked.now.flow.now asked.now.counts.now asked.now.most function 0 best }
    ensures { IfOk result (λ new. BestBefore asked.now.flow.now asked.now.counts.now asked.now.most (function + 1) 0 new) }
{
    match asked.flow.functions.as_slice().get(function as usize) {
        Some(caller) => best_in(alloc, asked, function, caller, best),
        None => Ok(best),
    }
}

#[tactic(auto, using(crate::proofs::Firsts::passed_unworthy, crate::proofs::Firsts::passed_apart, crate::proofs::Firsts::best_closed))]
fn best_in(
    alloc: Global,
    asked: &Asked,
    function: u32,
    caller: &Graph,
    best: Option<Site>,
) -> Result<Option<Site>, NoMemory>
    requires known { Knows asked.now.flow.now asked.now.known.now }
    requires caller { slice_get asked.now.flow.now.functions function ≡ Some caller.now }
    requires best { BestBefore asked.now.flow.now asked.now.counts.now asked.now.most function 0 best }
    ensures { IfOk result (λ new. BestBefore asked.now.flow.now asked.now.counts.now asked.now.most (function + 1) 0 new) }
{
    let blocks = number_of(caller.blocks.len())?;
    if !has_worthy(asked, function, blocks, best) {
        return Ok(best);
    }
    if !is_apart(asked, function) {
        return Ok(best);
    }
    best_of(alloc, asked, function, blocks, best)
}

/// Whether some block of a function may come before the best, by what costs little.
fn has_worthy(asked: &Asked, function: u32, blocks: u32, best: Option<Site>) -> bool
    ensures { result ≡ false → (b : ℕ) → b < blocks → NoneIsWorthIt asked.now.flow.now asked.now.counts.now asked.now.most best (site_of function b) }
{
    for block in 0..blocks {
        if worth_it(asked, &Site { function, block }, best).is_some() {
            return true;
        }
    }
    false
}

/// The call of a site, where it is permitted as far as its values and other functions allow it, its callee has few operations, and
/// it comes before the best. Counts cost least, so they are asked first.
#[tactic(auto, using(crate::proofs::Candidates::worth_less))]
fn worth_it<'a>(asked: &Asked<'a>, site: &Site, best: Option<Site>) -> Option<FoundCall<'a>>
    ensures { IsWorthIt asked.now.flow.now asked.now.counts.now asked.now.most best site.now (option_map seen result) }
{
    if exceeds(asked, site, best) {
        worth_there(asked, site, best)
    } else {
        None
    }
}

#[tactic(auto, using(crate::proofs::Candidates::worth_none))]
fn worth_there<'a>(asked: &Asked<'a>, site: &Site, best: Option<Site>) -> Option<FoundCall<'a>>
    requires { exceeds asked.now.counts.now best site.now ≡ true }
    ensures { IsWorthIt asked.now.flow.now asked.now.counts.now asked.now.most best site.now (option_map seen result) }
{
    let _best = best;
    match find(asked.flow, site) {
        Some(found) => worth_of(asked, site, best, found),
        None => None,
    }
}

#[tactic(auto, using(crate::proofs::Candidates::worth_found))]
fn worth_of<'a>(
    asked: &Asked<'a>,
    site: &Site,
    best: Option<Site>,
    found: FoundCall<'a>,
) -> Option<FoundCall<'a>>
    requires found { call_in asked.now.flow.now site.now ≡ Some (seen found) }
    requires exceeds { exceeds asked.now.counts.now best site.now ≡ true }
    ensures { IsWorthIt asked.now.flow.now asked.now.counts.now asked.now.most best site.now (option_map seen result) }
{
    let _site = site;
    let _best = best;
    if fits(&found) && has_few(found.callee.blocks.as_slice(), asked.most) {
        Some(found)
    } else {
        None
    }
}

/// Whether a site comes before the best.
fn exceeds(asked: &Asked, site: &Site, best: Option<Site>) -> bool
    ensures { result ≡ exceeds asked.now.counts.now best site.now }
{
    match best {
        Some(best) => {
            let count = asked.counts.of_block(site.function, site.block);
            let known = asked.counts.of_block(best.function, best.block);
            known < count || (known == count && is_below(site, &best))
        }
        None => true,
    }
}

fn is_below(site: &Site, other: &Site) -> bool
    ensures { result ≡ is_below site.now other.now }
{
    site.function < other.function || (site.function == other.function && site.block < other.block)
}

/// The best of a site and those of a function that no cycle of calls reaches.
fn best_of(
    alloc: Global,
    asked: &Asked,
    function: u32,
    blocks: u32,
    best: Option<Site>,
) -> Result<Option<Site>, NoMemory>
    requires known { Knows asked.now.flow.now asked.now.known.now }
    requires apart { StandsApart asked.now.flow.now function }
    requires best { BestBefore asked.now.flow.now asked.now.counts.now asked.now.most function 0 best }
    ensures { IfOk result (λ new. BestBefore asked.now.flow.now asked.now.counts.now asked.now.most function blocks new) }
{
    let mut best = best;
    for block in 0..blocks {
        best = best_at(alloc, asked, Site { function, block }, best)?;
    }
    Ok(best)
}

#[tactic(auto, using(crate::proofs::Firsts::best_stays, crate::proofs::Firsts::best_taken, crate::proofs::Candidates::candidate_with, crate::proofs::Candidates::none_with))]
fn best_at(
    alloc: Global,
    asked: &Asked,
    site: Site,
    best: Option<Site>,
) -> Result<Option<Site>, NoMemory>
    requires known { Knows asked.now.flow.now asked.now.known.now }
    requires apart { StandsApart asked.now.flow.now site.function }
    requires best { BestBefore asked.now.flow.now asked.now.counts.now asked.now.most site.function site.block best }
    ensures { IfOk result (λ new. BestBefore asked.now.flow.now asked.now.counts.now asked.now.most site.function (site.block + 1) new) }
{
    match worth_it(asked, &site, best) {
        Some(found) => {
            if has_room(alloc, asked, &site, &found)? {
                Ok(Some(site))
            } else {
                Ok(best)
            }
        }
        None => Ok(best),
    }
}
