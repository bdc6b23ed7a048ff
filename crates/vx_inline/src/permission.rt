// Whether the call of a site may be inlined.

ghost use Rattle.std.specs.Prelude.{◌≡◌, ◌↔◌, ◌<◌, ℕ, true, false, IfOk, IsTrue, length};
ghost use Rattle.vx_flow.specs.Rows.{lives};
ghost use Rattle.vx_flow.specs.Sound.{SoundFlow};
ghost use Rattle.vx_inline.specs.Finding.{seen};
ghost use Rattle.vx_inline.specs.Inlined.{Permitted, Reaches};
ghost use Rattle.vx_inline.specs.Permitting.{Entered, HasEnough, MayInline, StandsApart};

use crate::called::reached;
use crate::fitting::fits;
use crate::found_call::{FoundCall, find};
use crate::free_values::has_values;
use crate::site::Site;
use std::alloc::Global;
use vx_base::outcome::NoMemory;
use vx_base::sizes::number_of;
use vx_flow::graph::Flow;
use vx_flow::live;
use vx_flow::live_rows::Live;

/// Whether the call of a site of a sound flow may be inlined: the caller is on no cycle of calls, and no function on one reaches
/// it; the callee has no call, and no array but globals; of each bank as many values of the caller are free behind the call as
/// the callee names; and blocks stay within 512 operations.
#[tactic(auto, using(crate::proofs::Candidates::permitted_not))]
pub fn permitted(alloc: Global, flow: &Flow, site: &Site) -> Result<bool, NoMemory>
    requires sound { SoundFlow flow.now }
    ensures exact { IfOk result (λ may. IsTrue may ↔ Permitted flow.now site.now) }
{
    match find(flow, site) {
        Some(found) => may_inline(alloc, flow, site.function, &found),
        None => Ok(false),
    }
}

#[tactic(auto, using(crate::proofs::Candidates::not_fitting, crate::proofs::Candidates::not_apart_may, crate::proofs::Candidates::all_may))]
fn may_inline(
    alloc: Global,
    flow: &Flow,
    function: u32,
    found: &FoundCall,
) -> Result<bool, NoMemory>
    ensures { IfOk result (λ may. IsTrue may ↔ MayInline flow.now function (seen found.now)) }
{
    if !fits(found) {
        return Ok(false);
    }
    if !stands_apart(alloc, flow, function)? {
        return Ok(false);
    }
    has_enough(alloc, found)
}

/// Whether a function is on no cycle of calls, and no function on one reaches it.
fn stands_apart(alloc: Global, flow: &Flow, function: u32) -> Result<bool, NoMemory>
    ensures { IfOk result (λ apart. IsTrue apart ↔ StandsApart flow.now function) }
{
    let count = number_of(flow.functions.len())?;
    let reached = reached(alloc, flow)?;
    Ok(stands_by(flow, &reached, count, function))
}

/// The same by what each function reaches.
pub(crate) fn stands_by(flow: &Flow, reached: &Live, count: u32, function: u32) -> bool
    requires reached { (f g : ℕ) → IsTrue (lives reached.now f g) ↔ Reaches flow.now f g }
    requires count { count ≡ length flow.now.functions }
    ensures { IsTrue result ↔ StandsApart flow.now function }
{
    let _flow = flow;
    is_apart(reached, count, function)
}

#[tactic(auto, using(crate::proofs::Candidates::none_entered, crate::proofs::Candidates::one_entered, crate::proofs::Candidates::none_next))]
fn is_apart(reached: &Live, count: u32, function: u32) -> bool
    ensures alone { result ≡ true → lives reached.now function function ≡ false }
    ensures apart { result ≡ true → Entered reached.now count function → ⊥ }
    ensures either { result ≡ false → lives reached.now function function ≡ false → Entered reached.now count function }
{
    if reached.at(function, function) {
        return false;
    }
    for other in 0..count {
        if reached.at(other, other) && reached.at(other, function) {
            return false;
        }
    }
    true
}

/// Whether of each bank as many values of the caller are free as the callee names.
pub(crate) fn has_enough(alloc: Global, found: &FoundCall) -> Result<bool, NoMemory>
    ensures { IfOk result (λ has. IsTrue has ↔ HasEnough (seen found.now)) }
{
    let live = live(alloc, found.caller)?;
    has_values(alloc, &live, found, false)
}
