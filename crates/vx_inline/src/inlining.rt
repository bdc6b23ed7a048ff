// A flow with the call of a permitted site inlined.

ghost use Rattle.std.specs.Prelude.{◌≡◌, ◌↔◌, ℕ, true, List, IfOk, IsTrue};
ghost use Rattle.vx_ast.specs.Accepted.{is_accepted};
ghost use Rattle.vx_ast.specs.Tree.{Program};
ghost use Rattle.vx_flow.specs.Live.{IsLive};
ghost use Rattle.vx_flow.specs.Rows.{lives};
ghost use Rattle.vx_flow.specs.Sound.{SoundFlow};
ghost use Rattle.vx_lower.specs.FlowOf.{FlowOf};
ghost use Rattle.vx_inline.specs.Finding.{seen};
ghost use Rattle.vx_flow.specs.declared.graph.Bank.{Bank};
ghost use Rattle.vx_inline.specs.Inlined.{AreFree, Inlined, Permitted, named, taken};
ghost use Rattle.vx_inline.specs.Keeping.{IsSiteBare, KnowsSite};
ghost use Rattle.vx_inline.specs.Splicing.{AreWithJoint, IsJoint, IsJointAt, IsWithJoint, joined_graph};
ghost use Rattle.vx_inline.specs.Values.{is_bare, of_bank};

use crate::by_bank::{ByBank, named};
use crate::caller_blocks::with_joint;
use crate::found_call::{FoundCall, find};
use crate::free_values::free_values;
use crate::joint::{Joint, joint_of};
use crate::site::Site;
use crate::takes::takes;
use std::alloc::Global;
use std::mem::replace;
use vx_base::listed::Listed;
use vx_base::outcome::NoMemory;
use vx_flow::graph::{Flow, Graph};
use vx_flow::live;
use vx_flow::live_rows::Live;

/// The flow with the call of a permitted site inlined: what the callee names takes free values of the caller, its blocks stand
/// behind those of the caller, and what the flow is of it is still.
#[tactic(auto, using(crate::proofs::Programs::inlined_stays, crate::proofs::FlowSound::inlined_sound))]
pub fn inline_one(alloc: Global, flow: Flow, site: Site) -> Result<Flow, NoMemory>
    requires sound { SoundFlow flow }
    requires permitted { Permitted flow site }
    ensures inlined { IfOk result (λ new. Inlined flow site new) }
    ensures stays { IfOk result (λ new. (p : Program) → is_accepted p ≡ true → FlowOf p flow → FlowOf p new) }
    ensures sound { IfOk result (λ new. SoundFlow new) }
{
    with_call(alloc, flow, site)
}

fn with_call(alloc: Global, flow: Flow, site: Site) -> Result<Flow, NoMemory>
    requires permitted { Permitted flow site }
    ensures { IfOk result (λ new. Inlined flow site new) }
{
    let live = live_in(alloc, &flow, &site)?;
    with_live(alloc, flow, site, &live, false)
}

/// What is live at the blocks of the caller.
fn live_in(alloc: Global, flow: &Flow, site: &Site) -> Result<Live, NoMemory>
    ensures { IfOk result (λ live. KnowsSite flow.now site.now live) }
{
    match find(flow, site) {
        Some(found) => live(alloc, found.caller),
        None => Err(NoMemory),
    }
}

/// The flow with the call inlined, by what is live behind it.
#[tactic(auto, using(crate::proofs::Joints::is_inlined))]
pub(crate) fn with_live(
    alloc: Global,
    flow: Flow,
    site: Site,
    live: &Live,
    bare: bool,
) -> Result<Flow, NoMemory>
    requires permitted { Permitted flow site }
    requires live { KnowsSite flow site live.now }
    requires bare { IsSiteBare flow site bare }
    ensures inlined { IfOk result (λ new. Inlined flow site new) }
{
    let joint = joint_at(alloc, &flow, &site, live, bare)?;
    with_joint_at(alloc, flow, site, joint)
}

/// What comes into the caller.
fn joint_at(
    alloc: Global,
    flow: &Flow,
    site: &Site,
    live: &Live,
    bare: bool,
) -> Result<Joint, NoMemory>
    requires live { KnowsSite flow.now site.now live.now }
    requires bare { IsSiteBare flow.now site.now bare }
    ensures { IfOk result (λ joint. IsJointAt flow.now site.now joint) }
{
    match find(flow, site) {
        Some(found) => joint_for(alloc, &found, live, bare),
        None => Err(NoMemory),
    }
}

#[tactic(auto, using(crate::proofs::Joints::any_free))]
fn joint_for(alloc: Global, found: &FoundCall, live: &Live, bare: bool) -> Result<Joint, NoMemory>
    requires bare { bare ≡ true → is_bare found.now.caller.now.arrays found.now.caller.now.blocks ≡ true }
    requires behind { (v : ℕ) → IsTrue (lives live.now found.now.next v) ↔ IsLive found.now.caller.now found.now.next v }
    ensures { IfOk result (λ joint. (free : Bank → List ℕ) → ((bank : Bank) → AreFree (seen found.now) bank (free bank)) → IsJoint (seen found.now) (taken found.now.callee.now free) joint) }
{
    let named = named(alloc, found.callee)?;
    let free = free_values(alloc, live, found, &named, bare)?;
    joint_taking(alloc, found, &named, &free)
}

#[tactic(auto, using(crate::proofs::Tables::value_told, crate::proofs::Tables::named_rises))]
fn joint_taking(
    alloc: Global,
    found: &FoundCall,
    names: &ByBank,
    free: &ByBank,
) -> Result<Joint, NoMemory>
    requires names { (bank : Bank) → of_bank names.now bank ≡ named found.now.callee.now bank }
    ensures { IfOk result (λ joint. IsJoint (seen found.now) (taken found.now.callee.now (of_bank free.now)) joint) }
{
    let to = takes(alloc, found.callee.banks.as_slice(), names, free)?;
    joint_of(alloc, found, to.as_slice())
}

/// The flow with all that comes into the caller of a site.
fn with_joint_at(alloc: Global, flow: Flow, site: Site, joint: Joint) -> Result<Flow, NoMemory>
    ensures { IfOk result (λ new. IsWithJoint flow site joint new) }
{
    let Flow {
        functions,
        globals,
        texts,
        main,
    } = flow;
    let functions = replaced(alloc, functions, site, joint)?;
    Ok(Flow {
        functions,
        globals,
        texts,
        main,
    })
}

fn replaced(
    alloc: Global,
    functions: Listed<Graph>,
    site: Site,
    joint: Joint,
) -> Result<Listed<Graph>, NoMemory>
    ensures { IfOk result (λ new. AreWithJoint functions site joint new) }
{
    let mut graphs = functions.into_vec();
    replace_blocks(alloc, &mut graphs, site, joint)?;
    Ok(Listed::from_vec(graphs)?)
}

/// Puts the blocks with all that comes into the caller in place of its own.
#[tactic(auto, using(crate::proofs::Joints::with_joint_there))]
fn replace_blocks(
    alloc: Global,
    graphs: &mut Vec<Graph>,
    site: Site,
    joint: Joint,
) -> Result<(), NoMemory>
    ensures { IfOk result (λ _. AreWithJoint graphs.old.items site joint graphs.new.items) }
{
    match graphs.get_mut(site.function as usize) {
        Some(graph) => take_joint(alloc, graph, joint, site),
        None => Err(NoMemory),
    }
}

fn take_joint(alloc: Global, graph: &mut Graph, joint: Joint, site: Site) -> Result<(), NoMemory>
    ensures { IfOk result (λ _. graph.new ≡ joined_graph joint site graph.old) }
{
    let blocks = replace(&mut graph.blocks, Listed::new(alloc));
    graph.blocks = with_joint(alloc, blocks, joint, site.block)?;
    Ok(())
}
