// The graphs of a program with operations raised that were looked for, each where it may be. A flow that would not be sound stays as
// it is.

ghost use Rattle.std.specs.Prelude.{◌≡◌, true, IfOk, IfSome};
ghost use Rattle.vx_ast.specs.Tree.{Program};
ghost use Rattle.vx_flow.specs.Sound.{is_sound_flow};
ghost use Rattle.vx_lower.specs.FlowOf.{FlowOf};
ghost use Rattle.vx_shape.specs.Flows.{FlowStays};
ghost use Rattle.vx_raise.specs.Moving.{GraphMoved, PathsStay, SamePaths};

use crate::known::Move;
use crate::lifted_graph::raise_all;
use crate::search::{Aim, wanted_of};
use crate::units::Units;
use std::alloc::Global;
use vx_base::listed::Listed;
use vx_base::outcome::NoMemory;
use vx_flow::graph::{Flow, Graph};
use vx_profile::counts::Counts;
use vx_shape::copies::with_graphs;
use vx_shape::passes::{GraphPass, each_made};
use vx_sound::is_sound;

/// What is to be raised in the graph of one function, in this order.
#[derive(Drop)]
pub struct Wanted {
    pub moves: Listed<Move>,
}

/// The flow with what is wanted of each function raised, each operation where it may be; none where it would not be sound.
pub fn raised_flow(alloc: Global, flow: &Flow, wanted: &[Wanted]) -> Result<Option<Flow>, NoMemory>
    ensures sound { IfOk result (λ answer. IfSome answer (λ raised. is_sound_flow raised ≡ true)) }
    ensures flow { IfOk result (λ answer. IfSome answer (λ raised. FlowStays flow.now raised)) }
    ensures paths { IfOk result (λ answer. IfSome answer (λ raised. SamePaths flow.now raised)) }
{
    let functions = each_made(alloc, &RaisePass { wanted }, flow.functions.as_slice())?;
    let raised = with_graphs(alloc, flow, functions)?;
    match is_sound(alloc, &raised) {
        Ok(true) => Ok(Some(raised)),
        Ok(false) => {
            drop(raised);
            Ok(None)
        }
        Err(error) => {
            drop(raised);
            Err(error)
        }
    }
}

/// The pass over one graph.
#[derive(Drop)]
struct RaisePass<'a> {
    wanted: &'a [Wanted],
}

impl<'a> GraphPass for RaisePass<'a> {
    ghost makes = { GraphMoved };

    fn made(
        &self,
        alloc: Global,
        function: usize,
        graph: &Graph,
    ) -> Result<Option<Graph>, NoMemory> {
        match self.wanted.get(function) {
            Some(wanted) => raised_by(alloc, graph, wanted),
            None => Ok(None),
        }
    }
}

fn raised_by(alloc: Global, graph: &Graph, wanted: &Wanted) -> Result<Option<Graph>, NoMemory>
    ensures { IfOk result (λ answer. IfSome answer (λ raised. GraphMoved graph.now raised)) }
{
    if wanted.moves.is_empty() {
        return Ok(None);
    }
    let raised = raise_all(alloc, graph, wanted.moves.as_slice())?;
    Ok(Some(raised))
}

/// The graphs of a program with operations raised where that makes the likely turns of loops shorter: from ways beside, and then those
/// with which a turn begins, in the turn before; as they came where they would not be sound. Blocks keep their numbers and exits, so
/// that counts of them stay true.
pub fn raise(alloc: Global, flow: Flow, counts: &Counts, units: &Units) -> Result<Flow, NoMemory>
    requires { is_sound_flow flow ≡ true }
    ensures sound { IfOk result (λ raised. is_sound_flow raised ≡ true) }
    ensures flow { IfOk result (λ raised. (p : Program) → FlowOf p flow → FlowOf p raised) }
    ensures paths { IfOk result (λ raised. PathsStay flow raised) }
{
    let beside = raised_for(alloc, flow, counts, units, Aim::Beside)?;
    raised_for(alloc, beside, counts, units, Aim::Turns)
}

#[tactic(auto, using(crate::proofs::Moves::same_paths))]
fn raised_for(
    alloc: Global,
    flow: Flow,
    counts: &Counts,
    units: &Units,
    aim: Aim,
) -> Result<Flow, NoMemory>
    requires { is_sound_flow flow ≡ true }
    ensures sound { IfOk result (λ raised. is_sound_flow raised ≡ true) }
    ensures flow { IfOk result (λ raised. FlowStays flow raised) }
    ensures paths { IfOk result (λ raised. SamePaths flow raised) }
{
    match raised_where_found(alloc, &flow, counts, units, aim) {
        Ok(Some(raised)) => {
            drop(flow);
            Ok(raised)
        }
        Ok(None) => Ok(flow),
        Err(error) => {
            drop(flow);
            Err(error)
        }
    }
}

fn raised_where_found(
    alloc: Global,
    flow: &Flow,
    counts: &Counts,
    units: &Units,
    aim: Aim,
) -> Result<Option<Flow>, NoMemory>
    ensures sound { IfOk result (λ answer. IfSome answer (λ raised. is_sound_flow raised ≡ true)) }
    ensures flow { IfOk result (λ answer. IfSome answer (λ raised. FlowStays flow.now raised)) }
    ensures paths { IfOk result (λ answer. IfSome answer (λ raised. SamePaths flow.now raised)) }
{
    let wanted = wanted_of(alloc, flow, counts, units, aim)?;
    if !is_any_wanted(wanted.as_slice()) {
        return Ok(None);
    }
    raised_flow(alloc, flow, wanted.as_slice())
}

fn is_any_wanted(wanted: &[Wanted]) -> bool {
    for one in wanted {
        if !one.moves.is_empty() {
            return true;
        }
    }
    false
}
