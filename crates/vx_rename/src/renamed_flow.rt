// The graphs of a program under names that were looked for, where these pass the test; other graphs, and a flow that would not be
// sound, stay as they are.

ghost use Rattle.std.specs.Prelude.{◌≡◌, true, IfOk, IfSome};
ghost use Rattle.vx_flow.specs.Sound.{is_sound_flow};
ghost use Rattle.vx_shape.specs.Flows.{FlowStays};
ghost use Rattle.vx_rename.specs.Renaming.{GraphRenames, ways};

use crate::made_graph::made_graph;
use crate::names::GraphNames;
use crate::search::{Room, names_for};
use std::alloc::Global;
use vx_base::outcome::NoMemory;
use vx_flow::graph::{Flow, Graph};
use vx_shape::copies::with_graphs;
use vx_shape::passes::{GraphPass, each_made};
use vx_sound::is_sound;

/// The flow with other names for its values: those that are not live at one time share a name where a graph names more than there are
/// registers. An operation that only writes what is not read is left out. Each graph keeps its blocks, and each block leads where it
/// did.
pub fn rename(alloc: Global, flow: Flow, room: Room) -> Result<Flow, NoMemory>
    requires { is_sound_flow flow ≡ true }
    ensures sound { IfOk result (λ renamed. is_sound_flow renamed ≡ true) }
    ensures ways { IfOk result (λ renamed. ways renamed ≡ ways flow) }
    ensures flow { IfOk result (λ renamed. FlowStays flow renamed) }
{
    match found_flow(alloc, &flow, room) {
        Ok(Some(renamed)) => {
            drop(flow);
            Ok(renamed)
        }
        Ok(None) => Ok(flow),
        Err(error) => {
            drop(flow);
            Err(error)
        }
    }
}

/// The flow under names that were found, where there are such.
fn found_flow(alloc: Global, flow: &Flow, room: Room) -> Result<Option<Flow>, NoMemory>
    ensures sound { IfOk result (λ found. IfSome found (λ renamed. is_sound_flow renamed ≡ true)) }
    ensures ways { IfOk result (λ found. IfSome found (λ renamed. ways renamed ≡ ways flow.now)) }
    ensures flow { IfOk result (λ found. IfSome found (λ renamed. FlowStays flow.now renamed)) }
{
    let names = names_for(alloc, flow.functions.as_slice(), room)?;
    let renamed = renamed_flow(alloc, flow, names.as_slice());
    drop(names);
    renamed
}

/// The flow whose graphs are under these names, in the order of the functions, each where it passes the test; none where that is
/// not sound.
fn renamed_flow(alloc: Global, flow: &Flow, names: &[GraphNames]) -> Result<Option<Flow>, NoMemory>
    ensures sound { IfOk result (λ found. IfSome found (λ renamed. is_sound_flow renamed ≡ true)) }
    ensures ways { IfOk result (λ found. IfSome found (λ renamed. ways renamed ≡ ways flow.now)) }
    ensures flow { IfOk result (λ found. IfSome found (λ renamed. FlowStays flow.now renamed)) }
{
    let functions = each_made(alloc, &NamesPass { names }, flow.functions.as_slice())?;
    let renamed = with_graphs(alloc, flow, functions)?;
    match is_sound(alloc, &renamed) {
        Ok(true) => Ok(Some(renamed)),
        Ok(false) => {
            drop(renamed);
            Ok(None)
        }
        Err(error) => {
            drop(renamed);
            Err(error)
        }
    }
}

/// The pass over one graph.
#[derive(Drop)]
struct NamesPass<'a> {
    names: &'a [GraphNames],
}

impl<'a> GraphPass for NamesPass<'a> {
    ghost makes = { GraphRenames };

    fn made(
        &self,
        alloc: Global,
        function: usize,
        graph: &Graph,
    ) -> Result<Option<Graph>, NoMemory> {
        match self.names.get(function) {
            Some(names) => made_graph(alloc, names, graph),
            None => Ok(None),
        }
    }
}
