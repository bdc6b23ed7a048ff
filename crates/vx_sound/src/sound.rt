// Whether the graphs of a program are sound. Each graph is tested with a table of the values that are places of arrays or bases; one
// that the table does not show sound is tested without it.

ghost use Rattle.std.specs.Prelude.{◌≡◌, ◌&&◌, ◌==◌, length, map, not, true, IfOk};
ghost use Rattle.std.specs.List.{list_all};
ghost use Rattle.vx_flow.specs.Sound.{are_distinct, begins_with, is_sound_flow, is_sound_function};
ghost use Rattle.vx_sound.specs.Origins.{bases_taken, is_block_named};

use crate::arguments::{all_taken, are_blocks_named};
use crate::origins::{Origin, find_origins};
use crate::places::is_shown;
use crate::program_names::{are_distinct, begins_with, has_parameters};
use crate::soundness::is_sound_function;
use std::alloc::Global;
use vx_base::listed::Listed;
use vx_base::outcome::NoMemory;
use vx_flow::graph::{Flow, Graph};

/// Whether the graphs of a program are sound: what `flow_is_sound` tells. Where they are, the time is that of a few passes over the
/// graphs, and of one over the arrays of each for each of its parameters. A graph takes memory for each of its values.
pub fn is_sound(alloc: Global, flow: &Flow) -> Result<bool, NoMemory>
    ensures { IfOk result (λ answer. answer ≡ is_sound_flow flow.now) }
{
    let taken = all_taken(alloc, flow.functions.as_slice())?;
    let sound = are_sound_functions(alloc, taken.as_slice(), flow, flow.functions.as_slice())?;
    Ok(has_parameters(0, flow.functions.as_slice(), flow.main) && sound)
}

fn are_sound_functions(
    alloc: Global,
    taken: &[Listed<bool>],
    flow: &Flow,
    graphs: &[Graph],
) -> Result<bool, NoMemory>
    requires { taken.now ≡ map bases_taken flow.now.functions }
    ensures { IfOk result (λ answer. answer ≡ list_all (is_sound_function flow.now) graphs.now) }
{
    for graph in graphs {
        if !is_sound_one(alloc, taken, flow, graph)? {
            return Ok(false);
        }
    }
    Ok(true)
}

/// Whether a graph is sound, and what it names of the program is there.
fn is_sound_one(
    alloc: Global,
    taken: &[Listed<bool>],
    flow: &Flow,
    graph: &Graph,
) -> Result<bool, NoMemory>
    requires { taken.now ≡ map bases_taken flow.now.functions }
    ensures { IfOk result (λ answer. answer ≡ is_sound_function flow.now graph.now) }
{
    let origins = find_origins(alloc, graph)?;
    Ok(is_sound_with(origins.as_slice(), taken, flow, graph))
}

/// The same. Where the table shows the graph sound, one pass is enough, and one over the calls.
fn is_sound_with(
    origins: &[Option<Origin>],
    taken: &[Listed<bool>],
    flow: &Flow,
    graph: &Graph,
) -> bool
    requires { taken.now ≡ map bases_taken flow.now.functions }
    ensures { result ≡ is_sound_function flow.now graph.now }
{
    if is_shown(origins, graph) {
        is_named(origins, taken, flow, graph)
    } else {
        is_sound_function(flow, graph)
    }
}

/// Whether what a graph names of its program is there, by the table that shows it sound.
fn is_named(origins: &[Option<Origin>], taken: &[Listed<bool>], flow: &Flow, graph: &Graph) -> bool
    ensures { result ≡ (not (length graph.now.blocks == 0) && are_distinct graph.now.parameters && begins_with flow.now.globals graph.now.arrays && list_all (is_block_named origins.now taken.now flow.now) graph.now.blocks) }
{
    !graph.blocks.is_empty()
        && are_distinct(graph.parameters.as_slice())
        && begins_with(flow.globals.as_slice(), graph.arrays.as_slice())
        && are_blocks_named(origins, taken, flow, graph.blocks.as_slice())
}
