// What callers are told of a loop before any of its blocks is in a region.

ghost use Rattle.std.specs.Prelude.{◌≡◌, true};
ghost use Rattle.vx_flow.specs.Sound.{is_sound};
ghost use Rattle.vx_motion.specs.CountingExample.{counting_banks, counting_blocks};

use crate::graphs::counting;
use std::alloc::Global;
use std::test::Fail;
use vx_base::outcome::NoMemory;
use vx_flow::graph::{Edge, Graph};
use vx_replace::Mixed;
use vx_sound::graph_is_sound;

#[tactic(auto, using(vx_motion::proofs::Counting::counting_begins))]
fn begun(alloc: Global, graph: &Graph) -> Result<Mixed, NoMemory>
    requires sound { is_sound graph.now ≡ true }
    requires blocks { graph.now.blocks ≡ counting_blocks }
    requires banks { graph.now.banks ≡ counting_banks }
{
    Mixed::from_graph(alloc, graph)
}

const EDGES: [Edge; 4] = [
    Edge { from: 0, to: 1 },
    Edge { from: 1, to: 2 },
    Edge { from: 1, to: 3 },
    Edge { from: 3, to: 1 },
];

/// Whether each block is in no region and is one of the graph, and block 1 alone is a header.
fn are_plain(mixed: &Mixed) -> bool {
    for block in 0..mixed.blocks() {
        if mixed.unused(block).is_none() || mixed.made_on(block).is_some() {
            return false;
        }
        if mixed.is_header(block) != (block == 1) {
            return false;
        }
    }
    true
}

fn has_back_edge(mixed: &Mixed) -> bool {
    mixed.is_back(Edge { from: 3, to: 1 }) && !mixed.is_back(Edge { from: 0, to: 1 })
}

/// The value that is read stands on cluster 0.
fn has_homes(mixed: &Mixed) -> bool {
    mixed.homes().clusters.as_slice() == [Some(0), None, None].as_slice()
}

fn stands_so(mixed: &mut Mixed) -> bool {
    let first = mixed.function();
    mixed.set_function(7);
    first == 0
        && mixed.function() == 7
        && mixed.blocks() == 4
        && mixed.edges() == EDGES.as_slice()
        && are_plain(mixed)
        && has_back_edge(mixed)
        && has_homes(mixed)
}

fn begins_so(alloc: Global) -> Result<bool, NoMemory> {
    let graph = counting(alloc)?;
    if !graph_is_sound(&graph) {
        return Ok(false);
    }
    let mut mixed = begun(alloc, &graph)?;
    Ok(stands_so(&mut mixed))
}

#[test]
fn what_a_loop_begins_as(rt: HostRuntime) -> Result<(), Fail> {
    assert!(rt; begins_so(rt.alloc())?);
    Ok(())
}
