// Whether a graph may begin as a graph of blocks and regions: a test that shows what is asked of it, so that graphs can be written
// as data.

ghost use Rattle.std.specs.Prelude.{◌≡◌, ◌≤◌, true, length, IfOk};
ghost use Rattle.vx_flow.specs.Sound.{is_sound};
ghost use Rattle.vx_mixed.specs.FromGraph.{FromGraph};
ghost use Rattle.vx_mixed.specs.Valid.{CanBegin};

use std::alloc::Global;
use vx_base::outcome::NoMemory;
use vx_flow::graph::Graph;
use vx_replace::Mixed;
use vx_shape::origins::origins;
use vx_shape::shape_test::is_shaped;

/// A graph has at most so many values, so that they and their copies have numbers of 32 bits.
const MOST_VALUES: usize = 858993459;

/// Whether the graph may begin: it has few values, and the shape that the graph of a function has.
pub fn can_begin(alloc: Global, graph: &Graph) -> Result<bool, NoMemory>
    ensures { IfOk result (λ can. can ≡ true → CanBegin graph.now) }
{
    if graph.banks.len() <= MOST_VALUES {
        has_shape(alloc, graph)
    } else {
        Ok(false)
    }
}

fn has_shape(alloc: Global, graph: &Graph) -> Result<bool, NoMemory>
    requires few { length graph.now.banks ≤ 858993459 }
    ensures { IfOk result (λ has. has ≡ true → CanBegin graph.now) }
{
    let origins = origins(alloc, graph.blocks.as_slice())?;
    Ok(is_shaped(origins.as_slice(), graph.blocks.as_slice()))
}

/// What the graph begins as.
pub fn begun(alloc: Global, graph: &Graph) -> Result<Mixed, NoMemory>
    requires sound { is_sound graph.now ≡ true }
    requires begins { CanBegin graph.now }
    ensures { IfOk result (λ mixed. FromGraph graph.now mixed) }
{
    Mixed::from_graph(alloc, graph)
}
