// How often blocks and edges of a graph of blocks and regions were passed: a block that was made for copies, and the edges at
// it, as often as the edge on which it was made.

ghost use Rattle.std.specs.Prelude.{◌≡◌};
ghost use Rattle.vx_trace.specs.Picked.{count_of_block, count_of_edge, counted, made_later, made_on};

use vx_flow::graph::{BlockId, Edge};
use vx_profile::counts::Counts;
use vx_replace::Mixed;

/// The count of an edge of the graph.
#[tactic(auto, unfolding(crate::specs::Picked::count_of_edge))]
pub(crate) fn count_of_edge(mixed: &Mixed, counts: &Counts, edge: Edge) -> u64
    ensures { result ≡ count_of_edge mixed.now counts.now edge }
{
    let counted = counted(mixed, edge);
    counts.of_edge(mixed.function(), counted.from, counted.to)
}

/// The count of a block.
pub(crate) fn count_of_block(mixed: &Mixed, counts: &Counts, block: BlockId) -> u64
    ensures { result ≡ count_of_block mixed.now counts.now block }
{
    match made_on(mixed, block) {
        Some(edge) => count_of_edge(mixed, counts, edge),
        None => counts.of_block(mixed.function(), block),
    }
}

/// The edge whose count an edge has.
fn counted(mixed: &Mixed, edge: Edge) -> Edge
    ensures { result ≡ counted mixed.now edge }
{
    let mut at = edge;
    for _step in 0..mixed.blocks() {
        match made_later(mixed, at) {
            Some(on) => at = on,
            None => return at,
        }
    }
    at
}

/// The edge on which the end of an edge was made, of two made ends the later one.
fn made_later(mixed: &Mixed, edge: Edge) -> Option<Edge>
    ensures { result ≡ made_later edge (made_on mixed.now edge.from) (made_on mixed.now edge.to) }
{
    match (made_on(mixed, edge.from), made_on(mixed, edge.to)) {
        (None, to) => to,
        (Some(from), None) => Some(from),
        (Some(from), Some(to)) => {
            if edge.from < edge.to {
                Some(to)
            } else {
                Some(from)
            }
        }
    }
}

/// The edge on which a block was made.
fn made_on(mixed: &Mixed, block: BlockId) -> Option<Edge>
    ensures { result ≡ made_on mixed.now block }
{
    mixed.keeps_valid();
    if block < mixed.blocks() {
        mixed.made_on(block)
    } else {
        None
    }
}
