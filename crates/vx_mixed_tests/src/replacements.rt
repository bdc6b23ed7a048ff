// An `if` without `else` replaced, worked out by hand: three blocks become a region, and block 4 is made of the product on the
// edge that joins.

ghost use Rattle.std.specs.Prelude.{◌≡◌, [], ◌∷◌, true, IfOk};
ghost use Rattle.vx_flow.specs.Sound.{is_sound};
ghost use Rattle.vx_mixed.specs.CanReplace.{CanReplace};
ghost use Rattle.vx_mixed.specs.FromGraph.{FromGraph};
ghost use Rattle.vx_motion.specs.NextExample.{replacement};
ghost use Rattle.vx_motion.specs.ReplaceExample.{if_homes, IsWorked};
ghost use Rattle.vx_motion.specs.TraceExample.{if_banks, if_blocks};
ghost use Rattle.vx_mixed.specs.TraceOf.{CanTrace, IsTraceOf};

use crate::graphs::{if_begun, without_else};
use std::alloc::Global;
use std::test::Fail;
use vx_base::arithmetic::Code;
use vx_base::listed::{Listed, copied};
use vx_base::outcome::NoMemory;
use vx_flow::graph::{Edge, Graph, Op, Operand};
use vx_flow::trace::{Homes, Trace};
use vx_mixed::region::Made;
use vx_mixed::replacement::Replacement;
use vx_motion::laws::an_if_is_replaced;
use vx_replace::Mixed;
use vx_sound::graph_is_sound;

fn homes(alloc: Global) -> Result<Homes, NoMemory>
    ensures { IfOk result (λ homes. homes.clusters ≡ if_homes) }
{
    let clusters = copied(alloc, &[Some(0); 7])?;
    Ok(Homes { clusters })
}

/// The product, on the edge from block 3.
fn product(alloc: Global) -> Result<Listed<Made>, NoMemory>
    ensures { IfOk result (λ made. made ≡ replacement.made) }
{
    let product = Op::Compute {
        code: Code::Mpylu,
        to: 4,
        left: Operand::Held(3),
        right: Operand::Held(1),
    };
    let ops = copied(alloc, &[product])?;
    let clusters = copied(alloc, &[0])?;
    let mut made = Listed::new(alloc);
    made.push(Made {
        edge: Edge { from: 3, to: 2 },
        ops,
        clusters,
    })?;
    Ok(made)
}

/// Five words, which are joined at word 4.
fn with_words(
    alloc: Global,
    trace: Trace,
    made: Listed<Made>,
    homes: Homes,
) -> Result<Replacement, NoMemory>
    requires made { made ≡ replacement.made }
    requires homes { homes.clusters ≡ if_homes }
    ensures trace { IfOk result (λ replaced. replaced.trace ≡ trace) }
    ensures worked { IfOk result (λ replaced. IsWorked replaced) }
{
    let clusters = copied(alloc, &[0, 0, 0, 0, 0, 0])?;
    let words = copied(alloc, &[0, 0, 2, 3, 1, 4])?;
    let drains = copied(alloc, &[0])?;
    let rejoins = copied(alloc, &[4])?;
    Ok(Replacement {
        trace,
        clusters,
        words,
        length: 5,
        drains,
        last_drain: 0,
        rejoins,
        made,
        homes,
    })
}

fn worked(alloc: Global, trace: Trace) -> Result<Replacement, NoMemory>
    ensures trace { IfOk result (λ replaced. replaced.trace ≡ trace) }
    ensures worked { IfOk result (λ replaced. IsWorked replaced) }
{
    let made = product(alloc)?;
    let homes = homes(alloc)?;
    with_words(alloc, trace, made, homes)
}

fn replacement_of(alloc: Global, mixed: &Mixed) -> Result<Replacement, NoMemory>
    requires { CanTrace mixed.now (0 ∷ 1 ∷ 2 ∷ []) }
    ensures trace { IfOk result (λ replaced. IsTraceOf mixed.now (0 ∷ 1 ∷ 2 ∷ []) replaced.trace) }
    ensures worked { IfOk result (λ replaced. IsWorked replaced) }
{
    let trace = mixed.trace(alloc, &[0, 1, 2])?;
    worked(alloc, trace)
}

fn put(alloc: Global, mixed: &mut Mixed, replacement: Replacement) -> Result<(), NoMemory>
    requires { CanReplace mixed.old replacement }
{
    mixed.replace(alloc, replacement)
}

fn replace_in(alloc: Global, graph: &Graph, mixed: &mut Mixed) -> Result<(), NoMemory>
    requires blocks { graph.now.blocks ≡ if_blocks }
    requires banks { graph.now.banks ≡ if_banks }
    requires from { FromGraph graph.now mixed.old }
{
    let replacement = replacement_of(alloc, mixed)?;
    an_if_is_replaced();
    put(alloc, mixed, replacement)
}

fn replaced(alloc: Global, graph: &Graph) -> Result<Mixed, NoMemory>
    requires sound { is_sound graph.now ≡ true }
    requires blocks { graph.now.blocks ≡ if_blocks }
    requires banks { graph.now.banks ≡ if_banks }
{
    let mut mixed = if_begun(alloc, graph)?;
    replace_in(alloc, graph, &mut mixed)?;
    Ok(mixed)
}

const EDGES: [Edge; 3] = [
    Edge { from: 0, to: 3 },
    Edge { from: 3, to: 4 },
    Edge { from: 4, to: 2 },
];

/// Each block that is in no region, and the edge on which block 4 was made.
fn has_blocks(mixed: &Mixed) -> bool {
    for block in 0..mixed.blocks() {
        if mixed.unused(block).is_some() != (block >= 3) {
            return false;
        }
        if mixed.made_on(block).is_some() != (block == 4) {
            return false;
        }
    }
    mixed.blocks() == 5 && mixed.made_on(4) == Some(Edge { from: 3, to: 2 })
}

fn stands_so(mixed: &Mixed) -> bool {
    has_blocks(mixed)
        && mixed.edges() == EDGES.as_slice()
        && mixed.homes().clusters.as_slice() == [Some(0); 7].as_slice()
}

fn is_replaced(alloc: Global) -> Result<bool, NoMemory> {
    let graph = without_else(alloc)?;
    if !graph_is_sound(&graph) {
        return Ok(false);
    }
    let mixed = replaced(alloc, &graph)?;
    Ok(stands_so(&mixed))
}

#[test]
fn the_region_of_an_if(rt: HostRuntime) -> Result<(), Fail> {
    assert!(rt; is_replaced(rt.alloc())?);
    Ok(())
}
