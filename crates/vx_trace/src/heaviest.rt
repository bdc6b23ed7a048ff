// The block with the greatest count, and the heaviest edges at a block: those out of it by its exit, those into it in one pass over
// all edges, which asks for the counts of those at that block alone.

ghost use Rattle.std.specs.Prelude.{◌≡◌, ◌<◌, ◌≤◌, ◌⊎◌, ◌∷◌, [], true, false, Some};
ghost use Rattle.vx_flow.specs.Effects.{IsIn};
ghost use Rattle.vx_flow.specs.Sound.{targets_of};
ghost use Rattle.vx_trace.specs.Growing.{better, BestOf, HasSource, HasTarget, HeaviestOf, IsSeed};
ghost use Rattle.vx_trace.specs.Picked.{IsUnused, count_of_edge};

use crate::blocks::is_unused;
use crate::counts::{count_of_block, count_of_edge};
use vx_flow::graph::{BlockId, Edge, Exit};
use vx_profile::counts::Counts;
use vx_replace::Mixed;

/// The best of several blocks, or of several edges at a block.
#[derive(Clone, Copy)]
pub struct Best {
    /// The block, or the other block of the edge.
    pub other: BlockId,
    /// The count of the block or the edge.
    pub count: u64,
}

/// The unused block with the greatest count, of several the one with the lowest number; `None` where no block is unused.
pub(crate) fn seed(mixed: &Mixed, counts: &Counts) -> Option<BlockId>
    ensures { IsSeed mixed.now counts.now result }
{
    let mut best = None;
    for block in 0..mixed.blocks() {
        if is_unused(mixed, block) {
            best = Some(better(best, block, count_of_block(mixed, counts, block)));
        }
    }
    match best {
        Some(best) => Some(best.other),
        None => None,
    }
}

/// To which block the heaviest edge out of an unused block goes, of several the one to the lowest block; `None` where none goes
/// out of it.
pub(crate) fn target(mixed: &Mixed, counts: &Counts, block: BlockId) -> Option<BlockId>
    requires { IsUnused mixed.now block }
    ensures { HasTarget mixed.now counts.now block result }
{
    mixed.keeps_valid();
    match mixed.unused(block) {
        Some(unused) => heaviest_of(mixed, counts, block, &unused.exit),
        None => None,
    }
}

/// The target to which the heaviest edge of an exit goes.
fn heaviest_of(mixed: &Mixed, counts: &Counts, from: BlockId, exit: &Exit) -> Option<BlockId>
    ensures { HeaviestOf mixed.now counts.now from (targets_of exit.now) result }
{
    match exit {
        Exit::Goto(to) => Some(*to),
        Exit::Split { yes, no, .. } => Some(heavier(mixed, counts, from, *yes, *no)),
        Exit::Call { next, .. } => Some(*next),
        Exit::Return(_) => None,
        Exit::Ends(_) => None,
    }
}

/// To which of two targets the heavier edge goes.
fn heavier(mixed: &Mixed, counts: &Counts, from: BlockId, yes: BlockId, no: BlockId) -> BlockId
    ensures { HeaviestOf mixed.now counts.now from (yes ∷ no ∷ []) (Some result) }
{
    let first = count_of_edge(mixed, counts, Edge { from, to: yes });
    let second = count_of_edge(mixed, counts, Edge { from, to: no });
    if is_heavier(second, no, first, yes) {
        no
    } else {
        yes
    }
}

/// Whether a count is greater than another one, or the same with a lower number.
fn is_heavier(count: u64, number: BlockId, other: u64, other_number: BlockId) -> bool
    ensures holds { result ≡ true → (other < count) ⊎ ((other ≡ count) × (number ≤ other_number)) }
    ensures fails { result ≡ false → (count < other) ⊎ ((count ≡ other) × (other_number ≤ number)) }
{
    other < count || (other == count && number < other_number)
}

/// From which block the heaviest edge into a block comes, of several the one from the lowest block; `None` where none goes to it.
pub(crate) fn source(mixed: &Mixed, counts: &Counts, block: BlockId) -> Option<BlockId>
    ensures { HasSource mixed.now counts.now block result }
{
    match best_in(mixed, counts, mixed.edges(), block) {
        Some(best) => Some(best.other),
        None => None,
    }
}

/// The best of these edges that go to a block.
fn best_in(mixed: &Mixed, counts: &Counts, edges: &[Edge], block: BlockId) -> Option<Best>
    ensures { BestOf (λ e. IsIn e edges.now × (e.to ≡ block)) (count_of_edge mixed.now counts.now) (λ e. e.from) result }
{
    let mut best = None;
    for edge in edges {
        if edge.to == block {
            best = Some(better(best, edge.from, count_of_edge(mixed, counts, *edge)));
        }
    }
    best
}

/// The better of the best so far and another.
fn better(best: Option<Best>, other: BlockId, count: u64) -> Best
    ensures { result ≡ better best other count }
{
    match best {
        None => Best { other, count },
        Some(best) => {
            if best.count < count || (best.count == count && other < best.other) {
                Best { other, count }
            } else {
                best
            }
        }
    }
}
