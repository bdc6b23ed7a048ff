// The corners of a diamond: the block that splits, both sides, and the block to which they go on.

ghost use Rattle.std.specs.Prelude.{◌≡◌, ◌==◌, ◌&&◌, not, slice_get};
ghost use Rattle.vx_select.specs.Known.{corners_by, goal_in, goal_of, ops_at, same_goal, whole, with_join};
ghost use Rattle.vx_select.specs.Selected.{numbered, stays};

use vx_flow::graph::{Block, BlockId, Exit, Graph, Op, Value};

/// The numbers of the blocks of a diamond, and its test.
#[derive(Clone, Copy)]
pub struct Corners {
    /// The block that splits.
    pub block: BlockId,
    /// The branch value that it tests.
    pub test: Value,
    /// Where it goes on where the test is 1.
    pub yes: BlockId,
    /// Where it goes on else.
    pub no: BlockId,
    /// Where both sides go on.
    pub join: BlockId,
}

/// The operations of a block; none where it is not there.
pub(crate) fn ops_at(graph: &Graph, block: BlockId) -> &[Op]
    ensures { result.now ≡ ops_at graph.now block }
{
    match graph.blocks.as_slice().get(block as usize) {
        Some(block) => block.ops.as_slice(),
        None => &[],
    }
}

/// The corners of the diamond that a block may begin: where it splits, and both sides go on to one block.
pub(crate) fn corners_by(graph: &Graph, block: BlockId, exit: &Exit) -> Option<Corners>
    ensures { result ≡ corners_by graph.now block exit.now }
{
    match exit {
        Exit::Split { test, yes, no } => {
            let join = same_goal(goal_at(graph, *yes), goal_at(graph, *no));
            with_join(block, *test, *yes, *no, join)
        }
        _ => None,
    }
}

fn with_join(
    block: BlockId,
    test: Value,
    yes: BlockId,
    no: BlockId,
    join: Option<BlockId>,
) -> Option<Corners>
    ensures { result ≡ with_join block test yes no join }
{
    match join {
        Some(join) => Some(Corners {
            block,
            test,
            yes,
            no,
            join,
        }),
        None => None,
    }
}

fn same_goal(one: Option<BlockId>, other: Option<BlockId>) -> Option<BlockId>
    ensures { result ≡ same_goal one other }
{
    match (one, other) {
        (Some(one), Some(other)) => { if one == other { Some(one) } else { None } }
        _ => None,
    }
}

/// Where a block goes on, where that is one block and nothing is called.
fn goal_at(graph: &Graph, block: BlockId) -> Option<BlockId>
    ensures { result ≡ goal_in (slice_get graph.now.blocks block) }
{
    match graph.blocks.as_slice().get(block as usize) {
        Some(block) => goal_of(&block.exit),
        None => None,
    }
}

fn goal_of(exit: &Exit) -> Option<BlockId>
    ensures { result ≡ goal_of exit.now }
{
    match exit {
        Exit::Goto(next) => Some(*next),
        _ => None,
    }
}

/// Whether a block is no side.
pub(crate) fn stays(corners: &Corners, block: BlockId) -> bool
    ensures { result ≡ not (block == corners.now.yes) && not (block == corners.now.no) }
{
    block != corners.yes && block != corners.no
}
