// What comes into the graph of a caller, and where its own blocks stand then.

ghost use Rattle.std.specs.Prelude.{◌≡◌, IfOk};
ghost use Rattle.vx_inline.specs.Finding.{seen};
ghost use Rattle.vx_inline.specs.Inlined.{all_plain, callers_plain};
ghost use Rattle.vx_inline.specs.Splicing.{IsJoint};
ghost use Rattle.vx_inline.specs.Taking.{value_at};

use crate::found_call::FoundCall;
use crate::places::{Places, kinds, place_of, places_of, plain_count};
use crate::splice::{Splice, added, moves_of};
use std::alloc::Global;
use vx_base::listed::Listed;
use vx_base::outcome::NoMemory;
use vx_base::sizes::sum;
use vx_flow::graph::{Block, BlockId, Op, Value};

/// What comes into a caller.
#[derive(Drop)]
pub struct Joint {
    /// Where each of its blocks stands.
    pub at: Places,
    /// The moves of the arguments.
    pub moves: Listed<Op>,
    /// The copy of the callee's entry.
    pub first: BlockId,
    /// What stands behind its blocks: the copies of the callee's, and trap blocks.
    pub more: Listed<Block>,
    /// How many blocks are no trap blocks; behind them stand the blocks of edges.
    pub all: u32,
}

/// What comes into the caller of a call, where the values of the callee take those of a table.
pub(crate) fn joint_of(alloc: Global, found: &FoundCall, to: &[Value]) -> Result<Joint, NoMemory>
    ensures { IfOk result (λ joint. IsJoint (seen found.now) (value_at to.now) joint) }
{
    let callers = plain_count(found.caller.blocks.as_slice())?;
    let all = sum(callers, plain_count(found.callee.blocks.as_slice())?)?;
    joint_with(alloc, found, to, callers, all)
}

#[tactic(auto, using(crate::proofs::Joints::is_joint))]
fn joint_with(
    alloc: Global,
    found: &FoundCall,
    to: &[Value],
    callers: u32,
    all: u32,
) -> Result<Joint, NoMemory>
    requires callers { callers ≡ callers_plain (seen found.now) }
    requires all { all ≡ all_plain (seen found.now) }
    ensures { IfOk result (λ joint. IsJoint (seen found.now) (value_at to.now) joint) }
{
    let caller = found.caller.blocks.as_slice();
    let callee = found.callee.blocks.as_slice();
    let kinds = kinds(alloc, caller, callee)?;
    let at = places_of(alloc, 0, all, kinds.as_slice(), caller)?;
    let copy = places_of(alloc, callers, all, kinds.as_slice(), callee)?;
    let first = place_of(&copy, 0);
    let moves = moves_of(alloc, found, to)?;
    let splice = Splice {
        call: found,
        at: &at,
        copy: &copy,
        kinds: kinds.as_slice(),
        to,
    };
    let more = added(alloc, &splice)?;
    Ok(Joint {
        at,
        moves,
        first,
        more,
        all,
    })
}
