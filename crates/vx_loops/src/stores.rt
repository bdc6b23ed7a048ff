// The array to which an operation stores.

ghost use Rattle.std.specs.Prelude.{◌≡◌};
ghost use Rattle.vx_flow.specs.Operands.{value_list};
ghost use Rattle.vx_loops.specs.Noted.{stores_of};

use vx_flow::graph::{ArrayId, Op};

/// The array to which an operation stores, if it is a store.
pub(crate) fn stored_by(op: &Op) -> Option<ArrayId>
    ensures { value_list result ≡ stores_of op.now }
{
    match op {
        Op::Store { array, .. } => Some(*array),
        _ => None,
    }
}
