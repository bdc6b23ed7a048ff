// Whether blocks make no place of an array that is no global, and no base: then none of their values is kept for that.

ghost use Rattle.std.specs.Prelude.{◌≡◌};
ghost use Rattle.std.specs.List.{list_all};
ghost use Rattle.vx_inline.specs.Values.{is_bare, makes_none};

use vx_flow::arrays::is_local;
use vx_flow::graph::{Array, Block, Op};

/// Whether no operation of blocks writes a place of an array that is no global, or a base.
pub(crate) fn is_bare(arrays: &[Array], blocks: &[Block]) -> bool
    ensures { result ≡ is_bare arrays.now blocks.now }
{
    for block in blocks {
        if !make_none(arrays, block.ops.as_slice()) {
            return false;
        }
    }
    true
}

fn make_none(arrays: &[Array], ops: &[Op]) -> bool
    ensures { result ≡ list_all (makes_none arrays.now) ops.now }
{
    for op in ops {
        if !makes_none(arrays, op) {
            return false;
        }
    }
    true
}

fn makes_none(arrays: &[Array], op: &Op) -> bool
    ensures { result ≡ makes_none arrays.now op.now }
{
    match op {
        Op::Place { array, .. } => !is_local(arrays, *array),
        Op::PlaceIn { .. } | Op::Base { .. } => false,
        _ => true,
    }
}
