// Places as sums: the place of an element that stands so many words behind another one whose place is at hand is that place and four
// times as many. Only places of globals become so, and only where the block stores to none of their words: how an index stands to
// another one cannot be seen in such a sum, so that a load would wait for each store to its array.

ghost use Rattle.std.specs.Prelude.{◌≡◌};
ghost use Rattle.vx_narrow.specs.Placing.{held_sum, is_open, is_stored, near, placed, placed_at, placed_by, placed_if, stores_to};

use vx_arithmetic::mul32;
use vx_base::arithmetic::Code;
use vx_claims::access::Access;
use vx_claims::fact::Fact;
use vx_claims::sums::{Sum, held_as_sum};
use vx_flow::arrays::array_in;
use vx_flow::graph::{Array, ArrayId, Op, Operand, Value};
use vx_flow::operands::is_value;

fn stores_to(array: ArrayId, op: &Op) -> bool
    ensures { result ≡ stores_to array op.now }
{
    match *op {
        Op::Store { array: other, .. } => other == array,
        _ => false,
    }
}

/// Whether an operation stores to an array.
fn is_stored(ops: &[Op], array: ArrayId) -> bool
    ensures { result ≡ is_stored ops.now array }
{
    for op in ops {
        if stores_to(array, op) {
            return true;
        }
    }
    false
}

/// Whether an array is a global to which operations store nothing.
fn is_open(arrays: &[Array], ops: &[Op], array: ArrayId) -> bool
    ensures { result ≡ is_open arrays.now ops.now array }
{
    array_in(arrays, array).global && !is_stored(ops, array)
}

/// The sum that an operand holds.
fn held_sum(facts: &[Fact], operand: Operand) -> Option<Sum>
    ensures { result ≡ held_sum facts.now operand }
{
    match operand {
        Operand::Held(value) => held_as_sum(facts, value),
        Operand::Number(_) | Operand::Stack => None,
    }
}

/// A place at hand of the element of an array whose index is the value.
fn near(known: &[Access], array: ArrayId, base: Value) -> Option<Value>
    ensures { result ≡ near known.now array base }
{
    for access in known {
        match *access {
            Access::Placed {
                value,
                array: other,
                index,
            } => {
                if other == array && is_value(base, &index) {
                    return Some(value);
                }
            }
            Access::Stored { .. } => {}
        }
    }
    None
}

fn placed_at(place: Option<Value>, to: Value, by: i32, otherwise: Op) -> Op
    ensures { result ≡ placed_at place to by otherwise }
{
    match place {
        Some(place) => Op::Compute {
            code: Code::Add,
            to,
            left: Operand::Held(place),
            right: Operand::Number(mul32(4, by)),
        },
        None => otherwise,
    }
}

fn placed_by(known: &[Access], array: ArrayId, sum: Option<Sum>, to: Value, otherwise: Op) -> Op
    ensures { result ≡ placed_by known.now array sum to otherwise }
{
    match sum {
        Some(sum) => placed_at(near(known, array, sum.base), to, sum.by, otherwise),
        None => otherwise,
    }
}

fn placed_if(
    test: bool,
    known: &[Access],
    array: ArrayId,
    sum: Option<Sum>,
    to: Value,
    otherwise: Op,
) -> Op
    ensures { result ≡ placed_if test known.now array sum to otherwise }
{
    if test {
        placed_by(known, array, sum, to, otherwise)
    } else {
        otherwise
    }
}

/// The operation, or a sum where it is a place near one that is at hand. The operations are those of its block.
pub fn placed(arrays: &[Array], ops: &[Op], facts: &[Fact], known: &[Access], op: Op) -> Op
    ensures { result ≡ placed arrays.now ops.now facts.now known.now op }
{
    match op {
        Op::Place { to, array, index } => placed_if(
            is_open(arrays, ops, array),
            known,
            array,
            held_sum(facts, index),
            to,
            op,
        ),
        other => other,
    }
}
