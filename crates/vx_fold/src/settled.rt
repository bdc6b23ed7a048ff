// Whether what writes a value with a number computes that number, or is the place at such an index. Nothing here takes memory.

ghost use Rattle.std.specs.Prelude.{◌≡◌, Some};
ghost use Rattle.std.specs.List.{list_all};
ghost use Rattle.vx_base.specs.Arithmetic.{value_of};
ghost use Rattle.vx_flow.specs.Effects.{both, computed, place_of};
ghost use Rattle.vx_fold.specs.Folding.{gives, is_free, no_number, number_in, numbers_of, settles, settles_block, settles_exit, settles_graph};

use vx_arithmetic::{mul32, value};
use vx_base::arithmetic::Code;
use vx_flow::graph::{Block, Exit, Graph, Op, Operand, Value};
use vx_flow::operands::written_by;

/// The one number that a value holds; none where it may hold others.
pub fn number_of(numbers: &[Option<i32>], value: Value) -> Option<i32>
    ensures { result ≡ numbers_of numbers.now value }
{
    match numbers.get(value as usize) {
        Some(number) => *number,
        None => None,
    }
}

/// The one number that an operand holds.
pub fn number_in(numbers: &[Option<i32>], operand: &Operand) -> Option<i32>
    ensures { result ≡ number_in (numbers_of numbers.now) operand.now }
{
    match operand {
        Operand::Held(value) => number_of(numbers, *value),
        Operand::Number(number) => Some(*number),
        Operand::Stack => None,
    }
}

fn both(code: Code, left: Option<i32>, right: Option<i32>) -> Option<i32>
    ensures { result ≡ both (value_of code) left right }
{
    match (left, right) {
        (Some(left), Some(right)) => Some(value(code, left, right)),
        _ => None,
    }
}

/// What an operation computes of numbers, where they are known.
pub fn computed(code: Code, left: Option<i32>, right: Option<i32>) -> Option<i32>
    ensures { result ≡ computed code left right }
{
    match code {
        Code::Mov => left,
        _ => both(code, left, right),
    }
}

/// The place in bytes of the element at an index, where that is known.
pub fn place_of(index: Option<i32>) -> Option<i32>
    ensures { result ≡ place_of index }
{
    match index {
        Some(index) => Some(mul32(4, index)),
        None => None,
    }
}

fn gives(wanted: Option<i32>, found: Option<i32>) -> bool
    ensures { result ≡ gives wanted found }
{
    match wanted {
        Some(wanted) => match found {
            Some(found) => found == wanted,
            None => false,
        },
        None => true,
    }
}

fn is_without(numbers: &[Option<i32>], value: Value) -> bool
    ensures { result ≡ no_number (numbers_of numbers.now value) }
{
    match number_of(numbers, value) {
        Some(_) => false,
        None => true,
    }
}

/// Whether a value, if there is one, may hold other numbers.
fn is_free(numbers: &[Option<i32>], value: Option<Value>) -> bool
    ensures { result ≡ is_free (numbers_of numbers.now) value }
{
    match value {
        Some(value) => is_without(numbers, value),
        None => true,
    }
}

fn settles(numbers: &[Option<i32>], op: &Op) -> bool
    ensures { result ≡ settles (numbers_of numbers.now) op.now }
{
    match op {
        Op::Compute {
            code,
            to,
            left,
            right,
        } => gives(
            number_of(numbers, *to),
            computed(*code, number_in(numbers, left), number_in(numbers, right)),
        ),
        Op::Place { to, index, .. } => gives(
            number_of(numbers, *to),
            place_of(number_in(numbers, index)),
        ),
        Op::Across { to, from } => is_without(numbers, *to) && is_without(numbers, *from),
        Op::PlaceIn { to, base, .. } => is_without(numbers, *to) && is_without(numbers, *base),
        _ => is_free(numbers, written_by(op)),
    }
}

fn all_settle(numbers: &[Option<i32>], ops: &[Op]) -> bool
    ensures { result ≡ list_all (settles (numbers_of numbers.now)) ops.now }
{
    for op in ops {
        if !settles(numbers, op) {
            return false;
        }
    }
    true
}

fn settles_exit(numbers: &[Option<i32>], exit: &Exit) -> bool
    ensures { result ≡ settles_exit (numbers_of numbers.now) exit.now }
{
    match exit {
        Exit::Goto(_) => true,
        Exit::Split { .. } => true,
        Exit::Call { result, .. } => is_free(numbers, *result),
        Exit::Return(_) => true,
        Exit::Ends(_) => true,
    }
}

fn settles_block(numbers: &[Option<i32>], block: &Block) -> bool
    ensures { result ≡ settles_block (numbers_of numbers.now) block.now }
{
    all_settle(numbers, block.ops.as_slice()) && settles_exit(numbers, &block.exit)
}

fn blocks_settle(numbers: &[Option<i32>], blocks: &[Block]) -> bool
    ensures { result ≡ list_all (settles_block (numbers_of numbers.now)) blocks.now }
{
    for block in blocks {
        if !settles_block(numbers, block) {
            return false;
        }
    }
    true
}

fn are_without(numbers: &[Option<i32>], values: &[Value]) -> bool
    ensures { result ≡ list_all (λ v. no_number (numbers_of numbers.now v)) values.now }
{
    for value in values {
        if !is_without(numbers, *value) {
            return false;
        }
    }
    true
}

/// Whether what writes a value with a number computes that number, everywhere in a graph.
pub fn settles_graph(numbers: &[Option<i32>], graph: &Graph) -> bool
    ensures { result ≡ settles_graph (numbers_of numbers.now) graph.now }
{
    are_without(numbers, graph.parameters.as_slice())
        && blocks_settle(numbers, graph.blocks.as_slice())
}
