// The values of operators of a source.

ghost use Rattle.std.specs.Prelude.{◌≡◌, pos};
ghost use Rattle.vx_ast.specs.Meaning.{binary_value, unary_value, unless_zero};

use vx_arithmetic::{add32, cmp32, div32, mul32, rem32, shl32, shr32, sub32, value};
use vx_ast::tree::{BinaryOperator, UnaryOperator};
use vx_base::arithmetic::{Code, Compare};

/// The value of an operator with one operand.
pub(crate) fn unary(operator: UnaryOperator, x: i32) -> i32
    ensures { result ≡ unary_value operator x }
{
    match operator {
        UnaryOperator::Minus => sub32(0, x),
        UnaryOperator::Plus => x,
        UnaryOperator::Not => i32::from(cmp32(Compare::Eq, x, 0)),
        UnaryOperator::Complement => value(Code::Xor, x, -1),
    }
}

/// The value of an operator with two operands; of a division by 0 it is 0.
pub(crate) fn binary(operator: BinaryOperator, x: i32, y: i32) -> i32
    ensures { result ≡ binary_value operator x y }
{
    match operator {
        BinaryOperator::Multiply => mul32(x, y),
        BinaryOperator::Divide => div32(x, y),
        BinaryOperator::Remainder => rem32(x, y),
        BinaryOperator::Add => add32(x, y),
        BinaryOperator::Subtract => sub32(x, y),
        BinaryOperator::ShiftLeft => shl32(x, y),
        BinaryOperator::ShiftRight => shr32(x, y),
        BinaryOperator::Less => i32::from(cmp32(Compare::Lt, x, y)),
        BinaryOperator::LessEqual => i32::from(cmp32(Compare::Le, x, y)),
        BinaryOperator::Greater => i32::from(cmp32(Compare::Gt, x, y)),
        BinaryOperator::GreaterEqual => i32::from(cmp32(Compare::Ge, x, y)),
        BinaryOperator::Equal => i32::from(cmp32(Compare::Eq, x, y)),
        BinaryOperator::NotEqual => i32::from(cmp32(Compare::Ne, x, y)),
        BinaryOperator::BitAnd => value(Code::And, x, y),
        BinaryOperator::BitXor => value(Code::Xor, x, y),
        BinaryOperator::BitOr => value(Code::Or, x, y),
    }
}

/// 1 where a number is not 0, else 0.
pub(crate) fn truth(x: i32) -> i32
    ensures { result ≡ unless_zero x (pos 1) (pos 0) }
{
    if x == 0 { 0 } else { 1 }
}
