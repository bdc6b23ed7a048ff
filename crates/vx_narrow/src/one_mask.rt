// Masks that look further back. The bits of a value that a mask lets through stand, where the value was made with a number that leaves
// them alone, in what it was made of; the mask then need not wait for the value.

ghost use Rattle.std.specs.Prelude.{◌≡◌};
ghost use Rattle.vx_narrow.specs.Masking.{behind_of, far_behind, found_if, found_or, mask_as, mask_behind, mask_if, far_mask, masked_of, masked_or, masked_with, with_mask};

use vx_arithmetic::value;
use vx_base::arithmetic::Code;
use vx_claims::fact::Fact;
use vx_flow::graph::{Op, Operand, Value};

/// A value and a number with which an operation goes.
#[derive(Clone, Copy)]
pub struct Masked {
    pub value: Value,
    pub number: i32,
}

fn masked_of(left: Operand, right: Operand) -> Option<Masked>
    ensures { result ≡ masked_of left right }
{
    match (left, right) {
        (Operand::Held(value), Operand::Number(number))
        | (Operand::Number(number), Operand::Held(value)) => Some(Masked { value, number }),
        _ => None,
    }
}

fn mask_if(test: bool, mask: i32) -> Option<i32>
    ensures { result ≡ mask_if test mask }
{
    if test { Some(mask) } else { None }
}

/// The mask that lets through of a value what the mask lets through of that value with the number.
fn mask_behind(code: Code, number: i32, mask: i32) -> Option<i32>
    ensures { result ≡ mask_behind code number mask }
{
    match code {
        Code::And => Some(value(Code::And, number, mask)),
        Code::Or | Code::Xor => mask_if(value(Code::And, number, mask) == 0, mask),
        _ => None,
    }
}

fn with_mask(value: Value, mask: Option<i32>) -> Option<Masked>
    ensures { result ≡ with_mask value mask }
{
    match mask {
        Some(number) => Some(Masked { value, number }),
        None => None,
    }
}

fn masked_with(operands: Option<Masked>, code: Code, mask: i32) -> Option<Masked>
    ensures { result ≡ masked_with operands code mask }
{
    match operands {
        Some(Masked { value, number }) => with_mask(value, mask_behind(code, number, mask)),
        None => None,
    }
}

/// The value and mask behind these, by the first fact that tells of some.
fn behind_of(facts: &[Fact], of: Value, mask: i32) -> Option<Masked>
    ensures { result ≡ behind_of facts.now of mask }
{
    for fact in facts {
        match *fact {
            Fact::Between { .. } | Fact::Congruent { .. } | Fact::Never => {}
            Fact::Equals {
                value: to,
                code,
                left,
                right,
            } => {
                if to == of {
                    match masked_with(masked_of(left, right), code, mask) {
                        Some(found) => return Some(found),
                        None => {}
                    }
                }
            }
        }
    }
    None
}

fn masked_or(found: Option<Masked>, otherwise: Masked) -> Masked
    ensures { result ≡ masked_or found otherwise }
{
    match found {
        Some(found) => found,
        None => otherwise,
    }
}

/// The same so many times.
fn far_behind(times: u8, facts: &[Fact], from: Masked) -> Masked
    ensures { result ≡ far_behind times facts.now from }
{
    if times == 0 {
        return from;
    }
    let next = masked_or(behind_of(facts, from.value, from.number), from);
    far_behind(times - 1, facts, next)
}

/// The bits of a value that a number lets through, from as far back as facts tell, four operations at most.
pub fn far_mask(facts: &[Fact], to: Value, left: Operand, right: Operand) -> Op
    ensures { result ≡ far_mask facts.now to left right }
{
    match (left, right) {
        (Operand::Held(value), Operand::Number(number)) => {
            let found = far_behind(4, facts, Masked { value, number });
            Op::Compute {
                code: Code::And,
                to,
                left: Operand::Held(found.value),
                right: Operand::Number(found.number),
            }
        }
        _ => Op::Compute {
            code: Code::And,
            to,
            left,
            right,
        },
    }
}
