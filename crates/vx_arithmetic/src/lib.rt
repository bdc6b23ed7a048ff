// The arithmetic of 32-bit numbers: the operations of the units alu and multiply, and the parts of them that the
// meaning of the source names. Each result is exact, and nothing here takes memory. The bodies are wrapping machine
// operations; the clauses say what whole numbers give, reduced once.
#![tactic(auto)]

pub mod laws;

ghost use Rattle.std.specs.Prelude.{◌≡◌};
ghost use Rattle.vx_base.specs.Arithmetic.{and_of, compare_of, difference_of, mpyhs_of, mpylu_of, or_of, product_of, quotient_of, remainder_of, sh2add_of, shl_of, shr_of, shru_of, sum_of, unsigned, value_of, xor_of};

use vx_base::arithmetic::{Code, Compare};

/// `a + b`, modulo 2 ^ 32.
#[tactic(auto, using(std::proofs::lemmas::Int::wrapping_add_is), unfolding(vx_base::specs::Arithmetic::sum_of))]
pub fn add32(a: i32, b: i32) -> i32
    ensures { result ≡ sum_of a b }
{
    a.wrapping_add(b)
}

/// `a - b`, modulo 2 ^ 32.
#[tactic(auto, using(std::proofs::lemmas::Int::wrapping_sub_is), unfolding(vx_base::specs::Arithmetic::difference_of))]
pub fn sub32(a: i32, b: i32) -> i32
    ensures { result ≡ difference_of a b }
{
    a.wrapping_sub(b)
}

/// `a * b`, modulo 2 ^ 32.
#[tactic(auto, using(std::proofs::lemmas::Int::wrapping_mul_is), unfolding(vx_base::specs::Arithmetic::product_of))]
pub fn mul32(a: i32, b: i32) -> i32
    ensures { result ≡ product_of a b }
{
    a.wrapping_mul(b)
}

/// `a / b`, rounded toward zero, and 0 where `b` is 0. The least number divided by -1 is itself.
#[tactic(auto, using(crate::proofs::ArithmeticSteps::machine))]
pub fn div32(a: i32, b: i32) -> i32
    ensures { result ≡ quotient_of a b }
{
    if b == 0 { 0 } else { a.wrapping_div(b) }
}

/// `a % b`, with the sign of `a`, and 0 where `b` is 0.
#[tactic(auto, using(crate::proofs::ArithmeticSteps::machine))]
pub fn rem32(a: i32, b: i32) -> i32
    ensures { result ≡ remainder_of a b }
{
    if b == 0 { 0 } else { a.wrapping_rem(b) }
}

/// The same 32 bits read without sign.
#[tactic(auto, using(vx_base::proofs::WrapLaws::bits_are))]
pub fn unsigned32(a: i32) -> u32
    ensures { result ≡ unsigned a }
{
    a.cast_unsigned()
}

/// `a << b`, by the low five bits of `b`.
#[tactic(auto, using(crate::proofs::ArithmeticSteps::machine))]
pub fn shl32(a: i32, b: i32) -> i32
    ensures { result ≡ shl_of a b }
{
    a.wrapping_shl(unsigned32(b))
}

/// `a >> b`, by the low five bits of `b`. The sign is copied.
#[tactic(auto, using(crate::proofs::ArithmeticSteps::machine))]
pub fn shr32(a: i32, b: i32) -> i32
    ensures { result ≡ shr_of a b }
{
    a.wrapping_shr(unsigned32(b))
}

/// Whether `a` and `b` compare so.
pub fn cmp32(code: Compare, a: i32, b: i32) -> bool
    ensures { result ≡ compare_of code a b }
{
    match code {
        Compare::Eq => a == b,
        Compare::Ne => a != b,
        Compare::Lt => a < b,
        Compare::Le => a <= b,
        Compare::Gt => a > b,
        Compare::Ge => a >= b,
        Compare::Ltu => unsigned32(a) < unsigned32(b),
        Compare::Geu => unsigned32(a) >= unsigned32(b),
    }
}

/// The bits set in both `a` and `b`.
#[tactic(auto, using(crate::proofs::ArithmeticSteps::machine))]
fn and32(a: i32, b: i32) -> i32
    ensures { result ≡ and_of a b }
{
    (unsigned32(a) & unsigned32(b)).cast_signed()
}

/// The bits set in `a` or in `b`.
#[tactic(auto, using(crate::proofs::ArithmeticSteps::machine))]
fn or32(a: i32, b: i32) -> i32
    ensures { result ≡ or_of a b }
{
    (unsigned32(a) | unsigned32(b)).cast_signed()
}

/// The bits set in exactly one of `a` and `b`.
#[tactic(auto, using(crate::proofs::ArithmeticSteps::machine))]
fn xor32(a: i32, b: i32) -> i32
    ensures { result ≡ xor_of a b }
{
    (unsigned32(a) ^ unsigned32(b)).cast_signed()
}

/// `a` shifted right by the low five bits of `b`, with zeros.
#[tactic(auto, using(crate::proofs::ArithmeticSteps::machine))]
fn shru32(a: i32, b: i32) -> i32
    ensures { result ≡ shru_of a b }
{
    unsigned32(a).wrapping_shr(unsigned32(b)).cast_signed()
}

/// `4 * a + b`, modulo 2 ^ 32.
#[tactic(auto, using(crate::proofs::ArithmeticSteps::machine))]
fn sh2add32(a: i32, b: i32) -> i32
    ensures { result ≡ sh2add_of a b }
{
    4i32.wrapping_mul(a).wrapping_add(b)
}

/// `a` times the low half of `b`, modulo 2 ^ 32.
#[tactic(auto, using(crate::proofs::ArithmeticSteps::machine))]
fn mpylu32(a: i32, b: i32) -> i32
    ensures { result ≡ mpylu_of a b }
{
    let low = unsigned32(b) % 0x1_0000;
    unsigned32(a).wrapping_mul(low).cast_signed()
}

/// `a` times the high half of `b` times 2 ^ 16, modulo 2 ^ 32.
#[tactic(auto, using(crate::proofs::ArithmeticSteps::machine))]
fn mpyhs32(a: i32, b: i32) -> i32
    ensures { result ≡ mpyhs_of a b }
{
    let high = unsigned32(b) / 0x1_0000 * 0x1_0000;
    unsigned32(a).wrapping_mul(high).cast_signed()
}

/// The result of an operation.
pub fn value(code: Code, a: i32, b: i32) -> i32
    ensures { result ≡ value_of code a b }
{
    match code {
        Code::Add => add32(a, b),
        Code::Sub => sub32(a, b),
        Code::And => and32(a, b),
        Code::Or => or32(a, b),
        Code::Xor => xor32(a, b),
        Code::Shl => shl32(a, b),
        Code::Shr => shr32(a, b),
        Code::Shru => shru32(a, b),
        Code::Sh2add => sh2add32(a, b),
        Code::Max => a.max(b),
        Code::Min => a.min(b),
        Code::Mov => a,
        Code::ToGeneral(compare) => i32::from(cmp32(compare, a, b)),
        Code::ToBranch(compare) => i32::from(cmp32(compare, a, b)),
        Code::Mpylu => mpylu32(a, b),
        Code::Mpyhs => mpyhs32(a, b),
        Code::Div => div32(a, b),
        Code::Rem => rem32(a, b),
    }
}
