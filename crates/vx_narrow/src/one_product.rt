// Products in one operation. The sum of the two half products of two operands is one low product where one of them is below
// 2 ^ 16, and one shift where one of them is a power of 2; the half products are then not read.

ghost use Rattle.std.specs.Prelude.{◌≡◌};
ghost use Rattle.vx_narrow.specs.Shortening.{factors_of, is_low, low_or, names_number, product_if, product_or, shift_below, shift_in, shift_of, shifted_or, short_sum, shortened, sum_as};

use crate::one_mask::far_mask;
use vx_arithmetic::value;
use vx_base::arithmetic::Code;
use vx_claims::fact::Fact;
use vx_claims::fact_list::FactList;
use vx_claims::intervals::is_half;
use vx_claims::known::{has_equals, range_of};
use vx_flow::graph::{Op, Operand, Value};

/// Two operands of which a product is made.
#[derive(Clone, Copy)]
pub struct Factors {
    pub left: Operand,
    pub right: Operand,
}

/// How far 1 is shifted to be a number, from so far at most down to 1.
#[tactic(auto, unfolding(crate::specs::Shortening::shift_below))]
fn shift_below(most: u8, number: i32) -> Option<u8>
    ensures { result ≡ shift_below most number }
{
    if most == 0 {
        return None;
    }
    if value(Code::Shl, 1, i32::from(most)) == number {
        Some(most)
    } else {
        shift_below(most - 1, number)
    }
}

/// How far 1 is shifted to be a number.
#[tactic(auto, unfolding(crate::specs::Shortening::shift_of))]
fn shift_of(number: i32) -> Option<u8>
    ensures { result ≡ shift_of number }
{
    shift_below(30, number)
}

fn shift_in(operand: Operand) -> Option<u8>
    ensures { result ≡ shift_in operand }
{
    match operand {
        Operand::Held(_) => None,
        Operand::Number(number) => shift_of(number),
        Operand::Stack => None,
    }
}

fn shifted_or(shift: Option<u8>, to: Value, left: Operand, otherwise: Op) -> Op
    ensures { result ≡ shifted_or shift to left otherwise }
{
    match shift {
        None => otherwise,
        Some(places) => Op::Compute {
            code: Code::Shl,
            to,
            left,
            right: Operand::Number(i32::from(places)),
        },
    }
}

fn low_or(test: bool, to: Value, left: Operand, right: Operand, otherwise: Op) -> Op
    ensures { result ≡ low_or test to left right otherwise }
{
    if test {
        Op::Compute {
            code: Code::Mpylu,
            to,
            left,
            right,
        }
    } else {
        otherwise
    }
}

fn names_number(operand: Operand) -> bool
    ensures { result ≡ names_number operand }
{
    match operand {
        Operand::Held(_) => false,
        Operand::Number(_) => true,
        Operand::Stack => false,
    }
}

/// The product of two operands in one operation, where there is such a one, with the number on the right.
fn product_or(facts: &[Fact], to: Value, left: Operand, right: Operand, otherwise: Op) -> Op
    ensures { result ≡ product_or facts.now to left right otherwise }
{
    let small = is_half(range_of(facts, left));
    let third = low_or(small, to, right, left, otherwise);
    let second = low_or(is_half(range_of(facts, right)), to, left, right, third);
    let first = low_or(names_number(left) && small, to, right, left, second);
    shifted_or(
        shift_in(right),
        to,
        left,
        shifted_or(shift_in(left), to, right, first),
    )
}

fn is_low(value: Value, to: Value, code: Code) -> bool
    ensures { result ≡ is_low value to code }
{
    match code {
        Code::Mpylu => to == value,
        _ => false,
    }
}

/// The operands whose low product a value holds.
fn factors_of(facts: &[Fact], value: Value) -> Option<Factors>
    ensures { result ≡ factors_of facts.now value }
{
    for fact in facts {
        match *fact {
            Fact::Between { .. } | Fact::Congruent { .. } | Fact::Never => {}
            Fact::Equals {
                value: to,
                code,
                left,
                right,
            } => {
                if is_low(value, to, code) {
                    return Some(Factors { left, right });
                }
            }
        }
    }
    None
}

/// The same by the facts of a list.
#[tactic(auto, using(crate::proofs::Factors::unlinked_factors))]
fn factors_in(facts: &FactList, value: Value) -> Option<Factors>
    ensures { result ≡ factors_of facts.now value }
{
    if facts.is_linked(value) {
        factors_of(facts.as_slice(), value)
    } else {
        None
    }
}

fn product_if(
    test: bool,
    facts: &[Fact],
    to: Value,
    left: Operand,
    right: Operand,
    otherwise: Op,
) -> Op
    ensures { result ≡ product_if test facts.now to left right otherwise }
{
    if test {
        product_or(facts, to, left, right, otherwise)
    } else {
        otherwise
    }
}

fn sum_as(facts: &[Fact], factors: Option<Factors>, to: Value, high: Value, otherwise: Op) -> Op
    ensures { result ≡ sum_as facts.now factors to high otherwise }
{
    match factors {
        None => otherwise,
        Some(Factors { left, right }) => product_if(
            has_equals(facts, high, Code::Mpyhs, left, right),
            facts,
            to,
            left,
            right,
            otherwise,
        ),
    }
}

fn short_sum(facts: &FactList, to: Value, left: Operand, right: Operand) -> Op
    ensures { result ≡ short_sum facts.now to left right }
{
    let sum = Op::Compute {
        code: Code::Add,
        to,
        left,
        right,
    };
    match (left, right) {
        (Operand::Held(low), Operand::Held(high)) => {
            sum_as(facts.as_slice(), factors_in(facts, low), to, high, sum)
        }
        _ => sum,
    }
}

/// The operation, or the whole product in one operation where it is the sum of two half products, or the mask of what stands behind.
pub fn shortened(facts: &FactList, op: Op) -> Op
    ensures { result ≡ shortened facts.now op }
{
    match op {
        Op::Compute {
            code: Code::Add,
            to,
            left,
            right,
        } => short_sum(facts, to, left, right),
        Op::Compute {
            code: Code::And,
            to,
            left,
            right,
        } => far_mask(facts.as_slice(), to, left, right),
        other => other,
    }
}
