// Sums of a value and a number. A computation on such a sum is one sum more of what the same computation on the value gave, where
// that is at hand: if y is 16 * k, then 16 * (k + 1) is y + 16. So what the turns of an unrolled loop compute from its counter does
// not wait for the counter, and most of the way there is not needed any more.

ghost use Rattle.std.specs.Prelude.{◌≡◌};
ghost use Rattle.vx_claims.specs.Sums.{as_is, based, based_difference, based_shift, based_sum, behind, below, held_as_sum, held_difference, held_sum, left_sum, number_added, plus, plus_or, right_sum, shifted, sum_at, sum_if};

use crate::fact::Fact;
use crate::fact_list::FactList;
use crate::known::found;
use vx_arithmetic::{add32, sub32, value};
use vx_base::arithmetic::Code;
use vx_flow::graph::{Operand, Value};

/// The sum of what a value holds and a number.
#[derive(Clone, Copy)]
pub struct Sum {
    pub base: Value,
    pub by: i32,
}

/// What a computation does, and with what.
#[derive(Clone, Copy)]
pub struct Computation {
    pub code: Code,
    pub left: Operand,
    pub right: Operand,
}

fn sum_if(test: bool, base: Value, by: i32) -> Option<Sum>
    ensures { result ≡ sum_if test base by }
{
    if test { Some(Sum { base, by }) } else { None }
}

/// The sum that a value holds by a fact on what a value holds.
fn sum_at(value: Value, named: Value, code: Code, left: Operand, right: Operand) -> Option<Sum>
    ensures { result ≡ sum_at value named code left right }
{
    match (left, right) {
        (Operand::Held(base), Operand::Number(by)) => match code {
            Code::Add => sum_if(named == value, base, by),
            Code::Sub => sum_if(named == value, base, sub32(0, by)),
            _ => None,
        },
        _ => None,
    }
}

/// The sum that a value is known to hold.
pub fn held_as_sum(facts: &[Fact], value: Value) -> Option<Sum>
    ensures { result ≡ held_as_sum facts.now value }
{
    for fact in facts {
        match *fact {
            Fact::Between { .. } | Fact::Congruent { .. } | Fact::Never => {}
            Fact::Equals {
                value: named,
                code,
                left,
                right,
            } => match sum_at(value, named, code, left, right) {
                Some(sum) => return Some(sum),
                None => {}
            },
        }
    }
    None
}

/// The same by the facts of a list.
#[tactic(auto, using(crate::proofs::Covering::unlinked_sum))]
pub(crate) fn sum_in(facts: &FactList, value: Value) -> Option<Sum>
    ensures { result ≡ held_as_sum facts.now value }
{
    if facts.is_linked(value) {
        held_as_sum(facts.as_slice(), value)
    } else {
        None
    }
}

/// The facts behind the one by which a value is such a sum. What they say was known before the sum was made.
fn behind(facts: &[Fact], value: Value) -> &[Fact]
    ensures { result.now ≡ behind facts.now value }
{
    let mut rest = facts;
    'next: loop {
        match rest {
            [] => return rest,
            [first, others @ ..] => {
                match *first {
                    Fact::Between { .. } | Fact::Congruent { .. } | Fact::Never => {}
                    Fact::Equals {
                        value: named,
                        code,
                        left,
                        right,
                    } => match sum_at(value, named, code, left, right) {
                        Some(_) => return others,
                        None => {}
                    },
                }
                rest = others;
            }
        }
    }
}

/// With the number the other way.
fn below(sum: Option<Sum>) -> Option<Sum>
    ensures { result ≡ below sum }
{
    match sum {
        Some(sum) => Some(Sum {
            base: sum.base,
            by: sub32(0, sum.by),
        }),
        None => None,
    }
}

fn as_is(code: Code, left: Operand, right: Operand) -> Computation
    ensures { result ≡ as_is code left right }
{
    Computation { code, left, right }
}

/// The number of a fact may be any in its definition; here it is one of 32 bits.
fn plus(base: Value, by: i32) -> Computation
    ensures { result ≡ plus base by }
{
    Computation {
        code: Code::Add,
        left: Operand::Held(base),
        right: Operand::Number(add32(0, by)),
    }
}

fn plus_or(base: Option<Value>, by: i32, otherwise: Computation) -> Computation
    ensures { result ≡ plus_or base by otherwise }
{
    match base {
        Some(base) => plus(base, by),
        None => otherwise,
    }
}

/// Such a sum and a number.
fn number_added(sum: Option<Sum>, by: i32, otherwise: Computation) -> Computation
    ensures { result ≡ number_added sum by otherwise }
{
    match sum {
        Some(sum) => plus(sum.base, add32(sum.by, by)),
        None => otherwise,
    }
}

/// A computation whose left operand is a value that is such a sum.
fn left_sum(
    facts: &FactList,
    left: Value,
    code: Code,
    sum: Option<Sum>,
    right: Operand,
    otherwise: Computation,
) -> Computation
    ensures { result ≡ left_sum (behind facts.now left) code sum right otherwise }
{
    match sum {
        Some(sum) => plus_or(
            found(
                behind(facts.as_slice(), left),
                code,
                Operand::Held(sum.base),
                right,
            ),
            sum.by,
            otherwise,
        ),
        None => otherwise,
    }
}

/// A computation whose right operand is a value that is such a sum.
fn right_sum(
    facts: &FactList,
    right: Value,
    code: Code,
    left: Operand,
    sum: Option<Sum>,
    otherwise: Computation,
) -> Computation
    ensures { result ≡ right_sum (behind facts.now right) code left sum otherwise }
{
    match sum {
        Some(sum) => plus_or(
            found(
                behind(facts.as_slice(), right),
                code,
                left,
                Operand::Held(sum.base),
            ),
            sum.by,
            otherwise,
        ),
        None => otherwise,
    }
}

/// The sum of two values.
fn held_sum(facts: &FactList, left: Value, right: Value) -> Computation
    ensures { result ≡ held_sum facts.now left right }
{
    let first = Operand::Held(left);
    let second = Operand::Held(right);
    let plain = as_is(Code::Add, first, second);
    let by_right = right_sum(facts, right, Code::Add, first, sum_in(facts, right), plain);
    left_sum(
        facts,
        left,
        Code::Add,
        sum_in(facts, left),
        second,
        by_right,
    )
}

/// The difference of two values.
fn held_difference(facts: &FactList, left: Value, right: Value) -> Computation
    ensures { result ≡ held_difference facts.now left right }
{
    let first = Operand::Held(left);
    let second = Operand::Held(right);
    let plain = as_is(Code::Sub, first, second);
    let sum = below(sum_in(facts, right));
    let by_right = right_sum(facts, right, Code::Sub, first, sum, plain);
    left_sum(
        facts,
        left,
        Code::Sub,
        sum_in(facts, left),
        second,
        by_right,
    )
}

/// Such a sum, which a value is, shifted by a number of places.
fn shifted(
    facts: &FactList,
    of: Value,
    sum: Option<Sum>,
    places: i32,
    otherwise: Computation,
) -> Computation
    ensures { result ≡ shifted (behind facts.now of) sum places otherwise }
{
    match sum {
        Some(sum) => plus_or(
            found(
                behind(facts.as_slice(), of),
                Code::Shl,
                Operand::Held(sum.base),
                Operand::Number(places),
            ),
            value(Code::Shl, sum.by, places),
            otherwise,
        ),
        None => otherwise,
    }
}

fn based_sum(facts: &FactList, left: Operand, right: Operand) -> Computation
    ensures { result ≡ based_sum facts.now left right }
{
    let plain = as_is(Code::Add, left, right);
    match (left, right) {
        (Operand::Held(value), Operand::Number(by)) => {
            number_added(sum_in(facts, value), by, plain)
        }
        (Operand::Held(one), Operand::Held(other)) => held_sum(facts, one, other),
        _ => plain,
    }
}

fn based_difference(facts: &FactList, left: Operand, right: Operand) -> Computation
    ensures { result ≡ based_difference facts.now left right }
{
    let plain = as_is(Code::Sub, left, right);
    match (left, right) {
        (Operand::Held(value), Operand::Number(by)) => {
            number_added(sum_in(facts, value), sub32(0, by), plain)
        }
        (Operand::Held(one), Operand::Held(other)) => held_difference(facts, one, other),
        _ => plain,
    }
}

fn based_shift(facts: &FactList, left: Operand, right: Operand) -> Computation
    ensures { result ≡ based_shift facts.now left right }
{
    let plain = as_is(Code::Shl, left, right);
    match (left, right) {
        (Operand::Held(value), Operand::Number(places)) => {
            shifted(facts, value, sum_in(facts, value), places, plain)
        }
        _ => plain,
    }
}

/// A computation with the same result: a sum of what is at hand, where its operands are such sums that were made later than that. So
/// the result is not waited for longer than they are.
pub fn based(facts: &FactList, code: Code, left: Operand, right: Operand) -> Computation
    ensures { result ≡ based facts.now code left right }
{
    match code {
        Code::Add => based_sum(facts, left, right),
        Code::Sub => based_difference(facts, left, right),
        Code::Shl => based_shift(facts, left, right),
        _ => as_is(code, left, right),
    }
}
