// Intervals of numbers of 32 bits: what operations give, and what a test says of its operands.

ghost use Rattle.std.specs.Prelude.{◌≡◌, ◌+ℤ◌, ◌-ℤ◌, ◌*ℤ◌, ◌&&◌, int_le};
ghost use Rattle.vx_base.specs.Arithmetic.{opposite};
ghost use Rattle.vx_claims.specs.Facts.{always, and_within, answer_of, below_unsigned, bit, compare_decided, difference_within, fitting, full, high_product_within, is_above, is_half, is_single, left_within, low_product_residue, low_product_within, meet, one_less, one_more, product_if, remainder_within, result_residue, result_within, right_within, shifted_residue, shifted_within, sum_within, times_if, times_or_product, unequal_within, up_to, without_end};

use crate::residues::{self, Residue, times, unknown};
use vx_arithmetic::value;
use vx_base::arithmetic::{Code, Compare};

/// The numbers from one to another.
#[derive(Clone, Copy)]
pub struct Interval {
    pub low: i32,
    pub high: i32,
}

/// Every number.
pub fn full() -> Interval
    ensures { result ≡ full }
{
    Interval {
        low: i32::MIN,
        high: i32::MAX,
    }
}

/// What both intervals have.
pub fn meet(i: Interval, j: Interval) -> Interval
    ensures { result ≡ meet i j }
{
    Interval {
        low: i.low.max(j.low),
        high: i.high.min(j.high),
    }
}

/// From one number to the other, where there are such numbers and none of them wraps.
fn fit(low: i64, high: i64) -> Interval
    ensures { result ≡ fitting low high }
{
    if i64::from(i32::MIN) <= low && high <= i64::from(i32::MAX) && low <= high {
        Interval {
            low: low as i32,
            high: high as i32,
        }
    } else {
        Interval {
            low: i32::MIN,
            high: i32::MAX,
        }
    }
}

/// A sum that does not wrap.
fn total(a: i32, b: i32) -> i64
    ensures { result ≡ a +ℤ b }
{
    i64::from(a) + i64::from(b)
}

/// A difference that does not wrap.
fn gap(a: i32, b: i32) -> i64
    ensures { result ≡ a -ℤ b }
{
    i64::from(a) - i64::from(b)
}

/// Where a sum lies.
fn sum(i: Interval, j: Interval) -> Interval
    ensures { result ≡ sum_within i j }
{
    fit(total(i.low, j.low), total(i.high, j.high))
}

/// Where a difference lies.
fn difference(i: Interval, j: Interval) -> Interval
    ensures { result ≡ difference_within i j }
{
    fit(gap(i.low, j.high), gap(i.high, j.low))
}

fn up_to(test: bool, high: i32, otherwise: Interval) -> Interval
    ensures { result ≡ up_to test high otherwise }
{
    if test {
        Interval { low: 0, high }
    } else {
        otherwise
    }
}

fn is_above(least: i32, i: Interval) -> bool
    ensures { result ≡ is_above least i }
{
    least <= i.low && (least <= i.high && i.high <= i32::MAX)
}

/// Where the bits set in both lie.
fn both(i: Interval, j: Interval) -> Interval
    ensures { result ≡ and_within i j }
{
    up_to(
        is_above(0, j),
        j.high,
        up_to(is_above(0, i), i.high, full()),
    )
}

/// Where a remainder lies.
fn remainder(i: Interval, j: Interval) -> Interval
    ensures { result ≡ remainder_within i j }
{
    if is_above(0, i) && is_above(1, j) {
        up_to(true, j.high - 1, full())
    } else {
        full()
    }
}

/// A product that does not wrap.
fn scaled(a: i32, b: i32) -> i64
    ensures { result ≡ a *ℤ b }
{
    i64::from(a) * i64::from(b)
}

/// Where a product with one number lies, where the test holds.
pub fn times_if(test: bool, i: Interval, number: i32) -> Interval
    ensures { result ≡ times_if test i number }
{
    if test {
        fit(scaled(i.low, number), scaled(i.high, number))
    } else {
        full()
    }
}

/// Where a product of numbers that are not below 0 lies, where the test holds.
fn product_if(test: bool, i: Interval, j: Interval) -> Interval
    ensures { result ≡ product_if test i j }
{
    if test {
        fit(scaled(i.low, j.low), scaled(i.high, j.high))
    } else {
        full()
    }
}

pub fn is_half(j: Interval) -> bool
    ensures { result ≡ is_half j }
{
    0 <= j.low && j.high <= 65535
}

fn times_or_product(one: bool, test: bool, i: Interval, j: Interval) -> Interval
    ensures { result ≡ times_or_product one test i j }
{
    if one {
        times_if(true, i, j.low)
    } else {
        product_if(test, i, j)
    }
}

/// Where the product with the low half of a number lies.
fn low_product(i: Interval, j: Interval) -> Interval
    ensures { result ≡ low_product_within i j }
{
    times_or_product(
        j.high <= j.low && is_half(j),
        0 <= i.low && is_half(j),
        i,
        j,
    )
}

/// Where the product with the high half of a number lies.
fn high_product(j: Interval) -> Interval
    ensures { result ≡ high_product_within j }
{
    if is_half(j) {
        Interval { low: 0, high: 0 }
    } else {
        full()
    }
}

/// 0 or 1.
pub fn bit() -> Interval
    ensures { result ≡ bit }
{
    Interval { low: 0, high: 1 }
}

/// What a shift by a number of places gives.
fn shifted_within(i: Interval, j: Interval) -> Interval
    ensures { result ≡ shifted_within i j }
{
    let power = value(Code::Shl, 1, j.low);
    times_if(j.high <= j.low && 0 <= power, i, power)
}

/// Where the result of an operation lies.
pub fn result_within(code: Code, i: Interval, j: Interval) -> Interval
    ensures { result ≡ result_within code i j }
{
    match code {
        Code::Add => sum(i, j),
        Code::Sub => difference(i, j),
        Code::And => both(i, j),
        Code::Shl => shifted_within(i, j),
        Code::Mpylu => low_product(i, j),
        Code::Mpyhs => high_product(j),
        Code::Rem => remainder(i, j),
        Code::Mov => i,
        Code::ToGeneral(_) => bit(),
        Code::ToBranch(_) => bit(),
        Code::Or => full(),
        Code::Xor => full(),
        Code::Shr => full(),
        Code::Shru => full(),
        Code::Sh2add => full(),
        Code::Max => full(),
        Code::Min => full(),
        Code::Div => full(),
    }
}

/// Whether an interval has one number at most.
pub fn is_single(within: Interval) -> bool
    ensures { result ≡ is_single within }
{
    within.high <= within.low
}

/// What is known of what a shift by a number of places gives.
fn shifted_residue(j: Interval, residue: Residue) -> Residue
    ensures { result ≡ shifted_residue j residue }
{
    if is_single(j) {
        times(residue, value(Code::Shl, 1, j.low))
    } else {
        unknown()
    }
}

/// What is known of the product with the low half of a number.
fn low_product_residue(i: Interval, j: Interval, first: Residue, second: Residue) -> Residue
    ensures { result ≡ low_product_residue i j first second }
{
    if !is_half(j) {
        unknown()
    } else if is_single(j) {
        times(first, j.low)
    } else if is_single(i) {
        times(second, i.low)
    } else {
        unknown()
    }
}

/// What is known of the low bits of the result of an operation.
pub fn result_residue(
    code: Code,
    i: Interval,
    j: Interval,
    first: Residue,
    second: Residue,
) -> Residue
    ensures { result ≡ result_residue code i j first second }
{
    match code {
        Code::Add => residues::sum(first, second),
        Code::Sub => residues::difference(first, second),
        Code::Shl => shifted_residue(j, first),
        Code::Mpylu => low_product_residue(i, j, first, second),
        Code::Mov => first,
        Code::Mpyhs
        | Code::And
        | Code::Or
        | Code::Xor
        | Code::Shr
        | Code::Shru
        | Code::Sh2add
        | Code::Max
        | Code::Min
        | Code::Div
        | Code::Rem
        | Code::ToGeneral(_)
        | Code::ToBranch(_) => unknown(),
    }
}

/// The compare that holds where another one fails.
pub fn opposite(compare: Compare) -> Compare
    ensures { result ≡ opposite compare }
{
    match compare {
        Compare::Eq => Compare::Ne,
        Compare::Ne => Compare::Eq,
        Compare::Lt => Compare::Ge,
        Compare::Le => Compare::Gt,
        Compare::Gt => Compare::Le,
        Compare::Ge => Compare::Lt,
        Compare::Ltu => Compare::Geu,
        Compare::Geu => Compare::Ltu,
    }
}

fn one_less(number: i32) -> i32
    ensures { result ≡ one_less number }
{
    if number <= i32::MIN {
        i32::MIN
    } else {
        number - 1
    }
}

fn one_more(number: i32) -> i32
    ensures { result ≡ one_more number }
{
    if i32::MAX <= number {
        i32::MAX
    } else {
        number + 1
    }
}

fn below_unsigned(j: Interval) -> Interval
    ensures { result ≡ below_unsigned j }
{
    if is_above(0, j) {
        Interval {
            low: 0,
            high: j.high - 1,
        }
    } else {
        full()
    }
}

fn at_most(high: i32) -> Interval
    ensures { result ≡ record full { high = high } }
{
    Interval {
        low: i32::MIN,
        high,
    }
}

fn at_least(low: i32) -> Interval
    ensures { result ≡ record full { low = low } }
{
    Interval {
        low,
        high: i32::MAX,
    }
}

/// The numbers of an interval without one that is the lowest or the highest of several.
fn without_end(i: Interval, number: i32) -> Interval
    ensures { result ≡ without_end i number }
{
    if i.high <= i.low {
        i
    } else if i.low == number {
        Interval {
            low: i.low + 1,
            high: i.high,
        }
    } else if i.high == number {
        Interval {
            low: i.low,
            high: i.high - 1,
        }
    } else {
        i
    }
}

/// Where a number of one interval lies that is not equal to a number of the other.
fn unequal(i: Interval, j: Interval) -> Interval
    ensures { result ≡ unequal_within i j }
{
    if j.low == j.high {
        without_end(i, j.low)
    } else {
        i
    }
}

/// Where the left operand lies if a compare of numbers of two intervals holds.
pub fn left_within(compare: Compare, i: Interval, j: Interval) -> Interval
    ensures { result ≡ left_within compare i j }
{
    match compare {
        Compare::Eq => j,
        Compare::Ne => unequal(i, j),
        Compare::Lt => at_most(one_less(j.high)),
        Compare::Le => at_most(j.high),
        Compare::Gt => at_least(one_more(j.low)),
        Compare::Ge => at_least(j.low),
        Compare::Ltu => below_unsigned(j),
        Compare::Geu => full(),
    }
}

/// Where the right operand lies if a compare of numbers of two intervals holds.
pub fn right_within(compare: Compare, i: Interval, j: Interval) -> Interval
    ensures { result ≡ right_within compare i j }
{
    match compare {
        Compare::Eq => i,
        Compare::Ne => unequal(j, i),
        Compare::Lt => at_least(one_more(i.low)),
        Compare::Le => at_least(i.low),
        Compare::Gt => at_most(one_less(i.high)),
        Compare::Ge => at_most(i.high),
        Compare::Ltu => full(),
        Compare::Geu => full(),
    }
}

/// Whether a compare of numbers of two intervals always holds.
pub fn always(compare: Compare, i: Interval, j: Interval) -> bool
    ensures { result ≡ always compare i j }
{
    match compare {
        Compare::Eq => false,
        Compare::Ne => i.high < j.low || j.high < i.low,
        Compare::Lt => i.high < j.low,
        Compare::Le => i.high <= j.low,
        Compare::Gt => j.high < i.low,
        Compare::Ge => j.high <= i.low,
        Compare::Ltu => (0 <= i.low && i.high < j.low) && j.high <= i32::MAX,
        Compare::Geu => (0 <= j.low && j.high <= i.low) && i.high <= i32::MAX,
    }
}

/// How a compare of numbers of two intervals comes out, where it always comes out so.
pub fn compare_decided(compare: Compare, i: Interval, j: Interval) -> Option<bool>
    ensures { result ≡ compare_decided compare i j }
{
    if always(compare, i, j) {
        Some(true)
    } else if always(opposite(compare), i, j) {
        Some(false)
    } else {
        None
    }
}
