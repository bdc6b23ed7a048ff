// Whether two forms can name one word: by the greatest power of 2 that divides 2^30 and each factor of their
// difference. The indices of the two differ by the difference of the constants and some multiple of that power, and by
// every such number for some numbers of the symbols, since an odd number has an inverse modulo 2^30.

ghost use Rattle.std.specs.Prelude.{◌≡◌, ◌↔◌, ◌^◌, ◌%◌, true, nat_eq};
ghost use Rattle.vx_base.specs.Arithmetic.{IsNumber, unsigned, difference_of};
ghost use Rattle.vx_linear.specs.Forms.{NeverSame, AlwaysSame, is_ordered};
ghost use Rattle.vx_linear.specs.Linear.{are_equal, same_terms};
ghost use Rattle.vx_linear.specs.Steps.{IsStep, Narrows, Steps};

use crate::form::{Form, Term};
use crate::linear::have_equal_terms;
use vx_arithmetic::{sub32, unsigned32};
use vx_base::answer::Answer;
use vx_flow::arrays::are_apart;

/// Whether two accesses name one word: never, exactly where their arrays are apart or no numbers of the symbols make both
/// places equal; always, exactly where the array is one and the forms are equal. Where two arrays were handed over, or one of
/// them and the other is a global, they may be one array, and the indices alone tell. The terms of both must ascend by their
/// symbols, each symbol once and with a factor other than 0.
pub fn differs(left: &Form, right: &Form) -> Answer
    requires left { is_ordered left.now.terms ≡ true }
    requires right { is_ordered right.now.terms ≡ true }
    ensures never { (result ≡ Answer.Never) ↔ NeverSame left.now right.now }
    ensures always { (result ≡ Answer.Always) ↔ AlwaysSame left.now right.now }
{
    if are_apart(&left.array, &right.array) {
        return Answer::Never;
    }
    if are_equal(left, right) {
        return Answer::Always;
    }
    let step = step_between(left.terms.as_slice(), right.terms.as_slice());
    if is_multiple(left, right, step) {
        Answer::Maybe
    } else {
        Answer::Never
    }
}

/// Whether the numbers of the arrays, the constants and the terms are equal.
fn are_equal(left: &Form, right: &Form) -> bool
    ensures { result ≡ are_equal left.now right.now }
{
    left.array.named == right.array.named
        && left.constant == right.constant
        && have_equal_terms(left.terms.as_slice(), right.terms.as_slice())
}

/// The greatest power of 2 that divides 2^30 and each factor of the difference of two rows of terms.
fn step_between(left: &[Term], right: &[Term]) -> u32
    ensures steps { Steps left.now right.now (2 ^ 30) result }
    ensures step { IsStep result }
{
    let mut step = 1 << 30;
    let mut to_left = left;
    let mut to_right = right;
    'merge: loop {
        match (to_left.split_first(), to_right.split_first()) {
            (None, None) => return step,
            (Some((term, rest)), None) => {
                step = narrowed_by(step, term);
                to_left = rest;
            }
            (None, Some((term, rest))) => {
                step = narrowed_by(step, term);
                to_right = rest;
            }
            (Some((first, left_rest)), Some((second, right_rest))) => {
                if first.symbol.is_before(&second.symbol) {
                    step = narrowed_by(step, first);
                    to_left = left_rest;
                } else if first.symbol.is_same(&second.symbol) {
                    step = narrowed_by_difference(step, first, second);
                    to_left = left_rest;
                    to_right = right_rest;
                } else {
                    step = narrowed_by(step, second);
                    to_right = right_rest;
                }
            }
        }
    }
}

/// Whether the difference of the constants is a multiple of a power of 2.
fn is_multiple(left: &Form, right: &Form, step: u32) -> bool
    requires { IsStep step }
    ensures { result ≡ nat_eq (unsigned (difference_of left.now.constant right.now.constant) % step) 0 }
{
    difference(left.constant, right.constant) % step == 0
}

fn narrowed_by(step: u32, term: &Term) -> u32
    requires { IsStep step }
    ensures narrows { Narrows (unsigned term.now.factor) step result }
    ensures step { IsStep result }
    ensures fits { IsNumber term.now.factor }
{
    narrowed(step, unsigned32(term.factor))
}

fn narrowed_by_difference(step: u32, first: &Term, second: &Term) -> u32
    requires { IsStep step }
    ensures narrows { Narrows (unsigned (difference_of first.now.factor second.now.factor)) step result }
    ensures step { IsStep result }
{
    narrowed(step, difference(first.factor, second.factor))
}

/// The difference modulo 2^32, read without sign.
fn difference(left: i32, right: i32) -> u32
    ensures { result ≡ unsigned (difference_of left right) }
{
    unsigned32(sub32(left, right))
}

/// The greatest power of 2 that divides a power of 2 and a number.
fn narrowed(step: u32, number: u32) -> u32
    requires { IsStep step }
    ensures narrows { Narrows number step result }
    ensures step { IsStep result }
{
    if number % step == 0 {
        step
    } else {
        narrowed(step / 2, number)
    }
}
