// What is known of the value that an operation makes, by what is known of its operands (specs/Followed.antt).

ghost use Rattle.std.specs.Prelude.{◌≡◌, ◌≢◌, IfOk};
ghost use Rattle.vx_linear.specs.Followed.{plain, number_in, common, are_halves, product_or, times_or, by_half, computed};
ghost use Rattle.vx_linear.specs.Linear.{plus, symbol};

use crate::form::Symbol;
use crate::linear::{Linear, are_same, copy, minus, plus, symbol, times};
use std::alloc::{AllocError, Global};
use vx_arithmetic::value;
use vx_base::arithmetic::Code;
use vx_flow::graph::Operand;

/// An operand of a half multiplication: its form, and the number that it is, if it is one.
#[derive(Drop)]
pub(crate) struct Factor {
    pub(crate) number: Option<i32>,
    pub(crate) linear: Linear,
}

/// A half multiplication, by the high or the low half of its right operand.
#[derive(Drop)]
pub(crate) struct Half {
    pub(crate) is_high: bool,
    pub(crate) left: Factor,
    pub(crate) right: Factor,
}

/// What is known of a value: its form, and the half multiplication that made it, if one did.
#[derive(Drop)]
pub(crate) struct Known {
    pub(crate) linear: Linear,
    pub(crate) half: Option<Half>,
}

/// An operand, and what is known of it.
#[derive(Drop)]
pub(crate) struct Read {
    pub(crate) operand: Operand,
    pub(crate) known: Known,
}

pub(crate) fn plain(linear: Linear) -> Known
    ensures { result ≡ plain linear }
{
    Known { linear, half: None }
}

/// The symbol of what the operation at a place makes.
pub(crate) fn made_at(alloc: Global, place: u32) -> Result<Known, AllocError>
    ensures { IfOk result (λ known. known ≡ plain (symbol (Symbol.Made place))) }
{
    let linear = symbol(alloc, Symbol::Made(place))?;
    Ok(plain(linear))
}

fn number_in(operand: &Operand) -> Option<i32>
    ensures { result ≡ number_in operand.now }
{
    match operand {
        Operand::Number(number) => Some(*number),
        _ => None,
    }
}

fn common(left: Option<i32>, right: Option<i32>) -> Option<i32>
    ensures { result ≡ common left right }
{
    match (left, right) {
        (Some(number), Some(other)) => { if number == other { Some(number) } else { None } }
        _ => None,
    }
}

fn are_halves(one: &Half, other: &Half) -> bool
    ensures { result ≡ are_halves one.now other.now }
{
    one.is_high != other.is_high
        && are_same(&one.left.linear, &other.left.linear)
        && are_same(&one.right.linear, &other.right.linear)
}

/// The product that two half multiplications make up, or else the sum.
fn product_or_sum(alloc: Global, left: &Known, right: &Known) -> Result<Linear, AllocError>
    ensures { IfOk result (λ linear. linear ≡ product_or left.now.half right.now.half (plus left.now.linear right.now.linear)) }
{
    if let (Some(one), Some(other)) = (&left.half, &right.half) {
        if are_halves(one, other) {
            if let Some(number) = common(one.left.number, other.left.number) {
                return times(alloc, number, &one.right.linear);
            }
            if let Some(number) = common(one.right.number, other.right.number) {
                return times(alloc, number, &one.left.linear);
            }
        }
    }
    plus(alloc, &left.linear, &right.linear)
}

/// An operation by a number, or else the symbol of what it makes.
fn by_number(
    alloc: Global,
    place: u32,
    code: Code,
    left: &Known,
    right: &Operand,
) -> Result<Linear, AllocError>
    ensures { IfOk result (λ linear. linear ≡ times_or (number_in right.now) code left.now.linear (symbol (Symbol.Made place))) }
{
    match number_in(right) {
        Some(number) => times(alloc, value(code, 1, number), &left.linear),
        None => symbol(alloc, Symbol::Made(place)),
    }
}

/// What is known of a half multiplication.
fn half_product(
    alloc: Global,
    is_high: bool,
    place: u32,
    code: Code,
    left: Read,
    right: Read,
) -> Result<Known, AllocError>
    ensures { IfOk result (λ known. known ≡ by_half is_high place code left.operand right.operand left.known right.known) }
{
    let linear = by_number(alloc, place, code, &left.known, &right.operand);
    let half = Half {
        is_high,
        left: factor_of(left),
        right: factor_of(right),
    };
    Ok(Known {
        linear: linear?,
        half: Some(half),
    })
}

fn factor_of(read: Read) -> Factor
    ensures { result ≡ record { number = number_in read.operand; linear = read.known.linear } }
{
    Factor {
        number: number_in(&read.operand),
        linear: read.known.linear,
    }
}

/// The form of what an operation makes of two operands, where it is no half multiplication.
fn form_made(
    alloc: Global,
    place: u32,
    code: Code,
    left: &Read,
    right: &Read,
) -> Result<Linear, AllocError>
    ensures { IfOk result (λ linear. code ≢ Code.Mpylu → code ≢ Code.Mpyhs → computed place code left.now.operand right.now.operand left.now.known right.now.known ≡ plain linear) }
{
    match code {
        Code::Add => product_or_sum(alloc, &left.known, &right.known),
        Code::Sub => minus(alloc, &left.known.linear, &right.known.linear),
        Code::Mov => copy(alloc, &left.known.linear),
        Code::Shl => by_number(alloc, place, code, &left.known, &right.operand),
        _ => symbol(alloc, Symbol::Made(place)),
    }
}

/// What is known of what such an operation makes: its form alone.
fn plain_made(
    alloc: Global,
    place: u32,
    code: Code,
    left: &Read,
    right: &Read,
) -> Result<Known, AllocError>
    ensures { IfOk result (λ known. code ≢ Code.Mpylu → code ≢ Code.Mpyhs → computed place code left.now.operand right.now.operand left.now.known right.now.known ≡ known) }
{
    let linear = form_made(alloc, place, code, left, right)?;
    Ok(plain(linear))
}

/// What is known of the value that an operation makes of two operands, of which this is known.
pub(crate) fn computed(
    alloc: Global,
    place: u32,
    code: Code,
    left: Read,
    right: Read,
) -> Result<Known, AllocError>
    ensures { IfOk result (λ known. known ≡ computed place code left.operand right.operand left.known right.known) }
{
    match code {
        Code::Mpylu => half_product(alloc, false, place, code, left, right),
        Code::Mpyhs => half_product(alloc, true, place, code, left, right),
        _ => plain_made(alloc, place, code, &left, &right),
    }
}

fn copy_factor(alloc: Global, factor: &Factor) -> Result<Factor, AllocError>
    ensures { IfOk result (λ copy. copy ≡ factor.now) }
{
    let linear = copy(alloc, &factor.linear)?;
    Ok(Factor {
        number: factor.number,
        linear,
    })
}

fn copy_half(alloc: Global, half: &Half) -> Result<Half, AllocError>
    ensures { IfOk result (λ copy. copy ≡ half.now) }
{
    let left = copy_factor(alloc, &half.left)?;
    let right = copy_factor(alloc, &half.right)?;
    Ok(Half {
        is_high: half.is_high,
        left,
        right,
    })
}

pub(crate) fn copy_known(alloc: Global, known: &Known) -> Result<Known, AllocError>
    ensures { IfOk result (λ copy. copy ≡ known.now) }
{
    let linear = copy(alloc, &known.linear)?;
    let half = match &known.half {
        Some(half) => Some(copy_half(alloc, half)?),
        None => None,
    };
    Ok(Known { linear, half })
}
