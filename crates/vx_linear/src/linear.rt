// Sums of symbols with factors, modulo 2^32 (specs/Linear.antt).

ghost use Rattle.std.specs.Prelude.{◌≡◌, ◌++◌, ◌&&◌, List, true, IfOk, OnOk};
ghost use Rattle.std.specs.Ordering.{int_eq};
ghost use Rattle.vx_linear.specs.declared.form.Term.{Term as ATerm};
ghost use Rattle.vx_base.specs.Arithmetic.{sum_of, product_of};
ghost use Rattle.vx_linear.specs.Ascending.{ascend};
ghost use Rattle.vx_linear.specs.Forms.{is_same};
ghost use Rattle.vx_linear.specs.Steps.{is_before_first};
ghost use Rattle.vx_linear.specs.Linear.{constant, symbol, unless_zero, with_term, with_terms, scaled, plus, minus, times, same_terms, same};

use crate::form::{Symbol, Term};
use std::alloc::{AllocError, Global};
use vx_arithmetic::{add32, mul32};
use vx_base::listed::{Listed, copied};

/// A constant and a sum of symbols with factors, the symbols ascending.
#[derive(Drop)]
pub(crate) struct Linear {
    pub(crate) constant: i32,
    pub(crate) terms: Listed<Term>,
}

/// A number.
pub(crate) fn constant(alloc: Global, number: i32) -> Linear
    ensures { result ≡ constant number }
{
    Linear {
        constant: number,
        terms: Listed::new(alloc),
    }
}

/// One symbol.
pub(crate) fn symbol(alloc: Global, of: Symbol) -> Result<Linear, AllocError>
    ensures { IfOk result (λ linear. linear ≡ symbol of) }
{
    let mut terms = Listed::new(alloc);
    terms.push(Term {
        symbol: of,
        factor: 1,
    })?;
    Ok(Linear { constant: 0, terms })
}

fn push_unless_zero(list: &mut Listed<Term>, term: Term) -> Result<(), AllocError>
    ensures { OnOk result ((rest : List ATerm) → list.new ++ rest ≡ list.old ++ unless_zero term rest) }
{
    if term.factor != 0 {
        list.push(term)?;
    }
    Ok(())
}

fn push_all(list: &mut Listed<Term>, terms: &[Term]) -> Result<(), AllocError>
    ensures { OnOk result (list.new ≡ list.old ++ terms.now) }
{
    let mut rest = terms;
    'copy: loop {
        match rest.split_first() {
            None => return Ok(()),
            Some((first, others)) => {
                list.push(*first)?;
                rest = others;
            }
        }
    }
}

/// One more term, in its place.
fn with_term(alloc: Global, term: Term, terms: &[Term]) -> Result<Listed<Term>, AllocError>
    ensures { IfOk result (λ list. list ≡ with_term term terms.now) }
{
    let mut list = Listed::new(alloc);
    let mut rest = terms;
    'insert: loop {
        match rest.split_first() {
            None => {
                push_unless_zero(&mut list, term)?;
                return Ok(list);
            }
            Some((first, others)) => {
                if term.symbol.is_before(&first.symbol) {
                    push_unless_zero(&mut list, term)?;
                    push_all(&mut list, rest)?;
                    return Ok(list);
                }
                if term.symbol.is_same(&first.symbol) {
                    push_unless_zero(&mut list, added(&term, first))?;
                    push_all(&mut list, others)?;
                    return Ok(list);
                }
                list.push(*first)?;
                rest = others;
            }
        }
    }
}

fn added(term: &Term, onto: &Term) -> Term
    ensures { result ≡ record { symbol = onto.now.symbol; factor = sum_of term.now.factor onto.now.factor } }
{
    Term {
        symbol: onto.symbol,
        factor: add32(term.factor, onto.factor),
    }
}

fn multiplied(number: i32, term: &Term) -> Term
    ensures { result ≡ record { symbol = term.now.symbol; factor = product_of number term.now.factor } }
{
    Term {
        symbol: term.symbol,
        factor: mul32(number, term.factor),
    }
}

/// All terms of a row onto another.
fn with_terms(alloc: Global, terms: &[Term], onto: &[Term]) -> Result<Listed<Term>, AllocError>
    ensures { IfOk result (λ list. list ≡ with_terms terms.now onto.now) }
{
    if ascend(terms) {
        merged(alloc, terms, onto)
    } else {
        inserted(alloc, terms, onto)
    }
}

/// Whether each symbol of a row is before the next.
fn ascend(terms: &[Term]) -> bool
    ensures { result ≡ ascend terms.now }
{
    let mut rest = terms;
    'ascend: loop {
        match rest.split_first() {
            None => return true,
            Some((first, others)) => {
                if !is_before_first(&first.symbol, others) {
                    return false;
                }
                rest = others;
            }
        }
    }
}

fn is_before_first(symbol: &Symbol, terms: &[Term]) -> bool
    ensures { result ≡ is_before_first symbol.now terms.now }
{
    match terms.first() {
        None => true,
        Some(first) => symbol.is_before(&first.symbol),
    }
}

/// The same where the terms ascend: what one of them passes, all behind it pass too, so that each row is gone through once.
fn merged(alloc: Global, terms: &[Term], onto: &[Term]) -> Result<Listed<Term>, AllocError>
    requires { ascend terms.now ≡ true }
    ensures { IfOk result (λ list. list ≡ with_terms terms.now onto.now) }
{
    let mut list = Listed::new(alloc);
    let mut rest = terms;
    let mut left = onto;
    'merge: loop {
        match (rest.split_first(), left.split_first()) {
            (None, _) => {
                push_all(&mut list, left)?;
                return Ok(list);
            }
            (Some((term, behind)), None) => {
                push_unless_zero(&mut list, *term)?;
                rest = behind;
            }
            (Some((term, behind)), Some((other, others))) => {
                if other.symbol.is_before(&term.symbol) {
                    list.push(*other)?;
                    left = others;
                } else if term.symbol.is_same(&other.symbol) {
                    push_unless_zero(&mut list, added(term, other))?;
                    rest = behind;
                    left = others;
                } else {
                    push_unless_zero(&mut list, *term)?;
                    rest = behind;
                }
            }
        }
    }
}

/// The same for any terms, one after the other.
fn inserted(alloc: Global, terms: &[Term], onto: &[Term]) -> Result<Listed<Term>, AllocError>
    ensures { IfOk result (λ list. list ≡ with_terms terms.now onto.now) }
{
    let mut list = copied(alloc, onto)?;
    let mut rest = terms;
    'insert: loop {
        match rest.split_first() {
            None => return Ok(list),
            Some((first, others)) => {
                list = with_term(alloc, *first, list.as_slice())?;
                rest = others;
            }
        }
    }
}

fn scaled(alloc: Global, number: i32, terms: &[Term]) -> Result<Listed<Term>, AllocError>
    ensures { IfOk result (λ list. list ≡ scaled number terms.now) }
{
    let mut list = Listed::new(alloc);
    let mut rest = terms;
    'scale: loop {
        match rest.split_first() {
            None => return Ok(list),
            Some((first, others)) => {
                push_unless_zero(&mut list, multiplied(number, first))?;
                rest = others;
            }
        }
    }
}

/// The sum.
pub(crate) fn plus(alloc: Global, left: &Linear, right: &Linear) -> Result<Linear, AllocError>
    ensures { IfOk result (λ linear. linear ≡ plus left.now right.now) }
{
    let terms = with_terms(alloc, left.terms.as_slice(), right.terms.as_slice())?;
    Ok(Linear {
        constant: add32(left.constant, right.constant),
        terms,
    })
}

/// The product with a number.
pub(crate) fn times(alloc: Global, number: i32, linear: &Linear) -> Result<Linear, AllocError>
    ensures { IfOk result (λ product. product ≡ times number linear.now) }
{
    let terms = scaled(alloc, number, linear.terms.as_slice())?;
    Ok(Linear {
        constant: mul32(number, linear.constant),
        terms,
    })
}

/// The difference.
pub(crate) fn minus(alloc: Global, left: &Linear, right: &Linear) -> Result<Linear, AllocError>
    ensures { IfOk result (λ linear. linear ≡ minus left.now right.now) }
{
    let negative = times(alloc, -1, right)?;
    plus(alloc, left, &negative)
}

/// A copy.
pub(crate) fn copy(alloc: Global, linear: &Linear) -> Result<Linear, AllocError>
    ensures { IfOk result (λ copy. copy ≡ linear.now) }
{
    let terms = copied(alloc, linear.terms.as_slice())?;
    Ok(Linear {
        constant: linear.constant,
        terms,
    })
}

/// Whether two rows of terms are equal.
pub(crate) fn have_equal_terms(left: &[Term], right: &[Term]) -> bool
    ensures { result ≡ same_terms left.now right.now }
{
    let mut to_left = left;
    let mut to_right = right;
    'compare: loop {
        match (to_left.split_first(), to_right.split_first()) {
            (None, None) => return true,
            (Some((first, left_rest)), Some((second, right_rest))) => {
                if !is_equal(first, second) {
                    return false;
                }
                to_left = left_rest;
                to_right = right_rest;
            }
            _ => return false,
        }
    }
}

fn is_equal(first: &Term, second: &Term) -> bool
    ensures { result ≡ (is_same first.now.symbol second.now.symbol && int_eq first.now.factor second.now.factor) }
{
    first.symbol.is_same(&second.symbol) && first.factor == second.factor
}

/// Whether two are equal.
pub(crate) fn are_same(left: &Linear, right: &Linear) -> bool
    ensures { result ≡ same left.now right.now }
{
    left.constant == right.constant
        && have_equal_terms(left.terms.as_slice(), right.terms.as_slice())
}
