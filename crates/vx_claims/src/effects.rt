// What an operation leaves of a list of facts, and what the answer of a test adds to it.

ghost use Rattle.std.specs.Prelude.{◌≡◌, ◌==◌, ◌||◌, ◌++◌, [], ◌∷◌, IfOk};
ghost use Rattle.std.specs.List.{list_any};
ghost use Rattle.vx_flow.specs.Sound.{is_value};
ghost use Rattle.vx_claims.specs.declared.fact.Fact.TheVariants.{Between};
ghost use Rattle.vx_claims.specs.Forming.{facts_if, is_test, newest, said_unless, same_form};
ghost use Rattle.vx_claims.specs.Facts.{agrees_in, came_out, compared, computed_residue, computed_within, equals_if, is_full, learned, learned_if, lies_in, names, on_side, operand_between, stands_in, without};

use crate::fact::Fact;
use crate::fact_list::FactList;
use crate::intervals::{
    Interval, is_single, left_within, opposite, result_residue, result_within, right_within,
    times_if,
};
use crate::known::{range_in, range_of, same_code, same_operand, sight_in};
use crate::residues::Residue;
use std::alloc::Global;
use vx_base::arithmetic::{Code, Compare};
use vx_base::listed::Listed;
use vx_base::outcome::NoMemory;
use vx_flow::graph::{Op, Operand, Value};
use vx_flow::operands::is_value;

/// Whether a fact is about a value, or about an operation that reads it.
pub fn names(value: Value, fact: Fact) -> bool
    ensures { result ≡ names value fact }
{
    match fact {
        Fact::Between { value: named, .. } => named == value,
        Fact::Congruent { value: named, .. } => named == value,
        Fact::Equals {
            value: named,
            left,
            right,
            ..
        } => named == value || (is_value(value, &left) || is_value(value, &right)),
        Fact::Never => false,
    }
}

/// Puts the facts that do not name a value at the end of a list.
fn append_without(list: &mut Listed<Fact>, facts: &[Fact], value: Value) -> Result<(), NoMemory>
    ensures { IfOk result (λ _. list.new ≡ list.old ++ without value facts.now) }
{
    for fact in facts {
        if !names(value, *fact) {
            list.push(*fact)?;
        }
    }
    Ok(())
}

/// Whether a fact of a list names a value.
pub(crate) fn any_names(facts: &[Fact], value: Value) -> bool
    ensures { result ≡ list_any (names value) facts.now }
{
    for fact in facts {
        if names(value, *fact) {
            return true;
        }
    }
    false
}

/// The facts that do not name a value.
pub fn without(alloc: Global, facts: &[Fact], value: Value) -> Result<Listed<Fact>, NoMemory>
    ensures { IfOk result (λ left. left ≡ without value facts.now) }
{
    let mut left = Listed::new(alloc);
    append_without(&mut left, facts, value)?;
    Ok(left)
}

/// Whether every number lies in an interval.
pub fn is_full(within: Interval) -> bool
    ensures { result ≡ is_full within }
{
    within.low <= i32::MIN && i32::MAX <= within.high
}

/// Puts where a value lies, where that says something, at the end of a list.
pub fn append_lies(list: &mut Listed<Fact>, value: Value, within: Interval) -> Result<(), NoMemory>
    ensures { IfOk result (λ _. list.new ≡ list.old ++ lies_in value within []) }
{
    if !is_full(within) {
        list.push(Fact::Between { value, within })?;
    }
    Ok(())
}

/// Puts what the low bits of a value are, where that says more than where it lies, at the end of a list.
fn append_agrees(
    list: &mut Listed<Fact>,
    value: Value,
    within: Interval,
    residue: Residue,
) -> Result<(), NoMemory>
    ensures { IfOk result (λ _. list.new ≡ list.old ++ agrees_in value within residue []) }
{
    if !(residue.places == 0 || is_single(within)) {
        list.push(Fact::Congruent { value, residue })?;
    }
    Ok(())
}

/// Puts where a value lies and what its low bits are, where that says something, at the end of a list.
pub fn append_stands(
    list: &mut Listed<Fact>,
    value: Value,
    within: Interval,
    residue: Residue,
) -> Result<(), NoMemory>
    ensures { IfOk result (λ _. list.new ≡ list.old ++ stands_in value within residue []) }
{
    append_lies(list, value, within)?;
    append_agrees(list, value, within, residue)
}

/// Puts where the result of a computation lies and what its low bits are at the end of a list.
pub fn append_result(
    list: &mut Listed<Fact>,
    facts: &FactList,
    code: Code,
    to: Value,
    left: Operand,
    right: Operand,
) -> Result<(), NoMemory>
    ensures { IfOk result (λ _. list.new ≡ list.old ++ stands_in to (computed_within facts.now code left right) (computed_residue facts.now code left right) []) }
{
    let first = sight_in(facts, left);
    let second = sight_in(facts, right);
    append_stands(
        list,
        to,
        result_within(code, first.within, second.within),
        result_residue(
            code,
            first.within,
            second.within,
            first.residue,
            second.residue,
        ),
    )
}

/// Puts where a value lies, and the facts that do not name it, at the end of a list.
pub fn append_within(
    list: &mut Listed<Fact>,
    facts: &[Fact],
    to: Value,
    within: Interval,
) -> Result<(), NoMemory>
    ensures { IfOk result (λ _. list.new ≡ list.old ++ lies_in to within (without to facts.now)) }
{
    append_lies(list, to, within)?;
    append_without(list, facts, to)
}

/// Whether an operation has another form with the same operands.
pub fn same_form(op: &Op, form: &Op) -> bool
    ensures { result ≡ same_form op.now form.now }
{
    match (*op, *form) {
        (
            Op::Compute {
                code,
                left,
                right,
                ..
            },
            Op::Compute {
                code: other,
                left: first,
                right: second,
                ..
            },
        ) => same_code(code, other) && (same_operand(left, first) && same_operand(right, second)),
        (Op::Place { index, .. }, Op::Place { index: other, .. }) => same_operand(index, other),
        _ => false,
    }
}

fn is_test(code: Code) -> bool
    ensures { result ≡ is_test code }
{
    match code {
        Code::ToBranch(_) => true,
        _ => false,
    }
}

/// Puts at the end of a list what a test compares, unless it reads what it writes.
fn append_test(
    list: &mut Listed<Fact>,
    code: Code,
    to: Value,
    left: Operand,
    right: Operand,
) -> Result<(), NoMemory>
    ensures { IfOk result (λ _. list.new ≡ list.old ++ facts_if (is_test code) (equals_if (is_value to left || is_value to right) to code left right)) }
{
    if is_test(code) && !(is_value(to, &left) || is_value(to, &right)) {
        list.push(Fact::Equals {
            value: to,
            code,
            left,
            right,
        })?;
    }
    Ok(())
}

/// Puts at the end of a list what an operation says in the words it had, where its form has others.
pub fn append_said_unless(
    list: &mut Listed<Fact>,
    facts: &FactList,
    test: bool,
    op: &Op,
) -> Result<(), NoMemory>
    ensures { IfOk result (λ _. list.new ≡ list.old ++ said_unless test facts.now op.now) }
{
    if test {
        return Ok(());
    }
    match *op {
        Op::Compute {
            code,
            to,
            left,
            right,
        } => {
            append_result(list, facts, code, to, left, right)?;
            append_test(list, code, to, left, right)
        }
        Op::Place { to, index, .. } => {
            let within = times_if(true, range_in(facts, index), 4);
            append_lies(list, to, within)
        }
        _ => Ok(()),
    }
}

/// Puts facts at the end of a list: of those on what operations give the first so many, of the others all.
pub fn append_newest(list: &mut Listed<Fact>, facts: &[Fact], left: usize) -> Result<(), NoMemory>
    ensures { IfOk result (λ _. list.new ≡ list.old ++ newest left facts.now) }
{
    match facts {
        [] => Ok(()),
        [first, rest @ ..] => match *first {
            Fact::Between { .. } | Fact::Congruent { .. } | Fact::Never => {
                list.push(*first)?;
                append_newest(list, rest, left)
            }
            Fact::Equals { .. } => {
                if left == 0 {
                    append_newest(list, rest, 0)
                } else {
                    list.push(*first)?;
                    append_newest(list, rest, left - 1)
                }
            }
        },
    }
}

fn append_between(
    list: &mut Listed<Fact>,
    operand: Operand,
    within: Interval,
) -> Result<(), NoMemory>
    ensures { IfOk result (λ _. list.new ≡ list.old ++ operand_between operand within) }
{
    match operand {
        Operand::Held(value) => {
            list.push(Fact::Between { value, within })?;
            Ok(())
        }
        Operand::Number(_) => Ok(()),
        Operand::Stack => Ok(()),
    }
}

fn append_compared(
    list: &mut Listed<Fact>,
    facts: &[Fact],
    compare: Compare,
    left: Operand,
    right: Operand,
) -> Result<(), NoMemory>
    ensures { IfOk result (λ _. list.new ≡ list.old ++ compared facts.now compare left right) }
{
    let left_range = range_of(facts, left);
    let right_range = range_of(facts, right);
    append_between(list, left, left_within(compare, left_range, right_range))?;
    append_between(list, right, right_within(compare, left_range, right_range))
}

fn append_learned_if(
    list: &mut Listed<Fact>,
    test: bool,
    facts: &[Fact],
    answer: bool,
    code: Code,
    left: Operand,
    right: Operand,
) -> Result<(), NoMemory>
    ensures { IfOk result (λ _. list.new ≡ list.old ++ learned_if test facts.now answer code left right) }
{
    if !test {
        return Ok(());
    }
    match code {
        Code::ToBranch(compare) => {
            let holds = if answer { compare } else { opposite(compare) };
            append_compared(list, facts, holds, left, right)
        }
        _ => Ok(()),
    }
}

fn append_one(
    list: &mut Listed<Fact>,
    facts: &[Fact],
    answer: bool,
    test: Value,
    fact: Fact,
) -> Result<(), NoMemory>
    ensures { IfOk result (λ _. list.new ≡ list.old ++ learned facts.now answer test (fact ∷ [])) }
{
    match fact {
        Fact::Between { .. } | Fact::Congruent { .. } | Fact::Never => Ok(()),
        Fact::Equals {
            value,
            code,
            left,
            right,
        } => append_learned_if(list, value == test, facts, answer, code, left, right),
    }
}

fn append_learned(
    list: &mut Listed<Fact>,
    facts: &[Fact],
    answer: bool,
    test: Value,
) -> Result<(), NoMemory>
    ensures { IfOk result (λ _. list.new ≡ list.old ++ learned facts.now answer test facts.now) }
{
    for fact in facts {
        append_one(list, facts, answer, test, *fact)?;
    }
    Ok(())
}

/// A list with facts behind it.
fn with_facts(list: Listed<Fact>, facts: &[Fact]) -> Result<Listed<Fact>, NoMemory>
    ensures { IfOk result (λ longer. longer ≡ list ++ facts.now) }
{
    let mut longer = list.into_vec();
    longer.extend_from_slice(facts)?;
    Ok(Listed::from_vec(longer)?)
}

/// The facts on the side of a split where its test has an answer.
pub fn on_side(
    alloc: Global,
    facts: &[Fact],
    answer: bool,
    test: Value,
) -> Result<Listed<Fact>, NoMemory>
    ensures { IfOk result (λ there. there ≡ on_side facts.now answer test) }
{
    let mut there = Listed::from_vec(Vec::with_capacity(alloc, facts.len().saturating_add(2))?)?;
    append_learned(&mut there, facts, answer, test)?;
    with_facts(there, facts)
}
