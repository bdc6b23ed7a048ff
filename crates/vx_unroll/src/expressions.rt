// Copies of expressions, targets and simple statements.

ghost use Rattle.std.specs.Prelude.{◌≡◌, IfOk, option_map};
ghost use Rattle.vx_ast.specs.Tree as tree;
ghost use Rattle.vx_ast.specs.View.{action_of, argument_before, arguments_in, place_of, row_in, step_of, tree_of};

use crate::memory::{append, boxed};
use std::alloc::Global;
use vx_ast::tree::{Argument, Expression, Simple, Target};
use vx_base::outcome::NoMemory;

/// Two operands, each in a box.
#[derive(Drop)]
struct Operands {
    left: Box<Expression>,
    right: Box<Expression>,
}

/// A copy of an expression.
#[cycle(copied)]
pub(crate) fn copied(alloc: Global, expression: &Expression) -> Result<Expression, NoMemory>
    ensures { IfOk result (λ copy. tree_of copy ≡ tree_of expression.now) }
{
    match expression {
        Expression::Number(number) => Ok(Expression::Number(*number)),
        Expression::Scalar(scalar) => Ok(Expression::Scalar(*scalar)),
        Expression::Global(array) => Ok(Expression::Global(*array)),
        Expression::Element(array, index) => {
            let index = copied_boxed(alloc, index)?;
            Ok(Expression::Element(*array, index))
        }
        Expression::Unary(operator, operand) => {
            let operand = copied_boxed(alloc, operand)?;
            Ok(Expression::Unary(*operator, operand))
        }
        Expression::Binary(operator, left, right) => {
            let both = copied_both(alloc, left, right)?;
            Ok(Expression::Binary(*operator, both.left, both.right))
        }
        Expression::Both(left, right) => {
            let both = copied_both(alloc, left, right)?;
            Ok(Expression::Both(both.left, both.right))
        }
        Expression::Either(left, right) => {
            let both = copied_both(alloc, left, right)?;
            Ok(Expression::Either(both.left, both.right))
        }
        Expression::Choice(test, left, right) => {
            let test = copied_boxed(alloc, test)?;
            copied_choice(alloc, left, right, test)
        }
        Expression::Call(function, row) => {
            let row = copied_arguments(alloc, row.as_slice())?;
            Ok(Expression::Call(*function, row))
        }
        Expression::ReadInt => Ok(Expression::ReadInt),
        Expression::MoreInput => Ok(Expression::MoreInput),
    }
}

// A choice, behind its test.
#[cycle(copied)]
fn copied_choice(
    alloc: Global,
    left: &Expression,
    right: &Expression,
    test: Box<Expression>,
) -> Result<Expression, NoMemory>
    ensures { IfOk result (λ copy. tree_of copy ≡ tree.Choice (tree_of test.value) (tree_of left.now) (tree_of right.now)) }
{
    let both = copied_both(alloc, left, right)?;
    Ok(Expression::Choice(test, both.left, both.right))
}

// A copy of an expression in a box.
#[cycle(copied)]
fn copied_boxed(alloc: Global, expression: &Expression) -> Result<Box<Expression>, NoMemory>
    ensures { IfOk result (λ copy. tree_of copy.value ≡ tree_of expression.now) }
{
    let copy = copied(alloc, expression)?;
    boxed(alloc, copy)
}

// Copies of two operands.
#[cycle(copied)]
fn copied_both(alloc: Global, left: &Expression, right: &Expression) -> Result<Operands, NoMemory>
    ensures left { IfOk result (λ copies. tree_of copies.left.value ≡ tree_of left.now) }
    ensures right { IfOk result (λ copies. tree_of copies.right.value ≡ tree_of right.now) }
{
    let left = copied_boxed(alloc, left)?;
    let right = copied_boxed(alloc, right)?;
    Ok(Operands { left, right })
}

// A copy of an argument.
#[cycle(copied)]
fn copied_argument(alloc: Global, argument: &Argument) -> Result<Argument, NoMemory>
    ensures { IfOk result (λ copy. argument_before copy tree.NoMore ≡ argument_before argument.now tree.NoMore) }
{
    match argument {
        Argument::Number(number) => {
            let number = copied(alloc, number)?;
            Ok(Argument::Number(number))
        }
        Argument::Array(array) => Ok(Argument::Array(*array)),
    }
}

// A copy of a row of arguments.
#[cycle(copied)]
fn copied_arguments(alloc: Global, row: &[Argument]) -> Result<Vec<Argument>, NoMemory>
    ensures { IfOk result (λ copy. arguments_in copy.items ≡ arguments_in row.now) }
{
    let mut copy = Vec::new(alloc);
    for argument in row {
        let one = copied_argument(alloc, argument)?;
        append(&mut copy, one)?;
    }
    Ok(copy)
}

/// A copy of a row of numbers.
pub(crate) fn copied_row(alloc: Global, row: &[Expression]) -> Result<Vec<Expression>, NoMemory>
    ensures { IfOk result (λ copy. row_in copy.items ≡ row_in row.now) }
{
    let mut copy = Vec::new(alloc);
    for number in row {
        let one = copied(alloc, number)?;
        append(&mut copy, one)?;
    }
    Ok(copy)
}

/// A copy of a target.
pub(crate) fn copied_target(alloc: Global, target: &Target) -> Result<Target, NoMemory>
    ensures { IfOk result (λ copy. place_of copy ≡ place_of target.now) }
{
    match target {
        Target::Scalar(scalar) => Ok(Target::Scalar(*scalar)),
        Target::Global(array) => Ok(Target::Global(*array)),
        Target::Element(array, index) => {
            let index = copied(alloc, index)?;
            Ok(Target::Element(*array, index))
        }
    }
}

// A target and the value behind it.
#[derive(Drop)]
struct Sides {
    target: Target,
    value: Expression,
}

// Copies of a target and the value behind it.
fn copied_sides(alloc: Global, target: &Target, value: &Expression) -> Result<Sides, NoMemory>
    ensures target { IfOk result (λ copies. place_of copies.target ≡ place_of target.now) }
    ensures value { IfOk result (λ copies. tree_of copies.value ≡ tree_of value.now) }
{
    let target = copied_target(alloc, target)?;
    let value = copied(alloc, value)?;
    Ok(Sides { target, value })
}

/// A copy of a simple statement.
pub(crate) fn copied_simple(alloc: Global, simple: &Simple) -> Result<Simple, NoMemory>
    ensures { IfOk result (λ copy. action_of copy ≡ action_of simple.now) }
{
    match simple {
        Simple::Evaluate(value) => {
            let value = copied(alloc, value)?;
            Ok(Simple::Evaluate(value))
        }
        Simple::Assign(target, value) => {
            let sides = copied_sides(alloc, target, value)?;
            Ok(Simple::Assign(sides.target, sides.value))
        }
        Simple::Compound(target, operator, value) => {
            let sides = copied_sides(alloc, target, value)?;
            Ok(Simple::Compound(sides.target, *operator, sides.value))
        }
        Simple::Increase(target) => {
            let target = copied_target(alloc, target)?;
            Ok(Simple::Increase(target))
        }
        Simple::Decrease(target) => {
            let target = copied_target(alloc, target)?;
            Ok(Simple::Decrease(target))
        }
    }
}

/// A copy of the condition of a `for`.
pub(crate) fn copied_test(
    alloc: Global,
    test: &Option<Expression>,
) -> Result<Option<Expression>, NoMemory>
    ensures { IfOk result (λ copy. option_map tree_of copy ≡ option_map tree_of test.now) }
{
    match test {
        None => Ok(None),
        Some(test) => {
            let test = copied(alloc, test)?;
            Ok(Some(test))
        }
    }
}

/// A copy of the step of a `for`.
pub(crate) fn copied_step(alloc: Global, step: &Option<Simple>) -> Result<Option<Simple>, NoMemory>
    ensures { IfOk result (λ copy. step_of copy ≡ step_of step.now) }
{
    match step {
        None => Ok(None),
        Some(step) => {
            let step = copied_simple(alloc, step)?;
            Ok(Some(step))
        }
    }
}
