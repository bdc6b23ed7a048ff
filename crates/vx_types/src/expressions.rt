// Expressions whose names stand with their declarations.

ghost use Rattle.std.specs.Prelude.{◌≡◌, [], IfOk};
ghost use Rattle.vx_ast.specs.Resolved as resolved;
ghost use Rattle.vx_ast.specs.Resolved.{array_in, array_named, call_named, number_named, place_named, target_in, tree_in};
ghost use Rattle.vx_ast.specs.SyntaxView.{phrase_of, row_in};
ghost use Rattle.vx_ast.specs.Tree as tree;
ghost use Rattle.vx_ast.specs.Tree.{Row, Tree};
ghost use Rattle.vx_ast.specs.View.{place_of, tree_of};
ghost use Rattle.vx_ast.specs.View as view;
ghost use Rattle.vx_types.specs.Arguments.{argument_in};

use crate::arguments::taken_at;
use crate::memory::{append, boxed};
use std::alloc::Global;
use vx_ast::names::Named;
use vx_ast::syntax;
use vx_ast::tree::{Argument, Expression, Takes, Target};
use vx_base::outcome::NoMemory;
use vx_names::names::Names;

/// Two operands, each in a box.
#[derive(Drop)]
struct Operands {
    left: Box<Expression>,
    right: Box<Expression>,
}

// A name that is used as a number.
fn number_named(named: Option<Named>) -> Expression
    ensures { tree_of result ≡ number_named named }
{
    match named {
        None => Expression::Number(0),
        Some(named) => match named {
            Named::Scalar(number) => Expression::Scalar(number),
            Named::Global(array) => Expression::Global(array),
            _ => Expression::Number(0),
        },
    }
}

// A name with an index, or as an argument where an array is taken.
fn array_named(named: Option<Named>) -> u32
    ensures { result ≡ array_named named }
{
    match named {
        None => 0,
        Some(named) => match named {
            Named::Array(array) => array,
            _ => 0,
        },
    }
}

// A name with arguments.
#[tactic(auto, using(vx_limits::proofs::Views::call_view))]
fn call_named(named: Option<Named>, row: Vec<Argument>) -> Expression
    ensures { tree_of result ≡ call_named named (view.arguments_in row.items) }
{
    match named {
        None => Expression::Number(0),
        Some(named) => match named {
            Named::Function(function, _, _) => Expression::Call(function, row),
            Named::ReadInt => Expression::ReadInt,
            Named::MoreInput => Expression::MoreInput,
            _ => Expression::Number(0),
        },
    }
}

// A name as a target.
fn place_named(named: Option<Named>) -> Target
    ensures { place_of result ≡ place_named named }
{
    match named {
        None => Target::Scalar(0),
        Some(named) => match named {
            Named::Scalar(number) => Target::Scalar(number),
            Named::Global(array) => Target::Global(array),
            _ => Target::Scalar(0),
        },
    }
}

// The array that an argument names.
fn array_in(names: &Names, expression: &syntax::Expression) -> u32
    ensures { result ≡ array_in names.now (phrase_of expression.now) }
{
    match expression {
        syntax::Expression::Name(name) => array_named(names.named(name.bytes.as_slice())),
        _ => 0,
    }
}

/// An expression with what its names stand for.
#[cycle(resolved)]
#[tactic(auto, using(crate::proofs::Views::call_written))]
pub fn resolve(
    alloc: Global,
    names: &Names,
    expression: &syntax::Expression,
) -> Result<Expression, NoMemory>
    ensures { IfOk result (λ made. tree_of made ≡ tree_in names.now (phrase_of expression.now)) }
{
    match expression {
        syntax::Expression::Number(number) => Ok(Expression::Number(*number)),
        syntax::Expression::Name(name) => Ok(number_named(names.named(name.bytes.as_slice()))),
        syntax::Expression::Element(name, index) => {
            let index = resolve_boxed(alloc, names, index)?;
            Ok(Expression::Element(array_named(names.named(name.bytes.as_slice())), index))
        }
        syntax::Expression::Call(name, row) => {
            let meant = names.named(name.bytes.as_slice());
            let row = resolve_arguments(alloc, names, names.wanted_by(meant), row.as_slice())?;
            Ok(call_named(meant, row))
        }
        syntax::Expression::Unary(operator, operand) => {
            let operand = resolve_boxed(alloc, names, operand)?;
            Ok(Expression::Unary(*operator, operand))
        }
        syntax::Expression::Binary(operator, left, right) => {
            let left = resolve_boxed(alloc, names, left)?;
            let both = resolve_behind(alloc, names, right, left)?;
            Ok(Expression::Binary(*operator, both.left, both.right))
        }
        syntax::Expression::Both(left, right) => {
            let left = resolve_boxed(alloc, names, left)?;
            let both = resolve_behind(alloc, names, right, left)?;
            Ok(Expression::Both(both.left, both.right))
        }
        syntax::Expression::Either(left, right) => {
            let left = resolve_boxed(alloc, names, left)?;
            let both = resolve_behind(alloc, names, right, left)?;
            Ok(Expression::Either(both.left, both.right))
        }
        syntax::Expression::Choice(test, left, right) => {
            let test = resolve_boxed(alloc, names, test)?;
            let left = resolve_boxed(alloc, names, left)?;
            choice_behind(alloc, names, right, test, left)
        }
    }
}

/// The right operand behind the left one.
#[cycle(resolved)]
fn resolve_behind(
    alloc: Global,
    names: &Names,
    right: &syntax::Expression,
    left: Box<Expression>,
) -> Result<Operands, NoMemory>
    ensures left { IfOk result (λ made. tree_of made.left.value ≡ tree_of left.value) }
    ensures right { IfOk result (λ made. tree_of made.right.value ≡ tree_in names.now (phrase_of right.now)) }
{
    let right = resolve_boxed(alloc, names, right)?;
    Ok(Operands { left, right })
}

/// A choice, by what is taken where its test does not hold, behind the test and what is taken where it holds.
#[cycle(resolved)]
fn choice_behind(
    alloc: Global,
    names: &Names,
    right: &syntax::Expression,
    test: Box<Expression>,
    left: Box<Expression>,
) -> Result<Expression, NoMemory>
    ensures { IfOk result (λ made. tree_of made ≡ tree.Choice (tree_of test.value) (tree_of left.value) (tree_in names.now (phrase_of right.now))) }
{
    let right = resolve_boxed(alloc, names, right)?;
    Ok(Expression::Choice(test, left, right))
}

#[cycle(resolved)]
fn resolve_boxed(
    alloc: Global,
    names: &Names,
    expression: &syntax::Expression,
) -> Result<Box<Expression>, NoMemory>
    ensures { IfOk result (λ made. tree_of made.value ≡ tree_in names.now (phrase_of expression.now)) }
{
    let made = resolve(alloc, names, expression)?;
    boxed(alloc, made)
}

/// Arguments with what their names stand for, where this is taken.
#[cycle(resolved)]
fn resolve_arguments(
    alloc: Global,
    names: &Names,
    takes: &[Takes],
    row: &[syntax::Argument],
) -> Result<Vec<Argument>, NoMemory>
    ensures { IfOk result (λ made. view.arguments_in made.items ≡ resolved.row_in names.now takes.now (row_in row.now)) }
{
    let mut made = Vec::new(alloc);
    for (place, argument) in row.iter().enumerate() {
        let taken = taken_at(takes, place);
        let one = resolve_argument(alloc, names, taken, &argument.expression)?;
        append(&mut made, one)?;
    }
    Ok(made)
}

/// An argument with what its names stand for, where this is taken.
#[cycle(resolved)]
fn resolve_argument(
    alloc: Global,
    names: &Names,
    takes: Takes,
    expression: &syntax::Expression,
) -> Result<Argument, NoMemory>
    ensures { IfOk result (λ made. (rest : Tree Row) → view.argument_before made rest ≡ argument_in names.now takes (phrase_of expression.now) rest) }
{
    match takes {
        Takes::Number => {
            let value = resolve(alloc, names, expression)?;
            Ok(Argument::Number(value))
        }
        Takes::Array => Ok(Argument::Array(array_in(names, expression))),
    }
}

/// What is printed with what its names stand for.
pub fn resolve_row(
    alloc: Global,
    names: &Names,
    row: &[syntax::Argument],
) -> Result<Vec<Expression>, NoMemory>
    ensures { IfOk result (λ made. view.row_in made.items ≡ resolved.row_in names.now [] (row_in row.now)) }
{
    let mut made = Vec::new(alloc);
    for argument in row {
        let one = resolve(alloc, names, &argument.expression)?;
        append(&mut made, one)?;
    }
    Ok(made)
}

/// A target with what its names stand for.
pub fn resolve_target(
    alloc: Global,
    names: &Names,
    expression: &syntax::Expression,
) -> Result<Target, NoMemory>
    ensures { IfOk result (λ made. place_of made ≡ target_in names.now (phrase_of expression.now)) }
{
    match expression {
        syntax::Expression::Name(name) => Ok(place_named(names.named(name.bytes.as_slice()))),
        syntax::Expression::Element(name, index) => {
            let index = resolve(alloc, names, index)?;
            Ok(Target::Element(array_named(names.named(name.bytes.as_slice())), index))
        }
        _ => Ok(Target::Scalar(0)),
    }
}
