// The code of simple statements: the place of what is changed is found first and once.

ghost use Rattle.std.specs.Prelude.{◌≡◌, ℕ, true, false, IfOk, OnOk};
ghost use Rattle.vx_ast.specs.Tree.{Apply, Assign, Compound, Evaluate};
ghost use Rattle.vx_ast.specs.View.{action_of, arguments_in, place_of, tree_of};
ghost use Rattle.vx_flow.specs.declared.graph.Op.TheVariants.{Store};
ghost use Rattle.vx_lower.specs.Adds.{Added};
ghost use Rattle.vx_lower.specs.Builds.{Puts, Ready};
ghost use Rattle.vx_lower.specs.Does.{By, action_of as change_of};
ghost use Rattle.vx_lower.specs.Fits.{ActsWell, AltersWell};
ghost use Rattle.vx_lower.specs.Seen.{Sees};
ghost use Rattle.vx_lower.specs.Makes.{Acted, Alters, step_change};

use crate::builder::Builder;
use crate::expressions::{emit_arguments, emit_value};
use crate::pieces::{check, combine, compute, load};
use crate::sizes::Sizes;
use std::alloc::Global;
use vx_ast::tree::{Argument, BinaryOperator, Expression, Simple, Target};
use vx_base::arithmetic::Code;
use vx_base::outcome::NoMemory;
use vx_flow::graph::{ArrayId, Exit, Op, Operand, Value};

fn store(
    b: &mut Builder,
    alloc: Global,
    array: ArrayId,
    place: Operand,
    from: Operand,
) -> Result<(), NoMemory>
    ensures code { OnOk result (Ready b.old → Puts (Store array place from) b.old b.new) }
    ensures steps { OnOk result (Added (Store array place from) b.old b.new) }
{
    b.put(alloc, Op::Store { array, place, from })
}

/// A call whose result is not used.
fn emit_call(
    b: &mut Builder,
    alloc: Global,
    words: &Sizes,
    function: u32,
    all: &[Argument],
) -> Result<(), NoMemory>
    ensures code { OnOk result (Ready b.old → Acted words.now (Evaluate (Apply function (arguments_in all.now))) b.old b.new) }
    ensures fits { OnOk result (ActsWell words.now (Evaluate (Apply function (arguments_in all.now))) b.old b.new) }
{
    let arguments = emit_arguments(b, alloc, words, all)?;
    let next = b.reserve()?;
    b.close(
        alloc,
        Exit::Call {
            function,
            arguments,
            result: None,
            next,
        },
        next,
    );
    Ok(())
}

/// An expression, for what it does.
fn evaluate(b: &mut Builder, alloc: Global, words: &Sizes, e: &Expression) -> Result<(), NoMemory>
    ensures code { OnOk result (Ready b.old → Acted words.now (Evaluate (tree_of e.now)) b.old b.new) }
    ensures fits { OnOk result (ActsWell words.now (Evaluate (tree_of e.now)) b.old b.new) }
{
    match e {
        Expression::Call(function, all) => emit_call(b, alloc, words, *function, all.as_slice()),
        Expression::Number(_)
        | Expression::Scalar(_)
        | Expression::Global(_)
        | Expression::Element(_, _)
        | Expression::Unary(_, _)
        | Expression::Binary(_, _, _)
        | Expression::Both(_, _)
        | Expression::Either(_, _)
        | Expression::Choice(_, _, _)
        | Expression::ReadInt
        | Expression::MoreInput => {
            emit_value(b, alloc, words, e, None)?;
            Ok(())
        }
    }
}

/// `target = value`
fn assign(
    b: &mut Builder,
    alloc: Global,
    words: &Sizes,
    target: &Target,
    e: &Expression,
) -> Result<(), NoMemory>
    ensures code { OnOk result (Ready b.old → Acted words.now (Assign (place_of target.now) (tree_of e.now)) b.old b.new) }
    ensures fits { OnOk result (ActsWell words.now (Assign (place_of target.now) (tree_of e.now)) b.old b.new) }
{
    match target {
        Target::Scalar(x) => {
            emit_value(b, alloc, words, e, Some(*x))?;
            Ok(())
        }
        Target::Global(array) => {
            let from = emit_value(b, alloc, words, e, None)?;
            store(b, alloc, *array, Operand::Number(0), from)
        }
        Target::Element(array, i) => {
            let index = emit_value(b, alloc, words, i, None)?;
            let place = check(b, alloc, words, *array, index)?;
            let from = emit_value(b, alloc, words, e, None)?;
            store(b, alloc, *array, Operand::Held(place), from)
        }
    }
}

/// The new value of a compound assignment.
fn combined(
    b: &mut Builder,
    alloc: Global,
    words: &Sizes,
    old: Operand,
    operator: BinaryOperator,
    e: &Expression,
    dest: Option<Value>,
) -> Result<Value, NoMemory>
    ensures code { IfOk result (λ t. Ready b.old → Alters words.now (By operator (tree_of e.now)) old dest t b.old b.new) }
    ensures fits { IfOk result (λ t. AltersWell words.now (By operator (tree_of e.now)) old dest t b.old b.new) }
{
    let right = emit_value(b, alloc, words, e, None)?;
    combine(b, alloc, operator, old, right, dest)
}

/// `target op= value`: the old value is read before the value is evaluated.
fn compound(
    b: &mut Builder,
    alloc: Global,
    words: &Sizes,
    target: &Target,
    operator: BinaryOperator,
    e: &Expression,
) -> Result<(), NoMemory>
    ensures code { OnOk result (Ready b.old → Acted words.now (Compound (place_of target.now) operator (tree_of e.now)) b.old b.new) }
    ensures fits { OnOk result (ActsWell words.now (Compound (place_of target.now) operator (tree_of e.now)) b.old b.new) }
{
    match target {
        Target::Scalar(x) => {
            combined(b, alloc, words, Operand::Held(*x), operator, e, Some(*x))?;
            Ok(())
        }
        Target::Global(array) => {
            let old = load(b, alloc, *array, Operand::Number(0), None)?;
            let new = combined(b, alloc, words, Operand::Held(old), operator, e, None)?;
            store(b, alloc, *array, Operand::Number(0), Operand::Held(new))
        }
        Target::Element(array, i) => {
            let index = emit_value(b, alloc, words, i, None)?;
            let place = check(b, alloc, words, *array, index)?;
            let old = load(b, alloc, *array, Operand::Held(place), None)?;
            let new = combined(b, alloc, words, Operand::Held(old), operator, e, None)?;
            store(b, alloc, *array, Operand::Held(place), Operand::Held(new))
        }
    }
}

/// The new value of `++` or `--`.
fn stepped(
    b: &mut Builder,
    alloc: Global,
    old: Operand,
    up: bool,
    dest: Option<Value>,
) -> Result<Value, NoMemory>
    ensures code { IfOk result (λ t. (words : Sees) → Ready b.old → Alters words (step_change up) old dest t b.old b.new) }
    ensures fits { IfOk result (λ t. (words : Sees) → AltersWell words (step_change up) old dest t b.old b.new) }
{
    let code = if up { Code::Add } else { Code::Sub };
    compute(b, alloc, code, old, Operand::Number(1), dest)
}

/// `target++` or `target--`
fn step(
    b: &mut Builder,
    alloc: Global,
    words: &Sizes,
    target: &Target,
    up: bool,
) -> Result<(), NoMemory>
    ensures code { OnOk result (Ready b.old → Acted words.now (change_of (place_of target.now) (step_change up)) b.old b.new) }
    ensures fits { OnOk result (ActsWell words.now (change_of (place_of target.now) (step_change up)) b.old b.new) }
{
    match target {
        Target::Scalar(x) => {
            stepped(b, alloc, Operand::Held(*x), up, Some(*x))?;
            Ok(())
        }
        Target::Global(array) => {
            let old = load(b, alloc, *array, Operand::Number(0), None)?;
            let new = stepped(b, alloc, Operand::Held(old), up, None)?;
            store(b, alloc, *array, Operand::Number(0), Operand::Held(new))
        }
        Target::Element(array, i) => {
            let index = emit_value(b, alloc, words, i, None)?;
            let place = check(b, alloc, words, *array, index)?;
            let old = load(b, alloc, *array, Operand::Held(place), None)?;
            let new = stepped(b, alloc, Operand::Held(old), up, None)?;
            store(b, alloc, *array, Operand::Held(place), Operand::Held(new))
        }
    }
}

/// The code of a simple statement.
pub fn emit_action(
    b: &mut Builder,
    alloc: Global,
    words: &Sizes,
    action: &Simple,
) -> Result<(), NoMemory>
    ensures code { OnOk result (Ready b.old → Acted words.now (action_of action.now) b.old b.new) }
    ensures fits { OnOk result (ActsWell words.now (action_of action.now) b.old b.new) }
{
    match action {
        Simple::Evaluate(e) => evaluate(b, alloc, words, e),
        Simple::Assign(target, e) => assign(b, alloc, words, target, e),
        Simple::Compound(target, operator, e) => compound(b, alloc, words, target, *operator, e),
        Simple::Increase(target) => step(b, alloc, words, target, true),
        Simple::Decrease(target) => step(b, alloc, words, target, false),
    }
}
