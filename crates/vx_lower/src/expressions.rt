// The code of expressions and of rows of arguments. The left operand comes first; an operand is evaluated only where it
// is needed.

ghost use Rattle.std.specs.Prelude.{◌≡◌, ℕ, pos, length, IfOk, OnOk, Option, Some, None};
ghost use Rattle.vx_base.specs.declared.arithmetic.Compare.TheVariants.{Ne};
ghost use Rattle.vx_ast.specs.View.{argument_before, arguments_in, row_in, tree_of};
ghost use Rattle.vx_lower.specs.Holds.{jump, unary_op};
ghost use Rattle.vx_lower.specs.Adds.{Compared, Last};
ghost use Rattle.vx_lower.specs.Builds.{Ready, closed, filled, reserved};
ghost use Rattle.vx_lower.specs.Emits.{Aimed, Asked, Emits, EmitsBehind, EmitsRow, EmitsTest, Lasts, Truth};
ghost use Rattle.vx_lower.specs.Fits.{BehindWell, EmitsWell, RowsWell, TestsWell};
ghost use Rattle.vx_flow.specs.declared.graph.Exit.TheVariants.{Goto};
ghost use Rattle.vx_flow.specs.declared.graph.Operand.{Operand as AnOperand};
ghost use Rattle.vx_flow.specs.declared.graph.Operand.TheVariants.{Number};
ghost use Rattle.vx_ast.specs.Tree as tree;
ghost use Rattle.vx_ast.specs.Tree.{NoMore, One, ReadInt, Tree};
ghost use Rattle.vx_lower.specs.declared.builder.Builder.{Builder as Building};

use crate::builder::Builder;
use crate::pieces::{
    check, combine, comparison, compute, deliver, input, load, more, stand, target,
};
use crate::sizes::Sizes;
use std::alloc::Global;
use vx_ast::tree::{Argument, BinaryOperator, Expression, UnaryOperator};
use vx_base::arithmetic::{Code, Compare};
use vx_base::listed::Listed;
use vx_base::outcome::{NoMemory, Trap};
use vx_flow::graph::{Bank, Block, BlockId, Exit, Op, Operand, Value};

/// The last operation of an operator with one operand.
fn unary(
    b: &mut Builder,
    alloc: Global,
    operator: UnaryOperator,
    o: Operand,
    dest: Option<Value>,
) -> Result<Value, NoMemory>
    ensures code { IfOk result (λ t. Ready b.old → Lasts (unary_op operator t o) dest t b.old b.new) }
    ensures steps { IfOk result (λ t. Last (unary_op operator t o) dest t b.old b.new) }
{
    match operator {
        UnaryOperator::Minus => compute(b, alloc, Code::Sub, Operand::Number(0), o, dest),
        UnaryOperator::Plus => compute(b, alloc, Code::Mov, o, Operand::Number(0), dest),
        UnaryOperator::Not => compute(
            b,
            alloc,
            Code::ToGeneral(Compare::Eq),
            o,
            Operand::Number(0),
            dest,
        ),
        UnaryOperator::Complement => compute(b, alloc, Code::Xor, o, Operand::Number(-1), dest),
    }
}

/// The test of a compare. The open block then is where it holds, and the result is where it does not.
fn compared(
    b: &mut Builder,
    alloc: Global,
    compare: Compare,
    left: Operand,
    right: Operand,
) -> Result<BlockId, NoMemory>
    ensures code { IfOk result (λ n. Ready b.old → Asked compare left right n b.old b.new) }
    ensures steps { IfOk result (λ n. Compared compare left right n b.old b.new) }
{
    let c = b.fresh(Bank::Branch)?;
    b.branch(
        alloc,
        Op::Compute {
            code: Code::ToBranch(compare),
            to: c,
            left,
            right,
        },
        c,
    )
}

/// The test of a number. The open block then is where it is not 0, and the result is where it is.
fn truth(b: &mut Builder, alloc: Global, o: Operand) -> Result<BlockId, NoMemory>
    ensures code { IfOk result (λ n. Ready b.old → Truth o n b.old b.new) }
    ensures steps { IfOk result (λ n. Compared Ne o (Number (pos 0)) n b.old b.new) }
{
    compared(b, alloc, Compare::Ne, o, Operand::Number(0))
}

/// Two blocks that wait go to one that is reserved.
fn meet(
    b: &mut Builder,
    alloc: Global,
    first: BlockId,
    second: BlockId,
) -> Result<BlockId, NoMemory>
    ensures { IfOk result (λ j. (j ≡ length b.old.blocks) × (b.new ≡ filled (filled (reserved b.old) first (jump j)) second (jump j))) }
{
    let both = b.reserve()?;
    b.fill(
        first,
        Block {
            ops: Listed::new(alloc),
            exit: Exit::Goto(both),
        },
    );
    b.fill(
        second,
        Block {
            ops: Listed::new(alloc),
            exit: Exit::Goto(both),
        },
    );
    Ok(both)
}

/// The open block goes to one that is reserved for both ways, and the other way is open.
pub fn join(b: &mut Builder, alloc: Global, other: BlockId) -> Result<BlockId, NoMemory>
    ensures { IfOk result (λ j. (j ≡ length b.old.blocks) × (b.new ≡ closed (reserved b.old) (Goto j) other)) }
{
    let both = b.reserve()?;
    b.close(alloc, Exit::Goto(both), other);
    Ok(both)
}

fn read(
    b: &mut Builder,
    alloc: Global,
    words: &Sizes,
    dest: Option<Value>,
) -> Result<Operand, NoMemory>
    ensures code { IfOk result (λ o. Ready b.old → Emits words.now ReadInt dest o b.old b.new) }
    ensures fits { IfOk result (λ o. EmitsWell words.now ReadInt dest o b.old b.new) }
{
    let v = b.fresh(Bank::General)?;
    b.put(alloc, Op::More { to: v })?;
    let c = b.fresh(Bank::Branch)?;
    b.guard(
        alloc,
        Op::Compute {
            code: Code::ToBranch(Compare::Ne),
            to: c,
            left: Operand::Held(v),
            right: Operand::Number(0),
        },
        c,
        Trap::Input,
    )?;
    let t = input(b, alloc, dest)?;
    Ok(Operand::Held(t))
}

/// The code of an expression, and where its value is: in any operand, or in the value that is wanted.
#[cycle(values)]
pub fn emit_value(
    b: &mut Builder,
    alloc: Global,
    words: &Sizes,
    e: &Expression,
    dest: Option<Value>,
) -> Result<Operand, NoMemory>
    ensures code { IfOk result (λ o. Ready b.old → Emits words.now (tree_of e.now) dest o b.old b.new) }
    ensures fits { IfOk result (λ o. EmitsWell words.now (tree_of e.now) dest o b.old b.new) }
{
    match e {
        Expression::Number(n) => deliver(b, alloc, Operand::Number(*n), dest),
        Expression::Scalar(x) => deliver(b, alloc, Operand::Held(*x), dest),
        Expression::Global(array) => {
            let t = load(b, alloc, *array, Operand::Number(0), dest)?;
            Ok(Operand::Held(t))
        }
        Expression::Element(array, i) => emit_element(b, alloc, words, i, *array, dest),
        Expression::Unary(operator, x) => emit_unary(b, alloc, words, x, *operator, dest),
        Expression::Binary(operator, x, y) => {
            let left = emit_value(b, alloc, words, x, None)?;
            binary_behind(b, alloc, words, y, left, *operator, dest)
        }
        Expression::Both(x, y) => {
            let other = emit_test(b, alloc, words, x)?;
            both_behind(b, alloc, words, y, other, dest)
        }
        Expression::Either(x, y) => {
            let other = emit_test(b, alloc, words, x)?;
            either_behind(b, alloc, words, y, other, dest)
        }
        Expression::Choice(c, x, y) => {
            let no = emit_test(b, alloc, words, c)?;
            let t = target(b, dest)?;
            let first = emit_value(b, alloc, words, x, Some(t))?;
            choice_behind(b, alloc, words, y, t, no)
        }
        Expression::Call(function, all) => emit_call(
            b,
            alloc,
            words,
            all.as_slice(),
            *function,
            dest,
        ),
        Expression::ReadInt => read(b, alloc, words, dest),
        Expression::MoreInput => {
            let t = more(b, alloc, dest)?;
            Ok(Operand::Held(t))
        }
    }
}

/// The code of an element of an array: its index, the check of it and the load.
#[cycle(values)]
fn emit_element(
    b: &mut Builder,
    alloc: Global,
    words: &Sizes,
    x: &Expression,
    array: u32,
    dest: Option<Value>,
) -> Result<Operand, NoMemory>
    ensures code { IfOk result (λ o. Ready b.old → Emits words.now (tree.Element array (tree_of x.now)) dest o b.old b.new) }
    ensures fits { IfOk result (λ o. EmitsWell words.now (tree.Element array (tree_of x.now)) dest o b.old b.new) }
{
    let index = emit_value(b, alloc, words, x, None)?;
    let place = check(b, alloc, words, array, index)?;
    let t = load(b, alloc, array, Operand::Held(place), dest)?;
    Ok(Operand::Held(t))
}

/// The code of a call: its arguments, and the call at the end of the open block.
#[cycle(values)]
fn emit_call(
    b: &mut Builder,
    alloc: Global,
    words: &Sizes,
    all: &[Argument],
    function: u32,
    dest: Option<Value>,
) -> Result<Operand, NoMemory>
    ensures code { IfOk result (λ o. Ready b.old → Emits words.now (tree.Apply function (arguments_in all.now)) dest o b.old b.new) }
    ensures fits { IfOk result (λ o. EmitsWell words.now (tree.Apply function (arguments_in all.now)) dest o b.old b.new) }
{
    let arguments = emit_arguments(b, alloc, words, all)?;
    let t = target(b, dest)?;
    let next = b.reserve()?;
    b.close(
        alloc,
        Exit::Call {
            function,
            arguments,
            result: Some(t),
            next,
        },
        next,
    );
    Ok(Operand::Held(t))
}

/// The code of an operator with one operand.
#[cycle(values)]
fn emit_unary(
    b: &mut Builder,
    alloc: Global,
    words: &Sizes,
    x: &Expression,
    operator: UnaryOperator,
    dest: Option<Value>,
) -> Result<Operand, NoMemory>
    ensures code { IfOk result (λ o. Ready b.old → Emits words.now (tree.Unary operator (tree_of x.now)) dest o b.old b.new) }
    ensures fits { IfOk result (λ o. EmitsWell words.now (tree.Unary operator (tree_of x.now)) dest o b.old b.new) }
{
    let o = emit_value(b, alloc, words, x, None)?;
    let t = unary(b, alloc, operator, o, dest)?;
    Ok(Operand::Held(t))
}

/// The code of an operator with two operands behind that of its left one.
#[cycle(values)]
fn binary_behind(
    b: &mut Builder,
    alloc: Global,
    words: &Sizes,
    y: &Expression,
    left: Operand,
    operator: BinaryOperator,
    dest: Option<Value>,
) -> Result<Operand, NoMemory>
    ensures code { IfOk result (λ o. (x : Tree One) (start : Building) → (Ready start → Emits words.now x None left start b.old) → Ready start → Emits words.now (tree.Binary operator x (tree_of y.now)) dest o start b.new) }
    ensures fits { IfOk result (λ o. (x : Tree One) (start : Building) → EmitsWell words.now x None left start b.old → EmitsWell words.now (tree.Binary operator x (tree_of y.now)) dest o start b.new) }
{
    let right = emit_value(b, alloc, words, y, None)?;
    let t = combine(b, alloc, operator, left, right, dest)?;
    Ok(Operand::Held(t))
}

/// The code of a choice behind that of its test and of what is chosen where the test holds.
#[cycle(values)]
fn choice_behind(
    b: &mut Builder,
    alloc: Global,
    words: &Sizes,
    y: &Expression,
    t: Value,
    other: BlockId,
) -> Result<Operand, NoMemory>
    ensures code { IfOk result (λ o. (dest : Option ℕ) (c x : Tree One) (ox : AnOperand) (start tested aimed : Building) → (Ready start → EmitsTest words.now c other start tested) → Aimed dest t tested aimed → (Ready aimed → Emits words.now x (Some t) ox aimed b.old) → Ready start → Emits words.now (tree.Choice c x (tree_of y.now)) dest o start b.new) }
    ensures fits { IfOk result (λ o. (dest : Option ℕ) (c x : Tree One) (ox : AnOperand) (start tested aimed : Building) → TestsWell words.now c other start tested → Aimed dest t tested aimed → EmitsWell words.now x (Some t) ox aimed b.old → EmitsWell words.now (tree.Choice c x (tree_of y.now)) dest o start b.new) }
{
    let j = join(b, alloc, other)?;
    let second = emit_value(b, alloc, words, y, Some(t))?;
    b.close(alloc, Exit::Goto(j), j);
    Ok(Operand::Held(t))
}

/// The code of `&&` behind the test of its left operand: whether the right one is not 0, and 0 where the test does not
/// hold.
#[cycle(values)]
fn both_behind(
    b: &mut Builder,
    alloc: Global,
    words: &Sizes,
    y: &Expression,
    other: BlockId,
    dest: Option<Value>,
) -> Result<Operand, NoMemory>
    ensures code { IfOk result (λ o. (x : Tree One) (start : Building) → (Ready start → EmitsTest words.now x other start b.old) → Ready start → Emits words.now (tree.Both x (tree_of y.now)) dest o start b.new) }
    ensures fits { IfOk result (λ o. (x : Tree One) (start : Building) → TestsWell words.now x other start b.old → EmitsWell words.now (tree.Both x (tree_of y.now)) dest o start b.new) }
{
    let t = target(b, dest)?;
    let right = emit_value(b, alloc, words, y, None)?;
    b.put(
        alloc,
        Op::Compute {
            code: Code::ToGeneral(Compare::Ne),
            to: t,
            left: right,
            right: Operand::Number(0),
        },
    )?;
    let j = join(b, alloc, other)?;
    b.put(
        alloc,
        Op::Compute {
            code: Code::Mov,
            to: t,
            left: Operand::Number(0),
            right: Operand::Number(0),
        },
    )?;
    b.close(alloc, Exit::Goto(j), j);
    Ok(Operand::Held(t))
}

/// The code of `||` behind the test of its left operand: 1, and whether the right one is not 0 where the test does not
/// hold.
#[cycle(values)]
fn either_behind(
    b: &mut Builder,
    alloc: Global,
    words: &Sizes,
    y: &Expression,
    other: BlockId,
    dest: Option<Value>,
) -> Result<Operand, NoMemory>
    ensures code { IfOk result (λ o. (x : Tree One) (start : Building) → (Ready start → EmitsTest words.now x other start b.old) → Ready start → Emits words.now (tree.Either x (tree_of y.now)) dest o start b.new) }
    ensures fits { IfOk result (λ o. (x : Tree One) (start : Building) → TestsWell words.now x other start b.old → EmitsWell words.now (tree.Either x (tree_of y.now)) dest o start b.new) }
{
    let t = target(b, dest)?;
    b.put(
        alloc,
        Op::Compute {
            code: Code::Mov,
            to: t,
            left: Operand::Number(1),
            right: Operand::Number(0),
        },
    )?;
    let j = join(b, alloc, other)?;
    let right = emit_value(b, alloc, words, y, None)?;
    b.put(
        alloc,
        Op::Compute {
            code: Code::ToGeneral(Compare::Ne),
            to: t,
            left: right,
            right: Operand::Number(0),
        },
    )?;
    b.close(alloc, Exit::Goto(j), j);
    Ok(Operand::Held(t))
}

/// The code of a test, straight into a branch value where a compare is tested. The open block then is where the
/// expression is not 0, and the result is where it is.
#[cycle(values)]
pub fn emit_test(
    b: &mut Builder,
    alloc: Global,
    words: &Sizes,
    e: &Expression,
) -> Result<BlockId, NoMemory>
    ensures code { IfOk result (λ n. Ready b.old → EmitsTest words.now (tree_of e.now) n b.old b.new) }
    ensures fits { IfOk result (λ n. TestsWell words.now (tree_of e.now) n b.old b.new) }
{
    match e {
        Expression::Unary(operator, x) => match *operator {
            UnaryOperator::Not => {
                let no = emit_test(b, alloc, words, x)?;
                Ok(b.turn(no))
            }
            _ => test_value(b, alloc, words, e),
        },
        Expression::Binary(operator, x, y) => match comparison(*operator) {
            Some(compare) => {
                let left = emit_value(b, alloc, words, x, None)?;
                let right = emit_value(b, alloc, words, y, None)?;
                compared(b, alloc, compare, left, right)
            }
            None => test_value(b, alloc, words, e),
        },
        Expression::Both(x, y) => {
            let first = emit_test(b, alloc, words, x)?;
            let second = emit_test(b, alloc, words, y)?;
            meet(b, alloc, first, second)
        }
        Expression::Either(x, y) => {
            let first = emit_test(b, alloc, words, x)?;
            let yes = join(b, alloc, first)?;
            let no = emit_test(b, alloc, words, y)?;
            b.close(alloc, Exit::Goto(yes), yes);
            Ok(no)
        }
        _ => test_value(b, alloc, words, e),
    }
}

/// The test of the value of an expression.
#[cycle(values)]
fn test_value(
    b: &mut Builder,
    alloc: Global,
    words: &Sizes,
    e: &Expression,
) -> Result<BlockId, NoMemory>
    ensures code { IfOk result (λ n. Ready b.old → EmitsTest words.now (tree_of e.now) n b.old b.new) }
    ensures fits { IfOk result (λ n. TestsWell words.now (tree_of e.now) n b.old b.new) }
{
    let o = emit_value(b, alloc, words, e, None)?;
    truth(b, alloc, o)
}

/// The code of a row of numbers, and where their values are.
pub fn emit_row(
    b: &mut Builder,
    alloc: Global,
    words: &Sizes,
    all: &[Expression],
) -> Result<Listed<Operand>, NoMemory>
    ensures code { IfOk result (λ os. Ready b.old → EmitsRow words.now (row_in all.now) os b.old b.new) }
    ensures fits { IfOk result (λ os. RowsWell words.now (row_in all.now) os b.old b.new) }
{
    let mut arguments = Listed::new(alloc);
    for e in all {
        let value = emit_value(b, alloc, words, e, None)?;
        arguments.push(value)?;
    }
    Ok(arguments)
}

/// The code of an argument of a call, and what is passed for it behind what is passed for those before it.
#[cycle(values)]
fn emit_argument(
    b: &mut Builder,
    alloc: Global,
    words: &Sizes,
    argument: &Argument,
    passed: &mut Listed<Operand>,
) -> Result<(), NoMemory>
    ensures code { OnOk result (Ready b.old → EmitsBehind words.now (argument_before argument.now NoMore) passed.old passed.new b.old b.new) }
    ensures fits { OnOk result (BehindWell words.now (argument_before argument.now NoMore) passed.old passed.new b.old b.new) }
{
    match argument {
        Argument::Number(e) => {
            let value = emit_value(b, alloc, words, e, None)?;
            passed.push(value)?;
            Ok(())
        }
        Argument::Array(array) => {
            let base = stand(b, alloc, words, *array)?;
            passed.push(Operand::Held(base))?;
            passed.push(words.of(*array))?;
            Ok(())
        }
    }
}

/// The code of the arguments of a call, and what is passed: a number for a number, and for an array where it stands and how
/// many words it has.
#[cycle(values)]
pub fn emit_arguments(
    b: &mut Builder,
    alloc: Global,
    words: &Sizes,
    all: &[Argument],
) -> Result<Listed<Operand>, NoMemory>
    ensures code { IfOk result (λ os. Ready b.old → EmitsRow words.now (arguments_in all.now) os b.old b.new) }
    ensures fits { IfOk result (λ os. RowsWell words.now (arguments_in all.now) os b.old b.new) }
{
    let mut passed = Listed::new(alloc);
    for argument in all {
        emit_argument(b, alloc, words, argument, &mut passed)?;
    }
    Ok(passed)
}
