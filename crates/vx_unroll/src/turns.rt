// The turns of an unrolled loop.

ghost use Rattle.std.specs.Prelude.{◌≡◌, IfOk, OnOk, None, Some, option_map};
ghost use Rattle.vx_ast.specs.declared.tree.UnaryOperator.TheVariants.{Not};
ghost use Rattle.vx_ast.specs.Tree as tree;
ghost use Rattle.vx_ast.specs.Tree.{Code};
ghost use Rattle.vx_ast.specs.View.{action_of, code_of, tree_of};
ghost use Rattle.vx_unroll.specs.Growth.{code_onto};
ghost use Rattle.vx_unroll.specs.Unrolling.{block_of, step_before, test_before};

use crate::expressions::{copied, copied_simple};
use crate::memory::{append, boxed};
use crate::room::is_block;
use std::alloc::Global;
use vx_ast::tree::{Expression, Simple, Statement, UnaryOperator};
use vx_base::outcome::NoMemory;

/// A turn of a loop, by its body: the body itself where it is a block, else a block of it alone.
#[tactic(auto, using(vx_limits::proofs::Views::block_view, crate::proofs::Rooms::block_is, crate::proofs::Rooms::block_made))]
pub(crate) fn turn_of(alloc: Global, body: Statement) -> Result<Statement, NoMemory>
    ensures { IfOk result (λ turn. code_of turn ≡ block_of (code_of body)) }
{
    if is_block(&body) {
        return Ok(body);
    }
    let mut all = Vec::new(alloc);
    append(&mut all, body)?;
    Ok(Statement::Block(all))
}

// The operand of `!`, in a box.
fn negated(alloc: Global, test: &Expression) -> Result<Expression, NoMemory>
    ensures { IfOk result (λ made. tree_of made ≡ tree.Unary Not (tree_of test.now)) }
{
    let operand = copied(alloc, test)?;
    let operand = boxed(alloc, operand)?;
    Ok(Expression::Unary(UnaryOperator::Not, operand))
}

// `if (!(c)) break;`
fn exit_unless(alloc: Global, test: &Expression) -> Result<Statement, NoMemory>
    ensures { IfOk result (λ made. code_of made ≡ tree.If (tree.Unary Not (tree_of test.now)) tree.Break) }
{
    let test = negated(alloc, test)?;
    let leaving = boxed(alloc, Statement::Break)?;
    Ok(Statement::If(test, leaving))
}

/// The test of a `while` behind a turn.
#[tactic(auto, using(crate::proofs::Making::code_onto_push))]
pub(crate) fn put_test(
    alloc: Global,
    made: &mut Vec<Statement>,
    test: &Expression,
) -> Result<(), NoMemory>
    ensures { OnOk result ((rest : Code) → code_onto made.new.items rest ≡ code_onto made.old.items (test_before (Some (tree_of test.now)) rest)) }
{
    let exit = exit_unless(alloc, test)?;
    append(made, exit)
}

// The test of a `for` behind a turn.
fn put_for_test(
    alloc: Global,
    made: &mut Vec<Statement>,
    test: &Option<Expression>,
) -> Result<(), NoMemory>
    ensures { OnOk result ((rest : Code) → code_onto made.new.items rest ≡ code_onto made.old.items (test_before (option_map tree_of test.now) rest)) }
{
    match test {
        None => Ok(()),
        Some(test) => put_test(alloc, made, test),
    }
}

// The step of a `for` behind a turn.
#[tactic(auto, using(crate::proofs::Making::code_onto_push))]
fn put_step(alloc: Global, made: &mut Vec<Statement>, step: &Option<Simple>) -> Result<(), NoMemory>
    ensures { OnOk result ((rest : Code) → code_onto made.new.items rest ≡ code_onto made.old.items (step_before (option_map action_of step.now) rest)) }
{
    match step {
        None => Ok(()),
        Some(step) => {
            let step = copied_simple(alloc, step)?;
            append(made, Statement::Simple(step))
        }
    }
}

/// The step and the test of a `for` behind a turn.
pub(crate) fn put_behind(
    alloc: Global,
    made: &mut Vec<Statement>,
    test: &Option<Expression>,
    step: &Option<Simple>,
) -> Result<(), NoMemory>
    ensures { OnOk result ((rest : Code) → code_onto made.new.items rest ≡ code_onto made.old.items (step_before (option_map action_of step.now) (test_before (option_map tree_of test.now) rest))) }
{
    put_step(alloc, made, step)?;
    put_for_test(alloc, made, test)
}

/// The block of all turns, by those before the last one, and the body.
#[tactic(auto, using(vx_limits::proofs::Views::block_view, crate::proofs::Making::code_onto_last))]
pub(crate) fn closed(
    alloc: Global,
    front: Vec<Statement>,
    body: Box<Statement>,
) -> Result<Box<Statement>, NoMemory>
    ensures { IfOk result (λ made. code_of made.value ≡ tree.Block (code_onto front.items (tree.Seq (block_of (code_of body.value)) tree.Nothing))) }
{
    let last = turn_of(alloc, Box::into_inner(body))?;
    let mut all = front;
    append(&mut all, last)?;
    boxed(alloc, Statement::Block(all))
}
