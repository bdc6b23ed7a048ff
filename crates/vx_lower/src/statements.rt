// The code of statements.

ghost use Rattle.std.specs.Prelude.{◌≡◌, ℕ, pos, List, Option, length, option_map, IfOk, OnOk};
ghost use Rattle.vx_ast.specs.Tree.{ClearArray, DoWhile, For, If, Print, ReturnValue, While};
ghost use Rattle.vx_ast.specs.View.{all_in, code_of, first_of, item_of, items_of, row_in, step_of, tree_of};
ghost use Rattle.vx_base.specs.declared.arithmetic.Code.TheVariants.{Mov};
ghost use Rattle.vx_flow.specs.declared.graph.Op.TheVariants.{Compute};
ghost use Rattle.vx_flow.specs.declared.graph.Operand.TheVariants.{Number};
ghost use Rattle.vx_flow.specs.declared.graph.Exit.TheVariants.{Goto};
ghost use Rattle.vx_lower.specs.Adds.{Last};
ghost use Rattle.vx_lower.specs.Builds.{Ready, closed, reserved};
ghost use Rattle.vx_lower.specs.Emits.{Lasts};
ghost use Rattle.vx_lower.specs.Seen.{Sees};
ghost use Rattle.vx_lower.specs.StatementFits.{LoopTestWell, PlainWell, StatementWell, WordWell};
ghost use Rattle.vx_lower.specs.Makes.{ClearsWord, Makes, MakesPlain, MakesTest, way_exit};

use crate::actions::emit_action;
use crate::builder::Builder;
use crate::expressions::{emit_row, emit_test, emit_value, join};
use crate::pieces::compute;
use crate::prints::show;
use crate::sizes::Sizes;
use std::alloc::Global;
use vx_ast::tree::{Expression, First, Item, Simple, Statement};
use vx_base::arithmetic::{Code, Compare};
use vx_base::listed::{Bytes, Listed};
use vx_base::outcome::NoMemory;
use vx_flow::graph::{ArrayId, Bank, BlockId, Exit, Op, Operand, Value};

/// The exit to where a break or a continue leads; outside of every loop the function returns.
fn way(to: Option<BlockId>) -> Exit
    ensures { result ≡ way_exit to }
{
    match to {
        None => Exit::Return(Operand::Number(0)),
        Some(block) => Exit::Goto(block),
    }
}

/// The open block ends, and nothing leads to the one that is open then.
fn end_with(b: &mut Builder, alloc: Global, exit: Exit) -> Result<(), NoMemory>
    ensures { OnOk result (b.new ≡ closed (reserved b.old) exit (length b.old.blocks)) }
{
    let unreached = b.reserve()?;
    b.close(alloc, exit, unreached);
    Ok(())
}

/// The open block goes to one that is open then, so that others can lead there.
fn enter(b: &mut Builder, alloc: Global) -> Result<BlockId, NoMemory>
    ensures { IfOk result (λ h. (h ≡ length b.old.blocks) × (b.new ≡ closed (reserved b.old) (Goto h) h)) }
{
    let head = b.reserve()?;
    b.close(alloc, Exit::Goto(head), head);
    Ok(head)
}

/// A value is set to 0: one of its own, or the one that is wanted.
fn clear(b: &mut Builder, alloc: Global, dest: Option<Value>) -> Result<Value, NoMemory>
    ensures code { IfOk result (λ t. Ready b.old → Lasts (Compute Mov t (Number (pos 0)) (Number (pos 0))) dest t b.old b.new) }
    ensures steps { IfOk result (λ t. Last (Compute Mov t (Number (pos 0)) (Number (pos 0))) dest t b.old b.new) }
{
    let zero = Operand::Number(0);
    compute(b, alloc, Code::Mov, zero, zero, dest)
}

/// The word of an array at a place is set to 0, and the place is the next one then.
fn clear_word(b: &mut Builder, alloc: Global, array: ArrayId, i: Value) -> Result<(), NoMemory>
    ensures code { OnOk result (Ready b.old → ClearsWord array i b.old b.new) }
    ensures fits { OnOk result ((words : Sees) → WordWell words array i b.old b.new) }
{
    let t = b.fresh(Bank::General)?;
    b.put(
        alloc,
        Op::Place {
            to: t,
            array,
            index: Operand::Held(i),
        },
    )?;
    b.put(
        alloc,
        Op::Store {
            array,
            place: Operand::Held(t),
            from: Operand::Number(0),
        },
    )?;
    let place = Operand::Held(i);
    compute(b, alloc, Code::Add, place, Operand::Number(1), Some(i))?;
    Ok(())
}

/// All words of an array are set to 0, one after the other.
fn clear_array(
    b: &mut Builder,
    alloc: Global,
    words: &Sizes,
    array: ArrayId,
) -> Result<(), NoMemory>
    ensures code { OnOk result (Ready b.old → MakesPlain words.now (ClearArray array) b.old b.new) }
    ensures fits { OnOk result (PlainWell words.now (ClearArray array) b.old b.new) }
{
    let size = words.of(array);
    let i = clear(b, alloc, None)?;
    let head = enter(b, alloc)?;
    let c = b.fresh(Bank::Branch)?;
    let end = b.branch(
        alloc,
        Op::Compute {
            code: Code::ToBranch(Compare::Lt),
            to: c,
            left: Operand::Held(i),
            right: size,
        },
        c,
    )?;
    clear_word(b, alloc, array, i)?;
    b.close(alloc, Exit::Goto(head), end);
    Ok(())
}

/// The code of an item of a declaration.
fn emit_item(b: &mut Builder, alloc: Global, words: &Sizes, item: &Item) -> Result<(), NoMemory>
    ensures code { OnOk result (Ready b.old → MakesPlain words.now (item_of item.now) b.old b.new) }
    ensures fits { OnOk result (PlainWell words.now (item_of item.now) b.old b.new) }
{
    match item {
        Item::Scalar(x) => {
            clear(b, alloc, Some(*x))?;
            Ok(())
        }
        Item::ScalarWith(x, e) => {
            emit_value(b, alloc, words, e, Some(*x))?;
            Ok(())
        }
        Item::Array(array) => clear_array(b, alloc, words, *array),
    }
}

/// The code of the items of a declaration, one after the other.
fn emit_items(b: &mut Builder, alloc: Global, words: &Sizes, items: &[Item]) -> Result<(), NoMemory>
    ensures code { OnOk result (Ready b.old → MakesPlain words.now (items_of items.now) b.old b.new) }
    ensures fits { OnOk result (PlainWell words.now (items_of items.now) b.old b.new) }
{
    for item in items {
        emit_item(b, alloc, words, item)?;
    }
    Ok(())
}

/// The code of the first part of the head of a `for`.
fn emit_first(b: &mut Builder, alloc: Global, words: &Sizes, first: &First) -> Result<(), NoMemory>
    ensures code { OnOk result (Ready b.old → MakesPlain words.now (first_of first.now) b.old b.new) }
    ensures fits { OnOk result (PlainWell words.now (first_of first.now) b.old b.new) }
{
    match first {
        First::Nothing => Ok(()),
        First::Simple(action) => emit_action(b, alloc, words, action),
        First::Items(items) => emit_items(b, alloc, words, items.as_slice()),
    }
}

/// The code of the step of a `for`.
fn emit_step(
    b: &mut Builder,
    alloc: Global,
    words: &Sizes,
    step: &Option<Simple>,
) -> Result<(), NoMemory>
    ensures code { OnOk result (Ready b.old → MakesPlain words.now (step_of step.now) b.old b.new) }
    ensures fits { OnOk result (PlainWell words.now (step_of step.now) b.old b.new) }
{
    match step {
        None => Ok(()),
        Some(action) => emit_action(b, alloc, words, action),
    }
}

/// The test of a loop. The open block then is where it holds, and the result is where it does not; where there is no
/// test nothing leads there.
fn emit_asked(
    b: &mut Builder,
    alloc: Global,
    words: &Sizes,
    test: &Option<Expression>,
) -> Result<BlockId, NoMemory>
    ensures code { IfOk result (λ n. Ready b.old → MakesTest words.now (option_map tree_of test.now) n b.old b.new) }
    ensures fits { IfOk result (λ n. LoopTestWell words.now (option_map tree_of test.now) n b.old b.new) }
{
    match test {
        None => b.reserve(),
        Some(e) => emit_test(b, alloc, words, e),
    }
}

/// The code of a print.
fn emit_print(
    b: &mut Builder,
    alloc: Global,
    words: &Sizes,
    texts: &mut Listed<Bytes>,
    format: &[u8],
    all: &[Expression],
) -> Result<(), NoMemory>
    ensures code { OnOk result ((leaves again : Option ℕ) → Ready b.old → Makes words.now (Print format.now (row_in all.now)) leaves again b.old b.new texts.old texts.new) }
    ensures fits { OnOk result ((leaves again : Option ℕ) → StatementWell words.now (Print format.now (row_in all.now)) leaves again b.old b.new texts.old texts.new) }
{
    let arguments = emit_row(b, alloc, words, all)?;
    show(b, alloc, texts, format, arguments.as_slice())
}

/// The code of an `if` without `else`.
#[cycle(statements)]
fn emit_if(
    b: &mut Builder,
    alloc: Global,
    words: &Sizes,
    texts: &mut Listed<Bytes>,
    one: &Statement,
    e: &Expression,
    leaves: Option<BlockId>,
    again: Option<BlockId>,
) -> Result<(), NoMemory>
    ensures code { OnOk result (Ready b.old → Makes words.now (If (tree_of e.now) (code_of one.now)) leaves again b.old b.new texts.old texts.new) }
    ensures fits { OnOk result (StatementWell words.now (If (tree_of e.now) (code_of one.now)) leaves again b.old b.new texts.old texts.new) }
{
    let skip = emit_test(b, alloc, words, e)?;
    emit_statement(b, alloc, words, texts, one, leaves, again)?;
    let both = join(b, alloc, skip)?;
    b.close(alloc, Exit::Goto(both), both);
    Ok(())
}

/// The code of a `while`: a continue leads to its test.
#[cycle(statements)]
fn emit_while(
    b: &mut Builder,
    alloc: Global,
    words: &Sizes,
    texts: &mut Listed<Bytes>,
    body: &Statement,
    e: &Expression,
) -> Result<(), NoMemory>
    ensures code { OnOk result ((leaves again : Option ℕ) → Ready b.old → Makes words.now (While (tree_of e.now) (code_of body.now)) leaves again b.old b.new texts.old texts.new) }
    ensures fits { OnOk result ((leaves again : Option ℕ) → StatementWell words.now (While (tree_of e.now) (code_of body.now)) leaves again b.old b.new texts.old texts.new) }
{
    let head = enter(b, alloc)?;
    let end = emit_test(b, alloc, words, e)?;
    let after = b.reserve()?;
    emit_statement(b, alloc, words, texts, body, Some(after), Some(head))?;
    b.close(alloc, Exit::Goto(head), end);
    b.close(alloc, Exit::Goto(after), after);
    Ok(())
}

/// The code of a `do`: a continue leads to its test, which stands behind the body.
#[cycle(statements)]
fn emit_do_while(
    b: &mut Builder,
    alloc: Global,
    words: &Sizes,
    texts: &mut Listed<Bytes>,
    body: &Statement,
    e: &Expression,
) -> Result<(), NoMemory>
    ensures code { OnOk result ((leaves again : Option ℕ) → Ready b.old → Makes words.now (DoWhile (code_of body.now) (tree_of e.now)) leaves again b.old b.new texts.old texts.new) }
    ensures fits { OnOk result ((leaves again : Option ℕ) → StatementWell words.now (DoWhile (code_of body.now) (tree_of e.now)) leaves again b.old b.new texts.old texts.new) }
{
    let head = enter(b, alloc)?;
    let after = b.reserve()?;
    let test = b.reserve()?;
    emit_statement(b, alloc, words, texts, body, Some(after), Some(test))?;
    b.close(alloc, Exit::Goto(test), test);
    let done = emit_test(b, alloc, words, e)?;
    b.close(alloc, Exit::Goto(head), done);
    b.close(alloc, Exit::Goto(after), after);
    Ok(())
}

/// The code of a `for`: a continue leads to its step.
#[cycle(statements)]
fn emit_for(
    b: &mut Builder,
    alloc: Global,
    words: &Sizes,
    texts: &mut Listed<Bytes>,
    body: &Statement,
    first: &First,
    test: &Option<Expression>,
    step: &Option<Simple>,
) -> Result<(), NoMemory>
    ensures code { OnOk result ((leaves again : Option ℕ) → Ready b.old → Makes words.now (For (first_of first.now) (option_map tree_of test.now) (step_of step.now) (code_of body.now)) leaves again b.old b.new texts.old texts.new) }
    ensures fits { OnOk result ((leaves again : Option ℕ) → StatementWell words.now (For (first_of first.now) (option_map tree_of test.now) (step_of step.now) (code_of body.now)) leaves again b.old b.new texts.old texts.new) }
{
    emit_first(b, alloc, words, first)?;
    let head = enter(b, alloc)?;
    let end = emit_asked(b, alloc, words, test)?;
    let after = b.reserve()?;
    let next = b.reserve()?;
    emit_statement(b, alloc, words, texts, body, Some(after), Some(next))?;
    b.close(alloc, Exit::Goto(next), next);
    emit_step(b, alloc, words, step)?;
    b.close(alloc, Exit::Goto(head), end);
    b.close(alloc, Exit::Goto(after), after);
    Ok(())
}

/// The code of a `return` with a value.
fn emit_return(
    b: &mut Builder,
    alloc: Global,
    words: &Sizes,
    e: &Expression,
) -> Result<(), NoMemory>
    ensures code { OnOk result ((leaves again : Option ℕ) (texts : List (List ℕ)) → Ready b.old → Makes words.now (ReturnValue (tree_of e.now)) leaves again b.old b.new texts texts) }
    ensures fits { OnOk result ((leaves again : Option ℕ) (texts : List (List ℕ)) → StatementWell words.now (ReturnValue (tree_of e.now)) leaves again b.old b.new texts texts) }
{
    let value = emit_value(b, alloc, words, e, None)?;
    end_with(b, alloc, Exit::Return(value))
}

/// The code of a statement. A break goes to the block `leaves`, and a continue to `again`.
#[cycle(statements)]
pub fn emit_statement(
    b: &mut Builder,
    alloc: Global,
    words: &Sizes,
    texts: &mut Listed<Bytes>,
    s: &Statement,
    leaves: Option<BlockId>,
    again: Option<BlockId>,
) -> Result<(), NoMemory>
    ensures code { OnOk result (Ready b.old → Makes words.now (code_of s.now) leaves again b.old b.new texts.old texts.new) }
    ensures fits { OnOk result (StatementWell words.now (code_of s.now) leaves again b.old b.new texts.old texts.new) }
{
    match s {
        Statement::Empty => Ok(()),
        Statement::Block(all) => emit_all(b, alloc, words, texts, all.as_slice(), leaves, again),
        Statement::Declaration(items) => emit_items(b, alloc, words, items.as_slice()),
        Statement::Simple(action) => emit_action(b, alloc, words, action),
        Statement::Print(format, all) => emit_print(
            b,
            alloc,
            words,
            texts,
            format.as_slice(),
            all.as_slice(),
        ),
        Statement::If(e, one) => emit_if(b, alloc, words, texts, one, e, leaves, again),
        Statement::IfElse(e, one, two) => {
            let no = emit_test(b, alloc, words, e)?;
            emit_statement(b, alloc, words, texts, one, leaves, again)?;
            let both = join(b, alloc, no)?;
            emit_statement(b, alloc, words, texts, two, leaves, again)?;
            b.close(alloc, Exit::Goto(both), both);
            Ok(())
        }
        Statement::While(e, body) => emit_while(b, alloc, words, texts, body, e),
        Statement::DoWhile(body, e) => emit_do_while(b, alloc, words, texts, body, e),
        Statement::For(first, test, step, body) => emit_for(
            b, alloc, words, texts, body, first, test, step,
        ),
        Statement::Break => end_with(b, alloc, way(leaves)),
        Statement::Continue => end_with(b, alloc, way(again)),
        Statement::Return => end_with(b, alloc, Exit::Return(Operand::Number(0))),
        Statement::ReturnValue(e) => emit_return(b, alloc, words, e),
    }
}

/// The code of statements, one after the other.
#[cycle(statements)]
pub fn emit_all(
    b: &mut Builder,
    alloc: Global,
    words: &Sizes,
    texts: &mut Listed<Bytes>,
    all: &[Statement],
    leaves: Option<BlockId>,
    again: Option<BlockId>,
) -> Result<(), NoMemory>
    ensures code { OnOk result (Ready b.old → Makes words.now (all_in all.now) leaves again b.old b.new texts.old texts.new) }
    ensures fits { OnOk result (StatementWell words.now (all_in all.now) leaves again b.old b.new texts.old texts.new) }
{
    for s in all {
        emit_statement(b, alloc, words, texts, s, leaves, again)?;
    }
    Ok(())
}
