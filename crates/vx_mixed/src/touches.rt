// What is read and written on the ways through blocks and words of regions, in order. specs/Routes.antt says the lists.

ghost use Rattle.std.specs.Prelude.{◌≡◌, ◌++◌, IfOk};
ghost use Rattle.std.specs.List.{flat_map};
ghost use Rattle.vx_mixed.specs.Routes.{exit_touches, op_touches, reading_item, word_touches, writing_item};

use crate::region::Item;
use vx_base::listed::Listed;
use vx_base::outcome::NoMemory;
use vx_flow::graph::{Exit, Op};
use vx_flow::routes::Touch;
use vx_flow::touched_values::{touch_exit, touch_reads, touch_value, touch_writes};

/// What the operations of a block do, one after the other.
pub(crate) fn push_ops(touches: &mut Listed<Touch>, ops: &[Op]) -> Result<(), NoMemory>
    ensures { IfOk result (λ _. touches.new ≡ touches.old ++ flat_map op_touches ops.now) }
{
    for op in ops {
        let word = [Item::Plain {
            op: *op,
            cluster: 0,
        }];
        push_word(touches, &word)?;
    }
    Ok(())
}

/// What a word does: it reads all that it reads, and then writes.
pub(crate) fn push_word(touches: &mut Listed<Touch>, word: &[Item]) -> Result<(), NoMemory>
    ensures { IfOk result (λ _. touches.new ≡ touches.old ++ word_touches word.now) }
{
    push_all_reads(touches, word)?;
    push_all_writes(touches, word)
}

fn push_all_reads(touches: &mut Listed<Touch>, word: &[Item]) -> Result<(), NoMemory>
    ensures { IfOk result (λ _. touches.new ≡ touches.old ++ flat_map reading_item word.now) }
{
    for item in word {
        push_item_reads(touches, item)?;
    }
    Ok(())
}

fn push_all_writes(touches: &mut Listed<Touch>, word: &[Item]) -> Result<(), NoMemory>
    ensures { IfOk result (λ _. touches.new ≡ touches.old ++ flat_map writing_item word.now) }
{
    for item in word {
        push_item_writes(touches, item)?;
    }
    Ok(())
}

fn push_item_reads(touches: &mut Listed<Touch>, item: &Item) -> Result<(), NoMemory>
    ensures { IfOk result (λ _. touches.new ≡ touches.old ++ reading_item item.now) }
{
    match item {
        Item::Plain { op, .. } => touch_reads(touches, op),
        Item::Split { test, .. } => touch_value(touches, true, Some(*test)),
    }
}

fn push_item_writes(touches: &mut Listed<Touch>, item: &Item) -> Result<(), NoMemory>
    ensures { IfOk result (λ _. touches.new ≡ touches.old ++ writing_item item.now) }
{
    match item {
        Item::Plain { op, .. } => touch_writes(touches, op),
        Item::Split { .. } => Ok(()),
    }
}

/// What an exit does: it reads, and a call then writes its result.
pub(crate) fn push_exit(touches: &mut Listed<Touch>, exit: &Exit) -> Result<(), NoMemory>
    ensures { IfOk result (λ _. touches.new ≡ touches.old ++ exit_touches exit.now) }
{
    touch_exit(touches, exit)
}
