// The values that a graph names.

ghost use Rattle.std.specs.Prelude.{◌≡◌, ◌++◌, IfOk};
ghost use Rattle.std.specs.List.{flat_map};
ghost use Rattle.vx_flow.specs.Effects.{reads, value_in, writes};
ghost use Rattle.vx_flow.specs.Live.{reads_of_exit};
ghost use Rattle.vx_flow.specs.Sound.{results_of_exit};
ghost use Rattle.vx_inline.specs.Inlined.{named_by, names};

use std::alloc::Global;
use vx_base::listed::{Listed, copied};
use vx_base::outcome::NoMemory;
use vx_flow::graph::{Block, Exit, Graph, Op, Operand, Value};
use vx_flow::operands::{push_operand, push_reads, push_value, written_by};

/// The values that a graph names, its parameters first, as often as it names them.
pub(crate) fn names(alloc: Global, graph: &Graph) -> Result<Listed<Value>, NoMemory>
    ensures { IfOk result (λ values. values ≡ names graph.now) }
{
    let mut values = copied(alloc, graph.parameters.as_slice())?;
    push_blocks(&mut values, graph.blocks.as_slice())?;
    Ok(values)
}

fn push_blocks(values: &mut Listed<Value>, blocks: &[Block]) -> Result<(), NoMemory>
    ensures { IfOk result (λ _. values.new ≡ values.old ++ flat_map named_by blocks.now) }
{
    for block in blocks {
        push_block(values, block)?;
    }
    Ok(())
}

fn push_block(values: &mut Listed<Value>, block: &Block) -> Result<(), NoMemory>
    ensures { IfOk result (λ _. values.new ≡ values.old ++ named_by block.now) }
{
    push_ops(values, block.ops.as_slice())?;
    push_exit(values, &block.exit)
}

fn push_ops(values: &mut Listed<Value>, ops: &[Op]) -> Result<(), NoMemory>
    ensures { IfOk result (λ _. values.new ≡ values.old ++ flat_map (λ op. reads op ++ writes op) ops.now) }
{
    for op in ops {
        push_op(values, op)?;
    }
    Ok(())
}

fn push_op(values: &mut Listed<Value>, op: &Op) -> Result<(), NoMemory>
    ensures { IfOk result (λ _. values.new ≡ values.old ++ (reads op.now ++ writes op.now)) }
{
    push_reads(values, op)?;
    push_written(values, op)
}

#[tactic(auto, using(crate::proofs::Named::written_added))]
fn push_written(values: &mut Listed<Value>, op: &Op) -> Result<(), NoMemory>
    ensures { IfOk result (λ _. values.new ≡ values.old ++ writes op.now) }
{
    push_value(values, written_by(op))
}

fn push_exit(values: &mut Listed<Value>, exit: &Exit) -> Result<(), NoMemory>
    ensures { IfOk result (λ _. values.new ≡ values.old ++ (reads_of_exit exit.now ++ results_of_exit exit.now)) }
{
    match exit {
        Exit::Goto(_) | Exit::Ends(_) => Ok(()),
        Exit::Split { test, .. } => push_value(values, Some(*test)),
        Exit::Call {
            arguments,
            result,
            ..
        } => {
            push_operands(values, arguments.as_slice())?;
            match result {
                Some(written) => push_value(values, Some(*written)),
                None => Ok(()),
            }
        }
        Exit::Return(operand) => push_operand(values, operand),
    }
}

/// Adds the values that operands hold.
pub(crate) fn push_operands(
    values: &mut Listed<Value>,
    operands: &[Operand],
) -> Result<(), NoMemory>
    ensures { IfOk result (λ _. values.new ≡ values.old ++ flat_map value_in operands.now) }
{
    for operand in operands {
        push_operand(values, operand)?;
    }
    Ok(())
}
