// What operations and exits do to values on a route, in order. specs/Live.antt says the lists.

ghost use Rattle.std.specs.Prelude.{◌≡◌, ◌++◌, map, IfOk};
ghost use Rattle.std.specs.List.{flat_map};
ghost use Rattle.vx_flow.specs.Effects.{reads, value_in, writes};
ghost use Rattle.vx_flow.specs.Live.{reading, touch, touches_of_exit, writing};
ghost use Rattle.vx_flow.specs.Operands.{value_list};

use crate::graph::{Exit, Op, Operand, Value};
use crate::operands::{held_by, read_by, written_by};
use crate::routes::Touch;
use vx_base::listed::Listed;
use vx_base::outcome::NoMemory;

/// Adds that a value is read, or that it is written, if there is one.
pub fn touch_value(
    touches: &mut Listed<Touch>,
    reads: bool,
    value: Option<Value>,
) -> Result<(), NoMemory>
    ensures { IfOk result (λ _. touches.new ≡ touches.old ++ map (touch reads) (value_list value)) }
{
    match value {
        Some(value) => touches.push(Touch { value, reads })?,
        None => {}
    }
    Ok(())
}

/// Adds what an operation reads.
#[tactic(auto, using(crate::proofs::OperandLaws::reads_touched))]
pub fn touch_reads(touches: &mut Listed<Touch>, op: &Op) -> Result<(), NoMemory>
    ensures { IfOk result (λ _. touches.new ≡ touches.old ++ reading (reads op.now)) }
{
    let read = read_by(op);
    touch_value(touches, true, read.first)?;
    touch_value(touches, true, read.second)?;
    touch_value(touches, true, read.third)
}

/// Adds what an operation writes.
#[tactic(auto, using(crate::proofs::OperandLaws::writes_touched))]
pub fn touch_writes(touches: &mut Listed<Touch>, op: &Op) -> Result<(), NoMemory>
    ensures { IfOk result (λ _. touches.new ≡ touches.old ++ writing (writes op.now)) }
{
    touch_value(touches, false, written_by(op))
}

/// Adds what an exit does: it reads, and a call then writes its result.
pub fn touch_exit(touches: &mut Listed<Touch>, exit: &Exit) -> Result<(), NoMemory>
    ensures { IfOk result (λ _. touches.new ≡ touches.old ++ touches_of_exit exit.now) }
{
    match exit {
        Exit::Goto(_) | Exit::Ends(_) => Ok(()),
        Exit::Split { test, .. } => touch_value(touches, true, Some(*test)),
        Exit::Call {
            arguments,
            result,
            ..
        } => {
            touch_operands(touches, arguments.as_slice())?;
            match result {
                Some(written) => touch_value(touches, false, Some(*written)),
                None => Ok(()),
            }
        }
        Exit::Return(operand) => touch_operand(touches, operand),
    }
}

fn touch_operands(touches: &mut Listed<Touch>, operands: &[Operand]) -> Result<(), NoMemory>
    ensures { IfOk result (λ _. touches.new ≡ touches.old ++ reading (flat_map value_in operands.now)) }
{
    for operand in operands {
        touch_operand(touches, operand)?;
    }
    Ok(())
}

#[tactic(auto, using(crate::proofs::OperandLaws::held_touched))]
fn touch_operand(touches: &mut Listed<Touch>, operand: &Operand) -> Result<(), NoMemory>
    ensures { IfOk result (λ _. touches.new ≡ touches.old ++ reading (value_in operand.now)) }
{
    touch_value(touches, true, held_by(operand))
}
