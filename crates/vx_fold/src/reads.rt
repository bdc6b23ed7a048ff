// Which values are read, and whether what stays of a graph reads values that are needed alone.

ghost use Rattle.std.specs.Prelude.{◌≡◌, ◌++◌, [], ◌∷◌};
ghost use Rattle.std.specs.List.{list_all};
ghost use Rattle.vx_flow.specs.Effects.{reads, value_in};
ghost use Rattle.vx_flow.specs.Live.{reads_of_exit};
ghost use Rattle.vx_flow.specs.Operands.{value_list, values_read};
ghost use Rattle.vx_fold.specs.Thinning.{are_read, block_reads_read, is_unread, reads_read, result_alone, unread_of};

use vx_flow::graph::{Block, Exit, Op, Operand, Value};
use vx_flow::operands::{Reads, read_by, written_by};

/// The value that an operation writes, where it does nothing else.
pub fn result_alone(op: &Op) -> Option<Value>
    ensures { result ≡ result_alone op.now }
{
    match op {
        Op::Input { .. } => None,
        _ => written_by(op),
    }
}

/// Whether a value is marked as one that is not needed.
fn is_unneeded(needed: &[bool], value: Value) -> bool
    ensures { result ≡ unread_of needed.now value }
{
    match needed.get(value as usize) {
        Some(needed) => !*needed,
        None => false,
    }
}

/// Whether an operation only writes a value that is not needed.
pub fn is_dropped(needed: &[bool], op: &Op) -> bool
    ensures { result ≡ is_unread (unread_of needed.now) (result_alone op.now) }
{
    match result_alone(op) {
        Some(value) => is_unneeded(needed, value),
        None => false,
    }
}

fn is_value_read(needed: &[bool], value: Value) -> bool
    ensures { result ≡ are_read (unread_of needed.now) (value ∷ []) }
{
    !is_unneeded(needed, value)
}

fn is_read(needed: &[bool], operand: &Operand) -> bool
    ensures { result ≡ are_read (unread_of needed.now) (value_in operand.now) }
{
    match operand {
        Operand::Held(value) => is_value_read(needed, *value),
        Operand::Number(_) => true,
        Operand::Stack => true,
    }
}

fn is_none_or_read(needed: &[bool], value: Option<Value>) -> bool
    ensures { result ≡ are_read (unread_of needed.now) (value_list value) }
{
    match value {
        Some(value) => is_value_read(needed, value),
        None => true,
    }
}

#[tactic(auto, using(crate::proofs::ThinFlow::read_both))]
fn are_both_read(needed: &[bool], one: Option<Value>, other: Option<Value>) -> bool
    ensures { result ≡ are_read (unread_of needed.now) (value_list one ++ value_list other) }
{
    is_none_or_read(needed, one) && is_none_or_read(needed, other)
}

#[tactic(auto, using(crate::proofs::ThinFlow::read_both))]
fn are_all_three_read(needed: &[bool], reads: &Reads) -> bool
    ensures { result ≡ are_read (unread_of needed.now) (values_read reads.now) }
{
    is_none_or_read(needed, reads.first) && are_both_read(needed, reads.second, reads.third)
}

/// Whether the values that an operation reads are needed.
#[tactic(auto, using(crate::proofs::ThinFlow::read_by_op))]
pub fn are_reads_needed(needed: &[bool], op: &Op) -> bool
    ensures { result ≡ are_read (unread_of needed.now) (reads op.now) }
{
    are_all_three_read(needed, &read_by(op))
}

/// Whether an operation is dropped or reads needed values alone.
fn reads_needed(needed: &[bool], op: &Op) -> bool
    ensures { result ≡ reads_read (unread_of needed.now) op.now }
{
    is_dropped(needed, op) || are_reads_needed(needed, op)
}

fn ops_read_needed(needed: &[bool], ops: &[Op]) -> bool
    ensures { result ≡ list_all (reads_read (unread_of needed.now)) ops.now }
{
    for op in ops {
        if !reads_needed(needed, op) {
            return false;
        }
    }
    true
}

fn are_all_read(needed: &[bool], operands: &[Operand]) -> bool
    ensures { result ≡ list_all (λ x. are_read (unread_of needed.now) (value_in x)) operands.now }
{
    for operand in operands {
        if !is_read(needed, operand) {
            return false;
        }
    }
    true
}

#[tactic(auto, using(crate::proofs::ThinFlow::read_all))]
/// Whether the values that an exit reads are needed.
pub fn exit_reads_needed(needed: &[bool], exit: &Exit) -> bool
    ensures { result ≡ are_read (unread_of needed.now) (reads_of_exit exit.now) }
{
    match exit {
        Exit::Goto(_) => true,
        Exit::Split { test, .. } => is_value_read(needed, *test),
        Exit::Call { arguments, .. } => are_all_read(needed, arguments.as_slice()),
        Exit::Return(operand) => is_read(needed, operand),
        Exit::Ends(_) => true,
    }
}

fn block_reads_needed(needed: &[bool], block: &Block) -> bool
    ensures { result ≡ block_reads_read (unread_of needed.now) block.now }
{
    ops_read_needed(needed, block.ops.as_slice()) && exit_reads_needed(needed, &block.exit)
}

/// Whether each operation that is not dropped, and each exit, reads needed values alone.
pub fn blocks_read_needed(needed: &[bool], blocks: &[Block]) -> bool
    ensures { result ≡ list_all (block_reads_read (unread_of needed.now)) blocks.now }
{
    for block in blocks {
        if !block_reads_needed(needed, block) {
            return false;
        }
    }
    true
}
