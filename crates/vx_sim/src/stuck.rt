// Whether a word is stuck, and why. A word is tested before it has any effect.

ghost use Rattle.std.specs.Prelude.{◌≡◌, [], count_by};
ghost use Rattle.std.specs.List.{list_any};
ghost use Rattle.vx_isa.specs.Machine.{stuck_by, has_bad_address, takes_input};
ghost use Rattle.vx_isa.specs.Numbers.{Numbers};
ghost use Rattle.vx_isa.specs.declared.operation.UnitKind.TheVariants.{Memory};
ghost use Rattle.vx_isa.specs.Fits.{is_of};
ghost use Rattle.vx_sim.specs.Shapes.{shape_of, counts_of, stuck_here};
ghost use Rattle.vx_sim.specs.Standing.{state_of};

use crate::shape::Shape;
use crate::state::{Standing, is_word_of};
use vx_base::outcome::Reason;
use vx_isa::operation::Operation;
use vx_isa::program::{Word, WordProgram};

/// The first reason for which the word is stuck, of those that its shape tells and those of the state.
pub(crate) fn stuck_by(
    program: &WordProgram,
    now: &Standing,
    word: &Word,
    shape: &Shape,
) -> Option<Reason>
    requires { shape.now.counts ≡ counts_of word.now.ops }
    ensures { (m : Numbers) → shape.now ≡ shape_of m word.now → result ≡ stuck_by m program.now (state_of now.now []) word.now.ops }
{
    match shape.unfit {
        Some(reason) => Some(reason),
        None => stuck_here(program, now, word.ops.as_slice(), shape.counts.memory),
    }
}

/// The first reason that depends on where the simulator stands. A word without a memory unit has none.
fn stuck_here(
    program: &WordProgram,
    now: &Standing,
    ops: &[Operation],
    memory: u32,
) -> Option<Reason>
    requires { memory ≡ count_by (is_of Memory) ops.now }
    ensures { result ≡ stuck_here program.now (state_of now.now []) ops.now }
{
    if memory == 0 {
        None
    } else if has_bad_addresses(program.memory, now, ops) {
        Some(Reason::BadAddress)
    } else if take_input(ops) && !now.has_input() {
        Some(Reason::NoInputLeft)
    } else {
        None
    }
}

fn has_bad_addresses(size: u32, now: &Standing, ops: &[Operation]) -> bool
    ensures { result ≡ list_any (has_bad_address size (state_of now.now [])) ops.now }
{
    for op in ops {
        if has_bad_address(size, now, op) {
            return true;
        }
    }
    false
}

fn has_bad_address(size: u32, now: &Standing, op: &Operation) -> bool
    ensures { result ≡ has_bad_address size (state_of now.now []) op.now }
{
    match op {
        Operation::Load {
            offset,
            base,
            dismissible,
            ..
        } => !*dismissible && !is_word_of(size, now.address(base, *offset)),
        Operation::Store { offset, base, .. } => !is_word_of(size, now.address(base, *offset)),
        _ => false,
    }
}

fn take_input(ops: &[Operation]) -> bool
    ensures { result ≡ list_any takes_input ops.now }
{
    for op in ops {
        if takes_input(op) {
            return true;
        }
    }
    false
}

/// Whether the operation takes a number of the input.
pub(crate) fn takes_input(op: &Operation) -> bool
    ensures { result ≡ takes_input op.now }
{
    matches!(op, Operation::Input { .. })
}
