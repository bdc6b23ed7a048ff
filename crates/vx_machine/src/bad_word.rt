// Whether a word is bad for a machine, by marks for the registers that were written. The clause is `is_bad_word` of
// vx_isa.

ghost use Rattle.std.specs.Prelude.{◌≡◌, true};
ghost use Rattle.std.specs.List.{list_all, AllByRecursion};
ghost use Rattle.vx_isa.specs.Fits.{keeps_to_cluster, destinations, is_twice, is_bad_word};
ghost use Rattle.vx_machine.specs.Marks.{mark_of, HasMark, is_marked_or_twice};

use crate::Machine;
use crate::fit::has_registers;
use vx_isa::operation::{Operation, Register};
use vx_isa::program::Word;

/// Whether the word is bad for the machine: a register is a destination twice, an operand stands on a cluster that
/// its operation may not use, or a register number is not below its file's size. It takes no memory.
pub fn is_bad_word(machine: &Machine, word: &Word) -> bool
    ensures { result ≡ is_bad_word machine.now word.now.ops }
{
    let ops = word.ops.as_slice();
    machine.keeps_ranges();
    if keep_to_clusters(ops) && has_registers(machine, ops) {
        writes_twice(ops)
    } else {
        true
    }
}

fn keep_to_clusters(ops: &[Operation]) -> bool
    ensures { result ≡ list_all keeps_to_cluster ops.now }
{
    for op in ops {
        if !op.keeps_to_cluster() {
            return false;
        }
    }
    true
}

/// Whether a register is a destination twice.
fn writes_twice(ops: &[Operation]) -> bool
    requires { AllByRecursion HasMark (destinations ops.now) }
    ensures { result ≡ is_twice (destinations ops.now) }
{
    let mut marks = [false; 289];
    for op in ops {
        if let Some(register) = op.destination() {
            let mark = mark_of(&register);
            if marks[mark] {
                return true;
            }
            marks[mark] = true;
        }
    }
    false
}

/// The number of a register by which it is marked.
fn mark_of(register: &Register) -> usize
    requires { HasMark register.now }
    ensures { result ≡ mark_of register.now }
{
    match register {
        Register::General(r) => 64 * r.cluster as usize + r.number as usize,
        Register::Branch(r) => 256 + (8 * r.cluster as usize + r.number as usize),
        Register::Link => 288,
    }
}
