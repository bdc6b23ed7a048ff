// What a word prints. Its text is put before anything else of the word is done.

ghost use Rattle.std.specs.Prelude.{◌≡◌, ◌≤◌, OnOk, OnErr, [], count_by};
ghost use Rattle.std.specs.List.{flat_map};
ghost use Rattle.vx_io.specs.Outside.{Rose, with_bytes, PutsFront};
ghost use Rattle.vx_isa.specs.declared.operation.UnitKind.TheVariants.{Memory};
ghost use Rattle.vx_isa.specs.Fits.{is_of};
ghost use Rattle.vx_isa.specs.Machine.{print_of};
ghost use Rattle.vx_sim.specs.Standing.{state_of};

use crate::state::Standing;
use itoa::Buffer;
use vx_arithmetic::unsigned32;
use vx_io::sink::{Sink, SinkFault, put_all};
use vx_isa::operation::Operation;
use vx_isa::program::WordProgram;

/// Puts the text of a word: none where no operation has a memory unit.
pub(crate) fn print<K: Sink>(
    program: &WordProgram,
    now: &Standing,
    ops: &[Operation],
    memory: u32,
    out: &mut K,
) -> Result<(), SinkFault>
    requires { memory ≡ count_by (is_of Memory) ops.now }
    ensures all { OnOk result (K.told out.new ≡ with_bytes (K.told out.old) (flat_map (print_of program.now (state_of now.now [])) ops.now)) }
    ensures front { OnErr result (PutsFront (K.told out.old) (K.told out.new) (flat_map (print_of program.now (state_of now.now [])) ops.now)) }
    ensures failed { OnErr result (Rose (K.faults out.old) (K.faults out.new)) }
    ensures faults_never_fall { K.faults out.old ≤ K.faults out.new }
{
    if memory == 0 {
        return put_all(out, &[]);
    }
    print_each(program, now, ops, out)
}

/// Puts the texts of operations, one after another.
fn print_each<K: Sink>(
    program: &WordProgram,
    now: &Standing,
    ops: &[Operation],
    out: &mut K,
) -> Result<(), SinkFault>
    ensures all { OnOk result (K.told out.new ≡ with_bytes (K.told out.old) (flat_map (print_of program.now (state_of now.now [])) ops.now)) }
    ensures front { OnErr result (PutsFront (K.told out.old) (K.told out.new) (flat_map (print_of program.now (state_of now.now [])) ops.now)) }
    ensures failed { OnErr result (Rose (K.faults out.old) (K.faults out.new)) }
    ensures faults_never_fall { K.faults out.old ≤ K.faults out.new }
{
    for op in ops {
        print_one(program, now, op, out)?;
    }
    Ok(())
}

fn print_one<K: Sink>(
    program: &WordProgram,
    now: &Standing,
    op: &Operation,
    out: &mut K,
) -> Result<(), SinkFault>
    ensures all { OnOk result (K.told out.new ≡ with_bytes (K.told out.old) (print_of program.now (state_of now.now []) op.now)) }
    ensures front { OnErr result (PutsFront (K.told out.old) (K.told out.new) (print_of program.now (state_of now.now []) op.now)) }
    ensures failed { OnErr result (Rose (K.faults out.old) (K.faults out.new)) }
    ensures faults_never_fall { K.faults out.old ≤ K.faults out.new }
{
    match op {
        Operation::OutText { text } => match program.texts.as_slice().get(*text as usize) {
            Some(bytes) => put_all(out, bytes.as_slice()),
            None => put_all(out, &[]),
        },
        Operation::OutDecimal { from } => {
            let mut buffer = Buffer::new();
            put_all(out, buffer.format(now.source(from)).as_bytes())
        }
        Operation::OutByte { from } => {
            let byte = (unsigned32(now.source(from)) % 256) as u8;
            put_all(out, &[byte])
        }
        _ => put_all(out, &[]),
    }
}
