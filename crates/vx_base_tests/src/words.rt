// Words at the edge of what fits a machine, and words that write one register twice.

use crate::programs::word;
use std::alloc::Global;
use std::test::Fail;
use vx_base::outcome::NoMemory;
use vx_isa::operation::{GeneralRegister, Operation, Source};
use vx_machine::{Machine, fits, is_bad_word};

const fn moved(number: u32) -> Operation {
    Operation::Move {
        cluster: 0,
        to: GeneralRegister { cluster: 0, number },
        from: Source::Number(1),
    }
}

/// Whether moves of 1 to these registers fit one word of the default machine, and whether that word is bad.
fn are(alloc: Global, registers: &[u32], fit: bool, bad: bool) -> Result<bool, NoMemory> {
    let mut word = word(alloc, &[])?;
    for number in registers {
        word.ops.push(moved(*number))?;
    }
    let machine = Machine::vex(1);
    Ok(fits(&machine, &word) == fit && is_bad_word(&machine, &word) == bad)
}

#[test]
fn moves_in_a_word(rt: HostRuntime) -> Result<(), Fail> {
    let alloc = rt.alloc();
    assert!(rt; are(alloc, &[0, 1, 2, 3], true, false)?);
    assert!(rt; are(alloc, &[0, 1, 2, 3, 4], false, false)?);
    assert!(rt; are(alloc, &[3, 1, 3], true, true)?);
    assert!(rt; are(alloc, &[64], false, true)?);
    Ok(())
}

#[test]
fn latencies_of_operations(rt: HostRuntime) {
    let across = Operation::Move {
        cluster: 1,
        to: GeneralRegister {
            cluster: 1,
            number: 3,
        },
        from: Source::Held(GeneralRegister {
            cluster: 0,
            number: 3,
        }),
    };
    let input = Operation::Input {
        to: GeneralRegister {
            cluster: 0,
            number: 3,
        },
    };
    let machine = Machine::vex(2);
    assert!(rt; machine.latency(&moved(3)) == 1 && machine.latency(&across) == 1);
    assert!(rt; machine.latency(&input) == 3 && machine.latency(&Operation::Return) == 0);
}
