// Whether the word text can spell programs of words.

use crate::programs::program;
use std::alloc::Global;
use std::test::Fail;
use vx_base::outcome::NoMemory;
use vx_isa::operation::{GeneralRegister, Operation, Source};
use vx_isa::{is_sound_operation, sound};

pub(crate) const HALT: Operation = Operation::Halt {
    from: Source::Number(0),
};

/// Whether a program is sound that prints this text, goes to this word, and ends.
fn is_sound(alloc: Global, text: u32, target: u32) -> Result<bool, NoMemory> {
    let first = [Operation::OutText { text }, Operation::Goto { target }];
    let second = [HALT];
    let program = program(alloc, &[&first, &second])?;
    Ok(sound(&program))
}

#[test]
fn what_is_named_is_there(rt: HostRuntime) -> Result<(), Fail> {
    assert!(rt; is_sound(rt.alloc(), 0, 1)?);
    assert!(rt; !is_sound(rt.alloc(), 1, 1)?);
    assert!(rt; !is_sound(rt.alloc(), 0, 2)?);
    Ok(())
}

fn input_to(number: u32) -> Operation {
    Operation::Input {
        to: GeneralRegister { cluster: 0, number },
    }
}

#[test]
fn registers_that_can_be_named(rt: HostRuntime) {
    assert!(rt; is_sound_operation(&input_to(63), 0, 0));
    assert!(rt; !is_sound_operation(&input_to(64), 0, 0));
}
