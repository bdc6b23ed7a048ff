// Programs as text: every form of an operation read and written again, one program written, and a few faulty texts.

use crate::programs::program;
use crate::soundness::HALT;
use std::alloc::{AllocError, Global};
use std::test::Fail;
use vx_base::arithmetic::Code;
use vx_base::outcome::NoMemory;
use vx_isa::operation::{GeneralRegister, Operation, Register, Source};
use vx_isa::program::WordProgram;
use vx_isa::sound;
use vx_reader::{WordsFault, read};
use vx_words::write;

/// Lines of one word each, at least one for each form of an operation.
const FORMS: [&[u8]; 62] = [
    b"c0 add $r0.3 = $r0.4, $r0.5",
    b"c1 sub $r1.3 = -1, $r1.5",
    b"c2 and $r2.63 = $r2.0, 15",
    b"c3 or $r3.1 = 0, 0",
    b"c0 xor $r0.3 = $r0.3, -1",
    b"c0 shl $r0.3 = $r0.3, 31",
    b"c0 shr $r0.3 = $r0.3, 2",
    b"c0 shru $r0.3 = $r0.3, $r0.9",
    b"c0 sh2add $r0.3 = $r0.4, $r0.1",
    b"c0 max $r0.3 = $r0.4, 2147483647",
    b"c0 min $r0.3 = -2147483648, $r0.4",
    b"c0 mpylu $r0.3 = $r0.4, 5",
    b"c0 mpyhs $r0.3 = $r0.4, 5",
    b"c0 div $r0.3 = $r0.4, 0",
    b"c0 rem $r0.3 = 10, $r0.5",
    b"c0 cmpeq $r0.3 = $r0.4, 1",
    b"c0 cmpeq $b0.0 = $r0.4, 1",
    b"c0 cmpne $r0.3 = $r0.4, 1",
    b"c0 cmpne $b0.1 = $r0.4, 1",
    b"c0 cmplt $r0.3 = $r0.4, 1",
    b"c0 cmplt $b0.2 = $r0.4, 1",
    b"c0 cmple $r0.3 = $r0.4, 1",
    b"c0 cmple $b0.3 = $r0.4, 1",
    b"c0 cmpgt $r0.3 = $r0.4, 1",
    b"c0 cmpgt $b0.4 = $r0.4, 1",
    b"c0 cmpge $r0.3 = $r0.4, 1",
    b"c0 cmpge $b0.5 = $r0.4, 1",
    b"c0 cmpltu $r0.3 = $r0.4, 1",
    b"c0 cmpltu $b0.6 = $r0.4, 1",
    b"c0 cmpgeu $r0.3 = $r0.4, 1",
    b"c0 cmpgeu $b3.7 = $r1.4, $r2.1",
    b"c0 mov $r0.3 = 1",
    b"c0 mov $r0.3 = $r0.4",
    b"c2 mov $r2.3 = $r0.4",
    b"c1 mov $r0.3 = $r3.4",
    b"c0 slct $r0.3 = $b0.7, 1, 0",
    b"c1 slct $r1.3 = $b0.7, $r1.4, $r2.5",
    b"c0 ldw $r0.3 = 0[$r0.1]",
    b"c3 ldw $r3.3 = -2147483648[$r3.0]",
    b"c0 ldw.d $r0.3 = 2147483647[$r0.1]",
    b"c0 stw 0[$r0.1] = 5",
    b"c1 stw -4[$r1.1] = $r1.3",
    b"c0 in $r0.3",
    b"c0 in $r1.3",
    b"c0 more $r0.3",
    b"c0 outs T0",
    b"c0 outd -7",
    b"c0 outd $r0.3",
    b"c0 outb 256",
    b"L0:\nc0 goto L0",
    b"L0:\nc0 br $b0.0, L0",
    b"L0:\nc0 brf $b0.7, L0",
    b"L0:\nc0 call $l0.0 = L0",
    b"c0 return $l0.0",
    b"c0 mfl $r0.3 = $l0.0",
    b"c0 mtl $l0.0 = $r0.3",
    b"c0 trap 1",
    b"c0 trap 2",
    b"c0 trap 3",
    b"c0 trap 4",
    b"c0 halt $r0.3",
    b"xnop 17",
];

fn whole(alloc: Global, lines: &[u8]) -> Result<Vec<u8>, AllocError> {
    let mut text = Vec::new(alloc);
    text.extend_from_slice(b".vexwords 1\n.memory 0\n.text \"\"\n")?;
    text.extend_from_slice(lines)?;
    text.extend_from_slice(b"\n;;\n.end\n")?;
    Ok(text)
}

fn is_written(alloc: Global, program: &WordProgram, text: &[u8]) -> Result<bool, NoMemory> {
    if !sound(program) {
        return Ok(false);
    }
    let written = write(alloc, program)?;
    Ok(written.as_slice() == text)
}

/// Whether a text is read, and the program written as that text.
fn is_again(alloc: Global, text: &[u8]) -> Result<bool, NoMemory> {
    match read(alloc, text) {
        Ok(program) => is_written(alloc, &program, text),
        Err(_) => Ok(false),
    }
}

fn form_is_again(alloc: Global, form: &[u8]) -> Result<bool, NoMemory> {
    let text = whole(alloc, form)?;
    is_again(alloc, text.as_slice())
}

fn first_lost(alloc: Global) -> Result<usize, NoMemory> {
    for (number, form) in FORMS.iter().enumerate() {
        if !form_is_again(alloc, form)? {
            return Ok(number);
        }
    }
    Ok(FORMS.len())
}

#[test]
fn forms_that_are_read_and_written_again(rt: HostRuntime) -> Result<(), Fail> {
    assert_eq!(rt; first_lost(rt.alloc())?, FORMS.len());
    Ok(())
}

const THREE: GeneralRegister = GeneralRegister {
    cluster: 0,
    number: 3,
};

/// Prints 2 + 3 and a line feed.
const FIVE: [&[Operation]; 4] = [
    &[Operation::Compute {
        cluster: 0,
        code: Code::Add,
        to: Register::General(THREE),
        left: Source::Number(2),
        right: Source::Number(3),
    }],
    &[Operation::OutDecimal {
        from: Source::Held(THREE),
    }],
    &[Operation::OutText { text: 0 }],
    &[HALT],
];

const FIVE_IN_TEXT: &[u8] =
    b".vexwords 1\n.memory 8\n.word 4 = 7\n.text \"\\x0a\"\nc0 add $r0.3 = 2, 3\n;;\nc0 outd $r0.3\n;;\nc0 outs T0\n;;\nc0 halt 0\n;;\n.end\n";

fn five_is_written(alloc: Global) -> Result<bool, NoMemory> {
    let program = program(alloc, &FIVE)?;
    is_written(alloc, &program, FIVE_IN_TEXT)
}

#[test]
fn a_program_is_spelled(rt: HostRuntime) -> Result<(), Fail> {
    assert!(rt; five_is_written(rt.alloc())?);
    assert!(rt; is_again(rt.alloc(), FIVE_IN_TEXT)?);
    Ok(())
}

fn has_fault(alloc: Global, text: &[u8], code: u32, line: u32) -> bool {
    match read(alloc, text) {
        Ok(_) => false,
        Err(fault) => fault == WordsFault::Bad { code, line },
    }
}

// No front of a text is one, for want of its last line; a line that is wrong, and a place that is not there.
#[test]
fn faulty_texts(rt: HostRuntime) {
    let alloc = rt.alloc();
    let fronts = 0..FIVE_IN_TEXT.len();
    assert!(rt;
        fronts
            .into_iter()
            .all(|end| has_fault(alloc, &FIVE_IN_TEXT[..end], 7, 0))
    );
    assert!(rt; has_fault(alloc, b".vexwords 1\n.memory 134217732\n.end\n", 6, 2));
    assert!(rt;
        has_fault(
            alloc,
            b".vexwords 1\n.memory 0\nc0 goto L1\n;;\n.end\n",
            4,
            3
        )
    );
}

/// Two branches in a word, in the second version.
const TWO_BRANCHES: &[u8] =
    b".vexwords 2\n.memory 0\nc0 br $b0.0, L1\nc0 brf $b0.1, L2\n;;\nL1:\nc0 halt 1\n;;\nL2:\nc0 halt 2\n;;\n.end\n";

/// The version of a text that is read, else 0.
fn version_read(alloc: Global, text: &[u8]) -> u32 {
    match read(alloc, text) {
        Ok(program) => program.version,
        Err(_) => 0,
    }
}

// A text is read, and written again, in its own version.
#[test]
fn two_versions(rt: HostRuntime) -> Result<(), Fail> {
    let alloc = rt.alloc();
    assert!(rt; is_again(alloc, TWO_BRANCHES)?);
    assert_eq!(rt; version_read(alloc, TWO_BRANCHES), 2);
    assert_eq!(rt; version_read(alloc, FIVE_IN_TEXT), 1);
    Ok(())
}

// Another number is no version, and the second one is repeated as the first one is and hides no later fault.
#[test]
fn faulty_versions(rt: HostRuntime) {
    let alloc = rt.alloc();
    assert!(rt; has_fault(alloc, b".vexwords 3\n.memory 0\n.end\n", 1, 1));
    assert!(rt; has_fault(alloc, b".vexwords 2\n.memory 0\n.vexwords 2\n.end\n", 5, 3));
    assert!(rt; has_fault(alloc, b".vexwords 2\n.memory 134217732\n.end\n", 6, 2));
}
