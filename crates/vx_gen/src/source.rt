// Whole sources: functions of at most 100 statements, and main, which prints what each gives.

ghost use Rattle.std.specs.Prelude.{◌≡◌, ◌++◌, ◌+◌, ◌-◌, ◌*◌, ◌<◌, ◌≤◌, IfOk, OnOk, decimal, length, min};
ghost use Rattle.vx_gen.specs.Program.{Puts, arguments, array, call_line, call_lines, closing, function, function_count, functions, main_opening, main_text, opening, printed, program_text, statements};

use crate::forms::push_statement;
use itoa::Buffer;
use std::alloc::Global;
use vx_base::outcome::NoMemory;

/// How many statements a function has, the last one aside.
const EACH: u32 = 100;

fn push_bytes(out: &mut Vec<u8>, bytes: &[u8]) -> Result<(), NoMemory>
    ensures { OnOk result (out.new.items ≡ out.old.items ++ bytes.now) }
{
    out.extend_from_slice(bytes)?;
    Ok(())
}

fn push_number(out: &mut Vec<u8>, number: u32) -> Result<(), NoMemory>
    ensures { OnOk result (out.new.items ≡ out.old.items ++ decimal number) }
{
    let mut buffer = Buffer::new();
    push_bytes(out, buffer.format(number).as_bytes())
}

fn push_statements(out: &mut Vec<u8>, count: u32, state: u64) -> Result<u64, NoMemory>
    ensures { IfOk result (λ next. Puts (statements count state) out.old.items out.new.items next) }
{
    let mut reached = state;
    for _statement in 0..count {
        reached = push_statement(out, reached)?;
    }
    Ok(reached)
}

#[tactic(auto, unfolding(crate::specs::Program::opening))]
fn push_opening(out: &mut Vec<u8>, number: u32) -> Result<(), NoMemory>
    ensures { OnOk result (out.new.items ≡ out.old.items ++ opening number) }
{
    push_bytes(out, b"int f")?;
    push_number(out, number)?;
    push_bytes(
        out,
        b"(int p, int q) {\nint i;\nint a = p;\nint b = q;\nint c = 1;\nint d = 2;\n",
    )
}

#[tactic(auto, unfolding(crate::specs::Program::closing))]
fn push_closing(out: &mut Vec<u8>) -> Result<(), NoMemory>
    ensures { OnOk result (out.new.items ≡ out.old.items ++ closing) }
{
    push_bytes(out, b"return a + b + c + d;\n}\n")
}

#[tactic(auto, unfolding(crate::specs::Program::function))]
fn push_function(out: &mut Vec<u8>, number: u32, count: u32, state: u64) -> Result<u64, NoMemory>
    ensures { IfOk result (λ next. Puts (function number count state) out.old.items out.new.items next) }
{
    push_opening(out, number)?;
    let reached = push_statements(out, count, state)?;
    push_closing(out)?;
    Ok(reached)
}

/// How many statements the function of this number has.
fn count_of(size: u32, number: u32) -> u32
    requires small { number ≤ 100 }
    ensures { result ≡ min 100 (size - 100 * number) }
{
    size.saturating_sub(EACH * number).min(EACH)
}

fn push_functions(out: &mut Vec<u8>, size: u32, count: u32, state: u64) -> Result<u64, NoMemory>
    requires small { count ≤ 100 }
    ensures { IfOk result (λ next. Puts (functions size 0 count state) out.old.items out.new.items next) }
{
    let mut reached = state;
    for number in 0..count {
        reached = push_function(out, number, count_of(size, number), reached)?;
    }
    Ok(reached)
}

fn push_arguments(out: &mut Vec<u8>, number: u32) -> Result<(), NoMemory>
    requires small { number ≤ 100 }
    ensures { OnOk result (out.new.items ≡ out.old.items ++ arguments number) }
{
    push_bytes(out, b"(")?;
    push_number(out, number + 1)?;
    push_bytes(out, b", ")?;
    push_number(out, number + 2)?;
    push_bytes(out, b")")
}

#[tactic(auto, unfolding(crate::specs::Program::printed))]
fn push_printed(out: &mut Vec<u8>) -> Result<(), NoMemory>
    ensures { OnOk result (out.new.items ≡ out.old.items ++ printed) }
{
    push_bytes(out, b"printf(\"%d\\n\", f")
}

fn push_call(out: &mut Vec<u8>, number: u32) -> Result<(), NoMemory>
    requires small { number ≤ 100 }
    ensures { OnOk result (out.new.items ≡ out.old.items ++ call_line number) }
{
    push_printed(out)?;
    push_number(out, number)?;
    push_arguments(out, number)?;
    push_bytes(out, b");\n")
}

fn push_calls(out: &mut Vec<u8>, count: u32) -> Result<(), NoMemory>
    requires small { count ≤ 100 }
    ensures { OnOk result (out.new.items ≡ out.old.items ++ call_lines 0 count) }
{
    for number in 0..count {
        push_call(out, number)?;
    }
    Ok(())
}

fn count_of_functions(size: u32) -> u32
    requires small { size ≤ 10000 }
    ensures number { result ≡ function_count size }
    ensures small { result ≤ 100 }
{
    (size + 99) / EACH
}

#[tactic(auto, unfolding(crate::specs::Program::main_opening))]
fn push_main_opening(out: &mut Vec<u8>) -> Result<(), NoMemory>
    ensures { OnOk result (out.new.items ≡ out.old.items ++ main_opening) }
{
    push_bytes(out, b"int main(void) {\n")
}

fn push_main(out: &mut Vec<u8>, size: u32) -> Result<(), NoMemory>
    requires small { size ≤ 10000 }
    ensures { OnOk result (out.new.items ≡ out.old.items ++ main_text size) }
{
    push_main_opening(out)?;
    push_calls(out, count_of_functions(size))?;
    push_bytes(out, b"return 0;\n}\n")
}

#[tactic(auto, unfolding(crate::specs::Program::array))]
fn push_array(out: &mut Vec<u8>) -> Result<(), NoMemory>
    ensures { OnOk result (out.new.items ≡ out.old.items ++ array) }
{
    push_bytes(out, b"int m[16];\n")
}

/// The source that a seed and a size give: `size` statements, from 1 to 10,000, in functions of 100 each and the rest in the
/// last one, and a `main` that prints what each function gives (docs/DEFINITIONS.md, `program_text`). The same seed and size
/// give the same bytes, fewer than 1,048,576. `Err` comes only where memory runs out. It takes a time that grows with the length of the text.
#[tactic(auto, using(crate::proofs::Length::program_length))]
pub fn program(alloc: Global, seed: u64, size: u32) -> Result<Vec<u8>, NoMemory>
    requires some { 1 ≤ size }
    requires small { size ≤ 10000 }
    ensures text { IfOk result (λ text. text.items ≡ program_text seed size) }

    // It is no longer than a source of the language may be.
    ensures short { IfOk result (λ text. length text.items < 1048576) }
{
    let mut out = Vec::new(alloc);
    push_array(&mut out)?;
    push_functions(&mut out, size, count_of_functions(size), seed)?;
    push_main(&mut out, size)?;
    Ok(out)
}
