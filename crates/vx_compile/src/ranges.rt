// The numbers of a program of words fit the types that hold them. Each function does nothing but look at them: that they fit is
// what the types say, and the clauses say it of the whole program.

ghost use Rattle.std.specs.Prelude.{◌≡◌, ℕ, ℤ, true, nat_lt};
ghost use Rattle.std.specs.List.{list_all};
ghost use Rattle.vx_isa.specs.declared.program.Word.{Word as AWord};
ghost use Rattle.vx_isa.specs.Range.{fits_operation, fits_signed, fits_source, fits_unsigned};
ghost use Rattle.vx_isa.specs.Range.{is_in_range};

use vx_base::listed::Bytes;
use vx_isa::operation::{Operation, Source};
use vx_isa::program::{Word, WordProgram};

fn signed_fits(number: i32)
    ensures { fits_signed number ≡ true }
{}

fn unsigned_fits(number: u32)
    ensures { fits_unsigned number ≡ true }
{}

fn source_fits(source: &Source)
    ensures { fits_source source.now ≡ true }
{
    match source {
        Source::Held(_) => {}
        Source::Number(number) => signed_fits(*number),
    }
}

fn operation_fits(op: &Operation)
    ensures { fits_operation op.now ≡ true }
{
    match op {
        Operation::Compute { left, right, .. } | Operation::Select { left, right, .. } => {
            source_fits(left);
            source_fits(right);
        }
        Operation::Load { offset, .. } => signed_fits(*offset),
        Operation::Store { offset, from, .. } => {
            signed_fits(*offset);
            source_fits(from);
        }
        Operation::Move { from, .. }
        | Operation::OutDecimal { from }
        | Operation::OutByte { from }
        | Operation::ToLink { from }
        | Operation::Halt { from } => source_fits(from),
        Operation::OutText { text } => unsigned_fits(*text),
        Operation::Goto { target }
        | Operation::BranchOn { target, .. }
        | Operation::Call { target } => unsigned_fits(*target),
        _ => {}
    }
}

fn operations_fit(ops: &[Operation])
    ensures { list_all fits_operation ops.now ≡ true }
{
    let mut rest = ops;
    'look: loop {
        match rest.split_first() {
            None => return,
            Some((op, others)) => {
                operation_fits(op);
                rest = others;
            }
        }
    }
}

fn words_fit(words: &[Word])
    ensures { list_all (λ (word : AWord). list_all fits_operation word.ops) words.now ≡ true }
{
    let mut rest = words;
    'look: loop {
        match rest.split_first() {
            None => return,
            Some((word, others)) => {
                operations_fit(word.ops.as_slice());
                rest = others;
            }
        }
    }
}

fn byte_fits(byte: u8)
    ensures { nat_lt byte 256 ≡ true }
{}

fn text_fits(bytes: &[u8])
    ensures { list_all (λ b. nat_lt b 256) bytes.now ≡ true }
{
    let mut rest = bytes;
    'look: loop {
        match rest.split_first() {
            None => return,
            Some((byte, others)) => {
                byte_fits(*byte);
                rest = others;
            }
        }
    }
}

fn texts_fit(texts: &[Bytes])
    ensures { list_all (list_all (λ b. nat_lt b 256)) texts.now ≡ true }
{
    let mut rest = texts;
    'look: loop {
        match rest.split_first() {
            None => return,
            Some((text, others)) => {
                text_fits(text.as_slice());
                rest = others;
            }
        }
    }
}

fn start_fits(start: &[(u32, i32)])
    ensures { list_all (λ (e : ℕ × ℤ). fits_signed e.1) start.now ≡ true }
{
    let mut rest = start;
    'look: loop {
        match rest.split_first() {
            None => return,
            Some((word, others)) => {
                signed_fits(word.1);
                rest = others;
            }
        }
    }
}

/// All numbers of a program of words fit their types.
pub(crate) fn numbers_fit(program: &WordProgram)
    ensures { is_in_range program.now ≡ true }
{
    start_fits(program.start.as_slice());
    texts_fit(program.texts.as_slice());
    words_fit(program.words.as_slice());
}
