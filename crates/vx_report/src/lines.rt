// The lines of a report, each put at the end of a list of bytes. The forms are those of specs/Report.antt.

ghost use Rattle.std.specs.Prelude.{◌≡◌, ◌++◌, decimal, OnOk};
ghost use Rattle.std.specs.List.{flat_map};
ghost use Rattle.vx_report.specs.Report.{behind_blank, join_line, list_text, mode_text, numbers_line, op_line, split_line};

use itoa::Buffer;
use vx_base::outcome::NoMemory;
use vx_dep::copies::{EdgeCopies, Rejoin};
use vx_dep::mode::Mode;

/// Puts bytes at the end.
pub(crate) fn push_bytes(out: &mut Vec<u8>, bytes: &[u8]) -> Result<(), NoMemory>
    ensures { OnOk result (out.new.items ≡ out.old.items ++ bytes.now) }
{
    out.extend_from_slice(bytes)?;
    Ok(())
}

/// Puts a number in decimal at the end.
fn push_number(out: &mut Vec<u8>, number: u64) -> Result<(), NoMemory>
    ensures { OnOk result (out.new.items ≡ out.old.items ++ decimal number) }
{
    let mut buffer = Buffer::new();
    push_bytes(out, buffer.format(number).as_bytes())
}

/// Puts a word and a number behind it.
pub(crate) fn push_field(out: &mut Vec<u8>, word: &[u8], number: u64) -> Result<(), NoMemory>
    ensures { OnOk result (out.new.items ≡ out.old.items ++ (word.now ++ decimal number)) }
{
    push_bytes(out, word)?;
    push_number(out, number)
}

/// The same with a number of 32 bits.
pub(crate) fn push_small(out: &mut Vec<u8>, word: &[u8], number: u32) -> Result<(), NoMemory>
    ensures { OnOk result (out.new.items ≡ out.old.items ++ (word.now ++ decimal number)) }
{
    push_field(out, word, u64::from(number))
}

fn push_behind_blank(out: &mut Vec<u8>, number: u32) -> Result<(), NoMemory>
    ensures { OnOk result (out.new.items ≡ out.old.items ++ behind_blank number) }
{
    push_small(out, b" ", number)
}

fn push_list(out: &mut Vec<u8>, numbers: &[u32]) -> Result<(), NoMemory>
    ensures { OnOk result (out.new.items ≡ out.old.items ++ list_text numbers.now) }
{
    for number in numbers {
        push_behind_blank(out, *number)?;
    }
    Ok(())
}

/// Puts a word and numbers as a line.
pub(crate) fn push_numbers(out: &mut Vec<u8>, word: &[u8], numbers: &[u32]) -> Result<(), NoMemory>
    ensures { OnOk result (out.new.items ≡ out.old.items ++ numbers_line word.now numbers.now) }
{
    push_bytes(out, word)?;
    push_list(out, numbers)?;
    push_bytes(out, b"\n")
}

/// Puts the name of a mode.
pub(crate) fn push_mode(out: &mut Vec<u8>, mode: Mode) -> Result<(), NoMemory>
    ensures { OnOk result (out.new.items ≡ out.old.items ++ mode_text mode) }
{
    match mode {
        Mode::Free => push_bytes(out, b"free"),
        Mode::Barred => push_bytes(out, b"barred"),
    }
}

/// Puts the line of an operation.
pub(crate) fn push_op(
    out: &mut Vec<u8>,
    place: u64,
    word: u32,
    cluster: u32,
) -> Result<(), NoMemory>
    ensures { OnOk result (out.new.items ≡ out.old.items ++ op_line place word cluster) }
{
    push_field(out, b"op ", place)?;
    push_small(out, b" word ", word)?;
    push_small(out, b" cluster ", cluster)?;
    push_bytes(out, b"\n")
}

fn push_split(out: &mut Vec<u8>, split: &EdgeCopies) -> Result<(), NoMemory>
    ensures { OnOk result (out.new.items ≡ out.old.items ++ split_line split.now) }
{
    push_small(out, b"split ", split.split)?;
    push_numbers(out, b" copies", split.copies.as_slice())
}

/// Puts the lines of splits.
pub(crate) fn push_splits(out: &mut Vec<u8>, splits: &[EdgeCopies]) -> Result<(), NoMemory>
    ensures { OnOk result (out.new.items ≡ out.old.items ++ flat_map split_line splits.now) }
{
    for split in splits {
        push_split(out, split)?;
    }
    Ok(())
}

fn push_join(out: &mut Vec<u8>, rejoin: &Rejoin) -> Result<(), NoMemory>
    ensures { OnOk result (out.new.items ≡ out.old.items ++ join_line rejoin.now) }
{
    push_small(out, b"join ", rejoin.block)?;
    push_small(out, b" rejoin ", rejoin.word)?;
    push_numbers(out, b" copies", rejoin.copies.as_slice())
}

/// Puts the lines of joins.
pub(crate) fn push_joins(out: &mut Vec<u8>, rejoins: &[Rejoin]) -> Result<(), NoMemory>
    ensures { OnOk result (out.new.items ≡ out.old.items ++ flat_map join_line rejoins.now) }
{
    for rejoin in rejoins {
        push_join(out, rejoin)?;
    }
    Ok(())
}
