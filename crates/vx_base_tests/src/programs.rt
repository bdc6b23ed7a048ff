// Programs of words, written as constants.

ghost use Rattle.std.specs.Prelude.{◌≡◌, IfOk, map};
ghost use Rattle.vx_base_tests.specs.Programs.{word_of, program_of};

use std::alloc::Global;
use vx_base::listed::{Bytes, Listed, copied};
use vx_base::outcome::NoMemory;
use vx_isa::operation::Operation;
use vx_isa::program::{Word, WordProgram};

/// The word of these operations.
pub fn word(alloc: Global, ops: &[Operation]) -> Result<Word, NoMemory>
    ensures { IfOk result (λ word. word ≡ word_of ops.now) }
{
    let list = copied(alloc, ops)?;
    Ok(Word { ops: list, idle: 0 })
}

fn words(alloc: Global, words: &[&[Operation]]) -> Result<Listed<Word>, NoMemory>
    ensures { IfOk result (λ list. list ≡ map word_of (map (λ ops. ops.now) words.now)) }
{
    let mut list = Listed::new(alloc);
    for ops in words {
        list.push(word(alloc, ops)?)?;
    }
    Ok(list)
}

/// A program of version 1 of these words, with 8 bytes of memory, of which the second word starts as 7, and a line feed as its text.
pub fn program(alloc: Global, all: &[&[Operation]]) -> Result<WordProgram, NoMemory>
    ensures { IfOk result (λ program. program ≡ program_of (map (λ ops. ops.now) all.now)) }
{
    let start = copied(alloc, &[(4, 7)])?;
    let line: Bytes = copied(alloc, b"\n")?;
    let mut texts = Listed::new(alloc);
    texts.push(line)?;
    let words = words(alloc, all)?;
    Ok(WordProgram {
        version: 1,
        memory: 8,
        start,
        texts,
        words,
    })
}
