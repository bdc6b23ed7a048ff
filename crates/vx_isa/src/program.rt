// Words and programs of words.

use crate::operation::Operation;
use vx_base::listed::{Bytes, Listed};

/// A word: the operations that are issued in one cycle, or a number of empty cycles.
#[derive(Drop)]
pub struct Word {
    /// The operations, in the order of the list.
    pub ops: Listed<Operation>,
    /// 0, or the number n of a word `xnop n`, which takes n cycles and has no operation.
    pub idle: u32,
}

/// A program of words. It starts at word 0.
#[derive(Drop)]
pub struct WordProgram {
    /// The version of the word text: 1, whose words have at most one branch each on every machine, or 2, whose words have at
    /// most as many as the machine.
    pub version: u32,
    /// The bytes of the memory.
    pub memory: u32,
    /// The words of the memory that do not start as 0: address and number, addresses ascending.
    pub start: Listed<(u32, i32)>,
    /// The texts that can be printed.
    pub texts: Listed<Bytes>,
    /// The words, by place.
    pub words: Listed<Word>,
}
