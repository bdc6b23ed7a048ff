// What stood before a line of a text of words: where in the text it is, and the program so far.

ghost use Rattle.std.specs.Prelude.{◌≡◌};
ghost use Rattle.vx_reader.specs.Steps.{beginning};

use std::alloc::Global;
use vx_base::listed::{Bytes, Listed};
use vx_isa::operation::Operation;
use vx_isa::program::Word;

/// What stood last.
#[derive(Clone, Copy)]
pub enum Stage {
    /// Nothing.
    Start,
    /// The line with the version.
    Version,
    /// The size of the memory, or a word of it.
    Memory,
    /// A text.
    Texts,
    /// The end of a word.
    WordEnd,
    /// The label of a word.
    Label,
    /// An operation of a word.
    Operations,
    /// The empty time of a word.
    Idle,
}

/// What stood before a line.
#[derive(Drop)]
pub struct Before {
    pub stage: Stage,
    /// The version of the text, once its line stood.
    pub version: u32,
    /// The bytes of the memory.
    pub memory: u32,
    /// The words of the memory that do not start as 0.
    pub start: Listed<(u32, i32)>,
    /// The least address that a further one of them may have.
    pub least: u32,
    pub texts: Listed<Bytes>,
    /// The words that have ended.
    pub words: Listed<Word>,
    /// The operations so far of the word that has not ended.
    pub ops: Listed<Operation>,
    /// Its empty time.
    pub idle: u32,
}

impl Before {
    /// What stands before the first line: nothing.
    pub fn beginning(alloc: Global) -> Before
        ensures { result ≡ beginning }
    {
        Before {
            stage: Stage::Start,
            version: 0,
            memory: 0,
            start: Listed::new(alloc),
            least: 0,
            texts: Listed::new(alloc),
            words: Listed::new(alloc),
            ops: Listed::new(alloc),
            idle: 0,
        }
    }
}
