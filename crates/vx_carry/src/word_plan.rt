// A planned word while it is carried, and what each of its operations stands on.

ghost use Rattle.std.specs.Prelude.{◌<◌, ◌^◌, length};

use vx_base::listed::Listed;
use vx_flow::graph::Value;
use vx_mixed::layout::Laid;

/// A planned word, and what is found once for it.
#[derive(Drop)]
pub struct Plan<'a> {
    /// The function.
    pub function: u32,
    /// The word's place in its layout.
    pub place: u32,
    /// The operations and splits of the word.
    pub items: &'a [Laid],
    /// The values that they read.
    pub reads: Listed<Value>,
    /// The values that they write.
    pub writes: Listed<Value>,
    /// Those of the values written that are in slots.
    pub left: Listed<Value>,
    /// How many cycles behind the word the last of these is in flight.
    pub pause: u32,
    ghost few_reads: { length reads < 2 ^ 31 },
    ghost few_writes: { length writes < 2 ^ 31 },
}

/// What an operation of a word stands on: the values that the word reads and writes, and the operation's cluster.
#[derive(Drop)]
pub(crate) struct Site<'a> {
    pub(crate) function: u32,
    pub(crate) reads: &'a [Value],
    pub(crate) writes: &'a [Value],
    pub(crate) cluster: u32,
    ghost few_reads: { length reads.now < 2 ^ 31 },
    ghost few_writes: { length writes.now < 2 ^ 31 },
}
