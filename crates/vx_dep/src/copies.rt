// What a placement owes at the edges of its trace.

ghost use Rattle.std.specs.Prelude.{◌≡◌};
ghost use Rattle.vx_dep.specs.Compensation.{word_at};

use vx_base::listed::Listed;
use vx_flow::graph::{BlockId, Edge};

/// The operations that are copied onto the edge by which a split leaves its trace.
#[derive(Drop)]
pub struct EdgeCopies {
    /// The place of the split in the clustered trace.
    pub split: u32,
    /// The edge.
    pub edge: Edge,
    /// The places of the operations, ascending.
    pub copies: Listed<u32>,
    /// The empty cycles with which the edge begins.
    pub drain: u32,
}

/// Where a joining edge enters the words of its trace, and what is copied onto it.
#[derive(Drop)]
pub struct Rejoin {
    /// The block of the join.
    pub block: BlockId,
    /// The word at which the edge enters.
    pub word: u32,
    /// The places of the operations, ascending.
    pub copies: Listed<u32>,
}

/// The word of the operation at a place; 0 where none stands there.
pub fn word_at(words: &[u32], place: u32) -> u32
    ensures { result ≡ word_at words.now place }
{
    match words.get(place as usize) {
        Some(word) => *word,
        None => 0,
    }
}
