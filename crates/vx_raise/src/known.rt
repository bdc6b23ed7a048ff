// What is to be moved, and what is known to be live.

ghost use Rattle.std.specs.Prelude.{◌≡◌, ◌∷◌, []};
ghost use Rattle.vx_raise.specs.Lifting.{is_noted, known_at};

use vx_base::listed::Listed;
use vx_flow::graph::{BlockId, Value};
use vx_flow::live_rows::Live;

/// An operation that is to be raised: its block and its place there, and those of the same operation in the other block where it is
/// raised from both ways of a split at once. Else the other block is the first.
#[derive(Clone, Copy)]
pub struct Move {
    pub block: BlockId,
    pub place: u32,
    pub other: BlockId,
    pub other_place: u32,
}

impl Move {
    /// An operation of one block.
    pub(crate) fn single(block: BlockId, place: u32) -> Move {
        Move {
            block,
            place,
            other: block,
            other_place: place,
        }
    }
}

/// A value that may be live at the start of a block since an operation was raised from there.
#[derive(Clone, Copy)]
pub struct Noted {
    pub block: BlockId,
    pub value: Value,
}

/// What may be live in a graph in which operations were raised: what was live before, and what is noted besides.
#[derive(Drop)]
pub struct Known {
    pub live: Live,
    pub noted: Listed<Noted>,
}

impl Known {
    /// Whether the value may be live at the start of the block.
    pub fn at(&self, block: BlockId, value: Value) -> bool
        ensures { result ≡ known_at self.now.live self.now.noted block value }
    {
        is_noted(self.noted.as_slice(), block, value) || self.live.at(block, value)
    }
}

/// Whether the value is noted at the block.
fn is_noted(noted: &[Noted], block: BlockId, value: Value) -> bool
    ensures { result ≡ is_noted noted.now block value }
{
    match noted.split_first() {
        Some((first, rest)) => {
            (block == first.block && value == first.value) || is_noted(rest, block, value)
        }
        None => false,
    }
}
