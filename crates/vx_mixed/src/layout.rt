// A function laid out as words, with values in place of registers. How a graph is laid out is defined in specs/Layout.antt.

use vx_base::listed::Listed;
use vx_base::outcome::Trap;
use vx_flow::graph::{Bank, Op, Operand, Value};
use vx_flow::trace::Homes;

/// What stands in a word of a region that is laid out.
#[derive(Clone, Copy)]
pub enum Laid {
    /// An operation, and the cluster on which it is done.
    Plain {
        op: Op,
        cluster: u32,
    },
    /// On to a place where the test has this answer.
    Split {
        test: Value,
        leaves_when: bool,
        place: u32,
    },
}

/// A word of a function that is laid out.
#[derive(Drop)]
pub enum VirtualWord {
    /// A word of a region, by the region's number and the word's in it.
    Planned {
        region: u32,
        word: u32,
        items: Listed<Laid>,
    },
    /// So many empty cycles.
    Drain(u32),
    /// On to a place.
    Transfer(u32),
    /// On to a place where the test is 1.
    Choice {
        test: Value,
        place: u32,
    },
    /// A call of a function of the program, and then on to the next word.
    Call {
        function: u32,
        arguments: Listed<Operand>,
        result: Option<Value>,
    },
    /// Back to the caller with a result.
    Return(Operand),
    /// The end of the program by a trap.
    Ends(Trap),
}

/// A function that is laid out.
#[derive(Drop)]
pub struct VWords {
    /// The bank of each value of the function's graph.
    pub banks: Listed<Bank>,
    /// The clusters on which values stand.
    pub homes: Homes,
    /// The words, the first at place 0.
    pub words: Listed<VirtualWord>,
    /// The place at which the function is entered.
    pub entry: u32,
    /// How many regions are laid out, with those that have no words.
    pub regions: u32,
}
