// The graph of a function: blocks of operations on values, each block with one exit. What it does is defined in
// specs/Effects.antt and specs/Meaning.antt.
//
// Values, blocks and arrays of a function are numbered from 0. A value is a general value or a branch value, which is
// 0 or 1; its bank says which. The arrays of a function begin with the globals, in their order.

use vx_base::arithmetic::Code;
use vx_base::listed::{Bytes, Listed};
use vx_base::outcome::Trap;

/// The number of a value.
pub type Value = u32;

/// The number of a block. Block 0 is the entry.
pub type BlockId = u32;

/// The number of an array, as the function sees it.
pub type ArrayId = u32;

/// What an operation reads.
#[derive(Clone, Copy, PartialEq, Eq)]
pub enum Operand {
    /// What a general value holds.
    Held(Value),
    /// A number.
    Number(i32),
    /// The stack pointer. In a graph that is sound only the base of one of its own arrays is made from it.
    Stack,
}

/// The kind of a value.
#[derive(Clone, Copy, PartialEq, Eq)]
pub enum Bank {
    /// A number of 32 bits.
    General,
    /// The answer of a compare, 0 or 1.
    Branch,
}

/// An operation of a block.
#[derive(Clone, Copy)]
pub enum Op {
    /// Arithmetic and compares. What stands as the right operand of a move is not read.
    Compute {
        code: Code,
        to: Value,
        left: Operand,
        right: Operand,
    },
    /// The left operand where the test is 1, else the right one.
    Select {
        to: Value,
        test: Value,
        left: Operand,
        right: Operand,
    },
    /// The place in bytes of an element of an array: four times its index.
    Place {
        to: Value,
        array: ArrayId,
        index: Operand,
    },
    /// Where an array of the function stands, to hand it to a function that is called. In words it is made from `from`: the stack
    /// pointer for one of the function's own, 0 for a global.
    Base {
        to: Value,
        array: ArrayId,
        from: Operand,
    },
    /// The place in bytes of an element of an array that was handed to the function, whose base this is: four times its index.
    PlaceIn {
        to: Value,
        array: ArrayId,
        base: Value,
        index: Operand,
    },
    /// The word at a place of an array. One that is dismissible may stand where the place is outside of the array.
    Load {
        to: Value,
        array: ArrayId,
        place: Operand,
        dismissible: bool,
    },
    /// Stores a number at a place of an array.
    Store {
        array: ArrayId,
        place: Operand,
        from: Operand,
    },
    /// 1 where the input has a number left, else 0.
    More {
        to: Value,
    },
    /// The next number of the input.
    Input {
        to: Value,
    },
    /// Prints a text of the program.
    Text {
        number: u32,
    },
    /// Prints a number in signed decimal.
    Decimal {
        from: Operand,
    },
    /// A general value from another cluster. No graph that is sound has one.
    Across {
        to: Value,
        from: Value,
    },
}

/// How a block ends.
#[derive(Drop)]
pub enum Exit {
    /// On to a block.
    Goto(BlockId),
    /// On to one block where the test is 1, else to another.
    Split {
        test: Value,
        yes: BlockId,
        no: BlockId,
    },
    /// A call of a function of the program, and then on to a block of this one.
    Call {
        function: u32,
        arguments: Listed<Operand>,
        result: Option<Value>,
        next: BlockId,
    },
    /// Back to the caller with a result.
    Return(Operand),
    /// The end of the program by a trap.
    Ends(Trap),
}

/// A block: its operations, one after the other, and its exit.
#[derive(Drop)]
pub struct Block {
    pub ops: Listed<Op>,
    pub exit: Exit,
}

/// An array, as a function sees it.
#[derive(Clone, Copy)]
pub struct Array {
    /// Its words.
    pub words: u32,
    /// Whether it is a global of the program. The others are the function's own, or are handed to it.
    pub global: bool,
    /// The number by which it is told apart from the other arrays of the function.
    pub named: u32,
    /// The value that holds where it stands, if it is one that is handed to the function: a parameter. It has no words of its own
    /// then.
    pub base: Option<Value>,
}

/// The graph of a function.
#[derive(Drop)]
pub struct Graph {
    /// The blocks by number.
    pub blocks: Listed<Block>,
    /// The bank of each value.
    pub banks: Listed<Bank>,
    /// The values that hold the arguments at the entry.
    pub parameters: Listed<Value>,
    /// The arrays: the globals, then the function's own and those that are handed to it.
    pub arrays: Listed<Array>,
}

/// A global variable.
#[derive(Clone, Copy)]
pub struct Global {
    /// Its words.
    pub words: u32,
    /// The number at which its first word starts. The others start as 0.
    pub first: i32,
}

/// The graphs of a program.
#[derive(Drop)]
pub struct Flow {
    /// The functions by number.
    pub functions: Listed<Graph>,
    /// The global variables.
    pub globals: Listed<Global>,
    /// The texts that can be printed.
    pub texts: Listed<Bytes>,
    /// The number of the function that is active first.
    pub main: u32,
}

/// An edge from a block to a block.
#[derive(Clone, Copy, PartialEq, Eq)]
pub struct Edge {
    pub from: BlockId,
    pub to: BlockId,
}
