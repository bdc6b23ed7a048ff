// How graphs are written as constants. specs/Graphs.antt says which graph each of them is.

use vx_base::arithmetic::Code;
use vx_base::outcome::Trap;
use vx_flow::graph::{Array, Bank, Global, Op, Operand, Value};

/// An operation, of which the usual ones are written short.
#[derive(Clone, Copy)]
pub enum Act {
    /// The value that is written, and the operands, of which the left one is a value.
    On(Code, Value, Value, Operand),
    /// The value that is written, an array, and a place of it.
    Load(Value, u32, Operand),
    /// An array, a place of it, and what is stored.
    Store(u32, Operand, Operand),
    /// A value that is 1 where this test is 1, and what value 2 is where not.
    Select(Value, Value),
    /// Any operation.
    Plain(Op),
}

/// How a block is left.
#[derive(Clone, Copy)]
pub enum Way {
    /// The next block.
    Goto(u32),
    /// The test, and the blocks where it is 1 and where not.
    Split(Value, u32, u32),
    /// A function, at most two arguments, the value that takes the result, and the next block.
    Call(u32, Option<Operand>, Option<Operand>, Option<Value>, u32),
    /// What the function returns.
    Return(Operand),
    /// The trap that ends the program.
    Ends(Trap),
}

/// A block: its operations, and how it is left.
#[derive(Clone, Copy)]
pub struct Part<'a>(pub &'a [Act], pub Way);

/// A graph.
#[derive(Clone, Copy)]
pub struct Shape<'a> {
    /// The blocks by number.
    pub parts: &'a [Part<'a>],
    /// The bank of each value.
    pub banks: &'a [Bank],
    /// The values that hold the arguments at the entry.
    pub parameters: &'a [Value],
    /// The arrays.
    pub arrays: &'a [Array],
}

/// A program, of which text 0 is a line feed.
#[derive(Clone, Copy)]
pub struct Whole<'a> {
    /// The functions by number.
    pub functions: &'a [Shape<'a>],
    /// The global variables.
    pub globals: &'a [Global],
    /// The number of the function in which the program begins.
    pub main: u32,
}
