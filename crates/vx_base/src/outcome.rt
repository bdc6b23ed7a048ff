// The ways in which a program is ended before it returns, and the one refusal that every call that allocates has.

use std::alloc::{AllocError, AllocFailed};
use thiserror::Error;

/// Why a program is ended before `main` returns.
#[derive(Clone, Copy, PartialEq, Eq)]
pub enum Trap {
    /// A division or a remainder by 0.
    Divide,
    /// An index outside its array.
    Index,
    /// A number is read where none is left.
    Input,
    /// A call would make the 513th active function.
    Depth,
}

/// Why a word of a word program cannot be issued. The reasons are tested in this order.
#[derive(Clone, Copy, PartialEq, Eq)]
pub enum Reason {
    /// The place to be issued is not below the number of words.
    BadTarget,
    /// A register is a destination twice, an operand stands on a cluster that its operation may not use,
    /// or a register number is not below its file's size.
    BadWord,
    /// The word needs more than the machine has.
    Overfull,
    /// A plain load or a store whose address is no aligned word of the memory.
    BadAddress,
    /// A number is read where none is left.
    NoInputLeft,
}

/// Memory is wanted and not there. It is merged with no other answer.
#[derive(Clone, Copy, PartialEq, Eq, Debug, Error)]
#[error("no memory")]
pub struct NoMemory;

impl From<AllocError> for NoMemory {
    fn from(_: AllocError) -> NoMemory {
        NoMemory
    }
}

impl<T: Drop> From<AllocFailed<T>> for NoMemory {
    fn from(_: AllocFailed<T>) -> NoMemory {
        NoMemory
    }
}
