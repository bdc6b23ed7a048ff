// What is wrong with a text of words.

ghost use Rattle.std.specs.Prelude.{◌≡◌};
ghost use Rattle.vx_reader.specs.declared.fault.LineFault.TheVariants.{Memory};
ghost use Rattle.vx_reader.specs.declared.fault.WordsFault.TheVariants.{NoMemory as OutOfMemory};

use std::alloc::{AllocError, AllocFailed};
use thiserror::Error;
use vx_base::outcome::NoMemory;

/// Why a line was not taken.
#[derive(Clone, Copy, Debug)]
pub enum LineFault {
    /// The line is faulty: the number of its V code.
    Code(u32),
    /// Memory is wanted and not there.
    Memory,
}

impl From<NoMemory> for LineFault {
    ghost from_gives = { λ _ e. e ≡ Memory };

    fn from(_: NoMemory) -> LineFault {
        LineFault::Memory
    }
}

impl From<AllocError> for LineFault {
    ghost from_gives = { λ _ e. e ≡ Memory };

    fn from(_: AllocError) -> LineFault {
        LineFault::Memory
    }
}

impl<T: Drop> From<AllocFailed<T>> for LineFault {
    ghost from_gives = { λ _ e. e ≡ Memory };

    fn from(_: AllocFailed<T>) -> LineFault {
        LineFault::Memory
    }
}

/// Why a text is no program of words.
#[derive(Clone, Copy, PartialEq, Eq, Debug, Error)]
pub enum WordsFault {
    /// The first faulty line, from 1, with the number of its V code. Line 0 with V7 is the whole text.
    #[error("V{code} at line {line}")]
    Bad { code: u32, line: u32 },
    /// Memory is wanted and not there.
    #[error("no memory")]
    NoMemory,
}

impl From<NoMemory> for WordsFault {
    ghost from_gives = { λ _ e. e ≡ OutOfMemory };

    fn from(_: NoMemory) -> WordsFault {
        WordsFault::NoMemory
    }
}
