// Why a source is refused.

ghost use Rattle.std.specs.Prelude.{◌≡◌};
ghost use Rattle.vx_ast.specs.declared.fault.SourceFault.TheVariants.{NoMemory};

use std::alloc::{AllocError, AllocFailed};
use thiserror::Error;

/// Why a source is refused.
#[derive(Clone, Copy, PartialEq, Eq, Debug, Error)]
pub enum SourceFault {
    /// The source has the fault S`code` at this line and column, both from 1, the column counted in bytes.
    #[error("S{code} at {line}:{column}")]
    Bad { code: u32, line: u32, column: u32 },
    /// The source is over the limit L`number`. `count` is the count that was found.
    #[error("over limit L{number}: {count}")]
    Limit { number: u32, count: u64 },
    /// Memory is wanted and not there.
    #[error("no memory")]
    NoMemory,
}

impl From<AllocError> for SourceFault {
    ghost from_gives = { λ _ fault. fault ≡ NoMemory };

    fn from(_: AllocError) -> SourceFault {
        SourceFault::NoMemory
    }
}

impl<T: Drop> From<AllocFailed<T>> for SourceFault {
    ghost from_gives = { λ _ fault. fault ≡ NoMemory };

    fn from(_: AllocFailed<T>) -> SourceFault {
        SourceFault::NoMemory
    }
}

impl From<vx_base::outcome::NoMemory> for SourceFault {
    ghost from_gives = { λ _ fault. fault ≡ NoMemory };

    fn from(_: vx_base::outcome::NoMemory) -> SourceFault {
        SourceFault::NoMemory
    }
}
