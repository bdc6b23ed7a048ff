// What is wrong with the text of a profile.

ghost use Rattle.std.specs.Prelude.{◌≡◌};
ghost use Rattle.vx_profile.specs.declared.fault.ProfileFault.TheVariants.{NoMemory as OutOfMemory};

use thiserror::Error;
use vx_base::outcome::NoMemory;

/// Why a text is no profile. The first bad line is named, from 1.
#[derive(Clone, Copy, PartialEq, Eq, Debug, Error)]
pub enum ProfileFault {
    /// The line is outside the grammar.
    #[error("P1 at line {0}")]
    BadLine(usize),
    /// The count of the line is over 2^64 - 1, and nothing else is wrong with it.
    #[error("P2 at line {0}")]
    CountTooLarge(usize),
    /// Memory is wanted and not there.
    #[error("no memory")]
    NoMemory,
}

impl From<NoMemory> for ProfileFault {
    ghost from_gives = { λ _ e. e ≡ OutOfMemory };

    fn from(_: NoMemory) -> ProfileFault {
        ProfileFault::NoMemory
    }
}
