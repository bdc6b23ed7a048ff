// Why the reading of tokens stops.

use std::alloc::{AllocError, AllocFailed};

/// Why the reading of tokens stops.
#[derive(Clone, Copy)]
pub enum Stop {
    /// The grammar has no program that goes on with the token that has so many tokens before it.
    Unexpected(usize),
    /// A construct stands in 200 others.
    TooDeep,
    /// Memory is wanted and not there.
    NoMemory,
}

impl From<AllocError> for Stop {
    ghost use Rattle.std.specs.Prelude.{◌≡◌};
    ghost use Rattle.vx_parse.specs.declared.stop.Stop.TheVariants.{NoMemory};

    ghost from_gives = { λ _ stop. stop ≡ NoMemory };

    fn from(_: AllocError) -> Stop {
        Stop::NoMemory
    }
}

impl<T: Drop> From<AllocFailed<T>> for Stop {
    ghost use Rattle.std.specs.Prelude.{◌≡◌};
    ghost use Rattle.vx_parse.specs.declared.stop.Stop.TheVariants.{NoMemory};

    ghost from_gives = { λ _ stop. stop ≡ NoMemory };

    fn from(_: AllocFailed<T>) -> Stop {
        Stop::NoMemory
    }
}
