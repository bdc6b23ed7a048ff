// Why the program ends before it is through.

use std::alloc::{AllocError, AllocFailed};
use vx_base::outcome::NoMemory;
use vx_io::depot::DepotFault;
use vx_io::sink::SinkFault;

/// Why the program cannot go on.
#[derive(Clone, Copy, PartialEq, Eq)]
pub enum Halt {
    /// Memory is wanted and not there.
    NoMemory,
    /// The output cannot be written.
    Output,
}

impl From<AllocError> for Halt {
    fn from(_: AllocError) -> Halt {
        Halt::NoMemory
    }
}

impl<T: Drop> From<AllocFailed<T>> for Halt {
    fn from(_: AllocFailed<T>) -> Halt {
        Halt::NoMemory
    }
}

impl From<NoMemory> for Halt {
    fn from(_: NoMemory) -> Halt {
        Halt::NoMemory
    }
}

/// A depot in memory of which no call is to fail fails by memory alone.
impl From<DepotFault> for Halt {
    fn from(_: DepotFault) -> Halt {
        Halt::NoMemory
    }
}

impl From<SinkFault> for Halt {
    fn from(_: SinkFault) -> Halt {
        Halt::Output
    }
}
