// Files by name: the trait of what the compiler reads and replaces. A depot may fail; it counts the reads and the
// replacings that failed.
ghost use Rattle.std.specs.Prelude.{◌≡◌, ◌≢◌, ◌<◌, ◌≤◌, ℕ, Option, None, length, IfOk, OnOk, IsErrOf, IfSome, MatchOption};
ghost use Rattle.vx_io.specs.declared.depot.DepotFault.TheVariants.{NoMemory};
ghost use Rattle.vx_io.specs.Outside.{Rose, Files, with_file, ReadsAt, ReplacesPartly};

use std::alloc::{AllocError, AllocFailed};
use thiserror::Error;

/// Why a depot answers no bytes or takes none.
#[derive(Clone, Copy, PartialEq, Eq, Debug, Error)]
pub enum DepotFault {
    /// The depot failed.
    #[error("the file cannot be read or written")]
    Failed,
    /// No file has this name.
    #[error("there is no such file")]
    NoFile,
    /// Memory is wanted and not there.
    #[error("no memory")]
    NoMemory,
}

impl From<AllocError> for DepotFault {
    ghost from_gives = { λ _ fault. fault ≡ NoMemory };

    fn from(_: AllocError) -> DepotFault {
        DepotFault::NoMemory
    }
}

impl<T: Drop> From<AllocFailed<T>> for DepotFault {
    ghost from_gives = { λ _ fault. fault ≡ NoMemory };

    fn from(_: AllocFailed<T>) -> DepotFault {
        DepotFault::NoMemory
    }
}

/// Files by name.
pub trait Depot {
    /// What each name holds, where the depot tells its files.
    ghost files: { Self → Option Files };

    /// How many reads failed. It stays at the greatest `u64`.
    ghost failed_reads: { Self → ℕ };

    /// How many replacings failed. It stays at the greatest `u64`.
    ghost failed_replaces: { Self → ℕ };

    /// Reads bytes of a file, from a place in bytes on, into the front of a buffer, and answers how many.
    fn read_at(&mut self, name: &str, place: u64, into: &mut [u8]) -> Result<usize, DepotFault>
        ensures same_files { files self.new ≡ files self.old }
        ensures at_most_room { IfOk result (λ count. count ≤ length into.old) }

        // Of a depot that tells its files, what is read is known.
        ensures bytes { IfOk result (λ count. IfSome (files self.old) (λ held. ReadsAt held name.now place count into.new)) }

        // A failure is counted. A missing file is one only where the depot does not tell its files.
        ensures failed { IsErrOf result DepotFault.Failed → Rose (failed_reads self.old) (failed_reads self.new) }
        ensures no_file { IsErrOf result DepotFault.NoFile → MatchOption (files self.old) (Rose (failed_reads self.old) (failed_reads self.new)) (λ held. held name.now ≡ None) }
        ensures reads_never_fall { failed_reads self.old ≤ failed_reads self.new }
        ensures replaces_never_fall { failed_replaces self.old ≤ failed_replaces self.new };

    /// Makes a file of these bytes, in place of the one that had the name.
    fn replace(&mut self, name: &str, bytes: &[u8]) -> Result<(), DepotFault>
        ensures replaced { OnOk result (files self.new ≡ with_file (files self.old) name.now bytes.now) }

        // A failure may leave a front of the bytes under the name, and is counted.
        ensures partly { IsErrOf result DepotFault.Failed → ReplacesPartly (files self.old) (files self.new) name.now bytes.now }
        ensures failed { IsErrOf result DepotFault.Failed → Rose (failed_replaces self.old) (failed_replaces self.new) }
        ensures no_memory { IsErrOf result DepotFault.NoMemory → files self.new ≡ files self.old }
        ensures no_missing_file { result ≢ Err DepotFault.NoFile }
        ensures reads_never_fall { failed_reads self.old ≤ failed_reads self.new }
        ensures replaces_never_fall { failed_replaces self.old ≤ failed_replaces self.new };
}
