// Reading a whole file of a depot, up to a bound on its length. The commands read their sources, words,
// profiles, descriptions and inputs by this call.
ghost use Rattle.std.specs.Prelude.{◌≡◌, ◌≤◌, None, IfOk, IfSome, IsErrOf, MatchOption};
ghost use Rattle.vx_io.specs.Outside.{Rose};
ghost use Rattle.vx_io.specs.Reading.{ReadsFile, HasAtMost};

use crate::depot::{Depot, DepotFault};
use std::alloc::Global;

/// How many bytes are read at a time.
const PIECE: usize = 4096;

/// A file that was read up to a bound on its length.
#[derive(Drop)]
pub enum FileRead {
    /// All its bytes, which are at most as many as the bound says.
    Whole(Vec<u8>),
    /// It has more bytes than the bound says.
    TooLong,
}

/// Reads a file of at most so many bytes, piece by piece, and leaves all files as they are. Where the depot does not
/// tell its files, the bytes are those that it gave until it gave none.
pub fn read_file<D: Depot>(
    alloc: Global,
    depot: &mut D,
    name: &str,
    most: u64,
) -> Result<FileRead, DepotFault>
    ensures same_files { D.files depot.new ≡ D.files depot.old }
    ensures content { IfOk result (λ read. IfSome (D.files depot.old) (λ held. ReadsFile held name.now most read)) }
    ensures at_most { IfOk result (λ read. HasAtMost most read) }

    // The faults are those of the depot's reads.
    ensures failed { IsErrOf result DepotFault.Failed → Rose (D.failed_reads depot.old) (D.failed_reads depot.new) }
    ensures no_file { IsErrOf result DepotFault.NoFile → MatchOption (D.files depot.old) (Rose (D.failed_reads depot.old) (D.failed_reads depot.new)) (λ held. held name.now ≡ None) }
    ensures reads_never_fall { D.failed_reads depot.old ≤ D.failed_reads depot.new }
    ensures replaces_never_fall { D.failed_replaces depot.old ≤ D.failed_replaces depot.new }
{
    let mut content = Vec::new(alloc);
    let mut piece = [0u8; PIECE];
    'pieces: loop {
        let count = depot.read_at(name, content.len() as u64, &mut piece)?;
        if count == 0 {
            return Ok(FileRead::Whole(content));
        }
        if (content.len() + count) as u64 > most {
            return Ok(FileRead::TooLong);
        }
        content.extend_from_slice(&piece[..count])?;
    }
}
