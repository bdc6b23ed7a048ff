// A file that is read whole: its bytes, or the status that says why there are none.

ghost use Rattle.std.specs.Prelude.{◌≡◌, ◌≤◌, ◌⊎◌, None, length, IfOk, IfErr, IfSome, MatchOption};
ghost use Rattle.vx_io.specs.Outside.{Rose};
ghost use Rattle.vx_io.specs.Reading.{ReadsFile};
ghost use Rattle.vx_io.specs.declared.whole_file.FileRead.TheVariants.{Whole, TooLong as FileTooLong};

use std::alloc::Global;
use vx_io::depot::{Depot, DepotFault};
use vx_io::role::Role;
use vx_io::whole_file::{FileRead, read_file};
use vx_status::Status;

/// Reads the file of a role, of at most so many bytes, whole. One that is too long is answered by the status that is given for it.
pub(crate) fn read_whole<D: Depot>(
    alloc: Global,
    depot: &mut D,
    name: &str,
    role: Role,
    most: u64,
    long: Status,
) -> Result<Vec<u8>, Status>
    ensures same_files { D.files depot.new ≡ D.files depot.old }
    ensures content { IfOk result (λ bytes. IfSome (D.files depot.old) (λ held. ReadsFile held name.now most (Whole bytes))) }
    ensures short { IfOk result (λ bytes. length bytes.items ≤ most) }
    ensures refused { IfErr result (λ status. (status ≡ Status.NoMemory) ⊎
        (((status ≡ Status.ReadFault role) × Rose (D.failed_reads depot.old) (D.failed_reads depot.new)) ⊎
        (((status ≡ Status.NoFile role) × MatchOption (D.files depot.old) (Rose (D.failed_reads depot.old) (D.failed_reads depot.new)) (λ held. held name.now ≡ None)) ⊎
        ((status ≡ long) × IfSome (D.files depot.old) (λ held. ReadsFile held name.now most FileTooLong))))) }
    ensures reads_never_fall { D.failed_reads depot.old ≤ D.failed_reads depot.new }
    ensures replaces_never_fall { D.failed_replaces depot.old ≤ D.failed_replaces depot.new }
{
    match read_file(alloc, depot, name, most) {
        Ok(FileRead::Whole(bytes)) => Ok(bytes),
        Ok(FileRead::TooLong) => Err(long),
        Err(DepotFault::Failed) => Err(Status::ReadFault(role)),
        Err(DepotFault::NoFile) => Err(Status::NoFile(role)),
        Err(DepotFault::NoMemory) => Err(Status::NoMemory),
    }
}
