// The profile of a command: the counts of a text that is read whole and through.

ghost use Rattle.std.specs.Prelude.{◌≡◌, ◌≢◌, ◌⊎◌, ◌^◌, ◌<◌, ◌≤◌, true, length, option_map, is_some, IfOk, IfErr, IfSome, Some};
ghost use Rattle.vx_profile.specs.Text.{FaultAt, Spells};
ghost use Rattle.vx_profile.specs.declared.fault.ProfileFault.TheVariants.{NoMemory as OutOfMemory};
ghost use Rattle.vx_files.specs.Effects.{effect_of, ProfileAnswers};
ghost use Rattle.vx_files.specs.Held.{status_of_profile, BadProfile, HoldsCounts, AreCounts};

use crate::whole::read_whole;
use std::alloc::Global;
use vx_io::depot::Depot;
use vx_io::role::Role;
use vx_profile::counts::Counts;
use vx_profile::{ProfileFault, read_counts};
use vx_status::Status;

/// The most bytes of a profile.
pub const MOST_PROFILE_BYTES: u64 = 16777216;

/// What a profile that is too long is answered.
const LONG_PROFILE: Status = Status::Limit {
    number: 10,
    count: MOST_PROFILE_BYTES + 1,
};

/// The number of a line in a status.
fn line_of(line: usize) -> u32
    requires { line < 2 ^ 32 }
    ensures { result ≡ line }
{
    line as u32
}

/// The status of a fault of so many bytes, which have fewer than 2^32 lines.
fn status_of(bytes: &[u8], fault: ProfileFault) -> Status
    requires short { length bytes.now ≤ 16777216 }
    requires first_bad { fault ≢ OutOfMemory → FaultAt bytes.now fault }
    ensures { result ≡ status_of_profile fault }
{
    match fault {
        ProfileFault::BadLine(line) => Status::Profile {
            code: 1,
            line: line_of(line),
        },
        ProfileFault::CountTooLarge(line) => Status::Profile {
            code: 2,
            line: line_of(line),
        },
        ProfileFault::NoMemory => Status::NoMemory,
    }
}

/// The counts of a profile, or the status of its first bad line.
fn counts_in(alloc: Global, bytes: &[u8]) -> Result<Counts, Status>
    requires { length bytes.now ≤ 16777216 }
    ensures spelled { IfOk result (λ counts. Spells bytes.now counts) }
    ensures refused { IfErr result (λ status. (status ≡ Status.NoMemory) ⊎ BadProfile bytes.now status) }
{
    match read_counts(alloc, bytes) {
        Ok(counts) => Ok(counts),
        Err(fault) => Err(status_of(bytes, fault)),
    }
}

/// Reads the file of the profile, whole and through.
fn read_profile<D: Depot>(alloc: Global, depot: &mut D, name: &str) -> Result<Counts, Status>
    ensures same_files { D.files depot.new ≡ D.files depot.old }
    ensures counts { IfOk result (λ counts. IfSome (D.files depot.old) (λ held. HoldsCounts held name.now counts)) }
    ensures answers { IfErr result (ProfileAnswers (Some name.now) (effect_of D.files D.failed_reads D.failed_replaces depot.old depot.new)) }
    ensures reads_never_fall { D.failed_reads depot.old ≤ D.failed_reads depot.new }
    ensures replaces_never_fall { D.failed_replaces depot.old ≤ D.failed_replaces depot.new }
{
    match read_whole(
        alloc,
        depot,
        name,
        Role::Profile,
        MOST_PROFILE_BYTES,
        LONG_PROFILE,
    ) {
        Ok(bytes) => counts_in(alloc, bytes.as_slice()),
        Err(status) => Err(status),
    }
}

/// The counts of the profile that the command names; where it names none, nothing was passed.
pub fn counts_for<D: Depot>(
    alloc: Global,
    depot: &mut D,
    name: Option<&str>,
) -> Result<Counts, Status>
    ensures same_files { D.files depot.new ≡ D.files depot.old }
    ensures counts { IfOk result (λ counts. IfSome (D.files depot.old) (λ held. AreCounts held (option_map (λ s. s.now) name.entry) counts)) }
    ensures named { IfErr result (λ _. is_some name.entry ≡ true) }
    ensures answers { IfErr result (ProfileAnswers (option_map (λ s. s.now) name.entry) (effect_of D.files D.failed_reads D.failed_replaces depot.old depot.new)) }
    ensures reads_never_fall { D.failed_reads depot.old ≤ D.failed_reads depot.new }
    ensures replaces_never_fall { D.failed_replaces depot.old ≤ D.failed_replaces depot.new }
{
    match name {
        Some(name) => read_profile(alloc, depot, name),
        None => Ok(Counts::new(alloc)),
    }
}
