// The machine of a command: the numbers of a description that is read whole and through, or the default ones.

ghost use Rattle.std.specs.Prelude.{◌≡◌, ◌≤◌, Some, Ok, true, is_some, option_map, IfOk, IfErr, IfSome};
ghost use Rattle.vx_files.specs.Held.{DefaultUnless, RefusesDescription, machine_found, Is};
ghost use Rattle.vx_files.specs.Effects.{effect_of, MachineAnswers};
ghost use Rattle.vx_machine.specs.Descriptions.{reading};

use crate::whole::read_whole;
use std::alloc::Global;
use vx_io::depot::Depot;
use vx_io::role::Role;
use vx_machine::{Machine, MachineFault, from_toml};
use vx_status::Status;

/// The most bytes of a description of a machine.
pub const MOST_DESCRIPTION_BYTES: u64 = 65536;

/// What a description that is too long is answered.
const LONG_DESCRIPTION: Status = Status::Limit {
    number: 11,
    count: MOST_DESCRIPTION_BYTES + 1,
};

/// The machine of a description, or the status of its fault.
fn machine_of(alloc: Global, bytes: &[u8]) -> Result<Machine, Status>
    ensures described { IfOk result (λ machine. reading bytes.now ≡ Ok machine) }
    ensures refused { IfErr result (λ status. RefusesDescription bytes.now status) }
{
    match from_toml(alloc, bytes) {
        Ok(machine) => Ok(machine),
        Err(MachineFault::Bad { code, field }) => Err(Status::Machine { code, field }),
        Err(MachineFault::NoMemory) => Err(Status::NoMemory),
    }
}

/// Reads the description of a machine, whole.
fn read_machine<D: Depot>(alloc: Global, depot: &mut D, name: &str) -> Result<Machine, Status>
    ensures same_files { D.files depot.new ≡ D.files depot.old }
    ensures machine { IfOk result (λ machine. IfSome (D.files depot.old) (λ held. machine_found held (Some name.now) ≡ Is machine)) }
    ensures answers { IfErr result (MachineAnswers (Some name.now) (effect_of D.files D.failed_reads D.failed_replaces depot.old depot.new)) }
    ensures reads_never_fall { D.failed_reads depot.old ≤ D.failed_reads depot.new }
    ensures replaces_never_fall { D.failed_replaces depot.old ≤ D.failed_replaces depot.new }
{
    match read_whole(
        alloc,
        depot,
        name,
        Role::Machine,
        MOST_DESCRIPTION_BYTES,
        LONG_DESCRIPTION,
    ) {
        Ok(bytes) => machine_of(alloc, bytes.as_slice()),
        Err(status) => Err(status),
    }
}

/// The machine that the command names a description of, or the default one.
pub fn machine_for<D: Depot>(
    alloc: Global,
    depot: &mut D,
    name: Option<&str>,
) -> Result<Machine, Status>
    ensures same_files { D.files depot.new ≡ D.files depot.old }
    ensures machine { IfOk result (λ machine. IfSome (D.files depot.old) (λ held. machine_found held (option_map (λ s. s.now) name.entry) ≡ Is machine)) }
    ensures default_machine { IfOk result (λ machine. DefaultUnless (option_map (λ s. s.now) name.entry) machine) }
    ensures named { IfErr result (λ _. is_some name.entry ≡ true) }
    ensures answers { IfErr result (MachineAnswers (option_map (λ s. s.now) name.entry) (effect_of D.files D.failed_reads D.failed_replaces depot.old depot.new)) }
    ensures reads_never_fall { D.failed_reads depot.old ≤ D.failed_reads depot.new }
    ensures replaces_never_fall { D.failed_replaces depot.old ≤ D.failed_replaces depot.new }
{
    match name {
        Some(name) => read_machine(alloc, depot, name),
        None => Ok(Machine::vex(1)),
    }
}
