// The numbers of a machine as one list, in the order of the fields of a description.

ghost use Rattle.std.specs.Prelude.{◌≡◌};
ghost use Rattle.vx_base_tests.specs.Fields.{fields_of};

use vx_machine::Machine;

/// The counts of a machine, its latencies, and then its branches, in the order of their fields.
pub fn fields_of(machine: &Machine) -> [u32; 17]
    ensures { result ≡ fields_of machine.now }
{
    [
        machine.clusters(),
        machine.issue(),
        machine.alus(),
        machine.multipliers(),
        machine.memory_units(),
        machine.registers(),
        machine.branch_registers(),
        machine.read_ports(),
        machine.write_ports(),
        machine.copy_paths(),
        machine.latency_alu(),
        machine.latency_compare(),
        machine.latency_multiply(),
        machine.latency_load(),
        machine.latency_divide(),
        machine.latency_copy(),
        machine.branches(),
    ]
}
