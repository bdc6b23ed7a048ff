// The machines of the tests. A description gives the numbers of a machine, and each of them is tested: so the clause of `machine`
// has the numbers, and no text is read in a proof.

ghost use Rattle.std.specs.Prelude.{◌≡◌, IfOk};
ghost use Rattle.vx_test_machines.specs.Kinds.{has_counts, has_latencies, is_machine_of, narrow_with, two_branches, numbers_of};

use std::alloc::Global;
use vx_base::outcome::NoMemory;
use vx_machine::{Machine, from_toml};

/// A machine of a test.
#[derive(Clone, Copy)]
pub enum Kind {
    /// The default one, with one cluster.
    Vex,
    /// One cluster that issues one operation a word.
    Narrow,
    /// Two of them.
    TwoNarrow,
    /// The default one, with one cluster and two branches a word.
    TwoBranches,
}

/// The machine of this kind.
pub fn machine(alloc: Global, kind: Kind) -> Result<Machine, NoMemory>
    ensures { IfOk result (λ m. m ≡ numbers_of kind) }
{
    match kind {
        Kind::Vex => Ok(Machine::vex(1)),
        Kind::Narrow => narrow(alloc, 1, NARROW),
        Kind::TwoNarrow => narrow(alloc, 2, TWO_NARROW),
        Kind::TwoBranches => two_branches(alloc),
    }
}

/// The narrow machine with so many clusters, from its description. One that gave another machine would be answered as want of
/// memory; none here does.
#[tactic(auto, using(crate::proofs::SameMachine::same_machine))]
fn narrow(alloc: Global, clusters: u32, description: &[u8]) -> Result<Machine, NoMemory>
    ensures { IfOk result (λ m. m ≡ narrow_with clusters) }
{
    match from_toml(alloc, description) {
        Ok(machine) => {
            if is_narrow(&machine, clusters) {
                Ok(machine)
            } else {
                Err(NoMemory)
            }
        }
        Err(_) => Err(NoMemory),
    }
}

/// The default machine with one cluster and two branches a word, from its description.
#[tactic(auto, using(crate::proofs::SameMachine::same_machine))]
fn two_branches(alloc: Global) -> Result<Machine, NoMemory>
    ensures { IfOk result (λ m. m ≡ two_branches) }
{
    match from_toml(alloc, TWO_BRANCHES) {
        Ok(machine) => {
            if has_two_branches(&machine) {
                Ok(machine)
            } else {
                Err(NoMemory)
            }
        }
        Err(_) => Err(NoMemory),
    }
}

fn is_narrow(machine: &Machine, clusters: u32) -> bool
    ensures { result ≡ is_machine_of (narrow_with clusters) machine.now }
{
    has_narrow_counts(machine, clusters) && has_latencies(machine) && machine.branches() == 1
}

fn has_two_branches(machine: &Machine) -> bool
    ensures { result ≡ is_machine_of two_branches machine.now }
{
    has_default_counts(machine) && has_latencies(machine) && machine.branches() == 2
}

fn has_narrow_counts(machine: &Machine, clusters: u32) -> bool
    ensures { result ≡ has_counts (narrow_with clusters) machine.now }
{
    machine.clusters() == clusters
        && machine.issue() == 1
        && machine.alus() == 1
        && machine.multipliers() == 1
        && machine.memory_units() == 1
        && machine.registers() == 16
        && machine.branch_registers() == 2
        && machine.read_ports() == 2
        && machine.write_ports() == 1
        && machine.copy_paths() == 1
}

fn has_default_counts(machine: &Machine) -> bool
    ensures { result ≡ has_counts two_branches machine.now }
{
    machine.clusters() == 1
        && machine.issue() == 4
        && machine.alus() == 4
        && machine.multipliers() == 2
        && machine.memory_units() == 1
        && machine.registers() == 64
        && machine.branch_registers() == 8
        && machine.read_ports() == 8
        && machine.write_ports() == 4
        && machine.copy_paths() == 2
}

/// The latencies of the default machine are those of the narrow one.
fn has_latencies(machine: &Machine) -> bool
    ensures { result ≡ has_latencies two_branches machine.now }
{
    machine.latency_alu() == 1
        && machine.latency_compare() == 2
        && machine.latency_multiply() == 2
        && machine.latency_load() == 3
        && machine.latency_divide() == 8
        && machine.latency_copy() == 1
}

const NARROW: &[u8] = b"clusters = 1
issue = 1
alus = 1
multipliers = 1
memory_units = 1
registers = 16
branch_registers = 2
read_ports = 2
write_ports = 1
copy_paths = 1
latency_alu = 1
latency_compare = 2
latency_multiply = 2
latency_load = 3
latency_divide = 8
latency_copy = 1
";

const TWO_NARROW: &[u8] = b"clusters = 2
issue = 1
alus = 1
multipliers = 1
memory_units = 1
registers = 16
branch_registers = 2
read_ports = 2
write_ports = 1
copy_paths = 1
latency_alu = 1
latency_compare = 2
latency_multiply = 2
latency_load = 3
latency_divide = 8
latency_copy = 1
";

const TWO_BRANCHES: &[u8] = b"clusters = 1
issue = 4
alus = 4
multipliers = 2
memory_units = 1
registers = 64
branch_registers = 8
read_ports = 8
write_ports = 4
copy_paths = 2
latency_alu = 1
latency_compare = 2
latency_multiply = 2
latency_load = 3
latency_divide = 8
latency_copy = 1
branches = 2
";
