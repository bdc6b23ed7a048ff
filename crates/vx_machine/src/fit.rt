// Whether a word fits a machine: slots, units and ports of each cluster, copy paths, control places and the one
// observable operation. The clause is `fits` of vx_isa, and `fits_law` says it for every cluster.

ghost use Rattle.std.specs.Prelude.{◌≡◌, ◌≤◌, ◌++◌, ◌&&◌, not, nat_lt, nat_le, true, length, count_by};
ghost use Rattle.std.specs.List.{list_all};
ghost use Rattle.vx_isa.specs.declared.operation.UnitKind.TheVariants.{Copies};
ghost use Rattle.vx_isa.specs.Operations.{cluster_of, list_of, reads_of, destination_of, is_control, is_lone, is_observable};
ghost use Rattle.vx_isa.specs.Fits.{is_of, takes_read_port, takes_write_port, fits_cluster, is_in_file, operands, destinations, stands_on, all_below, fits_control, fits};
ghost use Rattle.vx_machine.specs.Left.{fits_left, need_of};
ghost use Rattle.vx_machine.specs.Resources.{FitsWhereCovered};

use crate::Machine;
use crate::left::{Left, covers, less, limits};
use vx_isa::operation::{Operation, Register, UnitKind};
use vx_isa::program::Word;

/// Whether the word fits the machine. It takes no memory.
pub fn fits(machine: &Machine, word: &Word) -> bool
    ensures { result ≡ fits machine.now word.now.ops }
{
    let ops = word.ops.as_slice();
    machine.keeps_ranges();
    stands_on(machine, ops) && fits_clusters(machine, ops) && fits_whole(machine, ops)
}

/// A word fits exactly where the machine has of each resource what the operations take together, and the registers that they name, and
/// no control operation that stands alone is beside another.
#[tactic(auto, using(crate::proofs::Covered::fits_where_covered))]
pub fn fits_where_covered_law()
    ensures { FitsWhereCovered }
{}

/// Whether the whole word has its copy paths and control places, and at most one observable operation.
fn fits_whole(machine: &Machine, ops: &[Operation]) -> bool
    ensures { result ≡ (nat_le (count_by (is_of Copies) ops.now) machine.now.copy_paths && fits_control machine.now ops.now && nat_le (count_by is_observable ops.now) 1) }
{
    count_of(ops, UnitKind::Copies) <= machine.copy_paths() as usize
        && fits_control(machine, ops)
        && count_of_observable(ops) <= 1
}

/// Whether there are at most as many control operations as the machine has branches, and none that stands alone beside another.
fn fits_control(machine: &Machine, ops: &[Operation]) -> bool
    ensures { result ≡ fits_control machine.now ops.now }
{
    let control = count_of_control(ops);
    control <= machine.branches() as usize && (control <= 1 || none_is_lone(ops))
}

fn none_is_lone(ops: &[Operation]) -> bool
    ensures { result ≡ list_all (λ op. not (is_lone op)) ops.now }
{
    for op in ops {
        if op.is_lone() {
            return false;
        }
    }
    true
}

/// Whether each operation and each register stands on a cluster that the machine has, and each register's number
/// is below its file's size.
fn stands_on(machine: &Machine, ops: &[Operation]) -> bool
    ensures { result ≡ stands_on machine.now ops.now }
{
    has_clusters(machine, ops) && has_registers(machine, ops)
}

#[tactic(auto, using(vx_isa::proofs::FitsLaw::registers_pass))]
pub(crate) fn has_registers(machine: &Machine, ops: &[Operation]) -> bool
    ensures { result ≡ list_all (is_in_file machine.now) (operands ops.now ++ destinations ops.now) }
{
    has_operands(machine, ops) && has_destinations(machine, ops)
}

fn has_clusters(machine: &Machine, ops: &[Operation]) -> bool
    ensures { result ≡ list_all (λ op. nat_lt (cluster_of op) machine.now.clusters) ops.now }
{
    for op in ops {
        if op.cluster() >= machine.clusters() {
            return false;
        }
    }
    true
}

fn has_operands(machine: &Machine, ops: &[Operation]) -> bool
    ensures { result ≡ list_all (λ op. list_all (is_in_file machine.now) (reads_of op)) ops.now }
{
    for op in ops {
        if !has_reads(machine, op) {
            return false;
        }
    }
    true
}

fn has_destinations(machine: &Machine, ops: &[Operation]) -> bool
    ensures { result ≡ list_all (λ op. list_all (is_in_file machine.now) (list_of (destination_of op))) ops.now }
{
    for op in ops {
        if !has_named(machine, op.destination()) {
            return false;
        }
    }
    true
}

fn has_reads(machine: &Machine, op: &Operation) -> bool
    ensures { result ≡ list_all (is_in_file machine.now) (reads_of op.now) }
{
    let [first, second, third] = op.reads();
    has_named(machine, first) && has_named(machine, second) && has_named(machine, third)
}

fn has_named(machine: &Machine, named: Option<Register>) -> bool
    ensures { result ≡ list_all (is_in_file machine.now) (list_of named) }
{
    match named {
        Some(Register::General(r)) => {
            r.cluster < machine.clusters() && r.number < machine.registers()
        }
        Some(Register::Branch(r)) => {
            r.cluster < machine.clusters() && r.number < machine.branch_registers()
        }
        Some(Register::Link) => true,
        None => true,
    }
}

fn fits_clusters(machine: &Machine, ops: &[Operation]) -> bool
    ensures { result ≡ all_below machine.now.clusters (fits_cluster machine.now ops.now) }
{
    for cluster in 0..machine.clusters() {
        if !fits_cluster(machine, ops, cluster) {
            return false;
        }
    }
    true
}

fn fits_cluster(machine: &Machine, ops: &[Operation], cluster: u32) -> bool
    ensures { result ≡ fits_cluster machine.now ops.now cluster }
{
    fits_left(limits(machine), cluster, ops)
}

/// Whether the operations take no more of a cluster than is left.
fn fits_left(limits: Left, cluster: u32, ops: &[Operation]) -> bool
    ensures { result ≡ fits_left (need_of cluster) limits ops.now }
{
    let mut left = limits;
    for op in ops {
        let need = need_of(cluster, op);
        if !covers(left, need) {
            return false;
        }
        left = less(left, need);
    }
    true
}

/// What an operation takes of a cluster.
fn need_of(cluster: u32, op: &Operation) -> Left
    ensures { result ≡ need_of cluster op.now }
{
    let here = op.cluster() == cluster;
    Left {
        slots: u32::from(here),
        alus: u32::from(here && is_of(UnitKind::Alu, op)),
        multipliers: u32::from(here && is_of(UnitKind::Multiply, op)),
        memory_units: u32::from(here && is_of(UnitKind::Memory, op)),
        read_ports: reads_of_on(op, cluster),
        write_ports: writes_of_on(op, cluster),
    }
}

fn count_of(ops: &[Operation], unit: UnitKind) -> usize
    ensures { result ≡ count_by (is_of unit) ops.now }
{
    let mut count = 0;
    for op in ops {
        if is_of(unit, op) {
            count += 1;
        }
    }
    count
}

fn count_of_control(ops: &[Operation]) -> usize
    ensures { result ≡ count_by is_control ops.now }
{
    let mut count = 0;
    for op in ops {
        if op.is_control() {
            count += 1;
        }
    }
    count
}

fn count_of_observable(ops: &[Operation]) -> usize
    ensures { result ≡ count_by is_observable ops.now }
{
    let mut count = 0;
    for op in ops {
        if op.is_observable() {
            count += 1;
        }
    }
    count
}

fn is_of(unit: UnitKind, op: &Operation) -> bool
    ensures { result ≡ is_of unit op.now }
{
    op.unit() == unit
}

/// How many read ports of the cluster it takes. Register 0 takes none.
fn reads_of_on(op: &Operation, cluster: u32) -> u32
    ensures { result ≡ count_by (takes_read_port cluster) (reads_of op.now) }
{
    let [first, second, third] = op.reads();
    read_ports_of(first, cluster) + read_ports_of(second, cluster) + read_ports_of(third, cluster)
}

fn read_ports_of(named: Option<Register>, cluster: u32) -> u32
    ensures exact { result ≡ count_by (takes_read_port cluster) (list_of named) }
    ensures one { result ≤ 1 }
{
    match named {
        Some(r) => u32::from(r.cluster() == cluster && r.is_general() && !r.is_zero()),
        None => 0,
    }
}

/// How many write ports of the cluster it takes. Register 0 takes one as any other.
fn writes_of_on(op: &Operation, cluster: u32) -> u32
    ensures { result ≡ count_by (takes_write_port cluster) (list_of (destination_of op.now)) }
{
    match op.destination() {
        Some(r) => u32::from(r.cluster() == cluster && r.is_general()),
        None => 0,
    }
}
