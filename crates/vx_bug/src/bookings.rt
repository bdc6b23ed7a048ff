// Bookings: which operations have a cluster, with the issue slots and units that they take there, and the first cycle in
// which a slot and a unit are left. specs/Ledgers.antt says the same.

ghost use Rattle.std.specs.Prelude.{◌≡◌, IfOk, length, reverse, nat_lt, count_by};
ghost use Rattle.vx_bug.specs.Booked.{row_at};
ghost use Rattle.vx_bug.specs.Clusters.{counts_at, is_free, first_free};
ghost use Rattle.vx_bug.specs.Ledgers.{takes, is_left};

use crate::booked::{Booked, row_at, rows_from};
use vx_base::listed::Listed;
use vx_base::outcome::NoMemory;
use vx_isa::operation::UnitKind;
use vx_machine::Machine;

/// An operation that has its cluster.
#[derive(Clone, Copy)]
pub struct Booking {
    /// Its place in the trace.
    pub place: u32,
    /// The cluster.
    pub cluster: u32,
    /// The unit that it takes there.
    pub unit: UnitKind,
    /// The cycle in which it takes it.
    pub cycle: u32,
    /// The cycle at which its result is expected.
    pub estimate: u32,
}

/// What an operation takes in its cycle.
#[derive(Clone, Copy)]
pub enum Resource {
    /// An issue slot of its cluster.
    IssueSlot,
    /// A unit of a kind.
    UnitOf(UnitKind),
}

/// The first cycle from one on in which an issue slot of the cluster and a unit are not booked. A cycle past `u64` is want
/// of memory.
#[tactic(auto, using(crate::proofs::ByCycle::first_open_free))]
pub(crate) fn free_cycle(
    machine: &Machine,
    booked: &Booked,
    cluster: u32,
    unit: UnitKind,
    from: u64,
) -> Result<u64, NoMemory>
    ensures { IfOk result (λ cycle. cycle ≡ first_free (length (reverse booked.now.bookings.items)) (is_free machine.now (reverse booked.now.bookings.items) cluster unit) from) }
{
    let rows = rows_from(booked.rows.as_slice(), from);
    let wait = first_open(machine, rows, booked.bookings.len(), cluster, unit);
    match from.checked_add(wait as u64) {
        Some(cycle) => Ok(cycle),
        None => Err(NoMemory),
    }
}

/// How many cycles behind the first one a slot and a unit are left, at most so many.
#[tactic(auto, using(crate::proofs::ByCycle::first_passed, crate::proofs::ByCycle::first_found, crate::proofs::ByCycle::first_last))]
fn first_open(
    machine: &Machine,
    rows: &[Listed<Booking>],
    most: usize,
    cluster: u32,
    unit: UnitKind,
) -> usize
    ensures { result ≡ first_free most (λ wait. is_left machine.now cluster unit (row_at rows.now wait)) 0 }
{
    let mut wait = 0;
    'wait: while wait < most {
        if are_left(machine, cluster, unit, row_at(rows, wait)) {
            return wait;
        }
        wait += 1;
    }
    wait
}

/// Whether the bookings of a cycle leave a slot of the cluster and a unit.
fn are_left(machine: &Machine, cluster: u32, unit: UnitKind, row: &[Booking]) -> bool
    ensures { result ≡ is_left machine.now cluster unit row.now }
{
    is_left(taking(row, cluster, Resource::IssueSlot), machine.issue())
        && is_left(
            taking(row, cluster, Resource::UnitOf(unit)),
            machine.units(unit),
        )
}

/// How many bookings take a resource.
fn taking(row: &[Booking], cluster: u32, resource: Resource) -> usize
    ensures { result ≡ count_by (takes cluster resource) row.now }
{
    let mut count = 0;
    for booking in row {
        if takes(booking, cluster, resource) {
            count += 1;
        }
    }
    count
}

fn is_left(taken: usize, there: u32) -> bool
    ensures { result ≡ nat_lt taken there }
{
    taken < there as usize
}

/// Whether a booking takes a resource of a cluster.
fn takes(booking: &Booking, cluster: u32, resource: Resource) -> bool
    ensures { result ≡ takes cluster resource booking.now }
{
    match resource {
        Resource::IssueSlot => booking.cluster == cluster,
        Resource::UnitOf(unit) => {
            booking.unit == unit && counts_at(unit, cluster, booking.cluster)
        }
    }
}

/// Copy paths and control places are the machine's, whatever the cluster.
fn counts_at(unit: UnitKind, cluster: u32, other: u32) -> bool
    ensures { result ≡ counts_at unit cluster other }
{
    match unit {
        UnitKind::Copies | UnitKind::Control => true,
        _ => cluster == other,
    }
}
