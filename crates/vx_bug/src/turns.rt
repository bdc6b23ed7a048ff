// The turn of an operation: its estimate on a cluster, and what stands after it has taken one. specs/Clusters.antt says the
// same.

ghost use Rattle.std.specs.Prelude.{◌≡◌, ◌++◌, ◌+◌, ℕ, IfOk, OnOk, Some, None, reverse, if◌then◌else◌};
ghost use Rattle.vx_bug.specs.Clusters.{some_of, general_reads, general_writes, is_across, way_from, written_at, available, cycle_of, estimate_of, with_homes, after_turn};
ghost use Rattle.vx_bug.specs.Ledgers.{homes_in, books_of};
ghost use Rattle.vx_bug.specs.Sources.{there_on, earliest_on, IsSource, AreSources};

use crate::booked::Booked;
use crate::bookings::{Booking, free_cycle};
use crate::homes::{give_home, home_in};
use crate::ledger::Ledger;
use crate::values::{general_reads, general_result, is_across, reads_of, writer};
use std::alloc::Global;
use vx_base::outcome::NoMemory;
use vx_flow::graph::Value;
use vx_flow::trace::{Trace, TraceOp};
use vx_machine::Machine;
use vx_room::items::Item;

/// An operation of a trace whose turn it is.
#[derive(Drop)]
pub(crate) struct Turn<'a> {
    pub(crate) machine: Machine,
    pub(crate) trace: &'a Trace,
    pub(crate) place: u32,
    pub(crate) op: &'a TraceOp,
}

/// Where an operand of an operation comes from.
#[derive(Clone, Copy)]
pub(crate) struct Source {
    /// The cycle at which it is expected, 0 where no operation above that has its cluster wrote it.
    pub(crate) written: u32,
    /// The cluster that it has to come from, if there is one.
    pub(crate) home: Option<u32>,
}

/// Where the operands of an operation come from, found once for all clusters; None where an operand is no value.
#[derive(Clone, Copy)]
pub(crate) struct Sources {
    pub(crate) first: Option<Source>,
    pub(crate) second: Option<Source>,
    pub(crate) third: Option<Source>,
}

/// How many cycles later an operand that stands on another cluster is there.
fn way_from(machine: &Machine, home: Option<u32>, cluster: u32) -> u32
    ensures { result ≡ way_from machine.now home cluster }
{
    match home {
        None => 0,
        Some(home) => {
            if home == cluster {
                0
            } else {
                machine.latency_copy()
            }
        }
    }
}

fn written_at(booked: &Booked, above: Option<u32>) -> u32
    ensures { result ≡ written_at (reverse booked.now.bookings.items) above }
{
    match above {
        None => 0,
        Some(above) => booked.estimate(above),
    }
}

/// The cluster that a value has to come from, if it has a home; a copy across reads where its operand stands.
fn read_from(turn: &Turn, ledger: &Ledger, value: Value) -> Option<u32>
    ensures { result ≡ (if is_across turn.now.op.now then None else homes_in ledger.now.homes.items value) }
{
    if is_across(turn.op) {
        None
    } else {
        home_in(ledger.homes.as_slice(), value)
    }
}

#[tactic(auto, using(crate::proofs::Sourced::source_is))]
fn find_source(turn: &Turn, ledger: &Ledger, value: Value) -> Source
    ensures { (cluster : ℕ) → result.written + way_from turn.now.machine result.home cluster ≡ available turn.now.machine turn.now.trace.now (books_of ledger.now) turn.now.place turn.now.op.now cluster value }
{
    let above = writer(turn.trace.ops.as_slice(), turn.place, value);
    let written = written_at(&ledger.booked, above);
    let home = read_from(turn, ledger, value);
    Source { written, home }
}

/// The same for an operand; none where it is no value.
#[tactic(auto, using(crate::proofs::Sourced::no_source, crate::proofs::Sourced::one_source))]
fn find_source_if(turn: &Turn, ledger: &Ledger, value: Option<Value>) -> Option<Source>
    ensures { IsSource turn.now.machine turn.now.trace.now (books_of ledger.now) turn.now.place turn.now.op.now (some_of value) result }
{
    match value {
        None => None,
        Some(value) => Some(find_source(turn, ledger, value)),
    }
}

/// Where the operands of an operation come from.
#[tactic(auto, using(crate::proofs::Sourced::are_sources))]
pub(crate) fn find_sources(turn: &Turn, ledger: &Ledger) -> Sources
    ensures { AreSources turn.now.machine turn.now.trace.now (books_of ledger.now) turn.now.place turn.now.op.now result }
{
    let read = reads_of(turn.op);
    let first = find_source_if(turn, ledger, read.first);
    let second = find_source_if(turn, ledger, read.second);
    let third = find_source_if(turn, ledger, read.third);
    Sources {
        first,
        second,
        third,
    }
}

/// The cycle from which an operand is there on a cluster; 0 where it is no value.
fn there_on(machine: &Machine, cluster: u32, source: Option<Source>) -> u64
    ensures { result ≡ there_on machine.now cluster source }
{
    match source {
        None => 0,
        Some(source) => {
            u64::from(source.written) + u64::from(way_from(machine, source.home, cluster))
        }
    }
}

/// The first cycle in which all operands are there on a cluster.
pub(crate) fn earliest(machine: &Machine, cluster: u32, sources: Sources) -> u64
    ensures { result ≡ earliest_on machine.now cluster sources }
{
    let first = there_on(machine, cluster, sources.first);
    let second = there_on(machine, cluster, sources.second);
    let third = there_on(machine, cluster, sources.third);
    first.max(second).max(third)
}

/// The cycle in which the operation would be issued on a cluster.
#[tactic(auto, using(crate::proofs::Sourced::cycle_is))]
pub(crate) fn cycle_of(
    turn: &Turn,
    ledger: &Ledger,
    sources: Sources,
    cluster: u32,
) -> Result<u64, NoMemory>
    requires { AreSources turn.now.machine turn.now.trace.now (books_of ledger.now) turn.now.place turn.now.op.now sources }
    ensures { IfOk result (λ cycle. cycle ≡ cycle_of turn.now.machine turn.now.trace.now (books_of ledger.now) turn.now.place turn.now.op.now cluster) }
{
    let from = earliest(&turn.machine, cluster, sources);
    let unit = Item::of_trace(turn.op).unit();
    free_cycle(&turn.machine, &ledger.booked, cluster, unit, from)
}

/// The operation takes a cluster in a cycle: it is booked, and each general value that it names and that has no home gets
/// the cluster as its home. The result is its estimate. One past `u32` is want of memory.
pub(crate) fn take(
    alloc: Global,
    turn: &Turn,
    ledger: &mut Ledger,
    cluster: u32,
    cycle: u64,
) -> Result<u32, NoMemory>
    requires { cycle ≡ cycle_of turn.now.machine turn.now.trace.now (books_of ledger.old) turn.now.place turn.now.op.now cluster }
    ensures books { OnOk result (books_of ledger.new ≡ after_turn turn.now.machine turn.now.trace.now (books_of ledger.old) turn.now.place (Some turn.now.op.now) cluster) }
    ensures estimate { IfOk result (λ estimate. estimate ≡ estimate_of turn.now.machine turn.now.trace.now (books_of ledger.old) turn.now.place turn.now.op.now cluster) }
{
    let item = Item::of_trace(turn.op);
    let issued = narrowed(cycle)?;
    let estimate = later(issued, item.latency(&turn.machine))?;
    let booking = Booking {
        place: turn.place,
        cluster,
        unit: item.unit(),
        cycle: issued,
        estimate,
    };
    ledger.booked.add(alloc, booking)?;
    give_homes(&mut ledger.homes, turn.op, cluster)?;
    Ok(estimate)
}

fn narrowed(cycle: u64) -> Result<u32, NoMemory>
    ensures { IfOk result (λ narrowed. narrowed ≡ cycle) }
{
    match u32::try_from(cycle) {
        Ok(narrowed) => Ok(narrowed),
        Err(_) => Err(NoMemory),
    }
}

fn later(cycle: u32, latency: u32) -> Result<u32, NoMemory>
    ensures { IfOk result (λ later. later ≡ cycle + latency) }
{
    match cycle.checked_add(latency) {
        Some(later) => Ok(later),
        None => Err(NoMemory),
    }
}

/// A home for each general value that an operation names.
#[tactic(auto, using(crate::proofs::Latest::three_homes))]
fn give_homes(homes: &mut Vec<Option<u32>>, op: &TraceOp, cluster: u32) -> Result<(), NoMemory>
    ensures { OnOk result (homes_in homes.new.items ≡ with_homes cluster (homes_in homes.old.items) (general_reads op.now ++ general_writes op.now)) }
{
    let read = general_reads(op);
    give_home(homes, read.left, cluster)?;
    give_home(homes, read.right, cluster)?;
    give_home(homes, general_result(op), cluster)
}
