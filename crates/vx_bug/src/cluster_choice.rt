// The choice of clusters, operation by operation in the listed order: among those that it may take each takes the one of
// the least estimate, the lowest of several (Ellis, 1985). The promise is the clause of `take_turns`, by specs/Choices.antt.

ghost use Rattle.std.specs.Prelude.{◌≡◌, ◌<◌, ◌≤◌, ◌+◌, ◌^◌, ℕ, IfOk, Some, None, length, nat_lt, if◌then◌else◌, slice_index_or};
ghost use Rattle.vx_flow.specs.Effects.{IsIn};
ghost use Rattle.vx_flow.specs.Walk.{numbers};
ghost use Rattle.vx_bug.specs.Clusters.{some_of, general_writes, home_clusters, home_or_any, permitted, cycle_of, estimate_of, after_turn, IsBest};
ghost use Rattle.vx_bug.specs.Ledgers.{homes_in, books_of};
ghost use Rattle.vx_bug.specs.Choices.{IsLeast, Apart, TurnTaken, TurnsTaken, compared};
ghost use Rattle.vx_bug.specs.Sources.{AreSources};

use crate::homes::home_in;
use crate::ledger::Ledger;
use crate::turns::{Sources, Turn, cycle_of, earliest, find_sources, take};
use crate::values::{general_result, is_bound};
use std::alloc::Global;
use vx_base::outcome::NoMemory;
use vx_flow::trace::Trace;
use vx_machine::Machine;

/// Clusters that follow each other.
#[derive(Clone, Copy)]
pub(crate) struct Span {
    pub(crate) first: u32,
    pub(crate) count: u32,
}

/// A cluster, and the cycle in which the operation would be issued there.
#[derive(Clone, Copy)]
pub(crate) struct Choice {
    pub(crate) cluster: u32,
    pub(crate) cycle: u64,
}

/// The cluster that an operation has taken, and its estimate there.
#[derive(Clone, Copy)]
pub(crate) struct Chosen {
    pub(crate) cluster: u32,
    pub(crate) estimate: u32,
}

/// The clusters and the estimates of all operations, by their places; 0 for one that had no turn.
#[derive(Drop)]
pub(crate) struct Taken {
    pub(crate) chosen: Vec<u32>,
    pub(crate) estimates: Vec<u32>,
}

fn only(cluster: u32) -> Span
    ensures { result ≡ record { first = cluster; count = 1 } }
{
    Span {
        first: cluster,
        count: 1,
    }
}

#[tactic(auto, using(crate::proofs::Best::some_clusters))]
fn clusters_of(machine: &Machine) -> u32
    ensures exact { result ≡ machine.now.clusters }
    ensures some { 1 ≤ result }
{
    machine.keeps_ranges();
    machine.clusters()
}

fn home_or_any(machine: &Machine, home: Option<u32>) -> Span
    ensures clusters { numbers result.first result.count ≡ home_or_any machine.now (some_of home) }
    ensures some { 1 ≤ result.count }
    ensures within { result.first + result.count ≤ 2 ^ 32 }
{
    match home {
        Some(home) => only(home),
        None => Span {
            first: 0,
            count: clusters_of(machine),
        },
    }
}

fn home_of_result(turn: &Turn, ledger: &Ledger) -> Option<u32>
    ensures { some_of result ≡ home_clusters (homes_in ledger.now.homes.items) (general_writes turn.now.op.now) }
{
    match general_result(turn.op) {
        None => None,
        Some(value) => home_in(ledger.homes.as_slice(), value),
    }
}

/// The clusters that an operation may take.
fn permitted(turn: &Turn, ledger: &Ledger, fixed: Option<u32>) -> Span
    ensures clusters { numbers result.first result.count ≡ permitted turn.now.machine (homes_in ledger.now.homes.items) fixed turn.now.op.now }
    ensures some { 1 ≤ result.count }
    ensures within { result.first + result.count ≤ 2 ^ 32 }
{
    match fixed {
        Some(cluster) => only(cluster),
        None => {
            if is_bound(turn.op) {
                only(0)
            } else {
                home_or_any(&turn.machine, home_of_result(turn, ledger))
            }
        }
    }
}

fn tried(turn: &Turn, ledger: &Ledger, sources: Sources, cluster: u32) -> Result<Choice, NoMemory>
    requires { AreSources turn.now.machine turn.now.trace.now (books_of ledger.now) turn.now.place turn.now.op.now sources }
    ensures cluster { IfOk result (λ choice. choice.cluster ≡ cluster) }
    ensures cycle { IfOk result (λ choice. choice.cycle ≡ cycle_of turn.now.machine turn.now.trace.now (books_of ledger.now) turn.now.place turn.now.op.now choice.cluster) }
{
    let cycle = cycle_of(turn, ledger, sources, cluster)?;
    Ok(Choice { cluster, cycle })
}

/// The earlier of two choices, the first one where they are equal.
fn better(best: Choice, next: Choice) -> Choice
    ensures { result ≡ (if nat_lt next.cycle best.cycle then next else best) }
{
    if next.cycle < best.cycle { next } else { best }
}

/// The better of a choice and another cluster. One where the operands are not there before the choice's cycle is not better,
/// whatever is booked there.
#[tactic(auto, using(crate::proofs::Pruned::none_earlier, crate::proofs::Pruned::better_is))]
fn compared(
    turn: &Turn,
    ledger: &Ledger,
    sources: Sources,
    best: Choice,
    cluster: u32,
) -> Result<Choice, NoMemory>
    requires { AreSources turn.now.machine turn.now.trace.now (books_of ledger.now) turn.now.place turn.now.op.now sources }
    ensures { IfOk result (λ choice. choice ≡ compared (cycle_of turn.now.machine turn.now.trace.now (books_of ledger.now) turn.now.place turn.now.op.now cluster) cluster best) }
{
    if best.cycle <= earliest(&turn.machine, cluster, sources) {
        return Ok(best);
    }
    let next = tried(turn, ledger, sources, cluster)?;
    Ok(better(best, next))
}

/// The best of some clusters.
#[tactic(auto, using(crate::proofs::Best::one_compared, crate::proofs::Best::more_compared))]
fn best(turn: &Turn, ledger: &Ledger, span: Span) -> Result<Choice, NoMemory>
    requires some { 1 ≤ span.count }
    requires within { span.first + span.count ≤ 2 ^ 32 }
    ensures least { IfOk result (λ choice. IsLeast (cycle_of turn.now.machine turn.now.trace.now (books_of ledger.now) turn.now.place turn.now.op.now) span.first span.count choice.cluster) }
    ensures cycle { IfOk result (λ choice. choice.cycle ≡ cycle_of turn.now.machine turn.now.trace.now (books_of ledger.now) turn.now.place turn.now.op.now choice.cluster) }
{
    let sources = find_sources(turn, ledger);
    let mut best = tried(turn, ledger, sources, span.first)?;
    let mut count = 1;
    'compare: while count < span.count {
        best = compared(turn, ledger, sources, best, span.first + count)?;
        count += 1;
    }
    Ok(best)
}

/// The operation takes the best of the clusters that it may take.
#[tactic(auto, using(crate::proofs::Best::best_is))]
fn choose(
    alloc: Global,
    turn: &Turn,
    ledger: &mut Ledger,
    fixed: Option<u32>,
) -> Result<Chosen, NoMemory>
    ensures best { IfOk result (λ chosen. IsBest turn.now.machine turn.now.trace.now (books_of ledger.old) turn.now.place fixed turn.now.op.now chosen.cluster) }
    ensures expected { IfOk result (λ chosen. chosen.estimate ≡ estimate_of turn.now.machine turn.now.trace.now (books_of ledger.old) turn.now.place turn.now.op.now chosen.cluster) }
    ensures books { IfOk result (λ chosen. books_of ledger.new ≡ after_turn turn.now.machine turn.now.trace.now (books_of ledger.old) turn.now.place (Some turn.now.op.now) chosen.cluster) }
{
    let span = permitted(turn, ledger, fixed);
    let choice = best(turn, ledger, span)?;
    let estimate = take(alloc, turn, ledger, choice.cluster, choice.cycle)?;
    Ok(Chosen {
        cluster: choice.cluster,
        estimate,
    })
}

fn fixed_at(trace: &Trace, place: u32) -> Option<u32>
    ensures { result ≡ slice_index_or trace.now.fixed place None }
{
    match trace.fixed.as_slice().get(place as usize) {
        Some(fixed) => *fixed,
        None => None,
    }
}

/// The turn of the operation at a place.
fn turn_at(
    alloc: Global,
    machine: &Machine,
    trace: &Trace,
    place: u32,
    ledger: &mut Ledger,
) -> Result<Chosen, NoMemory>
    ensures { IfOk result (λ chosen. TurnTaken machine.now trace.now (books_of ledger.old) place chosen.cluster chosen.estimate (books_of ledger.new)) }
{
    match trace.ops.as_slice().get(place as usize) {
        None => Ok(Chosen {
            cluster: 0,
            estimate: 0,
        }),
        Some(op) => {
            let turn = Turn {
                machine: *machine,
                trace,
                place,
                op,
            };
            choose(alloc, &turn, ledger, fixed_at(trace, place))
        }
    }
}

/// The turns of the operations in the listed order.
#[tactic(auto, using(crate::proofs::Taking::no_turns))]
pub(crate) fn take_turns(
    alloc: Global,
    machine: &Machine,
    trace: &Trace,
    order: &[u32],
    ledger: &mut Ledger,
) -> Result<Taken, NoMemory>
    requires below { (i : ℕ) → IsIn i order.now → i < length trace.now.ops }
    requires apart { Apart order.now }
    ensures { IfOk result (λ taken. TurnsTaken machine.now trace.now (books_of ledger.old) order.now taken.chosen.items taken.estimates.items (books_of ledger.new)) }
{
    let mut chosen = zeros(alloc, trace.ops.len())?;
    let mut estimates = zeros(alloc, trace.ops.len())?;
    for place in order {
        let taken = turn_at(alloc, machine, trace, *place, ledger)?;
        chosen[*place as usize] = taken.cluster;
        estimates[*place as usize] = taken.estimate;
    }
    Ok(Taken { chosen, estimates })
}

fn zeros(alloc: Global, many: usize) -> Result<Vec<u32>, NoMemory>
    ensures { IfOk result (λ zeros. length zeros.items ≡ many) }
{
    let mut zeros = Vec::new(alloc);
    'fill: while zeros.len() < many {
        zeros.push(0)?;
    }
    Ok(zeros)
}
