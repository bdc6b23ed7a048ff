// A trace in words, in the mode that the cap on copies gives: `Free` where the copies so far and its own keep within the cap, else
// `Barred`.

ghost use Rattle.std.specs.Prelude.{◌≡◌, length, IfOk, IfSome, IfNone};
ghost use Rattle.vx_sched.specs.Placement.{HaveRoomAlone};
ghost use Rattle.vx_dep.specs.declared.mode.Mode.{Mode};
ghost use Rattle.vx_region.specs.Growth.{HasMode};
ghost use Rattle.vx_region.specs.Owed.{IsOwed, IsPlacedWithin};
ghost use Rattle.vx_region.specs.RegionPlans.{IsPlaced};

use crate::budget::Budget;
use crate::owed::{Owed, owed_of};
use std::alloc::Global;
use vx_base::outcome::NoMemory;
use vx_dep::mode::Mode;
use vx_dep::pairs;
use vx_flow::trace::{Clustered, Homes, Placed};
use vx_machine::Machine;
use vx_sched::schedule;

/// A trace in words, and what it owes.
#[derive(Drop)]
pub struct PlacedTrace {
    /// Whether operations may pass its splits and joins.
    pub mode: Mode,
    /// The words.
    pub placed: Placed,
    /// What it owes.
    pub owed: Owed,
    /// The copies so far, with its own.
    pub used: u32,
}

/// The placement of a trace in the mode that the cap gives.
pub(crate) fn place_within(
    alloc: Global,
    clustered: &Clustered,
    homes: &Homes,
    machine: &Machine,
    budget: Budget,
) -> Result<PlacedTrace, NoMemory>
    requires each { length clustered.now.clusters ≡ length clustered.now.trace.ops }
    requires alone { HaveRoomAlone machine.now homes.now clustered.now }
    ensures { IfOk result (λ x. IsPlacedWithin clustered.now machine.now homes.now budget.cap budget.used x) }
{
    match place_free(alloc, clustered, homes, machine, budget)? {
        Some(placed) => Ok(placed),
        None => place_barred(alloc, clustered, homes, machine, budget),
    }
}

/// The free placement, if its copies keep within the cap.
fn place_free(
    alloc: Global,
    clustered: &Clustered,
    homes: &Homes,
    machine: &Machine,
    budget: Budget,
) -> Result<Option<PlacedTrace>, NoMemory>
    requires each { length clustered.now.clusters ≡ length clustered.now.trace.ops }
    requires alone { HaveRoomAlone machine.now homes.now clustered.now }
    ensures some { IfOk result (λ found. IfSome found (λ x. IsPlacedWithin clustered.now machine.now homes.now budget.cap budget.used x)) }
    ensures none { IfOk result (λ found. IfNone found (HasMode clustered.now machine.now homes.now budget.cap budget.used Mode.Barred)) }
{
    let owing = place_owing(alloc, clustered, homes, machine, Mode::Free)?;
    let used = u64::from(budget.used).saturating_add(owing.owed.copies);
    if used <= u64::from(budget.cap) {
        Ok(Some(PlacedTrace {
            mode: Mode::Free,
            placed: owing.placed,
            owed: owing.owed,
            used: used as u32,
        }))
    } else {
        drop(owing);
        Ok(None)
    }
}

/// The placement in which nothing passes a split or a join, so that nothing is copied.
fn place_barred(
    alloc: Global,
    clustered: &Clustered,
    homes: &Homes,
    machine: &Machine,
    budget: Budget,
) -> Result<PlacedTrace, NoMemory>
    requires each { length clustered.now.clusters ≡ length clustered.now.trace.ops }
    requires alone { HaveRoomAlone machine.now homes.now clustered.now }
    requires mode { HasMode clustered.now machine.now homes.now budget.cap budget.used Mode.Barred }
    ensures { IfOk result (λ x. IsPlacedWithin clustered.now machine.now homes.now budget.cap budget.used x) }
{
    let owing = place_owing(alloc, clustered, homes, machine, Mode::Barred)?;
    Ok(PlacedTrace {
        mode: Mode::Barred,
        placed: owing.placed,
        owed: owing.owed,
        used: budget.used,
    })
}

/// The words of a trace in one mode, and what they owe.
#[derive(Drop)]
struct PlacedOwing {
    placed: Placed,
    owed: Owed,
}

/// The placement in this mode.
fn place_owing(
    alloc: Global,
    clustered: &Clustered,
    homes: &Homes,
    machine: &Machine,
    mode: Mode,
) -> Result<PlacedOwing, NoMemory>
    requires each { length clustered.now.clusters ≡ length clustered.now.trace.ops }
    requires alone { HaveRoomAlone machine.now homes.now clustered.now }
    ensures placed { IfOk result (λ x. IsPlaced clustered.now machine.now homes.now mode x.placed) }
    ensures owed { IfOk result (λ x. IsOwed machine.now x.placed x.owed) }
{
    let placed = place(alloc, clustered, homes, machine, mode)?;
    match owed_of(alloc, machine, &placed) {
        Ok(owed) => Ok(PlacedOwing { placed, owed }),
        Err(error) => {
            drop(placed);
            Err(error)
        }
    }
}

/// The words of a trace, in this mode.
fn place(
    alloc: Global,
    clustered: &Clustered,
    homes: &Homes,
    machine: &Machine,
    mode: Mode,
) -> Result<Placed, NoMemory>
    requires each { length clustered.now.clusters ≡ length clustered.now.trace.ops }
    requires alone { HaveRoomAlone machine.now homes.now clustered.now }
    ensures { IfOk result (λ p. IsPlaced clustered.now machine.now homes.now mode p) }
{
    let deps = pairs(alloc, &clustered.trace, machine, mode)?;
    let placed = schedule(alloc, clustered, homes, &deps, machine);
    drop(deps);
    placed
}
