// What a placed trace owes to those who leave it at a split or enter it at a join, after Fisher, 1981: copies, the blocks that
// are made for them, the empty cycles behind its exits.

ghost use Rattle.std.specs.Prelude.{◌≡◌, ◌*◌, ◌-◌, ◌^◌, min, length, map, IfOk};
ghost use Rattle.vx_dep.specs.declared.copies.EdgeCopies.{EdgeCopies};
ghost use Rattle.vx_dep.specs.declared.copies.Rejoin.{Rejoin};
ghost use Rattle.vx_dep.specs.Compensation.{at_splits_of, at_joins_of};
ghost use Rattle.vx_region.specs.Growth.{count_splits, count_joins, copies_of};
ghost use Rattle.vx_region.specs.Owed.{IsOwed, with_drains};

use crate::made::made_blocks;
use crate::waits::{drain_at, split_drain};
use std::alloc::Global;
use vx_base::listed::Listed;
use vx_base::outcome::NoMemory;
use vx_dep::copies::{EdgeCopies, Rejoin};
use vx_flow::trace::{Join, Placed};
use vx_join::at_joins;
use vx_machine::Machine;
use vx_mixed::region::Made;
use vx_split::at_splits;

/// What a placed trace owes.
#[derive(Drop)]
pub struct Owed {
    /// The copies at its splits, with the empty cycles behind each.
    pub splits: Listed<EdgeCopies>,
    /// The copies at its joins.
    pub rejoins: Listed<Rejoin>,
    /// The empty cycles behind each split.
    pub drains: Listed<u32>,
    /// The empty cycles behind the last word.
    pub last_drain: u32,
    /// The word at which each join enters.
    pub starts: Listed<u32>,
    /// The blocks that are made for the copies: those at splits first.
    pub made: Listed<Made>,
    /// How many operations are copied, those at joins once for each edge; 2^64 - 1 where there are more.
    pub copies: u64,
}

/// What this placed trace owes.
pub(crate) fn owed_of(alloc: Global, machine: &Machine, placed: &Placed) -> Result<Owed, NoMemory>
    ensures { IfOk result (λ owed. IsOwed machine.now placed.now owed) }
{
    let rejoins = Listed::from_vec(at_joins(alloc, placed)?)?;
    let splits = at_splits(alloc, placed)?;
    let made = made_blocks(alloc, placed, splits.as_slice(), rejoins.as_slice())?;
    let copies = copies_at(placed, splits.as_slice(), rejoins.as_slice());
    let splits = drained(alloc, machine, placed, splits)?;
    let drains = drains(alloc, splits.as_slice())?;
    let starts = starts(alloc, rejoins.as_slice())?;
    let last_drain = drain_at(machine, placed, placed.length as u64);
    Ok(Owed {
        splits,
        rejoins,
        drains,
        last_drain,
        starts,
        made,
        copies,
    })
}

/// The copies at the splits, with the empty cycles behind each.
fn drained(
    alloc: Global,
    machine: &Machine,
    placed: &Placed,
    splits: Vec<EdgeCopies>,
) -> Result<Listed<EdgeCopies>, NoMemory>
    ensures { IfOk result (λ list. list ≡ with_drains machine.now placed.now splits.items) }
{
    let mut drained = Listed::new(alloc);
    for split in splits {
        let drain = split_drain(machine, placed, &split);
        drained.push(EdgeCopies {
            split: split.split,
            edge: split.edge,
            copies: split.copies,
            drain,
        })?;
    }
    Ok(drained)
}

/// The empty cycles behind each split.
fn drains(alloc: Global, splits: &[EdgeCopies]) -> Result<Listed<u32>, NoMemory>
    ensures { IfOk result (λ list. list ≡ map (λ (x : EdgeCopies). x.drain) splits.now) }
{
    let mut drains = Listed::new(alloc);
    let mut rest = splits;
    'drain: loop {
        match rest.split_first() {
            None => return Ok(drains),
            Some((split, others)) => {
                drains.push(split.drain)?;
                rest = others;
            }
        }
    }
}

/// The words at which joins enter.
fn starts(alloc: Global, rejoins: &[Rejoin]) -> Result<Listed<u32>, NoMemory>
    ensures { IfOk result (λ list. list ≡ map (λ (x : Rejoin). x.word) rejoins.now) }
{
    let mut starts = Listed::new(alloc);
    let mut rest = rejoins;
    'start: loop {
        match rest.split_first() {
            None => return Ok(starts),
            Some((rejoin, others)) => {
                starts.push(rejoin.word)?;
                rest = others;
            }
        }
    }
}

/// How many operations are copied, those at joins once for each edge.
fn copies_at(placed: &Placed, splits: &[EdgeCopies], rejoins: &[Rejoin]) -> u64
    requires splits { splits.now ≡ at_splits_of placed.now }
    requires rejoins { rejoins.now ≡ at_joins_of placed.now }
    ensures { result ≡ min (2 ^ 64 - 1) (copies_of placed.now) }
{
    let at_splits = copies_at_splits(splits);
    at_splits.saturating_add(copies_at_joins(placed.clustered.trace.joins.as_slice(), rejoins))
}

fn copies_at_splits(splits: &[EdgeCopies]) -> u64
    ensures { result ≡ min (2 ^ 64 - 1) (count_splits splits.now) }
{
    match splits.split_first() {
        None => 0,
        Some((split, others)) => {
            copies_at_splits(others).saturating_add(split.copies.len() as u64)
        }
    }
}

fn copies_at_joins(joins: &[Join], rejoins: &[Rejoin]) -> u64
    ensures { result ≡ min (2 ^ 64 - 1) (count_joins joins.now rejoins.now) }
{
    match joins.split_first() {
        None => 0,
        Some((join, joins_behind)) => match rejoins.split_first() {
            None => 0,
            Some((rejoin, rejoins_behind)) => {
                copies_at_joins(joins_behind, rejoins_behind).saturating_add(copies_on(
                    join, rejoin,
                ))
            }
        },
    }
}

/// The copies at a join, once for each of its edges.
fn copies_on(join: &Join, rejoin: &Rejoin) -> u64
    ensures { result ≡ min (2 ^ 64 - 1) (length join.now.edges * length rejoin.now.copies) }
{
    (join.edges.len() as u64).saturating_mul(rejoin.copies.len() as u64)
}
