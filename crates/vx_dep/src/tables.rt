// What is found once for each operation of a trace: what delays ask of it, where what it writes is written again, where the last
// join above it stands, and for a split which operations behind it write what is live where it leaves. specs/Tables.antt says
// the same.

ghost use Rattle.std.specs.Prelude.{◌≡◌, nat_eq, IfOk, map};
ghost use Rattle.std.specs.List.{list_any};
ghost use Rattle.vx_dep.specs.Traits.{written, has, traits_of};
ghost use Rattle.vx_dep.specs.Tables.{kept, live_behind, lives_of, is_join, or_else, standings_from, standings_of};

use crate::traits::{Traits, traits_of, write_alike, written};
use std::alloc::Global;
use vx_base::listed::Listed;
use vx_base::outcome::NoMemory;
use vx_flow::graph::Value;
use vx_flow::trace::{Join, Trace, TraceOp};
use vx_machine::Machine;

/// What is known of an operation and of where it stands in its trace.
#[derive(Clone, Copy)]
pub(crate) struct Standing {
    /// What delays ask of it.
    pub(crate) traits: Traits,
    /// How many operations behind it do not write what it writes, up to the first that does.
    pub(crate) kept: usize,
    /// The last place, from the start of the trace up to its own, that stands directly below a join; 0 where none does.
    pub(crate) joined: usize,
}

/// One entry for each operation.
#[tactic(auto, using(crate::proofs::Standing::standings_are))]
pub(crate) fn standings(
    alloc: Global,
    trace: &Trace,
    machine: &Machine,
) -> Result<Listed<Standing>, NoMemory>
    ensures { IfOk result (λ standings. standings ≡ standings_of machine.now trace.now) }
{
    let traits = all_traits(alloc, trace.ops.as_slice(), machine)?;
    standings_of(alloc, trace.joins.as_slice(), traits.as_slice())
}

fn all_traits(alloc: Global, ops: &[TraceOp], machine: &Machine) -> Result<Listed<Traits>, NoMemory>
    ensures { IfOk result (λ traits. traits ≡ map (traits_of machine.now) ops.now) }
{
    let mut traits = Listed::new(alloc);
    let mut rest = ops;
    'ask: loop {
        match rest.split_first() {
            None => return Ok(traits),
            Some((op, behind)) => {
                traits.push(traits_of(machine, op))?;
                rest = behind;
            }
        }
    }
}

fn standings_of(
    alloc: Global,
    joins: &[Join],
    traits: &[Traits],
) -> Result<Listed<Standing>, NoMemory>
    ensures { IfOk result (λ standings. standings ≡ standings_from joins.now 0 traits.now) }
{
    let mut standings = Listed::new(alloc);
    let mut joined = 0;
    let mut rest = traits;
    'stand: loop {
        match rest.split_first() {
            None => return Ok(standings),
            Some((first, behind)) => {
                joined = last_joined(joins, standings.len(), joined);
                standings.push(Standing {
                    traits: *first,
                    kept: kept(first, behind),
                    joined,
                })?;
                rest = behind;
            }
        }
    }
}

fn kept(first: &Traits, behind: &[Traits]) -> usize
    ensures { result ≡ kept first.now behind.now }
{
    let mut count = 0;
    for other in behind {
        if write_alike(first, other) {
            return count;
        }
        count += 1;
    }
    count
}

fn last_joined(joins: &[Join], place: usize, above: usize) -> usize
    ensures { result ≡ or_else (is_join joins.now place) place above }
{
    if is_join(joins, place) { place } else { above }
}

fn is_join(joins: &[Join], place: usize) -> bool
    ensures { result ≡ is_join joins.now place }
{
    for join in joins {
        if join.place as usize == place {
            return true;
        }
    }
    false
}

/// For each operation, where it is a split, which operations behind it write what is live where it leaves.
pub(crate) fn lives(alloc: Global, trace: &Trace) -> Result<Listed<Listed<bool>>, NoMemory>
    ensures { IfOk result (λ lives. lives ≡ lives_of trace.now) }
{
    let mut lives = Listed::new(alloc);
    let mut rest = trace.ops.as_slice();
    'leave: loop {
        match rest.split_first() {
            None => return Ok(lives),
            Some((op, behind)) => {
                lives.push(live_behind(alloc, op, behind)?)?;
                rest = behind;
            }
        }
    }
}

fn live_behind(alloc: Global, op: &TraceOp, behind: &[TraceOp]) -> Result<Listed<bool>, NoMemory>
    ensures { IfOk result (λ live. live ≡ live_behind op.now behind.now) }
{
    match op {
        TraceOp::Plain(_) => Ok(Listed::new(alloc)),
        TraceOp::Split { live, .. } => written_live(alloc, live.as_slice(), behind),
    }
}

fn written_live(alloc: Global, values: &[Value], ops: &[TraceOp]) -> Result<Listed<bool>, NoMemory>
    ensures { IfOk result (λ live. live ≡ map (λ op. has (written op) values.now) ops.now) }
{
    let mut live = Listed::new(alloc);
    let mut rest = ops;
    'mark: loop {
        match rest.split_first() {
            None => return Ok(live),
            Some((op, others)) => {
                live.push(writes_one_of(op, values))?;
                rest = others;
            }
        }
    }
}

fn writes_one_of(op: &TraceOp, values: &[Value]) -> bool
    ensures { result ≡ has (written op.now) values.now }
{
    match written(op) {
        Some(value) => is_among(value, values),
        None => false,
    }
}

fn is_among(value: Value, values: &[Value]) -> bool
    ensures { result ≡ list_any (nat_eq value) values.now }
{
    for other in values {
        if value == *other {
            return true;
        }
    }
    false
}
