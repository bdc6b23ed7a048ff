// The trace with the copies that its operations need: one that reads a value on another cluster than the value's home reads
// a copy, which stands directly before the first use that it serves. specs/Copies.antt says the same.

ghost use Rattle.std.specs.Prelude.{◌≡◌, ◌++◌, ◌*◌, [], ◌∷◌, IfOk, OnOk, map, not, nat_eq, ◌==◌};
ghost use Rattle.std.specs.List.{list_any, filter};
ghost use Rattle.vx_flow.specs.Operands.{with_value_in};
ghost use Rattle.vx_bug.specs.Clusters.{some_of, general_reads};
ghost use Rattle.vx_bug.specs.Copies.{copy_of, is_away, reads_copies, is_served, serve, copied_for, renamed, renamed_op, here, across, with_its_copies, served_behind};
ghost use Rattle.vx_bug.specs.Ledgers.{homes_in};
ghost use Rattle.vx_bug.specs.Laying.{Adds, standing, served_with};

use crate::homes::home_in;
use crate::served::Served;
use crate::values::{general_reads, written};
use std::alloc::Global;
use vx_base::listed::Listed;
use vx_base::outcome::NoMemory;
use vx_base::sizes::sum;
use vx_flow::copies::copied_op;
use vx_flow::graph::{Op, Operand, Value};
use vx_flow::operands::{first_operand, second_operand, with_two};
use vx_flow::trace::TraceOp;

/// Where an operation stands: its cluster, with the homes of values and how many values the function's graph has.
#[derive(Clone, Copy)]
pub(crate) struct Site<'a> {
    pub(crate) values: u32,
    pub(crate) homes: &'a [Option<u32>],
    pub(crate) cluster: u32,
}

/// Operations as they stand in the clustered trace, one entry for each in each list.
#[derive(Drop)]
pub struct Standings {
    pub(crate) ops: Listed<TraceOp>,
    pub(crate) clusters: Listed<u32>,
    pub(crate) fixed: Listed<Option<u32>>,
}

/// The values of which an operation needs copies, in the order of its operands.
#[derive(Clone, Copy)]
pub(crate) struct Needed {
    pub(crate) first: Option<Value>,
    pub(crate) second: Option<Value>,
}

fn product(left: u32, right: u32) -> Result<u32, NoMemory>
    ensures { IfOk result (λ product. product ≡ left * right) }
{
    match left.checked_mul(right) {
        Some(product) => Ok(product),
        None => Err(NoMemory),
    }
}

/// The copy of a value to a cluster.
pub(crate) fn copy_of(values: u32, value: Value, cluster: u32) -> Result<Value, NoMemory>
    ensures { IfOk result (λ copy. copy ≡ copy_of values value cluster) }
{
    let first = product(sum(cluster, 1)?, values)?;
    sum(first, value)
}

/// Whether a value stands on another cluster.
fn is_away(site: &Site, value: Value) -> bool
    ensures { result ≡ is_away (homes_in site.now.homes.now value) site.now.cluster }
{
    match home_in(site.homes, value) {
        None => false,
        Some(home) => home != site.cluster,
    }
}

/// The value, or its copy where it stands on another cluster.
fn value_here(site: &Site, value: Value) -> Result<Value, NoMemory>
    ensures { IfOk result (λ found. found ≡ here site.now.values (homes_in site.now.homes.now) site.now.cluster value) }
{
    if is_away(site, value) {
        copy_of(site.values, value, site.cluster)
    } else {
        Ok(value)
    }
}

fn operand_here(site: &Site, operand: &Operand) -> Result<Operand, NoMemory>
    ensures { IfOk result (λ found. found ≡ with_value_in (here site.now.values (homes_in site.now.homes.now) site.now.cluster) operand.now) }
{
    match operand {
        Operand::Held(value) => Ok(Operand::Held(value_here(site, *value)?)),
        Operand::Number(number) => Ok(Operand::Number(*number)),
        Operand::Stack => Ok(Operand::Stack),
    }
}

/// The operation with the copies of values that stand on other clusters.
fn plain_here(site: &Site, op: &Op) -> Result<Op, NoMemory>
    ensures { IfOk result (λ found. found ≡ renamed (here site.now.values (homes_in site.now.homes.now) site.now.cluster) op.now) }
{
    match op {
        Op::PlaceIn {
            to,
            array,
            base,
            index,
        } => {
            let base = value_here(site, *base)?;
            let index = operand_here(site, index)?;
            Ok(Op::PlaceIn {
                to: *to,
                array: *array,
                base,
                index,
            })
        }
        _ => {
            let first = operand_here(site, &first_operand(op))?;
            let second = operand_here(site, &second_operand(op))?;
            Ok(with_two(op, first, second))
        }
    }
}

fn op_here(alloc: Global, site: &Site, op: &TraceOp) -> Result<TraceOp, NoMemory>
    ensures { IfOk result (λ found. found ≡ renamed_op (here site.now.values (homes_in site.now.homes.now) site.now.cluster) op.now) }
{
    match op {
        TraceOp::Plain(plain) => Ok(TraceOp::Plain(plain_here(site, plain)?)),
        TraceOp::Split { .. } => copied_op(alloc, op),
    }
}

/// Whether the operation reads copies that are made for it.
fn reads_copies(fixed: Option<u32>, op: &TraceOp) -> bool
    ensures { result ≡ reads_copies fixed op.now }
{
    match fixed {
        Some(_) => false,
        None => !matches!(op, TraceOp::Plain(Op::Across { .. })),
    }
}

fn is_served(served: &[Served], value: Value, cluster: u32) -> bool
    ensures { result ≡ is_served served.now value cluster }
{
    for copy in served {
        if copy.value == value && copy.cluster == cluster {
            return true;
        }
    }
    false
}

/// The value of an operand, where a copy of it is made.
#[tactic(auto, using(crate::proofs::Needing::one_needed, crate::proofs::Needing::not_away, crate::proofs::Needing::is_there))]
fn copy_needed(site: &Site, served: &[Served], value: Option<Value>) -> Option<Value>
    ensures { some_of result ≡ copied_for (homes_in site.now.homes.now) site.now.cluster served.now (some_of value) }
{
    match value {
        None => None,
        Some(value) => {
            if is_away(site, value) && !is_served(served, value, site.cluster) {
                Some(value)
            } else {
                None
            }
        }
    }
}

fn is_value(first: Option<Value>, value: Value) -> bool
    ensures { result ≡ list_any (nat_eq value) (some_of first) }
{
    match first {
        None => false,
        Some(first) => value == first,
    }
}

/// The same for an operand behind one of which a copy may be made.
#[tactic(auto, using(crate::proofs::Needing::needed_before, crate::proofs::Needing::needed_behind))]
fn needed_behind(
    site: &Site,
    served: &[Served],
    first: Option<Value>,
    value: Option<Value>,
) -> Option<Value>
    ensures { some_of result ≡ copied_for (homes_in site.now.homes.now) site.now.cluster (serve site.now.cluster (some_of first) ++ served.now) (some_of value) }
{
    match value {
        None => None,
        Some(value) => {
            if is_value(first, value) {
                None
            } else {
                copy_needed(site, served, Some(value))
            }
        }
    }
}

/// The values of which an operation needs copies.
#[tactic(auto, using(crate::proofs::Needing::both_needed))]
fn copies_needed(site: &Site, served: &[Served], op: &TraceOp) -> Needed
    ensures { some_of result.first ++ some_of result.second ≡ copied_for (homes_in site.now.homes.now) site.now.cluster served.now (general_reads op.now) }
{
    let read = general_reads(op);
    let first = copy_needed(site, served, read.left);
    let second = needed_behind(site, served, first, read.right);
    Needed { first, second }
}

/// A copy serves from here on.
fn add_served(served: &mut Vec<Served>, value: Option<Value>, cluster: u32) -> Result<(), NoMemory>
    ensures { OnOk result (served.new.items ≡ serve cluster (some_of value) ++ served.old.items) }
{
    if let Some(value) = value {
        served.insert(0, Served { value, cluster })?;
    }
    Ok(())
}

/// No copy of a value serves any more.
fn forget_value(served: &mut Vec<Served>, value: Value)
    ensures { served.new.items ≡ filter (λ (s : Served). not (s.value == value)) served.old.items }
{
    served.retain(|copy| copy.value != value);
}

/// No copy of a value that is written serves any more.
#[tactic(auto, using(crate::proofs::Needing::keeps_all, crate::proofs::Needing::keeps_others))]
fn forget(served: &mut Vec<Served>, written: Option<Value>)
    ensures { served.new.items ≡ filter (λ (s : Served). not (list_any (nat_eq s.value) (some_of written))) served.old.items }
{
    match written {
        None => {}
        Some(value) => forget_value(served, value),
    }
}

/// An operation at the end.
fn put(out: &mut Standings, op: TraceOp, cluster: u32, fixed: Option<u32>) -> Result<(), NoMemory>
    ensures { OnOk result (Adds out.old out.new (standing op cluster fixed ∷ [])) }
{
    out.ops.push(op)?;
    out.clusters.push(cluster)?;
    out.fixed.push(fixed)?;
    Ok(())
}

fn put_copy(out: &mut Standings, site: &Site, value: Option<Value>) -> Result<(), NoMemory>
    ensures { OnOk result (Adds out.old out.new (map (across site.now.values site.now.cluster) (some_of value))) }
{
    match value {
        None => Ok(()),
        Some(from) => {
            let to = copy_of(site.values, from, site.cluster)?;
            put(
                out,
                TraceOp::Plain(Op::Across { to, from }),
                site.cluster,
                None,
            )
        }
    }
}

/// The copies before an operation that reads copies, and the operation.
#[tactic(auto, using(crate::proofs::Needing::with_three))]
fn put_with_copies(
    alloc: Global,
    out: &mut Standings,
    site: &Site,
    op: &TraceOp,
    fixed: Option<u32>,
    needed: Needed,
) -> Result<(), NoMemory>
    ensures { OnOk result (Adds out.old out.new (map (across site.now.values site.now.cluster) (some_of needed.first ++ some_of needed.second) ++ standing (renamed_op (here site.now.values (homes_in site.now.homes.now) site.now.cluster) op.now) site.now.cluster fixed ∷ [])) }
{
    put_copy(out, site, needed.first)?;
    put_copy(out, site, needed.second)?;
    let op = op_here(alloc, site, op)?;
    put(out, op, site.cluster, fixed)
}

/// An operation with the copies before it, which serve from here on.
#[tactic(auto, using(crate::proofs::Needing::copies_before, crate::proofs::Needing::no_copies_before, crate::proofs::Needing::two_serve, crate::proofs::Needing::none_serve))]
fn stand_with_copies(
    alloc: Global,
    site: &Site,
    served: &mut Vec<Served>,
    op: &TraceOp,
    fixed: Option<u32>,
    out: &mut Standings,
) -> Result<(), NoMemory>
    ensures adds { OnOk result (Adds out.old out.new (with_its_copies site.now.values (homes_in site.now.homes.now) served.old.items op.now site.now.cluster fixed)) }
    ensures served { OnOk result (served.new.items ≡ served_with (homes_in site.now.homes.now) served.old.items op.now site.now.cluster fixed) }
{
    if reads_copies(fixed, op) {
        let needed = copies_needed(site, served.as_slice(), op);
        put_with_copies(alloc, out, site, op, fixed, needed)?;
        add_served(served, needed.second, site.cluster)?;
        add_served(served, needed.first, site.cluster)
    } else {
        let op = copied_op(alloc, op)?;
        put(out, op, site.cluster, fixed)
    }
}

/// The same; no copy of what it writes serves behind it.
#[tactic(auto, using(crate::proofs::Needing::served_now))]
pub(crate) fn stand(
    alloc: Global,
    site: &Site,
    served: &mut Vec<Served>,
    op: &TraceOp,
    fixed: Option<u32>,
    out: &mut Standings,
) -> Result<(), NoMemory>
    ensures adds { OnOk result (Adds out.old out.new (with_its_copies site.now.values (homes_in site.now.homes.now) served.old.items op.now site.now.cluster fixed)) }
    ensures served { OnOk result (served.new.items ≡ served_behind (homes_in site.now.homes.now) served.old.items op.now site.now.cluster fixed) }
{
    stand_with_copies(alloc, site, served, op, fixed, out)?;
    forget(served, written(op));
    Ok(())
}
