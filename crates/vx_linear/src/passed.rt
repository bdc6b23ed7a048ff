// What is kept of the operations of a trace that stand above a place.

ghost use Rattle.std.specs.Prelude.{◌≡◌, ◌+◌, ◌^◌, ◌<◌, ℕ, Some, if◌then◌else◌, is_some, nat_eq, OnOk, IfOk, slice_get};
ghost use Rattle.std.specs.Map.{lookup};
ghost use Rattle.vx_flow.specs.declared.trace.Trace.{Trace as ATrace};
ghost use Rattle.vx_linear.specs.Followed.{writes_it, made, known, index_made, above_of, is_join};
ghost use Rattle.vx_linear.specs.Passed.{Passes, is_target, JoinsAre};

use crate::known_values::Known;
use crate::linear::Linear;
use crate::places::Places;
use std::alloc::Global;
use vx_base::listed::Listed;
use vx_base::outcome::NoMemory;
use vx_flow::graph::Value;
use vx_flow::operands::written_by;
use vx_flow::trace::{Join, Trace, TraceOp};

/// What is kept of the operations above a place: what each makes, and the index of the place that it makes; where each
/// value was written last; and where the last join stands, 0 where none does.
#[derive(Drop)]
pub(crate) struct Passed {
    pub(crate) knowns: Listed<Known>,
    pub(crate) indices: Listed<Linear>,
    pub(crate) writers: Places,
    pub(crate) join: usize,
}

/// Nothing stands above the start of a trace.
pub(crate) fn none_passed(alloc: Global) -> Passed
    ensures { (t : ATrace) → Passes t 0 result }
{
    Passed {
        knowns: Listed::new(alloc),
        indices: Listed::new(alloc),
        writers: Places::new(alloc),
        join: 0,
    }
}

/// The places where joins stand, as the numbers that have a place.
pub(crate) fn join_places(alloc: Global, joins: &[Join]) -> Result<Places, NoMemory>
    ensures { IfOk result (λ places. JoinsAre joins.now places.entries.entries) }
{
    let mut places = Places::new(alloc);
    let mut rest = joins;
    'joins: loop {
        match rest.split_first() {
            None => return Ok(places),
            Some((join, others)) => {
                places.put(join.place, 0)?;
                rest = others;
            }
        }
    }
}

/// The value that an operation writes.
#[tactic(auto, using(crate::proofs::Writing::target_is))]
fn target(op: &TraceOp) -> Option<Value>
    ensures { (v : ℕ) → writes_it v op.now ≡ is_target v result }
{
    match op {
        TraceOp::Plain(op) => written_by(op),
        TraceOp::Split { .. } => None,
    }
}

/// The operation at a place is now the last that writes its value.
fn note_writer(writers: &mut Places, place: usize, op: &TraceOp) -> Result<(), NoMemory>
    ensures { OnOk result ((v : ℕ) → lookup (nat_eq v) writers.new.entries.entries ≡ (if writes_it v op.now then Some place else lookup (nat_eq v) writers.old.entries.entries)) }
{
    match target(op) {
        Some(value) => writers.put(value, place),
        None => Ok(()),
    }
}

/// The last join, where this was the last one above the place.
fn join_at(trace: &Trace, joins: &Places, place: usize, last: usize) -> usize
    requires joins { JoinsAre trace.now.joins joins.now.entries.entries }
    requires few { place < 2 ^ 32 }
    ensures { result ≡ (if is_join trace.now place then place else last) }
{
    match joins.look(place as u32) {
        Some(_) => place,
        None => last,
    }
}

/// Passes the operation at a place, of which this is known.
pub(crate) fn pass(
    passed: &mut Passed,
    trace: &Trace,
    joins: &Places,
    place: usize,
    op: &TraceOp,
    found: Known,
    index: Linear,
) -> Result<(), NoMemory>
    requires passed { Passes trace.now place passed.old }
    requires joins { JoinsAre trace.now.joins joins.now.entries.entries }
    requires there { slice_get trace.now.ops place ≡ Some op.now }
    requires found { found ≡ made place op.now (known (above_of trace.now place)) }
    requires index { index ≡ index_made place op.now (above_of trace.now place) }
    ensures { OnOk result (Passes trace.now (place + 1) passed.new) }
{
    passed.knowns.push(found)?;
    passed.indices.push(index)?;
    note_writer(&mut passed.writers, place, op)?;
    passed.join = join_at(trace, joins, passed.knowns.len(), passed.join);
    Ok(())
}
