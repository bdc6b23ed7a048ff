// What an operation of a trace names: the values that it reads and writes, whether it can stand on cluster 0 alone, and
// which operation above it wrote a value. specs/Clusters.antt says the same.

ghost use Rattle.std.specs.Prelude.{◌≡◌, ◌++◌, slice_get};
ghost use Rattle.vx_flow.specs.Operands.{values_read};
ghost use Rattle.vx_linear.specs.Writers.{writes_there, writer};
ghost use Rattle.vx_linear.specs.Followed.{writes_it};
ghost use Rattle.vx_dep.specs.Delays.{reads_of, writes_of};
ghost use Rattle.vx_bug.specs.Clusters.{general_reads, general_writes, names_branch, is_bound, is_across, some_of};
ghost use Rattle.vx_bug.specs.Naming.{has_test};

use vx_base::arithmetic::Code;
use vx_dep::traits::read;
use vx_flow::graph::{Op, Value};
use vx_flow::operands::Reads;
use vx_flow::trace::TraceOp;
use vx_room::items::Item;

/// The values that an operation reads.
#[tactic(auto, using(crate::proofs::Named::reads_by))]
pub(crate) fn reads_of(op: &TraceOp) -> Reads
    ensures { reads_of op.now ≡ values_read result }
{
    read(op)
}

/// The general values that an operation reads, in the order of its operands.
#[derive(Clone, Copy)]
pub(crate) struct GeneralReads {
    pub(crate) left: Option<Value>,
    pub(crate) right: Option<Value>,
}

/// The general values that an operation reads: those behind its test, where it has one.
#[tactic(auto, using(crate::proofs::Named::behind_test, crate::proofs::Named::without_test))]
pub(crate) fn general_reads(op: &TraceOp) -> GeneralReads
    ensures { general_reads op.now ≡ some_of result.left ++ some_of result.right }
{
    let values = read(op);
    if has_test(op) {
        GeneralReads {
            left: values.second,
            right: values.third,
        }
    } else {
        GeneralReads {
            left: values.first,
            right: values.second,
        }
    }
}

fn has_test(op: &TraceOp) -> bool
    ensures { result ≡ has_test op.now }
{
    match op {
        TraceOp::Plain(Op::Select { .. }) => true,
        TraceOp::Plain(_) => false,
        TraceOp::Split { .. } => true,
    }
}

/// The value that an operation writes.
#[tactic(auto, using(crate::proofs::Named::writes_by))]
pub(crate) fn written(op: &TraceOp) -> Option<Value>
    ensures { some_of result ≡ writes_of op.now }
{
    vx_dep::traits::written(op)
}

/// The general value that an operation writes.
#[tactic(auto, using(crate::proofs::Named::general_writes_are, crate::proofs::Named::no_general_writes))]
pub(crate) fn general_result(op: &TraceOp) -> Option<Value>
    ensures { some_of result ≡ general_writes op.now }
{
    if Item::of_trace(op).writes_general() {
        written(op)
    } else {
        None
    }
}

/// Whether an operation can stand on cluster 0 alone.
pub(crate) fn is_bound(op: &TraceOp) -> bool
    ensures { result ≡ is_bound op.now }
{
    names_branch(op) || Item::of_trace(op).is_observable()
}

fn names_branch(op: &TraceOp) -> bool
    ensures { result ≡ names_branch op.now }
{
    match op {
        TraceOp::Plain(Op::Select { .. }) => true,
        TraceOp::Plain(Op::Compute { code, .. }) => matches!(code, Code::ToBranch(_)),
        TraceOp::Plain(_) => false,
        TraceOp::Split { .. } => true,
    }
}

/// Whether an operation is a copy from another cluster.
pub(crate) fn is_across(op: &TraceOp) -> bool
    ensures { result ≡ is_across op.now }
{
    match op {
        TraceOp::Plain(Op::Across { .. }) => true,
        _ => false,
    }
}

/// The last operation above a place that writes a value.
pub(crate) fn writer(ops: &[TraceOp], place: u32, value: Value) -> Option<u32>
    ensures { result ≡ writer ops.now place value }
{
    let mut above = place;
    'rise: while above > 0 {
        above -= 1;
        if writes_at(ops, above, value) {
            return Some(above);
        }
    }
    None
}

fn writes_at(ops: &[TraceOp], place: u32, value: Value) -> bool
    ensures { result ≡ writes_there value (slice_get ops.now place) }
{
    match ops.get(place as usize) {
        Some(op) => writes(op, value),
        None => false,
    }
}

#[tactic(auto, using(crate::proofs::Named::writes_some, crate::proofs::Named::writes_none))]
fn writes(op: &TraceOp, value: Value) -> bool
    ensures { result ≡ writes_it value op.now }
{
    match written(op) {
        Some(other) => value == other,
        None => false,
    }
}
