// Whether a trace keeps the conditions under which traces are planned, by one pass over its operations and its joins. What is
// tested is `is_plannable` of specs/Plannable.antt; that it gives the conditions is proved in proofs/Conditions.antt.

ghost use Rattle.std.specs.Prelude.{◌≡◌, ◌++◌};
ghost use Rattle.std.specs.List.{list_all};
ghost use Rattle.vx_flow.specs.Operands.{value_list, values_read};
ghost use Rattle.vx_dep.specs.Delays.{reads_of, writes_of};
ghost use Rattle.vx_plannable.specs.Plannable.{all_are_below, binds_none, names_below, is_plannable_op, is_free, ascend, are_within, is_plannable, is_there};

use vx_dep::traits::{read, written};
use vx_flow::graph::Value;
use vx_flow::operands::{Reads, binds};
use vx_flow::trace::{Join, Trace, TraceOp};

/// The most values of a graph of which each has a number for each of its copies.
const MOST_VALUES: u32 = 858993459;

/// Whether a trace can be planned where the homes are clusters of the machine.
pub fn is_plannable(trace: &Trace) -> bool
    ensures { result ≡ is_plannable trace.now }
{
    let count = trace.ops.len();
    are_plannable(trace.values, trace.ops.as_slice())
        && are_free(trace.fixed.as_slice())
        && trace.fixed.len() == count
        && ascend(0, trace.joins.as_slice())
        && are_within(count, trace.joins.as_slice())
        && trace.values <= MOST_VALUES
}

fn are_plannable(values: u32, ops: &[TraceOp]) -> bool
    ensures { result ≡ list_all (is_plannable_op values) ops.now }
{
    ops.iter().all(|op| is_plannable_op(values, op))
}

fn is_plannable_op(values: u32, op: &TraceOp) -> bool
    ensures { result ≡ is_plannable_op values op.now }
{
    binds_none(op) && names_below(values, op)
}

fn binds_none(op: &TraceOp) -> bool
    ensures { result ≡ binds_none op.now }
{
    match op {
        TraceOp::Plain(op) => binds(op).is_none(),
        TraceOp::Split { .. } => true,
    }
}

/// Whether an operation names values of the graph alone.
fn names_below(values: u32, op: &TraceOp) -> bool
    ensures { result ≡ names_below values op.now }
{
    reads_below(values, op) && writes_below(values, op)
}

#[tactic(auto, using(crate::proofs::Conditions::reads_are_below))]
fn reads_below(values: u32, op: &TraceOp) -> bool
    ensures { result ≡ all_are_below values (reads_of op.now) }
{
    are_below(values, &read(op))
}

#[tactic(auto, using(crate::proofs::Conditions::writes_are_below))]
fn writes_below(values: u32, op: &TraceOp) -> bool
    ensures { result ≡ all_are_below values (writes_of op.now) }
{
    is_below(values, written(op))
}

#[tactic(auto, using(crate::proofs::Conditions::both_below))]
fn are_below(values: u32, reads: &Reads) -> bool
    ensures { result ≡ all_are_below values (values_read reads.now) }
{
    is_below(values, reads.first) && two_below(values, reads.second, reads.third)
}

#[tactic(auto, using(crate::proofs::Conditions::both_below))]
fn two_below(values: u32, one: Option<Value>, other: Option<Value>) -> bool
    ensures { result ≡ all_are_below values (value_list one ++ value_list other) }
{
    is_below(values, one) && is_below(values, other)
}

fn is_below(values: u32, value: Option<Value>) -> bool
    ensures { result ≡ all_are_below values (value_list value) }
{
    match value {
        Some(value) => value < values,
        None => true,
    }
}

fn are_free(fixed: &[Option<u32>]) -> bool
    ensures { result ≡ list_all is_free fixed.now }
{
    fixed.iter().all(|cluster| is_free(cluster))
}

fn is_free(cluster: &Option<u32>) -> bool
    ensures { result ≡ is_free cluster.now }
{
    match cluster {
        None => true,
        Some(_) => false,
    }
}

/// Whether joins stand one below the other, from a place on.
fn ascend(least: u32, joins: &[Join]) -> bool
    ensures { result ≡ ascend least joins.now }
{
    match joins {
        [] => true,
        [join, others @ ..] => least <= join.place && ascend(join.place, others),
    }
}

fn are_within(count: usize, joins: &[Join]) -> bool
    ensures { result ≡ are_within count joins.now }
{
    joins.iter().all(|join| join.place as usize <= count)
}

/// Whether homes are among so many clusters.
pub fn are_there(clusters: u32, homes: &[Option<u32>]) -> bool
    ensures { result ≡ list_all (is_there clusters) homes.now }
{
    homes.iter().all(|home| is_there(clusters, home))
}

fn is_there(clusters: u32, home: &Option<u32>) -> bool
    ensures { result ≡ is_there clusters home.now }
{
    match home {
        None => true,
        Some(cluster) => *cluster < clusters,
    }
}
