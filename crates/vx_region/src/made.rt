// The blocks that are made for the copies of a placed trace, after Fisher, 1981: first those on the edges of its splits, then
// those on the edges of its joins. None is made where there is nothing to copy.

ghost use Rattle.std.specs.Prelude.{◌≡◌, ◌++◌, ◌&&◌, ◌∷◌, [], nat_lt, nat_le, map, slice_get, slice_index_or, IfOk, IfSome, IfNone, Some, None};
ghost use Rattle.std.specs.List.{flat_map, list_any};
ghost use Rattle.vx_dep.specs.declared.copies.EdgeCopies.{EdgeCopies};
ghost use Rattle.vx_dep.specs.Compensation.{word_at, at_splits_of, is_freed};
ghost use Rattle.vx_region.specs.Planned.{op_of, ops_at, cluster_of, clusters_at, dismissed_if, placed_at, made_of, made_at_splits, made_at_joins};

use std::alloc::Global;
use vx_base::listed::Listed;
use vx_base::outcome::NoMemory;
use vx_dep::copies::{EdgeCopies, Rejoin, word_at};
use vx_flow::graph::{Edge, Op};
use vx_flow::operands::dismissed;
use vx_flow::trace::{Join, Placed, TraceOp};
use vx_mixed::region::Made;

/// All of them.
pub(crate) fn made_blocks(
    alloc: Global,
    placed: &Placed,
    splits: &[EdgeCopies],
    rejoins: &[Rejoin],
) -> Result<Listed<Made>, NoMemory>
    requires { splits.now ≡ at_splits_of placed.now }
    ensures { IfOk result (λ made. made ≡ made_at_splits placed.now splits.now ++ made_at_joins placed.now placed.now.clustered.trace.joins rejoins.now) }
{
    let mut made = Listed::new(alloc);
    push_splits(alloc, &mut made, placed, splits)?;
    push_joins(alloc, &mut made, placed, splits, rejoins)?;
    Ok(made)
}

fn push_splits(
    alloc: Global,
    made: &mut Listed<Made>,
    placed: &Placed,
    splits: &[EdgeCopies],
) -> Result<(), NoMemory>
    ensures { IfOk result (λ _. made.new ≡ made.old ++ made_at_splits placed.now splits.now) }
{
    let ops = placed.clustered.trace.ops.as_slice();
    let mut rest = splits;
    'splits: loop {
        match rest.split_first() {
            None => return Ok(()),
            Some((split, others)) => {
                let copies = ops_at(alloc, ops, split.copies.as_slice())?;
                let clusters = clusters_at(alloc, placed, split.copies.as_slice())?;
                push_made(made, split.edge, copies, clusters)?;
                rest = others;
            }
        }
    }
}

fn push_joins(
    alloc: Global,
    made: &mut Listed<Made>,
    placed: &Placed,
    splits: &[EdgeCopies],
    rejoins: &[Rejoin],
) -> Result<(), NoMemory>
    requires { splits.now ≡ at_splits_of placed.now }
    ensures { IfOk result (λ _. made.new ≡ made.old ++ made_at_joins placed.now placed.now.clustered.trace.joins rejoins.now) }
{
    let mut joins_left = placed.clustered.trace.joins.as_slice();
    let mut rejoins_left = rejoins;
    'joins: loop {
        match joins_left.split_first() {
            None => return Ok(()),
            Some((join, joins_behind)) => match rejoins_left.split_first() {
                None => return Ok(()),
                Some((rejoin, rejoins_behind)) => {
                    push_join(alloc, made, placed, splits, join, rejoin)?;
                    joins_left = joins_behind;
                    rejoins_left = rejoins_behind;
                }
            },
        }
    }
}

/// Those on the edges of one join.
fn push_join(
    alloc: Global,
    made: &mut Listed<Made>,
    placed: &Placed,
    splits: &[EdgeCopies],
    join: &Join,
    rejoin: &Rejoin,
) -> Result<(), NoMemory>
    requires { splits.now ≡ at_splits_of placed.now }
    ensures { IfOk result (λ _. made.new ≡ made.old ++ flat_map (λ e. made_of e (placed_at placed.now rejoin.now.copies) (clusters_at placed.now.clustered rejoin.now.copies)) join.now.edges) }
{
    let mut rest = join.edges.as_slice();
    'edges: loop {
        match rest.split_first() {
            None => return Ok(()),
            Some((edge, others)) => {
                let copies = placed_at(alloc, placed, splits, rejoin.copies.as_slice())?;
                let clusters = clusters_at(alloc, placed, rejoin.copies.as_slice())?;
                push_made(made, *edge, copies, clusters)?;
                rest = others;
            }
        }
    }
}

/// A block on an edge, if there is anything to copy.
fn push_made(
    made: &mut Listed<Made>,
    edge: Edge,
    ops: Listed<Op>,
    clusters: Listed<u32>,
) -> Result<(), NoMemory>
    ensures { IfOk result (λ _. made.new ≡ made.old ++ made_of edge ops clusters) }
{
    if ops.len() > 0 {
        made.push(Made {
            edge,
            ops,
            clusters,
        })?;
    }
    Ok(())
}

/// The clusters of the operations at some places; a split is none.
fn clusters_at(alloc: Global, placed: &Placed, places: &[u32]) -> Result<Listed<u32>, NoMemory>
    ensures { IfOk result (λ list. list ≡ clusters_at placed.now.clustered places.now) }
{
    let mut clusters = Listed::new(alloc);
    let mut rest = places;
    'copy: loop {
        match rest.split_first() {
            None => return Ok(clusters),
            Some((place, others)) => {
                push_cluster(&mut clusters, placed, *place)?;
                rest = others;
            }
        }
    }
}

#[tactic(auto, using(crate::proofs::Pushing::no_cluster, crate::proofs::Pushing::one_cluster))]
fn push_cluster(clusters: &mut Listed<u32>, placed: &Placed, place: u32) -> Result<(), NoMemory>
    ensures { IfOk result (λ _. clusters.new ≡ clusters.old ++ cluster_of (slice_get placed.now.clustered.trace.ops place) (slice_index_or placed.now.clustered.clusters place 0)) }
{
    let cluster = word_at(placed.clustered.clusters.as_slice(), place);
    match op_there(placed.clustered.trace.ops.as_slice(), place) {
        None => Ok(()),
        Some(op) => push_cluster_of(clusters, op, cluster),
    }
}

fn push_cluster_of(clusters: &mut Listed<u32>, op: &TraceOp, cluster: u32) -> Result<(), NoMemory>
    ensures { IfOk result (λ _. clusters.new ≡ clusters.old ++ cluster_of (Some op.now) cluster) }
{
    match op {
        TraceOp::Plain(_) => {
            clusters.push(cluster)?;
            Ok(())
        }
        TraceOp::Split { .. } => Ok(()),
    }
}

/// The operations at some places, as they stand in the trace.
fn ops_at(alloc: Global, ops: &[TraceOp], places: &[u32]) -> Result<Listed<Op>, NoMemory>
    ensures { IfOk result (λ list. list ≡ ops_at ops.now places.now) }
{
    let mut copies = Listed::new(alloc);
    let mut rest = places;
    'copy: loop {
        match rest.split_first() {
            None => return Ok(copies),
            Some((place, others)) => {
                push_op(&mut copies, ops, *place)?;
                rest = others;
            }
        }
    }
}

#[tactic(auto, using(crate::proofs::Pushing::none_pushed, crate::proofs::Pushing::one_pushed))]
fn push_op(copies: &mut Listed<Op>, ops: &[TraceOp], place: u32) -> Result<(), NoMemory>
    ensures { IfOk result (λ _. copies.new ≡ copies.old ++ op_of (slice_get ops.now place)) }
{
    match op_there(ops, place) {
        None => Ok(()),
        Some(op) => push_plain(copies, op),
    }
}

fn push_plain(copies: &mut Listed<Op>, op: &TraceOp) -> Result<(), NoMemory>
    ensures { IfOk result (λ _. copies.new ≡ copies.old ++ op_of (Some op.now)) }
{
    match op {
        TraceOp::Plain(op) => {
            copies.push(*op)?;
            Ok(())
        }
        TraceOp::Split { .. } => Ok(()),
    }
}

/// The operation at a place.
fn op_there(ops: &[TraceOp], place: u32) -> Option<&TraceOp>
    ensures some { IfSome result (λ op. slice_get ops.now place ≡ Some op.now) }
    ensures none { IfNone result (slice_get ops.now place ≡ None) }
{
    ops.get(place as usize)
}

/// The operations at some places, as they stand in the region: with loads that a split above them freed dismissible.
fn placed_at(
    alloc: Global,
    placed: &Placed,
    splits: &[EdgeCopies],
    places: &[u32],
) -> Result<Listed<Op>, NoMemory>
    requires { splits.now ≡ at_splits_of placed.now }
    ensures { IfOk result (λ list. list ≡ placed_at placed.now places.now) }
{
    let mut copies = Listed::new(alloc);
    let mut rest = places;
    'copy: loop {
        match rest.split_first() {
            None => return Ok(copies),
            Some((place, others)) => {
                push_placed(&mut copies, placed, splits, *place)?;
                rest = others;
            }
        }
    }
}

#[tactic(auto, using(crate::proofs::Pushing::none_placed, crate::proofs::Pushing::one_placed))]
fn push_placed(
    copies: &mut Listed<Op>,
    placed: &Placed,
    splits: &[EdgeCopies],
    place: u32,
) -> Result<(), NoMemory>
    requires { splits.now ≡ at_splits_of placed.now }
    ensures { IfOk result (λ _. copies.new ≡ copies.old ++ map (dismissed_if (is_freed placed.now place)) (op_of (slice_get placed.now.clustered.trace.ops place))) }
{
    let freed = is_freed(placed, splits, place);
    match op_there(placed.clustered.trace.ops.as_slice(), place) {
        None => Ok(()),
        Some(op) => push_freed(copies, op, freed),
    }
}

fn push_freed(copies: &mut Listed<Op>, op: &TraceOp, freed: bool) -> Result<(), NoMemory>
    ensures { IfOk result (λ _. copies.new ≡ copies.old ++ map (dismissed_if freed) (op_of (Some op.now))) }
{
    match op {
        TraceOp::Plain(op) => {
            copies.push(dismissed_if(freed, *op))?;
            Ok(())
        }
        TraceOp::Split { .. } => Ok(()),
    }
}

/// Whether a split stood above the place that is not in an earlier word.
fn is_freed(placed: &Placed, splits: &[EdgeCopies], place: u32) -> bool
    requires { splits.now ≡ at_splits_of placed.now }
    ensures { result ≡ is_freed placed.now place }
{
    is_freed_by(placed.words.as_slice(), splits, place)
}

fn is_freed_by(words: &[u32], splits: &[EdgeCopies], place: u32) -> bool
    ensures { result ≡ list_any (λ (s : EdgeCopies). nat_lt s.split place && nat_le (word_at words.now place) (word_at words.now s.split)) splits.now }
{
    let word = word_at(words, place);
    for split in splits {
        if split.split < place && word <= word_at(words, split.split) {
            return true;
        }
    }
    false
}

fn dismissed_if(freed: bool, op: Op) -> Op
    ensures { result ≡ dismissed_if freed op }
{
    if freed { dismissed(op) } else { op }
}
