// The clustered trace, laid down operation by operation, and where its joins stand then, by the definitions of
// specs/Laying.antt and specs/Copies.antt.

ghost use Rattle.std.specs.Prelude.{◌≡◌, ◌<◌, ◌-◌, [], IfOk, OnOk, length, map, min, if◌then◌else◌};
ghost use Rattle.vx_flow.specs.declared.trace.Join.{Join};
ghost use Rattle.vx_linear.specs.Followed.{is_join};
ghost use Rattle.vx_bug.specs.Copies.{pieces_of};
ghost use Rattle.vx_bug.specs.Ledgers.{homes_in};
ghost use Rattle.vx_bug.specs.Laying.{IsLaidOne, AreLaid, start_in};

use crate::cluster_copies::{Site, Standings, stand};
use crate::served::Served;
use std::alloc::{AllocError, Global};
use vx_base::listed::{Listed, copied};
use vx_base::outcome::NoMemory;
use vx_flow::graph::{Array, BlockId};
use vx_flow::trace::{Join, Trace};

/// What a clustered trace has of its trace: the joins, each where it stands then, the blocks and the arrays.
#[derive(Drop)]
pub(crate) struct Kept {
    pub(crate) joins: Listed<Join>,
    pub(crate) blocks: Listed<BlockId>,
    pub(crate) arrays: Listed<Array>,
}

pub(crate) fn no_standings(alloc: Global) -> Standings
    ensures { result ≡ record { ops = []; clusters = []; fixed = [] } }
{
    Standings {
        ops: Listed::new(alloc),
        clusters: Listed::new(alloc),
        fixed: Listed::new(alloc),
    }
}

/// Whether a join stands directly above the operation at a place.
fn is_join(trace: &Trace, place: usize) -> bool
    ensures { result ≡ is_join trace.now place }
{
    for join in trace.joins.as_slice() {
        if join.place as usize == place {
            return true;
        }
    }
    false
}

/// Behind a join no copy from above serves.
fn pass_join(served: &mut Vec<Served>, joined: bool)
    ensures { served.new.items ≡ (if joined then [] else served.old.items) }
{
    if joined {
        served.clear();
    }
}

/// What stands for the operation at a place.
fn lay_one(
    alloc: Global,
    trace: &Trace,
    homes: &[Option<u32>],
    chosen: &[u32],
    place: usize,
    served: &mut Vec<Served>,
    out: &mut Standings,
) -> Result<(), NoMemory>
    requires place { place < length trace.now.ops }
    requires chosen { length chosen.now ≡ length trace.now.ops }
    requires fixed { length trace.now.fixed ≡ length trace.now.ops }
    ensures { OnOk result (IsLaidOne trace.now (homes_in homes.now) chosen.now place served.old.items served.new.items out.old out.new) }
{
    pass_join(served, is_join(trace, place));
    let site = Site {
        values: trace.values,
        homes,
        cluster: chosen[place],
    };
    let op = &trace.ops.as_slice()[place];
    stand(alloc, &site, served, op, trace.fixed.as_slice()[place], out)
}

/// Lays down what stands for the operations of a trace, one after the other, into empty lists: also the places at which those
/// begin that stand for one operation of the trace, and the place behind the last.
#[tactic(auto, using(crate::proofs::Pieces::none_laid, crate::proofs::Pieces::step_laid, crate::proofs::Pieces::end_laid))]
pub(crate) fn lay_all(
    alloc: Global,
    trace: &Trace,
    homes: &[Option<u32>],
    chosen: &[u32],
    out: &mut Standings,
    starts: &mut Listed<u32>,
) -> Result<(), NoMemory>
    requires chosen { length chosen.now ≡ length trace.now.ops }
    requires fixed { length trace.now.fixed ≡ length trace.now.ops }
    requires out { out.old ≡ record { ops = []; clusters = []; fixed = [] } }
    requires starts { starts.old ≡ [] }
    ensures { OnOk result (AreLaid (pieces_of trace.now (homes_in homes.now) chosen.now) out.new starts.new) }
{
    let mut served = Vec::new(alloc);
    let mut place = 0;
    'lay: while place < trace.ops.len() {
        starts.push(out.ops.len() as u32)?;
        lay_one(alloc, trace, homes, chosen, place, &mut served, out)?;
        place += 1;
    }
    starts.push(out.ops.len() as u32)?;
    Ok(())
}

/// Where the operations begin that stand for the one at a place.
fn start_in(starts: &[u32], place: u32) -> u32
    ensures { result ≡ start_in starts.now place }
{
    let last = starts.len().saturating_sub(1);
    match starts.get(last.min(place as usize)) {
        Some(start) => *start,
        None => 0,
    }
}

/// The joins of a trace, each below what stands for the operations above it.
fn moved_joins(alloc: Global, joins: &[Join], starts: &[u32]) -> Result<Listed<Join>, AllocError>
    ensures { IfOk result (λ moved. moved ≡ map (λ (join : Join). record join { place = start_in starts.now join.place }) joins.now) }
{
    let mut moved = Listed::new(alloc);
    let mut rest = joins;
    'move_down: loop {
        match rest.split_first() {
            None => return Ok(moved),
            Some((join, others)) => {
                moved.push(Join {
                    place: start_in(starts, join.place),
                    block: join.block,
                    edges: copied(alloc, join.edges.as_slice())?,
                })?;
                rest = others;
            }
        }
    }
}

/// The lists of a clustered trace that are not laid down.
pub(crate) fn lists_kept(alloc: Global, trace: &Trace, starts: &[u32]) -> Result<Kept, NoMemory>
    ensures joins { IfOk result (λ kept. kept.joins ≡ map (λ (join : Join). record join { place = start_in starts.now join.place }) trace.now.joins) }
    ensures blocks { IfOk result (λ kept. kept.blocks ≡ trace.now.blocks) }
    ensures arrays { IfOk result (λ kept. kept.arrays ≡ trace.now.arrays) }
{
    let joins = moved_joins(alloc, trace.joins.as_slice(), starts)?;
    let blocks = copied(alloc, trace.blocks.as_slice())?;
    let arrays = copied(alloc, trace.arrays.as_slice())?;
    Ok(Kept {
        joins,
        blocks,
        arrays,
    })
}
