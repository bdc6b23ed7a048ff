// One step after the other a trace is picked by the counts of a profile and becomes a region, after Fisher, 1981, until no block
// is left. By specs/Regions.antt each step keeps the meaning of the graph, and leaves it settled for the machine.

ghost use Rattle.std.specs.Prelude.{◌≡◌, ◌<◌, IfOk, OnErr, length};
ghost use Rattle.vx_flow.specs.declared.graph.Graph.{Graph};
ghost use Rattle.vx_mixed.specs.Layout.{IsDone};
ghost use Rattle.vx_mixed.specs.Routes.{live_values};
ghost use Rattle.vx_mixed.specs.TraceOf.{CanTrace};
ghost use Rattle.vx_mixed.specs.Valid.{Valid};
ghost use Rattle.vx_trace.specs.Picked.{Picked};
ghost use Rattle.vx_sched.specs.Placement.{HaveRoomAlone};
ghost use Rattle.vx_region.specs.LiveEnds.{TellsLive};
ghost use Rattle.vx_region.specs.Owed.{IsPlacedWithin};
ghost use Rattle.vx_region.specs.Regions.{IsGraphOf, ReplacesAll, ReplacesOne};
ghost use Rattle.vx_region.specs.Stepping.{IsNext, IsNextBy, IsOnClusters, OnFinished, OnReplaced};

use crate::budget::Budget;
use crate::copies::assigned_operations_stand;
use crate::owed::Owed;
use crate::placed_trace::{PlacedTrace, place_within};
use crate::trace_plan::TracePlan;
use std::alloc::Global;
use vx_base::listed::{Listed, copied};
use vx_base::outcome::NoMemory;
use vx_bug::assign;
use vx_bug::clusters::Clusters;
use vx_flow::copies::copied_clustered;
use vx_flow::graph::BlockId;
use vx_flow::live_rows::Live;
use vx_flow::trace::{Clustered, Homes, Placed};
use vx_machine::Machine;
use vx_mixed::replacement::Replacement;
use vx_mixed::routes::live_at_blocks;
use vx_profile::counts::Counts;
use vx_replace::Mixed;
use vx_trace::{count_of_trace, pick};

/// Where a step leads.
#[derive(Drop)]
pub enum Step {
    /// No block is left.
    Finished,
    /// A region was made, by this plan.
    Replaced(TracePlan),
}

/// The graph of a function with all its blocks in regions, and the plan of each region, in the order in which they were made.
#[derive(Drop)]
pub struct Regions {
    /// The graph.
    pub mixed: Mixed,
    /// The plans.
    pub plans: Listed<TracePlan>,
}

/// A trace is picked by the counts and becomes a region: its operations get clusters, with copies of the values that stand on
/// others, and are placed in words, past splits and joins where the copies for that keep within the budget, which then rises by
/// them. Each general value that it names and that has no home gets one. `Finished` comes exactly where no block is left. The graph
/// is what a sound function's graph began as, after such steps for this machine; `steps_keep_the_graph` says that it stays so, and
/// that a step keeps the meaning. Without memory all stays as it was.
pub fn replace_one(
    alloc: Global,
    mixed: &mut Mixed,
    counts: &Counts,
    machine: &Machine,
    budget: &mut Budget,
) -> Result<Step, NoMemory>
    requires graph { (graph : Graph) × IsGraphOf machine.now graph mixed.old }
    ensures finished { IfOk result (λ step. OnFinished step (IsDone mixed.new × (mixed.new ≡ mixed.old) × (budget.new ≡ budget.old))) }
    ensures replaced { IfOk result (λ step. OnReplaced step (λ plan. ReplacesOne machine.now counts.now budget.old.cap mixed.old budget.old.used plan mixed.new budget.new.used)) }
    ensures same_cap { budget.new.cap ≡ budget.old.cap }
    ensures unchanged { OnErr result ((mixed.new ≡ mixed.old) × (budget.new ≡ budget.old)) }
{
    mixed.keeps_valid();
    let live = live_at_blocks(alloc, mixed.graph())?;
    replace_next(alloc, mixed, &live, counts, machine, budget)
}

/// The same, where these values are live where splits may leave.
fn replace_next(
    alloc: Global,
    mixed: &mut Mixed,
    live: &Live,
    counts: &Counts,
    machine: &Machine,
    budget: &mut Budget,
) -> Result<Step, NoMemory>
    requires graph { (graph : Graph) × IsGraphOf machine.now graph mixed.old }
    requires live { TellsLive mixed.old (live_values live.now) }
    ensures finished { IfOk result (λ step. OnFinished step (IsDone mixed.new × (mixed.new ≡ mixed.old) × (budget.new ≡ budget.old))) }
    ensures replaced { IfOk result (λ step. OnReplaced step (λ plan. ReplacesOne machine.now counts.now budget.old.cap mixed.old budget.old.used plan mixed.new budget.new.used)) }
    ensures same_cap { budget.new.cap ≡ budget.old.cap }
    ensures unchanged { OnErr result ((mixed.new ≡ mixed.old) × (budget.new ≡ budget.old)) }
{
    mixed.keeps_valid();
    match pick(alloc, mixed, counts)? {
        None => Ok(Step::Finished),
        Some(blocks) => {
            let plan = replace_picked(alloc, mixed, live, counts, blocks, machine, budget)?;
            Ok(Step::Replaced(plan))
        }
    }
}

/// All blocks become regions, one picked trace after the other, on the clusters of the machine. By the laws of this crate the
/// meaning of the graph is kept, and it is settled for the machine. Without memory the budget stays as it was.
pub fn all_regions(
    alloc: Global,
    mixed: Mixed,
    counts: &Counts,
    machine: &Machine,
    budget: &mut Budget,
) -> Result<Regions, NoMemory>
    requires graph { (graph : Graph) × IsGraphOf machine.now graph mixed }
    ensures regions { IfOk result (λ x. ReplacesAll machine.now counts.now budget.old.cap mixed budget.old.used x.plans x.mixed budget.new.used) }
    ensures same_cap { budget.new.cap ≡ budget.old.cap }
    ensures unchanged { OnErr result (budget.new ≡ budget.old) }
{
    let mut regions = mixed;
    let mut spent = *budget;
    match replace_all(alloc, &mut regions, counts, machine, &mut spent) {
        Ok(plans) => {
            *budget = spent;
            Ok(Regions {
                mixed: regions,
                plans,
            })
        }
        Err(error) => {
            drop(regions);
            Err(error)
        }
    }
}

/// All blocks become regions, one picked trace after the other. The plans of the regions come in that order. What is live where
/// splits may leave is found once, since no step changes it.
fn replace_all(
    alloc: Global,
    mixed: &mut Mixed,
    counts: &Counts,
    machine: &Machine,
    budget: &mut Budget,
) -> Result<Listed<TracePlan>, NoMemory>
    requires graph { (graph : Graph) × IsGraphOf machine.now graph mixed.old }
    ensures regions { IfOk result (λ plans. ReplacesAll machine.now counts.now budget.old.cap mixed.old budget.old.used plans mixed.new budget.new.used) }
    ensures same_cap { budget.new.cap ≡ budget.old.cap }
{
    mixed.keeps_valid();
    let live = live_at_blocks(alloc, mixed.graph())?;
    replace_each(alloc, mixed, &live, counts, machine, budget)
}

/// The same, where these values are live where splits may leave.
fn replace_each(
    alloc: Global,
    mixed: &mut Mixed,
    live: &Live,
    counts: &Counts,
    machine: &Machine,
    budget: &mut Budget,
) -> Result<Listed<TracePlan>, NoMemory>
    requires graph { (graph : Graph) × IsGraphOf machine.now graph mixed.old }
    requires live { TellsLive mixed.old (live_values live.now) }
    ensures regions { IfOk result (λ plans. ReplacesAll machine.now counts.now budget.old.cap mixed.old budget.old.used plans mixed.new budget.new.used) }
    ensures same_cap { budget.new.cap ≡ budget.old.cap }
{
    mixed.keeps_valid();
    assigned_operations_stand();
    let mut plans = Listed::new(alloc);
    'step: loop {
        match replace_next(alloc, mixed, live, counts, machine, budget)? {
            Step::Finished => return Ok(plans),
            Step::Replaced(plan) => plans.push(plan)?,
        }
    }
}

/// The region of a trace, what it takes the place of, and the copies so far with its own.
#[derive(Drop)]
pub struct Next {
    pub plan: TracePlan,
    pub replacement: Replacement,
    pub used: u32,
}

/// The picked blocks become a region.
fn replace_picked(
    alloc: Global,
    mixed: &mut Mixed,
    live: &Live,
    counts: &Counts,
    blocks: Listed<BlockId>,
    machine: &Machine,
    budget: &mut Budget,
) -> Result<TracePlan, NoMemory>
    requires valid { Valid mixed.old }
    requires graph { (graph : Graph) × IsGraphOf machine.now graph mixed.old }
    requires picked { Picked mixed.old counts.now blocks }
    requires live { TellsLive mixed.old (live_values live.now) }
    ensures replaced { IfOk result (λ plan. ReplacesOne machine.now counts.now budget.old.cap mixed.old budget.old.used plan mixed.new budget.new.used) }
    ensures same_cap { budget.new.cap ≡ budget.old.cap }
    ensures unchanged { OnErr result ((mixed.new ≡ mixed.old) × (budget.new ≡ budget.old)) }
{
    let Next {
        plan,
        replacement,
        used,
    } = next_of(alloc, mixed, live, counts, blocks, machine, *budget)?;
    match mixed.replace(alloc, replacement) {
        Ok(()) => {
            budget.used = used;
            Ok(plan)
        }
        Err(error) => {
            drop(plan);
            Err(error)
        }
    }
}

/// The region that the picked blocks become.
fn next_of(
    alloc: Global,
    mixed: &Mixed,
    live: &Live,
    counts: &Counts,
    blocks: Listed<BlockId>,
    machine: &Machine,
    budget: Budget,
) -> Result<Next, NoMemory>
    requires valid { Valid mixed.now }
    requires graph { (graph : Graph) × IsGraphOf machine.now graph mixed.now }
    requires picked { Picked mixed.now counts.now blocks }
    requires live { TellsLive mixed.now (live_values live.now) }
    ensures { IfOk result (λ next. IsNext machine.now counts.now budget.cap mixed.now budget.used next) }
{
    machine.keeps_ranges();
    assigned_operations_stand();
    let on = on_clusters(alloc, mixed, live, blocks.as_slice(), machine)?;
    match placed_twice(alloc, &on, machine, budget) {
        Ok(twice) => {
            let count = count_of_trace(mixed, counts, blocks.as_slice());
            let OnClusters { clustered, homes } = on;
            drop(clustered);
            Ok(next_by(mixed.function(), blocks, count, homes, twice))
        }
        Err(error) => {
            drop(on);
            Err(error)
        }
    }
}

/// A trace on its clusters, and the homes by then.
#[derive(Drop)]
pub struct OnClusters {
    pub clustered: Clustered,
    pub homes: Homes,
}

/// The trace of some blocks on the clusters that are assigned to its operations.
fn on_clusters(
    alloc: Global,
    mixed: &Mixed,
    live: &Live,
    blocks: &[BlockId],
    machine: &Machine,
) -> Result<OnClusters, NoMemory>
    requires valid { Valid mixed.now }
    requires graph { (graph : Graph) × IsGraphOf machine.now graph mixed.now }
    requires can { CanTrace mixed.now blocks.now }
    requires live { TellsLive mixed.now (live_values live.now) }
    ensures { IfOk result (λ x. IsOnClusters machine.now mixed.now blocks.now x) }
{
    let trace = mixed.trace_with(alloc, live, blocks)?;
    let clusters = assign(alloc, &trace, machine, mixed.homes());
    drop(trace);
    let Clusters {
        order: _,
        estimates: _,
        chosen: _,
        clustered,
        homes,
    } = clusters?;
    Ok(OnClusters { clustered, homes })
}

/// The lists of a placed trace, copied.
#[derive(Drop)]
struct PlacedCopy {
    clustered: Clustered,
    words: Listed<u32>,
}

fn placed_copy(alloc: Global, placed: &Placed) -> Result<PlacedCopy, NoMemory>
    ensures clustered { IfOk result (λ copy. copy.clustered ≡ placed.now.clustered) }
    ensures words { IfOk result (λ copy. copy.words ≡ placed.now.words) }
{
    let words = copied(alloc, placed.words.as_slice())?;
    let clustered = copied_clustered(alloc, &placed.clustered)?;
    Ok(PlacedCopy { clustered, words })
}

/// A placed trace for the plan of a region, and its lists once more for what takes the place of its blocks.
#[derive(Drop)]
struct PlacedTwice {
    trace: PlacedTrace,
    copy: PlacedCopy,
}

/// The placement of a trace on its clusters.
fn placed_twice(
    alloc: Global,
    on: &OnClusters,
    machine: &Machine,
    budget: Budget,
) -> Result<PlacedTwice, NoMemory>
    requires each { length on.now.clustered.clusters ≡ length on.now.clustered.trace.ops }
    requires alone { HaveRoomAlone machine.now on.now.homes on.now.clustered }
    ensures placed { IfOk result (λ x. IsPlacedWithin on.now.clustered machine.now on.now.homes budget.cap budget.used x.trace) }
    ensures clustered { IfOk result (λ x. x.copy.clustered ≡ x.trace.placed.clustered) }
    ensures words { IfOk result (λ x. x.copy.words ≡ x.trace.placed.words) }
{
    let trace = place_within(alloc, &on.clustered, &on.homes, machine, budget)?;
    match placed_copy(alloc, &trace.placed) {
        Ok(copy) => Ok(PlacedTwice { trace, copy }),
        Err(error) => {
            drop(trace);
            Err(error)
        }
    }
}

/// What is made of a placed trace: its plan, and what takes the place of its blocks.
fn next_by(
    function: u32,
    blocks: Listed<BlockId>,
    count: u64,
    homes: Homes,
    twice: PlacedTwice,
) -> Next
    requires clustered { twice.copy.clustered ≡ twice.trace.placed.clustered }
    requires words { twice.copy.words ≡ twice.trace.placed.words }
    ensures { IsNextBy function blocks count homes twice.trace result }
{
    let PlacedTwice { trace, copy } = twice;
    let PlacedTrace {
        mode,
        placed,
        owed,
        used,
    } = trace;
    let Owed {
        splits,
        rejoins,
        drains,
        last_drain,
        starts,
        made,
        copies: _,
    } = owed;
    let replacement = Replacement {
        trace: copy.clustered.trace,
        clusters: copy.clustered.clusters,
        words: copy.words,
        length: placed.length,
        drains,
        last_drain,
        rejoins: starts,
        made,
        homes,
    };
    let plan = TracePlan {
        function,
        blocks,
        count,
        mode,
        placed,
        splits,
        rejoins,
    };
    Next {
        plan,
        replacement,
        used,
    }
}
