// Steps on graphs that are written as constants, and what their plans have to be.

ghost use Rattle.std.specs.Prelude.{◌≡◌, true, IfOk, OnOk};
ghost use Rattle.vx_flow.specs.declared.graph.Graph.{Graph};
ghost use Rattle.vx_flow.specs.Sound.{is_sound};
ghost use Rattle.vx_mixed.specs.Valid.{CanBegin};
ghost use Rattle.vx_region.specs.Regions.{IsGraphOf};

use crate::begins::{begun, can_begin};
use crate::passes::{Passed, counts};
use std::alloc::Global;
use vx_base::arithmetic::Code;
use vx_base::outcome::NoMemory;
use vx_dep::copies::{EdgeCopies, Rejoin};
use vx_dep::mode::Mode;
use vx_flow::graph::{BlockId, Edge, Graph, Op, Operand, Value};
use vx_flow::trace::{Homes, Placed, TraceOp};
use vx_machine::Machine;
use vx_profile::counts::Counts;
use vx_region::laws::{graphs_begin_so, steps_keep_the_graph};
use vx_region::{Budget, Step, TracePlan, replace_one};
use vx_replace::Mixed;
use vx_sound::graph_is_sound;
use vx_test_graphs::{Act, Shape, graph, op};
use vx_test_machines::{Kind, machine};

/// What is owed at a split: its place, the edge by which it leaves, the places of what is copied onto that, and its empty cycles.
pub(crate) type AtSplit<'a> = (u32, Edge, &'a [u32], u32);

/// What is owed at a join: its block, the word at which it is entered, and the places of what is copied onto its edges.
pub(crate) type AtJoin<'a> = (BlockId, u32, &'a [u32]);

/// An operation of a trace, by its place.
pub(crate) type AtPlace = (u32, Act);

/// A plan, some of its operations, and some homes of values and how many copies there are by then.
#[derive(Clone, Copy)]
pub(crate) struct Wanted<'a> {
    pub(crate) blocks: &'a [BlockId],
    pub(crate) count: u64,
    pub(crate) mode: Mode,
    pub(crate) clusters: &'a [u32],
    pub(crate) ops: &'a [AtPlace],
    pub(crate) words: &'a [u32],
    pub(crate) length: u32,
    pub(crate) splits: &'a [AtSplit<'a>],
    pub(crate) rejoins: &'a [AtJoin<'a>],
    pub(crate) homes: &'a [(u32, u32)],
    pub(crate) used: u32,
}

/// A graph with its counts, a machine and how many copies there may be; then the plans of all steps, and the edges on which blocks
/// were made.
#[derive(Clone, Copy)]
pub(crate) struct Row<'a> {
    pub(crate) shape: Shape<'a>,
    pub(crate) passed: Passed<'a>,
    pub(crate) kind: Kind,
    pub(crate) cap: u32,
    pub(crate) plans: &'a [Wanted<'a>],
    pub(crate) made: &'a [Edge],
}

fn are_copies(found: &[EdgeCopies], wanted: &[AtSplit]) -> bool {
    found.len() == wanted.len()
        && found.iter().zip(wanted).all(|(copies, (split, edge, places, drain))| {
            copies.split == *split
                && copies.edge == *edge
                && copies.copies.as_slice() == *places
                && copies.drain == *drain
        })
}

fn are_rejoins(found: &[Rejoin], wanted: &[AtJoin]) -> bool {
    found.len() == wanted.len()
        && found.iter().zip(wanted).all(|(rejoin, (block, word, places))| {
            rejoin.block == *block && rejoin.word == *word && rejoin.copies.as_slice() == *places
        })
}

fn is_computed(found: &Op, code: Code, to: Value, left: Operand, right: Operand) -> bool {
    match found {
        Op::Compute {
            code: found_code,
            to: found_to,
            left: found_left,
            right: found_right,
        } => *found_code == code && *found_to == to && *found_left == left && *found_right == right,
        _ => false,
    }
}

fn is_copied(found: &Op, to: Value, from: Value) -> bool {
    match found {
        Op::Across {
            to: found_to,
            from: found_from,
        } => *found_to == to && *found_from == from,
        _ => false,
    }
}

/// Whether this is the wanted computation or the wanted copy to another cluster.
fn is_op(found: &Op, wanted: &Op) -> bool {
    match wanted {
        Op::Compute {
            code,
            to,
            left,
            right,
        } => is_computed(found, *code, *to, *left, *right),
        Op::Across { to, from } => is_copied(found, *to, *from),
        _ => false,
    }
}

fn has_op(ops: &[TraceOp], place: u32, wanted: &Act) -> bool {
    match ops.get(place as usize) {
        Some(TraceOp::Plain(found)) => is_op(found, &op(wanted)),
        _ => false,
    }
}

/// The operations, their clusters and words, and how many words there are.
fn is_placed(placed: &Placed, wanted: &Wanted) -> bool {
    let clustered = &placed.clustered;
    clustered.clusters.as_slice() == wanted.clusters
        && placed.words.as_slice() == wanted.words
        && placed.length == wanted.length
        && wanted.ops.iter().all(|(place, act)| has_op(clustered.trace.ops.as_slice(), *place, act))
}

fn have_homes(homes: &Homes, wanted: &[(u32, u32)]) -> bool {
    wanted.iter().all(|(value, home)| {
        match homes.clusters.as_slice().get(*value as usize) {
            Some(found) => *found == Some(*home),
            None => false,
        }
    })
}

fn is_wanted(plan: &TracePlan, wanted: &Wanted) -> bool {
    plan.function == 0
        && plan.blocks.as_slice() == wanted.blocks
        && plan.count == wanted.count
        && plan.mode == wanted.mode
        && is_placed(&plan.placed, wanted)
        && are_copies(plan.splits.as_slice(), wanted.splits)
        && are_rejoins(plan.rejoins.as_slice(), wanted.rejoins)
}

/// What the graph begins as, from which steps can be taken.
pub(crate) fn begun_for(alloc: Global, graph: &Graph, machine: &Machine) -> Result<Mixed, NoMemory>
    requires sound { is_sound graph.now ≡ true }
    requires begins { CanBegin graph.now }
    ensures { IfOk result (λ mixed. IsGraphOf machine.now graph.now mixed) }
{
    machine.keeps_ranges();
    graphs_begin_so();
    let mixed = begun(alloc, graph)?;
    Ok(mixed)
}

/// One step.
pub(crate) fn step(
    alloc: Global,
    mixed: &mut Mixed,
    counts: &Counts,
    machine: &Machine,
    budget: &mut Budget,
) -> Result<Step, NoMemory>
    requires { (graph : Graph) × IsGraphOf machine.now graph mixed.old }
    ensures { OnOk result ((graph : Graph) × IsGraphOf machine.now graph mixed.new) }
{
    steps_keep_the_graph();
    mixed.keeps_valid();
    match replace_one(alloc, mixed, counts, machine, budget)? {
        Step::Finished => Ok(Step::Finished),
        Step::Replaced(plan) => Ok(Step::Replaced(plan)),
    }
}

/// Whether a step makes a region by this plan, and copies up to this number.
fn steps_so(
    alloc: Global,
    mixed: &mut Mixed,
    counts: &Counts,
    machine: &Machine,
    budget: &mut Budget,
    wanted: &Wanted,
) -> Result<bool, NoMemory>
    requires { (graph : Graph) × IsGraphOf machine.now graph mixed.old }
    ensures { OnOk result ((graph : Graph) × IsGraphOf machine.now graph mixed.new) }
{
    match step(alloc, mixed, counts, machine, budget)? {
        Step::Finished => Ok(false),
        Step::Replaced(plan) => Ok(
            is_wanted(&plan, wanted)
                && have_homes(mixed.homes(), wanted.homes)
                && budget.used == wanted.used,
        ),
    }
}

/// Whether the next step finds no block.
fn is_over(
    alloc: Global,
    mixed: &mut Mixed,
    counts: &Counts,
    machine: &Machine,
    budget: &mut Budget,
) -> Result<bool, NoMemory>
    requires { (graph : Graph) × IsGraphOf machine.now graph mixed.old }
{
    match step(alloc, mixed, counts, machine, budget)? {
        Step::Finished => Ok(true),
        Step::Replaced(_) => Ok(false),
    }
}

/// Whether the steps make regions by these plans, one after the other, and then find no block.
fn step_on(
    alloc: Global,
    mixed: &mut Mixed,
    counts: &Counts,
    machine: &Machine,
    budget: &mut Budget,
    plans: &[Wanted],
) -> Result<bool, NoMemory>
    requires { (graph : Graph) × IsGraphOf machine.now graph mixed.old }
{
    match plans.split_first() {
        None => is_over(alloc, mixed, counts, machine, budget),
        Some((wanted, others)) => {
            if steps_so(alloc, mixed, counts, machine, budget, wanted)? {
                step_on(alloc, mixed, counts, machine, budget, others)
            } else {
                Ok(false)
            }
        }
    }
}

/// Whether these blocks and no others were made behind the first ones, on these edges.
fn are_made(mixed: &Mixed, first: u32, made: &[Edge]) -> bool {
    match made.split_first() {
        None => mixed.blocks() == first,
        Some((edge, others)) => {
            first < mixed.blocks()
                && mixed.made_on(first) == Some(*edge)
                && are_made(mixed, first + 1, others)
        }
    }
}

fn runs_so(
    alloc: Global,
    graph: &Graph,
    counts: &Counts,
    machine: &Machine,
    row: &Row,
) -> Result<bool, NoMemory>
    requires sound { is_sound graph.now ≡ true }
    requires begins { CanBegin graph.now }
{
    let mut mixed = begun_for(alloc, graph, machine)?;
    let mut budget = Budget::make(row.cap);
    let blocks = mixed.blocks();
    let steps = step_on(alloc, &mut mixed, counts, machine, &mut budget, row.plans)?;
    Ok(steps && are_made(&mixed, blocks, row.made))
}

/// Whether the steps of a row are as they have to be.
pub(crate) fn is_so(alloc: Global, row: &Row) -> Result<bool, NoMemory> {
    let machine = machine(alloc, row.kind)?;
    let counts = counts(alloc, &row.passed)?;
    let graph = graph(alloc, &row.shape)?;
    if !graph_is_sound(&graph) {
        return Ok(false);
    }
    if !can_begin(alloc, &graph)? {
        return Ok(false);
    }
    runs_so(alloc, &graph, &counts, &machine, row)
}
