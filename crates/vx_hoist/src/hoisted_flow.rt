// The graphs of a program with more operations before its loops, each of which always has a meaning and only writes a value that
// nothing reads. What is put is looked for and tested; a graph that does not pass, and a flow that would not be sound, stay as
// they are.

ghost use Rattle.std.specs.Prelude.{◌≡◌, ◌++◌, true, IfOk, IfSome};
ghost use Rattle.std.specs.List.{list_all};
ghost use Rattle.vx_ast.specs.Tree.{Program};
ghost use Rattle.vx_flow.specs.Effects.{reads};
ghost use Rattle.vx_flow.specs.Sound.{is_sound_flow};
ghost use Rattle.vx_lower.specs.FlowOf.{FlowOf};
ghost use Rattle.vx_shape.specs.Flows.{Each, FlowStays};
ghost use Rattle.vx_fold.specs.Thinning.{are_read, unread_of};
ghost use Rattle.vx_hoist.specs.Growing.{block_reads, is_silent, is_total, BlockGrows, GraphGrows};

use crate::search::{Addition, Aim, Found, find_all, has_additions, ops_at};
use std::alloc::Global;
use vx_base::listed::{Listed, copied};
use vx_base::outcome::NoMemory;
use vx_flow::copies::{copied_exit, with_blocks};
use vx_flow::graph::{Block, Flow, Graph, Op};
use vx_flow::operands::is_observable;
use vx_fold::reads::{are_reads_needed, exit_reads_needed, is_dropped};
use vx_shape::copies::with_graphs;
use vx_shape::origins::origins;
use vx_shape::passes::{GraphPass, each_made};
use vx_shape::shape_test::is_shaped;
use vx_sound::is_sound;

/// The graphs of a program, with operations put before loops where there are such.
#[derive(Drop)]
pub struct Hoisted {
    /// The graphs.
    pub flow: Flow,
    /// Whether operations were put.
    pub has_more: bool,
}

/// The graphs of a program with operations put at the end of the block before a loop, which compute what a turn of the loop computes
/// anew each time from values that the loop does not write. Nothing reads what they write, so the flow does what it did; the pass by
/// what is known of values reads it in place of what the loop computes. Where nothing is put the graphs are those that came.
pub fn hoist(alloc: Global, flow: Flow) -> Result<Hoisted, NoMemory>
    requires { is_sound_flow flow ≡ true }
    ensures sound { IfOk result (λ hoisted. is_sound_flow hoisted.flow ≡ true) }
    ensures flow { IfOk result (λ hoisted. (p : Program) → FlowOf p flow → FlowOf p hoisted.flow) }
{
    grown_or_same(alloc, flow, Aim::Before)
}

/// The graphs of a program with the next values of counters of loops computed under other names before the first test of a turn whose
/// both sides stay in the loop. Nothing reads them there either; the pass by what is known of values makes the counters moves of them.
pub fn advance(alloc: Global, flow: Flow) -> Result<Hoisted, NoMemory>
    requires { is_sound_flow flow ≡ true }
    ensures sound { IfOk result (λ advanced. is_sound_flow advanced.flow ≡ true) }
    ensures flow { IfOk result (λ advanced. (p : Program) → FlowOf p flow → FlowOf p advanced.flow) }
{
    grown_or_same(alloc, flow, Aim::Early)
}

fn grown_or_same(alloc: Global, flow: Flow, aim: Aim) -> Result<Hoisted, NoMemory>
    requires { is_sound_flow flow ≡ true }
    ensures sound { IfOk result (λ grown. is_sound_flow grown.flow ≡ true) }
    ensures flow { IfOk result (λ grown. (p : Program) → FlowOf p flow → FlowOf p grown.flow) }
{
    match grown_flow(alloc, &flow, aim) {
        Ok(Some(grown)) => {
            drop(flow);
            Ok(Hoisted {
                flow: grown,
                has_more: true,
            })
        }
        Ok(None) => Ok(Hoisted {
            flow,
            has_more: false,
        }),
        Err(error) => {
            drop(flow);
            Err(error)
        }
    }
}

/// The flow with more operations, where there are such and it is sound.
fn grown_flow(alloc: Global, flow: &Flow, aim: Aim) -> Result<Option<Flow>, NoMemory>
    ensures sound { IfOk result (λ found. IfSome found (λ grown. is_sound_flow grown ≡ true)) }
    ensures flow { IfOk result (λ found. IfSome found (λ grown. FlowStays flow.now grown)) }
{
    let found = find_all(alloc, flow.functions.as_slice(), aim)?;
    if has_additions(found.as_slice()) {
        grown_where_sound(alloc, flow, found.as_slice())
    } else {
        Ok(None)
    }
}

/// The flow with the operations that were looked for, where it is sound.
fn grown_where_sound(alloc: Global, flow: &Flow, found: &[Found]) -> Result<Option<Flow>, NoMemory>
    ensures sound { IfOk result (λ answer. IfSome answer (λ grown. is_sound_flow grown ≡ true)) }
    ensures flow { IfOk result (λ answer. IfSome answer (λ grown. FlowStays flow.now grown)) }
{
    let functions = each_made(alloc, &GrowPass { found }, flow.functions.as_slice())?;
    let grown = with_graphs(alloc, flow, functions)?;
    match is_sound(alloc, &grown) {
        Ok(true) => Ok(Some(grown)),
        Ok(false) => {
            drop(grown);
            Ok(None)
        }
        Err(error) => {
            drop(grown);
            Err(error)
        }
    }
}

/// The pass over one graph: what was looked for is put, where there is such and it passes.
#[derive(Drop)]
struct GrowPass<'a> {
    found: &'a [Found],
}

impl<'a> GraphPass for GrowPass<'a> {
    ghost makes = { GraphGrows };

    fn made(
        &self,
        alloc: Global,
        function: usize,
        graph: &Graph,
    ) -> Result<Option<Graph>, NoMemory> {
        match self.found.get(function) {
            Some(found) => grown_by(alloc, graph, found),
            None => Ok(None),
        }
    }
}

fn grown_by(alloc: Global, graph: &Graph, found: &Found) -> Result<Option<Graph>, NoMemory>
    ensures { IfOk result (λ answer. IfSome answer (λ grown. GraphGrows graph.now grown)) }
{
    if found.additions.is_empty() {
        return Ok(None);
    }
    grown_where_silent(
        alloc,
        graph,
        found.named.as_slice(),
        found.additions.as_slice(),
    )
}

fn grown_where_silent(
    alloc: Global,
    graph: &Graph,
    named: &[bool],
    additions: &[Addition],
) -> Result<Option<Graph>, NoMemory>
    ensures { IfOk result (λ found. IfSome found (λ grown. GraphGrows graph.now grown)) }
{
    match grown_blocks(alloc, named, graph.blocks.as_slice(), additions)? {
        Some(blocks) => grown_where_shaped(alloc, graph, named, blocks),
        None => Ok(None),
    }
}

/// The graph with blocks that have grown, where it has its shape.
fn grown_where_shaped(
    alloc: Global,
    graph: &Graph,
    named: &[bool],
    blocks: Listed<Block>,
) -> Result<Option<Graph>, NoMemory>
    requires { Each (BlockGrows (unread_of named.now)) graph.now.blocks blocks }
    ensures { IfOk result (λ found. IfSome found (λ grown. GraphGrows graph.now grown)) }
{
    let origins = origins(alloc, blocks.as_slice())?;
    if is_shaped(origins.as_slice(), blocks.as_slice()) {
        let grown = with_blocks(alloc, graph, blocks)?;
        Ok(Some(grown))
    } else {
        Ok(None)
    }
}

/// The blocks with what is put at their ends, where each passes.
fn grown_blocks(
    alloc: Global,
    named: &[bool],
    blocks: &[Block],
    additions: &[Addition],
) -> Result<Option<Listed<Block>>, NoMemory>
    ensures { IfOk result (λ found. IfSome found (λ grown. Each (BlockGrows (unread_of named.now)) blocks.now grown)) }
{
    let mut grown = Listed::new(alloc);
    for (place, block) in blocks.iter().enumerate() {
        match grown_block(alloc, named, block, additions, place)? {
            Some(new) => grown.push(new)?,
            None => return Ok(None),
        }
    }
    Ok(Some(grown))
}

/// The block at a place with what is put at its end, where it reads no value that is not named and only such values are written
/// there.
fn grown_block(
    alloc: Global,
    named: &[bool],
    block: &Block,
    additions: &[Addition],
    place: usize,
) -> Result<Option<Block>, NoMemory>
    ensures { IfOk result (λ found. IfSome found (λ grown. BlockGrows (unread_of named.now) block.now grown)) }
{
    let added = ops_at(alloc, additions, place)?;
    if reads_named(named, block) && are_silent(named, added.as_slice()) {
        let grown = with_end(alloc, block, added.as_slice())?;
        Ok(Some(grown))
    } else {
        Ok(None)
    }
}

/// The block with operations at its end.
fn with_end(alloc: Global, block: &Block, added: &[Op]) -> Result<Block, NoMemory>
    ensures ops { IfOk result (λ grown. grown.ops ≡ block.now.ops ++ added.now) }
    ensures exit { IfOk result (λ grown. grown.exit ≡ block.now.exit) }
{
    let mut ops = copied(alloc, block.ops.as_slice())?;
    append(&mut ops, added)?;
    let exit = copied_exit(alloc, &block.exit)?;
    Ok(Block { ops, exit })
}

fn append(list: &mut Listed<Op>, ops: &[Op]) -> Result<(), NoMemory>
    ensures { IfOk result (λ _. list.new ≡ list.old ++ ops.now) }
{
    for op in ops {
        list.push(*op)?;
    }
    Ok(())
}

/// Whether a block reads values alone that are named.
fn reads_named(named: &[bool], block: &Block) -> bool
    ensures { result ≡ block_reads (unread_of named.now) block.now }
{
    ops_read_named(named, block.ops.as_slice()) && exit_reads_needed(named, &block.exit)
}

fn ops_read_named(named: &[bool], ops: &[Op]) -> bool
    ensures { result ≡ list_all (λ op. are_read (unread_of named.now) (reads op)) ops.now }
{
    for op in ops {
        if !are_reads_needed(named, op) {
            return false;
        }
    }
    true
}

/// Whether operations do nothing but write values that are not named.
fn are_silent(named: &[bool], ops: &[Op]) -> bool
    ensures { result ≡ list_all (is_silent (unread_of named.now)) ops.now }
{
    for op in ops {
        if !is_silent(named, op) {
            return false;
        }
    }
    true
}

fn is_silent(named: &[bool], op: &Op) -> bool
    ensures { result ≡ is_silent (unread_of named.now) op.now }
{
    is_total(op) && is_dropped(named, op)
}

/// Whether an operation has a meaning wherever it is executed.
fn is_total(op: &Op) -> bool
    ensures { result ≡ is_total op.now }
{
    match op {
        Op::Load { dismissible, .. } => *dismissible,
        Op::Store { .. } | Op::Across { .. } => false,
        _ => !is_observable(op),
    }
}
