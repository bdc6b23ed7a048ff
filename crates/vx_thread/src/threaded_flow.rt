// The graphs of a program with blocks copied to the ends of those that lead to them, as was looked for, and then narrowed, so that
// each copy goes one way. Where copies are not as is asked, or a graph would not have its shape, the flow stays as it is.

ghost use Rattle.std.specs.Prelude.{◌≡◌, true, List, IfOk, IfSome};
ghost use Rattle.vx_ast.specs.Tree.{Program};
ghost use Rattle.vx_flow.specs.Sound.{is_sound_flow};
ghost use Rattle.vx_lower.specs.FlowOf.{FlowOf};
ghost use Rattle.vx_shape.specs.Flows.{FlowStays};
ghost use Rattle.vx_shape.specs.Shape.{Shaped};
ghost use Rattle.vx_narrow.specs.Narrowing.{are_numbers};
ghost use Rattle.vx_flow.specs.declared.graph.Graph.{Graph};
ghost use Rattle.vx_thread.specs.Threading.{AreShaped, Copied, Steps, Threaded};

use crate::search::{Copies, copies_of, has_copies};
use std::alloc::Global;
use vx_base::listed::Listed;
use vx_base::outcome::NoMemory;
use vx_clean::chain_graph::laid;
use vx_clean::clean;
use vx_clean::link_test::is_laid_out;
use vx_flow::graph::{Flow, Graph};
use vx_narrow::narrowed_flow::{are_numbers, narrowed_functions};
use vx_shape::copies::with_graphs;
use vx_shape::origins::origins;
use vx_shape::passes::{GraphPass, each_made};
use vx_shape::shape_test::is_shaped;
use vx_sound::is_sound;

/// The graphs of a program in which no edge leads to a block that has little but a test, where what is known on each of its edges
/// decides that. Then they are cleaned; where there is no such block they are those that came.
pub fn thread(alloc: Global, flow: Flow) -> Result<Flow, NoMemory>
    requires { is_sound_flow flow ≡ true }
    ensures sound { IfOk result (λ threaded. is_sound_flow threaded ≡ true) }
    ensures flow { IfOk result (λ threaded. (p : Program) → FlowOf p flow → FlowOf p threaded) }
{
    match threaded_flow(alloc, &flow) {
        Ok(Some(threaded)) => {
            drop(flow);
            clean(alloc, threaded)
        }
        Ok(None) => Ok(flow),
        Err(error) => {
            drop(flow);
            Err(error)
        }
    }
}

/// The flow with edges that go past tests, where there are such.
fn threaded_flow(alloc: Global, flow: &Flow) -> Result<Option<Flow>, NoMemory>
    ensures sound { IfOk result (λ found. IfSome found (λ threaded. is_sound_flow threaded ≡ true)) }
    ensures flow { IfOk result (λ found. IfSome found (λ threaded. FlowStays flow.now threaded)) }
{
    if !are_numbers(flow.globals.as_slice()) {
        return Ok(None);
    }
    let wanted = copies_of(alloc, flow.functions.as_slice())?;
    if has_copies(wanted.as_slice()) {
        threaded_by(alloc, flow, wanted.as_slice())
    } else {
        Ok(None)
    }
}

fn threaded_by(alloc: Global, flow: &Flow, wanted: &[Copies]) -> Result<Option<Flow>, NoMemory>
    requires { are_numbers flow.now.globals ≡ true }
    ensures sound { IfOk result (λ found. IfSome found (λ threaded. is_sound_flow threaded ≡ true)) }
    ensures flow { IfOk result (λ found. IfSome found (λ threaded. FlowStays flow.now threaded)) }
{
    match threaded_again(alloc, wanted, flow.functions.as_slice())? {
        Some(functions) => with_sound_graphs(alloc, flow, functions),
        None => Ok(None),
    }
}

/// How many steps follow the first at most: as many as a loop has turns, and one that goes past its last test.
const MOST_STEPS: u32 = 9;

/// The graphs with what is wanted of each copied, and then narrowed, and so again as long as more is wanted, where all have their shape
/// then.
fn threaded_again(
    alloc: Global,
    wanted: &[Copies],
    graphs: &[Graph],
) -> Result<Option<Listed<Graph>>, NoMemory>
    ensures { IfOk result (λ found. IfSome found (λ threaded. Threaded graphs.now threaded)) }
{
    match threaded_once(alloc, wanted, graphs)? {
        Some(first) => threaded_on(alloc, graphs, first),
        None => Ok(None),
    }
}

/// The graphs that come of others with more copied, step by step, where all have their shape in the end.
fn threaded_on(
    alloc: Global,
    graphs: &[Graph],
    first: Listed<Graph>,
) -> Result<Option<Listed<Graph>>, NoMemory>
    requires { Steps graphs.now first }
    ensures { IfOk result (λ found. IfSome found (λ threaded. Threaded graphs.now threaded)) }
{
    let _graphs = graphs;
    let mut now = first;
    for _ in 0..MOST_STEPS {
        match next_of(alloc, now.as_slice())? {
            Some(next) => now = next,
            None => break,
        }
    }
    if are_shaped(alloc, now.as_slice())? {
        Ok(Some(now))
    } else {
        Ok(None)
    }
}

/// The graphs with more copied, if there is more, and then narrowed.
fn next_of(alloc: Global, graphs: &[Graph]) -> Result<Option<Listed<Graph>>, NoMemory>
    ensures { IfOk result (λ found. IfSome found (λ threaded. (old : List Graph) → Steps old graphs.now → Steps old threaded)) }
{
    let wanted = copies_of(alloc, graphs)?;
    if has_copies(wanted.as_slice()) {
        threaded_once(alloc, wanted.as_slice(), graphs)
    } else {
        Ok(None)
    }
}

/// The flow with other graphs, where it is sound.
fn with_sound_graphs(
    alloc: Global,
    flow: &Flow,
    functions: Listed<Graph>,
) -> Result<Option<Flow>, NoMemory>
    requires graphs { Threaded flow.now.functions functions }
    requires numbers { are_numbers flow.now.globals ≡ true }
    ensures sound { IfOk result (λ found. IfSome found (λ threaded. is_sound_flow threaded ≡ true)) }
    ensures flow { IfOk result (λ found. IfSome found (λ threaded. FlowStays flow.now threaded)) }
{
    let threaded = with_graphs(alloc, flow, functions)?;
    match is_sound(alloc, &threaded) {
        Ok(true) => Ok(Some(threaded)),
        Ok(false) => {
            drop(threaded);
            Ok(None)
        }
        Err(error) => {
            drop(threaded);
            Err(error)
        }
    }
}

/// The graphs with what is wanted of each copied, and then narrowed.
fn threaded_once(
    alloc: Global,
    wanted: &[Copies],
    graphs: &[Graph],
) -> Result<Option<Listed<Graph>>, NoMemory>
    ensures { IfOk result (λ found. IfSome found (λ threaded. (old : List Graph) → Steps old graphs.now → Steps old threaded)) }
{
    let between = each_made(alloc, &CopyPass { wanted }, graphs)?;
    let narrowed = narrowed_functions(alloc, between.as_slice());
    drop(between);
    narrowed
}

/// Whether graphs have their shape.
fn are_shaped(alloc: Global, graphs: &[Graph]) -> Result<bool, NoMemory>
    ensures { IfOk result (λ shaped. shaped ≡ true → AreShaped graphs.now) }
{
    for graph in graphs {
        if !has_shape(alloc, graph)? {
            return Ok(false);
        }
    }
    Ok(true)
}

fn has_shape(alloc: Global, graph: &Graph) -> Result<bool, NoMemory>
    ensures { IfOk result (λ shaped. shaped ≡ true → Shaped graph.now) }
{
    let origins = origins(alloc, graph.blocks.as_slice())?;
    Ok(is_shaped(origins.as_slice(), graph.blocks.as_slice()))
}

/// The pass over one graph: its blocks are copied as is wanted, where that is a layout of it.
#[derive(Drop)]
struct CopyPass<'a> {
    wanted: &'a [Copies],
}

impl<'a> GraphPass for CopyPass<'a> {
    ghost makes = { Copied };

    fn made(
        &self,
        alloc: Global,
        function: usize,
        graph: &Graph,
    ) -> Result<Option<Graph>, NoMemory> {
        match self.wanted.get(function) {
            Some(wanted) => copied_by(alloc, graph, wanted),
            None => Ok(None),
        }
    }
}

fn copied_by(alloc: Global, graph: &Graph, wanted: &Copies) -> Result<Option<Graph>, NoMemory>
    ensures { IfOk result (λ found. IfSome found (λ copied. Copied graph.now copied)) }
{
    let to = wanted.to.as_slice();
    let chains = wanted.chains.as_slice();
    if is_laid_out(to, graph.blocks.as_slice(), chains) {
        let copied = laid(alloc, graph, to, chains)?;
        Ok(Some(copied))
    } else {
        Ok(None)
    }
}
