// The values that are places of arrays that are no globals, or bases.

ghost use Rattle.std.specs.Prelude.{◌≡◌, ◌==◌, ℕ, false, length, replicate, IfOk};
ghost use Rattle.std.specs.List.{list_any};
ghost use Rattle.vx_flow.specs.declared.graph.Array.{Array as FlowArray};
ghost use Rattle.vx_flow.specs.declared.graph.Block.{Block};
ghost use Rattle.vx_flow.specs.Sound.{is_given_base, is_that};
ghost use Rattle.vx_select.specs.Known.{AreAddresses, Marks};
ghost use Rattle.vx_select.specs.Selected.{makes_address};

use std::alloc::Global;
use vx_base::outcome::NoMemory;
use vx_flow::arrays::is_local;
use vx_flow::graph::{Array, Block, Graph, Op, Value};

/// Which values of a graph are places of an array that is no global, or bases.
pub(crate) fn addresses(alloc: Global, graph: &Graph) -> Result<Vec<bool>, NoMemory>
    ensures { IfOk result (λ marks. AreAddresses graph.now marks.items) }
{
    let mut marks = none_marked(alloc, graph)?;
    mark_made(&mut marks, graph);
    mark_given(&mut marks, graph);
    Ok(marks)
}

fn none_marked(alloc: Global, graph: &Graph) -> Result<Vec<bool>, NoMemory>
    ensures { IfOk result (λ marks. marks.items ≡ replicate (length graph.now.banks) false) }
{
    let marks = vec![in alloc; false; graph.banks.len()]?;
    Ok(marks)
}

fn mark_made(marks: &mut Vec<bool>, graph: &Graph)
    ensures { Marks (λ v. list_any (λ (block : Block). list_any (makes_address graph.now.arrays v) block.ops) graph.now.blocks) marks.old.items marks.new.items }
{
    mark_blocks(marks, graph.arrays.as_slice(), graph.blocks.as_slice());
}

fn mark_given(marks: &mut Vec<bool>, graph: &Graph)
    ensures { Marks (is_given_base graph.now) marks.old.items marks.new.items }
{
    mark_bases(marks, graph.arrays.as_slice());
}

fn mark_blocks(marks: &mut Vec<bool>, arrays: &[Array], blocks: &[Block])
    ensures { Marks (λ v. list_any (λ (block : Block). list_any (makes_address arrays.now v) block.ops) blocks.now) marks.old.items marks.new.items }
{
    for block in blocks {
        mark_ops(marks, arrays, block.ops.as_slice());
    }
}

fn mark_ops(marks: &mut Vec<bool>, arrays: &[Array], ops: &[Op])
    ensures { Marks (λ v. list_any (makes_address arrays.now v) ops.now) marks.old.items marks.new.items }
{
    for op in ops {
        mark_op(marks, arrays, op);
    }
}

fn mark_op(marks: &mut Vec<bool>, arrays: &[Array], op: &Op)
    ensures { Marks (λ v. makes_address arrays.now v op.now) marks.old.items marks.new.items }
{
    match op {
        Op::Place { to, array, .. } => {
            if is_local(arrays, *array) && (*to as usize) < marks.len() {
                marks[*to as usize] = true;
            }
        }
        Op::PlaceIn { to, .. } => mark(marks, *to),
        Op::Base { to, .. } => mark(marks, *to),
        _ => {}
    }
}

fn mark(marks: &mut Vec<bool>, value: Value)
    ensures { Marks (λ v. value == v) marks.old.items marks.new.items }
{
    if (value as usize) < marks.len() {
        marks[value as usize] = true;
    }
}

/// The bases of arrays that were handed over.
fn mark_bases(marks: &mut Vec<bool>, arrays: &[Array])
    ensures { Marks (λ v. list_any (λ (array : FlowArray). is_that v array.base) arrays.now) marks.old.items marks.new.items }
{
    for array in arrays {
        mark_base(marks, array.base);
    }
}

fn mark_base(marks: &mut Vec<bool>, base: Option<Value>)
    ensures { Marks (λ v. is_that v base) marks.old.items marks.new.items }
{
    match base {
        Some(base) => mark(marks, base),
        None => {}
    }
}
