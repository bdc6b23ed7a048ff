// The graphs of a program with values that only ever hold one number read as that number, and splits by such values made jumps.
// In each graph the numbers are looked for and tested; a graph that does not pass, and a flow that would not be sound, stay as
// they are.

ghost use Rattle.std.specs.Prelude.{◌≡◌, true, if◌then◌else◌, IfOk, IfSome, map};
ghost use Rattle.vx_flow.specs.declared.graph.Op.TheVariants.{Select};
ghost use Rattle.vx_flow.specs.Effects.{is_one};
ghost use Rattle.vx_flow.specs.Sound.{is_sound_flow};
ghost use Rattle.vx_fold.specs.Folding.{folded, folded_block, folded_exit, folded_graph, folded_op, GraphFolds, numbers_of, select_by, settles_graph, split_by};
ghost use Rattle.vx_shape.specs.Flows.{FlowStays};

use crate::numbers::find_numbers;
use crate::settled::{number_of, settles_graph};
use std::alloc::Global;
use vx_base::arithmetic::Code;
use vx_base::listed::Listed;
use vx_base::outcome::NoMemory;
use vx_flow::copies::with_blocks;
use vx_flow::graph::{Block, BlockId, Exit, Flow, Graph, Op, Operand, Value};
use vx_flow::operands::{first_operand, second_operand, with_two};
use vx_shape::copies::with_graphs;
use vx_shape::origins::origins;
use vx_shape::passes::{GraphPass, each_made};
use vx_shape::shape_test::is_shaped;
use vx_sound::is_sound;

/// The flow with numbers in place of values that hold them, where it is sound.
pub fn folded_once(alloc: Global, flow: &Flow) -> Result<Option<Flow>, NoMemory>
    ensures sound { IfOk result (λ found. IfSome found (λ folded. is_sound_flow folded ≡ true)) }
    ensures flow { IfOk result (λ found. IfSome found (λ folded. FlowStays flow.now folded)) }
{
    let functions = each_made(alloc, &FoldPass, flow.functions.as_slice())?;
    let folded = with_graphs(alloc, flow, functions)?;
    if is_sound(alloc, &folded)? {
        Ok(Some(folded))
    } else {
        Ok(None)
    }
}

/// The pass over one graph: the numbers are looked for, and take the places of the values that hold them.
struct FoldPass;

impl GraphPass for FoldPass {
    ghost makes = { GraphFolds };

    fn made(
        &self,
        alloc: Global,
        _function: usize,
        graph: &Graph,
    ) -> Result<Option<Graph>, NoMemory> {
        let numbers = find_numbers(alloc, graph)?;
        folded_where_settled(alloc, graph, numbers.as_slice())
    }
}

fn folded_where_settled(
    alloc: Global,
    graph: &Graph,
    numbers: &[Option<i32>],
) -> Result<Option<Graph>, NoMemory>
    ensures { IfOk result (λ found. IfSome found (λ folded. GraphFolds graph.now folded)) }
{
    if settles_graph(numbers, graph) {
        folded_where_shaped(alloc, graph, numbers)
    } else {
        Ok(None)
    }
}

/// The graph with numbers in place of values that hold them, where it has its shape.
fn folded_where_shaped(
    alloc: Global,
    graph: &Graph,
    numbers: &[Option<i32>],
) -> Result<Option<Graph>, NoMemory>
    requires { settles_graph (numbers_of numbers.now) graph.now ≡ true }
    ensures { IfOk result (λ found. IfSome found (λ folded. GraphFolds graph.now folded)) }
{
    let folded = folded_graph(alloc, graph, numbers)?;
    let origins = origins(alloc, folded.blocks.as_slice())?;
    if is_shaped(origins.as_slice(), folded.blocks.as_slice()) {
        Ok(Some(folded))
    } else {
        Ok(None)
    }
}

fn folded_graph(alloc: Global, graph: &Graph, numbers: &[Option<i32>]) -> Result<Graph, NoMemory>
    ensures { IfOk result (λ new. new ≡ folded_graph (numbers_of numbers.now) graph.now) }
{
    let blocks = folded_blocks(alloc, graph.blocks.as_slice(), numbers)?;
    with_blocks(alloc, graph, blocks)
}

fn folded_blocks(
    alloc: Global,
    blocks: &[Block],
    numbers: &[Option<i32>],
) -> Result<Listed<Block>, NoMemory>
    ensures { IfOk result (λ folded. folded ≡ map (folded_block (numbers_of numbers.now)) blocks.now) }
{
    let mut folded = Listed::new(alloc);
    for block in blocks {
        folded.push(folded_block(alloc, block, numbers)?)?;
    }
    Ok(folded)
}

fn folded_block(alloc: Global, block: &Block, numbers: &[Option<i32>]) -> Result<Block, NoMemory>
    ensures { IfOk result (λ folded. folded ≡ folded_block (numbers_of numbers.now) block.now) }
{
    let ops = folded_ops(alloc, block.ops.as_slice(), numbers)?;
    let exit = folded_exit(alloc, &block.exit, numbers)?;
    Ok(Block { ops, exit })
}

fn folded_ops(alloc: Global, ops: &[Op], numbers: &[Option<i32>]) -> Result<Listed<Op>, NoMemory>
    ensures { IfOk result (λ folded. folded ≡ map (folded_op (numbers_of numbers.now)) ops.now) }
{
    let mut folded = Listed::new(alloc);
    for op in ops {
        folded.push(folded_op(op, numbers))?;
    }
    Ok(folded)
}

fn folded_op(op: &Op, numbers: &[Option<i32>]) -> Op
    ensures { result ≡ folded_op (numbers_of numbers.now) op.now }
{
    match op {
        Op::Select {
            to,
            test,
            left,
            right,
        } => folded_select(*to, *test, left, right, numbers),
        _ => with_two(
            op,
            folded(&first_operand(op), numbers),
            folded(&second_operand(op), numbers),
        ),
    }
}

fn folded_select(
    to: Value,
    test: Value,
    left: &Operand,
    right: &Operand,
    numbers: &[Option<i32>],
) -> Op
    ensures { result ≡ folded_op (numbers_of numbers.now) (Select to test left.now right.now) }
{
    let left = folded(left, numbers);
    let right = folded(right, numbers);
    select_by(number_of(numbers, test), to, test, left, right)
}

fn folded(operand: &Operand, numbers: &[Option<i32>]) -> Operand
    ensures { result ≡ folded (numbers_of numbers.now) operand.now }
{
    match operand {
        Operand::Held(value) => match number_of(numbers, *value) {
            Some(number) => Operand::Number(number),
            None => Operand::Held(*value),
        },
        Operand::Number(number) => Operand::Number(*number),
        Operand::Stack => Operand::Stack,
    }
}

fn select_by(known: Option<i32>, to: Value, test: Value, left: Operand, right: Operand) -> Op
    ensures { result ≡ select_by known to test left right }
{
    match known {
        Some(number) => Op::Compute {
            code: Code::Mov,
            to,
            left: if number == 1 { left } else { right },
            right: Operand::Number(0),
        },
        None => Op::Select {
            to,
            test,
            left,
            right,
        },
    }
}

fn folded_exit(alloc: Global, exit: &Exit, numbers: &[Option<i32>]) -> Result<Exit, NoMemory>
    ensures { IfOk result (λ folded. folded ≡ folded_exit (numbers_of numbers.now) exit.now) }
{
    match exit {
        Exit::Goto(next) => Ok(Exit::Goto(*next)),
        Exit::Split { test, yes, no } => {
            Ok(split_by(number_of(numbers, *test), *test, *yes, *no))
        }
        Exit::Call {
            function,
            arguments,
            result,
            next,
        } => {
            let arguments = folded_operands(alloc, arguments.as_slice(), numbers)?;
            Ok(Exit::Call {
                function: *function,
                arguments,
                result: *result,
                next: *next,
            })
        }
        Exit::Return(operand) => Ok(Exit::Return(folded(operand, numbers))),
        Exit::Ends(trap) => Ok(Exit::Ends(*trap)),
    }
}

fn split_by(known: Option<i32>, test: Value, yes: BlockId, no: BlockId) -> Exit
    ensures { result ≡ split_by known test yes no }
{
    match known {
        Some(number) => Exit::Goto(if number == 1 { yes } else { no }),
        None => Exit::Split { test, yes, no },
    }
}

fn folded_operands(
    alloc: Global,
    operands: &[Operand],
    numbers: &[Option<i32>],
) -> Result<Listed<Operand>, NoMemory>
    ensures { IfOk result (λ new. new ≡ map (folded (numbers_of numbers.now)) operands.now) }
{
    let mut new = Listed::new(alloc);
    for operand in operands {
        new.push(folded(operand, numbers))?;
    }
    Ok(new)
}
