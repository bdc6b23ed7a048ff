// The graphs and programs that constants say.

ghost use Rattle.std.specs.Prelude.{◌≡◌, ◌++◌, ◌∷◌, [], IfOk, map};
ghost use Rattle.vx_test_graphs.specs.Graphs.{op_of, listed, given, exit_of, block_of, graph_of, program_of};

use crate::shapes::{Act, Part, Shape, Way, Whole};
use std::alloc::Global;
use vx_base::listed::{Bytes, Listed, copied};
use vx_base::outcome::NoMemory;
use vx_flow::graph::{Block, Exit, Flow, Graph, Op, Operand};

/// The operation.
pub fn op(act: &Act) -> Op
    ensures { result ≡ op_of act.now }
{
    match *act {
        Act::On(code, to, left, right) => Op::Compute {
            code,
            to,
            left: Operand::Held(left),
            right,
        },
        Act::Load(to, array, place) => Op::Load {
            to,
            array,
            place,
            dismissible: false,
        },
        Act::Store(array, place, from) => Op::Store { array, place, from },
        Act::Select(to, test) => Op::Select {
            to,
            test,
            left: Operand::Number(1),
            right: Operand::Held(2),
        },
        Act::Plain(op) => op,
    }
}

fn ops(alloc: Global, acts: &[Act]) -> Result<Listed<Op>, NoMemory>
    ensures { IfOk result (λ ops. ops ≡ map op_of acts.now) }
{
    let mut list = Listed::new(alloc);
    for act in acts {
        list.push(op(act))?;
    }
    Ok(list)
}

fn add_given(list: &mut Listed<Operand>, argument: Option<Operand>) -> Result<(), NoMemory>
    ensures { IfOk result (λ _. list.new ≡ list.old ++ listed argument) }
{
    match argument {
        Some(operand) => {
            list.push(operand)?;
            Ok(())
        }
        None => Ok(()),
    }
}

fn given(
    alloc: Global,
    first: Option<Operand>,
    second: Option<Operand>,
) -> Result<Listed<Operand>, NoMemory>
    ensures { IfOk result (λ list. list ≡ given first second) }
{
    let mut list = Listed::new(alloc);
    add_given(&mut list, first)?;
    add_given(&mut list, second)?;
    Ok(list)
}

fn exit(alloc: Global, way: &Way) -> Result<Exit, NoMemory>
    ensures { IfOk result (λ exit. exit ≡ exit_of way.now) }
{
    match way {
        Way::Goto(block) => Ok(Exit::Goto(*block)),
        Way::Split(test, yes, no) => Ok(Exit::Split {
            test: *test,
            yes: *yes,
            no: *no,
        }),
        Way::Call(function, first, second, result, next) => Ok(Exit::Call {
            function: *function,
            arguments: given(alloc, *first, *second)?,
            result: *result,
            next: *next,
        }),
        Way::Return(operand) => Ok(Exit::Return(*operand)),
        Way::Ends(trap) => Ok(Exit::Ends(*trap)),
    }
}

fn block(alloc: Global, part: &Part) -> Result<Block, NoMemory>
    ensures { IfOk result (λ block. block ≡ block_of part.now) }
{
    let ops = ops(alloc, part.0)?;
    let exit = exit(alloc, &part.1)?;
    Ok(Block { ops, exit })
}

fn blocks(alloc: Global, parts: &[Part]) -> Result<Listed<Block>, NoMemory>
    ensures { IfOk result (λ blocks. blocks ≡ map block_of parts.now) }
{
    let mut list = Listed::new(alloc);
    for part in parts {
        list.push(block(alloc, part)?)?;
    }
    Ok(list)
}

/// The graph of a shape.
pub fn graph(alloc: Global, shape: &Shape) -> Result<Graph, NoMemory>
    ensures { IfOk result (λ graph. graph ≡ graph_of shape.now) }
{
    let banks = copied(alloc, shape.banks)?;
    let parameters = copied(alloc, shape.parameters)?;
    let arrays = copied(alloc, shape.arrays)?;
    let blocks = blocks(alloc, shape.parts)?;
    Ok(Graph {
        blocks,
        banks,
        parameters,
        arrays,
    })
}

fn functions(alloc: Global, shapes: &[Shape]) -> Result<Listed<Graph>, NoMemory>
    ensures { IfOk result (λ graphs. graphs ≡ map graph_of shapes.now) }
{
    let mut list = Listed::new(alloc);
    for shape in shapes {
        list.push(graph(alloc, shape)?)?;
    }
    Ok(list)
}

fn line_feed(alloc: Global) -> Result<Listed<Bytes>, NoMemory>
    ensures { IfOk result (λ texts. texts ≡ (10 ∷ []) ∷ []) }
{
    let line: Bytes = copied(alloc, b"\n")?;
    let mut texts = Listed::new(alloc);
    texts.push(line)?;
    Ok(texts)
}

/// The program.
pub fn program(alloc: Global, whole: &Whole) -> Result<Flow, NoMemory>
    ensures { IfOk result (λ flow. flow ≡ program_of whole.now) }
{
    let texts = line_feed(alloc)?;
    let globals = copied(alloc, whole.globals)?;
    let functions = functions(alloc, whole.functions)?;
    Ok(Flow {
        functions,
        globals,
        texts,
        main: whole.main,
    })
}
