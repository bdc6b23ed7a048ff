// A graph of 4,000 blocks, its soundness, what is live in it, its back edges and its headers. They must be as they were worked
// out by hand.

ghost use Rattle.std.specs.Prelude.{◌≡◌, true};
ghost use Rattle.vx_flow.specs.Sound.{is_sound};

use crate::result::{Ended, ended_by};
use std::alloc::Global;
use vx_base::arithmetic::{Code, Compare};
use vx_base::listed::Listed;
use vx_base::outcome::NoMemory;
use vx_flow::graph::{Bank, Block, Exit, Graph, Op, Operand};
use vx_flow::{back_edges, headers, live};
use vx_sound::graph_is_sound;

const BLOCKS: u32 = 4000;

pub(crate) fn measure(alloc: Global) -> Ended {
    ended_by(is_as_due(alloc))
}

fn is_as_due(alloc: Global) -> Result<bool, NoMemory> {
    let graph = chain(alloc)?;
    found_in(alloc, &graph)
}

/// A graph where block 0 goes to block 1; every other one but the last splits to the next one and back to block 1; the last
/// one returns.
fn chain(alloc: Global) -> Result<Graph, NoMemory> {
    Ok(Graph {
        blocks: blocks(alloc)?,
        banks: banks(alloc)?,
        parameters: Listed::new(alloc),
        arrays: Listed::new(alloc),
    })
}

/// Value 0 is a test, the others are numbers.
fn banks(alloc: Global) -> Result<Listed<Bank>, NoMemory> {
    let mut banks = Listed::new(alloc);
    banks.push(Bank::Branch)?;
    for _ in 0..=BLOCKS {
        banks.push(Bank::General)?;
    }
    Ok(banks)
}

fn blocks(alloc: Global) -> Result<Listed<Block>, NoMemory> {
    let mut blocks = Listed::new(alloc);
    for number in 0..BLOCKS {
        blocks.push(block(alloc, number)?)?;
    }
    Ok(blocks)
}

fn block(alloc: Global, number: u32) -> Result<Block, NoMemory> {
    Ok(Block {
        ops: ops(alloc, number)?,
        exit: exit(number),
    })
}

fn exit(number: u32) -> Exit {
    if number == 0 {
        Exit::Goto(1)
    } else if number == BLOCKS - 1 {
        Exit::Return(Operand::Held(1))
    } else {
        Exit::Split {
            test: 0,
            yes: number.wrapping_add(1),
            no: 1,
        }
    }
}

/// Each block reads the value behind that of its number and writes the next one, and then tests value 1.
fn ops(alloc: Global, number: u32) -> Result<Listed<Op>, NoMemory> {
    let mut ops = Listed::new(alloc);
    ops.push(Op::Compute {
        code: Code::Add,
        to: number.wrapping_add(2),
        left: Operand::Held(number.wrapping_add(1)),
        right: Operand::Number(1),
    })?;
    ops.push(Op::Compute {
        code: Code::ToBranch(Compare::Lt),
        to: 0,
        left: Operand::Held(1),
        right: Operand::Number(10),
    })?;
    Ok(ops)
}

/// Whether the graph is sound, and what is found in it as it should be.
fn found_in(alloc: Global, graph: &Graph) -> Result<bool, NoMemory> {
    if !graph_is_sound(graph) {
        return Ok(false);
    }
    Ok(
        are_live_as_due(alloc, graph)?
            && are_back_edges_as_due(alloc, graph)?
            && are_headers_as_due(alloc, graph)?,
    )
}

/// Value 1 is live at the last block, value 2 is not at block 0.
fn are_live_as_due(alloc: Global, graph: &Graph) -> Result<bool, NoMemory> {
    let live = live(alloc, graph)?;
    Ok(live.at(BLOCKS - 1, 1) && !live.at(0, 2))
}

/// Every block but the first and the last has an edge back to block 1.
#[tactic(auto, using(vx_flow::proofs::SoundLeads::sound_leads_within))]
fn are_back_edges_as_due(alloc: Global, graph: &Graph) -> Result<bool, NoMemory>
    requires { is_sound graph.now ≡ true }
{
    let back = back_edges(alloc, graph)?;
    Ok(back.len() == BLOCKS as usize - 2)
}

/// Block 1 is the one header.
#[tactic(auto, using(vx_flow::proofs::SoundLeads::sound_leads_within))]
fn are_headers_as_due(alloc: Global, graph: &Graph) -> Result<bool, NoMemory>
    requires { is_sound graph.now ≡ true }
{
    let headers = headers(alloc, graph)?;
    Ok(headers.as_slice() == [1].as_slice())
}
