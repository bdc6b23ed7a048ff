// The worked graphs: a loop, and an `if` without `else`. They are those of the examples of vx_motion, of which traces and replacements
// are proved.

ghost use Rattle.std.specs.Prelude.{◌≡◌, true, IfOk};
ghost use Rattle.vx_flow.specs.declared.graph.Op.TheVariants.{Compute};
ghost use Rattle.vx_flow.specs.declared.graph.Operand.TheVariants.{Held};
ghost use Rattle.vx_flow.specs.Sound.{is_sound};
ghost use Rattle.vx_motion.specs.CountingExample.{counting_banks, counting_blocks};
ghost use Rattle.vx_mixed.specs.FromGraph.{FromGraph};
ghost use Rattle.vx_motion.specs.TraceExample.{if_banks, if_blocks};

use std::alloc::Global;
use vx_base::arithmetic::{Code, Compare};
use vx_base::listed::{Listed, copied};
use vx_base::outcome::NoMemory;
use vx_flow::graph::{Bank, Block, Exit, Graph, Op, Operand};
use vx_replace::Mixed;

fn block(alloc: Global, ops: &[Op], exit: Exit) -> Result<Block, NoMemory>
    ensures { IfOk result (λ block. block ≡ record { ops = ops.now; exit = exit }) }
{
    let ops = copied(alloc, ops)?;
    Ok(Block { ops, exit })
}

fn compute(code: Code, to: u32, left: u32, right: Operand) -> Op
    ensures { result ≡ Compute code to (Held left) right }
{
    Op::Compute {
        code,
        to,
        left: Operand::Held(left),
        right,
    }
}

fn counting_blocks(alloc: Global) -> Result<Listed<Block>, NoMemory>
    ensures { IfOk result (λ blocks. blocks ≡ counting_blocks) }
{
    let test = compute(Code::ToBranch(Compare::Lt), 2, 0, Operand::Number(10));
    let split = Exit::Split {
        test: 2,
        yes: 3,
        no: 2,
    };
    let step = compute(Code::Add, 0, 0, Operand::Number(1));
    let mut blocks = Listed::new(alloc);
    blocks.push(block(alloc, &[Op::Input { to: 0 }], Exit::Goto(1))?)?;
    blocks.push(block(alloc, &[test], split)?)?;
    blocks.push(block(alloc, &[], Exit::Return(Operand::Held(0)))?)?;
    blocks.push(block(alloc, &[step], Exit::Goto(1))?)?;
    Ok(blocks)
}

/// v0 is read; while v0 < 10, v0 = v0 + 1; return v0, with the test in value 2. v1 is left.
pub fn counting(alloc: Global) -> Result<Graph, NoMemory>
    ensures blocks { IfOk result (λ graph. graph.blocks ≡ counting_blocks) }
    ensures banks { IfOk result (λ graph. graph.banks ≡ counting_banks) }
{
    let banks = [Bank::General, Bank::General, Bank::Branch];
    let banks = copied(alloc, &banks)?;
    let blocks = counting_blocks(alloc)?;
    Ok(Graph {
        blocks,
        banks,
        parameters: Listed::new(alloc),
        arrays: Listed::new(alloc),
    })
}

fn if_blocks(alloc: Global) -> Result<Listed<Block>, NoMemory>
    ensures { IfOk result (λ blocks. blocks ≡ if_blocks) }
{
    let sum = compute(Code::Add, 3, 1, Operand::Number(5));
    let test = compute(Code::ToBranch(Compare::Lt), 6, 1, Operand::Number(10));
    let step = compute(Code::Add, 2, 2, Operand::Number(1));
    let product = compute(Code::Mpylu, 4, 3, Operand::Held(1));
    let total = compute(Code::Add, 5, 2, Operand::Held(4));
    let split = Exit::Split {
        test: 6,
        yes: 1,
        no: 3,
    };
    let mut blocks = Listed::new(alloc);
    blocks.push(block(alloc, &[sum, test], split)?)?;
    blocks.push(block(alloc, &[step], Exit::Goto(2))?)?;
    blocks.push(block(alloc, &[product, total], Exit::Return(Operand::Held(5)))?)?;
    blocks.push(block(alloc, &[], Exit::Goto(2))?)?;
    Ok(blocks)
}

fn if_values(alloc: Global) -> Result<Listed<Bank>, NoMemory>
    ensures { IfOk result (λ banks. banks ≡ if_banks) }
{
    let banks = [
        Bank::General,
        Bank::General,
        Bank::General,
        Bank::General,
        Bank::General,
        Bank::General,
        Bank::Branch,
    ];
    Ok(copied(alloc, &banks)?)
}

/// v3 = v1 + 5; if (v1 < 10) v2 = v2 + 1; return v2 + v3 * v1, with the test in value 6.
pub fn without_else(alloc: Global) -> Result<Graph, NoMemory>
    ensures blocks { IfOk result (λ graph. graph.blocks ≡ if_blocks) }
    ensures banks { IfOk result (λ graph. graph.banks ≡ if_banks) }
{
    let banks = if_values(alloc)?;
    let parameters = copied(alloc, &[1, 2])?;
    let blocks = if_blocks(alloc)?;
    Ok(Graph {
        blocks,
        banks,
        parameters,
        arrays: Listed::new(alloc),
    })
}

/// What the `if` begins as.
#[tactic(auto, using(vx_motion::proofs::Traced::if_begins))]
pub fn if_begun(alloc: Global, graph: &Graph) -> Result<Mixed, NoMemory>
    requires sound { is_sound graph.now ≡ true }
    requires blocks { graph.now.blocks ≡ if_blocks }
    requires banks { graph.now.banks ≡ if_banks }
    ensures { IfOk result (λ mixed. FromGraph graph.now mixed) }
{
    Mixed::from_graph(alloc, graph)
}
