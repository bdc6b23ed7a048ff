// Which values are live while diamonds are converted.

ghost use Rattle.std.specs.Prelude.{◌≡◌, ℕ, true, IfOk};
ghost use Rattle.vx_select.specs.Known.{told};
ghost use Rattle.vx_select.specs.Selected.{those_from, IsLiveness};

use std::alloc::Global;
use vx_base::listed::Listed;
use vx_base::outcome::NoMemory;
use vx_flow::graph::{BlockId, Graph, Value};
use vx_flow::live;
use vx_flow::live_rows::Live;

/// Which values are live at the start of each block.
#[derive(Drop)]
pub struct Known {
    /// The values that are live at the start of each block of a graph.
    pub rows: Live,
    /// For each block of now its number in that graph.
    pub numbers: Listed<BlockId>,
}

/// What is live in a graph.
pub(crate) fn known_of(alloc: Global, graph: &Graph) -> Result<Known, NoMemory>
    ensures { IfOk result (λ known. IsLiveness graph.now (told known)) }
{
    let numbers = numbers(alloc, graph.blocks.len() as u32)?;
    let rows = live(alloc, graph)?;
    Ok(Known { rows, numbers })
}

/// The numbers below a count.
fn numbers(alloc: Global, count: u32) -> Result<Listed<u32>, NoMemory>
    ensures { IfOk result (λ numbers. numbers ≡ those_from (λ v. true) 0 count) }
{
    let mut numbers = Listed::new(alloc);
    for number in 0..count {
        numbers.push(number)?;
    }
    Ok(numbers)
}

/// Whether a value is live at the start of a block.
pub(crate) fn lives(known: &Known, block: BlockId, value: Value) -> bool
    ensures { result ≡ told known.now block value }
{
    match known.numbers.as_slice().get(block as usize) {
        Some(number) => known.rows.at(*number, value),
        None => false,
    }
}
