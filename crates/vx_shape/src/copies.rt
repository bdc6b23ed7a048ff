// Copies of what a flow has beside its graphs. Each call fails only for want of memory.

ghost use Rattle.std.specs.Prelude.{◌≡◌, IfOk};
ghost use Rattle.vx_shape.specs.Flows.{with_graphs};

use std::alloc::Global;
use vx_base::listed::{Bytes, Listed, copied};
use vx_base::outcome::NoMemory;
use vx_flow::graph::{Flow, Graph};

/// A copy of texts.
fn copied_texts(alloc: Global, texts: &[Bytes]) -> Result<Listed<Bytes>, NoMemory>
    ensures { IfOk result (λ list. list ≡ texts.now) }
{
    let mut copies = Listed::new(alloc);
    for text in texts {
        copies.push(copied(alloc, text.as_slice())?)?;
    }
    Ok(copies)
}

/// A copy of a flow with other graphs.
pub fn with_graphs(alloc: Global, flow: &Flow, functions: Listed<Graph>) -> Result<Flow, NoMemory>
    ensures { IfOk result (λ copy. copy ≡ with_graphs flow.now functions) }
{
    let globals = copied(alloc, flow.globals.as_slice())?;
    let texts = copied_texts(alloc, flow.texts.as_slice())?;
    Ok(Flow {
        functions,
        globals,
        texts,
        main: flow.main,
    })
}
