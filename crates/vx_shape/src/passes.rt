// Passes that look at one graph at a time: what such a pass is, and a pass over the graphs of a flow.

ghost use Rattle.std.specs.Prelude.{IfOk, IfSome};
ghost use Rattle.vx_flow.specs.declared.graph.Graph.{Graph};
ghost use Rattle.vx_shape.specs.Flows.{Each, OrSame};

use std::alloc::Global;
use vx_base::listed::Listed;
use vx_base::outcome::NoMemory;
use vx_flow::copies::copied_graph;
use vx_flow::graph::Graph;

/// A pass that makes a graph of a graph.
pub trait GraphPass {
    /// What it may make of a graph.
    ghost makes: { Graph → Graph → Type 0 };

    /// What it makes of the graph of a function, which is given by its number; none where that is to stay as it is.
    fn made(&self, alloc: Global, function: usize, graph: &Graph) -> Result<Option<Graph>, NoMemory>
        ensures { IfOk result (λ found. IfSome found (λ new. makes graph.now new)) };
}

/// What a pass makes of each graph of a flow; a graph of which it makes none stays as it is.
pub fn each_made<P: GraphPass>(
    alloc: Global,
    pass: &P,
    graphs: &[Graph],
) -> Result<Listed<Graph>, NoMemory>
    ensures { IfOk result (λ new. Each (OrSame P.makes) graphs.now new) }
{
    let mut new = Listed::new(alloc);
    for (function, graph) in graphs.iter().enumerate() {
        new.push(made_or_same(alloc, pass, function, graph)?)?;
    }
    Ok(new)
}

fn made_or_same<P: GraphPass>(
    alloc: Global,
    pass: &P,
    function: usize,
    graph: &Graph,
) -> Result<Graph, NoMemory>
    ensures { IfOk result (λ new. OrSame P.makes graph.now new) }
{
    match pass.made(alloc, function, graph)? {
        Some(new) => Ok(new),
        None => copied_graph(alloc, graph),
    }
}
