// Which functions a function reaches by calls, found as what is live on the routes of calls.

ghost use Rattle.std.specs.Prelude.{◌≡◌, ◌↔◌, ◌++◌, ◌<◌, ◌^◌, ℕ, length, IfOk, IsTrue};
ghost use Rattle.std.specs.List.{flat_map};
ghost use Rattle.vx_flow.specs.Live.{reading};
ghost use Rattle.vx_flow.specs.Rows.{lives};
ghost use Rattle.vx_inline.specs.Inlined.{Reaches};
ghost use Rattle.vx_inline.specs.Reaching.{call_route, call_routes, called_by, calls_of_block};

use std::alloc::Global;
use vx_base::listed::Listed;
use vx_base::outcome::NoMemory;
use vx_flow::graph::{Block, Exit, Flow, Graph};
use vx_flow::live_on;
use vx_flow::live_rows::Live;
use vx_flow::routes::{Route, Touch};

/// The functions that each function of a flow reaches by calls.
pub fn reached(alloc: Global, flow: &Flow) -> Result<Live, NoMemory>
    ensures exact { IfOk result (λ live. (f : ℕ) (g : ℕ) → IsTrue (lives live f g) ↔ Reaches flow.now f g) }
{
    let functions = flow.functions.len();
    let routes = routes_of(alloc, flow.functions.as_slice())?;
    live_on(alloc, functions, &routes)
}

/// The routes of calls.
fn routes_of(alloc: Global, functions: &[Graph]) -> Result<Listed<Route>, NoMemory>
    requires { length functions.now < 2 ^ 32 }
    ensures { IfOk result (λ routes. routes ≡ call_routes 0 functions.now) }
{
    let mut routes = Listed::new(alloc);
    for (index, graph) in functions.iter().enumerate() {
        let route = route_of(alloc, index as u32, graph)?;
        routes.push(route)?;
    }
    Ok(routes)
}

/// A function as a route to those that it calls.
fn route_of(alloc: Global, from: u32, graph: &Graph) -> Result<Route, NoMemory>
    ensures { IfOk result (λ route. route ≡ call_route from graph.now) }
{
    let mut to = Listed::new(alloc);
    push_callees(&mut to, graph.blocks.as_slice())?;
    let mut touches = Listed::new(alloc);
    read_all(&mut touches, to.as_slice())?;
    Ok(Route { from, to, touches })
}

/// Adds the functions that blocks call.
fn push_callees(to: &mut Listed<u32>, blocks: &[Block]) -> Result<(), NoMemory>
    ensures { IfOk result (λ _. to.new ≡ to.old ++ flat_map calls_of_block blocks.now) }
{
    for block in blocks {
        push_callee(to, &block.exit)?;
    }
    Ok(())
}

/// Adds the function that an exit calls.
fn push_callee(to: &mut Listed<u32>, exit: &Exit) -> Result<(), NoMemory>
    ensures { IfOk result (λ _. to.new ≡ to.old ++ called_by exit.now) }
{
    match exit {
        Exit::Call { function, .. } => to.push(*function)?,
        Exit::Goto(_) | Exit::Split { .. } | Exit::Return(_) | Exit::Ends(_) => {}
    }
    Ok(())
}

/// Adds that each of these is read.
fn read_all(touches: &mut Listed<Touch>, values: &[u32]) -> Result<(), NoMemory>
    ensures { IfOk result (λ _. touches.new ≡ touches.old ++ reading values.now) }
{
    for value in values {
        touches.push(Touch {
            value: *value,
            reads: true,
        })?;
    }
    Ok(())
}
