// The worked routes, which touch one value each.

ghost use Rattle.std.specs.Prelude.{◌≡◌, ◌<◌, ◌++◌, ◌∷◌, [], true, false, IfOk};
ghost use Rattle.vx_flow.specs.Closing.{BeginWithin};
ghost use Rattle.vx_plan_tests.specs.Routes.{touching, through_a_write, past_a_write};

use std::alloc::Global;
use vx_base::listed::{Listed, copied};
use vx_base::outcome::NoMemory;
use vx_flow::routes::{Route, Touch};

/// A route that touches one value at its end.
fn route(alloc: Global, from: u32, to: u32, touch: Touch) -> Result<Route, NoMemory>
    ensures { IfOk result (λ route. route ≡ touching from to touch) }
{
    let to = copied(alloc, &[to])?;
    let touches = copied(alloc, &[touch])?;
    Ok(Route { from, to, touches })
}

fn add(
    alloc: Global,
    routes: &mut Listed<Route>,
    from: u32,
    to: u32,
    touch: Touch,
) -> Result<(), NoMemory>
    requires from { from < 2 }
    requires within { BeginWithin 2 routes.old }
    ensures added { IfOk result (λ _. routes.new ≡ routes.old ++ touching from to touch ∷ []) }
    ensures within { IfOk result (λ _. BeginWithin 2 routes.new) }
{
    routes.push(route(alloc, from, to, touch)?)?;
    Ok(())
}

const fn reads(value: u32) -> Touch
    ensures { result ≡ record { value = value; reads = true } }
{
    Touch { value, reads: true }
}

const fn writes(value: u32) -> Touch
    ensures { result ≡ record { value = value; reads = false } }
{
    Touch {
        value,
        reads: false,
    }
}

/// A route from node 0 to node 1 writes value 5, and one from node 1 reads it and leads back.
pub fn through_a_write(alloc: Global) -> Result<Listed<Route>, NoMemory>
    ensures routes { IfOk result (λ routes. routes ≡ through_a_write) }
    ensures within { IfOk result (λ routes. BeginWithin 2 routes) }
{
    let mut routes = Listed::new(alloc);
    add(alloc, &mut routes, 0, 1, writes(5))?;
    add(alloc, &mut routes, 1, 0, reads(5))?;
    Ok(routes)
}

/// The same, and another route from node 0 to node 1, past the write, reads value 6.
pub fn past_a_write(alloc: Global) -> Result<Listed<Route>, NoMemory>
    ensures routes { IfOk result (λ routes. routes ≡ past_a_write) }
    ensures within { IfOk result (λ routes. BeginWithin 2 routes) }
{
    let mut routes = through_a_write(alloc)?;
    add(alloc, &mut routes, 0, 1, reads(6))?;
    Ok(routes)
}
