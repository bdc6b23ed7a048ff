// What is live on routes worked out by hand.

ghost use Rattle.vx_flow.specs.Closing.{BeginWithin};

use crate::routes::{past_a_write, through_a_write};
use std::alloc::Global;
use std::test::Fail;
use vx_base::listed::Listed;
use vx_base::outcome::NoMemory;
use vx_flow::live_on;
use vx_flow::routes::Route;

/// A node, a value, and whether it is live there.
type Row = (u32, u32, bool);

const THROUGH_A_WRITE: [Row; 2] = [(0, 5, false), (1, 5, true)];

const PAST_IT: [Row; 4] = [(0, 5, true), (0, 6, true), (1, 6, true), (2, 6, false)];

fn are_live(alloc: Global, routes: &Listed<Route>, rows: &[Row]) -> Result<bool, NoMemory>
    requires { BeginWithin 2 routes.now }
{
    let live = live_on(alloc, 2, routes)?;
    Ok(
        rows.iter()
            .all(|(node, value, wanted)| live.at(*node, *value) == *wanted),
    )
}

#[test]
fn values_that_are_live_on_routes(rt: HostRuntime) -> Result<(), Fail> {
    let alloc = rt.alloc();
    let through = through_a_write(alloc)?;
    assert!(rt; are_live(alloc, &through, &THROUGH_A_WRITE)?);
    let past = past_a_write(alloc)?;
    assert!(rt; are_live(alloc, &past, &PAST_IT)?);
    Ok(())
}
