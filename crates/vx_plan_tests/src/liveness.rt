// What is live in a graph worked out by hand, an `if` without `else`.

use std::alloc::Global;
use std::test::Fail;
use vx_base::outcome::NoMemory;
use vx_flow::live;
use vx_flow::live_rows::Live;
use vx_test_graphs::{WITHOUT_ELSE, graph};

/// The values that are live at the start of each block, and of a block that is not there.
const ROWS: [&[u32]; 5] = [&[1, 2], &[1, 2, 3], &[1, 2, 3], &[1, 2, 3], &[]];

/// Whether a value is found where it is listed, and nowhere else.
fn finds(live: &Live, block: u32, values: &[u32]) -> bool {
    for value in 0..7 {
        if live.at(block, value) != values.contains(&value) {
            return false;
        }
    }
    true
}

fn are(live: &Live, rows: &[&[u32]]) -> bool {
    let mut block: u32 = 0;
    for values in rows {
        if live.values_at(block) != *values || !finds(live, block, values) {
            return false;
        }
        block = block.saturating_add(1);
    }
    true
}

fn are_live(alloc: Global) -> Result<bool, NoMemory> {
    let graph = graph(alloc, &WITHOUT_ELSE)?;
    let live = live(alloc, &graph)?;
    Ok(are(&live, &ROWS))
}

#[test]
fn values_that_are_live(rt: HostRuntime) -> Result<(), Fail> {
    assert!(rt; are_live(rt.alloc())?);
    Ok(())
}
