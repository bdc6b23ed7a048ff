// Delays and heights of small traces, worked out by hand from the table of delays.

use crate::traces::{PRINTING, SINKING, TWO_SPLITS, WITHOUT_ELSE};
use std::alloc::Global;
use std::test::Fail;
use vx_base::arithmetic::Code;
use vx_base::outcome::NoMemory;
use vx_dep::mode::Mode;
use vx_dep::{Deps, pairs};
use vx_flow::graph::{Op, Operand};
use vx_test_graphs::{Step, trace};
use vx_test_machines::{Kind, machine};

/// v2 = 4 * v1; load; store; load there; the other array; the next word.
const ACCESSES: [Step<'static>; 8] = [
    Step::Place(2, 0, 1),
    Step::Load(3, 0, 2),
    Step::Store(0, 2, 1),
    Step::Load(4, 0, 2),
    Step::Store(1, 2, 1),
    Step::More(5, 1, 1),
    Step::Place(6, 0, 5),
    Step::Store(0, 6, 1),
];

/// v2 = v1 + 1; v3 = v2 + 1; v2 = v1 * v1; v4 = v2 + v3; v3 = read; print v3; leave; leave; store; more; v7 = v1 + 1;
/// v4 = v1 + 1.
const MIXED: [Step<'static>; 12] = [
    Step::More(2, 1, 1),
    Step::More(3, 2, 1),
    Step::On(Code::Mpylu, 2, 1, Operand::Held(1)),
    Step::Sum(4, 2, 3),
    Step::Plain(Op::Input { to: 3 }),
    Step::Print(3),
    Step::Split(9, &[4]),
    Step::Split(9, &[]),
    Step::Store(0, 1, 1),
    Step::Plain(Op::More { to: 8 }),
    Step::More(7, 1, 1),
    Step::More(4, 1, 1),
];

/// v2 = v1 + 1; join; v3 = v1 + 1; leave; print v1; join; v4 = v1 + 1.
const JOINED: [Step<'static>; 5] = [
    Step::More(2, 1, 1),
    Step::More(3, 1, 1),
    Step::Split(9, &[]),
    Step::Print(1),
    Step::More(4, 1, 1),
];

/// v2 = v1 / v3; v2 = v1; v4 = v2 + v2; v2 = v4 or 7; a text; v12 = v2 of another cluster; leave; more.
const WRITTEN: [Step<'static>; 8] = [
    Step::On(Code::Div, 2, 1, Operand::Held(3)),
    Step::On(Code::Mov, 2, 1, Operand::Number(0)),
    Step::Sum(4, 2, 2),
    Step::Plain(Op::Select {
        to: 2,
        test: 9,
        left: Operand::Held(4),
        right: Operand::Number(7),
    }),
    Step::Plain(Op::Text { number: 0 }),
    Step::Plain(Op::Across { to: 12, from: 2 }),
    Step::Split(9, &[2, 12]),
    Step::Plain(Op::More { to: 12 }),
];

/// Two places, and the delay from the first to the second.
type Delay = (u32, u32, Option<u32>);

/// A trace and its joins, a machine, a mode, the heights, and some delays.
type Row = (
    &'static [Step<'static>],
    &'static [u32],
    Kind,
    Mode,
    &'static [u32],
    &'static [Delay],
);

const ROWS: [Row; 15] = [
    (
        &WITHOUT_ELSE,
        &[4],
        Kind::Vex,
        Mode::Free,
        &[3, 4, 2, 1, 2, 0],
        &[
            (0, 2, None),
            (1, 2, Some(2)),
            (2, 3, Some(1)),
            (2, 4, None),
            (3, 4, None),
            (0, 4, Some(1)),
            (4, 5, Some(2)),
            (4, 4, None),
            (5, 4, None),
            (4, 6, None),
        ],
    ),
    (
        &WITHOUT_ELSE,
        &[4],
        Kind::Vex,
        Mode::Barred,
        &[4, 6, 4, 3, 2, 0],
        &[
            (0, 2, Some(0)),
            (2, 4, Some(1)),
            (3, 4, Some(1)),
            (4, 5, Some(2)),
        ],
    ),
    (
        &SINKING,
        &[5],
        Kind::Narrow,
        Mode::Free,
        &[5, 2, 1, 3, 2, 1, 0],
        &[],
    ),
    (
        &PRINTING,
        &[],
        Kind::Narrow,
        Mode::Free,
        &[3, 1, 0, 1, 0],
        &[],
    ),
    (
        &PRINTING,
        &[],
        Kind::Narrow,
        Mode::Barred,
        &[3, 1, 1, 1, 0],
        &[],
    ),
    (
        &ACCESSES,
        &[],
        Kind::Vex,
        Mode::Free,
        &[],
        &[
            (1, 2, Some(0)),
            (2, 3, Some(1)),
            (1, 3, None),
            (3, 4, None),
            (2, 4, None),
            (2, 7, None),
            (3, 7, None),
        ],
    ),
    // values: written, read, and written again
    (
        &MIXED,
        &[10],
        Kind::Vex,
        Mode::Free,
        &[],
        &[
            (0, 1, Some(1)),
            (0, 2, Some(1)),
            (0, 3, None),
            (1, 2, Some(0)),
            (2, 3, Some(2)),
            (1, 4, Some(1)),
            (3, 4, Some(0)),
            (1, 5, None),
            (4, 5, Some(3)),
            (3, 11, Some(1)),
        ],
    ),
    // splits, and what can be seen
    (
        &MIXED,
        &[10],
        Kind::Vex,
        Mode::Free,
        &[],
        &[
            (5, 6, Some(0)),
            (4, 9, Some(1)),
            (5, 9, Some(1)),
            (6, 7, Some(1)),
            (6, 8, Some(1)),
            (7, 9, Some(1)),
            (6, 10, None),
            (6, 11, Some(1)),
            (7, 11, None),
        ],
    ),
    (
        &JOINED,
        &[1, 4],
        Kind::Vex,
        Mode::Free,
        &[],
        &[
            (0, 1, None),
            (0, 2, Some(1)),
            (0, 3, Some(1)),
            (1, 2, None),
            (1, 3, None),
            (1, 4, None),
        ],
    ),
    (
        &JOINED,
        &[1, 4],
        Kind::Vex,
        Mode::Barred,
        &[],
        &[
            (0, 1, Some(1)),
            (1, 2, Some(0)),
            (1, 3, None),
            (2, 3, Some(1)),
            (1, 4, Some(1)),
        ],
    ),
    (
        &WRITTEN,
        &[],
        Kind::Narrow,
        Mode::Free,
        &[],
        &[
            (0, 1, Some(8)),
            (0, 2, None),
            (1, 2, Some(1)),
            (2, 3, Some(1)),
            (1, 3, Some(1)),
            (3, 5, Some(1)),
            (4, 6, Some(0)),
            (5, 7, Some(1)),
            (6, 7, Some(1)),
        ],
    ),
    // two splits: by the branches of a word, but for a join between them, and where nothing passes a split
    (
        &TWO_SPLITS,
        &[],
        Kind::TwoBranches,
        Mode::Free,
        &[2, 2, 0, 0],
        &[
            (0, 2, Some(2)),
            (1, 2, None),
            (1, 3, Some(2)),
            (2, 3, Some(0)),
        ],
    ),
    (
        &TWO_SPLITS,
        &[],
        Kind::Vex,
        Mode::Free,
        &[3, 2, 1, 0],
        &[(2, 3, Some(1))],
    ),
    (
        &TWO_SPLITS,
        &[3],
        Kind::TwoBranches,
        Mode::Free,
        &[3, 2, 1, 0],
        &[(2, 3, Some(1))],
    ),
    (
        &TWO_SPLITS,
        &[],
        Kind::TwoBranches,
        Mode::Barred,
        &[3, 2, 1, 0],
        &[(1, 2, Some(0)), (2, 3, Some(1))],
    ),
];

fn have_heights(deps: &Deps, heights: &[u32]) -> bool {
    let mut place: u32 = 0;
    for height in heights {
        if deps.height(place) != *height {
            return false;
        }
        place = place.saturating_add(1);
    }
    true
}

fn have_delays(deps: &Deps, delays: &[Delay]) -> bool {
    delays.iter().all(|(above, below, delay)| deps.delay(*above, *below) == *delay)
}

fn holds(alloc: Global, row: &Row) -> Result<bool, NoMemory> {
    let (steps, joins, kind, mode, heights, delays) = row;
    let machine = machine(alloc, *kind)?;
    let trace = trace(alloc, steps, joins)?;
    let deps = pairs(alloc, &trace, &machine, *mode)?;
    Ok(have_heights(&deps, heights) && have_delays(&deps, delays))
}

fn first_wrong(alloc: Global) -> Result<usize, NoMemory> {
    for (number, row) in ROWS.iter().enumerate() {
        if !holds(alloc, row)? {
            return Ok(number);
        }
    }
    Ok(ROWS.len())
}

#[test]
fn delays_and_heights(rt: HostRuntime) -> Result<(), Fail> {
    assert_eq!(rt; first_wrong(rt.alloc())?, ROWS.len());
    Ok(())
}
