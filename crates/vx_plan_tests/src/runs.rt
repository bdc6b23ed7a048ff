// Runs and counts of small programs, worked out by hand.

use std::alloc::Global;
use std::test::Fail;
use vx_base::arithmetic::{Code, Compare};
use vx_base::outcome::{NoMemory, Trap};
use vx_flow::graph::{Op, Operand};
use vx_profile::counts::Counts;
use vx_tally::{Ending, count, run_plain};
use vx_test_graphs::{Act, BANKS, Part, Shape, WITHOUT_ELSE, Way, Whole, program};

/// The program gives what 40 and 7 give.
const MAIN: Shape<'static> = Shape {
    parts: &[
        Part(
            &[],
            Way::Call(
                0,
                Some(Operand::Number(40)),
                Some(Operand::Number(7)),
                Some(0),
                1,
            ),
        ),
        Part(&[], Way::Return(Operand::Held(0))),
    ],
    banks: &BANKS,
    parameters: &[],
    arrays: &[],
};

const CHOICE: Whole<'static> = Whole {
    functions: &[WITHOUT_ELSE, MAIN],
    globals: &[],
    main: 1,
};

/// Reads v0 and prints v0 down to 1, each in a line.
const COUNTING: Shape<'static> = Shape {
    parts: &[
        Part(&[Act::Plain(Op::Input { to: 0 })], Way::Goto(1)),
        Part(
            &[Act::On(Code::ToBranch(Compare::Gt), 6, 0, Operand::Number(0))],
            Way::Split(6, 2, 3),
        ),
        Part(
            &[
                Act::Plain(Op::Decimal {
                    from: Operand::Held(0),
                }),
                Act::Plain(Op::Text { number: 0 }),
                Act::On(Code::Sub, 0, 0, Operand::Number(1)),
            ],
            Way::Goto(1),
        ),
        Part(&[], Way::Ends(Trap::Index)),
    ],
    banks: &BANKS,
    parameters: &[],
    arrays: &[],
};

const LOOP: Whole<'static> = Whole {
    functions: &[COUNTING],
    globals: &[],
    main: 0,
};

fn ends(
    alloc: Global,
    whole: &Whole,
    input: &[i32],
    blocks: u64,
    ending: Option<Ending>,
    out: &[u8],
) -> Result<bool, NoMemory> {
    let flow = program(alloc, whole)?;
    let ran = run_plain(alloc, &flow, input, blocks)?;
    Ok(ran.ending == ending && ran.out.as_slice() == out)
}

#[test]
fn plain_runs(rt: HostRuntime) -> Result<(), Fail> {
    let alloc = rt.alloc();
    let trap = Some(Ending::Traps(Trap::Index));
    assert!(rt; ends(alloc, &CHOICE, &[], 5, Some(Ending::Ends(1807)), b"")?);
    assert!(rt; ends(alloc, &LOOP, &[2], 7, trap, b"2\n1\n")?);
    assert!(rt; ends(alloc, &LOOP, &[2], 3, None, b"2\n")?);
    Ok(())
}

#[test]
fn a_run_without_meaning(rt: HostRuntime) -> Result<(), Fail> {
    let flow = program(rt.alloc(), &LOOP)?;
    let ran = run_plain(rt.alloc(), &flow, &[], 3)?;
    assert!(rt; ran.ending == Some(Ending::Wrong));
    Ok(())
}

/// A function, its blocks 0 to 3, and how often each is passed.
type Blocks = (u32, [u64; 4]);

/// A function, an edge of it, and how often it is passed.
type Passed = (u32, u32, u32, u64);

fn has_blocks(counts: &Counts, function: u32, wanted: &[u64]) -> bool {
    let mut block: u32 = 0;
    for number in wanted {
        if counts.of_block(function, block) != *number {
            return false;
        }
        block = block.saturating_add(1);
    }
    true
}

fn has_edges(counts: &Counts, edges: &[Passed]) -> bool {
    edges.iter().all(|(function, from, to, wanted)| counts.of_edge(*function, *from, *to)
        == *wanted)
}

fn has_counts(counts: &Counts, functions: &[Blocks], edges: &[Passed]) -> bool {
    functions
        .iter()
        .all(|(function, wanted)| has_blocks(counts, *function, wanted))
        && has_edges(counts, edges)
}

/// A program, its input, the most blocks, whether it ends within them, and what is counted.
type Row = (
    Whole<'static>,
    &'static [i32],
    u64,
    bool,
    &'static [Blocks],
    &'static [Passed],
);

const ROWS: [Row; 4] = [
    (
        CHOICE,
        &[],
        5,
        true,
        &[(0, [1, 0, 1, 1]), (1, [1, 1, 0, 0])],
        &[(0, 0, 3, 1), (0, 0, 1, 0), (1, 0, 1, 1)],
    ),
    // the edge behind the call is not passed yet
    (CHOICE, &[], 3, false, &[], &[(1, 0, 1, 0)]),
    (
        LOOP,
        &[2],
        100,
        true,
        &[(0, [1, 3, 2, 1])],
        &[(0, 2, 1, 2), (0, 1, 3, 1)],
    ),
    (LOOP, &[], 100, false, &[], &[]),
];

fn is_counted(alloc: Global, row: &Row) -> Result<bool, NoMemory> {
    let (whole, input, blocks, complete, functions, edges) = row;
    let flow = program(alloc, whole)?;
    let counted = count(alloc, &flow, input, *blocks)?;
    Ok(counted.complete == *complete && has_counts(&counted.counts, functions, edges))
}

fn first_wrong(alloc: Global) -> Result<usize, NoMemory> {
    for (number, row) in ROWS.iter().enumerate() {
        if !is_counted(alloc, row)? {
            return Ok(number);
        }
    }
    Ok(ROWS.len())
}

#[test]
fn counted_runs(rt: HostRuntime) -> Result<(), Fail> {
    assert_eq!(rt; first_wrong(rt.alloc())?, ROWS.len());
    Ok(())
}
