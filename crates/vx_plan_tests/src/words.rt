// Words of small traces, worked out by hand.

ghost use Rattle.vx_bug.specs.Further.{RoomForEach};

use crate::clusters::{SUMS, clusters_of};
use crate::traces::{PRINTING, SINKING, TWO_SPLITS, WITHOUT_ELSE};
use std::alloc::Global;
use std::test::Fail;
use vx_base::arithmetic::Code;
use vx_base::outcome::NoMemory;
use vx_bug::clusters::Clusters;
use vx_dep::mode::Mode;
use vx_flow::graph::Operand;
use vx_machine::Machine;
use vx_plannable::placed;
use vx_test_graphs::Step;
use vx_test_machines::{Kind, machine};

/// The `if` without `else` up to the product, with the join behind the sum.
const WITHOUT_TOTAL: [Step<'static>; 5] = [
    Step::More(3, 1, 5),
    Step::Below(6, 1, 10),
    Step::Split(6, &[1, 2, 3]),
    Step::More(2, 2, 1),
    Step::On(Code::Mpylu, 4, 3, Operand::Held(1)),
];

/// p8 = v1 < 10; leave unless p8, three times.
const THREE_SPLITS: [Step<'static>; 4] = [
    Step::Below(8, 1, 10),
    Step::Split(8, &[]),
    Step::Split(8, &[]),
    Step::Split(8, &[]),
];

/// A trace, its joins and first homes, a machine, a mode, the words of the operations with their copies, and how many words there
/// are.
type Row = (
    &'static [Step<'static>],
    &'static [u32],
    &'static [Option<u32>],
    Kind,
    Mode,
    &'static [u32],
    u32,
);

const ROWS: [Row; 12] = [
    (
        &WITHOUT_ELSE,
        &[4],
        &[],
        Kind::Vex,
        Mode::Free,
        &[0, 0, 2, 3, 1, 4],
        5,
    ),
    (
        &WITHOUT_ELSE,
        &[4],
        &[],
        Kind::Vex,
        Mode::Barred,
        &[0, 0, 2, 3, 4, 6],
        7,
    ),
    (
        &WITHOUT_TOTAL,
        &[4],
        &[],
        Kind::Vex,
        Mode::Free,
        &[0, 0, 2, 3, 1],
        4,
    ),
    (
        &SINKING,
        &[5],
        &[],
        Kind::Narrow,
        Mode::Free,
        &[0, 1, 4, 2, 3, 5, 6],
        7,
    ),
    (
        &PRINTING,
        &[],
        &[],
        Kind::Narrow,
        Mode::Free,
        &[0, 1, 3, 2, 4],
        5,
    ),
    (
        &PRINTING,
        &[],
        &[],
        Kind::Narrow,
        Mode::Barred,
        &[0, 1, 2, 3, 4],
        5,
    ),
    // the sums of two clusters, the copy of one of them, and the sum of both
    (
        &SUMS,
        &[],
        &[None, Some(0), Some(1)],
        Kind::TwoNarrow,
        Mode::Free,
        &[0, 0, 1, 2],
        3,
    ),
    (&[], &[], &[], Kind::Vex, Mode::Free, &[], 0),
    // two splits in a word where it has two branches, and never three
    (
        &TWO_SPLITS,
        &[],
        &[],
        Kind::TwoBranches,
        Mode::Free,
        &[0, 0, 2, 2],
        3,
    ),
    (
        &TWO_SPLITS,
        &[],
        &[],
        Kind::Vex,
        Mode::Free,
        &[0, 0, 2, 3],
        4,
    ),
    (
        &TWO_SPLITS,
        &[],
        &[],
        Kind::TwoBranches,
        Mode::Barred,
        &[0, 0, 2, 3],
        4,
    ),
    (
        &THREE_SPLITS,
        &[],
        &[],
        Kind::TwoBranches,
        Mode::Free,
        &[0, 2, 2, 3],
        4,
    ),
];

/// Whether the operations get these words, where each has room by itself.
fn get(alloc: Global, clusters: &Clusters, machine: &Machine, row: &Row) -> Result<bool, NoMemory>
    requires room { RoomForEach machine.now clusters.now }
{
    if clusters.clustered.clusters.len() != clusters.clustered.trace.ops.len() {
        return Ok(false);
    }
    let placed = placed(alloc, clusters, machine, row.4)?;
    Ok(placed.words.as_slice() == row.5 && placed.length == row.6)
}

fn holds(alloc: Global, row: &Row) -> Result<bool, NoMemory> {
    let machine = machine(alloc, row.3)?;
    match clusters_of(alloc, row.0, row.1, row.2, &machine)? {
        Some(clusters) => get(alloc, &clusters, &machine, row),
        None => Ok(false),
    }
}

fn first_wrong(alloc: Global) -> Result<usize, NoMemory> {
    for (number, row) in ROWS.iter().enumerate() {
        if !holds(alloc, row)? {
            return Ok(number);
        }
    }
    Ok(ROWS.len())
}

#[test]
fn words_of_traces(rt: HostRuntime) -> Result<(), Fail> {
    assert_eq!(rt; first_wrong(rt.alloc())?, ROWS.len());
    Ok(())
}
