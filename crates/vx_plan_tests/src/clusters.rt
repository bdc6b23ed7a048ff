// Clusters and copies of small traces on two clusters that issue one operation a word each, worked out by hand. The copies to
// cluster 0 are the values 20, 21, .., those to cluster 1 40, 41, ..

ghost use Rattle.std.specs.Prelude.{IfOk, IfSome};
ghost use Rattle.vx_bug.specs.Further.{RoomForEach};

use std::alloc::Global;
use std::test::Fail;
use vx_base::listed::copied;
use vx_base::outcome::NoMemory;
use vx_bug::clusters::Clusters;
use vx_flow::graph::{Op, Operand, Value};
use vx_flow::trace::{Homes, Trace, TraceOp};
use vx_machine::Machine;
use vx_plannable::clustered;
use vx_test_graphs::{Step, trace};
use vx_test_machines::{Kind, machine};

/// The clusters of a trace, where values have these homes.
pub(crate) fn clusters_of(
    alloc: Global,
    steps: &[Step],
    joins: &[u32],
    at_first: &[Option<u32>],
    machine: &Machine,
) -> Result<Option<Clusters>, NoMemory>
    ensures { IfOk result (λ found. IfSome found (λ r. RoomForEach machine.now r)) }
{
    let trace = trace(alloc, steps, joins)?;
    let homes = Homes {
        clusters: copied(alloc, at_first)?,
    };
    clustered(alloc, &trace, machine, &homes)
}

/// v3 = v1 + 1; v4 = v2 + 1; v5 = v3 + v4.
pub(crate) const SUMS: [Step<'static>; 3] = [
    Step::More(3, 1, 1),
    Step::More(4, 2, 1),
    Step::Sum(5, 3, 4),
];

/// v2 = v1 + 1; v3 = v1 + 2.
const USES: [Step<'static>; 2] = [Step::More(2, 1, 1), Step::More(3, 1, 2)];

/// v2 = v1 + 1; v1 = v1 + 3; v3 = v1 + 2.
const WITH_WRITER: [Step<'static>; 3] = [
    Step::More(2, 1, 1),
    Step::More(1, 1, 3),
    Step::More(3, 1, 2),
];

/// v2 = v1 + v1.
const TWICE: [Step<'static>; 1] = [Step::Sum(2, 1, 1)];

/// v1 stands on cluster 1, and v2 and v3 on cluster 0.
const APART: [Option<u32>; 4] = [None, Some(1), Some(0), Some(0)];

/// An operation of the trace with its copies: the value that it writes, and the values and the number of which that is the sum, or
/// the value of which it is the copy.
#[derive(Clone, Copy, PartialEq, Eq)]
enum Seen {
    Sum(Value, Value, Value),
    More(Value, Value, i32),
    Copy(Value, Value),
}

fn sum_of(to: Value, left: Operand, right: Operand) -> Option<Seen> {
    match (left, right) {
        (Operand::Held(left), Operand::Held(right)) => Some(Seen::Sum(to, left, right)),
        (Operand::Held(left), Operand::Number(number)) => Some(Seen::More(to, left, number)),
        _ => None,
    }
}

fn as_seen(op: &TraceOp) -> Option<Seen> {
    match op {
        TraceOp::Plain(
            Op::Compute {
                to,
                left,
                right,
                ..
            },
        ) => sum_of(*to, *left, *right),
        TraceOp::Plain(Op::Across { to, from }) => Some(Seen::Copy(*to, *from)),
        _ => None,
    }
}

/// A trace, its joins and its first homes; then its operations with their copies, their clusters, the places of the joins, and
/// some homes.
type Row = (
    &'static [Step<'static>],
    &'static [u32],
    &'static [Option<u32>],
    &'static [Seen],
    &'static [u32],
    &'static [u32],
    &'static [(usize, Option<u32>)],
);

const ROWS: [Row; 6] = [
    (
        &SUMS,
        &[],
        &[None, Some(0), Some(1)],
        &[
            Seen::More(3, 1, 1),
            Seen::More(4, 2, 1),
            Seen::Copy(24, 4),
            Seen::Sum(5, 3, 24),
        ],
        &[0, 1, 0, 0],
        &[],
        &[(24, Some(0))],
    ),
    (
        &SUMS,
        &[],
        &[],
        &[
            Seen::More(3, 1, 1),
            Seen::More(4, 2, 1),
            Seen::Copy(24, 4),
            Seen::Sum(5, 3, 24),
        ],
        &[0, 1, 0, 0],
        &[],
        &[
            (0, None),
            (1, Some(0)),
            (2, Some(1)),
            (5, Some(0)),
            (24, Some(0)),
        ],
    ),
    // one copy serves two uses
    (
        &USES,
        &[],
        &APART,
        &[
            Seen::Copy(21, 1),
            Seen::More(2, 21, 1),
            Seen::More(3, 21, 2),
        ],
        &[0, 0, 0],
        &[],
        &[],
    ),
    // but none behind a join
    (
        &USES,
        &[1, 2],
        &APART,
        &[
            Seen::Copy(21, 1),
            Seen::More(2, 21, 1),
            Seen::Copy(21, 1),
            Seen::More(3, 21, 2),
        ],
        &[0, 0, 0, 0],
        &[2, 4],
        &[],
    ),
    // and none behind what writes the value
    (
        &WITH_WRITER,
        &[],
        &APART,
        &[
            Seen::Copy(21, 1),
            Seen::More(2, 21, 1),
            Seen::More(1, 1, 3),
            Seen::Copy(21, 1),
            Seen::More(3, 21, 2),
        ],
        &[0, 0, 1, 0, 0],
        &[],
        &[],
    ),
    // one serves both operands
    (
        &TWICE,
        &[],
        &APART,
        &[Seen::Copy(21, 1), Seen::Sum(2, 21, 21)],
        &[0, 0],
        &[],
        &[],
    ),
];

fn are_seen(ops: &[TraceOp], wanted: &[Seen]) -> bool {
    ops.len() == wanted.len()
        && ops
            .iter()
            .zip(wanted)
            .all(|(op, wanted)| as_seen(op) == Some(*wanted))
}

fn has_joins(trace: &Trace, places: &[u32]) -> bool {
    trace.joins.len() == places.len()
        && trace
            .joins
            .as_slice()
            .iter()
            .zip(places)
            .all(|(join, place)| join.place == *place)
}

fn has_homes(homes: &Homes, wanted: &[(usize, Option<u32>)]) -> bool {
    wanted.iter().all(|(value, home)| {
        match homes.clusters.as_slice().get(*value) {
            Some(found) => *found == *home,
            None => false,
        }
    })
}

fn are_as(clusters: &Clusters, row: &Row) -> bool {
    let (_, _, _, ops, places, joins, homes) = row;
    are_seen(clusters.clustered.trace.ops.as_slice(), ops)
        && clusters.clustered.clusters.as_slice() == *places
        && has_joins(&clusters.clustered.trace, joins)
        && has_homes(&clusters.homes, homes)
}

fn holds(alloc: Global, machine: &Machine, row: &Row) -> Result<bool, NoMemory> {
    match clusters_of(alloc, row.0, row.1, row.2, machine)? {
        Some(clusters) => Ok(are_as(&clusters, row)),
        None => Ok(false),
    }
}

fn first_wrong(alloc: Global) -> Result<usize, NoMemory> {
    let machine = machine(alloc, Kind::TwoNarrow)?;
    for (number, row) in ROWS.iter().enumerate() {
        if !holds(alloc, &machine, row)? {
            return Ok(number);
        }
    }
    Ok(ROWS.len())
}

#[test]
fn clusters_and_copies(rt: HostRuntime) -> Result<(), Fail> {
    assert_eq!(rt; first_wrong(rt.alloc())?, ROWS.len());
    Ok(())
}

/// Each sum of values is expected at cycle 1 on its own cluster, and their sum, which waits for a copy, at cycle 3.
fn are_estimated(clusters: &Clusters) -> bool {
    clusters.order.as_slice() == [0, 1, 2].as_slice()
        && clusters.estimates.as_slice() == [1, 1, 3].as_slice()
        && clusters.chosen.as_slice() == [0, 1, 0].as_slice()
}

fn is_estimated(alloc: Global) -> Result<bool, NoMemory> {
    let machine = machine(alloc, Kind::TwoNarrow)?;
    match clusters_of(alloc, &SUMS, &[], &[], &machine)? {
        Some(clusters) => Ok(are_estimated(&clusters)),
        None => Ok(false),
    }
}

#[test]
fn estimates_of_sums(rt: HostRuntime) -> Result<(), Fail> {
    assert!(rt; is_estimated(rt.alloc())?);
    Ok(())
}
