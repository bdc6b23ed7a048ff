// Steps on worked graphs: the traces that are picked, their modes, words and copies, one after the other until no block is left.

use crate::passes::Passed;
use crate::shapes::{
    IN_LINE, PRINTING, SINKING, SUMS, SUMS_BEHIND_A_CALL, SUMS_TO_A_HOME, SUMS_TURNED, TWO_TESTS,
    TWO_WAYS,
};
use crate::steps_run::{Row, Wanted, is_so};
use std::alloc::Global;
use std::test::Fail;
use vx_base::arithmetic::Code;
use vx_base::outcome::NoMemory;
use vx_dep::mode::Mode;
use vx_flow::graph::{Edge, Op, Operand};
use vx_test_graphs::{Act, WITHOUT_ELSE};
use vx_test_machines::Kind;

const ZERO_THREE: Edge = Edge { from: 0, to: 3 };

const ZERO_TWO: Edge = Edge { from: 0, to: 2 };

const THREE_TWO: Edge = Edge { from: 3, to: 2 };

const ONE_FOUR: Edge = Edge { from: 1, to: 4 };

/// Nine of ten times the test holds.
const MOSTLY: Passed<'static> = Passed {
    blocks: &[(0, 100), (1, 90), (2, 100), (3, 10)],
    edges: &[(0, 1, 90), (1, 2, 90), (0, 3, 10), (3, 2, 10)],
};

const NOTHING: Passed<'static> = Passed {
    blocks: &[],
    edges: &[],
};

/// The product goes above the join and the split, and is copied onto the edge that joins. Behind the split nothing is pending: the
/// product of word 1 has landed at word 3.
const FREE: Row<'static> = Row {
    shape: WITHOUT_ELSE,
    passed: MOSTLY,
    kind: Kind::Vex,
    cap: 1,
    plans: &[
        Wanted {
            blocks: &[0, 1, 2],
            count: 100,
            mode: Mode::Free,
            clusters: &[0, 0, 0, 0, 0, 0],
            ops: &[],
            words: &[0, 0, 2, 3, 1, 4],
            length: 5,
            splits: &[(2, ZERO_THREE, &[], 0)],
            rejoins: &[(2, 4, &[4])],
            homes: &[],
            used: 1,
        },
        Wanted {
            blocks: &[3, 4],
            count: 10,
            mode: Mode::Free,
            clusters: &[0],
            ops: &[],
            words: &[0],
            length: 1,
            splits: &[],
            rejoins: &[],
            homes: &[],
            used: 1,
        },
    ],
    made: &[THREE_TWO],
};

/// No copy may be made: each operation stays between the split and the join.
const BARRED: Row<'static> = Row {
    shape: WITHOUT_ELSE,
    passed: MOSTLY,
    kind: Kind::Vex,
    cap: 0,
    plans: &[
        Wanted {
            blocks: &[0, 1, 2],
            count: 100,
            mode: Mode::Barred,
            clusters: &[0, 0, 0, 0, 0, 0],
            ops: &[],
            words: &[0, 0, 2, 3, 4, 6],
            length: 7,
            splits: &[(2, ZERO_THREE, &[], 0)],
            rejoins: &[(2, 4, &[])],
            homes: &[],
            used: 0,
        },
        Wanted {
            blocks: &[3],
            count: 10,
            mode: Mode::Free,
            clusters: &[],
            ops: &[],
            words: &[],
            length: 0,
            splits: &[],
            rejoins: &[],
            homes: &[],
            used: 0,
        },
    ],
    made: &[],
};

/// The difference sinks below the split and is copied onto its edge. No operation below the join goes above it, since each reads
/// what is written above it.
const SUNK: Row<'static> = Row {
    shape: SINKING,
    passed: MOSTLY,
    kind: Kind::Narrow,
    cap: 4000,
    plans: &[
        Wanted {
            blocks: &[0, 1, 2],
            count: 100,
            mode: Mode::Free,
            clusters: &[0, 0, 0, 0, 0, 0, 0],
            ops: &[],
            words: &[0, 1, 4, 2, 3, 5, 6],
            length: 7,
            splits: &[(3, ZERO_THREE, &[2], 0)],
            rejoins: &[(2, 5, &[])],
            homes: &[],
            used: 1,
        },
        Wanted {
            blocks: &[4, 3],
            count: 10,
            mode: Mode::Free,
            clusters: &[0],
            ops: &[],
            words: &[0],
            length: 1,
            splits: &[],
            rejoins: &[],
            homes: &[],
            used: 1,
        },
    ],
    made: &[ZERO_THREE],
};

/// Nine of ten times the test holds, and there is no join.
const PRINTED: Passed<'static> = Passed {
    blocks: &[(0, 10), (1, 9), (2, 1)],
    edges: &[(0, 1, 9), (0, 2, 1)],
};

/// The sum is printed, so it stands above the split, and the difference behind it.
const PRINTS: Row<'static> = Row {
    shape: PRINTING,
    passed: PRINTED,
    kind: Kind::Narrow,
    cap: 1,
    plans: &[
        Wanted {
            blocks: &[0, 1],
            count: 10,
            mode: Mode::Free,
            clusters: &[0, 0, 0, 0, 0],
            ops: &[],
            words: &[0, 1, 3, 2, 4],
            length: 5,
            splits: &[(3, ZERO_TWO, &[2], 0)],
            rejoins: &[],
            homes: &[],
            used: 1,
        },
        Wanted {
            blocks: &[3, 2],
            count: 1,
            mode: Mode::Free,
            clusters: &[0],
            ops: &[],
            words: &[0],
            length: 1,
            splits: &[],
            rejoins: &[],
            homes: &[],
            used: 1,
        },
    ],
    made: &[ZERO_TWO],
};

const PRINTS_BARRED: Row<'static> = Row {
    shape: PRINTING,
    passed: PRINTED,
    kind: Kind::Narrow,
    cap: 0,
    plans: &[
        Wanted {
            blocks: &[0, 1],
            count: 10,
            mode: Mode::Barred,
            clusters: &[0, 0, 0, 0, 0],
            ops: &[],
            words: &[0, 1, 2, 3, 4],
            length: 5,
            splits: &[(3, ZERO_TWO, &[], 0)],
            rejoins: &[],
            homes: &[],
            used: 0,
        },
        Wanted {
            blocks: &[2],
            count: 1,
            mode: Mode::Free,
            clusters: &[],
            ops: &[],
            words: &[],
            length: 0,
            splits: &[],
            rejoins: &[],
            homes: &[],
            used: 0,
        },
    ],
    made: &[],
};

/// Without counts the lowest block is the seed. Of the edges out of it the one to block 1 counts, the lowest, and of those into
/// block 2 the one from block 1.
const WITHOUT_COUNTS: Row<'static> = Row {
    shape: WITHOUT_ELSE,
    passed: NOTHING,
    kind: Kind::Vex,
    cap: 4000,
    plans: &[
        Wanted {
            blocks: &[0, 1, 2],
            count: 0,
            mode: Mode::Free,
            clusters: &[0, 0, 0, 0, 0, 0],
            ops: &[],
            words: &[0, 0, 2, 3, 1, 4],
            length: 5,
            splits: &[(2, ZERO_THREE, &[], 0)],
            rejoins: &[(2, 4, &[4])],
            homes: &[],
            used: 1,
        },
        Wanted {
            blocks: &[3, 4],
            count: 0,
            mode: Mode::Free,
            clusters: &[0],
            ops: &[],
            words: &[0],
            length: 1,
            splits: &[],
            rejoins: &[],
            homes: &[],
            used: 1,
        },
    ],
    made: &[THREE_TWO],
};

/// A made block counts as the edge on which it was made: passed more often than block 3, it is the seed.
const MADE_COUNTS: Row<'static> = Row {
    shape: WITHOUT_ELSE,
    passed: Passed {
        blocks: &[(0, 100), (1, 90), (2, 100), (3, 10)],
        edges: &[(0, 1, 90), (1, 2, 90), (0, 3, 10), (3, 2, 50)],
    },
    kind: Kind::Vex,
    cap: 4000,
    plans: &[
        Wanted {
            blocks: &[0, 1, 2],
            count: 100,
            mode: Mode::Free,
            clusters: &[0, 0, 0, 0, 0, 0],
            ops: &[],
            words: &[0, 0, 2, 3, 1, 4],
            length: 5,
            splits: &[(2, ZERO_THREE, &[], 0)],
            rejoins: &[(2, 4, &[4])],
            homes: &[],
            used: 1,
        },
        Wanted {
            blocks: &[3, 4],
            count: 50,
            mode: Mode::Free,
            clusters: &[0],
            ops: &[],
            words: &[0],
            length: 1,
            splits: &[],
            rejoins: &[],
            homes: &[],
            used: 1,
        },
    ],
    made: &[THREE_TWO],
};

/// Two blocks are one trace. The product waits a cycle for the move, the sum two for the product, and the last product one for the
/// sum.
const ONE_TRACE: Row<'static> = Row {
    shape: IN_LINE,
    passed: NOTHING,
    kind: Kind::Vex,
    cap: 0,
    plans: &[Wanted {
        blocks: &[0, 1],
        count: 0,
        mode: Mode::Free,
        clusters: &[0, 0, 0, 0],
        ops: &[],
        words: &[0, 1, 3, 4],
        length: 5,
        splits: &[],
        rejoins: &[],
        homes: &[],
        used: 0,
    }],
    made: &[],
};

/// Two clusters, and no homes before. Each sum of a value takes a cluster of its own; the last one is as early on either, and takes
/// the lowest: so v4 is copied to cluster 0. The copy to cluster k of value v, of seven, is the value 7 * (k + 1) + v.
const ON_CLUSTERS: Row<'static> = Row {
    shape: SUMS,
    passed: NOTHING,
    kind: Kind::TwoNarrow,
    cap: 0,
    plans: &[Wanted {
        blocks: &[0],
        count: 0,
        mode: Mode::Free,
        clusters: &[0, 1, 0, 0],
        ops: &[
            (2, Act::Plain(Op::Across { to: 11, from: 4 })),
            (3, Act::On(Code::Add, 5, 3, Operand::Held(11))),
        ],
        words: &[0, 0, 1, 2],
        length: 3,
        splits: &[],
        rejoins: &[],
        homes: &[(1, 0), (2, 1), (3, 0), (4, 1), (5, 0), (11, 0)],
        used: 0,
    }],
    made: &[],
};

/// The trace before gave v1 the home 0 and v2 the home 1: its last operation is listed first, and takes the lowest cluster.
const ON_GIVEN_CLUSTERS: Row<'static> = Row {
    shape: SUMS_BEHIND_A_CALL,
    passed: NOTHING,
    kind: Kind::TwoNarrow,
    cap: 0,
    plans: &[
        Wanted {
            blocks: &[0],
            count: 0,
            mode: Mode::Free,
            clusters: &[1, 0],
            ops: &[],
            words: &[0, 0],
            length: 1,
            splits: &[],
            rejoins: &[],
            homes: &[(1, 0), (2, 1)],
            used: 0,
        },
        Wanted {
            blocks: &[1],
            count: 0,
            mode: Mode::Free,
            clusters: &[0, 1, 0, 0],
            ops: &[
                (2, Act::Plain(Op::Across { to: 11, from: 4 })),
                (3, Act::On(Code::Add, 5, 3, Operand::Held(11))),
            ],
            words: &[0, 0, 1, 2],
            length: 3,
            splits: &[],
            rejoins: &[],
            homes: &[(1, 0), (2, 1), (3, 0), (4, 1), (5, 0), (11, 0)],
            used: 0,
        },
    ],
    made: &[],
};

/// The trace before gave them the other homes, and so v3 stands on cluster 1 and is copied.
const ON_TURNED_CLUSTERS: Row<'static> = Row {
    shape: SUMS_TURNED,
    passed: NOTHING,
    kind: Kind::TwoNarrow,
    cap: 0,
    plans: &[
        Wanted {
            blocks: &[0],
            count: 0,
            mode: Mode::Free,
            clusters: &[1, 0],
            ops: &[],
            words: &[0, 0],
            length: 1,
            splits: &[],
            rejoins: &[],
            homes: &[(1, 1), (2, 0)],
            used: 0,
        },
        Wanted {
            blocks: &[1],
            count: 0,
            mode: Mode::Free,
            clusters: &[1, 0, 0, 0],
            ops: &[
                (2, Act::Plain(Op::Across { to: 10, from: 3 })),
                (3, Act::On(Code::Add, 5, 10, Operand::Held(4))),
            ],
            words: &[0, 0, 1, 2],
            length: 3,
            splits: &[],
            rejoins: &[],
            homes: &[(1, 1), (2, 0), (3, 1), (4, 0), (5, 0), (10, 0)],
            used: 0,
        },
    ],
    made: &[],
};

/// The trace before gave v5 the home 1, which it keeps: there the last sum is made, from a copy of v3.
const TO_A_GIVEN_CLUSTER: Row<'static> = Row {
    shape: SUMS_TO_A_HOME,
    passed: NOTHING,
    kind: Kind::TwoNarrow,
    cap: 0,
    plans: &[
        Wanted {
            blocks: &[0],
            count: 0,
            mode: Mode::Free,
            clusters: &[1, 0],
            ops: &[],
            words: &[0, 0],
            length: 1,
            splits: &[],
            rejoins: &[],
            homes: &[(1, 0), (5, 1)],
            used: 0,
        },
        Wanted {
            blocks: &[1],
            count: 0,
            mode: Mode::Free,
            clusters: &[0, 1, 1, 1],
            ops: &[
                (2, Act::Plain(Op::Across { to: 17, from: 3 })),
                (3, Act::On(Code::Add, 5, 17, Operand::Held(4))),
            ],
            words: &[0, 0, 1, 2],
            length: 3,
            splits: &[],
            rejoins: &[],
            homes: &[(1, 0), (2, 1), (3, 0), (4, 1), (5, 1), (17, 1)],
            used: 0,
        },
    ],
    made: &[],
};

/// A block that returns a number: no operation, and no word.
const RETURNS_IN_THREE: Wanted<'static> = Wanted {
    blocks: &[3],
    count: 0,
    mode: Mode::Free,
    clusters: &[],
    ops: &[],
    words: &[],
    length: 0,
    splits: &[],
    rejoins: &[],
    homes: &[],
    used: 0,
};

const RETURNS_IN_FOUR: Wanted<'static> = Wanted {
    blocks: &[4],
    count: 0,
    mode: Mode::Free,
    clusters: &[],
    ops: &[],
    words: &[],
    length: 0,
    splits: &[],
    rejoins: &[],
    homes: &[],
    used: 0,
};

/// Two splits stand in one word where a word has two branches.
const IN_ONE_WORD: Row<'static> = Row {
    shape: TWO_TESTS,
    passed: NOTHING,
    kind: Kind::TwoBranches,
    cap: 4000,
    plans: &[
        Wanted {
            blocks: &[0, 1, 2],
            count: 0,
            mode: Mode::Free,
            clusters: &[0, 0, 0, 0],
            ops: &[],
            words: &[0, 0, 2, 2],
            length: 3,
            splits: &[(2, ZERO_THREE, &[], 0), (3, ONE_FOUR, &[], 0)],
            rejoins: &[],
            homes: &[],
            used: 0,
        },
        RETURNS_IN_THREE,
        RETURNS_IN_FOUR,
    ],
    made: &[],
};

/// Where it has one, the second split stands a word behind.
const A_WORD_APART: Row<'static> = Row {
    shape: TWO_TESTS,
    passed: NOTHING,
    kind: Kind::Vex,
    cap: 4000,
    plans: &[
        Wanted {
            blocks: &[0, 1, 2],
            count: 0,
            mode: Mode::Free,
            clusters: &[0, 0, 0, 0],
            ops: &[],
            words: &[0, 0, 2, 3],
            length: 4,
            splits: &[(2, ZERO_THREE, &[], 0), (3, ONE_FOUR, &[], 0)],
            rejoins: &[],
            homes: &[],
            used: 0,
        },
        RETURNS_IN_THREE,
        RETURNS_IN_FOUR,
    ],
    made: &[],
};

/// Block 3 does nothing before it returns.
const THEN_RETURNS: Wanted<'static> = Wanted {
    blocks: &[3],
    count: 0,
    mode: Mode::Free,
    clusters: &[],
    ops: &[],
    words: &[],
    length: 0,
    splits: &[],
    rejoins: &[],
    homes: &[],
    used: 1,
};

/// Block 5 was made for the sum, and goes on to block 4.
const COPIED_SUM: Wanted<'static> = Wanted {
    blocks: &[5, 4],
    count: 0,
    mode: Mode::Free,
    clusters: &[0],
    ops: &[],
    words: &[0],
    length: 1,
    splits: &[],
    rejoins: &[],
    homes: &[],
    used: 1,
};

/// Both splits are ready in word 2, and a word has two. The sum is in word 4: it stood above the second alone, and is copied onto the
/// edge of that one. Behind both the second product takes a cycle to land.
const SUM_BETWEEN: Row<'static> = Row {
    shape: TWO_WAYS,
    passed: NOTHING,
    kind: Kind::TwoBranches,
    cap: 4000,
    plans: &[
        Wanted {
            blocks: &[0, 1, 2],
            count: 0,
            mode: Mode::Free,
            clusters: &[0, 0, 0, 0, 0, 0, 0],
            ops: &[],
            words: &[0, 0, 2, 0, 2, 4, 2],
            length: 5,
            splits: &[(2, ZERO_THREE, &[], 1), (6, ONE_FOUR, &[5], 1)],
            rejoins: &[],
            homes: &[],
            used: 1,
        },
        THEN_RETURNS,
        COPIED_SUM,
    ],
    made: &[ONE_FOUR],
};

/// The same with one branch in a word: the second split is a word behind the first, where the second product has landed.
const SUM_BETWEEN_APART: Row<'static> = Row {
    shape: TWO_WAYS,
    passed: NOTHING,
    kind: Kind::Vex,
    cap: 4000,
    plans: &[
        Wanted {
            blocks: &[0, 1, 2],
            count: 0,
            mode: Mode::Free,
            clusters: &[0, 0, 0, 0, 0, 0, 0],
            ops: &[],
            words: &[0, 0, 2, 0, 2, 4, 3],
            length: 5,
            splits: &[(2, ZERO_THREE, &[], 1), (6, ONE_FOUR, &[5], 0)],
            rejoins: &[],
            homes: &[],
            used: 1,
        },
        THEN_RETURNS,
        COPIED_SUM,
    ],
    made: &[ONE_FOUR],
};

const ROWS: [Row<'static>; 16] = [
    FREE,
    BARRED,
    SUNK,
    PRINTS,
    PRINTS_BARRED,
    WITHOUT_COUNTS,
    MADE_COUNTS,
    ONE_TRACE,
    ON_CLUSTERS,
    ON_GIVEN_CLUSTERS,
    ON_TURNED_CLUSTERS,
    TO_A_GIVEN_CLUSTER,
    IN_ONE_WORD,
    A_WORD_APART,
    SUM_BETWEEN,
    SUM_BETWEEN_APART,
];

fn first_wrong(alloc: Global) -> Result<usize, NoMemory> {
    for (number, row) in ROWS.iter().enumerate() {
        if !is_so(alloc, row)? {
            return Ok(number);
        }
    }
    Ok(ROWS.len())
}

#[test]
fn worked_rows(rt: HostRuntime) -> Result<(), Fail> {
    assert_eq!(rt; first_wrong(rt.alloc())?, ROWS.len());
    Ok(())
}
