// The worked graphs. Values 0 to 5 are general ones, and value 6 is the branch value of a test.

use vx_base::arithmetic::{Code, Compare};
use vx_flow::graph::{Bank, Op, Operand};
use vx_test_graphs::{Act, BANKS, Part, Shape, Way};

/// v6 = v1 < 10
const TEST: Act = Act::On(Code::ToBranch(Compare::Lt), 6, 1, Operand::Number(10));

/// v7 = v2 < 10
const SECOND_TEST: Act = Act::On(Code::ToBranch(Compare::Lt), 7, 2, Operand::Number(10));

/// Six general values, and a second test.
const TWO_BRANCH_BANKS: [Bank; 8] = [
    Bank::General,
    Bank::General,
    Bank::General,
    Bank::General,
    Bank::General,
    Bank::General,
    Bank::Branch,
    Bank::Branch,
];

/// v3 = v1 + 5
const SUM: Act = Act::On(Code::Add, 3, 1, Operand::Number(5));

/// v4 = v1 - 5
const DIFFERENCE: Act = Act::On(Code::Sub, 4, 1, Operand::Number(5));

/// v2 = v2 + 1
const STEP: Act = Act::On(Code::Add, 2, 2, Operand::Number(1));

/// v3 = v1 + 5; v4 = v1 - 5; if (v1 < 10) v2 = v2 + 1; v5 = v2 + v3; return v5 + v4 in v0.
pub(crate) const SINKING: Shape<'static> = Shape {
    parts: &[
        Part(&[TEST, SUM, DIFFERENCE], Way::Split(6, 1, 3)),
        Part(&[STEP], Way::Goto(2)),
        Part(
            &[
                Act::On(Code::Add, 5, 2, Operand::Held(3)),
                Act::On(Code::Add, 0, 5, Operand::Held(4)),
            ],
            Way::Return(Operand::Held(0)),
        ),
        Part(&[], Way::Goto(2)),
    ],
    banks: &BANKS,
    parameters: &[1, 2],
    arrays: &[],
};

/// v6 = v1 < 10; v7 = v2 < 10; if (v6) if (v7) return 1; else return 3; else return 2.
pub(crate) const TWO_TESTS: Shape<'static> = Shape {
    parts: &[
        Part(&[TEST, SECOND_TEST], Way::Split(6, 1, 3)),
        Part(&[], Way::Split(7, 2, 4)),
        Part(&[], Way::Return(Operand::Number(1))),
        Part(&[], Way::Return(Operand::Number(2))),
        Part(&[], Way::Return(Operand::Number(3))),
    ],
    banks: &TWO_BRANCH_BANKS,
    parameters: &[1, 2],
    arrays: &[],
};

/// v3 = v1 + 5; v4 = v1 - 5; if (v1 < 10) print v3; return v4.
pub(crate) const PRINTING: Shape<'static> = Shape {
    parts: &[
        Part(&[TEST, SUM, DIFFERENCE], Way::Split(6, 1, 2)),
        Part(
            &[Act::Plain(Op::Decimal {
                from: Operand::Held(3),
            })],
            Way::Return(Operand::Held(4)),
        ),
        Part(&[], Way::Return(Operand::Held(4))),
    ],
    banks: &BANKS,
    parameters: &[1],
    arrays: &[],
};

/// v0 = 7; v1 = v0 * v0; v2 = v1 + 1; then v3 = v2 * v0, which is returned.
pub(crate) const IN_LINE: Shape<'static> = Shape {
    parts: &[
        Part(
            &[
                Act::Plain(Op::Compute {
                    code: Code::Mov,
                    to: 0,
                    left: Operand::Number(7),
                    right: Operand::Number(0),
                }),
                Act::On(Code::Mpylu, 1, 0, Operand::Held(0)),
                Act::On(Code::Add, 2, 1, Operand::Number(1)),
            ],
            Way::Goto(1),
        ),
        Part(
            &[Act::On(Code::Mpylu, 3, 2, Operand::Held(0))],
            Way::Return(Operand::Held(3)),
        ),
    ],
    banks: &BANKS,
    parameters: &[],
    arrays: &[],
};

/// v3 = v1 + 1
const NEXT_LEFT: Act = Act::On(Code::Add, 3, 1, Operand::Number(1));

/// v4 = v2 + 1
const NEXT_RIGHT: Act = Act::On(Code::Add, 4, 2, Operand::Number(1));

/// v5 = v3 + v4
const BOTH: Act = Act::On(Code::Add, 5, 3, Operand::Held(4));

/// v1 = 7
const LEFT: Act = Act::Plain(Op::Compute {
    code: Code::Mov,
    to: 1,
    left: Operand::Number(7),
    right: Operand::Number(0),
});

/// v2 = 9
const RIGHT: Act = Act::Plain(Op::Compute {
    code: Code::Mov,
    to: 2,
    left: Operand::Number(9),
    right: Operand::Number(0),
});

/// v5 = 3
const TO_A_HOME: Act = Act::Plain(Op::Compute {
    code: Code::Mov,
    to: 5,
    left: Operand::Number(3),
    right: Operand::Number(0),
});

/// v3 = v1 + 1; v4 = v2 + 1; v5 = v3 + v4, which is returned.
pub(crate) const SUMS: Shape<'static> = Shape {
    parts: &[Part(
        &[NEXT_LEFT, NEXT_RIGHT, BOTH],
        Way::Return(Operand::Held(5)),
    )],
    banks: &BANKS,
    parameters: &[1, 2],
    arrays: &[],
};

/// v2 = 9; v1 = 7; and behind a call the same sums.
pub(crate) const SUMS_BEHIND_A_CALL: Shape<'static> = Shape {
    parts: &[
        Part(&[RIGHT, LEFT], Way::Call(0, None, None, None, 1)),
        Part(
            &[NEXT_LEFT, NEXT_RIGHT, BOTH],
            Way::Return(Operand::Held(5)),
        ),
    ],
    banks: &BANKS,
    parameters: &[],
    arrays: &[],
};

/// v1 = 7; v2 = 9; and behind a call the same sums.
pub(crate) const SUMS_TURNED: Shape<'static> = Shape {
    parts: &[
        Part(&[LEFT, RIGHT], Way::Call(0, None, None, None, 1)),
        Part(
            &[NEXT_LEFT, NEXT_RIGHT, BOTH],
            Way::Return(Operand::Held(5)),
        ),
    ],
    banks: &BANKS,
    parameters: &[],
    arrays: &[],
};

/// v5 = 3; v1 = 7; and behind a call the same sums.
pub(crate) const SUMS_TO_A_HOME: Shape<'static> = Shape {
    parts: &[
        Part(&[TO_A_HOME, LEFT], Way::Call(0, None, None, None, 1)),
        Part(
            &[NEXT_LEFT, NEXT_RIGHT, BOTH],
            Way::Return(Operand::Held(5)),
        ),
    ],
    banks: &BANKS,
    parameters: &[2],
    arrays: &[],
};

/// While v1 < 10, v1 = v1 + 1; return v1. Block 1 is the header.
pub(crate) const LOOP: Shape<'static> = Shape {
    parts: &[
        Part(&[], Way::Goto(1)),
        Part(&[TEST], Way::Split(6, 3, 2)),
        Part(&[], Way::Return(Operand::Held(1))),
        Part(
            &[Act::On(Code::Add, 1, 1, Operand::Number(1))],
            Way::Goto(1),
        ),
    ],
    banks: &BANKS,
    parameters: &[1],
    arrays: &[],
};

/// A call between two blocks.
pub(crate) const CALLING: Shape<'static> = Shape {
    parts: &[
        Part(&[SUM], Way::Call(0, None, None, None, 1)),
        Part(&[], Way::Return(Operand::Held(1))),
    ],
    banks: &BANKS,
    parameters: &[1],
    arrays: &[],
};

/// Blocks of 256, 256, 1 and 0 operations, one after the other.
pub(crate) const LONG: Shape<'static> = Shape {
    parts: &[
        Part(&[SUM; 256], Way::Goto(1)),
        Part(&[SUM; 256], Way::Goto(2)),
        Part(&[SUM], Way::Goto(3)),
        Part(&[], Way::Return(Operand::Held(1))),
    ],
    banks: &BANKS,
    parameters: &[1],
    arrays: &[],
};

/// Blocks of 256, 256 and 0 operations, one after the other.
pub(crate) const FULL: Shape<'static> = Shape {
    parts: &[
        Part(&[SUM; 256], Way::Goto(1)),
        Part(&[SUM; 256], Way::Goto(2)),
        Part(&[], Way::Return(Operand::Held(1))),
    ],
    banks: &BANKS,
    parameters: &[1],
    arrays: &[],
};

/// if (!(v1 < 10)) return 2; v3 = v1 * v1; v4 = v3 * v3; v5 = v4 + 1; if (!(v2 < 10)) return v5; return v5. Both tests are made
/// before the first is asked.
pub(crate) const TWO_WAYS: Shape<'static> = Shape {
    parts: &[
        Part(&[TEST, SECOND_TEST], Way::Split(6, 1, 3)),
        Part(
            &[
                Act::On(Code::Mpylu, 3, 1, Operand::Held(1)),
                Act::On(Code::Mpylu, 4, 3, Operand::Held(3)),
                Act::On(Code::Add, 5, 4, Operand::Number(1)),
            ],
            Way::Split(7, 2, 4),
        ),
        Part(&[], Way::Return(Operand::Held(5))),
        Part(&[], Way::Return(Operand::Number(2))),
        Part(&[], Way::Return(Operand::Held(5))),
    ],
    banks: &TWO_BRANCH_BANKS,
    parameters: &[1, 2],
    arrays: &[],
};
