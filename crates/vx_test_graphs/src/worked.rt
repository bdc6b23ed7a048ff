// A graph that more than one crate of tests works out by hand.

use crate::shapes::{Act, Part, Shape, Way};
use vx_base::arithmetic::{Code, Compare};
use vx_flow::graph::{Bank, Operand};

/// Six general values and a branch value.
pub const BANKS: [Bank; 7] = [
    Bank::General,
    Bank::General,
    Bank::General,
    Bank::General,
    Bank::General,
    Bank::General,
    Bank::Branch,
];

/// v3 = v1 + 5; if (v1 < 10) v2 = v2 + 1; return v2 + v3 * v1, with the test in value 6.
pub const WITHOUT_ELSE: Shape<'static> = Shape {
    parts: &[
        Part(
            &[
                Act::On(Code::Add, 3, 1, Operand::Number(5)),
                Act::On(Code::ToBranch(Compare::Lt), 6, 1, Operand::Number(10)),
            ],
            Way::Split(6, 1, 3),
        ),
        Part(
            &[Act::On(Code::Add, 2, 2, Operand::Number(1))],
            Way::Goto(2),
        ),
        Part(
            &[
                Act::On(Code::Mpylu, 4, 3, Operand::Held(1)),
                Act::On(Code::Add, 5, 2, Operand::Held(4)),
            ],
            Way::Return(Operand::Held(5)),
        ),
        Part(&[], Way::Goto(2)),
    ],
    banks: &BANKS,
    parameters: &[1, 2],
    arrays: &[],
};
