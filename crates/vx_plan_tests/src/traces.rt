// The worked traces.

use vx_base::arithmetic::Code;
use vx_flow::graph::Operand;
use vx_test_graphs::Step;

/// An `if` without `else`: v3 = v1 + 5; p6 = v1 < 10; leave unless p6; v2 = v2 + 1; join; v4 = v3 * v1; v5 = v2 + v4.
pub(crate) const WITHOUT_ELSE: [Step<'static>; 6] = [
    Step::More(3, 1, 5),
    Step::Below(6, 1, 10),
    Step::Split(6, &[1, 2, 3]),
    Step::More(2, 2, 1),
    Step::On(Code::Mpylu, 4, 3, Operand::Held(1)),
    Step::Sum(5, 2, 4),
];

/// p7 = v1 < 10; v3 = v1 + 5; v4 = v1 - 5; leave unless p7; v2 = v2 + 1; join; v5 = v2 + v3; v6 = v5 + v4.
pub(crate) const SINKING: [Step<'static>; 7] = [
    Step::Below(7, 1, 10),
    Step::More(3, 1, 5),
    Step::On(Code::Sub, 4, 1, Operand::Number(5)),
    Step::Split(7, &[2, 3, 4]),
    Step::More(2, 2, 1),
    Step::Sum(5, 2, 3),
    Step::Sum(6, 5, 4),
];

/// p8 = v1 < 10; p9 = v2 < 10; leave unless p8; leave unless p9.
pub(crate) const TWO_SPLITS: [Step<'static>; 4] = [
    Step::Below(8, 1, 10),
    Step::Below(9, 2, 10),
    Step::Split(8, &[]),
    Step::Split(9, &[]),
];

/// p5 = v1 < 10; v3 = v1 + 5; v4 = v1 - 5; leave unless p5, to where v4 is live; print v3.
pub(crate) const PRINTING: [Step<'static>; 5] = [
    Step::Below(5, 1, 10),
    Step::More(3, 1, 5),
    Step::On(Code::Sub, 4, 1, Operand::Number(5)),
    Step::Split(5, &[4]),
    Step::Print(3),
];
