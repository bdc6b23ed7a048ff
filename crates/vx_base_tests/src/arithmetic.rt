// The arithmetic of 32 bits at its edges.

use vx_arithmetic::{add32, cmp32, div32, mul32, rem32, shl32, shr32, sub32, unsigned32, value};
use vx_base::arithmetic::{Code, Compare};

#[test]
fn the_parts_at_their_edges(rt: HostRuntime) {
    let found = [
        add32(2147483647, 1),
        sub32(-2147483648, 1),
        mul32(100000, 100000),
        div32(-2147483648, -1),
        div32(-7, 2),
        div32(5, 0),
        rem32(-7, 2),
        rem32(5, 0),
        shl32(1, 33),
        shr32(-8, 33),
    ];
    let wanted = [
        -2147483648,
        2147483647,
        1410065408,
        -2147483648,
        -3,
        0,
        -1,
        0,
        2,
        -4,
    ];
    assert!(rt; found == wanted);
    assert!(rt; cmp32(Compare::Le, 3, 3) && !cmp32(Compare::Ltu, -1, 0));
    assert!(rt; unsigned32(-1) == 4294967295);
}

/// A code, its operands, and its value.
const ROWS: [(Code, i32, i32, i32); 19] = [
    (Code::Add, 2147483647, 1, -2147483648),
    (Code::Sub, -2147483648, 1, 2147483647),
    (Code::And, -4, 7, 4),
    (Code::Or, -8, 5, -3),
    (Code::Xor, -1, 5, -6),
    (Code::Shl, 1, 33, 2),
    (Code::Shr, -8, 1, -4),
    (Code::Shru, -1, 28, 15),
    (Code::Sh2add, -1, 8, 4),
    (Code::Max, -1, 0, 0),
    (Code::Min, -1, 0, -1),
    (Code::Mov, 7, 9, 7),
    (Code::ToGeneral(Compare::Lt), -1, 0, 1),
    (Code::ToBranch(Compare::Ltu), -1, 0, 0),
    (Code::ToBranch(Compare::Geu), -1, 0, 1),
    (Code::Mpylu, 100000, 100000, -848567296),
    (Code::Mpyhs, 100000, 100000, -2036334592),
    (Code::Div, -7, 2, -3),
    (Code::Rem, -7, 2, -1),
];

fn has_value(row: &(Code, i32, i32, i32)) -> bool {
    value(row.0, row.1, row.2) == row.3
}

#[test]
fn the_value_of_each_code(rt: HostRuntime) {
    assert!(rt; ROWS.iter().all(|row| has_value(row)));
}
