// The numbers with which a function compares, to which an interval may be made wider.

use vx_base::arithmetic::Code;
use vx_claims::intervals::Interval;
use vx_flow::graph::{Block, Op, Operand};

/// The interval, where what was passed goes past an end with that end at the next number with which the blocks compare, or 0; without
/// a bound where there is none.
pub(crate) fn up_to_compared(blocks: &[Block], within: Interval, passed: Interval) -> Interval {
    let next = next_compared(blocks, passed);
    Interval {
        low: if passed.low < within.low {
            next.low
        } else {
            within.low
        },
        high: if passed.high > within.high {
            next.high
        } else {
            within.high
        },
    }
}

/// The next numbers with which the blocks compare, or 0, below and above an interval.
fn next_compared(blocks: &[Block], passed: Interval) -> Interval {
    let mut next = Interval {
        low: if passed.low < 0 { i32::MIN } else { 0 },
        high: if passed.high > 0 { i32::MAX } else { 0 },
    };
    for block in blocks {
        for op in block.ops.as_slice() {
            match op {
                Op::Compute {
                    code: Code::ToBranch(_),
                    left,
                    right,
                    ..
                } => {
                    next = nearer(nearer(next, passed, *left), passed, *right);
                }
                _ => {}
            }
        }
    }
    next
}

/// The ends at a number where it is nearer to what was passed.
fn nearer(next: Interval, passed: Interval, operand: Operand) -> Interval {
    match operand {
        Operand::Number(number) => Interval {
            low: if number <= passed.low && number > next.low {
                number
            } else {
                next.low
            },
            high: if number >= passed.high && number < next.high {
                number
            } else {
                next.high
            },
        },
        _ => next,
    }
}
