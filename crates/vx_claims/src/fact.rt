// What is said of the values of a function.

use crate::intervals::Interval;
use crate::residues::Residue;
use vx_base::arithmetic::Code;
use vx_flow::graph::{Operand, Value};

/// What is said of a value, or of the place where it is said.
#[derive(Clone, Copy)]
pub enum Fact {
    /// It lies in an interval.
    Between {
        value: Value,
        within: Interval,
    },
    /// Its low bits are those of a number.
    Congruent {
        value: Value,
        residue: Residue,
    },
    /// It holds what an operation gives.
    Equals {
        value: Value,
        code: Code,
        left: Operand,
        right: Operand,
    },
    /// No run comes to where this is said.
    Never,
}
