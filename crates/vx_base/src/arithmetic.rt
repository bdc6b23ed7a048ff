// The operations of the units alu and multiply on 32-bit numbers, and the comparisons. `specs/Arithmetic.antt` has what each
// gives, and vx_arithmetic finds it.

/// How two numbers are compared: signed, but for the last two, which read both without sign.
#[derive(Clone, Copy, PartialEq, Eq)]
pub enum Compare {
    /// Equal.
    Eq,
    /// Not equal.
    Ne,
    /// Less.
    Lt,
    /// Less or equal.
    Le,
    /// Greater.
    Gt,
    /// Greater or equal.
    Ge,
    /// Less, without sign.
    Ltu,
    /// Greater or equal, without sign.
    Geu,
}

/// An operation of the units alu and multiply on two numbers.
#[derive(Clone, Copy, PartialEq, Eq)]
pub enum Code {
    /// The sum.
    Add,
    /// The difference.
    Sub,
    /// The bits set in both.
    And,
    /// The bits set in either.
    Or,
    /// The bits set in exactly one.
    Xor,
    /// Shifted left by the low five bits of the right operand.
    Shl,
    /// Shifted right so, copying the sign.
    Shr,
    /// Shifted right so, with zeros.
    Shru,
    /// Four times the left operand plus the right one.
    Sh2add,
    /// The greater, signed.
    Max,
    /// The lesser, signed.
    Min,
    /// The left operand. The right one is not read.
    Mov,
    /// 1 where the comparison holds, else 0, to a general register.
    ToGeneral(Compare),
    /// The same to a branch register.
    ToBranch(Compare),
    /// The left operand times the low half of the right one, unsigned.
    Mpylu,
    /// The left operand times the high half of the right one times 2 ^ 16, unsigned.
    Mpyhs,
    /// The quotient, rounded toward zero, and 0 by 0.
    Div,
    /// The remainder of that quotient, and 0 by 0.
    Rem,
}
