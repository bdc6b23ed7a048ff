// The pieces that the code of expressions is made of: a last operation, a move, the check of an index, an operator.

ghost use Rattle.std.specs.Prelude.{◌≡◌, true, false, Some, IfOk};
ghost use Rattle.vx_ast.specs.Meaning.{divides};
ghost use Rattle.vx_ast.specs.declared.tree.BinaryOperator.TheVariants.{Multiply};
ghost use Rattle.vx_lower.specs.Holds.{operation_of, comparison_of};
ghost use Rattle.vx_lower.specs.Adds.{AddsBase, Delivered, Last};
ghost use Rattle.vx_lower.specs.Builds.{Ready};
ghost use Rattle.vx_lower.specs.Emits.{Aimed, Lasts, Delivers, Checked, Combined, MakesBase, Stands};
ghost use Rattle.vx_lower.specs.Fits.{ChecksWell, CombinesWell, StandsWell};
ghost use Rattle.vx_flow.specs.declared.graph.Op.TheVariants.{Compute, Load, More, Input};

use crate::builder::Builder;
use crate::seen::Seen;
use crate::sizes::Sizes;
use std::alloc::Global;
use vx_ast::tree::BinaryOperator;
use vx_base::arithmetic::{Code, Compare};
use vx_base::outcome::{NoMemory, Trap};
use vx_flow::graph::{ArrayId, Bank, Op, Operand, Value};

/// The value that a last operation writes: the one that is wanted, or one of its own.
pub fn target(b: &mut Builder, dest: Option<Value>) -> Result<Value, NoMemory>
    ensures { IfOk result (λ t. Aimed dest t b.old b.new) }
{
    match dest {
        None => b.fresh(Bank::General),
        Some(t) => Ok(t),
    }
}

/// A last operation that computes.
pub fn compute(
    b: &mut Builder,
    alloc: Global,
    code: Code,
    left: Operand,
    right: Operand,
    dest: Option<Value>,
) -> Result<Value, NoMemory>
    ensures code { IfOk result (λ t. Ready b.old → Lasts (Compute code t left right) dest t b.old b.new) }
    ensures steps { IfOk result (λ t. Last (Compute code t left right) dest t b.old b.new) }
{
    let to = target(b, dest)?;
    b.put(
        alloc,
        Op::Compute {
            code,
            to,
            left,
            right,
        },
    )?;
    Ok(to)
}

/// A last operation that loads.
pub fn load(
    b: &mut Builder,
    alloc: Global,
    array: ArrayId,
    place: Operand,
    dest: Option<Value>,
) -> Result<Value, NoMemory>
    ensures code { IfOk result (λ t. Ready b.old → Lasts (Load t array place false) dest t b.old b.new) }
    ensures steps { IfOk result (λ t. Last (Load t array place false) dest t b.old b.new) }
{
    let to = target(b, dest)?;
    b.put(
        alloc,
        Op::Load {
            to,
            array,
            place,
            dismissible: false,
        },
    )?;
    Ok(to)
}

/// A last operation that asks whether the input has a number left.
pub fn more(b: &mut Builder, alloc: Global, dest: Option<Value>) -> Result<Value, NoMemory>
    ensures code { IfOk result (λ t. Ready b.old → Lasts (More t) dest t b.old b.new) }
    ensures steps { IfOk result (λ t. Last (More t) dest t b.old b.new) }
{
    let to = target(b, dest)?;
    b.put(alloc, Op::More { to })?;
    Ok(to)
}

/// A last operation that reads a number.
pub fn input(b: &mut Builder, alloc: Global, dest: Option<Value>) -> Result<Value, NoMemory>
    ensures code { IfOk result (λ t. Ready b.old → Lasts (Input t) dest t b.old b.new) }
    ensures steps { IfOk result (λ t. Last (Input t) dest t b.old b.new) }
{
    let to = target(b, dest)?;
    b.put(alloc, Op::Input { to })?;
    Ok(to)
}

/// An operand as it is, or moved to where it is wanted.
pub fn deliver(
    b: &mut Builder,
    alloc: Global,
    from: Operand,
    dest: Option<Value>,
) -> Result<Operand, NoMemory>
    ensures code { IfOk result (λ r. Ready b.old → Delivers dest from r b.old b.new) }
    ensures steps { IfOk result (λ r. Delivered dest from r b.old b.new) }
{
    match dest {
        None => Ok(from),
        Some(to) => {
            b.put(
                alloc,
                Op::Compute {
                    code: Code::Mov,
                    to,
                    left: from,
                    right: Operand::Number(0),
                },
            )?;
            Ok(Operand::Held(to))
        }
    }
}

/// The check of an index: its place is in the value.
pub fn check(
    b: &mut Builder,
    alloc: Global,
    words: &Sizes,
    array: ArrayId,
    index: Operand,
) -> Result<Value, NoMemory>
    ensures code { IfOk result (λ t. Ready b.old → Checked words.now array index t b.old b.new) }
    ensures fits { IfOk result (λ t. ChecksWell words.now array index t b.old b.new) }
{
    let size = words.of(array);
    let t = b.fresh(Bank::General)?;
    let op = words.place(t, array, index);
    b.put(alloc, op)?;
    let c = b.fresh(Bank::Branch)?;
    b.guard(
        alloc,
        Op::Compute {
            code: Code::ToBranch(Compare::Ltu),
            to: c,
            left: index,
            right: size,
        },
        c,
        Trap::Index,
    )?;
    Ok(t)
}

/// A base is made of an array, in a value of its own.
fn made_base(
    b: &mut Builder,
    alloc: Global,
    array: ArrayId,
    from: Operand,
) -> Result<Value, NoMemory>
    ensures code { IfOk result (λ v. Ready b.old → MakesBase array from v b.old b.new) }
    ensures steps { IfOk result (λ v. AddsBase array from v b.old b.new) }
{
    let to = b.fresh(Bank::General)?;
    b.put(alloc, Op::Base { to, array, from })?;
    Ok(to)
}

/// The value that holds where an array stands which is handed over: its base where it was handed over itself, else one that
/// is made of it.
pub fn stand(
    b: &mut Builder,
    alloc: Global,
    words: &Sizes,
    array: ArrayId,
) -> Result<Value, NoMemory>
    ensures code { IfOk result (λ v. Ready b.old → Stands words.now array v b.old b.new) }
    ensures fits { IfOk result (λ v. StandsWell words.now array v b.old b.new) }
{
    match words.seen(array) {
        Seen::GlobalArray(_) => made_base(b, alloc, array, Operand::Number(0)),
        Seen::OwnArray(_) => made_base(b, alloc, array, Operand::Stack),
        Seen::Handed { base, size } => Ok(base),
    }
}

/// The operation of an operator; a product has none.
pub fn operation(operator: BinaryOperator) -> Option<Code>
    ensures { result ≡ operation_of operator }
{
    match operator {
        BinaryOperator::Multiply => None,
        BinaryOperator::Divide => Some(Code::Div),
        BinaryOperator::Remainder => Some(Code::Rem),
        BinaryOperator::Add => Some(Code::Add),
        BinaryOperator::Subtract => Some(Code::Sub),
        BinaryOperator::ShiftLeft => Some(Code::Shl),
        BinaryOperator::ShiftRight => Some(Code::Shr),
        BinaryOperator::Less => Some(Code::ToGeneral(Compare::Lt)),
        BinaryOperator::LessEqual => Some(Code::ToGeneral(Compare::Le)),
        BinaryOperator::Greater => Some(Code::ToGeneral(Compare::Gt)),
        BinaryOperator::GreaterEqual => Some(Code::ToGeneral(Compare::Ge)),
        BinaryOperator::Equal => Some(Code::ToGeneral(Compare::Eq)),
        BinaryOperator::NotEqual => Some(Code::ToGeneral(Compare::Ne)),
        BinaryOperator::BitAnd => Some(Code::And),
        BinaryOperator::BitXor => Some(Code::Xor),
        BinaryOperator::BitOr => Some(Code::Or),
    }
}

/// The compare of an operator that is one.
pub fn comparison(operator: BinaryOperator) -> Option<Compare>
    ensures { result ≡ comparison_of operator }
{
    match operator {
        BinaryOperator::Less => Some(Compare::Lt),
        BinaryOperator::LessEqual => Some(Compare::Le),
        BinaryOperator::Greater => Some(Compare::Gt),
        BinaryOperator::GreaterEqual => Some(Compare::Ge),
        BinaryOperator::Equal => Some(Compare::Eq),
        BinaryOperator::NotEqual => Some(Compare::Ne),
        _ => None,
    }
}

/// Whether the operator traps where its right operand is 0.
pub fn is_division(operator: BinaryOperator) -> bool
    ensures { result ≡ divides operator }
{
    match operator {
        BinaryOperator::Divide => true,
        BinaryOperator::Remainder => true,
        _ => false,
    }
}

fn product(
    b: &mut Builder,
    alloc: Global,
    left: Operand,
    right: Operand,
    dest: Option<Value>,
) -> Result<Value, NoMemory>
    ensures code { IfOk result (λ t. Ready b.old → Combined Multiply left right dest t b.old b.new) }
    ensures fits { IfOk result (λ t. CombinesWell left right dest t b.old b.new) }
{
    let u = b.fresh(Bank::General)?;
    b.put(
        alloc,
        Op::Compute {
            code: Code::Mpylu,
            to: u,
            left,
            right,
        },
    )?;
    let v = b.fresh(Bank::General)?;
    b.put(
        alloc,
        Op::Compute {
            code: Code::Mpyhs,
            to: v,
            left,
            right,
        },
    )?;
    compute(
        b,
        alloc,
        Code::Add,
        Operand::Held(u),
        Operand::Held(v),
        dest,
    )
}

fn quotient(
    b: &mut Builder,
    alloc: Global,
    operator: BinaryOperator,
    code: Code,
    left: Operand,
    right: Operand,
    dest: Option<Value>,
) -> Result<Value, NoMemory>
    ensures code { IfOk result (λ t. Ready b.old → operation_of operator ≡ Some code → divides operator ≡ true → Combined operator left right dest t b.old b.new) }
    ensures fits { IfOk result (λ t. operation_of operator ≡ Some code → CombinesWell left right dest t b.old b.new) }
{
    let c = b.fresh(Bank::Branch)?;
    b.guard(
        alloc,
        Op::Compute {
            code: Code::ToBranch(Compare::Ne),
            to: c,
            left: right,
            right: Operand::Number(0),
        },
        c,
        Trap::Divide,
    )?;
    compute(b, alloc, code, left, right, dest)
}

fn single(
    b: &mut Builder,
    alloc: Global,
    operator: BinaryOperator,
    code: Code,
    left: Operand,
    right: Operand,
    dest: Option<Value>,
) -> Result<Value, NoMemory>
    ensures code { IfOk result (λ t. Ready b.old → operation_of operator ≡ Some code → divides operator ≡ false → Combined operator left right dest t b.old b.new) }
    ensures fits { IfOk result (λ t. operation_of operator ≡ Some code → CombinesWell left right dest t b.old b.new) }
{
    compute(b, alloc, code, left, right, dest)
}

/// An operator done to two operands.
pub fn combine(
    b: &mut Builder,
    alloc: Global,
    operator: BinaryOperator,
    left: Operand,
    right: Operand,
    dest: Option<Value>,
) -> Result<Value, NoMemory>
    ensures code { IfOk result (λ t. Ready b.old → Combined operator left right dest t b.old b.new) }
    ensures fits { IfOk result (λ t. CombinesWell left right dest t b.old b.new) }
{
    match operation(operator) {
        None => product(b, alloc, left, right, dest),
        Some(code) => {
            if is_division(operator) {
                quotient(b, alloc, operator, code, left, right, dest)
            } else {
                single(b, alloc, operator, code, left, right, dest)
            }
        }
    }
}
