// The operations that carry those on values, in the registers by which a word names them.

ghost use Rattle.std.specs.Prelude.{◌≡◌, ◌<◌, ◌^◌, if◌then◌else◌, pos, IfOk, length};
ghost use Rattle.vx_flow.specs.declared.graph.Op.TheVariants.{Compute as ACompute, Select as ASelect, Place as APlace, Load as ALoad, Store as AStore, Base as ABase, PlaceIn as APlaceIn};
ghost use Rattle.vx_isa.specs.declared.operation.Source.TheVariants.{Held, Number};
ghost use Rattle.vx_target.specs.Target.{bytes, stack_on, base_of, access_base, access_offset, computes, carried, general_of, branch_of, source_of, is_own};
ghost use Rattle.vx_slots.specs.Seen.{seen};

use crate::lookups::{array_at, is_own, offset_of};
use crate::word_plan::Site;
use vx_arithmetic::add32;
use vx_base::arithmetic::Code;
use vx_base::outcome::NoMemory;
use vx_flow::graph::{ArrayId, Op, Operand, Value};
use vx_isa::operation::{BranchRegister, GeneralRegister, Operation, Register, Source};
use vx_slots::numbers::bytes;
use vx_slots::program::Whole;
use vx_slots::registers::{branch_of, general, general_of, register_of, source_of, stack_on};

/// What is added to a place of an array: the stack pointer where the array is one of the function's own.
fn base_of(whole: &Whole, function: u32, cluster: u32, array: ArrayId) -> GeneralRegister
    ensures { result ≡ base_of (seen whole.now) function cluster array }
{
    if is_own(whole, function, array) {
        stack_on(cluster)
    } else {
        general(cluster, 0)
    }
}

/// The register from which an access is counted.
fn access_base(
    whole: &Whole,
    function: u32,
    names: &[Value],
    cluster: u32,
    array: ArrayId,
    place: Operand,
) -> GeneralRegister
    requires few { length names.now < 2 ^ 31 }
    ensures { result ≡ access_base (seen whole.now) function (general_of (seen whole.now) function names.now) cluster array place }
{
    match place {
        Operand::Held(value) => general_of(whole, function, names, value),
        Operand::Number(_) => base_of(whole, function, cluster, array),
        Operand::Stack => base_of(whole, function, cluster, array),
    }
}

/// How many bytes from there an access is.
fn access_offset(
    whole: &Whole,
    function: u32,
    array: ArrayId,
    place: Operand,
) -> Result<i32, NoMemory>
    ensures { IfOk result (λ offset. offset ≡ access_offset (seen whole.now) function array place) }
{
    let begin = bytes(offset_of(whole, function, array))?;
    match place {
        Operand::Held(_) => Ok(begin),
        Operand::Number(number) => Ok(add32(begin, number)),
        Operand::Stack => Ok(begin),
    }
}

/// An operation by its code; one that moves has its own form.
fn computes(
    cluster: u32,
    code: Code,
    to: Register,
    moved: GeneralRegister,
    left: Source,
    right: Source,
) -> Operation
    ensures { result ≡ computes cluster code to moved left right }
{
    match code {
        Code::Mov => Operation::Move {
            cluster,
            to: moved,
            from: left,
        },
        _ => Operation::Compute {
            cluster,
            code,
            to,
            left,
            right,
        },
    }
}

/// What is added to the place of an element: the stack pointer where the array is one of the function's own.
fn added(whole: &Whole, function: u32, cluster: u32, array: ArrayId) -> Source
    ensures { result ≡ (if is_own (seen whole.now) function array then Held (stack_on cluster) else Number (pos 0)) }
{
    if is_own(whole, function, array) {
        Source::Held(stack_on(cluster))
    } else {
        Source::Number(0)
    }
}

/// The register by which a value is written.
fn target_of(whole: &Whole, site: &Site, value: Value) -> GeneralRegister
    ensures { result ≡ general_of (seen whole.now) site.now.function site.now.writes.now value }
{
    general_of(whole, site.function, site.writes, value)
}

/// An operand as it is read.
fn operand_of(whole: &Whole, site: &Site, operand: Operand) -> Source
    ensures { result ≡ source_of (general_of (seen whole.now) site.now.function site.now.reads.now) operand }
{
    source_of(whole, site.function, site.reads, operand)
}

/// The branch register of a test that is read.
fn test_of(whole: &Whole, site: &Site, test: Value) -> BranchRegister
    ensures { result ≡ record { cluster = 0; number = branch_of (seen whole.now) site.now.function site.now.reads.now test } }
{
    BranchRegister {
        cluster: 0,
        number: branch_of(whole, site.function, site.reads, test),
    }
}

/// The load that carries one.
fn carried_load(
    whole: &Whole,
    site: &Site,
    to: Value,
    array: ArrayId,
    place: Operand,
    dismissible: bool,
) -> Result<Operation, NoMemory>
    ensures { IfOk result (λ operation. operation ≡ carried (seen whole.now) site.now.function site.now.reads.now site.now.writes.now site.now.cluster (ALoad to array place dismissible)) }
{
    let offset = access_offset(whole, site.function, array, place)?;
    let base = access_base(whole, site.function, site.reads, site.cluster, array, place);
    Ok(Operation::Load {
        cluster: site.cluster,
        to: target_of(whole, site, to),
        offset,
        base,
        dismissible,
    })
}

/// The store that carries one.
fn carried_store(
    whole: &Whole,
    site: &Site,
    array: ArrayId,
    place: Operand,
    from: Operand,
) -> Result<Operation, NoMemory>
    ensures { IfOk result (λ operation. operation ≡ carried (seen whole.now) site.now.function site.now.reads.now site.now.writes.now site.now.cluster (AStore array place from)) }
{
    let offset = access_offset(whole, site.function, array, place)?;
    let base = access_base(whole, site.function, site.reads, site.cluster, array, place);
    Ok(Operation::Store {
        cluster: site.cluster,
        offset,
        base,
        from: operand_of(whole, site, from),
    })
}

/// The computation that carries one.
fn carried_compute(
    whole: &Whole,
    site: &Site,
    code: Code,
    to: Value,
    left: Operand,
    right: Operand,
) -> Operation
    ensures { result ≡ carried (seen whole.now) site.now.function site.now.reads.now site.now.writes.now site.now.cluster (ACompute code to left right) }
{
    let register = register_of(whole, site.function, site.writes, to);
    let moved = target_of(whole, site, to);
    let left = operand_of(whole, site, left);
    let right = operand_of(whole, site, right);
    computes(site.cluster, code, register, moved, left, right)
}

/// The choice between two operands that carries one.
fn carried_select(
    whole: &Whole,
    site: &Site,
    to: Value,
    test: Value,
    left: Operand,
    right: Operand,
) -> Operation
    ensures { result ≡ carried (seen whole.now) site.now.function site.now.reads.now site.now.writes.now site.now.cluster (ASelect to test left right) }
{
    Operation::Select {
        cluster: site.cluster,
        to: target_of(whole, site, to),
        test: test_of(whole, site, test),
        left: operand_of(whole, site, left),
        right: operand_of(whole, site, right),
    }
}

/// The place of an element as it is carried.
fn carried_place(whole: &Whole, site: &Site, to: Value, array: ArrayId, index: Operand) -> Operation
    ensures { result ≡ carried (seen whole.now) site.now.function site.now.reads.now site.now.writes.now site.now.cluster (APlace to array index) }
{
    Operation::Compute {
        cluster: site.cluster,
        code: Code::Sh2add,
        to: Register::General(target_of(whole, site, to)),
        left: operand_of(whole, site, index),
        right: added(whole, site.function, site.cluster, array),
    }
}

/// The base of an array as it is carried: the address of its first word.
fn carried_base(
    whole: &Whole,
    site: &Site,
    to: Value,
    array: ArrayId,
    from: Operand,
) -> Result<Operation, NoMemory>
    ensures { IfOk result (λ operation. operation ≡ carried (seen whole.now) site.now.function site.now.reads.now site.now.writes.now site.now.cluster (ABase to array from)) }
{
    let begin = bytes(array_at(whole, site.function, array))?;
    if is_own(whole, site.function, array) {
        Ok(Operation::Compute {
            cluster: site.cluster,
            code: Code::Add,
            to: Register::General(target_of(whole, site, to)),
            left: Source::Held(stack_on(site.cluster)),
            right: Source::Number(begin),
        })
    } else {
        Ok(Operation::Move {
            cluster: site.cluster,
            to: target_of(whole, site, to),
            from: Source::Number(begin),
        })
    }
}

/// The place of an element of an array that was handed over, as it is carried.
fn carried_place_in(
    whole: &Whole,
    site: &Site,
    to: Value,
    array: ArrayId,
    base: Value,
    index: Operand,
) -> Operation
    ensures { result ≡ carried (seen whole.now) site.now.function site.now.reads.now site.now.writes.now site.now.cluster (APlaceIn to array base index) }
{
    Operation::Compute {
        cluster: site.cluster,
        code: Code::Sh2add,
        to: Register::General(target_of(whole, site, to)),
        left: operand_of(whole, site, index),
        right: Source::Held(general_of(whole, site.function, site.reads, base)),
    }
}

/// The operation that carries one of a word.
pub(crate) fn carried(whole: &Whole, site: &Site, op: &Op) -> Result<Operation, NoMemory>
    ensures { IfOk result (λ operation. operation ≡ carried (seen whole.now) site.now.function site.now.reads.now site.now.writes.now site.now.cluster op.now) }
{
    match op {
        Op::Compute {
            code,
            to,
            left,
            right,
        } => Ok(carried_compute(whole, site, *code, *to, *left, *right)),
        Op::Select {
            to,
            test,
            left,
            right,
        } => Ok(carried_select(whole, site, *to, *test, *left, *right)),
        Op::Place { to, array, index } => Ok(carried_place(whole, site, *to, *array, *index)),
        Op::Base { to, array, from } => carried_base(whole, site, *to, *array, *from),
        Op::PlaceIn {
            to,
            array,
            base,
            index,
        } => Ok(carried_place_in(whole, site, *to, *array, *base, *index)),
        Op::Load {
            to,
            array,
            place,
            dismissible,
        } => carried_load(whole, site, *to, *array, *place, *dismissible),
        Op::Store { array, place, from } => carried_store(whole, site, *array, *place, *from),
        Op::More { to } => Ok(Operation::More {
            to: target_of(whole, site, *to),
        }),
        Op::Input { to } => Ok(Operation::Input {
            to: target_of(whole, site, *to),
        }),
        Op::Text { number } => Ok(Operation::OutText { text: *number }),
        Op::Decimal { from } => Ok(Operation::OutDecimal {
            from: operand_of(whole, site, *from),
        }),
        Op::Across { to, from } => Ok(Operation::Move {
            cluster: site.cluster,
            to: target_of(whole, site, *to),
            from: Source::Held(general_of(whole, site.function, site.reads, *from)),
        }),
    }
}
