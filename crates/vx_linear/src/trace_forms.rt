// The index forms of a trace: what each operation makes is found once, in trace order, from what those above it make.

ghost use Rattle.std.specs.Prelude.{◌≡◌, ◌+◌, ◌^◌, ◌<◌, ◌≤◌, ℕ, Some, IfOk, slice_get, OnOk};
ghost use Rattle.vx_linear.specs.Forms.{AreOrdered};
ghost use Rattle.vx_linear.specs.Followed.{made, known, index_of, index_made, access_form, form_at, above_of, forms_of};
ghost use Rattle.vx_linear.specs.Writers.{writer, has_join, made_at, index_there};
ghost use Rattle.vx_linear.specs.Passed.{Passes, JoinsAre};

use crate::form::{Form, Symbol};
use crate::known_values::{Known, Read, computed, copy_known, made_at, plain};
use crate::linear::{Linear, constant, copy, symbol};
use crate::passed::{Passed, join_places, none_passed, pass};
use crate::places::Places;
use std::alloc::{AllocError, Global};
use vx_arithmetic::div32;
use vx_base::listed::Listed;
use vx_base::outcome::NoMemory;
use vx_flow::arrays::array_in;
use vx_flow::graph::{ArrayId, Op, Operand, Value};
use vx_flow::trace::{Trace, TraceOp};

/// The form of the operation at a place, behind which that operation is passed.
fn follow(
    alloc: Global,
    trace: &Trace,
    joins: &Places,
    passed: &mut Passed,
    place: usize,
    op: &TraceOp,
) -> Result<Option<Form>, NoMemory>
    requires passed { Passes trace.now place passed.old }
    requires joins { JoinsAre trace.now.joins joins.now.entries.entries }
    requires there { slice_get trace.now.ops place ≡ Some op.now }
    requires few { place < 2 ^ 32 }
    ensures form { IfOk result (λ form. form ≡ form_at trace.now place op.now) }
    ensures passed { OnOk result (Passes trace.now (place + 1) passed.new) }
{
    let form = form_at(alloc, trace, passed, place, op)?;
    let index = index_made(alloc, trace, passed, place, op)?;
    let known = made(alloc, trace, passed, place, op)?;
    pass(passed, trace, joins, place, op, known, index)?;
    Ok(form)
}

/// The index forms of the loads and stores of a trace, by the places of its operations; None exactly for the other
/// operations. A form follows sums, differences, moves, shifts by a number and multiplications by a number, as far as no
/// join stands between (specs/Followed.antt). The symbols of each form ascend, as `differs` asks.
pub fn forms(alloc: Global, trace: &Trace) -> Result<Listed<Option<Form>>, NoMemory>
    ensures forms { IfOk result (λ forms. forms ≡ forms_of trace.now) }
    ensures ordered { IfOk result AreOrdered }
{
    let joins = join_places(alloc, trace.joins.as_slice())?;
    let mut passed = none_passed(alloc);
    follow_all(alloc, trace, &joins, &mut passed)
}

/// The forms of all operations, of which none is passed yet.
fn follow_all(
    alloc: Global,
    trace: &Trace,
    joins: &Places,
    passed: &mut Passed,
) -> Result<Listed<Option<Form>>, NoMemory>
    requires passed { Passes trace.now 0 passed.old }
    requires joins { JoinsAre trace.now.joins joins.now.entries.entries }
    ensures forms { IfOk result (λ forms. forms ≡ forms_of trace.now) }
    ensures ordered { IfOk result AreOrdered }
{
    let mut forms = Listed::new(alloc);
    let mut rest = trace.ops.as_slice();
    'follow: loop {
        match rest.split_first() {
            None => return Ok(forms),
            Some((op, others)) => {
                let place = forms.len();
                let form = follow(alloc, trace, joins, passed, place, op)?;
                forms.push(form)?;
                rest = others;
            }
        }
    }
}

/// The last operation above the place that writes the value.
fn last_writer(trace: &Trace, passed: &Passed, place: usize, value: Value) -> Option<usize>
    requires passed { Passes trace.now place passed.now }
    ensures writer { result ≡ writer trace.now.ops place value }
    ensures below { (j : ℕ) → result ≡ Some j → j < place }
{
    passed.writers.look(value)
}

/// Whether a join stands below one place, and not below the other.
fn has_join(trace: &Trace, passed: &Passed, above: usize, below: usize) -> bool
    requires passed { Passes trace.now below passed.now }
    requires above { above ≤ below }
    ensures { result ≡ has_join trace.now.joins above below }
{
    above < passed.join
}

/// What the operation at a place above made.
fn copy_made(
    alloc: Global,
    trace: &Trace,
    passed: &Passed,
    place: usize,
    above: usize,
) -> Result<Known, AllocError>
    requires passed { Passes trace.now place passed.now }
    requires above { above < place }
    ensures { IfOk result (λ found. found ≡ made_at trace.now above) }
{
    copy_known(alloc, &passed.knowns.as_slice()[above])
}

/// The index of the place that the operation at a place above made.
fn copy_index(
    alloc: Global,
    trace: &Trace,
    passed: &Passed,
    place: usize,
    above: usize,
) -> Result<Linear, AllocError>
    requires passed { Passes trace.now place passed.now }
    requires above { above < place }
    ensures { IfOk result (λ index. index ≡ index_there trace.now above (slice_get trace.now.ops above)) }
{
    copy(alloc, &passed.indices.as_slice()[above])
}

/// What is known of a value at a place.
fn known_value(
    alloc: Global,
    trace: &Trace,
    passed: &Passed,
    place: usize,
    value: Value,
) -> Result<Known, AllocError>
    requires passed { Passes trace.now place passed.now }
    requires few { place < 2 ^ 32 }
    ensures { IfOk result (λ found. found ≡ known (above_of trace.now place) (Operand.Held value)) }
{
    match last_writer(trace, passed, place, value) {
        None => Ok(plain(symbol(alloc, Symbol::Entry(value))?)),
        Some(writer) => {
            if has_join(trace, passed, writer, place) {
                made_at(alloc, writer as u32)
            } else {
                copy_made(alloc, trace, passed, place, writer)
            }
        }
    }
}

/// What is known of an operand at a place.
fn known(
    alloc: Global,
    trace: &Trace,
    passed: &Passed,
    place: usize,
    operand: &Operand,
) -> Result<Known, AllocError>
    requires passed { Passes trace.now place passed.now }
    requires few { place < 2 ^ 32 }
    ensures { IfOk result (λ found. found ≡ known (above_of trace.now place) operand.now) }
{
    match operand {
        Operand::Number(number) => Ok(plain(constant(alloc, *number))),
        Operand::Stack => Ok(plain(constant(alloc, 0))),
        Operand::Held(value) => known_value(alloc, trace, passed, place, *value),
    }
}

/// What the operation at a place makes.
fn made(
    alloc: Global,
    trace: &Trace,
    passed: &Passed,
    place: usize,
    op: &TraceOp,
) -> Result<Known, AllocError>
    requires passed { Passes trace.now place passed.now }
    requires few { place < 2 ^ 32 }
    ensures { IfOk result (λ found. found ≡ made place op.now (known (above_of trace.now place))) }
{
    match op {
        TraceOp::Plain(
            Op::Compute {
                code,
                left,
                right,
                ..
            },
        ) => {
            let first = known(alloc, trace, passed, place, left)?;
            let second = known(alloc, trace, passed, place, right)?;
            let left = Read {
                operand: *left,
                known: first,
            };
            let right = Read {
                operand: *right,
                known: second,
            };
            computed(alloc, place as u32, *code, left, right)
        }
        _ => made_at(alloc, place as u32),
    }
}

/// The index of the place that the operation at a place makes.
fn index_made(
    alloc: Global,
    trace: &Trace,
    passed: &Passed,
    place: usize,
    op: &TraceOp,
) -> Result<Linear, AllocError>
    requires passed { Passes trace.now place passed.now }
    requires few { place < 2 ^ 32 }
    ensures { IfOk result (λ index. index ≡ index_made place op.now (above_of trace.now place)) }
{
    match op {
        TraceOp::Plain(Op::Place { index, .. }) => {
            Ok(known(alloc, trace, passed, place, index)?.linear)
        }
        TraceOp::Plain(Op::PlaceIn { index, .. }) => {
            Ok(known(alloc, trace, passed, place, index)?.linear)
        }
        _ => symbol(alloc, Symbol::MadePlace(place as u32)),
    }
}

/// The index of the place that a value is.
fn index_value(
    alloc: Global,
    trace: &Trace,
    passed: &Passed,
    place: usize,
    value: Value,
) -> Result<Linear, AllocError>
    requires passed { Passes trace.now place passed.now }
    requires few { place < 2 ^ 32 }
    ensures { IfOk result (λ index. index ≡ index_of (above_of trace.now place) (Operand.Held value)) }
{
    match last_writer(trace, passed, place, value) {
        None => symbol(alloc, Symbol::EntryPlace(value)),
        Some(writer) => {
            if has_join(trace, passed, writer, place) {
                symbol(alloc, Symbol::MadePlace(writer as u32))
            } else {
                copy_index(alloc, trace, passed, place, writer)
            }
        }
    }
}

/// The index of a place that an access names.
fn index(
    alloc: Global,
    trace: &Trace,
    passed: &Passed,
    place: usize,
    operand: &Operand,
) -> Result<Linear, AllocError>
    requires passed { Passes trace.now place passed.now }
    requires few { place < 2 ^ 32 }
    ensures { IfOk result (λ index. index ≡ index_of (above_of trace.now place) operand.now) }
{
    match operand {
        Operand::Number(number) => Ok(constant(alloc, div32(*number, 4))),
        Operand::Stack => Ok(constant(alloc, 0)),
        Operand::Held(value) => index_value(alloc, trace, passed, place, *value),
    }
}

/// The form of an access.
fn form(
    alloc: Global,
    trace: &Trace,
    passed: &Passed,
    place: usize,
    access: (ArrayId, Operand),
) -> Result<Form, AllocError>
    requires passed { Passes trace.now place passed.now }
    requires few { place < 2 ^ 32 }
    ensures { IfOk result (λ form. form ≡ access_form trace.now place access.0 access.1) }
{
    let (array, operand) = access;
    let index = index(alloc, trace, passed, place, &operand)?;
    Ok(Form {
        array: array_in(trace.arrays.as_slice(), array),
        constant: index.constant,
        terms: index.terms,
    })
}

/// The form of the operation at a place, if it is an access.
fn form_at(
    alloc: Global,
    trace: &Trace,
    passed: &Passed,
    place: usize,
    op: &TraceOp,
) -> Result<Option<Form>, AllocError>
    requires passed { Passes trace.now place passed.now }
    requires few { place < 2 ^ 32 }
    ensures { IfOk result (λ form. form ≡ form_at trace.now place op.now) }
{
    match op {
        TraceOp::Plain(
            Op::Load {
                array,
                place: at,
                ..
            },
        ) => Ok(Some(form(alloc, trace, passed, place, (*array, *at))?)),
        TraceOp::Plain(
            Op::Store {
                array,
                place: at,
                ..
            },
        ) => Ok(Some(form(alloc, trace, passed, place, (*array, *at))?)),
        _ => Ok(None),
    }
}
