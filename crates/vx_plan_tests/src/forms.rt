// The index forms of the accesses of small traces, worked out by hand.

use std::alloc::Global;
use std::test::Fail;
use vx_base::arithmetic::Code;
use vx_base::outcome::NoMemory;
use vx_flow::graph::{Op, Operand};
use vx_linear::form::{Form, Symbol, Term};
use vx_linear::forms;
use vx_test_graphs::{Step, trace};

/// v4 = v1 + 1; v5 = v4 << 2; v6 and v7 = low and high half of v5 times 10; v8 their sum; v9 the place v8, of which the word is
/// loaded.
const FOLLOWED: [Step<'static>; 7] = [
    Step::More(4, 1, 1),
    Step::On(Code::Shl, 5, 4, Operand::Number(2)),
    Step::On(Code::Mpylu, 6, 5, Operand::Number(10)),
    Step::On(Code::Mpyhs, 7, 5, Operand::Number(10)),
    Step::Sum(8, 6, 7),
    Step::Place(9, 0, 8),
    Step::Load(10, 0, 9),
];

/// A load at a place that nothing in the trace made, and a store at one that is a number: 24 bytes are 6 words.
const OUTSIDE: [Step<'static>; 2] = [
    Step::Load(5, 0, 3),
    Step::Plain(Op::Store {
        array: 0,
        place: Operand::Number(24),
        from: Operand::Number(1),
    }),
];

/// A trace and its joins, a place of it, and the constant of its form and the one symbol with its factor, if they are there.
type Row = (
    &'static [Step<'static>],
    &'static [u32],
    usize,
    Option<(i32, Option<(Symbol, i32)>)>,
);

const ROWS: [Row; 6] = [
    (&FOLLOWED, &[], 5, None),
    // 10 * 4 * (v1 + 1)
    (&FOLLOWED, &[], 6, Some((40, Some((Symbol::Entry(1), 40))))),
    // below a join what stands above it is not followed
    (&FOLLOWED, &[1], 6, Some((0, Some((Symbol::Made(0), 40))))),
    (
        &FOLLOWED,
        &[6],
        6,
        Some((0, Some((Symbol::MadePlace(5), 1)))),
    ),
    (
        &OUTSIDE,
        &[],
        0,
        Some((0, Some((Symbol::EntryPlace(3), 1)))),
    ),
    (&OUTSIDE, &[], 1, Some((6, None))),
];

fn are_terms(terms: &[Term], wanted: Option<(Symbol, i32)>) -> bool {
    match (terms, wanted) {
        ([], None) => true,
        ([term], Some((symbol, factor))) => term.symbol == symbol && term.factor == factor,
        _ => false,
    }
}

fn is_form(form: &Option<Form>, wanted: Option<(i32, Option<(Symbol, i32)>)>) -> bool {
    match (form, wanted) {
        (None, None) => true,
        (Some(form), Some((constant, term))) => {
            form.constant == constant && are_terms(form.terms.as_slice(), term)
        }
        _ => false,
    }
}

fn holds(alloc: Global, row: &Row) -> Result<bool, NoMemory> {
    let (steps, joins, place, wanted) = row;
    let trace = trace(alloc, steps, joins)?;
    let forms = forms(alloc, &trace)?;
    match forms.as_slice().get(*place) {
        Some(form) => Ok(is_form(form, *wanted)),
        None => Ok(false),
    }
}

fn first_wrong(alloc: Global) -> Result<usize, NoMemory> {
    for (number, row) in ROWS.iter().enumerate() {
        if !holds(alloc, row)? {
            return Ok(number);
        }
    }
    Ok(ROWS.len())
}

#[test]
fn forms_of_accesses(rt: HostRuntime) -> Result<(), Fail> {
    assert_eq!(rt; first_wrong(rt.alloc())?, ROWS.len());
    Ok(())
}
