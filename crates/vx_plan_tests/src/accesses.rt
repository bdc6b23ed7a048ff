// Whether pairs of index forms can name one word, worked out by hand.

ghost use Rattle.std.specs.Prelude.{◌≡◌, true, IfOk};
ghost use Rattle.vx_linear.specs.Forms.{is_before_all, is_ordered};

use std::alloc::Global;
use std::test::Fail;
use vx_base::answer::Answer;
use vx_base::listed::Listed;
use vx_base::outcome::NoMemory;
use vx_flow::graph::Array;
use vx_linear::differs;
use vx_linear::form::{Form, Symbol, Term};

fn is_before_all(symbol: &Symbol, terms: &[Term]) -> bool
    ensures { result ≡ is_before_all symbol.now terms.now }
{
    terms.iter().all(|term| symbol.is_before(&term.symbol))
}

fn are_ordered(terms: &[Term]) -> bool
    ensures { result ≡ is_ordered terms.now }
{
    match terms.split_first() {
        Some((first, rest)) => {
            first.factor != 0 && is_before_all(&first.symbol, rest) && are_ordered(rest)
        }
        None => true,
    }
}

fn listed_terms(alloc: Global, terms: &[(Symbol, i32)]) -> Result<Listed<Term>, NoMemory> {
    let mut list = Listed::new(alloc);
    for (symbol, factor) in terms {
        list.push(Term {
            symbol: *symbol,
            factor: *factor,
        })?;
    }
    Ok(list)
}

/// A global array of this number.
fn numbered(named: u32) -> Array {
    Array {
        words: 16,
        global: true,
        named,
        base: None,
    }
}

fn form(
    alloc: Global,
    array: Array,
    constant: i32,
    terms: &[(Symbol, i32)],
) -> Result<Form, NoMemory>
    ensures { IfOk result (λ form. is_ordered form.terms ≡ true) }
{
    let terms = listed_terms(alloc, terms)?;
    if !are_ordered(terms.as_slice()) {
        return Err(NoMemory);
    }
    Ok(Form {
        array,
        constant,
        terms,
    })
}

/// Symbols and their factors.
type Terms = &'static [(Symbol, i32)];

const I: Terms = &[(Symbol::Entry(1), 1)];

const TWO_I: Terms = &[(Symbol::Entry(1), 2)];

const TWO_J: Terms = &[(Symbol::Entry(2), 2)];

const THREE_I: Terms = &[(Symbol::Entry(1), 3)];

const THREE_J: Terms = &[(Symbol::Entry(2), 3)];

const FOUR_I: Terms = &[(Symbol::Entry(1), 4)];

const SIX_J: Terms = &[(Symbol::Entry(2), 6)];

const FOUR_I_TWO_J: Terms = &[(Symbol::Entry(1), 4), (Symbol::Entry(2), 2)];

const SIX_J_THREE_MADE: Terms = &[(Symbol::Entry(2), 6), (Symbol::Made(0), 3)];

const NOTHING: Terms = &[];

/// A constant and terms of array 0, an array, a constant and terms of it, and the answer.
type Row = (i32, Terms, u32, i32, Terms, Answer);

const ROWS: [Row; 15] = [
    // i and i + 1
    (0, I, 0, 1, I, Answer::Never),
    // 2 i and 2 j + 1
    (0, TWO_I, 0, 1, TWO_J, Answer::Never),
    // 4 i + 2 and 6 j + 1
    (2, FOUR_I, 0, 1, SIX_J, Answer::Never),
    // 3 i and 3 j + 1
    (0, THREE_I, 0, 1, THREE_J, Answer::Maybe),
    // i + 1 and i + 1
    (1, I, 0, 1, I, Answer::Always),
    // i and i + 2^30, whose places are equal
    (0, I, 0, 1073741824, I, Answer::Maybe),
    // 2 i and i
    (0, TWO_I, 0, 0, I, Answer::Maybe),
    // 4 i + 2 j and 6 j + 1: the factors of the difference are 4 and -4
    (0, FOUR_I_TWO_J, 0, 1, SIX_J, Answer::Never),
    // 4 i + 2 j and 6 j + 4
    (0, FOUR_I_TWO_J, 0, 4, SIX_J, Answer::Maybe),
    // 4 i + 2 j and 6 j + 2
    (0, FOUR_I_TWO_J, 0, 2, SIX_J, Answer::Never),
    // 4 i + 2 j and 6 j + 3 m + 1
    (0, FOUR_I_TWO_J, 0, 1, SIX_J_THREE_MADE, Answer::Maybe),
    // 7 and 9
    (7, NOTHING, 0, 9, NOTHING, Answer::Never),
    // 7 and 7
    (7, NOTHING, 0, 7, NOTHING, Answer::Always),
    // 7 and 7 + 2^30
    (7, NOTHING, 0, 1073741831, NOTHING, Answer::Maybe),
    // i of two arrays
    (0, I, 1, 0, I, Answer::Never),
];

fn holds(alloc: Global, row: &Row) -> Result<bool, NoMemory> {
    let (constant, terms, array, other_constant, other_terms, answer) = row;
    let left = form(alloc, numbered(0), *constant, terms)?;
    let right = form(alloc, numbered(*array), *other_constant, other_terms)?;
    Ok(differs(&left, &right) == *answer && differs(&right, &left) == *answer)
}

fn first_wrong(alloc: Global) -> Result<usize, NoMemory> {
    for (number, row) in ROWS.iter().enumerate() {
        if !holds(alloc, row)? {
            return Ok(number);
        }
    }
    Ok(ROWS.len())
}

const FIRST_GIVEN: Array = Array {
    words: 0,
    global: false,
    named: 1,
    base: Some(10),
};

const SECOND_GIVEN: Array = Array {
    words: 0,
    global: false,
    named: 2,
    base: Some(11),
};

const OWN: Array = Array {
    words: 16,
    global: false,
    named: 3,
    base: None,
};

const WHOLE: Array = Array {
    words: 16,
    global: true,
    named: 0,
    base: None,
};

/// Two arrays, of one the index i and of the other i and a constant, and the answer.
type ArrayRow = (Array, Array, i32, Answer);

const ARRAY_ROWS: [ArrayRow; 7] = [
    // two that were handed over may be one
    (FIRST_GIVEN, SECOND_GIVEN, 0, Answer::Maybe),
    (FIRST_GIVEN, SECOND_GIVEN, 1, Answer::Never),
    (FIRST_GIVEN, FIRST_GIVEN, 0, Answer::Always),
    // no caller hands over an own one
    (FIRST_GIVEN, OWN, 0, Answer::Never),
    // a global may have been handed over
    (FIRST_GIVEN, WHOLE, 0, Answer::Maybe),
    (FIRST_GIVEN, WHOLE, 1, Answer::Never),
    (OWN, WHOLE, 0, Answer::Never),
];

fn array_holds(alloc: Global, row: &ArrayRow) -> Result<bool, NoMemory> {
    let (array, other, constant, answer) = row;
    let left = form(alloc, *array, 0, I)?;
    let right = form(alloc, *other, *constant, I)?;
    Ok(differs(&left, &right) == *answer && differs(&right, &left) == *answer)
}

fn first_wrong_array(alloc: Global) -> Result<usize, NoMemory> {
    for (number, row) in ARRAY_ROWS.iter().enumerate() {
        if !array_holds(alloc, row)? {
            return Ok(number);
        }
    }
    Ok(ARRAY_ROWS.len())
}

#[test]
fn pairs_of_arrays(rt: HostRuntime) -> Result<(), Fail> {
    assert_eq!(rt; first_wrong_array(rt.alloc())?, ARRAY_ROWS.len());
    Ok(())
}

#[test]
fn pairs_of_forms(rt: HostRuntime) -> Result<(), Fail> {
    assert_eq!(rt; first_wrong(rt.alloc())?, ROWS.len());
    Ok(())
}
