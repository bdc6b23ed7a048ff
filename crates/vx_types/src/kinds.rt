// Expressions: what their names stand for, and the faults of their kinds.

ghost use Rattle.std.specs.Prelude.{◌≡◌, ◌++◌, IfOk, false, true, if◌then◌else◌, nat_eq, not};
ghost use Rattle.vx_ast.specs.Faults.{called, changed, earlier, fault_if, handed, stands_before, indexed, least, phrase_faults, row_faults, row_length, same_place, target_faults, used, whole_faults};
ghost use Rattle.vx_ast.specs.Accepted.{gives_int};
ghost use Rattle.vx_ast.specs.Scopes.{named, wanted_by};
ghost use Rattle.vx_ast.specs.SyntaxView.{phrase_of, row_in};
ghost use Rattle.vx_types.specs.Arguments.{argument_faults};

use crate::arguments::taken_at;
use vx_ast::names::{Fault, Named};
use vx_ast::syntax::{Argument, Expression, Name, Place};
use vx_ast::tree::{Gives, Takes};
use vx_names::names::Names;

// Whether a fault stands before another.
fn stands_before(left: Fault, right: Fault) -> bool
    ensures { result ≡ stands_before left right }
{
    if left.place.line < right.place.line {
        true
    } else if right.place.line < left.place.line {
        false
    } else if left.place.column < right.place.column {
        true
    } else if right.place.column < left.place.column {
        false
    } else {
        left.code < right.code
    }
}

// The first of a fault that is there already and another one.
fn earlier(first: Option<Fault>, fault: Fault) -> Option<Fault>
    ensures { result ≡ earlier first fault }
{
    match first {
        None => Some(fault),
        Some(other) => {
            if stands_before(fault, other) {
                Some(fault)
            } else {
                Some(other)
            }
        }
    }
}

/// The first of a fault that is there already and this one, which is there where the test holds.
pub fn note(first: Option<Fault>, test: bool, code: u32, place: Place) -> Option<Fault>
    ensures { result ≡ least first (fault_if test code place) }
{
    if test {
        earlier(first, Fault { code, place })
    } else {
        first
    }
}

/// Whether a function gives a number back.
pub fn gives_int(gives: Gives) -> bool
    ensures { result ≡ gives_int gives }
{
    match gives {
        Gives::Int => true,
        Gives::Nothing => false,
    }
}

// The faults of a name that is used as a number.
fn note_used(first: Option<Fault>, name: &Name, named: Option<Named>) -> Option<Fault>
    ensures { result ≡ least first (used name.now named) }
{
    match named {
        None => note(first, true, 5, name.place),
        Some(named) => match named {
            Named::Scalar(_) | Named::Global(_) => first,
            _ => note(first, true, 7, name.place),
        },
    }
}

// The faults of a name with an index, or as an argument where an array is taken.
fn note_indexed(first: Option<Fault>, name: &Name, named: Option<Named>) -> Option<Fault>
    ensures { result ≡ least first (indexed name.now named) }
{
    match named {
        None => note(first, true, 5, name.place),
        Some(named) => match named {
            Named::Array(_) => first,
            _ => note(first, true, 7, name.place),
        },
    }
}

// The faults of a call of a function of the program.
#[tactic(auto, using(crate::proofs::Leasts::least_append))]
fn note_call(
    first: Option<Fault>,
    whole: bool,
    arguments: usize,
    name: &Name,
    gives: Gives,
    count: u32,
) -> Option<Fault>
    ensures { result ≡ least first (fault_if (if whole then false else not (gives_int gives)) 7 name.now.place ++ fault_if (not (nat_eq arguments count)) 8 name.now.place) }
{
    let kind = note(first, !whole && !gives_int(gives), 7, name.place);
    note(kind, arguments != count as usize, 8, name.place)
}

// The faults of a name with so many arguments.
fn note_called(
    first: Option<Fault>,
    whole: bool,
    arguments: usize,
    name: &Name,
    named: Option<Named>,
) -> Option<Fault>
    ensures { result ≡ least first (called whole arguments name.now named) }
{
    match named {
        None => note(first, true, 5, name.place),
        Some(named) => match named {
            Named::Function(_, gives, count) => note_call(
                first, whole, arguments, name, gives, count,
            ),
            Named::ReadInt | Named::MoreInput => note(first, arguments != 0, 8, name.place),
            _ => note(first, true, 7, name.place),
        },
    }
}

// A target that is no scalar, whose name has a fault of its own besides.
#[tactic(auto, using(crate::proofs::Leasts::least_append))]
fn note_both(first: Option<Fault>, code: u32, place: Place, name: &Name) -> Option<Fault>
    ensures { result ≡ least first (fault_if true code name.now.place ++ fault_if true 12 place) }
{
    let kind = note(first, true, code, name.place);
    note(kind, true, 12, place)
}

// The faults of a name as a target whose first token stands at the place.
fn note_changed(
    first: Option<Fault>,
    place: Place,
    name: &Name,
    named: Option<Named>,
) -> Option<Fault>
    ensures { result ≡ least first (changed place name.now named) }
{
    match named {
        None => note_both(first, 5, place, name),
        Some(named) => match named {
            Named::Scalar(_) | Named::Global(_) => first,
            Named::Print => note_both(first, 7, place, name),
            _ => note(first, true, 12, place),
        },
    }
}

fn same_place(left: Place, right: Place) -> bool
    ensures { result ≡ same_place left right }
{
    left.line == right.line && left.column == right.column
}

// A name behind a parenthesis, where an array is taken.
#[tactic(auto, using(crate::proofs::Leasts::least_append))]
fn note_enclosed(
    first: Option<Fault>,
    place: Place,
    name: &Name,
    named: Option<Named>,
) -> Option<Fault>
    ensures { result ≡ least first (fault_if true 7 place ++ used name.now named) }
{
    let kind = note(first, true, 7, place);
    note_used(kind, name, named)
}

// The faults of a name as an argument where an array is taken, which begins at the place.
fn note_named(
    first: Option<Fault>,
    place: Place,
    name: &Name,
    named: Option<Named>,
) -> Option<Fault>
    ensures { result ≡ least first (if same_place place name.now.place then indexed name.now named else (fault_if true 7 place ++ used name.now named)) }
{
    if same_place(place, name.place) {
        note_indexed(first, name, named)
    } else {
        note_enclosed(first, place, name, named)
    }
}

/// The first of a fault that is there already and those of an expression that is used as a number.
#[cycle(faults)]
#[tactic(auto, using(crate::proofs::Leasts::least_append, crate::proofs::Views::call_written))]
pub fn note_expression(
    names: &Names,
    expression: &Expression,
    first: Option<Fault>,
) -> Option<Fault>
    ensures { result ≡ least first (phrase_faults names.now (phrase_of expression.now)) }
{
    match expression {
        Expression::Number(_) => first,
        Expression::Name(name) => note_used(first, name, names.named(name.bytes.as_slice())),
        Expression::Element(name, index) => {
            let kind = note_indexed(first, name, names.named(name.bytes.as_slice()));
            note_expression(names, index, kind)
        }
        Expression::Call(name, row) => note_application(names, false, name, row.as_slice(), first),
        Expression::Unary(_, operand) => note_expression(names, operand, first),
        Expression::Binary(_, left, right) => {
            let before = note_expression(names, left, first);
            note_expression(names, right, before)
        }
        Expression::Both(left, right) => {
            let before = note_expression(names, left, first);
            note_expression(names, right, before)
        }
        Expression::Either(left, right) => {
            let before = note_expression(names, left, first);
            note_expression(names, right, before)
        }
        Expression::Choice(test, left, right) => {
            let tested = note_expression(names, test, first);
            let before = note_expression(names, left, tested);
            note_expression(names, right, before)
        }
    }
}

/// The first of a fault that is there already and those of a call with its arguments. Only as the whole of a statement may
/// it be that of a void function.
#[cycle(faults)]
fn note_application(
    names: &Names,
    whole: bool,
    name: &Name,
    row: &[Argument],
    first: Option<Fault>,
) -> Option<Fault>
    ensures { result ≡ least first (called whole (row_length (row_in row.now)) name.now (named name.now.bytes names.now) ++ row_faults names.now (wanted_by names.now (named name.now.bytes names.now)) (row_in row.now)) }
{
    let meant = names.named(name.bytes.as_slice());
    let kind = note_called(first, whole, row.len(), name, meant);
    note_row(names, names.wanted_by(meant), row, kind)
}

/// The first of a fault that is there already and those of a row of arguments, where this is taken.
#[cycle(faults)]
pub fn note_row(
    names: &Names,
    takes: &[Takes],
    row: &[Argument],
    first: Option<Fault>,
) -> Option<Fault>
    ensures { result ≡ least first (row_faults names.now takes.now (row_in row.now)) }
{
    let mut least = first;
    for (place, argument) in row.iter().enumerate() {
        least = note_argument(names, taken_at(takes, place), argument, least);
    }
    least
}

/// The first of a fault that is there already and those of an argument, where this is taken.
#[cycle(faults)]
fn note_argument(
    names: &Names,
    takes: Takes,
    argument: &Argument,
    first: Option<Fault>,
) -> Option<Fault>
    ensures { result ≡ least first (argument_faults names.now takes argument.now.place (phrase_of argument.now.expression)) }
{
    match takes {
        Takes::Number => note_expression(names, &argument.expression, first),
        Takes::Array => note_handed(names, argument.place, &argument.expression, first),
    }
}

/// The first of a fault that is there already and those of an argument where an array is taken, which begins at the place.
#[cycle(faults)]
fn note_handed(
    names: &Names,
    place: Place,
    expression: &Expression,
    first: Option<Fault>,
) -> Option<Fault>
    ensures { result ≡ least first (handed names.now place (phrase_of expression.now) (phrase_faults names.now (phrase_of expression.now))) }
{
    match expression {
        Expression::Name(name) => note_named(
            first,
            place,
            name,
            names.named(name.bytes.as_slice()),
        ),
        _ => note_misplaced(names, 7, place, expression, first),
    }
}

/// The first of a fault that is there already, that of an expression which may not stand at the place, and those of its own.
#[cycle(faults)]
#[tactic(auto, using(crate::proofs::Leasts::least_append))]
fn note_misplaced(
    names: &Names,
    code: u32,
    place: Place,
    expression: &Expression,
    first: Option<Fault>,
) -> Option<Fault>
    ensures { result ≡ least first (fault_if true code place ++ phrase_faults names.now (phrase_of expression.now)) }
{
    let before = note(first, true, code, place);
    note_expression(names, expression, before)
}

/// The first of a fault that is there already and those of the whole of an expression statement.
#[tactic(auto, using(crate::proofs::Views::call_written))]
pub fn note_whole(names: &Names, expression: &Expression, first: Option<Fault>) -> Option<Fault>
    ensures { result ≡ least first (whole_faults names.now (phrase_of expression.now)) }
{
    match expression {
        Expression::Call(name, row) => note_application(names, true, name, row.as_slice(), first),
        _ => note_expression(names, expression, first),
    }
}

/// The first of a fault that is there already and those of a target whose first token stands at the place.
#[tactic(auto, using(crate::proofs::Leasts::least_append))]
pub fn note_target(
    names: &Names,
    place: Place,
    expression: &Expression,
    first: Option<Fault>,
) -> Option<Fault>
    ensures { result ≡ least first (target_faults names.now place (phrase_of expression.now)) }
{
    match expression {
        Expression::Name(name) => note_changed(
            first,
            place,
            name,
            names.named(name.bytes.as_slice()),
        ),
        Expression::Element(name, index) => {
            let kind = note_indexed(first, name, names.named(name.bytes.as_slice()));
            note_expression(names, index, kind)
        }
        _ => note_misplaced(names, 12, place, expression, first),
    }
}
