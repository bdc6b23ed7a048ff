// What is known of the places and the words of arrays inside of a block. A store forgets the other words of its array and those of
// each array that may share a word with it, a write of a value what speaks of it; nothing is known at the start of a block, and so
// nothing behind a call.

ghost use Rattle.std.specs.Prelude.{◌≡◌, ◌++◌, true, drop, IfOk, IfSome};
ghost use Rattle.vx_claims.specs.Accesses.{accessed, is_told, loaded_as, mentions, moved_from, moved_or, place_in, place_known, same_access, tell, touches, unless, unmentioned, untouched, value_if, with_words, word_in};

use crate::fact::Fact;
use crate::known::same_operand;
use std::alloc::Global;
use vx_base::arithmetic::Code;
use vx_base::listed::Listed;
use vx_base::outcome::NoMemory;
use vx_flow::arrays::may_meet;
use vx_flow::graph::{Array, ArrayId, Op, Operand, Value};
use vx_flow::operands::{is_value, written_by};

/// What is known of an array.
#[derive(Clone, Copy)]
pub enum Access {
    /// A value is the place of the element at an index.
    Placed {
        value: Value,
        array: ArrayId,
        index: Operand,
    },
    /// The word at a place holds what an operand holds.
    Stored {
        array: ArrayId,
        place: Operand,
        from: Operand,
    },
}

fn mentions(value: Value, access: Access) -> bool
    ensures { result ≡ mentions value access }
{
    match access {
        Access::Placed {
            value: named,
            index,
            ..
        } => named == value || is_value(value, &index),
        Access::Stored { place, from, .. } => is_value(value, &place) || is_value(value, &from),
    }
}

/// Whether a store to an array may change it.
fn touches(arrays: &[Array], array: ArrayId, access: Access) -> bool
    ensures { result ≡ touches arrays.now array access }
{
    match access {
        Access::Placed { .. } => false,
        Access::Stored { array: stored, .. } => may_meet(arrays, array, stored),
    }
}

/// Whether two say the same in the same words.
fn same_access(first: Access, second: Access) -> bool
    ensures { result ≡ same_access first second }
{
    match first {
        Access::Placed {
            value,
            array,
            index,
        } => match second {
            Access::Placed {
                value: other,
                array: there,
                index: at,
            } => (other == value && there == array) && same_operand(at, index),
            Access::Stored { .. } => false,
        },
        Access::Stored { array, place, from } => match second {
            Access::Stored {
                array: there,
                place: at,
                from: other,
            } => there == array && (same_operand(at, place) && same_operand(other, from)),
            Access::Placed { .. } => false,
        },
    }
}

fn is_told(known: &[Access], access: Access) -> bool
    ensures { result ≡ is_told known.now access }
{
    match known {
        [] => false,
        [first, rest @ ..] => same_access(access, *first) || is_told(rest, access),
    }
}

/// How many there are up to the first that says the same.
fn past_told(known: &[Access], access: Access) -> Option<usize>
    ensures { IfSome result (λ _. is_told known.now access ≡ true) }
{
    let mut past: usize = 0;
    for told in known {
        past = past.saturating_add(1);
        if same_access(access, *told) {
            return Some(past);
        }
    }
    None
}

/// What is known from a place on.
fn from_place(known: &[Access], place: usize) -> &[Access]
    ensures { result.now ≡ drop place known.now }
{
    if place <= known.len() {
        &known[place..]
    } else {
        &[]
    }
}

/// The same as `is_told`, which looks first from a place on: claims stand mostly in the order of what is known. The place is then the
/// one behind what was found.
#[tactic(auto, using(crate::proofs::Fronts::told_behind))]
fn is_told_near(known: &[Access], place: &mut usize, access: Access) -> bool
    ensures { result ≡ is_told known.now access }
{
    match past_told(from_place(known, *place), access) {
        Some(past) => {
            *place = place.saturating_add(past);
            true
        }
        None => is_told(known, access),
    }
}

/// Whether all claims are known.
pub fn tell(known: &[Access], claims: &[Access]) -> bool
    ensures { result ≡ tell known.now claims.now }
{
    let mut place: usize = 0;
    for claim in claims {
        if !is_told_near(known, &mut place, *claim) {
            return false;
        }
    }
    true
}

/// Puts what does not mention a value at the end of a list.
fn append_unmentioned(
    list: &mut Listed<Access>,
    known: &[Access],
    value: Value,
) -> Result<(), NoMemory>
    ensures { IfOk result (λ _. list.new ≡ list.old ++ unmentioned value known.now) }
{
    for access in known {
        if !mentions(value, *access) {
            list.push(*access)?;
        }
    }
    Ok(())
}

/// Puts what a store to an array does not touch at the end of a list.
fn append_untouched(
    list: &mut Listed<Access>,
    arrays: &[Array],
    known: &[Access],
    array: ArrayId,
) -> Result<(), NoMemory>
    ensures { IfOk result (λ _. list.new ≡ list.old ++ untouched arrays.now array known.now) }
{
    for access in known {
        if !touches(arrays, array, *access) {
            list.push(*access)?;
        }
    }
    Ok(())
}

fn append_known(list: &mut Listed<Access>, known: &[Access]) -> Result<(), NoMemory>
    ensures { IfOk result (λ _. list.new ≡ list.old ++ known.now) }
{
    for access in known {
        list.push(*access)?;
    }
    Ok(())
}

/// Puts an access and what does not mention a value at the end of a list.
fn append_unless(
    list: &mut Listed<Access>,
    known: &[Access],
    test: bool,
    access: Access,
    value: Value,
) -> Result<(), NoMemory>
    ensures { IfOk result (λ _. list.new ≡ list.old ++ unless test access (unmentioned value known.now)) }
{
    if !test {
        list.push(access)?;
    }
    append_unmentioned(list, known, value)
}

/// What is known behind an operation of a function with these arrays.
pub fn accessed(
    alloc: Global,
    arrays: &[Array],
    known: &[Access],
    op: &Op,
) -> Result<Listed<Access>, NoMemory>
    ensures { IfOk result (λ behind. behind ≡ accessed arrays.now known.now op.now) }
{
    let mut behind = Listed::new(alloc);
    append_accessed(&mut behind, arrays, known, op)?;
    Ok(behind)
}

/// Puts what is known behind an operation at the end of a list.
fn append_accessed(
    list: &mut Listed<Access>,
    arrays: &[Array],
    known: &[Access],
    op: &Op,
) -> Result<(), NoMemory>
    ensures { IfOk result (λ _. list.new ≡ list.old ++ accessed arrays.now known.now op.now) }
{
    match *op {
        Op::Place { to, array, index } => append_unless(
            list,
            known,
            is_value(to, &index),
            Access::Placed {
                value: to,
                array,
                index,
            },
            to,
        ),
        Op::Load {
            to,
            array,
            place,
            ..
        } => append_unless(
            list,
            known,
            is_value(to, &place),
            Access::Stored {
                array,
                place,
                from: Operand::Held(to),
            },
            to,
        ),
        Op::Store { array, place, from } => {
            list.push(Access::Stored { array, place, from })?;
            append_untouched(list, arrays, known, array)
        }
        _ => match written_by(op) {
            Some(to) => append_unmentioned(list, known, to),
            None => append_known(list, known),
        },
    }
}

fn value_if(test: bool, value: Value) -> Option<Value>
    ensures { result ≡ value_if test value }
{
    if test { Some(value) } else { None }
}

/// The value that is the place of an element for longest.
fn place_in(known: &[Access], array: ArrayId, index: Operand) -> Option<Value>
    ensures { result ≡ place_in known.now array index }
{
    match known {
        [] => None,
        [first, rest @ ..] => match *first {
            Access::Placed {
                value,
                array: other,
                index: there,
            } => match place_in(rest, array, index) {
                Some(place) => Some(place),
                None => value_if(other == array && same_operand(there, index), value),
            },
            Access::Stored { .. } => place_in(rest, array, index),
        },
    }
}

/// What holds what a word of an array holds.
fn word_in(known: &[Access], array: ArrayId, place: Operand) -> Option<Operand>
    ensures { result ≡ word_in known.now array place }
{
    match known {
        [] => None,
        [first, rest @ ..] => match *first {
            Access::Placed { .. } => word_in(rest, array, place),
            Access::Stored {
                array: other,
                place: there,
                from,
            } => {
                if other == array && same_operand(there, place) {
                    Some(from)
                } else {
                    word_in(rest, array, place)
                }
            }
        },
    }
}

fn moved_or(from: Option<Operand>, to: Value, otherwise: Op) -> Op
    ensures { result ≡ moved_or from to otherwise }
{
    match from {
        None => otherwise,
        Some(operand) => Op::Compute {
            code: Code::Mov,
            to,
            left: operand,
            right: Operand::Number(0),
        },
    }
}

fn loaded_as(known: &[Access], dismissible: bool, to: Value, array: ArrayId, place: Operand) -> Op
    ensures { result ≡ loaded_as known.now dismissible to array place }
{
    let load = Op::Load {
        to,
        array,
        place,
        dismissible,
    };
    if dismissible {
        load
    } else {
        moved_or(word_in(known, array, place), to, load)
    }
}

/// The operation, or a move where it is a load of a word that an operand holds.
pub fn with_words(known: &[Access], op: Op) -> Op
    ensures { result ≡ with_words known.now op }
{
    match op {
        Op::Load {
            to,
            array,
            place,
            dismissible,
        } => loaded_as(known, dismissible, to, array, place),
        other => other,
    }
}

fn append_moved(list: &mut Listed<Fact>, to: Value, from: Option<Value>) -> Result<(), NoMemory>
    ensures { IfOk result (λ _. list.new ≡ list.old ++ moved_from to from) }
{
    match from {
        None => Ok(()),
        Some(value) => {
            list.push(Fact::Equals {
                value: to,
                code: Code::Mov,
                left: Operand::Held(value),
                right: Operand::Number(0),
            })?;
            Ok(())
        }
    }
}

/// Puts at the end of a list that a place stands in a value already.
pub fn append_place(list: &mut Listed<Fact>, known: &[Access], op: &Op) -> Result<(), NoMemory>
    ensures { IfOk result (λ _. list.new ≡ list.old ++ place_known known.now op.now) }
{
    match *op {
        Op::Place { to, array, index } => append_moved(list, to, place_in(known, array, index)),
        _ => Ok(()),
    }
}

/// A copy of what is known.
pub fn copied_accesses(alloc: Global, known: &[Access]) -> Result<Listed<Access>, NoMemory>
    ensures { IfOk result (λ copy. copy ≡ known.now) }
{
    Ok(Listed::from_vec(known.to_vec(alloc)?)?)
}
