// What one operation does, and what operations do one after the other. The clauses are `effect` of the graph's meaning; the
// answer is false where an operation has no meaning.

ghost use Rattle.std.specs.Prelude.{◌≡◌, ◌<◌, ◌+◌, ◌++◌, [], IfOk, OnOk, None, Some, length, pos, slice_index_or};
ghost use Rattle.std.specs.Fmt.{signed_decimal};
ghost use Rattle.vx_base.specs.Arithmetic.{one_if, value_of};
ghost use Rattle.vx_flow.specs.declared.graph.Op.TheVariants.{Text};
ghost use Rattle.vx_flow.specs.Effects.{both, cell_in, chosen, computed, effect, held, is_left, is_one, loaded, next_input, place_by, place_of, printed, row_of, stored, with_value};
ghost use Rattle.vx_flow.specs.Meaning.{spot_behind, spot_in};
ghost use Rattle.vx_tally.specs.Storage.{came, effects, setting_in, state_of};

use crate::storage::Storage;
use itoa::Buffer;
use vx_arithmetic::{mul32, value};
use vx_base::arithmetic::Code;
use vx_base::outcome::NoMemory;
use vx_flow::graph::{ArrayId, Flow, Op, Operand, Value};

/// What operations do, one after the other.
pub fn execute_all(
    storage: &mut Storage,
    flow: &Flow,
    passed: &[Option<usize>],
    base: usize,
    ops: &[Op],
) -> Result<bool, NoMemory>
    ensures { IfOk result (λ done. effects (setting_in flow.now passed.now base) (state_of storage.old) ops.now ≡ came done (state_of storage.new)) }
{
    for op in ops {
        if !execute(storage, flow, passed, base, op)? {
            return Ok(false);
        }
    }
    Ok(true)
}

/// What one operation does.
pub fn execute(
    storage: &mut Storage,
    flow: &Flow,
    passed: &[Option<usize>],
    base: usize,
    op: &Op,
) -> Result<bool, NoMemory>
    ensures { IfOk result (λ done. effect (setting_in flow.now passed.now base) (state_of storage.old) op.now (state_of storage.old) ≡ came done (state_of storage.new)) }
{
    match op {
        Op::Compute {
            code,
            to,
            left,
            right,
        } => compute(storage, *code, *to, left, right),
        Op::Select {
            to,
            test,
            left,
            right,
        } => select(storage, *to, *test, left, right),
        Op::Place { to, index, .. } => place(storage, *to, index),
        Op::Base { to, array, .. } => {
            let spot = spot_in(flow.globals.len(), passed, base, *array)?;
            base_at(storage, *to, spot)
        }
        Op::PlaceIn {
            to,
            base,
            index,
            ..
        } => place_by(storage, *to, *base, index),
        Op::Load {
            to,
            array,
            place,
            dismissible,
        } => {
            let spot = spot_in(flow.globals.len(), passed, base, *array)?;
            load(storage, *to, spot, place, *dismissible)
        }
        Op::Store { array, place, from } => {
            let spot = spot_in(flow.globals.len(), passed, base, *array)?;
            store(storage, spot, place, from)
        }
        Op::More { to } => more(storage, *to),
        Op::Input { to } => input(storage, *to),
        Op::Text { number } => text(storage, flow, *number),
        Op::Decimal { from } => decimal(storage, from),
        Op::Across { to, from } => across(storage, *to, *from),
    }
}

/// Where an array of a function stands in the list of arrays, with so many globals, where these were passed to it and its own
/// ones stand from the base on.
fn spot_in(
    globals: usize,
    passed: &[Option<usize>],
    base: usize,
    array: ArrayId,
) -> Result<usize, NoMemory>
    ensures { IfOk result (λ spot. spot ≡ spot_in globals passed.now base array) }
{
    let array = array as usize;
    if array < globals {
        return Ok(array);
    }
    spot_behind(passed, base, array - globals)
}

/// Where the array at a place behind the globals stands. It goes one call deeper for each place where one may be passed.
#[tactic(auto, using(crate::proofs::Turns::behind_passed, crate::proofs::Turns::behind_own))]
fn spot_behind(passed: &[Option<usize>], base: usize, place: usize) -> Result<usize, NoMemory>
    ensures { IfOk result (λ spot. spot ≡ spot_behind passed.now base place) }
{
    match passed {
        [first, later @ ..] => match first {
            Some(spot) => {
                if place == 0 {
                    return Ok(*spot);
                }
                let spot = spot_behind(later, base, place - 1)?;
                Ok(spot)
            }
            None => {
                if place == 0 {
                    return Ok(base);
                }
                let behind = far(base, 1)?;
                let spot = spot_behind(later, behind, place - 1)?;
                Ok(spot)
            }
        },
        [] => {
            let spot = far(base, place)?;
            Ok(spot)
        }
    }
}

/// So far behind a place.
fn far(place: usize, steps: usize) -> Result<usize, NoMemory>
    ensures { IfOk result (λ spot. spot ≡ place + steps) }
{
    match place.checked_add(steps) {
        Some(spot) => Ok(spot),
        None => Err(NoMemory),
    }
}

fn compute(
    storage: &mut Storage,
    code: Code,
    to: Value,
    left: &Operand,
    right: &Operand,
) -> Result<bool, NoMemory>
    ensures { IfOk result (λ done. Some (with_value (state_of storage.old) to (computed code (held (state_of storage.old) left.now) (held (state_of storage.old) right.now))) ≡ came done (state_of storage.new)) }
{
    let left = storage.held(left);
    let right = storage.held(right);
    let content = computed(code, left, right);
    storage.write(to, content)?;
    Ok(true)
}

fn computed(code: Code, left: Option<i32>, right: Option<i32>) -> Option<i32>
    ensures { result ≡ computed code left right }
{
    match code {
        Code::Mov => left,
        _ => both(code, left, right),
    }
}

fn both(code: Code, left: Option<i32>, right: Option<i32>) -> Option<i32>
    ensures { result ≡ both (value_of code) left right }
{
    match left {
        Some(a) => match right {
            Some(b) => Some(value(code, a, b)),
            None => None,
        },
        None => None,
    }
}

fn select(
    storage: &mut Storage,
    to: Value,
    test: Value,
    left: &Operand,
    right: &Operand,
) -> Result<bool, NoMemory>
    ensures { IfOk result (λ done. Some (with_value (state_of storage.old) to (chosen ((state_of storage.old).values test) (held (state_of storage.old) left.now) (held (state_of storage.old) right.now))) ≡ came done (state_of storage.new)) }
{
    let test = storage.value(test);
    let left = storage.held(left);
    let right = storage.held(right);
    let content = chosen(test, left, right);
    storage.write(to, content)?;
    Ok(true)
}

fn chosen(test: Option<i32>, left: Option<i32>, right: Option<i32>) -> Option<i32>
    ensures { result ≡ chosen test left right }
{
    match test {
        Some(answer) => { if is_one(answer) { left } else { right } }
        None => None,
    }
}

/// A test holds where it is 1.
pub fn is_one(answer: i32) -> bool
    ensures { result ≡ is_one answer }
{
    match answer {
        1 => true,
        _ => false,
    }
}

fn place(storage: &mut Storage, to: Value, index: &Operand) -> Result<bool, NoMemory>
    ensures { IfOk result (λ done. Some (with_value (state_of storage.old) to (place_of (held (state_of storage.old) index.now))) ≡ came done (state_of storage.new)) }
{
    let index = storage.held(index);
    let content = place_of(index);
    storage.write(to, content)?;
    Ok(true)
}

fn place_of(index: Option<i32>) -> Option<i32>
    ensures { result ≡ place_of index }
{
    match index {
        Some(number) => Some(mul32(4, number)),
        None => None,
    }
}

/// Where an array stands. There is want of memory for more arrays than can be told apart by numbers.
fn base_at(storage: &mut Storage, to: Value, spot: usize) -> Result<bool, NoMemory>
    ensures { IfOk result (λ done. Some (with_value (state_of storage.old) to (Some (pos spot))) ≡ came done (state_of storage.new)) }
{
    match i32::try_from(spot) {
        Ok(number) => {
            storage.write(to, Some(number))?;
            Ok(true)
        }
        Err(_) => Err(NoMemory),
    }
}

fn place_by(
    storage: &mut Storage,
    to: Value,
    base: Value,
    index: &Operand,
) -> Result<bool, NoMemory>
    ensures { IfOk result (λ done. Some (with_value (state_of storage.old) to (place_by ((state_of storage.old).values base) (held (state_of storage.old) index.now))) ≡ came done (state_of storage.new)) }
{
    let base = storage.value(base);
    let index = storage.held(index);
    let content = placed_by(base, index);
    storage.write(to, content)?;
    Ok(true)
}

fn placed_by(base: Option<i32>, index: Option<i32>) -> Option<i32>
    ensures { result ≡ place_by base index }
{
    match base {
        Some(_) => place_of(index),
        None => None,
    }
}

fn load(
    storage: &mut Storage,
    to: Value,
    spot: usize,
    place: &Operand,
    dismissible: bool,
) -> Result<bool, NoMemory>
    ensures { IfOk result (λ done. loaded (state_of storage.old) to (row_of (state_of storage.old) spot) (cell_in (length (row_of (state_of storage.old) spot)) (held (state_of storage.old) place.now)) dismissible ≡ came done (state_of storage.new)) }
{
    let place = storage.held(place);
    match storage.cell(spot, place) {
        Some(index) => {
            let content = storage.word(spot, index);
            storage.write(to, content)?;
            Ok(true)
        }
        None => dismiss(storage, to, dismissible),
    }
}

/// A load outside of its array.
fn dismiss(storage: &mut Storage, to: Value, dismissible: bool) -> Result<bool, NoMemory>
    ensures { IfOk result (λ done. loaded (state_of storage.old) to [] None dismissible ≡ came done (state_of storage.new)) }
{
    if dismissible {
        storage.write(to, None)?;
        Ok(true)
    } else {
        Ok(false)
    }
}

fn store(
    storage: &mut Storage,
    spot: usize,
    place: &Operand,
    from: &Operand,
) -> Result<bool, NoMemory>
    ensures { IfOk result (λ done. stored (state_of storage.old) spot (cell_in (length (row_of (state_of storage.old) spot)) (held (state_of storage.old) place.now)) (held (state_of storage.old) from.now) ≡ came done (state_of storage.new)) }
{
    let place = storage.held(place);
    let content = storage.held(from);
    match storage.cell(spot, place) {
        Some(index) => Ok(store_at(storage, spot, index, content)),
        None => Ok(false),
    }
}

fn store_at(storage: &mut Storage, spot: usize, index: usize, content: Option<i32>) -> bool
    ensures { stored (state_of storage.old) spot (Some index) content ≡ came result (state_of storage.new) }
{
    match content {
        Some(number) => {
            storage.set_word(spot, index, number);
            true
        }
        None => false,
    }
}

fn more(storage: &mut Storage, to: Value) -> Result<bool, NoMemory>
    ensures { IfOk result (λ done. Some (with_value (state_of storage.old) to (Some (one_if (is_left (state_of storage.old).input)))) ≡ came done (state_of storage.new)) }
{
    let left = storage.more();
    storage.write(to, Some(left))?;
    Ok(true)
}

fn input(storage: &mut Storage, to: Value) -> Result<bool, NoMemory>
    ensures { IfOk result (λ done. next_input (state_of storage.old) to (state_of storage.old).input ≡ came done (state_of storage.new)) }
{
    let number = storage.next();
    match number {
        Some(_) => {
            storage.read = with_next(storage.input.as_slice(), storage.read);
            storage.write(to, number)?;
            Ok(true)
        }
        None => Ok(false),
    }
}

/// How many numbers of the input are read with the next one, which is there.
fn with_next(input: &[i32], read: usize) -> usize
    requires { read < length input.now }
    ensures { result ≡ read + 1 }
{
    read + 1
}

fn text(storage: &mut Storage, flow: &Flow, number: u32) -> Result<bool, NoMemory>
    ensures { IfOk result (λ done. effect (setting_in flow.now [] 0) (state_of storage.old) (Text number) (state_of storage.old) ≡ came done (state_of storage.new)) }
{
    match flow.texts.as_slice().get(number as usize) {
        Some(bytes) => {
            storage.out.extend_from_slice(bytes.as_slice())?;
            Ok(true)
        }
        None => Ok(true),
    }
}

fn decimal(storage: &mut Storage, from: &Operand) -> Result<bool, NoMemory>
    ensures { IfOk result (λ done. printed (state_of storage.old) (state_of storage.old).out (held (state_of storage.old) from.now) ≡ came done (state_of storage.new)) }
{
    match storage.held(from) {
        Some(number) => {
            push_number(&mut storage.out, number)?;
            Ok(true)
        }
        None => Ok(false),
    }
}

/// Puts a number in signed decimal at the end.
fn push_number(out: &mut Vec<u8>, number: i32) -> Result<(), NoMemory>
    ensures { OnOk result (out.new.items ≡ out.old.items ++ signed_decimal number) }
{
    let mut buffer = Buffer::new();
    out.extend_from_slice(buffer.format(number).as_bytes())?;
    Ok(())
}

fn across(storage: &mut Storage, to: Value, from: Value) -> Result<bool, NoMemory>
    ensures { IfOk result (λ done. Some (with_value (state_of storage.old) to ((state_of storage.old).values from)) ≡ came done (state_of storage.new)) }
{
    let content = storage.value(from);
    storage.write(to, content)?;
    Ok(true)
}
