// A plain interpreter of sources: recursive over the tree, with a store of lists. Its clause says that it comes to what
// specs/Meaning.antt of vx_ast says. It is for tests and teaching; the compiler does not use it.

ghost use Rattle.std.specs.Prelude.{◌≡◌, ◌+◌, ℕ, pos, List, [], Some, None, length, map, IfOk, MatchResult};
ghost use Rattle.std.specs.Option.{option_map};
ghost use Rattle.vx_plain.specs.Interpreting.{Comes, IsAfterBody, IsAfterTurn, Passes, calls_at, falls, given, held_at, itself, leaves_of, located, outcome_at, outcome_in, put_at, spot_at};
ghost use Rattle.vx_plain.specs.Kept.{store_of};
ghost use Rattle.vx_ast.specs.Meaning as meaning;
ghost use Rattle.vx_ast.specs.Meaning.{Falls, NumberArgument, With, active, acts, after_body, array_at, arrays_given, combined, deepest, does, index_in, next_input, numbers_given, outcome_of, source, test_of, turns, turns_first, value};
ghost use Rattle.vx_ast.specs.View.{action_of, all_in, arguments_in, code_of, first_of, item_of, items_of, place_of, program_of, row_in, step_of, tree_of};
ghost use Rattle.vx_base.specs.declared.outcome.Trap.TheVariants.{Index as ByIndex};

use crate::active::{Active, spot};
use crate::operators::{binary, truth, unary};
use crate::store::Memory;
use std::alloc::{AllocFailed, Global};
use vx_arithmetic::{add32, sub32};
use vx_ast::tree::{
    Argument, BinaryOperator, Expression, First, Item, Program, Simple, Statement, Target,
};
use vx_base::listed::{Bytes, Listed};
use vx_base::outcome::{NoMemory, Trap};

/// The most functions that are active at a time.
const DEEPEST: u32 = 512;

/// How many constructs and calls may stand in one another: a bound on the stack that the interpreter takes.
const ROOM: u32 = 20000;

/// How a run comes to its end.
#[derive(Clone, Copy, PartialEq, Eq)]
pub enum End {
    /// `main` gave this result.
    Result(i32),
    /// A trap.
    Trap(Trap),
    /// A loop would take one more turn than it may.
    Bound,
}

/// What a program did.
#[derive(Drop)]
pub struct Ending {
    /// How it came to its end.
    pub end: End,
    /// The bytes that it printed.
    pub out: Bytes,
}

/// Why a part of a program is left before it is done.
#[derive(Clone, Copy)]
enum Stop {
    /// A trap.
    Trap(Trap),
    /// A loop would take one more turn than it may.
    Bound,
    /// Memory is wanted and not there.
    Memory,
}

impl From<NoMemory> for Stop {
    ghost use Rattle.std.specs.Prelude.{◌≡◌};
    ghost use Rattle.vx_plain.specs.declared.interpreter.Stop.TheVariants.{Memory};

    ghost from_gives = { λ _ e. e ≡ Memory };

    fn from(_: NoMemory) -> Stop {
        Stop::Memory
    }
}

impl<T: Drop> From<AllocFailed<T>> for Stop {
    ghost use Rattle.std.specs.Prelude.{◌≡◌};
    ghost use Rattle.vx_plain.specs.declared.interpreter.Stop.TheVariants.{Memory};

    ghost from_gives = { λ _ e. e ≡ Memory };

    fn from(_: AllocFailed<T>) -> Stop {
        Stop::Memory
    }
}

/// How a statement is left.
#[derive(Clone, Copy)]
enum Leave {
    /// To the next statement.
    Falls,
    /// Out of its loop.
    Breaks,
    /// To the next turn of its loop.
    Continues,
    /// Out of its function, with a value.
    Returns(i32),
}

/// The place of a target.
#[derive(Clone, Copy)]
enum Located {
    /// A scalar of the active function.
    Scalar(u32),
    /// A word of an array, by the place of the array and the index.
    Word(usize, usize),
}

/// What is given to a function.
#[derive(Drop)]
struct Arguments {
    /// The numbers.
    numbers: Vec<i32>,
    /// Where the arrays stand.
    arrays: Vec<usize>,
}

/// The room inside a construct.
fn deeper(room: u32) -> Result<u32, Stop>
    ensures { MatchResult result (λ inner. inner + 1 ≡ room) (λ e. e ≡ Stop.Memory) }
{
    if room == 0 {
        return Err(Stop::Memory);
    }
    Ok(room - 1)
}

/// The place of an index in an array.
fn inside(store: &Memory, a: usize, index: i32) -> Result<usize, Stop>
    ensures { MatchResult result (λ i. index_in (length (array_at (store_of store.now) a)) index ≡ Some i) (λ e. (e ≡ Stop.Trap ByIndex) × (index_in (length (array_at (store_of store.now) a)) index ≡ None)) }
{
    if index < 0 || index as usize >= store.size(a) {
        return Err(Stop::Trap(Trap::Index));
    }
    Ok(index as usize)
}

/// The value of an operator with two operands, or the trap of a division by 0.
fn combine(store: &Memory, operator: BinaryOperator, x: i32, y: i32) -> Result<i32, Stop>
    ensures { Comes itself result store.now (combined operator x y (store_of store.now)) }
{
    match operator {
        BinaryOperator::Divide | BinaryOperator::Remainder => {
            if y == 0 {
                return Err(Stop::Trap(Trap::Divide));
            }
            Ok(binary(operator, x, y))
        }
        _ => Ok(binary(operator, x, y)),
    }
}

/// The next number of the input.
fn read(store: &mut Memory) -> Result<i32, Stop>
    ensures { Comes itself result store.new (next_input store.old.input (store_of store.old)) }
{
    match store.next() {
        Some(x) => Ok(x),
        None => Err(Stop::Trap(Trap::Input)),
    }
}

/// What a place holds.
fn held(store: &Memory, place: Located) -> i32
    ensures { result ≡ held_at place (store_of store.now) }
{
    match place {
        Located::Scalar(x) => store.scalar(x),
        Located::Word(a, i) => store.word(a, i),
    }
}

/// Puts a number into a place.
fn put(store: &mut Memory, place: Located, v: i32) -> Result<(), Stop>
    ensures { Comes falls result store.new (With Falls (put_at place v (store_of store.old))) }
{
    match place {
        Located::Scalar(x) => {
            store.set_scalar(x, v)?;
            Ok(())
        }
        Located::Word(a, i) => {
            store.set_word(a, i, v);
            Ok(())
        }
    }
}

/// Whether a loop is left behind a turn, and how.
fn after_one_turn(left: Leave) -> Option<Leave>
    ensures { IsAfterTurn left result }
{
    match left {
        Leave::Falls | Leave::Continues => None,
        Leave::Breaks => Some(Leave::Falls),
        Leave::Returns(r) => Some(Leave::Returns(r)),
    }
}

/// Whether a `for` is left behind its body, before its step, and how.
fn after_one_body(left: Leave) -> Option<Leave>
    ensures { IsAfterBody left result }
{
    match left {
        Leave::Falls | Leave::Continues => None,
        Leave::Breaks => Some(Leave::Falls),
        Leave::Returns(r) => Some(Leave::Returns(r)),
    }
}

/// What a function gives, by how its body is left: 0 without a return.
fn number_given(left: Leave) -> i32
    ensures { result ≡ given left }
{
    match left {
        Leave::Falls | Leave::Breaks | Leave::Continues => 0,
        Leave::Returns(r) => r,
    }
}

/// How many arrays there are, where this is a number of 32 bits.
fn base_of(arrays: usize) -> Result<u32, Stop>
    ensures { MatchResult result (λ base. base ≡ arrays) (λ e. e ≡ Stop.Memory) }
{
    match u32::try_from(arrays) {
        Ok(base) => Ok(base),
        Err(_) => Err(Stop::Memory),
    }
}

/// The value of an expression.
#[cycle(running)]
fn evaluate(
    alloc: Global,
    program: &Program,
    at: &Active,
    room: u32,
    store: &mut Memory,
    e: &Expression,
) -> Result<i32, Stop>
    ensures { Comes itself result store.new (value (spot_at program.now at.now) (calls_at program.now at.now) (tree_of e.now) (store_of store.old)) }
{
    let inner = deeper(room)?;
    match e {
        Expression::Number(n) => Ok(*n),
        Expression::Scalar(x) => Ok(store.scalar(*x)),
        Expression::Global(a) => Ok(store.word(spot(program, at, *a), 0)),
        Expression::Element(a, index) => {
            let index = evaluate(alloc, program, at, inner, store, index)?;
            let array = spot(program, at, *a);
            let i = inside(store, array, index)?;
            Ok(store.word(array, i))
        }
        Expression::Unary(operator, a) => {
            let x = evaluate(alloc, program, at, inner, store, a)?;
            Ok(unary(*operator, x))
        }
        Expression::Binary(operator, a, b) => {
            let x = evaluate(alloc, program, at, inner, store, a)?;
            let y = evaluate(alloc, program, at, inner, store, b)?;
            combine(store, *operator, x, y)
        }
        Expression::Both(a, b) => {
            let x = evaluate(alloc, program, at, inner, store, a)?;
            if x == 0 {
                return Ok(0);
            }
            let y = evaluate(alloc, program, at, inner, store, b)?;
            Ok(truth(y))
        }
        Expression::Either(a, b) => {
            let x = evaluate(alloc, program, at, inner, store, a)?;
            if x != 0 {
                return Ok(1);
            }
            let y = evaluate(alloc, program, at, inner, store, b)?;
            Ok(truth(y))
        }
        Expression::Choice(c, a, b) => {
            let test = evaluate(alloc, program, at, inner, store, c)?;
            if test != 0 {
                evaluate(alloc, program, at, inner, store, a)
            } else {
                evaluate(alloc, program, at, inner, store, b)
            }
        }
        Expression::Call(f, row) => {
            let given = evaluate_arguments(alloc, program, at, inner, store, row.as_slice())?;
            call(
                alloc,
                program,
                at,
                inner,
                store,
                *f,
                given.numbers,
                given.arrays.as_slice(),
            )
        }
        Expression::ReadInt => read(store),
        Expression::MoreInput => Ok(i32::from(store.has_more())),
    }
}

/// What a row of arguments gives, from left to right.
#[cycle(running)]
fn evaluate_arguments(
    alloc: Global,
    program: &Program,
    at: &Active,
    room: u32,
    store: &mut Memory,
    row: &[Argument],
) -> Result<Arguments, Stop>
    ensures { Passes result store.new (value (spot_at program.now at.now) (calls_at program.now at.now) (arguments_in row.now) (store_of store.old)) }
{
    let inner = deeper(room)?;
    let mut numbers = Vec::new(alloc);
    let mut arrays = Vec::new(alloc);
    for argument in row {
        match argument {
            Argument::Number(e) => {
                let x = evaluate(alloc, program, at, inner, store, e)?;
                numbers.push(x)?;
            }
            Argument::Array(a) => {
                arrays.push(spot(program, at, *a))?;
            }
        }
    }
    Ok(Arguments { numbers, arrays })
}

/// The values of a row of numbers, from left to right.
#[cycle(running)]
fn evaluate_row(
    alloc: Global,
    program: &Program,
    at: &Active,
    room: u32,
    store: &mut Memory,
    row: &[Expression],
) -> Result<Vec<i32>, Stop>
    ensures { Comes (λ numbers. map NumberArgument numbers.items) result store.new (value (spot_at program.now at.now) (calls_at program.now at.now) (row_in row.now) (store_of store.old)) }
{
    let inner = deeper(room)?;
    let mut numbers = Vec::new(alloc);
    for e in row {
        let x = evaluate(alloc, program, at, inner, store, e)?;
        numbers.push(x)?;
    }
    Ok(numbers)
}

/// Calls a function: the numbers that are given to it, and where the arrays stand that are given to it.
#[cycle(running)]
fn call(
    alloc: Global,
    program: &Program,
    at: &Active,
    room: u32,
    store: &mut Memory,
    f: u32,
    numbers: Vec<i32>,
    given: &[usize],
) -> Result<i32, Stop>
    ensures { (arguments : List meaning.Argument) → numbers_given arguments ≡ numbers.items → arrays_given arguments ≡ given.now → Comes itself result store.new (calls_at program.now at.now f arguments (store_of store.old)) }
{
    let inner = deeper(room)?;
    if at.depth == 0 {
        return Err(Stop::Trap(Trap::Depth));
    }
    let place = f as usize;
    if place >= program.functions.len() {
        return Err(Stop::Bound);
    }
    let arrays = store.arrays();
    let base = base_of(arrays)?;
    let callee = Active {
        depth: at.depth - 1,
        given,
        base,
        turns: at.turns,
    };
    let function = &program.functions[place];
    let caller = store.enter(alloc, numbers, function.arrays.as_slice())?;
    let left = execute_all(
        alloc,
        program,
        &callee,
        inner,
        store,
        function.body.as_slice(),
    )?;
    store.leave(caller, arrays);
    Ok(number_given(left))
}

/// The place of a target: its index is evaluated and checked.
#[cycle(running)]
fn locate(
    alloc: Global,
    program: &Program,
    at: &Active,
    room: u32,
    store: &mut Memory,
    target: &Target,
) -> Result<Located, Stop>
    ensures { Comes itself result store.new (located (spot_at program.now at.now) (calls_at program.now at.now) (place_of target.now) (store_of store.old)) }
{
    let inner = deeper(room)?;
    match target {
        Target::Scalar(x) => Ok(Located::Scalar(*x)),
        Target::Global(a) => Ok(Located::Word(spot(program, at, *a), 0)),
        Target::Element(a, index) => {
            let index = evaluate(alloc, program, at, inner, store, index)?;
            let array = spot(program, at, *a);
            let i = inside(store, array, index)?;
            Ok(Located::Word(array, i))
        }
    }
}

/// Does a simple statement. The place of a target is found first.
#[cycle(running)]
fn act(
    alloc: Global,
    program: &Program,
    at: &Active,
    room: u32,
    store: &mut Memory,
    action: &Simple,
) -> Result<(), Stop>
    ensures { Comes falls result store.new (acts (spot_at program.now at.now) (calls_at program.now at.now) (action_of action.now) (store_of store.old)) }
{
    let inner = deeper(room)?;
    match action {
        Simple::Evaluate(e) => {
            evaluate(alloc, program, at, inner, store, e)?;
            Ok(())
        }
        Simple::Assign(target, e) => {
            let place = locate(alloc, program, at, inner, store, target)?;
            let v = evaluate(alloc, program, at, inner, store, e)?;
            put(store, place, v)
        }
        Simple::Compound(target, operator, e) => {
            let place = locate(alloc, program, at, inner, store, target)?;
            let old = held(store, place);
            let v = evaluate(alloc, program, at, inner, store, e)?;
            let new = combine(store, *operator, old, v)?;
            put(store, place, new)
        }
        Simple::Increase(target) => {
            let place = locate(alloc, program, at, inner, store, target)?;
            let old = held(store, place);
            put(store, place, add32(old, 1))
        }
        Simple::Decrease(target) => {
            let place = locate(alloc, program, at, inner, store, target)?;
            let old = held(store, place);
            put(store, place, sub32(old, 1))
        }
    }
}

/// Executes the items of a declaration.
#[cycle(running)]
fn declare(
    alloc: Global,
    program: &Program,
    at: &Active,
    room: u32,
    store: &mut Memory,
    items: &[Item],
) -> Result<(), Stop>
    ensures { Comes falls result store.new (does (spot_at program.now at.now) (calls_at program.now at.now) at.now.turns (items_of items.now) (store_of store.old)) }
{
    let inner = deeper(room)?;
    for item in items {
        declare_one(alloc, program, at, inner, store, item)?;
    }
    Ok(())
}

/// Executes an item of a declaration.
#[cycle(running)]
fn declare_one(
    alloc: Global,
    program: &Program,
    at: &Active,
    room: u32,
    store: &mut Memory,
    item: &Item,
) -> Result<(), Stop>
    ensures { Comes falls result store.new (does (spot_at program.now at.now) (calls_at program.now at.now) at.now.turns (item_of item.now) (store_of store.old)) }
{
    let inner = deeper(room)?;
    match item {
        Item::Scalar(x) => put(store, Located::Scalar(*x), 0),
        Item::ScalarWith(x, e) => {
            let v = evaluate(alloc, program, at, inner, store, e)?;
            put(store, Located::Scalar(*x), v)
        }
        Item::Array(a) => {
            store.clear(alloc, spot(program, at, *a))?;
            Ok(())
        }
    }
}

/// Executes statements, one after the other.
#[cycle(running)]
fn execute_all(
    alloc: Global,
    program: &Program,
    at: &Active,
    room: u32,
    store: &mut Memory,
    all: &[Statement],
) -> Result<Leave, Stop>
    ensures { Comes leaves_of result store.new (does (spot_at program.now at.now) (calls_at program.now at.now) at.now.turns (all_in all.now) (store_of store.old)) }
{
    let inner = deeper(room)?;
    for s in all {
        match execute(alloc, program, at, inner, store, s)? {
            Leave::Falls => {}
            Leave::Breaks => return Ok(Leave::Breaks),
            Leave::Continues => return Ok(Leave::Continues),
            Leave::Returns(r) => return Ok(Leave::Returns(r)),
        }
    }
    Ok(Leave::Falls)
}

/// Executes a statement.
#[cycle(running)]
fn execute(
    alloc: Global,
    program: &Program,
    at: &Active,
    room: u32,
    store: &mut Memory,
    s: &Statement,
) -> Result<Leave, Stop>
    ensures { Comes leaves_of result store.new (does (spot_at program.now at.now) (calls_at program.now at.now) at.now.turns (code_of s.now) (store_of store.old)) }
{
    let inner = deeper(room)?;
    match s {
        Statement::Empty => Ok(Leave::Falls),
        Statement::Block(all) => execute_all(alloc, program, at, inner, store, all.as_slice()),
        Statement::Declaration(items) => {
            declare(alloc, program, at, inner, store, items.as_slice())?;
            Ok(Leave::Falls)
        }
        Statement::Simple(action) => {
            act(alloc, program, at, inner, store, action)?;
            Ok(Leave::Falls)
        }
        Statement::Print(format, row) => {
            let numbers = evaluate_row(alloc, program, at, inner, store, row.as_slice())?;
            store.print(alloc, format.as_slice(), numbers.as_slice())?;
            Ok(Leave::Falls)
        }
        Statement::If(test, body) => {
            if evaluate(alloc, program, at, inner, store, test)? == 0 {
                return Ok(Leave::Falls);
            }
            execute(alloc, program, at, inner, store, body)
        }
        Statement::IfElse(test, a, b) => {
            if evaluate(alloc, program, at, inner, store, test)? == 0 {
                return execute(alloc, program, at, inner, store, b);
            }
            execute(alloc, program, at, inner, store, a)
        }
        Statement::While(test, body) => repeat_while(alloc, program, at, inner, store, test, body),
        Statement::DoWhile(body, test) => repeat_do(alloc, program, at, inner, store, body, test),
        Statement::For(first, test, step, body) => {
            begin(alloc, program, at, inner, store, first)?;
            repeat_for(alloc, program, at, inner, store, test, step, body)
        }
        Statement::Break => Ok(Leave::Breaks),
        Statement::Continue => Ok(Leave::Continues),
        Statement::Return => Ok(Leave::Returns(0)),
        Statement::ReturnValue(e) => {
            let v = evaluate(alloc, program, at, inner, store, e)?;
            Ok(Leave::Returns(v))
        }
    }
}

/// Executes the first part of the head of a `for`.
#[cycle(running)]
fn begin(
    alloc: Global,
    program: &Program,
    at: &Active,
    room: u32,
    store: &mut Memory,
    first: &First,
) -> Result<(), Stop>
    ensures { Comes falls result store.new (does (spot_at program.now at.now) (calls_at program.now at.now) at.now.turns (first_of first.now) (store_of store.old)) }
{
    let inner = deeper(room)?;
    match first {
        First::Nothing => Ok(()),
        First::Simple(action) => act(alloc, program, at, inner, store, action),
        First::Items(items) => declare(alloc, program, at, inner, store, items.as_slice()),
    }
}

/// Takes the turns of a `while`.
#[cycle(running)]
fn repeat_while(
    alloc: Global,
    program: &Program,
    at: &Active,
    room: u32,
    store: &mut Memory,
    test: &Expression,
    body: &Statement,
) -> Result<Leave, Stop>
    ensures { Comes leaves_of result store.new (turns at.now.turns (value (spot_at program.now at.now) (calls_at program.now at.now) (tree_of test.now)) (does (spot_at program.now at.now) (calls_at program.now at.now) at.now.turns (code_of body.now)) (store_of store.old)) }
{
    let inner = deeper(room)?;
    let mut left = at.turns;
    while left > 0 {
        if evaluate(alloc, program, at, inner, store, test)? == 0 {
            return Ok(Leave::Falls);
        }
        let how = execute(alloc, program, at, inner, store, body)?;
        if let Some(out) = after_one_turn(how) {
            return Ok(out);
        }
        left -= 1;
    }
    if evaluate(alloc, program, at, inner, store, test)? == 0 {
        return Ok(Leave::Falls);
    }
    Err(Stop::Bound)
}

/// Takes the turns of a `do`.
#[cycle(running)]
fn repeat_do(
    alloc: Global,
    program: &Program,
    at: &Active,
    room: u32,
    store: &mut Memory,
    body: &Statement,
    test: &Expression,
) -> Result<Leave, Stop>
    ensures { Comes leaves_of result store.new (turns_first at.now.turns (value (spot_at program.now at.now) (calls_at program.now at.now) (tree_of test.now)) (does (spot_at program.now at.now) (calls_at program.now at.now) at.now.turns (code_of body.now)) (store_of store.old)) }
{
    let inner = deeper(room)?;
    let mut left = at.turns;
    while left > 0 {
        let how = execute(alloc, program, at, inner, store, body)?;
        if let Some(out) = after_one_turn(how) {
            return Ok(out);
        }
        if evaluate(alloc, program, at, inner, store, test)? == 0 {
            return Ok(Leave::Falls);
        }
        left -= 1;
    }
    Err(Stop::Bound)
}

/// Takes the turns of a `for`.
#[cycle(running)]
fn repeat_for(
    alloc: Global,
    program: &Program,
    at: &Active,
    room: u32,
    store: &mut Memory,
    test: &Option<Expression>,
    step: &Option<Simple>,
    body: &Statement,
) -> Result<Leave, Stop>
    ensures { Comes leaves_of result store.new (turns at.now.turns (test_of (spot_at program.now at.now) (calls_at program.now at.now) (option_map tree_of test.now)) (λ t. after_body (does (spot_at program.now at.now) (calls_at program.now at.now) at.now.turns (code_of body.now) t) (does (spot_at program.now at.now) (calls_at program.now at.now) at.now.turns (step_of step.now))) (store_of store.old)) }
{
    let inner = deeper(room)?;
    let mut left = at.turns;
    while left > 0 {
        if holds(alloc, program, at, inner, store, test)? == 0 {
            return Ok(Leave::Falls);
        }
        let how = execute(alloc, program, at, inner, store, body)?;
        if let Some(out) = after_one_body(how) {
            return Ok(out);
        }
        advance(alloc, program, at, inner, store, step)?;
        left -= 1;
    }
    if holds(alloc, program, at, inner, store, test)? == 0 {
        return Ok(Leave::Falls);
    }
    Err(Stop::Bound)
}

/// The value of the condition of a `for`; 1 where there is none.
#[cycle(running)]
fn holds(
    alloc: Global,
    program: &Program,
    at: &Active,
    room: u32,
    store: &mut Memory,
    test: &Option<Expression>,
) -> Result<i32, Stop>
    ensures { Comes itself result store.new (test_of (spot_at program.now at.now) (calls_at program.now at.now) (option_map tree_of test.now) (store_of store.old)) }
{
    let inner = deeper(room)?;
    match test {
        Some(e) => evaluate(alloc, program, at, inner, store, e),
        None => Ok(1),
    }
}

/// Does the step of a `for`, where there is one.
#[cycle(running)]
fn advance(
    alloc: Global,
    program: &Program,
    at: &Active,
    room: u32,
    store: &mut Memory,
    step: &Option<Simple>,
) -> Result<(), Stop>
    ensures { Comes falls result store.new (does (spot_at program.now at.now) (calls_at program.now at.now) at.now.turns (step_of step.now) (store_of store.old)) }
{
    let inner = deeper(room)?;
    match step {
        Some(action) => act(alloc, program, at, inner, store, action),
        None => Ok(()),
    }
}

/// What a program does with an input, where each loop may take so many turns since it was entered. A function that is
/// not there, which no accepted program calls, is answered by `Bound`.
///
/// The interpreter is recursive: it refuses by `NoMemory` to go deeper than 20,000 constructs and calls in one another,
/// so that its stack stays small. A main of small functions reaches the 512th active one.
pub fn interpret(
    alloc: Global,
    program: &Program,
    input: &[i32],
    turns: u64,
) -> Result<Ending, NoMemory>
    ensures { IfOk result (λ ending. outcome_in ending ≡ source (program_of program.now) input.now turns) }
{
    let mut store = Memory::make(alloc, program.globals.as_slice(), input)?;
    let end = run(alloc, program, turns, &mut store)?;
    let out = Listed::from_vec(store.into_out())?;
    Ok(Ending { end, out })
}

/// Runs `main`.
fn run(alloc: Global, program: &Program, turns: u64, store: &mut Memory) -> Result<End, NoMemory>
    ensures { IfOk result (λ end. outcome_at end store.new.out ≡ outcome_of (active (program_of program.now) deepest turns program.now.main [] (store_of store.old))) }
{
    let at = Active {
        depth: DEEPEST,
        given: &[],
        base: 0,
        turns,
    };
    match call(
        alloc,
        program,
        &at,
        ROOM,
        store,
        program.main,
        Vec::new(alloc),
        &[],
    ) {
        Ok(result) => Ok(End::Result(result)),
        Err(Stop::Trap(trap)) => Ok(End::Trap(trap)),
        Err(Stop::Bound) => Ok(End::Bound),
        Err(Stop::Memory) => Err(NoMemory),
    }
}
