// Unrolling: a copy of each statement with its loops as decided, one by one in the order of the source.

ghost use Rattle.std.specs.Prelude.{◌≡◌, ◌<◌, ◌≤◌, true, false, IfOk, None, Some, if◌then◌else◌, option_map};
ghost use Rattle.vx_ast.specs.Tree as tree;
ghost use Rattle.vx_ast.specs.View.{all_in, action_of, code_of, step_of, tree_of};
ghost use Rattle.vx_unroll.specs.Growth.{code_onto, decided_as};
ghost use Rattle.vx_unroll.specs.Unrolling.{block_of, for_body, has_loop, own_words, turns_of, unrolled_in, where_it_fits, while_body};

use crate::expressions::{copied, copied_simple};
use crate::memory::{append, boxed};
use crate::parts::{copied_items, copied_print, for_made};
use crate::room::{for_cost, room_for, while_cost};
use crate::size::Size;
use crate::turns::{closed, put_behind, put_test, turn_of};
use std::alloc::Global;
use vx_ast::tree::{Expression, First, Simple, Statement};
use vx_base::outcome::NoMemory;

/// A statement with its loops as decided, what the function has then, and whether the statement has a loop.
#[derive(Drop)]
struct Made {
    statement: Statement,
    size: Size,
    loops: bool,
}

/// The same of a statement in a box.
#[derive(Drop)]
struct Held {
    statement: Box<Statement>,
    size: Size,
    loops: bool,
}

/// The same of two statements, one behind the other.
#[derive(Drop)]
struct BothHeld {
    left: Box<Statement>,
    right: Box<Statement>,
    size: Size,
    loops: bool,
}

/// The same of a list of statements.
#[derive(Drop)]
pub(crate) struct AllMade {
    pub(crate) all: Vec<Statement>,
    pub(crate) size: Size,
    loops: bool,
}

// Whether either of two has a loop.
fn either(left: bool, right: bool) -> bool
    ensures { result ≡ (if left then true else right) }
{
    if left { true } else { right }
}

// A statement with its loops as decided.
#[cycle(unrolling)]
fn decided(
    alloc: Global,
    statement: &Statement,
    more: u32,
    own: usize,
    arrays: &[u32],
    size: Size,
) -> Result<Made, NoMemory>
    requires some { 0 < more }
    requires few { more < 8 }
    ensures code { IfOk result (λ made. decided_as (code_of made.statement) made.size ≡ unrolled_in more (own_words own arrays.now) size (code_of statement.now)) }
    ensures loops { IfOk result (λ made. made.loops ≡ has_loop (code_of statement.now)) }
{
    match statement {
        Statement::Empty => Ok(Made {
            statement: Statement::Empty,
            size,
            loops: false,
        }),
        Statement::Block(all) => {
            let made = decided_all(alloc, all.as_slice(), more, own, arrays, size)?;
            Ok(Made {
                statement: Statement::Block(made.all),
                size: made.size,
                loops: made.loops,
            })
        }
        Statement::Declaration(items) => {
            let items = copied_items(alloc, items.as_slice())?;
            Ok(Made {
                statement: Statement::Declaration(items),
                size,
                loops: false,
            })
        }
        Statement::Simple(simple) => {
            let simple = copied_simple(alloc, simple)?;
            Ok(Made {
                statement: Statement::Simple(simple),
                size,
                loops: false,
            })
        }
        Statement::Print(format, row) => {
            let statement = copied_print(alloc, format.as_slice(), row.as_slice())?;
            Ok(Made {
                statement,
                size,
                loops: false,
            })
        }
        Statement::If(test, branch) => {
            let held = decided_held(alloc, branch, more, own, arrays, size)?;
            let test = copied(alloc, test)?;
            Ok(Made {
                statement: Statement::If(test, held.statement),
                size: held.size,
                loops: held.loops,
            })
        }
        Statement::IfElse(test, left, right) => {
            let left = decided_held(alloc, left, more, own, arrays, size)?;
            let both = decided_behind(alloc, right, more, own, arrays, left)?;
            let test = copied(alloc, test)?;
            Ok(Made {
                statement: Statement::IfElse(test, both.left, both.right),
                size: both.size,
                loops: both.loops,
            })
        }
        Statement::While(test, body) => {
            let held = while_decided(alloc, body, more, own, arrays, size, test)?;
            let test = copied(alloc, test)?;
            Ok(Made {
                statement: Statement::While(test, held.statement),
                size: held.size,
                loops: true,
            })
        }
        Statement::DoWhile(body, test) => {
            let held = decided_held(alloc, body, more, own, arrays, size)?;
            let test = copied(alloc, test)?;
            Ok(Made {
                statement: Statement::DoWhile(held.statement, test),
                size: held.size,
                loops: true,
            })
        }
        Statement::For(first, test, step, body) => {
            let held = for_decided(alloc, body, more, own, arrays, size, test, step)?;
            let size = held.size;
            let statement = for_made(alloc, first, test, step, held.statement)?;
            Ok(Made {
                statement,
                size,
                loops: true,
            })
        }
        Statement::Break => Ok(Made {
            statement: Statement::Break,
            size,
            loops: false,
        }),
        Statement::Continue => Ok(Made {
            statement: Statement::Continue,
            size,
            loops: false,
        }),
        Statement::Return => Ok(Made {
            statement: Statement::Return,
            size,
            loops: false,
        }),
        Statement::ReturnValue(value) => {
            let value = copied(alloc, value)?;
            Ok(Made {
                statement: Statement::ReturnValue(value),
                size,
                loops: false,
            })
        }
    }
}

// The same in a box.
#[cycle(unrolling)]
fn decided_held(
    alloc: Global,
    statement: &Statement,
    more: u32,
    own: usize,
    arrays: &[u32],
    size: Size,
) -> Result<Held, NoMemory>
    requires some { 0 < more }
    requires few { more < 8 }
    ensures code { IfOk result (λ made. decided_as (code_of made.statement.value) made.size ≡ unrolled_in more (own_words own arrays.now) size (code_of statement.now)) }
    ensures loops { IfOk result (λ made. made.loops ≡ has_loop (code_of statement.now)) }
{
    let made = decided(alloc, statement, more, own, arrays, size)?;
    let size = made.size;
    let loops = made.loops;
    let statement = boxed(alloc, made.statement)?;
    Ok(Held {
        statement,
        size,
        loops,
    })
}

// A statement behind one that is decided.
#[cycle(unrolling)]
fn decided_behind(
    alloc: Global,
    right: &Statement,
    more: u32,
    own: usize,
    arrays: &[u32],
    left: Held,
) -> Result<BothHeld, NoMemory>
    requires some { 0 < more }
    requires few { more < 8 }
    ensures left { IfOk result (λ made. code_of made.left.value ≡ code_of left.statement.value) }
    ensures right { IfOk result (λ made. decided_as (code_of made.right.value) made.size ≡ unrolled_in more (own_words own arrays.now) left.size (code_of right.now)) }
    ensures loops { IfOk result (λ made. made.loops ≡ (if left.loops then true else has_loop (code_of right.now))) }
{
    let right = decided_held(alloc, right, more, own, arrays, left.size)?;
    let loops = either(left.loops, right.loops);
    Ok(BothHeld {
        left: left.statement,
        right: right.statement,
        size: right.size,
        loops,
    })
}

/// The statements of a list with their loops as decided, one after the other.
#[cycle(unrolling)]
pub(crate) fn decided_all(
    alloc: Global,
    all: &[Statement],
    more: u32,
    own: usize,
    arrays: &[u32],
    size: Size,
) -> Result<AllMade, NoMemory>
    requires some { 0 < more }
    requires few { more < 8 }
    ensures code { IfOk result (λ made. decided_as (all_in made.all.items) made.size ≡ unrolled_in more (own_words own arrays.now) size (all_in all.now)) }
    ensures loops { IfOk result (λ made. made.loops ≡ has_loop (all_in all.now)) }
{
    let mut made = Vec::new(alloc);
    let mut reached = size;
    let mut loops = false;
    for one in all {
        let done = decided(alloc, one, more, own, arrays, reached)?;
        reached = done.size;
        loops = either(loops, done.loops);
        append(&mut made, done.statement)?;
    }
    Ok(AllMade {
        all: made,
        size: reached,
        loops,
    })
}

// A copy of the body of a loop that contains none, as a turn.
#[cycle(unrolling)]
fn turn_copy(
    alloc: Global,
    body: &Statement,
    more: u32,
    own: usize,
    arrays: &[u32],
    size: Size,
) -> Result<Statement, NoMemory>
    requires some { 0 < more }
    requires few { more < 8 }
    requires plain { has_loop (code_of body.now) ≡ false }
    ensures { IfOk result (λ turn. code_of turn ≡ block_of (code_of body.now)) }
{
    let made = decided(alloc, body, more, own, arrays, size)?;
    turn_of(alloc, made.statement)
}

// The turns of a `while` before the last one, each with the test behind it.
#[cycle(unrolling)]
fn while_front(
    alloc: Global,
    body: &Statement,
    more: u32,
    own: usize,
    arrays: &[u32],
    size: Size,
    test: &Expression,
) -> Result<Vec<Statement>, NoMemory>
    requires some { 0 < more }
    requires few { more < 8 }
    requires plain { has_loop (code_of body.now) ≡ false }
    ensures { IfOk result (λ front. code_onto front.items (tree.Seq (block_of (code_of body.now)) tree.Nothing) ≡ turns_of more (Some (tree_of test.now)) None (code_of body.now)) }
{
    let mut front = Vec::new(alloc);
    for _turn in 0..more {
        let turn = turn_copy(alloc, body, more, own, arrays, size)?;
        append(&mut front, turn)?;
        put_test(alloc, &mut front, test)?;
    }
    Ok(front)
}

// The turns of a `for` before the last one, each with the step and the test behind it.
#[cycle(unrolling)]
fn for_front(
    alloc: Global,
    body: &Statement,
    more: u32,
    own: usize,
    arrays: &[u32],
    size: Size,
    test: &Option<Expression>,
    step: &Option<Simple>,
) -> Result<Vec<Statement>, NoMemory>
    requires some { 0 < more }
    requires few { more < 8 }
    requires plain { has_loop (code_of body.now) ≡ false }
    ensures { IfOk result (λ front. code_onto front.items (tree.Seq (block_of (code_of body.now)) tree.Nothing) ≡ turns_of more (option_map tree_of test.now) (option_map action_of step.now) (code_of body.now)) }
{
    let mut front = Vec::new(alloc);
    for _turn in 0..more {
        let turn = turn_copy(alloc, body, more, own, arrays, size)?;
        append(&mut front, turn)?;
        put_behind(alloc, &mut front, test, step)?;
    }
    Ok(front)
}

// The body of a `while`, unrolled where it contains no loop and there is room.
#[cycle(unrolling)]
fn while_decided(
    alloc: Global,
    body: &Statement,
    more: u32,
    own: usize,
    arrays: &[u32],
    size: Size,
    test: &Expression,
) -> Result<Held, NoMemory>
    requires some { 0 < more }
    requires few { more < 8 }
    ensures { IfOk result (λ made. decided_as (code_of made.statement.value) made.size ≡ (if has_loop (code_of body.now) then unrolled_in more (own_words own arrays.now) size (code_of body.now) else where_it_fits (own_words own arrays.now) size (code_of body.now) (while_body more (tree_of test.now) (code_of body.now)))) }
{
    let held = decided_held(alloc, body, more, own, arrays, size)?;
    if held.loops {
        return Ok(held);
    }
    match room_for(more, own, arrays, size, body, while_cost(test)) {
        None => Ok(held),
        Some(next) => {
            let front = while_front(alloc, body, more, own, arrays, size, test)?;
            let statement = closed(alloc, front, held.statement)?;
            Ok(Held {
                statement,
                size: next,
                loops: false,
            })
        }
    }
}

// The body of a `for`, unrolled where it contains no loop and there is room.
#[cycle(unrolling)]
fn for_decided(
    alloc: Global,
    body: &Statement,
    more: u32,
    own: usize,
    arrays: &[u32],
    size: Size,
    test: &Option<Expression>,
    step: &Option<Simple>,
) -> Result<Held, NoMemory>
    requires some { 0 < more }
    requires few { more < 8 }
    ensures { IfOk result (λ made. decided_as (code_of made.statement.value) made.size ≡ (if has_loop (code_of body.now) then unrolled_in more (own_words own arrays.now) size (code_of body.now) else where_it_fits (own_words own arrays.now) size (code_of body.now) (for_body more (option_map tree_of test.now) (step_of step.now) (code_of body.now)))) }
{
    let held = decided_held(alloc, body, more, own, arrays, size)?;
    if held.loops {
        return Ok(held);
    }
    match room_for(more, own, arrays, size, body, for_cost(test, step)) {
        None => Ok(held),
        Some(next) => {
            let front = for_front(alloc, body, more, own, arrays, size, test, step)?;
            let statement = closed(alloc, front, held.statement)?;
            Ok(Held {
                statement,
                size: next,
                loops: false,
            })
        }
    }
}
