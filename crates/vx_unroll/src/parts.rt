// Copies of declarations, of what is printed, and of the head of a `for`.

ghost use Rattle.std.specs.Prelude.{◌≡◌, IfOk, option_map};
ghost use Rattle.vx_ast.specs.Tree as tree;
ghost use Rattle.vx_ast.specs.View.{code_of, first_of, item_of, items_of, row_in, step_of, tree_of};

use crate::expressions::{copied, copied_row, copied_simple, copied_step, copied_test};
use crate::memory::{append, boxed};
use std::alloc::Global;
use vx_ast::tree::{Expression, First, Item, Simple, Statement};
use vx_base::listed;
use vx_base::listed::Bytes;
use vx_base::outcome::NoMemory;

// A copy of an item of a declaration.
fn copied_item(alloc: Global, item: &Item) -> Result<Item, NoMemory>
    ensures { IfOk result (λ copy. item_of copy ≡ item_of item.now) }
{
    match item {
        Item::Scalar(scalar) => Ok(Item::Scalar(*scalar)),
        Item::ScalarWith(scalar, value) => {
            let value = copied(alloc, value)?;
            Ok(Item::ScalarWith(*scalar, value))
        }
        Item::Array(array) => Ok(Item::Array(*array)),
    }
}

/// A copy of the items of a declaration.
pub(crate) fn copied_items(alloc: Global, items: &[Item]) -> Result<Vec<Item>, NoMemory>
    ensures { IfOk result (λ copy. items_of copy.items ≡ items_of items.now) }
{
    let mut copy = Vec::new(alloc);
    for item in items {
        let one = copied_item(alloc, item)?;
        append(&mut copy, one)?;
    }
    Ok(copy)
}

/// A copy of the first part of the head of a `for`.
pub(crate) fn copied_first(alloc: Global, first: &First) -> Result<First, NoMemory>
    ensures { IfOk result (λ copy. first_of copy ≡ first_of first.now) }
{
    match first {
        First::Nothing => Ok(First::Nothing),
        First::Simple(simple) => {
            let simple = copied_simple(alloc, simple)?;
            Ok(First::Simple(simple))
        }
        First::Items(items) => {
            let items = copied_items(alloc, items.as_slice())?;
            Ok(First::Items(items))
        }
    }
}

// A copy of bytes.
fn copied_bytes(alloc: Global, bytes: &[u8]) -> Result<Bytes, NoMemory>
    ensures { IfOk result (λ copy. copy ≡ bytes.now) }
{
    let copy = listed::copied(alloc, bytes)?;
    Ok(copy)
}

/// What is printed, by copies of a format and its arguments.
pub(crate) fn copied_print(
    alloc: Global,
    format: &[u8],
    row: &[Expression],
) -> Result<Statement, NoMemory>
    ensures { IfOk result (λ copy. code_of copy ≡ tree.Print format.now (row_in row.now)) }
{
    let format = copied_bytes(alloc, format)?;
    let row = copied_row(alloc, row)?;
    Ok(Statement::Print(format, row))
}

/// The parts of the head of a `for`, each in a box.
#[derive(Drop)]
struct Head {
    first: Box<First>,
    test: Box<Option<Expression>>,
    step: Box<Option<Simple>>,
}

// A copy of the first part in a box.
fn held_first(alloc: Global, first: &First) -> Result<Box<First>, NoMemory>
    ensures { IfOk result (λ copy. first_of copy.value ≡ first_of first.now) }
{
    let copy = copied_first(alloc, first)?;
    boxed(alloc, copy)
}

// A copy of the condition in a box.
fn held_test(alloc: Global, test: &Option<Expression>) -> Result<Box<Option<Expression>>, NoMemory>
    ensures { IfOk result (λ copy. option_map tree_of copy.value ≡ option_map tree_of test.now) }
{
    let copy = copied_test(alloc, test)?;
    boxed(alloc, copy)
}

// A copy of the step in a box.
fn held_step(alloc: Global, step: &Option<Simple>) -> Result<Box<Option<Simple>>, NoMemory>
    ensures { IfOk result (λ copy. step_of copy.value ≡ step_of step.now) }
{
    let copy = copied_step(alloc, step)?;
    boxed(alloc, copy)
}

// Copies of all parts.
fn copied_head(
    alloc: Global,
    first: &First,
    test: &Option<Expression>,
    step: &Option<Simple>,
) -> Result<Head, NoMemory>
    ensures first { IfOk result (λ copy. first_of copy.first.value ≡ first_of first.now) }
    ensures test { IfOk result (λ copy. option_map tree_of copy.test.value ≡ option_map tree_of test.now) }
    ensures step { IfOk result (λ copy. step_of copy.step.value ≡ step_of step.now) }
{
    let first = held_first(alloc, first)?;
    let test = held_test(alloc, test)?;
    let step = held_step(alloc, step)?;
    Ok(Head { first, test, step })
}

// A `for` by its head and its body.
fn for_of(head: Head, body: Box<Statement>) -> Statement
    ensures { code_of result ≡ tree.For (first_of head.first.value) (option_map tree_of head.test.value) (step_of head.step.value) (code_of body.value) }
{
    Statement::For(
        Box::into_inner(head.first),
        Box::into_inner(head.test),
        Box::into_inner(head.step),
        body,
    )
}

/// A `for` by its head, which is copied, and its body.
pub(crate) fn for_made(
    alloc: Global,
    first: &First,
    test: &Option<Expression>,
    step: &Option<Simple>,
    body: Box<Statement>,
) -> Result<Statement, NoMemory>
    ensures { IfOk result (λ made. code_of made ≡ tree.For (first_of first.now) (option_map tree_of test.now) (step_of step.now) (code_of body.value)) }
{
    let head = copied_head(alloc, first, test, step)?;
    Ok(for_of(head, body))
}
