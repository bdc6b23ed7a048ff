// The words of the arrays that code declares, each time it does. The own arrays of a function are numbered from `own` on.
// Counts stop at the greatest `u64`.

ghost use Rattle.std.specs.Prelude.{◌≡◌};
ghost use Rattle.vx_ast.specs.View.{all_in, code_of, first_of, item_of, items_of};
ghost use Rattle.vx_limits.specs.Capped.{capped};
ghost use Rattle.vx_unroll.specs.Unrolling.{declared_words, own_words};

use vx_ast::tree::{First, Item, Statement};
use vx_limits::sum;

// The words of an array, where it is one of a function's own, which are numbered from `own` on.
fn array_words(own: usize, arrays: &[u32], array: u32) -> u64
    ensures { result ≡ own_words own arrays.now array }
{
    let place = array as usize;
    if place < own {
        return 0;
    }
    match arrays.get(place - own) {
        Some(words) => u64::from(*words),
        None => 0,
    }
}

// The words that an item declares.
fn item_words(own: usize, arrays: &[u32], item: &Item) -> u64
    ensures { result ≡ capped (declared_words (own_words own arrays.now) (item_of item.now)) }
{
    match item {
        Item::Scalar(_) => 0,
        Item::ScalarWith(_, _) => 0,
        Item::Array(array) => array_words(own, arrays, *array),
    }
}

// The words that items declare.
fn items_words(own: usize, arrays: &[u32], items: &[Item]) -> u64
    ensures { result ≡ capped (declared_words (own_words own arrays.now) (items_of items.now)) }
{
    let mut count = 0;
    for item in items {
        count = sum(count, item_words(own, arrays, item));
    }
    count
}

// The words that the first part of the head of a `for` declares.
fn first_words(own: usize, arrays: &[u32], first: &First) -> u64
    ensures { result ≡ capped (declared_words (own_words own arrays.now) (first_of first.now)) }
{
    match first {
        First::Nothing => 0,
        First::Simple(_) => 0,
        First::Items(items) => items_words(own, arrays, items.as_slice()),
    }
}

/// The words that a statement declares.
#[cycle(words)]
pub(crate) fn statement_words(statement: &Statement, own: usize, arrays: &[u32]) -> u64
    ensures { result ≡ capped (declared_words (own_words own arrays.now) (code_of statement.now)) }
{
    match statement {
        Statement::Block(all) => list_words(all.as_slice(), own, arrays),
        Statement::Declaration(items) => items_words(own, arrays, items.as_slice()),
        Statement::If(_, branch) => statement_words(branch, own, arrays),
        Statement::IfElse(_, left, right) => sum(
            statement_words(left, own, arrays),
            statement_words(right, own, arrays),
        ),
        Statement::While(_, body) => statement_words(body, own, arrays),
        Statement::DoWhile(body, _) => statement_words(body, own, arrays),
        Statement::For(first, _, _, body) => sum(
            first_words(own, arrays, first),
            statement_words(body, own, arrays),
        ),
        Statement::Empty => 0,
        Statement::Simple(_) => 0,
        Statement::Print(_, _) => 0,
        Statement::Break => 0,
        Statement::Continue => 0,
        Statement::Return => 0,
        Statement::ReturnValue(_) => 0,
    }
}

/// The words that a list of statements declares.
#[cycle(words)]
pub(crate) fn list_words(all: &[Statement], own: usize, arrays: &[u32]) -> u64
    ensures { result ≡ capped (declared_words (own_words own arrays.now) (all_in all.now)) }
{
    let mut count = 0;
    for statement in all {
        count = sum(count, statement_words(statement, own, arrays));
    }
    count
}
