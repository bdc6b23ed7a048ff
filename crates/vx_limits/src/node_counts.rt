// The nodes of a function. Counts stop at the greatest `u64`. Beside the counts each call tells that the numbers of what
// it counts are of 32 bits, as the type of a literal has no others.

ghost use Rattle.std.specs.Prelude.{◌≡◌, ◌+◌, ◌<◌, ◌^◌, true, min, option_map};
ghost use Rattle.vx_ast.specs.Accepted.{action_nodes, code_nodes, function_nodes, is_word, nodes_of, target_nodes, test_nodes};
ghost use Rattle.vx_ast.specs.View.{action_of, all_in, arguments_in, code_of, first_of, function_of, item_of, items_of, place_of, row_in, step_of, tree_of};
ghost use Rattle.vx_limits.specs.Capped.{capped};
ghost use Rattle.vx_limits.specs.Words.{action_words, argument_nodes, argument_words, code_words, function_words, place_words, test_words, tree_words};

use vx_ast::tree::{Argument, Expression, First, Function, Item, Simple, Statement, Target};

/// A sum, or the greatest `u64` where it is more.
pub fn sum(left: u64, right: u64) -> u64
    ensures { result ≡ capped (left + right) }
{
    left.saturating_add(right)
}

// A number is one node.
fn literal_nodes(number: i32) -> u64
    ensures count { result ≡ 1 }
    ensures words { is_word number ≡ true }
{
    let _ = number;
    1
}

/// How many nodes an expression has, at most the greatest `u64`.
#[cycle(tree_nodes)]
#[tactic(auto, using(crate::proofs::Caps::capped_one, crate::proofs::Caps::capped_two, crate::proofs::Caps::capped_three, crate::proofs::Views::call_view))]
pub fn expression_nodes(expression: &Expression) -> u64
    ensures nodes { result ≡ capped (nodes_of (tree_of expression.now)) }
    ensures words { tree_words (tree_of expression.now) ≡ true }
{
    match expression {
        Expression::Number(number) => literal_nodes(*number),
        Expression::Scalar(_) => 1,
        Expression::Global(_) => 1,
        Expression::Element(_, index) => sum(1, expression_nodes(index)),
        Expression::Unary(_, operand) => sum(1, expression_nodes(operand)),
        Expression::Binary(_, left, right) => sum(
            sum(1, expression_nodes(left)),
            expression_nodes(right),
        ),
        Expression::Both(left, right) => sum(
            sum(1, expression_nodes(left)),
            expression_nodes(right),
        ),
        Expression::Either(left, right) => sum(
            sum(1, expression_nodes(left)),
            expression_nodes(right),
        ),
        Expression::Choice(test, left, right) => sum(
            sum(sum(1, expression_nodes(test)), expression_nodes(left)),
            expression_nodes(right),
        ),
        Expression::Call(_, row) => sum(1, arguments_nodes(row.as_slice())),
        Expression::ReadInt => 1,
        Expression::MoreInput => 1,
    }
}

#[cycle(tree_nodes)]
fn argument_nodes(argument: &Argument) -> u64
    ensures nodes { result ≡ capped (argument_nodes argument.now) }
    ensures words { argument_words argument.now ≡ true }
{
    match argument {
        Argument::Number(number) => expression_nodes(number),
        Argument::Array(_) => 1,
    }
}

#[cycle(tree_nodes)]
fn arguments_nodes(row: &[Argument]) -> u64
    ensures nodes { result ≡ capped (nodes_of (arguments_in row.now)) }
    ensures words { tree_words (arguments_in row.now) ≡ true }
{
    let mut count = 0;
    for argument in row {
        count = sum(count, argument_nodes(argument));
    }
    count
}

fn row_nodes(row: &[Expression]) -> u64
    ensures nodes { result ≡ capped (nodes_of (row_in row.now)) }
    ensures words { tree_words (row_in row.now) ≡ true }
{
    let mut count = 0;
    for number in row {
        count = sum(count, expression_nodes(number));
    }
    count
}

#[tactic(auto, using(crate::proofs::Caps::capped_one))]
fn target_nodes(target: &Target) -> u64
    ensures nodes { result ≡ capped (target_nodes (place_of target.now)) }
    ensures words { place_words (place_of target.now) ≡ true }
{
    match target {
        Target::Scalar(_) => 1,
        Target::Global(_) => 1,
        Target::Element(_, index) => sum(1, expression_nodes(index)),
    }
}

/// How many nodes a simple statement has, apart from that of the statement, at most the greatest `u64`.
#[tactic(auto, using(crate::proofs::Caps::capped_pair))]
pub fn simple_nodes(simple: &Simple) -> u64
    ensures nodes { result ≡ capped (action_nodes (action_of simple.now)) }
    ensures words { action_words (action_of simple.now) ≡ true }
{
    match simple {
        Simple::Evaluate(value) => expression_nodes(value),
        Simple::Assign(target, value) => sum(target_nodes(target), expression_nodes(value)),
        Simple::Compound(target, _, value) => sum(target_nodes(target), expression_nodes(value)),
        Simple::Increase(target) => target_nodes(target),
        Simple::Decrease(target) => target_nodes(target),
    }
}

#[tactic(auto, using(crate::proofs::Caps::capped_one))]
fn item_nodes(item: &Item) -> u64
    ensures nodes { result ≡ capped (code_nodes (item_of item.now)) }
    ensures words { code_words (item_of item.now) ≡ true }
{
    match item {
        Item::Scalar(_) => 1,
        Item::ScalarWith(_, value) => sum(1, expression_nodes(value)),
        Item::Array(_) => 1,
    }
}

fn items_nodes(items: &[Item]) -> u64
    ensures nodes { result ≡ capped (code_nodes (items_of items.now)) }
    ensures words { code_words (items_of items.now) ≡ true }
{
    let mut count = 0;
    for item in items {
        count = sum(count, item_nodes(item));
    }
    count
}

fn first_nodes(first: &First) -> u64
    ensures nodes { result ≡ capped (code_nodes (first_of first.now)) }
    ensures words { code_words (first_of first.now) ≡ true }
{
    match first {
        First::Nothing => 0,
        First::Simple(simple) => simple_nodes(simple),
        First::Items(items) => items_nodes(items.as_slice()),
    }
}

fn test_nodes(test: &Option<Expression>) -> u64
    ensures nodes { result ≡ capped (test_nodes (option_map tree_of test.now)) }
    ensures words { test_words (option_map tree_of test.now) ≡ true }
{
    match test {
        None => 0,
        Some(test) => expression_nodes(test),
    }
}

fn step_nodes(step: &Option<Simple>) -> u64
    ensures nodes { result ≡ capped (code_nodes (step_of step.now)) }
    ensures words { code_words (step_of step.now) ≡ true }
{
    match step {
        None => 0,
        Some(step) => simple_nodes(step),
    }
}

/// How many nodes a statement has, at most the greatest `u64`.
#[cycle(code_nodes)]
#[tactic(auto, using(crate::proofs::Caps::capped_one, crate::proofs::Caps::capped_two, crate::proofs::Caps::capped_three, crate::proofs::Caps::capped_four, crate::proofs::Views::block_view))]
pub fn statement_nodes(statement: &Statement) -> u64
    ensures nodes { result ≡ capped (code_nodes (code_of statement.now)) }
    ensures words { code_words (code_of statement.now) ≡ true }
{
    match statement {
        Statement::Empty => 1,
        Statement::Block(all) => sum(1, list_nodes(all.as_slice())),
        Statement::Declaration(items) => items_nodes(items.as_slice()),
        Statement::Simple(simple) => sum(1, simple_nodes(simple)),
        Statement::Print(_, row) => sum(1, row_nodes(row.as_slice())),
        Statement::If(test, branch) => sum(sum(1, expression_nodes(test)), statement_nodes(branch)),
        Statement::IfElse(test, left, right) => sum(
            sum(sum(1, expression_nodes(test)), statement_nodes(left)),
            statement_nodes(right),
        ),
        Statement::While(test, body) => sum(sum(1, expression_nodes(test)), statement_nodes(body)),
        Statement::DoWhile(body, test) => sum(
            sum(1, statement_nodes(body)),
            expression_nodes(test),
        ),
        Statement::For(first, test, step, body) => sum(
            sum(
                sum(sum(1, first_nodes(first)), test_nodes(test)),
                step_nodes(step),
            ),
            statement_nodes(body),
        ),
        Statement::Break => 1,
        Statement::Continue => 1,
        Statement::Return => 1,
        Statement::ReturnValue(value) => sum(1, expression_nodes(value)),
    }
}

#[cycle(code_nodes)]
fn list_nodes(all: &[Statement]) -> u64
    ensures nodes { result ≡ capped (code_nodes (all_in all.now)) }
    ensures words { code_words (all_in all.now) ≡ true }
{
    let mut count = 0;
    for statement in all {
        count = sum(count, statement_nodes(statement));
    }
    count
}

/// How many nodes a function has, at most the greatest `u64`.
#[tactic(auto, using(crate::proofs::Caps::capped_tail))]
pub fn counted_nodes(function: &Function) -> u64
    ensures nodes { result ≡ capped (function_nodes (function_of function.now)) }
    ensures words { function_words (function_of function.now) ≡ true }
{
    sum(
        1 + function.takes.len() as u64,
        list_nodes(function.body.as_slice()),
    )
}

/// How many nodes a function has: its body, its parameters, and what docs/LANGUAGE.md counts in it, where these
/// are below 2^32.
pub fn nodes(function: &Function) -> u32
    ensures { function_nodes (function_of function.now) < 2 ^ 32 → result ≡ function_nodes (function_of function.now) }
{
    let count = counted_nodes(function);
    if count < 4294967296 {
        count as u32
    } else {
        u32::MAX
    }
}
