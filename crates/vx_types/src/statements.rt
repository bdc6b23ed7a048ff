// Statements: their faults, and what they are with their names declared. A branch, a body of a loop and a block are
// scopes of their own.

ghost use Rattle.std.specs.Prelude.{◌≡◌, ◌++◌, ◌∷◌, [], IfOk, OnOk, false, true, length, not, option_map};
ghost use Rattle.vx_ast.specs.declared.tree.Gives.TheVariants.{Int};
ghost use Rattle.vx_ast.specs.Accepted.{gives_int};
ghost use Rattle.vx_ast.specs.Faults.{action_faults, code_faults, fault_if, least, phrase_faults, prints, row_faults, row_length, test_faults};
ghost use Rattle.vx_ast.specs.Resolved as resolved;
ghost use Rattle.vx_ast.specs.Resolved.{action_in, code_in, test_in, tree_in};
ghost use Rattle.vx_ast.specs.Scopes.{behind, inside, outside};
ghost use Rattle.vx_ast.specs.Syntax as spec;
ghost use Rattle.vx_ast.specs.SyntaxView.{action_of, all_in, code_of, first_of, items_of, phrase_of, row_in, step_of};
ghost use Rattle.vx_ast.specs.Tree as tree;
ghost use Rattle.vx_ast.specs.View as view;

use crate::expressions::{resolve, resolve_row};
use crate::formats::{is_format, numbers_of};
use crate::items::{
    first_part, items, note_simple, note_step, note_test, resolve_simple, resolve_step,
    resolve_test,
};
use crate::kinds::{gives_int, note, note_expression, note_row};
use crate::memory::{append, boxed};
use std::alloc::Global;
use vx_ast::names::Fault;
use vx_ast::syntax;
use vx_ast::syntax::Place;
use vx_ast::tree::{Expression, First, Gives, Simple, Statement};
use vx_base::outcome::NoMemory;
use vx_names::names::{Names, bytes_of};

// The faults of a format with so many arguments.
#[tactic(auto, using(crate::proofs::Leasts::least_append))]
fn note_format(
    place: Place,
    format_place: Place,
    format: &[u8],
    arguments: usize,
    first: Option<Fault>,
) -> Option<Fault>
    ensures { result ≡ least first (prints place format_place format.now arguments) }
{
    let before = note(first, arguments != numbers_of(format), 8, place);
    note(before, !is_format(format), 9, format_place)
}

/// A condition, and what stands behind it.
#[derive(Drop)]
struct Tested {
    test: Expression,
    body: Box<Statement>,
}

/// The head of a `for`.
#[derive(Drop)]
struct Head {
    start: Box<First>,
    test: Box<Option<Expression>>,
    step: Box<Option<Simple>>,
}

/// The condition and the step of a `for`.
#[derive(Drop)]
struct Ends {
    test: Box<Option<Expression>>,
    step: Box<Option<Simple>>,
}

/// The parts of a `for`.
#[derive(Drop)]
struct ForParts {
    start: Box<First>,
    test: Box<Option<Expression>>,
    step: Box<Option<Simple>>,
    body: Box<Statement>,
}

/// The condition of a `for` in a box, with what its names stand for.
fn held_test(
    alloc: Global,
    names: &Names,
    test: &Option<syntax::Expression>,
) -> Result<Box<Option<Expression>>, NoMemory>
    ensures { IfOk result (λ made. option_map view.tree_of made.value ≡ test_in names.now (option_map phrase_of test.now)) }
{
    let made = resolve_test(alloc, names, test)?;
    boxed(alloc, made)
}

/// The step of a `for` in a box, with what its names stand for.
fn held_step(
    alloc: Global,
    names: &Names,
    step: &Option<syntax::Simple>,
) -> Result<Box<Option<Simple>>, NoMemory>
    ensures { IfOk result (λ made. view.step_of made.value ≡ code_in names.now (step_of step.now)) }
{
    let made = resolve_step(alloc, names, step)?;
    boxed(alloc, made)
}

/// The condition and the step of a `for`, with what their names stand for.
fn ends_of_for(
    alloc: Global,
    names: &Names,
    test: &Option<syntax::Expression>,
    step: &Option<syntax::Simple>,
) -> Result<Ends, NoMemory>
    ensures test { IfOk result (λ made. option_map view.tree_of made.test.value ≡ test_in names.now (option_map phrase_of test.now)) }
    ensures step { IfOk result (λ made. view.step_of made.step.value ≡ code_in names.now (step_of step.now)) }
{
    let test = held_test(alloc, names, test)?;
    let step = held_step(alloc, names, step)?;
    Ok(Ends { test, step })
}

/// The first part of the head of a `for` in a box: its faults, and what it is with its names declared.
fn held_start(
    alloc: Global,
    names: &mut Names,
    first: &mut Option<Fault>,
    start: &syntax::First,
) -> Result<Box<First>, NoMemory>
    ensures made { IfOk result (λ made. view.first_of made.value ≡ code_in names.old (first_of start.now)) }
    ensures known { OnOk result (names.new ≡ behind (first_of start.now) names.old) }
    ensures faults { OnOk result (first.new ≡ least first.old (code_faults Int false names.old (first_of start.now))) }
{
    let made = first_part(alloc, names, first, start)?;
    boxed(alloc, made)
}

/// The head of a `for`: its faults, and what it is with its names declared.
fn head_of_for(
    alloc: Global,
    names: &mut Names,
    first: &mut Option<Fault>,
    start: &syntax::First,
    test: &Option<syntax::Expression>,
    step: &Option<syntax::Simple>,
) -> Result<Head, NoMemory>
    ensures start { IfOk result (λ made. view.first_of made.start.value ≡ code_in names.old (first_of start.now)) }
    ensures test { IfOk result (λ made. option_map view.tree_of made.test.value ≡ test_in (behind (first_of start.now) names.old) (option_map phrase_of test.now)) }
    ensures step { IfOk result (λ made. view.step_of made.step.value ≡ code_in (behind (first_of start.now) names.old) (step_of step.now)) }
    ensures known { OnOk result (names.new ≡ behind (first_of start.now) names.old) }
    ensures faults { OnOk result (first.new ≡ least (least (least first.old (code_faults Int false names.old (first_of start.now))) (test_faults (behind (first_of start.now) names.old) (option_map phrase_of test.now))) (code_faults Int false (behind (first_of start.now) names.old) (step_of step.now))) }
{
    let start = held_start(alloc, names, first, start)?;
    let before = note_test(names, test, *first);
    *first = note_step(names, step, before);
    let made = ends_of_for(alloc, names, test, step)?;
    Ok(Head {
        start,
        test: made.test,
        step: made.step,
    })
}

/// A `for` of its parts.
fn for_of(made: ForParts) -> Statement
    ensures { view.code_of result ≡ tree.For (view.first_of made.start.value) (option_map view.tree_of made.test.value) (view.step_of made.step.value) (view.code_of made.body.value) }
{
    Statement::For(
        Box::into_inner(made.start),
        Box::into_inner(made.test),
        Box::into_inner(made.step),
        made.body,
    )
}

/// What is printed, by a format and its arguments: its faults, and what it is with its names declared.
#[tactic(auto, using(crate::proofs::Leasts::least_append, crate::proofs::Rows::row_count))]
fn printing(
    alloc: Global,
    names: &Names,
    first: &mut Option<Fault>,
    place: Place,
    format_place: Place,
    format: &[u8],
    row: &[syntax::Argument],
) -> Result<Statement, NoMemory>
    ensures made { IfOk result (λ made. view.code_of made ≡ tree.Print format.now (resolved.row_in names.now [] (row_in row.now))) }
    ensures faults { OnOk result (first.new ≡ least first.old (prints place format_place format.now (row_length (row_in row.now)) ++ row_faults names.now [] (row_in row.now))) }
{
    let before = note_format(place, format_place, format, row.len(), *first);
    *first = note_row(names, &[], row, before);
    let format = bytes_of(alloc, format)?;
    let row = resolve_row(alloc, names, row)?;
    Ok(Statement::Print(format, row))
}

/// A declaration among the statements of a block.
fn declaration(
    alloc: Global,
    names: &mut Names,
    first: &mut Option<Fault>,
    all: &[syntax::Item],
) -> Result<Statement, NoMemory>
    ensures made { IfOk result (λ made. view.code_of made ≡ code_in names.old (items_of all.now)) }
    ensures known { OnOk result (names.new ≡ behind (items_of all.now) names.old) }
    ensures faults { OnOk result (first.new ≡ least first.old (code_faults Int false names.old (items_of all.now))) }
{
    let made = items(alloc, names, first, all)?;
    Ok(Statement::Declaration(made))
}

/// A simple statement: its faults, and what it is with its names declared.
fn simple_alone(
    alloc: Global,
    names: &Names,
    first: &mut Option<Fault>,
    simple: &syntax::Simple,
) -> Result<Statement, NoMemory>
    ensures made { IfOk result (λ made. view.code_of made ≡ tree.Simply (action_in names.now (action_of simple.now))) }
    ensures faults { OnOk result (first.new ≡ least first.old (action_faults names.now (action_of simple.now))) }
{
    *first = note_simple(names, simple, *first);
    let simple = resolve_simple(alloc, names, simple)?;
    Ok(Statement::Simple(simple))
}

/// A `return` with a value: its faults, and what it is with its names declared.
#[tactic(auto, using(crate::proofs::Leasts::least_append))]
fn returning(
    alloc: Global,
    gives: Gives,
    names: &Names,
    first: &mut Option<Fault>,
    place: Place,
    value: &syntax::Expression,
) -> Result<Statement, NoMemory>
    ensures made { IfOk result (λ made. view.code_of made ≡ tree.ReturnValue (tree_in names.now (phrase_of value.now))) }
    ensures faults { OnOk result (first.new ≡ least first.old (fault_if (not (gives_int gives)) 7 place ++ phrase_faults names.now (phrase_of value.now))) }
{
    let before = note(*first, !gives_int(gives), 7, place);
    *first = note_expression(names, value, before);
    let value = resolve(alloc, names, value)?;
    Ok(Statement::ReturnValue(value))
}

/// A statement of a function that gives so, inside of a loop or not.
#[cycle(statements)]
pub fn statement(
    alloc: Global,
    gives: Gives,
    loops: bool,
    names: &mut Names,
    first: &mut Option<Fault>,
    statement: &syntax::Statement,
) -> Result<Statement, NoMemory>
    ensures made { IfOk result (λ made. view.code_of made ≡ code_in names.old (code_of statement.now)) }
    ensures known { OnOk result (names.new ≡ behind (code_of statement.now) names.old) }
    ensures faults { OnOk result (first.new ≡ least first.old (code_faults gives loops names.old (code_of statement.now))) }
{
    match statement {
        syntax::Statement::Empty => Ok(Statement::Empty),
        syntax::Statement::Block(all) => block(alloc, gives, loops, names, first, all.as_slice()),
        syntax::Statement::Declaration(all) => { declaration(alloc, names, first, all.as_slice()) }
        syntax::Statement::Simple(simple) => simple_alone(alloc, names, first, simple),
        syntax::Statement::Print(place, format_place, format, row) => printing(
            alloc,
            names,
            first,
            *place,
            *format_place,
            format.as_slice(),
            row.as_slice(),
        ),
        syntax::Statement::If(test, branch) => {
            let made = test_and_body(alloc, gives, loops, names, first, branch, test)?;
            Ok(Statement::If(made.test, made.body))
        }
        syntax::Statement::IfElse(test, left, right) => {
            let made = test_and_body(alloc, gives, loops, names, first, left, test)?;
            otherwise(alloc, gives, loops, names, first, right, made)
        }
        syntax::Statement::While(test, body) => {
            let made = test_and_body(alloc, gives, true, names, first, body, test)?;
            Ok(Statement::While(made.test, made.body))
        }
        syntax::Statement::DoWhile(body, test) => {
            let made = test_and_body(alloc, gives, true, names, first, body, test)?;
            Ok(Statement::DoWhile(made.body, made.test))
        }
        syntax::Statement::For(start, test, step, body) => repeated(
            alloc, gives, names, first, body, start, test, step,
        ),
        syntax::Statement::Break(place) => {
            *first = note(*first, !loops, 11, *place);
            Ok(Statement::Break)
        }
        syntax::Statement::Continue(place) => {
            *first = note(*first, !loops, 11, *place);
            Ok(Statement::Continue)
        }
        syntax::Statement::Return(place) => {
            *first = note(*first, gives_int(gives), 7, *place);
            Ok(Statement::Return)
        }
        syntax::Statement::ReturnValue(place, value) => returning(
            alloc, gives, names, first, *place, value,
        ),
    }
}

// A branch or a body, in a scope of its own.
#[cycle(statements)]
fn alone(
    alloc: Global,
    gives: Gives,
    loops: bool,
    names: &mut Names,
    first: &mut Option<Fault>,
    branch: &syntax::Statement,
) -> Result<Box<Statement>, NoMemory>
    ensures made { IfOk result (λ made. view.code_of made.value ≡ code_in (inside names.old) (code_of branch.now)) }
    ensures known { OnOk result (names.new ≡ outside names.old (behind (code_of branch.now) (inside names.old))) }
    ensures faults { OnOk result (first.new ≡ least first.old (code_faults gives loops (inside names.old) (code_of branch.now))) }
{
    let count = names.count();
    names.enter()?;
    let made = held(alloc, gives, loops, names, first, branch)?;
    names.leave(alloc, count)?;
    Ok(made)
}

/// A statement in a box.
#[cycle(statements)]
fn held(
    alloc: Global,
    gives: Gives,
    loops: bool,
    names: &mut Names,
    first: &mut Option<Fault>,
    written: &syntax::Statement,
) -> Result<Box<Statement>, NoMemory>
    ensures made { IfOk result (λ made. view.code_of made.value ≡ code_in names.old (code_of written.now)) }
    ensures known { OnOk result (names.new ≡ behind (code_of written.now) names.old) }
    ensures faults { OnOk result (first.new ≡ least first.old (code_faults gives loops names.old (code_of written.now))) }
{
    let made = statement(alloc, gives, loops, names, first, written)?;
    boxed(alloc, made)
}

/// A condition, and a branch or a body behind it in a scope of its own.
#[cycle(statements)]
fn test_and_body(
    alloc: Global,
    gives: Gives,
    loops: bool,
    names: &mut Names,
    first: &mut Option<Fault>,
    body: &syntax::Statement,
    test: &syntax::Expression,
) -> Result<Tested, NoMemory>
    ensures test { IfOk result (λ made. view.tree_of made.test ≡ tree_in names.old (phrase_of test.now)) }
    ensures body { IfOk result (λ made. view.code_of made.body.value ≡ code_in (inside names.old) (code_of body.now)) }
    ensures known { OnOk result (names.new ≡ outside names.old (behind (code_of body.now) (inside names.old))) }
    ensures faults { OnOk result (first.new ≡ least (least first.old (phrase_faults names.old (phrase_of test.now))) (code_faults gives loops (inside names.old) (code_of body.now))) }
{
    *first = note_expression(names, test, *first);
    let test = resolve(alloc, names, test)?;
    let body = alone(alloc, gives, loops, names, first, body)?;
    Ok(Tested { test, body })
}

/// What stands behind `else`, in a scope of its own, with the condition and the branch before it.
#[cycle(statements)]
fn otherwise(
    alloc: Global,
    gives: Gives,
    loops: bool,
    names: &mut Names,
    first: &mut Option<Fault>,
    branch: &syntax::Statement,
    before: Tested,
) -> Result<Statement, NoMemory>
    ensures made { IfOk result (λ made. view.code_of made ≡ tree.IfElse (view.tree_of before.test) (view.code_of before.body.value) (code_in (inside names.old) (code_of branch.now))) }
    ensures known { OnOk result (names.new ≡ outside names.old (behind (code_of branch.now) (inside names.old))) }
    ensures faults { OnOk result (first.new ≡ least first.old (code_faults gives loops (inside names.old) (code_of branch.now))) }
{
    let right = alone(alloc, gives, loops, names, first, branch)?;
    Ok(Statement::IfElse(before.test, before.body, right))
}

/// The parts of a `for`, its head and its body, in a scope of its own.
#[cycle(statements)]
fn parts_of_for(
    alloc: Global,
    gives: Gives,
    names: &mut Names,
    first: &mut Option<Fault>,
    body: &syntax::Statement,
    start: &syntax::First,
    test: &Option<syntax::Expression>,
    step: &Option<syntax::Simple>,
) -> Result<ForParts, NoMemory>
    ensures start { IfOk result (λ made. view.first_of made.start.value ≡ code_in (inside names.old) (first_of start.now)) }
    ensures test { IfOk result (λ made. option_map view.tree_of made.test.value ≡ test_in (behind (first_of start.now) (inside names.old)) (option_map phrase_of test.now)) }
    ensures step { IfOk result (λ made. view.step_of made.step.value ≡ code_in (behind (first_of start.now) (inside names.old)) (step_of step.now)) }
    ensures body { IfOk result (λ made. view.code_of made.body.value ≡ code_in (inside (behind (first_of start.now) (inside names.old))) (code_of body.now)) }
    ensures known { OnOk result (names.new ≡ behind (spec.For (first_of start.now) (option_map phrase_of test.now) (step_of step.now) (code_of body.now)) names.old) }
    ensures faults { OnOk result (first.new ≡ least first.old (code_faults Int false (inside names.old) (first_of start.now) ++ (test_faults (behind (first_of start.now) (inside names.old)) (option_map phrase_of test.now) ++ (code_faults Int false (behind (first_of start.now) (inside names.old)) (step_of step.now) ++ code_faults gives true (inside (behind (first_of start.now) (inside names.old))) (code_of body.now))))) }
{
    let count = names.count();
    names.enter()?;
    let head = head_of_for(alloc, names, first, start, test, step)?;
    let body = alone(alloc, gives, true, names, first, body)?;
    names.leave(alloc, count)?;
    Ok(ForParts {
        start: head.start,
        test: head.test,
        step: head.step,
        body,
    })
}

/// A `for`: its head and its body, in a scope of its own.
#[cycle(statements)]
fn repeated(
    alloc: Global,
    gives: Gives,
    names: &mut Names,
    first: &mut Option<Fault>,
    body: &syntax::Statement,
    start: &syntax::First,
    test: &Option<syntax::Expression>,
    step: &Option<syntax::Simple>,
) -> Result<Statement, NoMemory>
    ensures made { IfOk result (λ made. view.code_of made ≡ code_in names.old (spec.For (first_of start.now) (option_map phrase_of test.now) (step_of step.now) (code_of body.now))) }
    ensures known { OnOk result (names.new ≡ behind (spec.For (first_of start.now) (option_map phrase_of test.now) (step_of step.now) (code_of body.now)) names.old) }
    ensures faults { OnOk result (first.new ≡ least first.old (code_faults Int false (inside names.old) (first_of start.now) ++ (test_faults (behind (first_of start.now) (inside names.old)) (option_map phrase_of test.now) ++ (code_faults Int false (behind (first_of start.now) (inside names.old)) (step_of step.now) ++ code_faults gives true (inside (behind (first_of start.now) (inside names.old))) (code_of body.now))))) }
{
    let made = parts_of_for(alloc, gives, names, first, body, start, test, step)?;
    Ok(for_of(made))
}

// A block, in a scope of its own.
#[cycle(statements)]
fn block(
    alloc: Global,
    gives: Gives,
    loops: bool,
    names: &mut Names,
    first: &mut Option<Fault>,
    all: &[syntax::Statement],
) -> Result<Statement, NoMemory>
    ensures made { IfOk result (λ made. view.code_of made ≡ tree.Block (code_in (inside names.old) (all_in all.now))) }
    ensures known { OnOk result (names.new ≡ outside names.old (behind (all_in all.now) (inside names.old))) }
    ensures faults { OnOk result (first.new ≡ least first.old (code_faults gives loops (inside names.old) (all_in all.now))) }
{
    let count = names.count();
    names.enter()?;
    let made = statements(alloc, gives, loops, names, first, all)?;
    names.leave(alloc, count)?;
    Ok(Statement::Block(made))
}

/// The statements of a list, one after the other.
#[cycle(statements)]
pub fn statements(
    alloc: Global,
    gives: Gives,
    loops: bool,
    names: &mut Names,
    first: &mut Option<Fault>,
    all: &[syntax::Statement],
) -> Result<Vec<Statement>, NoMemory>
    ensures made { IfOk result (λ made. view.all_in made.items ≡ code_in names.old (all_in all.now)) }
    ensures known { OnOk result (names.new ≡ behind (all_in all.now) names.old) }
    ensures faults { OnOk result (first.new ≡ least first.old (code_faults gives loops names.old (all_in all.now))) }
{
    let mut made = Vec::new(alloc);
    for one in all {
        let done = statement(alloc, gives, loops, names, first, one)?;
        append(&mut made, done)?;
    }
    Ok(made)
}
