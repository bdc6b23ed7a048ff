// Declarations and simple statements: their faults, and what they are with their names declared.

ghost use Rattle.std.specs.Prelude.{◌≡◌, IfOk, OnOk, option_map, false};
ghost use Rattle.vx_ast.specs.declared.tree.Gives.TheVariants.{Int};
ghost use Rattle.vx_ast.specs.Faults.{action_faults, code_faults, declares, least, sizes_faults, test_faults};
ghost use Rattle.vx_ast.specs.Resolved.{action_in, code_in, target_in, test_in, tree_in};
ghost use Rattle.vx_ast.specs.Scopes.{behind, with_scalar};
ghost use Rattle.vx_ast.specs.SyntaxView.{action_of, first_of, item_of, items_of, phrase_of, step_of};
ghost use Rattle.vx_ast.specs.Tree as tree;
ghost use Rattle.vx_ast.specs.View as view;
ghost use Rattle.vx_ast.specs.View.{tree_of};

use crate::expressions::{resolve, resolve_target};
use crate::kinds::{note, note_expression, note_target, note_whole};
use crate::memory::append;
use std::alloc::Global;
use vx_ast::names::Fault;
use vx_ast::syntax;
use vx_ast::syntax::{Name, Size};
use vx_ast::tree::{Expression, First, Item, Simple, Target};
use vx_base::outcome::NoMemory;
use vx_names::names::Names;

/// A target and a value.
#[derive(Drop)]
struct Assignment {
    target: Target,
    value: Expression,
}

/// A target and a value with what their names stand for.
fn assigned(
    alloc: Global,
    names: &Names,
    target: &syntax::Expression,
    value: &syntax::Expression,
) -> Result<Assignment, NoMemory>
    ensures target { IfOk result (λ made. view.place_of made.target ≡ target_in names.now (phrase_of target.now)) }
    ensures value { IfOk result (λ made. tree_of made.value ≡ tree_in names.now (phrase_of value.now)) }
{
    let target = resolve_target(alloc, names, target)?;
    let value = resolve(alloc, names, value)?;
    Ok(Assignment { target, value })
}

/// A simple statement with what its names stand for.
pub fn resolve_simple(
    alloc: Global,
    names: &Names,
    simple: &syntax::Simple,
) -> Result<Simple, NoMemory>
    ensures { IfOk result (λ made. view.action_of made ≡ action_in names.now (action_of simple.now)) }
{
    match simple {
        syntax::Simple::Evaluate(value) => {
            let value = resolve(alloc, names, value)?;
            Ok(Simple::Evaluate(value))
        }
        syntax::Simple::Assign(target, value) => {
            let made = assigned(alloc, names, &target.expression, value)?;
            Ok(Simple::Assign(made.target, made.value))
        }
        syntax::Simple::Compound(target, operator, value) => {
            let made = assigned(alloc, names, &target.expression, value)?;
            Ok(Simple::Compound(made.target, *operator, made.value))
        }
        syntax::Simple::Increase(target) => {
            let target = resolve_target(alloc, names, &target.expression)?;
            Ok(Simple::Increase(target))
        }
        syntax::Simple::Decrease(target) => {
            let target = resolve_target(alloc, names, &target.expression)?;
            Ok(Simple::Decrease(target))
        }
    }
}

/// The first of a fault that is there already and those of a simple statement.
#[tactic(auto, using(crate::proofs::Leasts::least_append))]
pub fn note_simple(names: &Names, simple: &syntax::Simple, first: Option<Fault>) -> Option<Fault>
    ensures { result ≡ least first (action_faults names.now (action_of simple.now)) }
{
    match simple {
        syntax::Simple::Evaluate(value) => note_whole(names, value, first),
        syntax::Simple::Assign(target, value) => {
            let before = note_target(names, target.place, &target.expression, first);
            note_expression(names, value, before)
        }
        syntax::Simple::Compound(target, _, value) => {
            let before = note_target(names, target.place, &target.expression, first);
            note_expression(names, value, before)
        }
        syntax::Simple::Increase(target) => note_target(
            names,
            target.place,
            &target.expression,
            first,
        ),
        syntax::Simple::Decrease(target) => note_target(
            names,
            target.place,
            &target.expression,
            first,
        ),
    }
}

/// The first of a fault that is there already and that of a declared name.
pub fn note_name(names: &Names, name: &Name, first: Option<Fault>) -> Option<Fault>
    ensures { result ≡ least first (declares names.now name.now) }
{
    note(first, names.is_taken(name.bytes.as_slice()), 6, name.place)
}

/// The first of a fault that is there already and that of an array's size.
pub fn note_size(size: Size, first: Option<Fault>) -> Option<Fault>
    ensures { result ≡ least first (sizes_faults size) }
{
    note(first, size.words == 0, 13, size.place)
}

// A declared scalar with a value, which does not know the name.
fn valued(
    alloc: Global,
    names: &mut Names,
    name: &Name,
    value: &syntax::Expression,
) -> Result<Item, NoMemory>
    ensures made { IfOk result (λ made. view.item_of made ≡ tree.Declare names.old.scalars (tree_in names.old (phrase_of value.now))) }
    ensures known { OnOk result (names.new ≡ with_scalar name.now names.old) }
{
    let value = resolve(alloc, names, value)?;
    let number = names.scalar(alloc, name)?;
    Ok(Item::ScalarWith(number, value))
}

// An item of a declaration, whose name is known behind it.
#[tactic(auto, using(crate::proofs::Leasts::least_append))]
fn item(
    alloc: Global,
    names: &mut Names,
    first: &mut Option<Fault>,
    item: &syntax::Item,
) -> Result<Item, NoMemory>
    ensures made { IfOk result (λ made. view.item_of made ≡ code_in names.old (item_of item.now)) }
    ensures known { OnOk result (names.new ≡ behind (item_of item.now) names.old) }
    ensures faults { OnOk result (first.new ≡ least first.old (code_faults Int false names.old (item_of item.now))) }
{
    match item {
        syntax::Item::Scalar(name) => {
            *first = note_name(names, name, *first);
            let number = names.scalar(alloc, name)?;
            Ok(Item::Scalar(number))
        }
        syntax::Item::ScalarWith(name, value) => {
            let before = note_expression(names, value, *first);
            *first = note_name(names, name, before);
            valued(alloc, names, name, value)
        }
        syntax::Item::Array(name, size) => {
            let before = note_name(names, name, *first);
            *first = note_size(*size, before);
            let number = names.array(alloc, name, *size)?;
            Ok(Item::Array(number))
        }
    }
}

/// The items of a declaration, each known behind its own end.
pub fn items(
    alloc: Global,
    names: &mut Names,
    first: &mut Option<Fault>,
    all: &[syntax::Item],
) -> Result<Vec<Item>, NoMemory>
    ensures made { IfOk result (λ made. view.items_of made.items ≡ code_in names.old (items_of all.now)) }
    ensures known { OnOk result (names.new ≡ behind (items_of all.now) names.old) }
    ensures faults { OnOk result (first.new ≡ least first.old (code_faults Int false names.old (items_of all.now))) }
{
    let mut made = Vec::new(alloc);
    for one in all {
        let declared = item(alloc, names, first, one)?;
        append(&mut made, declared)?;
    }
    Ok(made)
}

/// The first part of the head of a `for`.
pub fn first_part(
    alloc: Global,
    names: &mut Names,
    first: &mut Option<Fault>,
    part: &syntax::First,
) -> Result<First, NoMemory>
    ensures made { IfOk result (λ made. view.first_of made ≡ code_in names.old (first_of part.now)) }
    ensures known { OnOk result (names.new ≡ behind (first_of part.now) names.old) }
    ensures faults { OnOk result (first.new ≡ least first.old (code_faults Int false names.old (first_of part.now))) }
{
    match part {
        syntax::First::Nothing => Ok(First::Nothing),
        syntax::First::Simple(simple) => {
            *first = note_simple(names, simple, *first);
            let simple = resolve_simple(alloc, names, simple)?;
            Ok(First::Simple(simple))
        }
        syntax::First::Items(all) => {
            let made = items(alloc, names, first, all.as_slice())?;
            Ok(First::Items(made))
        }
    }
}

/// The first of a fault that is there already and those of the condition of a `for`.
pub fn note_test(
    names: &Names,
    test: &Option<syntax::Expression>,
    first: Option<Fault>,
) -> Option<Fault>
    ensures { result ≡ least first (test_faults names.now (option_map phrase_of test.now)) }
{
    match test {
        None => first,
        Some(test) => note_expression(names, test, first),
    }
}

/// The condition of a `for` with what its names stand for.
pub fn resolve_test(
    alloc: Global,
    names: &Names,
    test: &Option<syntax::Expression>,
) -> Result<Option<Expression>, NoMemory>
    ensures { IfOk result (λ made. option_map tree_of made ≡ test_in names.now (option_map phrase_of test.now)) }
{
    match test {
        None => Ok(None),
        Some(test) => {
            let test = resolve(alloc, names, test)?;
            Ok(Some(test))
        }
    }
}

/// The first of a fault that is there already and those of the step of a `for`.
pub fn note_step(
    names: &Names,
    step: &Option<syntax::Simple>,
    first: Option<Fault>,
) -> Option<Fault>
    ensures { result ≡ least first (code_faults Int false names.now (step_of step.now)) }
{
    match step {
        None => first,
        Some(step) => note_simple(names, step, first),
    }
}

/// The step of a `for` with what its names stand for.
pub fn resolve_step(
    alloc: Global,
    names: &Names,
    step: &Option<syntax::Simple>,
) -> Result<Option<Simple>, NoMemory>
    ensures { IfOk result (λ made. view.step_of made ≡ code_in names.now (step_of step.now)) }
{
    match step {
        None => Ok(None),
        Some(step) => {
            let step = resolve_simple(alloc, names, step)?;
            Ok(Some(step))
        }
    }
}
