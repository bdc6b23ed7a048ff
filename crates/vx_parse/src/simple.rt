// Statements that may stand in the head of a `for`, and declarations.

ghost use Rattle.std.specs.Prelude.{◌≡◌, ◌<◌, ◌≤◌, ◌+◌, ◌++◌, length, drop, IfOk, IfErr, ◌∷◌, [], Some};
ghost use Rattle.vx_ast.specs.declared.token.Mark.TheVariants as marks;
ghost use Rattle.vx_ast.specs.declared.token.TokenKind.TheVariants as kinds;
ghost use Rattle.vx_ast.specs.SyntaxView as view;
ghost use Rattle.vx_ast.specs.SyntaxView.{phrase_of};
ghost use Rattle.vx_ast.specs.Phrases as phrases;
ghost use Rattle.vx_ast.specs.Phrases.{Level, SimpleRest, ItemValue, MoreItems, A, The, parts_of};
ghost use Rattle.vx_ast.specs.Derivations.{stepped, assigned};
ghost use Rattle.vx_parse.specs.Reading.{Ended, next_kind, Stops, IsPhrase, Continues};
ghost use Rattle.vx_parse.specs.Statements.{MeansAction, MeansDone, MeansItem, MeansItems, IsGiven, item_with, AreItems, ItemsBehind};

use crate::choice::{Following, binary_operator, is_step, what_follows};
use crate::expression::{read_expression, read_level};
use crate::memory::append;
use crate::stop::Stop;
use crate::token::{is_mark, kind_at, place_at, read_mark, read_name, read_size};
use std::alloc::Global;
use vx_ast::syntax::{Expression, Item, Name, Simple, Size, Target};
use vx_ast::token::{Mark, Token, TokenKind};

/// A statement that may stand in the head of a `for`, and the place behind it.
#[derive(Drop)]
pub struct SimpleRead {
    /// The statement.
    pub simple: Simple,
    /// How many tokens stand before what comes next.
    pub next: usize,
}

/// An item of a declaration, and the place behind it.
#[derive(Drop)]
pub struct ItemRead {
    /// The item.
    pub item: Item,
    /// How many tokens stand before what comes next.
    pub next: usize,
}

/// What stands behind the name of an item.
#[derive(Drop)]
enum Given {
    /// Nothing.
    Nothing,
    /// `=` and a value.
    Value(Expression),
    /// The number of words of an array in brackets.
    Words(Size),
}

/// What stands behind the name of an item, and the place behind it.
#[derive(Drop)]
struct GivenRead {
    /// What stands there.
    given: Given,
    /// How many tokens stand before what comes next.
    next: usize,
}

/// Items of a declaration, and the place behind them.
#[derive(Drop)]
pub struct ItemsRead {
    /// The items.
    pub items: Vec<Item>,
    /// How many tokens stand before what comes next.
    pub next: usize,
}

// `++` or `--` and its target.
fn step(kind: &TokenKind, target: Target) -> Simple
    ensures { view.action_of result ≡ stepped kind.now (view.target_of target) }
{
    match kind {
        TokenKind::Mark(Mark::PlusPlus) => Simple::Increase(target),
        _ => Simple::Decrease(target),
    }
}

// An assignment to a target, by the mark of its kind.
fn assign(kind: &TokenKind, target: Target, value: Expression) -> Simple
    ensures { view.action_of result ≡ assigned kind.now (view.target_of target) (phrase_of value) }
{
    match binary_operator(kind) {
        Some(operator) => Simple::Compound(target, operator, value),
        None => Simple::Assign(target, value),
    }
}

// `++` or `--` in front of a target.
fn read_stepped(
    alloc: Global,
    tokens: &[Token],
    place: usize,
    depth: u32,
) -> Result<SimpleRead, Stop>
    requires ended { Ended tokens.now }
    requires within { place < length tokens.now }
    requires depth { depth ≤ 200 }
    requires step { parts_of phrases.Simple (next_kind (drop place tokens.now)) ≡ Some (The (next_kind (drop place tokens.now)) ∷ A (Level 0) ∷ []) }
    ensures ok { IfOk result (λ r. IsPhrase phrases.Simple tokens.now place (place + 1) r.next depth (MeansAction r.simple)) }
    ensures stop { IfErr result (λ stop. Stops (A phrases.Simple ∷ []) (drop place tokens.now) tokens.now depth 0 stop) }
{
    let operand = read_level(alloc, tokens, place + 1, depth, 0)?;
    let target = Target {
        place: place_at(tokens, place + 1),
        expression: operand.expression,
    };
    Ok(SimpleRead {
        simple: step(kind_at(tokens, place), target),
        next: operand.next,
    })
}

// What is done to an expression, by what stands behind it.
fn read_done_to(
    alloc: Global,
    tokens: &[Token],
    target: Target,
    place: usize,
    depth: u32,
) -> Result<SimpleRead, Stop>
    requires ended { Ended tokens.now }
    requires within { place < length tokens.now }
    requires depth { depth ≤ 200 }
    ensures ok { IfOk result (λ r. IsPhrase SimpleRest tokens.now place place r.next depth (MeansDone (view.target_of target) r.simple)) }
    ensures stop { IfErr result (λ stop. Stops (A SimpleRest ∷ []) (drop place tokens.now) tokens.now depth 0 stop) }
{
    let kind = kind_at(tokens, place);
    match what_follows(kind) {
        Following::Step => Ok(SimpleRead {
            simple: step(kind, target),
            next: place + 1,
        }),
        Following::Value => match read_expression(alloc, tokens, place + 1, depth) {
            Ok(value) => Ok(SimpleRead {
                simple: assign(kind, target, value.expression),
                next: value.next,
            }),
            Err(stop) => {
                drop(target.expression);
                Err(stop)
            }
        },
        Following::Nothing => Ok(SimpleRead {
            simple: Simple::Evaluate(target.expression),
            next: place,
        }),
    }
}

/// A statement that may stand in the head of a `for`, in so many constructs.
pub fn read_simple(
    alloc: Global,
    tokens: &[Token],
    place: usize,
    depth: u32,
) -> Result<SimpleRead, Stop>
    requires ended { Ended tokens.now }
    requires within { place < length tokens.now }
    requires depth { depth ≤ 200 }
    ensures ok { IfOk result (λ r. IsPhrase phrases.Simple tokens.now place (place + 1) r.next depth (MeansAction r.simple)) }
    ensures stop { IfErr result (λ stop. Stops (A phrases.Simple ∷ []) (drop place tokens.now) tokens.now depth 0 stop) }
{
    if is_step(kind_at(tokens, place)) {
        return read_stepped(alloc, tokens, place, depth);
    }
    let operand = read_expression(alloc, tokens, place, depth)?;
    let target = Target {
        place: place_at(tokens, place),
        expression: operand.expression,
    };
    read_done_to(alloc, tokens, target, operand.next, depth)
}

// What stands behind the name of an item: a value, a size or nothing.
fn read_given(alloc: Global, tokens: &[Token], place: usize, depth: u32) -> Result<GivenRead, Stop>
    requires ended { Ended tokens.now }
    requires within { place < length tokens.now }
    requires depth { depth ≤ 200 }
    ensures ok { IfOk result (λ r. IsGiven tokens.now place depth r) }
    ensures stop { IfErr result (λ stop. Stops (A ItemValue ∷ []) (drop place tokens.now) tokens.now depth 0 stop) }
{
    let kind = kind_at(tokens, place);
    if is_mark(kind, Mark::Equal) {
        let value = read_expression(alloc, tokens, place + 1, depth)?;
        return Ok(GivenRead {
            given: Given::Value(value.expression),
            next: value.next,
        });
    }
    if is_mark(kind, Mark::OpenBracket) {
        let size = read_size(tokens, place + 1)?;
        let next = read_mark(tokens, size.next, Mark::CloseBracket)?;
        return Ok(GivenRead {
            given: Given::Words(size.size),
            next,
        });
    }
    Ok(GivenRead {
        given: Given::Nothing,
        next: place,
    })
}

// The item of a name with what stands behind it.
fn item_with(name: Name, given: Given) -> Item
    ensures { result ≡ item_with name given }
{
    match given {
        Given::Nothing => Item::Scalar(name),
        Given::Value(value) => Item::ScalarWith(name, value),
        Given::Words(size) => Item::Array(name, size),
    }
}

fn read_item(alloc: Global, tokens: &[Token], place: usize, depth: u32) -> Result<ItemRead, Stop>
    requires ended { Ended tokens.now }
    requires within { place < length tokens.now }
    requires depth { depth ≤ 200 }
    ensures ok { IfOk result (λ r. IsPhrase phrases.Item tokens.now place (place + 1) r.next depth (MeansItem r.item)) }
    ensures stop { IfErr result (λ stop. Stops (A phrases.Item ∷ []) (drop place tokens.now) tokens.now depth 0 stop) }
{
    let name = read_name(alloc, tokens, place)?;
    let given = read_given(alloc, tokens, name.next, depth)?;
    Ok(ItemRead {
        item: item_with(name.name, given.given),
        next: given.next,
    })
}

// An item behind a comma.
fn read_next_item(
    alloc: Global,
    tokens: &[Token],
    place: usize,
    depth: u32,
) -> Result<ItemRead, Stop>
    requires ended { Ended tokens.now }
    requires within { place < length tokens.now }
    requires depth { depth ≤ 200 }
    requires comma { next_kind (drop place tokens.now) ≡ kinds.Mark marks.Comma }
    ensures ok { IfOk result (λ r. Continues MoreItems tokens.now place depth MeansItems r.next (r.item ∷ [])) }
    ensures stop { IfErr result (λ stop. Stops (A MoreItems ∷ []) (drop place tokens.now) tokens.now depth 0 stop) }
    ensures further { IfOk result (λ r. place < r.next) }
{
    read_item(alloc, tokens, place + 1, depth)
}

// Items, each behind a comma, put behind others.
fn read_more_items(
    alloc: Global,
    tokens: &[Token],
    before: ItemsRead,
    depth: u32,
) -> Result<ItemsRead, Stop>
    requires ended { Ended tokens.now }
    requires within { before.next < length tokens.now }
    requires depth { depth ≤ 200 }
    ensures ok { IfOk result (λ r. ItemsBehind before tokens.now depth r) }
    ensures stop { IfErr result (λ stop. Stops (A MoreItems ∷ []) (drop before.next tokens.now) tokens.now depth 0 stop) }
{
    let mut all = before;
    'items: loop {
        if !is_mark(kind_at(tokens, all.next), Mark::Comma) {
            return Ok(all);
        }
        let item = read_next_item(alloc, tokens, all.next, depth)?;
        append(&mut all.items, item.item)?;
        all.next = item.next;
    }
}

/// The items of a declaration, in so many constructs.
pub fn read_items(
    alloc: Global,
    tokens: &[Token],
    place: usize,
    depth: u32,
) -> Result<ItemsRead, Stop>
    requires ended { Ended tokens.now }
    requires within { place < length tokens.now }
    requires depth { depth ≤ 200 }
    ensures ok { IfOk result (λ r. AreItems tokens.now place depth r) }
    ensures stop { IfErr result (λ stop. Stops (A phrases.Item ∷ A MoreItems ∷ []) (drop place tokens.now) tokens.now depth 0 stop) }
{
    let first = read_item(alloc, tokens, place, depth)?;
    let mut items = Vec::new(alloc);
    append(&mut items, first.item)?;
    let before = ItemsRead {
        items,
        next: first.next,
    };
    read_more_items(alloc, tokens, before, depth)
}
