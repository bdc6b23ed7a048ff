// Expressions.

ghost use Rattle.std.specs.Prelude.{◌≡◌, ◌<◌, ◌≤◌, ◌+◌, length, drop, IfOk, IfErr, ◌∷◌, []};
ghost use Rattle.vx_ast.specs.declared.token.Mark.TheVariants as marks;
ghost use Rattle.vx_ast.specs.declared.token.TokenKind.TheVariants as kinds;
ghost use Rattle.vx_ast.specs.SyntaxView.{phrase_of, row_in};
ghost use Rattle.vx_ast.specs.Phrases as phrases;
ghost use Rattle.vx_ast.specs.Phrases.{Level, LevelRest, Primary, NameRest, Arguments, MoreExpressions, A};
ghost use Rattle.vx_parse.specs.Reading.{Ended, next_kind, Stops, IsOperand, IsBehind, IsNamed, IsIndex, AreCalled, AreOperands, AreMore};

use crate::choice::{join, strength, unary_operator};
use crate::memory::{append, boxed, boxed_closed, boxed_within, closed};
use crate::stop::Stop;
use crate::token::{is_mark, kind_at, place_at, read_mark, read_name};
use std::alloc::Global;
use vx_ast::syntax::{Argument, Expression, Name};
use vx_ast::token::{Mark, Token, TokenKind};

/// The greatest depth of constructs.
pub const DEEPEST: u32 = 200;

/// An expression.
#[derive(Drop)]
pub struct Operand {
    /// The expression.
    pub expression: Expression,
    /// How deep its constructs stand in each other.
    pub height: u32,
    /// How many tokens stand before what comes next.
    pub next: usize,
}

/// The index of an element.
#[derive(Drop)]
struct IndexRead {
    /// The index.
    index: Box<Expression>,
    /// How deep its constructs stand in each other, with the element itself.
    height: u32,
    /// How many tokens stand before what comes next.
    next: usize,
}

/// A row of arguments.
#[derive(Drop)]
pub struct Operands {
    /// The arguments.
    pub arguments: Vec<Argument>,
    /// How deep their constructs stand in each other.
    pub height: u32,
    /// How many tokens stand before what comes next.
    pub next: usize,
}

/// The expression at a place, in so many constructs.
#[cycle(expressions)]
pub fn read_expression(
    alloc: Global,
    tokens: &[Token],
    place: usize,
    depth: u32,
) -> Result<Operand, Stop>
    requires ended { Ended tokens.now }
    requires within { place < length tokens.now }
    requires depth { depth ≤ 200 }
    ensures ok { IfOk result (λ r. IsOperand phrases.Expression tokens.now place depth r) }
    ensures stop { IfErr result (λ stop. Stops (A phrases.Expression ∷ []) (drop place tokens.now) tokens.now depth 0 stop) }
{
    let test = read_level(alloc, tokens, place, depth, 10)?;
    if !is_mark(kind_at(tokens, test.next), Mark::Question) {
        return Ok(test);
    }
    let condition = boxed_within(alloc, test.expression, depth + test.height)?;
    let chosen = read_expression(alloc, tokens, test.next + 1, depth + 1)?;
    let taken = boxed_closed(alloc, tokens, chosen.next, Mark::Colon, chosen.expression)?;
    let other = read_expression(alloc, tokens, chosen.next + 1, depth + 1)?;
    let left = boxed(alloc, other.expression)?;
    Ok(Operand {
        expression: Expression::Choice(condition, taken, left),
        height: 1 + test.height.max(chosen.height).max(other.height),
        next: other.next,
    })
}

/// The operands, with their operators, of operators of this strength.
#[cycle(expressions)]
pub fn read_level(
    alloc: Global,
    tokens: &[Token],
    place: usize,
    depth: u32,
    level: u32,
) -> Result<Operand, Stop>
    requires ended { Ended tokens.now }
    requires within { place < length tokens.now }
    requires depth { depth ≤ 200 }
    requires level { level ≤ 10 }
    ensures ok { IfOk result (λ r. IsOperand (Level level) tokens.now place depth r) }
    ensures stop { IfErr result (λ stop. Stops (A (Level level) ∷ []) (drop place tokens.now) tokens.now depth 0 stop) }
{
    if level == 0 {
        return read_unary(alloc, tokens, place, depth);
    }
    let left = read_level(alloc, tokens, place, depth, level - 1)?;
    read_behind(alloc, tokens, left, depth, level - 1)
}

/// The operators of this strength behind a left operand, with their right operands.
#[cycle(expressions)]
fn read_behind(
    alloc: Global,
    tokens: &[Token],
    left: Operand,
    depth: u32,
    level: u32,
) -> Result<Operand, Stop>
    requires ended { Ended tokens.now }
    requires within { left.next < length tokens.now }
    requires shallow { depth + left.height ≤ 200 }
    requires level { level ≤ 9 }
    ensures ok { IfOk result (λ r. IsBehind level (phrase_of left.expression) left.height tokens.now left.next depth r) }
    ensures stop { IfErr result (λ stop. Stops (A (LevelRest level) ∷ []) (drop left.next tokens.now) tokens.now depth left.height stop) }
{
    let kind = kind_at(tokens, left.next);
    if strength(kind) != level {
        return Ok(left);
    }
    let before = boxed_within(alloc, left.expression, depth + left.height)?;
    let right = read_level(alloc, tokens, left.next + 1, depth + 1, level)?;
    let behind = boxed(alloc, right.expression)?;
    let both = Operand {
        expression: join(kind, before, behind),
        height: 1 + left.height.max(right.height),
        next: right.next,
    };
    read_behind(alloc, tokens, both, depth, level)
}

#[cycle(expressions)]
fn read_unary(alloc: Global, tokens: &[Token], place: usize, depth: u32) -> Result<Operand, Stop>
    requires ended { Ended tokens.now }
    requires within { place < length tokens.now }
    requires depth { depth ≤ 200 }
    ensures ok { IfOk result (λ r. IsOperand (Level 0) tokens.now place depth r) }
    ensures stop { IfErr result (λ stop. Stops (A (Level 0) ∷ []) (drop place tokens.now) tokens.now depth 0 stop) }
{
    match unary_operator(kind_at(tokens, place)) {
        Some(operator) => {
            if depth >= DEEPEST {
                return Err(Stop::TooDeep);
            }
            let operand = read_unary(alloc, tokens, place + 1, depth + 1)?;
            Ok(Operand {
                expression: Expression::Unary(operator, boxed(alloc, operand.expression)?),
                height: 1 + operand.height,
                next: operand.next,
            })
        }
        None => read_primary(alloc, tokens, place, depth),
    }
}

#[cycle(expressions)]
fn read_primary(alloc: Global, tokens: &[Token], place: usize, depth: u32) -> Result<Operand, Stop>
    requires ended { Ended tokens.now }
    requires within { place < length tokens.now }
    requires depth { depth ≤ 200 }
    ensures ok { IfOk result (λ r. IsOperand Primary tokens.now place depth r) }
    ensures stop { IfErr result (λ stop. Stops (A Primary ∷ []) (drop place tokens.now) tokens.now depth 0 stop) }
{
    let kind = kind_at(tokens, place);
    if is_mark(kind, Mark::OpenParenthesis) {
        if depth >= DEEPEST {
            return Err(Stop::TooDeep);
        }
        let inner = read_expression(alloc, tokens, place + 1, depth + 1)?;
        return Ok(Operand {
            expression: closed(tokens, inner.next, Mark::CloseParenthesis, inner.expression)?,
            height: 1 + inner.height,
            next: inner.next + 1,
        });
    }
    match kind {
        TokenKind::Number(value) => Ok(Operand {
            expression: Expression::Number(*value),
            height: 0,
            next: place + 1,
        }),
        TokenKind::Name(_) => {
            let name = read_name(alloc, tokens, place)?;
            read_named(alloc, tokens, name.next, depth, name.name)
        }
        _ => Err(Stop::Unexpected(place)),
    }
}

/// A name with what stands behind it: an index, arguments or nothing.
#[cycle(expressions)]
fn read_named(
    alloc: Global,
    tokens: &[Token],
    place: usize,
    depth: u32,
    name: Name,
) -> Result<Operand, Stop>
    requires ended { Ended tokens.now }
    requires within { place < length tokens.now }
    requires depth { depth ≤ 200 }
    ensures ok { IfOk result (λ r. IsNamed name tokens.now place depth r) }
    ensures stop { IfErr result (λ stop. Stops (A NameRest ∷ []) (drop place tokens.now) tokens.now depth 0 stop) }
{
    let kind = kind_at(tokens, place);
    if is_mark(kind, Mark::OpenBracket) {
        let index = read_index(alloc, tokens, place, depth)?;
        return Ok(Operand {
            expression: Expression::Element(name, index.index),
            height: index.height,
            next: index.next,
        });
    }
    if is_mark(kind, Mark::OpenParenthesis) {
        let called = read_called(alloc, tokens, place, depth)?;
        return Ok(Operand {
            expression: Expression::Call(name, called.arguments),
            height: called.height,
            next: called.next,
        });
    }
    Ok(Operand {
        expression: Expression::Name(name),
        height: 0,
        next: place,
    })
}

/// The index of an element, with its brackets.
#[cycle(expressions)]
fn read_index(alloc: Global, tokens: &[Token], place: usize, depth: u32) -> Result<IndexRead, Stop>
    requires ended { Ended tokens.now }
    requires within { place < length tokens.now }
    requires depth { depth ≤ 200 }
    requires here { next_kind (drop place tokens.now) ≡ kinds.Mark marks.OpenBracket }
    ensures ok { IfOk result (λ r. IsIndex tokens.now place depth r) }
    ensures stop { IfErr result (λ stop. Stops (A NameRest ∷ []) (drop place tokens.now) tokens.now depth 0 stop) }
{
    if depth >= DEEPEST {
        return Err(Stop::TooDeep);
    }
    let index = read_expression(alloc, tokens, place + 1, depth + 1)?;
    Ok(IndexRead {
        index: boxed_closed(
            alloc,
            tokens,
            index.next,
            Mark::CloseBracket,
            index.expression,
        )?,
        height: 1 + index.height,
        next: index.next + 1,
    })
}

/// The arguments of a call, with their parentheses, which are a construct.
#[cycle(expressions)]
fn read_called(alloc: Global, tokens: &[Token], place: usize, depth: u32) -> Result<Operands, Stop>
    requires ended { Ended tokens.now }
    requires within { place < length tokens.now }
    requires depth { depth ≤ 200 }
    requires here { next_kind (drop place tokens.now) ≡ kinds.Mark marks.OpenParenthesis }
    ensures ok { IfOk result (λ r. AreCalled tokens.now place depth r) }
    ensures stop { IfErr result (λ stop. Stops (A NameRest ∷ []) (drop place tokens.now) tokens.now depth 0 stop) }
{
    if depth >= DEEPEST {
        return Err(Stop::TooDeep);
    }
    let inner = read_arguments(alloc, tokens, place + 1, depth + 1)?;
    Ok(Operands {
        arguments: inner.arguments,
        height: 1 + inner.height,
        next: read_mark(tokens, inner.next, Mark::CloseParenthesis)?,
    })
}

/// The arguments of a call, up to its `)`.
#[cycle(expressions)]
fn read_arguments(
    alloc: Global,
    tokens: &[Token],
    place: usize,
    depth: u32,
) -> Result<Operands, Stop>
    requires ended { Ended tokens.now }
    requires within { place < length tokens.now }
    requires depth { depth ≤ 200 }
    ensures ok { IfOk result (λ r. AreOperands Arguments tokens.now place depth r) }
    ensures stop { IfErr result (λ stop. Stops (A Arguments ∷ []) (drop place tokens.now) tokens.now depth 0 stop) }
{
    let mut arguments = Vec::new(alloc);
    if is_mark(kind_at(tokens, place), Mark::CloseParenthesis) {
        return Ok(Operands {
            arguments,
            height: 0,
            next: place,
        });
    }
    let first = read_expression(alloc, tokens, place, depth)?;
    let argument = Argument {
        place: place_at(tokens, place),
        expression: first.expression,
    };
    append(&mut arguments, argument)?;
    let before = Operands {
        arguments,
        height: first.height,
        next: first.next,
    };
    read_more(alloc, tokens, before, depth)
}

/// Arguments, each behind a comma, put behind others.
#[cycle(expressions)]
pub fn read_more(
    alloc: Global,
    tokens: &[Token],
    before: Operands,
    depth: u32,
) -> Result<Operands, Stop>
    requires ended { Ended tokens.now }
    requires within { before.next < length tokens.now }
    requires depth { depth + before.height ≤ 200 }
    ensures ok { IfOk result (λ r. AreMore before tokens.now depth r) }
    ensures stop { IfErr result (λ stop. Stops (A MoreExpressions ∷ []) (drop before.next tokens.now) tokens.now depth 0 stop) }
{
    let mut all = before;
    'more: loop {
        if !is_mark(kind_at(tokens, all.next), Mark::Comma) {
            return Ok(all);
        }
        let next = read_expression(alloc, tokens, all.next + 1, depth)?;
        let argument = Argument {
            place: place_at(tokens, all.next + 1),
            expression: next.expression,
        };
        append(&mut all.arguments, argument)?;
        all.height = all.height.max(next.height);
        all.next = next.next;
    }
}
