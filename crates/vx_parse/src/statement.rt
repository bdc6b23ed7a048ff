// Statements. A part is held in a box while what stands behind it is read, so that it is dropped in one step where that
// does not fit.

ghost use Rattle.std.specs.Prelude.{◌≡◌, ◌<◌, ◌≤◌, ◌+◌, true, length, drop, IfOk, IfErr, ◌∷◌, [], Some, option_map};
ghost use Rattle.vx_ast.specs.declared.token.Keyword.TheVariants as words;
ghost use Rattle.vx_ast.specs.declared.token.Mark.TheVariants as marks;
ghost use Rattle.vx_ast.specs.declared.token.TokenKind.TheVariants as kinds;
ghost use Rattle.vx_ast.specs.SyntaxView as view;
ghost use Rattle.vx_ast.specs.SyntaxView.{phrase_of};
ghost use Rattle.vx_ast.specs.Phrases as phrases;
ghost use Rattle.vx_ast.specs.Phrases.{ElsePart, OptionalExpression, OptionalSimple, Print, Block, Items, A, AName, Fits, parts_of, mark};
ghost use Rattle.vx_ast.specs.Derivations.{returned};
ghost use Rattle.vx_parse.specs.Reading.{Ended, next_kind, Stops, IsPhrase, Continues};
ghost use Rattle.vx_parse.specs.Choices.{begins_simple};
ghost use Rattle.vx_parse.specs.Statements.{MeansAction, MeansFirst, MeansTest, MeansStep, MeansElse, MeansPrint, MeansCode, MeansBlock, MeansAll, if_with, Test, Head, IsTest, IsHead};

use crate::expression::{DEEPEST, Operands, read_expression, read_more};
use crate::first_token::{Opening, opening_of};
use crate::memory::{append, boxed, boxed_closed};
use crate::simple::{read_items, read_simple};
use crate::stop::Stop;
use crate::token::{is_mark, is_word, kind_at, place_at, read_mark, read_text, read_word};
use std::alloc::Global;
use vx_ast::syntax::{Argument, Expression, First, Place, Simple, Statement};
use vx_ast::token::{Keyword, Mark, Token};
use vx_base::listed::Bytes;

/// A statement, and the place behind it.
#[derive(Drop)]
pub struct StatementRead {
    /// The statement.
    pub statement: Statement,
    /// How many tokens stand before what comes next.
    pub next: usize,
}

/// Statements, and the place behind them.
#[derive(Drop)]
pub struct StatementsRead {
    /// The statements.
    pub statements: Vec<Statement>,
    /// How many tokens stand before what comes next.
    pub next: usize,
}

/// A test in parentheses, and the place behind it.
#[derive(Drop)]
pub struct TestRead {
    /// The test.
    pub test: Box<Expression>,
    /// How many tokens stand before what comes next.
    pub next: usize,
}

/// The first part of the head of a `for`, and the place behind it.
#[derive(Drop)]
pub struct FirstRead {
    /// The first part.
    pub first: Box<First>,
    /// How many tokens stand before what comes next.
    pub next: usize,
}

/// An expression or nothing, and the place behind it.
#[derive(Drop)]
pub struct OptionalRead {
    /// The expression.
    pub expression: Box<Option<Expression>>,
    /// How many tokens stand before what comes next.
    pub next: usize,
}

/// A statement that may stand in the head of a `for`, and the place behind it.
#[derive(Drop)]
pub struct BoxedRead {
    /// The statement.
    pub simple: Box<Simple>,
    /// How many tokens stand before what comes next.
    pub next: usize,
}

/// The step of a `for` or nothing, and the place behind it.
#[derive(Drop)]
pub struct StepRead {
    /// The step.
    pub step: Box<Option<Simple>>,
    /// How many tokens stand before what comes next.
    pub next: usize,
}

/// The head of a `for`, and the place behind it.
#[derive(Drop)]
pub struct HeadRead {
    /// The first part.
    pub first: Box<First>,
    /// The condition.
    pub test: Box<Option<Expression>>,
    /// The step.
    pub step: Box<Option<Simple>>,
    /// How many tokens stand before what comes next.
    pub next: usize,
}

/// `printf` with what stands in its parentheses, and the place behind it.
#[derive(Drop)]
pub struct PrintRead {
    /// Where `printf` stands.
    pub place: Place,
    /// Where the format stands.
    pub format_place: Place,
    /// The format.
    pub format: Bytes,
    /// The arguments.
    pub arguments: Vec<Argument>,
    /// How many tokens stand before what comes next.
    pub next: usize,
}

/// A statement inside another, and the place behind it.
#[derive(Drop)]
pub struct BodyRead {
    /// The statement.
    pub body: Box<Statement>,
    /// How many tokens stand before what comes next.
    pub next: usize,
}

/// The statement behind `else`, if there is one, and the place behind it.
#[derive(Drop)]
pub struct ElseRead {
    /// The statement.
    pub other: Option<BodyRead>,
    /// How many tokens stand before what comes next.
    pub next: usize,
}

// A test in parentheses.
fn read_test(alloc: Global, tokens: &[Token], place: usize, depth: u32) -> Result<TestRead, Stop>
    requires ended { Ended tokens.now }
    requires within { place < length tokens.now }
    requires depth { depth ≤ 200 }
    ensures ok { IfOk result (λ r. IsTest tokens.now place depth r) }
    ensures stop { IfErr result (λ stop. Stops Test (drop place tokens.now) tokens.now depth 0 stop) }
{
    let inner = read_mark(tokens, place, Mark::OpenParenthesis)?;
    let test = read_expression(alloc, tokens, inner, depth)?;
    Ok(TestRead {
        test: boxed_closed(
            alloc,
            tokens,
            test.next,
            Mark::CloseParenthesis,
            test.expression,
        )?,
        next: test.next + 1,
    })
}

// The items that `int` begins in the head of a `for`.
fn read_first_items(
    alloc: Global,
    tokens: &[Token],
    place: usize,
    depth: u32,
) -> Result<FirstRead, Stop>
    requires ended { Ended tokens.now }
    requires within { place < length tokens.now }
    requires depth { depth ≤ 200 }
    requires here { next_kind (drop place tokens.now) ≡ kinds.Keyword words.Int }
    ensures ok { IfOk result (λ r. IsPhrase phrases.First tokens.now place place r.next depth (MeansFirst r.first.value)) }
    ensures stop { IfErr result (λ stop. Stops (A phrases.First ∷ []) (drop place tokens.now) tokens.now depth 0 stop) }
{
    let items = read_items(alloc, tokens, place + 1, depth)?;
    let next = items.next;
    Ok(FirstRead {
        first: boxed(alloc, First::Items(items.items))?,
        next,
    })
}

// The first part of the head of a `for`.
fn read_first(alloc: Global, tokens: &[Token], place: usize, depth: u32) -> Result<FirstRead, Stop>
    requires ended { Ended tokens.now }
    requires within { place < length tokens.now }
    requires depth { depth ≤ 200 }
    ensures ok { IfOk result (λ r. IsPhrase phrases.First tokens.now place place r.next depth (MeansFirst r.first.value)) }
    ensures stop { IfErr result (λ stop. Stops (A phrases.First ∷ []) (drop place tokens.now) tokens.now depth 0 stop) }
{
    let kind = kind_at(tokens, place);
    if is_mark(kind, Mark::Semicolon) {
        return Ok(FirstRead {
            first: boxed(alloc, First::Nothing)?,
            next: place,
        });
    }
    if is_word(kind, Keyword::Int) {
        return read_first_items(alloc, tokens, place, depth);
    }
    let simple = read_simple(alloc, tokens, place, depth)?;
    let next = simple.next;
    Ok(FirstRead {
        first: boxed(alloc, First::Simple(simple.simple))?,
        next,
    })
}

// An expression, or nothing before `;`.
fn read_optional(
    alloc: Global,
    tokens: &[Token],
    place: usize,
    depth: u32,
) -> Result<OptionalRead, Stop>
    requires ended { Ended tokens.now }
    requires within { place < length tokens.now }
    requires depth { depth ≤ 200 }
    ensures ok { IfOk result (λ r. IsPhrase OptionalExpression tokens.now place place r.next depth (MeansTest r.expression.value)) }
    ensures stop { IfErr result (λ stop. Stops (A OptionalExpression ∷ []) (drop place tokens.now) tokens.now depth 0 stop) }
{
    if is_mark(kind_at(tokens, place), Mark::Semicolon) {
        return Ok(OptionalRead {
            expression: boxed(alloc, None)?,
            next: place,
        });
    }
    let value = read_expression(alloc, tokens, place, depth)?;
    let next = value.next;
    Ok(OptionalRead {
        expression: boxed(alloc, Some(value.expression))?,
        next,
    })
}

// The step of a `for`, or nothing before `)`.
fn read_step(alloc: Global, tokens: &[Token], place: usize, depth: u32) -> Result<StepRead, Stop>
    requires ended { Ended tokens.now }
    requires within { place < length tokens.now }
    requires depth { depth ≤ 200 }
    ensures ok { IfOk result (λ r. IsPhrase OptionalSimple tokens.now place place r.next depth (MeansStep r.step.value)) }
    ensures stop { IfErr result (λ stop. Stops (A OptionalSimple ∷ []) (drop place tokens.now) tokens.now depth 0 stop) }
{
    if is_mark(kind_at(tokens, place), Mark::CloseParenthesis) {
        return Ok(StepRead {
            step: boxed(alloc, None)?,
            next: place,
        });
    }
    let simple = read_simple(alloc, tokens, place, depth)?;
    let next = simple.next;
    Ok(StepRead {
        step: boxed(alloc, Some(simple.simple))?,
        next,
    })
}

// The head of a `for`, with its parentheses.
fn read_head(alloc: Global, tokens: &[Token], place: usize, depth: u32) -> Result<HeadRead, Stop>
    requires ended { Ended tokens.now }
    requires within { place < length tokens.now }
    requires depth { depth ≤ 200 }
    ensures ok { IfOk result (λ r. IsHead tokens.now place depth r) }
    ensures stop { IfErr result (λ stop. Stops Head (drop place tokens.now) tokens.now depth 0 stop) }
{
    let first_place = read_mark(tokens, place, Mark::OpenParenthesis)?;
    let first = read_first(alloc, tokens, first_place, depth)?;
    let test_place = read_mark(tokens, first.next, Mark::Semicolon)?;
    let test = read_optional(alloc, tokens, test_place, depth)?;
    let step_place = read_mark(tokens, test.next, Mark::Semicolon)?;
    let step = read_step(alloc, tokens, step_place, depth)?;
    let next = read_mark(tokens, step.next, Mark::CloseParenthesis)?;
    Ok(HeadRead {
        first: first.first,
        test: test.expression,
        step: step.step,
        next,
    })
}

// `printf` with what stands in its parentheses.
fn read_printed(
    alloc: Global,
    tokens: &[Token],
    place: usize,
    depth: u32,
) -> Result<PrintRead, Stop>
    requires ended { Ended tokens.now }
    requires within { place < length tokens.now }
    requires depth { depth ≤ 200 }
    requires name { Fits AName (next_kind (drop place tokens.now)) }
    ensures ok { IfOk result (λ r. IsPhrase Print tokens.now place (place + 1) r.next depth (MeansPrint r)) }
    ensures stop { IfErr result (λ stop. Stops (A Print ∷ []) (drop place tokens.now) tokens.now depth 0 stop) }
{
    let format_place = read_mark(tokens, place + 1, Mark::OpenParenthesis)?;
    let format = read_text(alloc, tokens, format_place)?;
    let before = Operands {
        arguments: Vec::new(alloc),
        height: 0,
        next: format.next,
    };
    let more = read_more(alloc, tokens, before, depth)?;
    let next = read_mark(tokens, more.next, Mark::CloseParenthesis)?;
    Ok(PrintRead {
        place: place_at(tokens, place),
        format_place: place_at(tokens, format_place),
        format: format.bytes,
        arguments: more.arguments,
        next,
    })
}

// A print.
fn read_print(
    alloc: Global,
    tokens: &[Token],
    place: usize,
    depth: u32,
) -> Result<StatementRead, Stop>
    requires ended { Ended tokens.now }
    requires within { place < length tokens.now }
    requires depth { depth ≤ 200 }
    requires name { Fits AName (next_kind (drop place tokens.now)) }
    requires here { parts_of phrases.Statement (next_kind (drop place tokens.now)) ≡ Some (A Print ∷ mark marks.Semicolon ∷ []) }
    ensures ok { IfOk result (λ r. IsPhrase phrases.Statement tokens.now place (place + 1) r.next depth (MeansCode r.statement)) }
    ensures stop { IfErr result (λ stop. Stops (A phrases.Statement ∷ []) (drop place tokens.now) tokens.now depth 0 stop) }
{
    if depth >= DEEPEST {
        return Err(Stop::TooDeep);
    }
    let print = read_printed(alloc, tokens, place, depth + 1)?;
    let next = read_mark(tokens, print.next, Mark::Semicolon)?;
    Ok(StatementRead {
        statement: Statement::Print(
            print.place,
            print.format_place,
            print.format,
            print.arguments,
        ),
        next,
    })
}

// A statement that may stand in the head of a `for`.
fn read_boxed(alloc: Global, tokens: &[Token], place: usize, depth: u32) -> Result<BoxedRead, Stop>
    requires ended { Ended tokens.now }
    requires within { place < length tokens.now }
    requires depth { depth ≤ 200 }
    ensures ok { IfOk result (λ r. IsPhrase phrases.Simple tokens.now place (place + 1) r.next depth (MeansAction r.simple.value)) }
    ensures stop { IfErr result (λ stop. Stops (A phrases.Simple ∷ []) (drop place tokens.now) tokens.now depth 0 stop) }
{
    let simple = read_simple(alloc, tokens, place, depth)?;
    let next = simple.next;
    Ok(BoxedRead {
        simple: boxed(alloc, simple.simple)?,
        next,
    })
}

// A simple statement.
fn read_simple_statement(
    alloc: Global,
    tokens: &[Token],
    place: usize,
    depth: u32,
) -> Result<StatementRead, Stop>
    requires ended { Ended tokens.now }
    requires within { place < length tokens.now }
    requires depth { depth ≤ 200 }
    requires begins { begins_simple (next_kind (drop place tokens.now)) ≡ true }
    requires here { parts_of phrases.Statement (next_kind (drop place tokens.now)) ≡ Some (A phrases.Simple ∷ mark marks.Semicolon ∷ []) }
    ensures ok { IfOk result (λ r. IsPhrase phrases.Statement tokens.now place (place + 1) r.next depth (MeansCode r.statement)) }
    ensures stop { IfErr result (λ stop. Stops (A phrases.Statement ∷ []) (drop place tokens.now) tokens.now depth 0 stop) }
{
    if depth >= DEEPEST {
        return Err(Stop::TooDeep);
    }
    let simple = read_boxed(alloc, tokens, place, depth + 1)?;
    let next = read_mark(tokens, simple.next, Mark::Semicolon)?;
    Ok(StatementRead {
        statement: Statement::Simple(Box::into_inner(simple.simple)),
        next,
    })
}

// `;`
fn read_empty(tokens: &[Token], place: usize, depth: u32) -> Result<StatementRead, Stop>
    requires ended { Ended tokens.now }
    requires within { place < length tokens.now }
    requires depth { depth ≤ 200 }
    requires here { next_kind (drop place tokens.now) ≡ kinds.Mark marks.Semicolon }
    ensures ok { IfOk result (λ r. IsPhrase phrases.Statement tokens.now place (place + 1) r.next depth (MeansCode r.statement)) }
    ensures stop { IfErr result (λ stop. Stops (A phrases.Statement ∷ []) (drop place tokens.now) tokens.now depth 0 stop) }
{
    if depth >= DEEPEST {
        return Err(Stop::TooDeep);
    }
    Ok(StatementRead {
        statement: Statement::Empty,
        next: place + 1,
    })
}

// `break`
fn read_break(tokens: &[Token], place: usize, depth: u32) -> Result<StatementRead, Stop>
    requires ended { Ended tokens.now }
    requires within { place < length tokens.now }
    requires depth { depth ≤ 200 }
    requires here { next_kind (drop place tokens.now) ≡ kinds.Keyword words.Break }
    ensures ok { IfOk result (λ r. IsPhrase phrases.Statement tokens.now place (place + 1) r.next depth (MeansCode r.statement)) }
    ensures stop { IfErr result (λ stop. Stops (A phrases.Statement ∷ []) (drop place tokens.now) tokens.now depth 0 stop) }
{
    if depth >= DEEPEST {
        return Err(Stop::TooDeep);
    }
    let next = read_mark(tokens, place + 1, Mark::Semicolon)?;
    Ok(StatementRead {
        statement: Statement::Break(place_at(tokens, place)),
        next,
    })
}

// `continue`
fn read_continue(tokens: &[Token], place: usize, depth: u32) -> Result<StatementRead, Stop>
    requires ended { Ended tokens.now }
    requires within { place < length tokens.now }
    requires depth { depth ≤ 200 }
    requires here { next_kind (drop place tokens.now) ≡ kinds.Keyword words.Continue }
    ensures ok { IfOk result (λ r. IsPhrase phrases.Statement tokens.now place (place + 1) r.next depth (MeansCode r.statement)) }
    ensures stop { IfErr result (λ stop. Stops (A phrases.Statement ∷ []) (drop place tokens.now) tokens.now depth 0 stop) }
{
    if depth >= DEEPEST {
        return Err(Stop::TooDeep);
    }
    let next = read_mark(tokens, place + 1, Mark::Semicolon)?;
    Ok(StatementRead {
        statement: Statement::Continue(place_at(tokens, place)),
        next,
    })
}

fn returned(place: Place, value: Option<Expression>) -> Statement
    ensures { view.code_of result ≡ returned place (option_map phrase_of value) }
{
    match value {
        Some(expression) => Statement::ReturnValue(place, expression),
        None => Statement::Return(place),
    }
}

// `return`
fn read_return(
    alloc: Global,
    tokens: &[Token],
    place: usize,
    depth: u32,
) -> Result<StatementRead, Stop>
    requires ended { Ended tokens.now }
    requires within { place < length tokens.now }
    requires depth { depth ≤ 200 }
    requires here { next_kind (drop place tokens.now) ≡ kinds.Keyword words.Return }
    ensures ok { IfOk result (λ r. IsPhrase phrases.Statement tokens.now place (place + 1) r.next depth (MeansCode r.statement)) }
    ensures stop { IfErr result (λ stop. Stops (A phrases.Statement ∷ []) (drop place tokens.now) tokens.now depth 0 stop) }
{
    if depth >= DEEPEST {
        return Err(Stop::TooDeep);
    }
    let value = read_optional(alloc, tokens, place + 1, depth + 1)?;
    let next = read_mark(tokens, value.next, Mark::Semicolon)?;
    Ok(StatementRead {
        statement: returned(place_at(tokens, place), Box::into_inner(value.expression)),
        next,
    })
}

/// The statement at a place, in so many constructs without itself.
#[cycle(statements)]
pub fn read_statement(
    alloc: Global,
    tokens: &[Token],
    place: usize,
    depth: u32,
) -> Result<StatementRead, Stop>
    requires ended { Ended tokens.now }
    requires within { place < length tokens.now }
    requires depth { depth ≤ 200 }
    ensures ok { IfOk result (λ r. IsPhrase phrases.Statement tokens.now place (place + 1) r.next depth (MeansCode r.statement)) }
    ensures stop { IfErr result (λ stop. Stops (A phrases.Statement ∷ []) (drop place tokens.now) tokens.now depth 0 stop) }
{
    match opening_of(kind_at(tokens, place)) {
        Opening::Block => read_inner_block(alloc, tokens, place, depth),
        Opening::Empty => read_empty(tokens, place, depth),
        Opening::If => read_if(alloc, tokens, place, depth),
        Opening::While => read_while(alloc, tokens, place, depth),
        Opening::Do => read_do(alloc, tokens, place, depth),
        Opening::For => read_for(alloc, tokens, place, depth),
        Opening::Break => read_break(tokens, place, depth),
        Opening::Continue => read_continue(tokens, place, depth),
        Opening::Return => read_return(alloc, tokens, place, depth),
        Opening::Print => read_print(alloc, tokens, place, depth),
        Opening::Simple => read_simple_statement(alloc, tokens, place, depth),
        Opening::Nothing => Err(Stop::Unexpected(place)),
    }
}

// A statement inside another.
#[cycle(statements)]
fn read_body(alloc: Global, tokens: &[Token], place: usize, depth: u32) -> Result<BodyRead, Stop>
    requires ended { Ended tokens.now }
    requires within { place < length tokens.now }
    requires depth { depth ≤ 200 }
    ensures ok { IfOk result (λ r. IsPhrase phrases.Statement tokens.now place (place + 1) r.next depth (MeansCode r.body.value)) }
    ensures stop { IfErr result (λ stop. Stops (A phrases.Statement ∷ []) (drop place tokens.now) tokens.now depth 0 stop) }
{
    let statement = read_statement(alloc, tokens, place, depth)?;
    let next = statement.next;
    Ok(BodyRead {
        body: boxed(alloc, statement.statement)?,
        next,
    })
}

// A block that is a statement.
#[cycle(statements)]
fn read_inner_block(
    alloc: Global,
    tokens: &[Token],
    place: usize,
    depth: u32,
) -> Result<StatementRead, Stop>
    requires ended { Ended tokens.now }
    requires within { place < length tokens.now }
    requires depth { depth ≤ 200 }
    requires here { next_kind (drop place tokens.now) ≡ kinds.Mark marks.OpenBrace }
    ensures ok { IfOk result (λ r. IsPhrase phrases.Statement tokens.now place (place + 1) r.next depth (MeansCode r.statement)) }
    ensures stop { IfErr result (λ stop. Stops (A phrases.Statement ∷ []) (drop place tokens.now) tokens.now depth 0 stop) }
{
    let block = read_block(alloc, tokens, place, depth)?;
    Ok(StatementRead {
        statement: Statement::Block(block.statements),
        next: block.next,
    })
}

// What `else` begins, or nothing.
#[cycle(statements)]
fn read_else(alloc: Global, tokens: &[Token], place: usize, depth: u32) -> Result<ElseRead, Stop>
    requires ended { Ended tokens.now }
    requires within { place < length tokens.now }
    requires depth { depth ≤ 200 }
    ensures ok { IfOk result (λ r. IsPhrase ElsePart tokens.now place place r.next depth (MeansElse r.other)) }
    ensures stop { IfErr result (λ stop. Stops (A ElsePart ∷ []) (drop place tokens.now) tokens.now depth 0 stop) }
{
    if !is_word(kind_at(tokens, place), Keyword::Else) {
        return Ok(ElseRead {
            other: None,
            next: place,
        });
    }
    let other = read_body(alloc, tokens, place + 1, depth)?;
    let next = other.next;
    Ok(ElseRead {
        other: Some(other),
        next,
    })
}

// An `if` of its parts.
fn if_of(test: Expression, chosen: Box<Statement>, other: Option<BodyRead>) -> Statement
    ensures { view.code_of result ≡ if_with (phrase_of test) (view.code_of chosen.value) other }
{
    match other {
        Some(other) => Statement::IfElse(test, chosen, other.body),
        None => Statement::If(test, chosen),
    }
}

#[cycle(statements)]
fn read_if(alloc: Global, tokens: &[Token], place: usize, depth: u32) -> Result<StatementRead, Stop>
    requires ended { Ended tokens.now }
    requires within { place < length tokens.now }
    requires depth { depth ≤ 200 }
    requires here { next_kind (drop place tokens.now) ≡ kinds.Keyword words.If }
    ensures ok { IfOk result (λ r. IsPhrase phrases.Statement tokens.now place (place + 1) r.next depth (MeansCode r.statement)) }
    ensures stop { IfErr result (λ stop. Stops (A phrases.Statement ∷ []) (drop place tokens.now) tokens.now depth 0 stop) }
{
    if depth >= DEEPEST {
        return Err(Stop::TooDeep);
    }
    let test = read_test(alloc, tokens, place + 1, depth + 1)?;
    let chosen = read_body(alloc, tokens, test.next, depth + 1)?;
    let other = read_else(alloc, tokens, chosen.next, depth + 1)?;
    Ok(StatementRead {
        statement: if_of(Box::into_inner(test.test), chosen.body, other.other),
        next: other.next,
    })
}

#[cycle(statements)]
fn read_while(
    alloc: Global,
    tokens: &[Token],
    place: usize,
    depth: u32,
) -> Result<StatementRead, Stop>
    requires ended { Ended tokens.now }
    requires within { place < length tokens.now }
    requires depth { depth ≤ 200 }
    requires here { next_kind (drop place tokens.now) ≡ kinds.Keyword words.While }
    ensures ok { IfOk result (λ r. IsPhrase phrases.Statement tokens.now place (place + 1) r.next depth (MeansCode r.statement)) }
    ensures stop { IfErr result (λ stop. Stops (A phrases.Statement ∷ []) (drop place tokens.now) tokens.now depth 0 stop) }
{
    if depth >= DEEPEST {
        return Err(Stop::TooDeep);
    }
    let test = read_test(alloc, tokens, place + 1, depth + 1)?;
    let body = read_body(alloc, tokens, test.next, depth + 1)?;
    Ok(StatementRead {
        statement: Statement::While(Box::into_inner(test.test), body.body),
        next: body.next,
    })
}

#[cycle(statements)]
fn read_do(alloc: Global, tokens: &[Token], place: usize, depth: u32) -> Result<StatementRead, Stop>
    requires ended { Ended tokens.now }
    requires within { place < length tokens.now }
    requires depth { depth ≤ 200 }
    requires here { next_kind (drop place tokens.now) ≡ kinds.Keyword words.Do }
    ensures ok { IfOk result (λ r. IsPhrase phrases.Statement tokens.now place (place + 1) r.next depth (MeansCode r.statement)) }
    ensures stop { IfErr result (λ stop. Stops (A phrases.Statement ∷ []) (drop place tokens.now) tokens.now depth 0 stop) }
{
    if depth >= DEEPEST {
        return Err(Stop::TooDeep);
    }
    let body = read_body(alloc, tokens, place + 1, depth + 1)?;
    let test_place = read_word(tokens, body.next, Keyword::While)?;
    let test = read_test(alloc, tokens, test_place, depth + 1)?;
    let next = read_mark(tokens, test.next, Mark::Semicolon)?;
    Ok(StatementRead {
        statement: Statement::DoWhile(body.body, Box::into_inner(test.test)),
        next,
    })
}

#[cycle(statements)]
fn read_for(
    alloc: Global,
    tokens: &[Token],
    place: usize,
    depth: u32,
) -> Result<StatementRead, Stop>
    requires ended { Ended tokens.now }
    requires within { place < length tokens.now }
    requires depth { depth ≤ 200 }
    requires here { next_kind (drop place tokens.now) ≡ kinds.Keyword words.For }
    ensures ok { IfOk result (λ r. IsPhrase phrases.Statement tokens.now place (place + 1) r.next depth (MeansCode r.statement)) }
    ensures stop { IfErr result (λ stop. Stops (A phrases.Statement ∷ []) (drop place tokens.now) tokens.now depth 0 stop) }
{
    if depth >= DEEPEST {
        return Err(Stop::TooDeep);
    }
    let head = read_head(alloc, tokens, place + 1, depth + 1)?;
    let body = read_body(alloc, tokens, head.next, depth + 1)?;
    Ok(StatementRead {
        statement: Statement::For(
            Box::into_inner(head.first),
            Box::into_inner(head.test),
            Box::into_inner(head.step),
            body.body,
        ),
        next: body.next,
    })
}

// A declaration among the statements of a block.
fn read_declaration(
    alloc: Global,
    tokens: &[Token],
    place: usize,
    depth: u32,
) -> Result<StatementRead, Stop>
    requires ended { Ended tokens.now }
    requires within { place < length tokens.now }
    requires depth { depth ≤ 200 }
    requires here { next_kind (drop place tokens.now) ≡ kinds.Keyword words.Int }
    ensures ok { IfOk result (λ r. Continues Items tokens.now place depth MeansAll r.next (r.statement ∷ [])) }
    ensures stop { IfErr result (λ stop. Stops (A Items ∷ []) (drop place tokens.now) tokens.now depth 0 stop) }
    ensures further { IfOk result (λ r. place < r.next) }
{
    let items = read_items(alloc, tokens, place + 1, depth)?;
    let next = read_mark(tokens, items.next, Mark::Semicolon)?;
    Ok(StatementRead {
        statement: Statement::Declaration(items.items),
        next,
    })
}

// A declaration or a statement.
#[cycle(statements)]
fn read_entry(
    alloc: Global,
    tokens: &[Token],
    place: usize,
    depth: u32,
) -> Result<StatementRead, Stop>
    requires ended { Ended tokens.now }
    requires within { place < length tokens.now }
    requires depth { depth ≤ 200 }
    requires more { next_kind (drop place tokens.now) ≡ kinds.Mark marks.CloseBrace → ⊥ }
    ensures ok { IfOk result (λ r. Continues Items tokens.now place depth MeansAll r.next (r.statement ∷ [])) }
    ensures stop { IfErr result (λ stop. Stops (A Items ∷ []) (drop place tokens.now) tokens.now depth 0 stop) }
    ensures further { IfOk result (λ r. place < r.next) }
{
    if is_word(kind_at(tokens, place), Keyword::Int) {
        return read_declaration(alloc, tokens, place, depth);
    }
    read_statement(alloc, tokens, place, depth)
}

// Declarations and statements, up to `}`.
#[cycle(statements)]
fn read_entries(
    alloc: Global,
    tokens: &[Token],
    place: usize,
    depth: u32,
) -> Result<StatementsRead, Stop>
    requires ended { Ended tokens.now }
    requires within { place < length tokens.now }
    requires depth { depth ≤ 200 }
    ensures ok { IfOk result (λ r. IsPhrase Items tokens.now place place r.next depth (MeansAll r.statements.items)) }
    ensures stop { IfErr result (λ stop. Stops (A Items ∷ []) (drop place tokens.now) tokens.now depth 0 stop) }
{
    let mut all = StatementsRead {
        statements: Vec::new(alloc),
        next: place,
    };
    'entries: loop {
        if is_mark(kind_at(tokens, all.next), Mark::CloseBrace) {
            return Ok(all);
        }
        let entry = read_entry(alloc, tokens, all.next, depth)?;
        append(&mut all.statements, entry.statement)?;
        all.next = entry.next;
    }
}

/// The block at a place, in so many constructs without itself.
#[cycle(statements)]
pub fn read_block(
    alloc: Global,
    tokens: &[Token],
    place: usize,
    depth: u32,
) -> Result<StatementsRead, Stop>
    requires ended { Ended tokens.now }
    requires within { place < length tokens.now }
    requires depth { depth ≤ 200 }
    ensures ok { IfOk result (λ r. IsPhrase Block tokens.now place (place + 1) r.next depth (MeansBlock r.statements.items)) }
    ensures stop { IfErr result (λ stop. Stops (A Block ∷ []) (drop place tokens.now) tokens.now depth 0 stop) }
{
    let inner = read_mark(tokens, place, Mark::OpenBrace)?;
    if depth >= DEEPEST {
        return Err(Stop::TooDeep);
    }
    let entries = read_entries(alloc, tokens, inner, depth + 1)?;
    Ok(StatementsRead {
        statements: entries.statements,
        next: read_mark(tokens, entries.next, Mark::CloseBrace)?,
    })
}
