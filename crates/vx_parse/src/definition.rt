// What stands outside of functions.

ghost use Rattle.std.specs.Prelude.{◌≡◌, ◌<◌, ◌≤◌, ◌+◌, ◌++◌, length, drop, IfOk, IfErr, ◌∷◌, []};
ghost use Rattle.vx_ast.specs.declared.token.Keyword.TheVariants as words;
ghost use Rattle.vx_ast.specs.declared.token.Mark.TheVariants as marks;
ghost use Rattle.vx_ast.specs.declared.token.TokenKind.TheVariants as kinds;
ghost use Rattle.vx_ast.specs.Phrases as phrases;
ghost use Rattle.vx_ast.specs.Phrases.{AfterName, GlobalValue, SignedNumber, MoreGlobals, Parameters, ParameterBrackets, MoreParameters, A};
ghost use Rattle.vx_parse.specs.Reading.{Ended, next_kind, Stops, IsPhrase, Continues};
ghost use Rattle.vx_parse.specs.Definitions.{MeansSigned, MeansGlobal, MeansGlobals, MeansBrackets, MeansParameter, MeansParameters, MeansDefinitions, GlobalsBehind, ParametersBehind, Heading, IsFunction, IsAfterName, Defines};

use crate::memory::append;
use crate::statement::read_block;
use crate::stop::Stop;
use crate::token::{
    NumberRead, is_mark, is_word, kind_at, read_mark, read_name, read_number, read_size, read_word,
};
use std::alloc::Global;
use vx_ast::syntax::{Definition, Function, Name, Parameter};
use vx_ast::token::{Keyword, Mark, Token};
use vx_ast::tree::{Gives, Takes};
use vx_base::listed::Listed;

/// Definitions, and the place behind them.
#[derive(Drop)]
pub struct Definitions {
    /// The definitions.
    pub definitions: Vec<Definition>,
    /// How many tokens stand before what comes next.
    pub next: usize,
}

/// A definition, and the place behind it.
#[derive(Drop)]
pub struct DefinitionRead {
    /// The definition.
    pub definition: Definition,
    /// How many tokens stand before what comes next.
    pub next: usize,
}

/// What a parameter takes, and the place behind it.
#[derive(Clone, Copy)]
pub struct TakesRead {
    /// What it takes.
    pub takes: Takes,
    /// How many tokens stand before what comes next.
    pub next: usize,
}

/// A parameter, and the place behind it.
#[derive(Drop)]
pub struct ParameterRead {
    /// The parameter.
    pub parameter: Parameter,
    /// How many tokens stand before what comes next.
    pub next: usize,
}

/// The parameters of a function, and the place behind them.
#[derive(Drop)]
pub struct ParametersRead {
    /// The parameters.
    pub parameters: Listed<Parameter>,
    /// How many tokens stand before what comes next.
    pub next: usize,
}

/// A function, and the place behind it.
#[derive(Drop)]
pub struct FunctionRead {
    /// The function.
    pub function: Function,
    /// How many tokens stand before what comes next.
    pub next: usize,
}

// A number behind `-`. The numbers of tokens are not below 0, so the difference is there.
fn read_negative(tokens: &[Token], place: usize) -> Result<NumberRead, Stop>
    requires ended { Ended tokens.now }
    requires within { place < length tokens.now }
    requires here { next_kind (drop place tokens.now) ≡ kinds.Mark marks.Minus }
    ensures ok { IfOk result (λ r. IsPhrase SignedNumber tokens.now place place r.next 0 (MeansSigned r.value)) }
    ensures stop { IfErr result (λ stop. Stops (A SignedNumber ∷ []) (drop place tokens.now) tokens.now 0 0 stop) }
{
    let number = read_number(tokens, place + 1)?;
    match 0i32.checked_sub(number.value) {
        Some(value) => Ok(NumberRead {
            value,
            next: number.next,
        }),
        None => Err(Stop::NoMemory),
    }
}

// A number, with `-` before it or without.
fn read_signed(tokens: &[Token], place: usize) -> Result<NumberRead, Stop>
    requires ended { Ended tokens.now }
    requires within { place < length tokens.now }
    ensures ok { IfOk result (λ r. IsPhrase SignedNumber tokens.now place place r.next 0 (MeansSigned r.value)) }
    ensures stop { IfErr result (λ stop. Stops (A SignedNumber ∷ []) (drop place tokens.now) tokens.now 0 0 stop) }
{
    if is_mark(kind_at(tokens, place), Mark::Minus) {
        return read_negative(tokens, place);
    }
    let number = read_number(tokens, place)?;
    Ok(number)
}

// What stands behind the name of a global: a value, a size or nothing.
fn read_global(tokens: &[Token], place: usize, name: Name) -> Result<DefinitionRead, Stop>
    requires ended { Ended tokens.now }
    requires within { place < length tokens.now }
    ensures ok { IfOk result (λ r. IsPhrase GlobalValue tokens.now place place r.next 0 (MeansGlobal name r.definition)) }
    ensures stop { IfErr result (λ stop. Stops (A GlobalValue ∷ []) (drop place tokens.now) tokens.now 0 0 stop) }
{
    let kind = kind_at(tokens, place);
    if is_mark(kind, Mark::Equal) {
        let number = read_signed(tokens, place + 1)?;
        return Ok(DefinitionRead {
            definition: Definition::Scalar(name, number.value),
            next: number.next,
        });
    }
    if is_mark(kind, Mark::OpenBracket) {
        let size = read_size(tokens, place + 1)?;
        let next = read_mark(tokens, size.next, Mark::CloseBracket)?;
        return Ok(DefinitionRead {
            definition: Definition::Array(name, size.size),
            next,
        });
    }
    Ok(DefinitionRead {
        definition: Definition::Scalar(name, 0),
        next: place,
    })
}

// A global behind a comma.
fn read_next_global(alloc: Global, tokens: &[Token], place: usize) -> Result<DefinitionRead, Stop>
    requires ended { Ended tokens.now }
    requires within { place < length tokens.now }
    requires comma { next_kind (drop place tokens.now) ≡ kinds.Mark marks.Comma }
    ensures ok { IfOk result (λ r. Continues MoreGlobals tokens.now place 0 MeansGlobals r.next (r.definition ∷ [])) }
    ensures stop { IfErr result (λ stop. Stops (A MoreGlobals ∷ []) (drop place tokens.now) tokens.now 0 0 stop) }
    ensures further { IfOk result (λ r. place < r.next) }
{
    let name = read_name(alloc, tokens, place + 1)?;
    read_global(tokens, name.next, name.name)
}

// Globals, each behind a comma, put behind other definitions.
fn read_more_globals(
    alloc: Global,
    tokens: &[Token],
    before: Definitions,
) -> Result<Definitions, Stop>
    requires ended { Ended tokens.now }
    requires within { before.next < length tokens.now }
    ensures ok { IfOk result (λ r. GlobalsBehind before tokens.now r) }
    ensures stop { IfErr result (λ stop. Stops (A MoreGlobals ∷ []) (drop before.next tokens.now) tokens.now 0 0 stop) }
{
    let mut all = before;
    'globals: loop {
        if !is_mark(kind_at(tokens, all.next), Mark::Comma) {
            return Ok(all);
        }
        let global = read_next_global(alloc, tokens, all.next)?;
        append(&mut all.definitions, global.definition)?;
        all.next = global.next;
    }
}

// The globals of a declaration, from behind the name of the first one, with the `;`.
fn read_globals(
    alloc: Global,
    tokens: &[Token],
    name: Name,
    before: Definitions,
) -> Result<Definitions, Stop>
    requires ended { Ended tokens.now }
    requires within { before.next < length tokens.now }
    requires here { next_kind (drop before.next tokens.now) ≡ kinds.Mark marks.OpenParenthesis → ⊥ }
    ensures ok { IfOk result (λ r. IsAfterName name before tokens.now r) }
    ensures stop { IfErr result (λ stop. Stops (A AfterName ∷ []) (drop before.next tokens.now) tokens.now 0 0 stop) }
{
    let first = read_global(tokens, before.next, name)?;
    let mut definitions = before.definitions;
    append(&mut definitions, first.definition)?;
    let all = Definitions {
        definitions,
        next: first.next,
    };
    let more = read_more_globals(alloc, tokens, all)?;
    let next = read_mark(tokens, more.next, Mark::Semicolon)?;
    Ok(Definitions {
        definitions: more.definitions,
        next,
    })
}

// What stands behind the name of a parameter: `[]`, where it takes an array, or nothing.
fn read_brackets(tokens: &[Token], place: usize) -> Result<TakesRead, Stop>
    requires ended { Ended tokens.now }
    requires within { place < length tokens.now }
    ensures ok { IfOk result (λ r. IsPhrase ParameterBrackets tokens.now place place r.next 0 (MeansBrackets r.takes)) }
    ensures stop { IfErr result (λ stop. Stops (A ParameterBrackets ∷ []) (drop place tokens.now) tokens.now 0 0 stop) }
{
    if !is_mark(kind_at(tokens, place), Mark::OpenBracket) {
        return Ok(TakesRead {
            takes: Takes::Number,
            next: place,
        });
    }
    let next = read_mark(tokens, place + 1, Mark::CloseBracket)?;
    Ok(TakesRead {
        takes: Takes::Array,
        next,
    })
}

fn read_parameter(alloc: Global, tokens: &[Token], place: usize) -> Result<ParameterRead, Stop>
    requires ended { Ended tokens.now }
    requires within { place < length tokens.now }
    ensures ok { IfOk result (λ r. IsPhrase phrases.Parameter tokens.now place (place + 1) r.next 0 (MeansParameter r.parameter)) }
    ensures stop { IfErr result (λ stop. Stops (A phrases.Parameter ∷ []) (drop place tokens.now) tokens.now 0 0 stop) }
{
    let name_place = read_word(tokens, place, Keyword::Int)?;
    let name = read_name(alloc, tokens, name_place)?;
    let behind = read_brackets(tokens, name.next)?;
    Ok(ParameterRead {
        parameter: Parameter {
            name: name.name,
            takes: behind.takes,
        },
        next: behind.next,
    })
}

// A parameter behind a comma.
fn read_next_parameter(alloc: Global, tokens: &[Token], place: usize) -> Result<ParameterRead, Stop>
    requires ended { Ended tokens.now }
    requires within { place < length tokens.now }
    requires comma { next_kind (drop place tokens.now) ≡ kinds.Mark marks.Comma }
    ensures ok { IfOk result (λ r. Continues MoreParameters tokens.now place 0 MeansParameters r.next (r.parameter ∷ [])) }
    ensures stop { IfErr result (λ stop. Stops (A MoreParameters ∷ []) (drop place tokens.now) tokens.now 0 0 stop) }
    ensures further { IfOk result (λ r. place < r.next) }
{
    read_parameter(alloc, tokens, place + 1)
}

// Parameters, each behind a comma, put behind others.
fn read_more_parameters(
    alloc: Global,
    tokens: &[Token],
    before: ParametersRead,
) -> Result<ParametersRead, Stop>
    requires ended { Ended tokens.now }
    requires within { before.next < length tokens.now }
    ensures ok { IfOk result (λ r. ParametersBehind before tokens.now r) }
    ensures stop { IfErr result (λ stop. Stops (A MoreParameters ∷ []) (drop before.next tokens.now) tokens.now 0 0 stop) }
{
    let mut all = before;
    'parameters: loop {
        if !is_mark(kind_at(tokens, all.next), Mark::Comma) {
            return Ok(all);
        }
        let parameter = read_next_parameter(alloc, tokens, all.next)?;
        all.parameters.push(parameter.parameter)?;
        all.next = parameter.next;
    }
}

// The parameters of a function, up to its `)`.
fn read_parameters(alloc: Global, tokens: &[Token], place: usize) -> Result<ParametersRead, Stop>
    requires ended { Ended tokens.now }
    requires within { place < length tokens.now }
    ensures ok { IfOk result (λ r. IsPhrase Parameters tokens.now place place r.next 0 (MeansParameters r.parameters)) }
    ensures stop { IfErr result (λ stop. Stops (A Parameters ∷ []) (drop place tokens.now) tokens.now 0 0 stop) }
{
    let mut parameters = Listed::new(alloc);
    let kind = kind_at(tokens, place);
    if is_mark(kind, Mark::CloseParenthesis) {
        return Ok(ParametersRead {
            parameters,
            next: place,
        });
    }
    if is_word(kind, Keyword::Void) {
        return Ok(ParametersRead {
            parameters,
            next: place + 1,
        });
    }
    let first = read_parameter(alloc, tokens, place)?;
    parameters.push(first.parameter)?;
    let before = ParametersRead {
        parameters,
        next: first.next,
    };
    read_more_parameters(alloc, tokens, before)
}

// A function from its `(` on.
fn read_function(
    alloc: Global,
    tokens: &[Token],
    place: usize,
    name: Name,
    gives: Gives,
) -> Result<FunctionRead, Stop>
    requires ended { Ended tokens.now }
    requires within { place < length tokens.now }
    ensures ok { IfOk result (λ r. IsFunction tokens.now place name gives r) }
    ensures stop { IfErr result (λ stop. Stops Heading (drop place tokens.now) tokens.now 0 0 stop) }
{
    let inner = read_mark(tokens, place, Mark::OpenParenthesis)?;
    let parameters = read_parameters(alloc, tokens, inner)?;
    let body_place = read_mark(tokens, parameters.next, Mark::CloseParenthesis)?;
    let body = read_block(alloc, tokens, body_place, 0)?;
    Ok(FunctionRead {
        function: Function {
            gives,
            name,
            parameters: parameters.parameters,
            body: body.statements,
        },
        next: body.next,
    })
}

// An `int` function from its `(` on, put behind other definitions.
fn read_int_function(
    alloc: Global,
    tokens: &[Token],
    name: Name,
    before: Definitions,
) -> Result<Definitions, Stop>
    requires ended { Ended tokens.now }
    requires within { before.next < length tokens.now }
    requires here { next_kind (drop before.next tokens.now) ≡ kinds.Mark marks.OpenParenthesis }
    ensures ok { IfOk result (λ r. IsAfterName name before tokens.now r) }
    ensures stop { IfErr result (λ stop. Stops (A AfterName ∷ []) (drop before.next tokens.now) tokens.now 0 0 stop) }
{
    let function = read_function(alloc, tokens, before.next, name, Gives::Int)?;
    let mut definitions = before.definitions;
    let next = function.next;
    append(&mut definitions, Definition::Function(function.function))?;
    Ok(Definitions { definitions, next })
}

// What stands behind `int` and a name.
fn read_after_name(
    alloc: Global,
    tokens: &[Token],
    name: Name,
    before: Definitions,
) -> Result<Definitions, Stop>
    requires ended { Ended tokens.now }
    requires within { before.next < length tokens.now }
    ensures ok { IfOk result (λ r. IsAfterName name before tokens.now r) }
    ensures stop { IfErr result (λ stop. Stops (A AfterName ∷ []) (drop before.next tokens.now) tokens.now 0 0 stop) }
{
    if is_mark(kind_at(tokens, before.next), Mark::OpenParenthesis) {
        read_int_function(alloc, tokens, name, before)
    } else {
        read_globals(alloc, tokens, name, before)
    }
}

/// What `int` begins, put behind other definitions.
pub fn read_int(alloc: Global, tokens: &[Token], before: Definitions) -> Result<Definitions, Stop>
    requires ended { Ended tokens.now }
    requires within { before.next < length tokens.now }
    requires here { next_kind (drop before.next tokens.now) ≡ kinds.Keyword words.Int }
    ensures ok { IfOk result (λ r. Defines before tokens.now r) }
    ensures stop { IfErr result (λ stop. Stops (A phrases.Program ∷ []) (drop before.next tokens.now) tokens.now 0 0 stop) }
{
    let name = read_name(alloc, tokens, before.next + 1)?;
    let all = Definitions {
        definitions: before.definitions,
        next: name.next,
    };
    read_after_name(alloc, tokens, name.name, all)
}

/// What `void` begins, put behind other definitions.
pub fn read_void(alloc: Global, tokens: &[Token], before: Definitions) -> Result<Definitions, Stop>
    requires ended { Ended tokens.now }
    requires within { before.next < length tokens.now }
    requires here { next_kind (drop before.next tokens.now) ≡ kinds.Keyword words.Void }
    ensures ok { IfOk result (λ r. Defines before tokens.now r) }
    ensures stop { IfErr result (λ stop. Stops (A phrases.Program ∷ []) (drop before.next tokens.now) tokens.now 0 0 stop) }
{
    let name = read_name(alloc, tokens, before.next + 1)?;
    let function = read_function(alloc, tokens, name.next, name.name, Gives::Nothing)?;
    let mut definitions = before.definitions;
    let next = function.next;
    append(&mut definitions, Definition::Function(function.function))?;
    Ok(Definitions { definitions, next })
}
