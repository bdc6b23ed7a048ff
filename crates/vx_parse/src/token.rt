// Single tokens.

ghost use Rattle.std.specs.Prelude.{◌≡◌, ◌<◌, ◌⊎◌, true, false, length, drop, IfOk, IfErr};
ghost use Rattle.vx_ast.specs.declared.token.TokenKind.TheVariants as kinds;
ghost use Rattle.vx_ast.specs.Phrases.{The, AName, ANumber, AString};
ghost use Rattle.vx_ast.specs.Derivations.{words_of};
ghost use Rattle.vx_parse.specs.declared.stop.Stop.TheVariants.{NoMemory};
ghost use Rattle.vx_parse.specs.Reading.{Ended, next_kind, next_place, Passed, PassedName, PassedNumber, PassedSize, PassedText, Misfit};

use crate::stop::Stop;
use std::alloc::Global;
use vx_ast::syntax::{Name, Place, Size};
use vx_ast::token::{Keyword, Mark, Token, TokenKind};
use vx_base::listed::{Bytes, Listed};

/// A name and the place behind it.
#[derive(Drop)]
pub struct NameRead {
    /// The name.
    pub name: Name,
    /// How many tokens stand before what comes next.
    pub next: usize,
}

/// What the token at a place is.
pub fn kind_at(tokens: &[Token], place: usize) -> &TokenKind
    requires { place < length tokens.now }
    ensures { result.now ≡ next_kind (drop place tokens.now) }
{
    &tokens[place].kind
}

/// Whether a token is this mark.
pub fn is_mark(kind: &TokenKind, mark: Mark) -> bool
    ensures yes { result ≡ true → kind.now ≡ kinds.Mark mark }
    ensures no { result ≡ false → kind.now ≡ kinds.Mark mark → ⊥ }
{
    match kind {
        TokenKind::Mark(found) => *found == mark,
        _ => false,
    }
}

/// Whether a token is this keyword.
pub fn is_word(kind: &TokenKind, word: Keyword) -> bool
    ensures yes { result ≡ true → kind.now ≡ kinds.Keyword word }
    ensures no { result ≡ false → kind.now ≡ kinds.Keyword word → ⊥ }
{
    match kind {
        TokenKind::Keyword(found) => *found == word,
        _ => false,
    }
}

/// The place behind this mark.
#[tactic(auto, using(crate::proofs::Tokens::passes_mark))]
pub fn read_mark(tokens: &[Token], place: usize, mark: Mark) -> Result<usize, Stop>
    requires ended { Ended tokens.now }
    requires within { place < length tokens.now }
    ensures ok { IfOk result (λ next. Passed (The (kinds.Mark mark)) tokens.now place next) }
    ensures stop { IfErr result (λ stop. Misfit (The (kinds.Mark mark)) tokens.now place stop) }
{
    if is_mark(kind_at(tokens, place), mark) {
        Ok(place + 1)
    } else {
        Err(Stop::Unexpected(place))
    }
}

fn copy_of(alloc: Global, bytes: &Bytes) -> Result<Bytes, Stop>
    ensures ok { IfOk result (λ copy. copy ≡ bytes.now) }
    ensures stop { IfErr result (λ stop. stop ≡ NoMemory) }
{
    Ok(Listed::from_vec(bytes.as_slice().to_vec(alloc)?)?)
}

/// Where the token at a place stands in the source.
pub fn place_at(tokens: &[Token], place: usize) -> Place
    requires { place < length tokens.now }
    ensures { result ≡ next_place (drop place tokens.now) }
{
    Place {
        line: tokens[place].line,
        column: tokens[place].column,
    }
}

/// The name at a place.
pub fn read_name(alloc: Global, tokens: &[Token], place: usize) -> Result<NameRead, Stop>
    requires ended { Ended tokens.now }
    requires within { place < length tokens.now }
    ensures ok { IfOk result (λ r. PassedName tokens.now place r) }
    ensures stop { IfErr result (λ stop. (stop ≡ NoMemory) ⊎ Misfit AName tokens.now place stop) }
{
    match kind_at(tokens, place) {
        TokenKind::Name(bytes) => Ok(NameRead {
            name: Name {
                bytes: copy_of(alloc, bytes)?,
                place: place_at(tokens, place),
            },
            next: place + 1,
        }),
        _ => Err(Stop::Unexpected(place)),
    }
}

/// A number and the place behind it.
#[derive(Drop)]
pub struct NumberRead {
    /// The number.
    pub value: i32,
    /// How many tokens stand before what comes next.
    pub next: usize,
}

/// The size of an array and the place behind it.
#[derive(Drop)]
pub struct SizeRead {
    /// The size.
    pub size: Size,
    /// How many tokens stand before what comes next.
    pub next: usize,
}

/// A text and the place behind it.
#[derive(Drop)]
pub struct TextRead {
    /// The bytes of the text.
    pub bytes: Bytes,
    /// How many tokens stand before what comes next.
    pub next: usize,
}

/// The place behind this keyword.
#[tactic(auto, using(crate::proofs::Tokens::passes_word))]
pub fn read_word(tokens: &[Token], place: usize, word: Keyword) -> Result<usize, Stop>
    requires ended { Ended tokens.now }
    requires within { place < length tokens.now }
    ensures ok { IfOk result (λ next. Passed (The (kinds.Keyword word)) tokens.now place next) }
    ensures stop { IfErr result (λ stop. Misfit (The (kinds.Keyword word)) tokens.now place stop) }
{
    if is_word(kind_at(tokens, place), word) {
        Ok(place + 1)
    } else {
        Err(Stop::Unexpected(place))
    }
}

/// The number at a place.
pub fn read_number(tokens: &[Token], place: usize) -> Result<NumberRead, Stop>
    requires ended { Ended tokens.now }
    requires within { place < length tokens.now }
    ensures ok { IfOk result (λ r. PassedNumber tokens.now place r) }
    ensures stop { IfErr result (λ stop. Misfit ANumber tokens.now place stop) }
{
    match kind_at(tokens, place) {
        TokenKind::Number(value) => Ok(NumberRead {
            value: *value,
            next: place + 1,
        }),
        _ => Err(Stop::Unexpected(place)),
    }
}

/// The size at a place.
pub fn read_size(tokens: &[Token], place: usize) -> Result<SizeRead, Stop>
    requires ended { Ended tokens.now }
    requires within { place < length tokens.now }
    ensures ok { IfOk result (λ r. PassedSize tokens.now place r) }
    ensures stop { IfErr result (λ stop. Misfit ANumber tokens.now place stop) }
{
    let number = read_number(tokens, place)?;
    Ok(SizeRead {
        size: Size {
            words: words_of(number.value),
            place: place_at(tokens, place),
        },
        next: number.next,
    })
}

// A number of words; 0 where it is below 0.
fn words_of(number: i32) -> u32
    ensures { result ≡ words_of number }
{
    if number < 0 { 0 } else { number as u32 }
}

/// The text at a place.
pub fn read_text(alloc: Global, tokens: &[Token], place: usize) -> Result<TextRead, Stop>
    requires ended { Ended tokens.now }
    requires within { place < length tokens.now }
    ensures ok { IfOk result (λ r. PassedText tokens.now place r) }
    ensures stop { IfErr result (λ stop. (stop ≡ NoMemory) ⊎ Misfit AString tokens.now place stop) }
{
    match kind_at(tokens, place) {
        TokenKind::Text(bytes) => Ok(TextRead {
            bytes: copy_of(alloc, bytes)?,
            next: place + 1,
        }),
        _ => Err(Stop::Unexpected(place)),
    }
}
