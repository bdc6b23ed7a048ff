// What the first token of a statement tells of it.

ghost use Rattle.std.specs.Prelude.{◌≡◌, nat_eq, codes};
ghost use Rattle.std.specs.Cmp.Lexicographic.{pointwise};
ghost use Rattle.vx_parse.specs.Choices.{OpenedBy};

use vx_ast::token::{Keyword, Mark, TokenKind};
use vx_base::listed::Bytes;

/// What a statement is, by its first token.
pub enum Opening {
    /// A block.
    Block,
    /// `;` alone.
    Empty,
    /// `if`, with `else` or without.
    If,
    /// `while`.
    While,
    /// `do`.
    Do,
    /// `for`.
    For,
    /// `break`.
    Break,
    /// `continue`.
    Continue,
    /// `return`, with a value or without.
    Return,
    /// `printf`.
    Print,
    /// A simple statement.
    Simple,
    /// No statement begins with the token.
    Nothing,
}

fn is_printf(name: &Bytes) -> bool
    ensures { result ≡ pointwise nat_eq name.now (codes "printf") }
{
    name.as_slice() == b"printf".as_slice()
}

/// What a statement is that begins with a token.
#[tactic(auto, unfolding(vx_ast::specs::Phrases::parts_of))]
pub fn opening_of(kind: &TokenKind) -> Opening
    ensures { OpenedBy result kind.now }
{
    match kind {
        TokenKind::Mark(Mark::OpenBrace) => Opening::Block,
        TokenKind::Mark(Mark::Semicolon) => Opening::Empty,
        TokenKind::Keyword(Keyword::If) => Opening::If,
        TokenKind::Keyword(Keyword::While) => Opening::While,
        TokenKind::Keyword(Keyword::Do) => Opening::Do,
        TokenKind::Keyword(Keyword::For) => Opening::For,
        TokenKind::Keyword(Keyword::Break) => Opening::Break,
        TokenKind::Keyword(Keyword::Continue) => Opening::Continue,
        TokenKind::Keyword(Keyword::Return) => Opening::Return,
        TokenKind::Name(name) => {
            if is_printf(name) {
                Opening::Print
            } else {
                Opening::Simple
            }
        }
        TokenKind::Number(_) => Opening::Simple,
        TokenKind::Mark(
            Mark::PlusPlus
            | Mark::MinusMinus
            | Mark::Plus
            | Mark::Minus
            | Mark::Exclamation
            | Mark::Tilde
            | Mark::OpenParenthesis,
        ) => Opening::Simple,
        _ => Opening::Nothing,
    }
}
