// Keywords and names.

ghost use Rattle.std.specs.Prelude.{◌≡◌, IfOk};
ghost use Rattle.vx_ast.specs.Tokens.{keyword_in, keyword_of, word_kind, word_piece};
ghost use Rattle.vx_lex.specs.Table.{spelled};

use crate::byte::name_length;
use std::alloc::Global;
use vx_ast::token::{Keyword, Piece, TokenKind};
use vx_base::listed::{Bytes, Listed};
use vx_base::outcome::NoMemory;

const KEYWORDS: [(&str, Keyword); 32] = [
    ("auto", Keyword::Auto),
    ("break", Keyword::Break),
    ("case", Keyword::Case),
    ("char", Keyword::Char),
    ("const", Keyword::Const),
    ("continue", Keyword::Continue),
    ("default", Keyword::Default),
    ("do", Keyword::Do),
    ("double", Keyword::Double),
    ("else", Keyword::Else),
    ("enum", Keyword::Enum),
    ("extern", Keyword::Extern),
    ("float", Keyword::Float),
    ("for", Keyword::For),
    ("goto", Keyword::Goto),
    ("if", Keyword::If),
    ("int", Keyword::Int),
    ("long", Keyword::Long),
    ("register", Keyword::Register),
    ("return", Keyword::Return),
    ("short", Keyword::Short),
    ("signed", Keyword::Signed),
    ("sizeof", Keyword::Sizeof),
    ("static", Keyword::Static),
    ("struct", Keyword::Struct),
    ("switch", Keyword::Switch),
    ("typedef", Keyword::Typedef),
    ("union", Keyword::Union),
    ("unsigned", Keyword::Unsigned),
    ("void", Keyword::Void),
    ("volatile", Keyword::Volatile),
    ("while", Keyword::While),
];

// The keyword of the entry that is spelled so.
fn keyword_in(table: &[(&str, Keyword)], name: &[u8]) -> Option<Keyword>
    ensures { result ≡ keyword_in (spelled table.now) name.now }
{
    for entry in table {
        if name == entry.0.as_bytes() {
            return Some(entry.1);
        }
    }
    None
}

// The keyword that is spelled so.
#[tactic(auto, unfolding(vx_ast::specs::Tokens::keyword_of))]
fn keyword_of(name: &[u8]) -> Option<Keyword>
    ensures { result ≡ keyword_of name.now }
{
    keyword_in(&KEYWORDS, name)
}

fn word_kind(alloc: Global, name: &[u8]) -> Result<TokenKind, NoMemory>
    ensures { IfOk result (λ kind. kind ≡ word_kind name.now) }
{
    match keyword_of(name) {
        Some(keyword) => Ok(TokenKind::Keyword(keyword)),
        None => Ok(TokenKind::Name(Listed::from_vec(name.to_vec(alloc)?)?)),
    }
}

/// The keyword or name that begins a text, which begins with a letter or `_`.
#[tactic(auto, unfolding(vx_ast::specs::Tokens::word_piece))]
pub fn word_piece(alloc: Global, text: &[u8]) -> Result<Piece, NoMemory>
    ensures { IfOk result (λ piece. piece ≡ word_piece text.now) }
{
    let count = name_length(text);
    Ok(Piece::Spelled(word_kind(alloc, &text[..count])?, count))
}
