// Marks.

ghost use Rattle.std.specs.Prelude.{◌≡◌, length};
ghost use Rattle.std.specs.Option.{option_map};
ghost use Rattle.vx_ast.specs.Tokens.{mark_at, mark_piece};
ghost use Rattle.vx_lex.specs.Table.{mark_in, marked};

use vx_ast::token::{Mark, Piece, TokenKind};

// Longer ones stand before shorter ones: the first that begins a text is the longest.
const MARKS: [(&str, Mark); 43] = [
    ("<<=", Mark::ShiftLeftEqual),
    (">>=", Mark::ShiftRightEqual),
    ("++", Mark::PlusPlus),
    ("--", Mark::MinusMinus),
    ("+=", Mark::PlusEqual),
    ("-=", Mark::MinusEqual),
    ("*=", Mark::StarEqual),
    ("/=", Mark::SlashEqual),
    ("%=", Mark::PercentEqual),
    ("&=", Mark::AmpersandEqual),
    ("|=", Mark::BarEqual),
    ("^=", Mark::CaretEqual),
    ("<<", Mark::ShiftLeft),
    (">>", Mark::ShiftRight),
    ("<=", Mark::LessEqual),
    (">=", Mark::GreaterEqual),
    ("==", Mark::EqualEqual),
    ("!=", Mark::ExclamationEqual),
    ("&&", Mark::AmpersandAmpersand),
    ("||", Mark::BarBar),
    ("+", Mark::Plus),
    ("-", Mark::Minus),
    ("*", Mark::Star),
    ("/", Mark::Slash),
    ("%", Mark::Percent),
    ("&", Mark::Ampersand),
    ("|", Mark::Bar),
    ("^", Mark::Caret),
    ("~", Mark::Tilde),
    ("!", Mark::Exclamation),
    ("<", Mark::Less),
    (">", Mark::Greater),
    ("=", Mark::Equal),
    ("?", Mark::Question),
    (":", Mark::Colon),
    (",", Mark::Comma),
    (";", Mark::Semicolon),
    ("(", Mark::OpenParenthesis),
    (")", Mark::CloseParenthesis),
    ("[", Mark::OpenBracket),
    ("]", Mark::CloseBracket),
    ("{", Mark::OpenBrace),
    ("}", Mark::CloseBrace),
];

// The first mark of the table that begins a text, and how many bytes it has.
fn mark_in(table: &[(&str, Mark)], text: &[u8]) -> Option<(Mark, usize)>
    ensures { result ≡ mark_in (marked table.now) text.now }
{
    for entry in table {
        if text.starts_with(entry.0.as_bytes()) {
            return Some((entry.1, entry.0.len()));
        }
    }
    None
}

// The longest mark that begins a text, and how many bytes it has.
#[tactic(auto, unfolding(vx_ast::specs::Tokens::mark_at))]
fn mark_of(text: &[u8]) -> Option<(Mark, usize)>
    ensures { result ≡ option_map (λ m. (m.1, length m.0)) (mark_at text.now) }
{
    mark_in(&MARKS, text)
}

/// The mark that begins a text, or the fault that none does.
#[tactic(auto, unfolding(vx_ast::specs::Tokens::mark_piece))]
pub fn mark_piece(text: &[u8]) -> Piece
    ensures { result ≡ mark_piece text.now }
{
    match mark_of(text) {
        Some((mark, count)) => Piece::Spelled(TokenKind::Mark(mark), count),
        None => Piece::Faulty(1, 0),
    }
}
