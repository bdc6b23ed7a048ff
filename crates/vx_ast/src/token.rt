// The tokens of a source. What they are in a text is specs/Tokens.antt.

use vx_base::listed::Bytes;

/// A keyword of C90. The grammar uses some of them; none is a name.
#[derive(Clone, Copy, PartialEq, Eq)]
pub enum Keyword {
    /// `auto`
    Auto,
    /// `break`
    Break,
    /// `case`
    Case,
    /// `char`
    Char,
    /// `const`
    Const,
    /// `continue`
    Continue,
    /// `default`
    Default,
    /// `do`
    Do,
    /// `double`
    Double,
    /// `else`
    Else,
    /// `enum`
    Enum,
    /// `extern`
    Extern,
    /// `float`
    Float,
    /// `for`
    For,
    /// `goto`
    Goto,
    /// `if`
    If,
    /// `int`
    Int,
    /// `long`
    Long,
    /// `register`
    Register,
    /// `return`
    Return,
    /// `short`
    Short,
    /// `signed`
    Signed,
    /// `sizeof`
    Sizeof,
    /// `static`
    Static,
    /// `struct`
    Struct,
    /// `switch`
    Switch,
    /// `typedef`
    Typedef,
    /// `union`
    Union,
    /// `unsigned`
    Unsigned,
    /// `void`
    Void,
    /// `volatile`
    Volatile,
    /// `while`
    While,
}

/// A mark of the source language.
#[derive(Clone, Copy, PartialEq, Eq)]
pub enum Mark {
    /// `++`
    PlusPlus,
    /// `--`
    MinusMinus,
    /// `+=`
    PlusEqual,
    /// `-=`
    MinusEqual,
    /// `*=`
    StarEqual,
    /// `/=`
    SlashEqual,
    /// `%=`
    PercentEqual,
    /// `&=`
    AmpersandEqual,
    /// `|=`
    BarEqual,
    /// `^=`
    CaretEqual,
    /// `<<=`
    ShiftLeftEqual,
    /// `>>=`
    ShiftRightEqual,
    /// `<<`
    ShiftLeft,
    /// `>>`
    ShiftRight,
    /// `<=`
    LessEqual,
    /// `>=`
    GreaterEqual,
    /// `==`
    EqualEqual,
    /// `!=`
    ExclamationEqual,
    /// `&&`
    AmpersandAmpersand,
    /// `||`
    BarBar,
    /// `+`
    Plus,
    /// `-`
    Minus,
    /// `*`
    Star,
    /// `/`
    Slash,
    /// `%`
    Percent,
    /// `&`
    Ampersand,
    /// `|`
    Bar,
    /// `^`
    Caret,
    /// `~`
    Tilde,
    /// `!`
    Exclamation,
    /// `<`
    Less,
    /// `>`
    Greater,
    /// `=`
    Equal,
    /// `?`
    Question,
    /// `:`
    Colon,
    /// `,`
    Comma,
    /// `;`
    Semicolon,
    /// `(`
    OpenParenthesis,
    /// `)`
    CloseParenthesis,
    /// `[`
    OpenBracket,
    /// `]`
    CloseBracket,
    /// `{`
    OpenBrace,
    /// `}`
    CloseBrace,
}

/// What a token is.
#[derive(Drop)]
pub enum TokenKind {
    /// A keyword.
    Keyword(Keyword),
    /// A name that is no keyword, by its bytes.
    Name(Bytes),
    /// A number, by its value, which is not below 0.
    Number(i32),
    /// A string, by its bytes after the escapes are read.
    Text(Bytes),
    /// A mark.
    Mark(Mark),
    /// The end of the source.
    End,
}

/// A token, and where it stands.
#[derive(Drop)]
pub struct Token {
    /// What it is.
    pub kind: TokenKind,
    /// The place of its first byte, from 0.
    pub start: u32,
    /// The place of the byte behind its last one.
    pub end: u32,
    /// The line of its first byte, from 1. A line ends with a line feed.
    pub line: u32,
    /// The column of its first byte, from 1, counted in bytes.
    pub column: u32,
}

/// What stands first in a source, from some place on.
#[derive(Drop)]
pub enum Piece {
    /// So many bytes that are no token: a blank, a comment, or an include line without its line feed.
    Skipped(usize),
    /// A token of so many bytes.
    Spelled(TokenKind, usize),
    /// The fault of this code, at the byte that has so many bytes before it.
    Faulty(u32, usize),
}
