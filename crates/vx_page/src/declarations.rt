// The names of the arrays of a source, by its tokens: the tree of a program tells arrays by numbers alone, in the order in which the
// source declares them.

use std::alloc::Global;
use vx_ast::token::{Keyword, Mark, Token, TokenKind};
use vx_base::listed::{Bytes, copied};
use vx_base::outcome::NoMemory;

/// The names of the arrays that a function takes and then of those that it declares, in their order.
#[derive(Drop)]
pub struct OwnNames {
    /// The names.
    pub names: Vec<Bytes>,
}

/// The names of the arrays of a source. A global scalar is an array of one word.
#[derive(Drop)]
pub struct ArrayNames {
    /// Of the globals, in their order.
    pub globals: Vec<Bytes>,
    /// Of the arrays that functions take and declare, function by function.
    pub own: Vec<OwnNames>,
}

/// Where in a source a token stands.
#[derive(Clone, Copy)]
struct Spot {
    /// How many braces are open.
    braces: u32,
    /// How many parentheses and brackets are open since the last `int`.
    inner: u32,
    /// Whether an `int` stands before it, and no end of that declaration behind.
    declares: bool,
    /// Whether an `int` or a comma stands directly before it.
    begins: bool,
    /// Whether it stands between the name of a function and its body.
    in_head: bool,
}

/// What a name is where it stands.
#[derive(Clone, Copy, PartialEq, Eq)]
enum Role {
    /// The name of a function before its parameters.
    Function,
    /// The name of a global that is declared.
    Global,
    /// The name of an array that a function takes or declares.
    Own,
    /// Any other.
    Other,
}

fn is_mark(token: Option<&Token>, mark: Mark) -> bool {
    match token {
        Some(found) => match &found.kind {
            TokenKind::Mark(other) => *other == mark,
            _ => false,
        },
        None => false,
    }
}

/// What a name at a spot is, where this token stands behind it.
fn role_of(spot: Spot, next: Option<&Token>) -> Role {
    let is_declared = spot.declares && spot.begins && spot.inner == 0;
    if spot.in_head {
        return if is_mark(next, Mark::OpenBracket) {
            Role::Own
        } else {
            Role::Other
        };
    }
    if spot.braces == 0 && is_mark(next, Mark::OpenParenthesis) {
        return Role::Function;
    }
    if spot.braces == 0 && is_declared {
        return Role::Global;
    }
    if is_declared && is_mark(next, Mark::OpenBracket) {
        return Role::Own;
    }
    Role::Other
}

/// The spot behind a mark.
fn behind_mark(spot: Spot, mark: Mark) -> Spot {
    let spot = Spot {
        begins: mark == Mark::Comma,
        ..spot
    };
    match mark {
        Mark::OpenBrace => Spot {
            braces: spot.braces.saturating_add(1),
            inner: 0,
            declares: false,
            begins: false,
            in_head: false,
        },
        Mark::CloseBrace => Spot {
            braces: spot.braces.saturating_sub(1),
            declares: false,
            ..spot
        },
        Mark::Semicolon => Spot {
            declares: false,
            ..spot
        },
        Mark::OpenParenthesis | Mark::OpenBracket => Spot {
            inner: spot.inner.saturating_add(1),
            ..spot
        },
        Mark::CloseParenthesis | Mark::CloseBracket => Spot {
            inner: spot.inner.saturating_sub(1),
            ..spot
        },
        _ => spot,
    }
}

/// The spot behind a token.
fn behind(spot: Spot, token: &Token, role: Role) -> Spot {
    match &token.kind {
        TokenKind::Keyword(Keyword::Int) => Spot {
            inner: 0,
            declares: true,
            begins: true,
            ..spot
        },
        TokenKind::Mark(mark) => behind_mark(spot, *mark),
        _ => Spot {
            begins: false,
            in_head: spot.in_head || role == Role::Function,
            ..spot
        },
    }
}

fn push_function(alloc: Global, own: &mut Vec<OwnNames>) -> Result<(), NoMemory> {
    own.push(OwnNames {
        names: Vec::new(alloc),
    })?;
    Ok(())
}

fn push_name(alloc: Global, names: &mut Vec<Bytes>, name: &[u8]) -> Result<(), NoMemory> {
    let name = copied(alloc, name)?;
    names.push(name)?;
    Ok(())
}

fn push_own(alloc: Global, own: &mut Vec<OwnNames>, name: &[u8]) -> Result<(), NoMemory> {
    match own.last_mut() {
        Some(last) => push_name(alloc, &mut last.names, name),
        None => Ok(()),
    }
}

fn push_found(
    alloc: Global,
    found: &mut ArrayNames,
    role: Role,
    name: &[u8],
) -> Result<(), NoMemory> {
    match role {
        Role::Function => push_function(alloc, &mut found.own),
        Role::Global => push_name(alloc, &mut found.globals, name),
        Role::Own => push_own(alloc, &mut found.own, name),
        Role::Other => Ok(()),
    }
}

/// What a token is, if it is a name, where another stands behind it; its name is kept if an array has it.
fn note_token(
    alloc: Global,
    found: &mut ArrayNames,
    spot: Spot,
    token: &Token,
    next: Option<&Token>,
) -> Result<Role, NoMemory> {
    match &token.kind {
        TokenKind::Name(name) => {
            let role = role_of(spot, next);
            push_found(alloc, found, role, name.as_slice())?;
            Ok(role)
        }
        _ => Ok(Role::Other),
    }
}

fn note_tokens(alloc: Global, found: &mut ArrayNames, tokens: &[Token]) -> Result<(), NoMemory> {
    let mut spot = Spot {
        braces: 0,
        inner: 0,
        declares: false,
        begins: false,
        in_head: false,
    };
    for (place, token) in tokens.iter().enumerate() {
        let next = tokens.get(place.saturating_add(1));
        let role = note_token(alloc, found, spot, token, next)?;
        spot = behind(spot, token, role);
    }
    Ok(())
}

/// The names of the arrays of the source with these tokens.
pub fn array_names(alloc: Global, tokens: &[Token]) -> Result<ArrayNames, NoMemory> {
    let mut found = ArrayNames {
        globals: Vec::new(alloc),
        own: Vec::new(alloc),
    };
    note_tokens(alloc, &mut found, tokens)?;
    Ok(found)
}
