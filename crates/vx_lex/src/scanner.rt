// The loop that reads a source piece by piece.

ghost use Rattle.std.specs.Prelude.{◌≡◌, ◌≤◌, ◌<◌, ◌+◌, length, IfOk, IfErr};
ghost use Rattle.vx_ast.specs.Tokens.{Lexes, token_at};
ghost use Rattle.vx_lex.specs.Answer.{IsSpot, Refusal};

use crate::piece::piece_at;
use std::alloc::Global;
use vx_ast::fault::SourceFault;
use vx_ast::token::{Piece, Token, TokenKind};

/// A place in a source.
#[derive(Clone, Copy)]
pub struct Spot {
    /// How many bytes stand before it.
    pub place: usize,
    /// Its line, from 1.
    pub line: u32,
    /// Its column, from 1, counted in bytes.
    pub column: u32,
}

// The spot behind the byte at a spot.
#[tactic(auto, using(crate::proofs::Places::line_feed, crate::proofs::Places::line_on, crate::proofs::Places::column_feed, crate::proofs::Places::column_on, crate::proofs::Places::line_small, crate::proofs::Places::column_small))]
fn behind_byte(bytes: &[u8], spot: Spot) -> Spot
    requires spot { IsSpot bytes.now spot }
    requires within { spot.place < length bytes.now }
    requires few { length bytes.now ≤ 1048576 }
    ensures spot { IsSpot bytes.now result }
    ensures place { result.place ≡ spot.place + 1 }
{
    if bytes[spot.place] == b'\n' {
        Spot {
            place: spot.place + 1,
            line: spot.line + 1,
            column: 1,
        }
    } else {
        Spot {
            place: spot.place + 1,
            line: spot.line,
            column: spot.column + 1,
        }
    }
}

// The spot so many bytes behind another.
fn behind(bytes: &[u8], spot: Spot, count: usize) -> Spot
    requires spot { IsSpot bytes.now spot }
    requires within { spot.place + count ≤ length bytes.now }
    requires few { length bytes.now ≤ 1048576 }
    ensures spot { IsSpot bytes.now result }
    ensures place { result.place ≡ spot.place + count }
{
    let mut here = spot;
    for _passed in 0..count {
        here = behind_byte(bytes, here);
    }
    here
}

// The token of so many bytes at a spot.
fn token_at(bytes: &[u8], spot: Spot, kind: TokenKind, count: usize) -> Token
    requires spot { IsSpot bytes.now spot }
    requires few { spot.place + count ≤ 1048576 }
    ensures { result ≡ token_at bytes.now kind spot.place count }
{
    Token {
        kind,
        start: spot.place as u32,
        end: (spot.place + count) as u32,
        line: spot.line,
        column: spot.column,
    }
}

/// The tokens of a source, the end token last.
///
/// `Bad` is the first of the faults S1 to S3: S1 at a byte that begins no token or may not stand where it stands in
/// one, S2 at the first byte of a comment or string that is not ended, S3 at a literal over 2147483647. `Limit` is
/// never answered.
pub fn tokens(alloc: Global, bytes: &[u8]) -> Result<Vec<Token>, SourceFault>
    requires { length bytes.now ≤ 1048576 }
    ensures ok { IfOk result (λ tokens. Lexes bytes.now tokens.items) }
    ensures fault { IfErr result (λ fault. Refusal bytes.now fault) }
{
    let mut tokens = Vec::new(alloc);
    let mut spot = Spot {
        place: 0,
        line: 1,
        column: 1,
    };
    'pieces: while spot.place < bytes.len() {
        let piece = piece_at(alloc, bytes, spot.place, spot.column == 1)?;
        match piece {
            Piece::Skipped(count) => spot = behind(bytes, spot, count),
            Piece::Spelled(kind, count) => {
                tokens.push(token_at(bytes, spot, kind, count))?;
                spot = behind(bytes, spot, count);
            }
            Piece::Faulty(code, count) => {
                let Spot { line, column, .. } = behind(bytes, spot, count);
                return Err(SourceFault::Bad { code, line, column });
            }
        }
    }
    tokens.push(token_at(bytes, spot, TokenKind::End, 0))?;
    Ok(tokens)
}
