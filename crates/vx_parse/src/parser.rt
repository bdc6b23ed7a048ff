// The whole of a source.

ghost use Rattle.std.specs.Prelude.{◌≡◌, ◌<◌, ◌⊎◌, true, false, length, drop, IfOk, IfErr, ◌∷◌, []};
ghost use Rattle.vx_ast.specs.declared.token.TokenKind.TheVariants as kinds;
ghost use Rattle.vx_ast.specs.SyntaxView.{program_of};
ghost use Rattle.vx_ast.specs.declared.fault.SourceFault.TheVariants.{NoMemory};
ghost use Rattle.vx_ast.specs.Phrases as phrases;
ghost use Rattle.vx_ast.specs.Phrases.{A};
ghost use Rattle.vx_ast.specs.Reads.{Parses, Misparses};
ghost use Rattle.vx_parse.specs.Reading.{Ended, Stops};

use crate::definition::{Definitions, read_int, read_void};
use crate::stop::Stop;
use crate::token::{is_word, kind_at, place_at};
use std::alloc::Global;
use vx_ast::fault::SourceFault;
use vx_ast::syntax::{Place, Program};
use vx_ast::token::{Keyword, Token, TokenKind};

fn is_end(kind: &TokenKind) -> bool
    ensures yes { result ≡ true → kind.now ≡ kinds.End }
    ensures no { result ≡ false → kind.now ≡ kinds.End → ⊥ }
{
    match kind {
        TokenKind::End => true,
        _ => false,
    }
}

fn read_program(alloc: Global, tokens: &[Token]) -> Result<Program, Stop>
    requires ended { Ended tokens.now }
    ensures ok { IfOk result (λ p. Parses tokens.now (program_of p)) }
    ensures stop { IfErr result (λ stop. Stops (A phrases.Program ∷ []) tokens.now tokens.now 0 0 stop) }
{
    let mut all = Definitions {
        definitions: Vec::new(alloc),
        next: 0,
    };
    'definitions: loop {
        let kind = kind_at(tokens, all.next);
        if is_word(kind, Keyword::Int) {
            all = read_int(alloc, tokens, all)?;
        } else if is_word(kind, Keyword::Void) {
            all = read_void(alloc, tokens, all)?;
        } else if is_end(kind) {
            return Ok(Program {
                definitions: all.definitions,
                end: place_at(tokens, all.next),
            });
        } else {
            return Err(Stop::Unexpected(all.next));
        }
    }
}

fn fault_of(tokens: &[Token], stop: Stop) -> SourceFault
    requires { Stops (A phrases.Program ∷ []) tokens.now tokens.now 0 0 stop }
    ensures { (result ≡ NoMemory) ⊎ Misparses tokens.now result }
{
    match stop {
        Stop::Unexpected(place) => {
            let Place { line, column } = place_at(tokens, place);
            SourceFault::Bad {
                code: 4,
                line,
                column,
            }
        }
        Stop::TooDeep => SourceFault::Limit {
            number: 2,
            count: 201,
        },
        Stop::NoMemory => SourceFault::NoMemory,
    }
}

/// The tree of a list of tokens that ends with an end token and holds no other.
///
/// `Bad` has the code 4 and stands at the first token with which no program goes on. `Limit` has the number 2 and the
/// count 201: the tokens up to some token have a construct in 200 others, and no `Bad` stands there or before.
pub fn parse(alloc: Global, tokens: &[Token]) -> Result<Program, SourceFault>
    requires { Ended tokens.now }
    ensures program { IfOk result (λ p. Parses tokens.now (program_of p)) }
    ensures refused { IfErr result (λ fault. (fault ≡ NoMemory) ⊎ Misparses tokens.now fault) }
{
    match read_program(alloc, tokens) {
        Ok(program) => Ok(program),
        Err(stop) => Err(fault_of(tokens, stop)),
    }
}
