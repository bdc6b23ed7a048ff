// The kinds and limits of a parsed source.

ghost use Rattle.std.specs.Prelude.{◌≡◌, ◌⊎◌, None, IfOk, IfErr, OnOk};
ghost use Rattle.vx_ast.specs.declared.fault.SourceFault.TheVariants.{NoMemory};
ghost use Rattle.vx_ast.specs.Accepted.{limit_of};
ghost use Rattle.vx_ast.specs.Faults.{first_fault};
ghost use Rattle.vx_ast.specs.Reads.{Missuits};
ghost use Rattle.vx_ast.specs.Resolved.{resolved};
ghost use Rattle.vx_ast.specs.SyntaxView.{program_of};
ghost use Rattle.vx_ast.specs.View as view;

use crate::program::resolve_program;
use std::alloc::Global;
use vx_ast::fault::SourceFault;
use vx_ast::syntax;
use vx_ast::typed::Typed;
use vx_limits::limits::limit;

/// The program of a parsed source, in which each name stands with its declaration.
///
/// `Bad` is the first of the faults S5 to S13 by its place, at one token the one of the lowest code. `Limit` is the
/// lowest of the limits L3 to L8 that is over, with the whole count of the first function or format that is; it comes
/// where there is no fault.
pub fn check(alloc: Global, program: syntax::Program) -> Result<Typed, SourceFault>
    ensures program { IfOk result (λ typed. view.program_of typed.program ≡ resolved (program_of program)) }
    ensures fine { OnOk result (first_fault (program_of program) ≡ None) }
    ensures within { OnOk result (limit_of (resolved (program_of program)) ≡ None) }
    ensures refused { IfErr result (λ fault. (fault ≡ NoMemory) ⊎ Missuits (program_of program) fault) }
{
    let found = resolve_program(alloc, &program)?;
    let over = limit(&found.program)?;
    match found.first {
        Some(fault) => Err(SourceFault::Bad {
            code: fault.code,
            line: fault.place.line,
            column: fault.place.column,
        }),
        None => match over {
            Some(over) => Err(SourceFault::Limit {
                number: over.number,
                count: over.count,
            }),
            None => Ok(Typed::make(found.program)),
        },
    }
}

/// Lets a program go, with its trees.
pub fn discard(program: Typed) {
    drop(program);
}
