// The passes that read a source: its tokens; its tree; its names, kinds and limits.

ghost use Rattle.std.specs.Prelude.{◌≡◌, ◌≤◌, ◌⊎◌, length, IfOk, IfErr};
ghost use Rattle.vx_ast.specs.Reads.{Reads, Refusal};
ghost use Rattle.vx_ast.specs.View as view;
ghost use Rattle.vx_ast.specs.declared.fault.SourceFault.TheVariants.{NoMemory as NoRoom};
ghost use Rattle.vx_files.specs.Held.{RefusesSource, status_of};

use std::alloc::Global;
use vx_ast::fault::SourceFault;
use vx_ast::typed::Typed;
use vx_lex::tokens;
use vx_parse::parse;
use vx_status::Status;
use vx_types::check;

/// The program that bytes are the source of.
///
/// The refusal is the first one of the passes: S1 to S3; then S4 or L2; then S5 to S13; then L3 to L8.
fn program_of(alloc: Global, bytes: &[u8]) -> Result<Typed, SourceFault>
    requires { length bytes.now ≤ 1048576 }
    ensures reads { IfOk result (λ typed. Reads bytes.now (view.program_of typed.program)) }
    ensures refused { IfErr result (λ fault. (fault ≡ NoRoom) ⊎ Refusal bytes.now fault) }
{
    let all = tokens(alloc, bytes)?;
    let tree = parse(alloc, all.as_slice())?;
    check(alloc, tree)
}

/// The status of a refusal.
fn status_of(fault: SourceFault) -> Status
    ensures { result ≡ status_of fault }
{
    match fault {
        SourceFault::Bad { code, line, column } => Status::Source { code, line, column },
        SourceFault::Limit { number, count } => Status::Limit { number, count },
        SourceFault::NoMemory => Status::NoMemory,
    }
}

/// The program that bytes are the source of, or the status of their refusal.
pub fn typed_of(alloc: Global, bytes: &[u8]) -> Result<Typed, Status>
    requires { length bytes.now ≤ 1048576 }
    ensures reads { IfOk result (λ typed. Reads bytes.now (view.program_of typed.program)) }
    ensures refused { IfErr result (λ status. (status ≡ Status.NoMemory) ⊎ RefusesSource bytes.now status) }
{
    match program_of(alloc, bytes) {
        Ok(typed) => Ok(typed),
        Err(fault) => Err(status_of(fault)),
    }
}
