// The program that a command works on: the one that the file of the source reads as, with what is asked of it rewritten.

ghost use Rattle.std.specs.Prelude.{◌≡◌, ◌≤◌, IfOk, IfErr};
ghost use Rattle.vx_ast.specs.View as view;
ghost use Rattle.vx_command.specs.Asked.{rewriting_asked};
ghost use Rattle.vx_files.specs.Effects.{effect_of, SourceAnswers};
ghost use Rattle.vx_runs.specs.Rewritten.{ReadAs};
ghost use Rattle.vx_unroll.specs.Unrolling.{UnrolledBy};

use std::alloc::Global;
use vx_ast::typed::Typed;
use vx_command::Rewriting;
use vx_files::read_through;
use vx_io::depot::Depot;
use vx_status::Status;
use vx_unroll::program::unrolled_by;

/// A program with what is asked of it rewritten, or the status that memory is wanted.
fn rewritten(alloc: Global, program: Typed, asked: Rewriting) -> Result<Typed, Status>
    ensures turns { IfOk result (λ made. UnrolledBy (rewriting_asked asked).unroll (view.program_of program.program) (view.program_of made.program)) }
    ensures memory { IfErr result (λ status. status ≡ Status.NoMemory) }
{
    match unrolled_by(alloc, program, asked.unroll) {
        Ok(made) => Ok(made),
        Err(_) => Err(Status::NoMemory),
    }
}

/// Reads the file of the source through, and rewrites what is asked.
pub fn read_rewritten<D: Depot>(
    alloc: Global,
    depot: &mut D,
    source: &str,
    asked: Rewriting,
) -> Result<Typed, Status>
    ensures same_files { D.files depot.new ≡ D.files depot.old }
    ensures program { IfOk result (λ typed. ReadAs (D.files depot.old) source.now (rewriting_asked asked) (view.program_of typed.program)) }
    ensures answers { IfErr result (SourceAnswers source.now (effect_of D.files D.failed_reads D.failed_replaces depot.old depot.new)) }
    ensures reads_never_fall { D.failed_reads depot.old ≤ D.failed_reads depot.new }
    ensures replaces_never_fall { D.failed_replaces depot.old ≤ D.failed_replaces depot.new }
{
    match read_through(alloc, depot, source) {
        Ok(program) => rewritten(alloc, program, asked),
        Err(status) => Err(status),
    }
}
