// The command `profile SRC`: reads a source and an input, runs the graphs of the source, and puts how often each block and
// each edge was passed.

ghost use Rattle.vx_files.specs.Effects.{effect_of};
ghost use Rattle.vx_command.specs.Command.{Count};
ghost use Rattle.vx_command.specs.Asked.{profiling_of};
ghost use Rattle.vx_runs.specs.Boxes.{Boxes};
ghost use Rattle.vx_runs.specs.Simulated.{streams_of};
ghost use Rattle.vx_commands.specs.Performed.{Performed};

use std::alloc::Global;
use vx_command::ProfileWords;
use vx_io::depot::Depot;
use vx_io::sink::Sink;
use vx_runs::compiler::Compiler;
use vx_runs::counts::{count_read, put_counts};
use vx_status::{Status, tell};

/// Does what the words of `profile` ask for: puts the text of the counts on `out`.
pub(crate) fn profile<C: Compiler, D: Depot, K: Sink, E: Sink>(
    alloc: Global,
    compiler: &C,
    depot: &mut D,
    out: &mut K,
    err: &mut E,
    asked: &ProfileWords,
) -> Status
    ensures { ((boxes : Boxes) → Performed (Some (Count (profiling_of asked.now))) boxes (effect_of D.files D.failed_reads D.failed_replaces depot.old depot.new) (streams_of K.told K.faults E.told E.faults out.old out.new err.old err.new) result) }
{
    match count_read(alloc, compiler, depot, asked) {
        Ok(counted) => put_counts(out, err, &counted),
        Err(status) => tell(err, status),
    }
}
