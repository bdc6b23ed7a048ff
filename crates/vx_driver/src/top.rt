// The top call: from the words of a command line to its answer.

ghost use Rattle.std.specs.Prelude.{◌≡◌, ◌≤◌, false, map, string_bytes};
ghost use Rattle.vx_status.specs.Status.{Appends, Tells, status_line};
ghost use Rattle.vx_command.specs.Command.{command_of, names_command};
ghost use Rattle.vx_files.specs.Effects.{effect_of};
ghost use Rattle.vx_runs.specs.Simulated.{streams_of};
ghost use Rattle.vx_runs.specs.Boxes.{boxes_of};
ghost use Rattle.vx_runs.specs.Lines.{TellsLine};
ghost use Rattle.vx_commands.specs.Commands.{Answers, Completes, puts_output};

use crate::passes::Passes;
use std::alloc::Global;
use vx_commands::commands::perform;
use vx_io::depot::Depot;
use vx_io::sink::Sink;
use vx_probe::{Probe, Timing};
use vx_status::Status;

/// Does what the words of a command line ask for over the files of a depot, puts its text on `out` and its lines on
/// `err`, and answers how it ended. The first word is the program's name. The boxes that the words name are used, the
/// others dropped.
pub fn vexc<D: Depot, K: Sink, E: Sink>(
    alloc: Global,
    words: &[String],
    depot: &mut D,
    out: &mut K,
    err: &mut E,
    probes: Vec<Box<dyn Probe>>,
    timings: Vec<Box<dyn Timing>>,
) -> Status
    // Each status has its cause, and says what stands after it.
    ensures answers { Answers (command_of (map string_bytes words.now)) (boxes_of called watch named times probes.items timings.items) (effect_of D.files D.failed_reads D.failed_replaces depot.old depot.new) (streams_of K.told K.faults E.told E.faults out.old out.new err.old err.new) result }

    // Where nothing fails, the command does its work, unless memory is wanted.
    ensures complete { Completes (command_of (map string_bytes words.now)) (boxes_of called watch named times probes.items timings.items) (effect_of D.files D.failed_reads D.failed_replaces depot.old depot.new) (streams_of K.told K.faults E.told E.faults out.old out.new err.old err.new) result }

    // Only a run puts anything on `out`, its output, its counts or its summary, and the check of a strict program its line.
    ensures nothing_on_out { puts_output (command_of (map string_bytes words.now)) result ≡ false → K.told out.new ≡ K.told out.old }

    // What `err` gains: the line of the status, or a front of it where a put fails. Of the lines of a run `answers` speak,
    // and of words that clap refuses nothing is said.
    ensures line { TellsLine (command_of (map string_bytes words.now)) (boxes_of called watch named times probes.items timings.items) (streams_of K.told K.faults E.told E.faults out.old out.new err.old err.new) result }

    // Where the second word is absent or names no command, that is its line: `no command`, or `no memory`.
    ensures no_command { names_command (map string_bytes words.now) ≡ false → Tells (status_line result) (E.told err.old) (E.told err.new) (E.faults err.old) (E.faults err.new) }
    ensures line_on_err { Appends (E.told err.old) (E.told err.new) }

    // No count of failures falls.
    ensures out_never_falls { K.faults out.old ≤ K.faults out.new }
    ensures err_never_falls { E.faults err.old ≤ E.faults err.new }
    ensures reads_never_fall { D.failed_reads depot.old ≤ D.failed_reads depot.new }
    ensures replaces_never_fall { D.failed_replaces depot.old ≤ D.failed_replaces depot.new }
{
    perform(alloc, &Passes, words, depot, out, err, probes, timings)
}
