// The files that `compile` replaces: that of the words, and then that of the report, where one is asked.

ghost use Rattle.std.specs.Prelude.{◌≡◌, ◌≢◌, ◌≤◌, Some, true, false, option_map};
ghost use Rattle.vx_files.specs.Effects.{effect_of};
ghost use Rattle.vx_runs.specs.Writing.{WriteAnswers, ReportAnswers};

use vx_io::depot::{Depot, DepotFault};
use vx_status::Status;

/// Puts a text under a name.
fn write_text<D: Depot>(depot: &mut D, name: &str, text: &[u8]) -> Status
    ensures answers { WriteAnswers name.now text.now (effect_of D.files D.failed_reads D.failed_replaces depot.old depot.new) result }
    ensures reads_never_fall { D.failed_reads depot.old ≤ D.failed_reads depot.new }
    ensures replaces_never_fall { D.failed_replaces depot.old ≤ D.failed_replaces depot.new }
{
    match depot.replace(name, text) {
        Ok(()) => Status::Done,
        Err(DepotFault::Failed) => Status::WriteFault,
        Err(DepotFault::NoMemory) => Status::NoMemory,
        Err(DepotFault::NoFile) => unreachable!(),
    }
}

/// Whether a command is done.
fn is_done(status: Status) -> bool
    ensures done { result ≡ true → status ≡ Status.Done }
    ensures other { result ≡ false → status ≢ Status.Done }
{
    match status {
        Status::Done => true,
        _ => false,
    }
}

/// Puts the text of the words under its name, and then the report under its own.
fn write_both<D: Depot>(depot: &mut D, out: &str, text: &[u8], name: &str, report: &[u8]) -> Status
    ensures answers { ReportAnswers out.now text.now (Some name.now) report.now (effect_of D.files D.failed_reads D.failed_replaces depot.old depot.new) result }
    ensures reads_never_fall { D.failed_reads depot.old ≤ D.failed_reads depot.new }
    ensures replaces_never_fall { D.failed_replaces depot.old ≤ D.failed_replaces depot.new }
{
    let first = write_text(depot, out, text);
    if is_done(first) {
        write_text(depot, name, report)
    } else {
        first
    }
}

/// Puts the text of the words under its name, and then the report, where one is asked.
pub fn write_texts<D: Depot>(
    depot: &mut D,
    out: &str,
    text: &[u8],
    name: Option<&str>,
    report: &[u8],
) -> Status
    ensures answers { ReportAnswers out.now text.now (option_map (λ s. s.now) name.entry) report.now (effect_of D.files D.failed_reads D.failed_replaces depot.old depot.new) result }
    ensures reads_never_fall { D.failed_reads depot.old ≤ D.failed_reads depot.new }
    ensures replaces_never_fall { D.failed_replaces depot.old ≤ D.failed_replaces depot.new }
{
    match name {
        Some(name) => write_both(depot, out, text, name, report),
        None => write_text(depot, out, text),
    }
}
