// The command `check WORDS`: reads a text of words and a machine, checks the words for the machine, and puts what is found.

ghost use Rattle.std.specs.Prelude.{◌≡◌, ◌≤◌, true, false};
ghost use Rattle.vx_status.specs.Status.{Adds, Tells, status_line};
ghost use Rattle.vx_command.specs.Asked.{checking_of};
ghost use Rattle.vx_files.specs.Effects.{effect_of};
ghost use Rattle.vx_runs.specs.Ending.{loaded_of};
ghost use Rattle.vx_runs.specs.Simulated.{streams_of};
ghost use Rattle.vx_runs.specs.Checking.{CheckAnswers, LoadedChecked, PutsVerdict, puts_strict};

use crate::loaded::LoadedFiles;
use crate::sim::load;
use std::alloc::Global;
use vx_check::{Verdict, check};
use vx_command::CheckWords;
use vx_io::depot::Depot;
use vx_io::sink::{Sink, put_all};
use vx_status::{Breach, Status, tell};

/// Puts the line of a strict program, and answers whether it could be put.
fn put_strict<K: Sink, E: Sink>(out: &mut K, err: &mut E) -> Status
    ensures puts { PutsVerdict Verdict.Yes (streams_of K.told K.faults E.told E.faults out.old out.new err.old err.new) result }
    ensures tells { Tells (status_line result) (E.told err.old) (E.told err.new) (E.faults err.old) (E.faults err.new) }
    ensures adds { Adds (E.told err.old) (E.told err.new) (E.faults err.old) (E.faults err.new) }
    ensures wanted { puts_strict result ≡ true }
    ensures out_never_falls { K.faults out.old ≤ K.faults out.new }
{
    match put_all(out, b"strict\n") {
        Ok(()) => Status::Done,
        Err(_) => tell(err, Status::WriteFault),
    }
}

/// Puts what is found of a program of words: that it is strict, or the place where it is not, and why.
fn put_verdict<K: Sink, E: Sink>(out: &mut K, err: &mut E, verdict: Verdict) -> Status
    ensures puts { PutsVerdict verdict (streams_of K.told K.faults E.told E.faults out.old out.new err.old err.new) result }
    ensures tells { Tells (status_line result) (E.told err.old) (E.told err.new) (E.faults err.old) (E.faults err.new) }
    ensures adds { Adds (E.told err.old) (E.told err.new) (E.faults err.old) (E.faults err.new) }
    ensures nothing { puts_strict result ≡ false → K.told out.new ≡ K.told out.old }
    ensures out_never_falls { K.faults out.old ≤ K.faults out.new }
{
    match verdict {
        Verdict::Yes => put_strict(out, err),
        Verdict::Unfit(place) => tell(err, Status::NotStrict(Breach::Unfit, place)),
        Verdict::Pending(place) => tell(err, Status::NotStrict(Breach::Pending, place)),
    }
}

/// Checks the words that were read for the machine that was read, and puts what is found.
fn check_loaded<K: Sink, E: Sink>(
    alloc: Global,
    loaded: &LoadedFiles,
    out: &mut K,
    err: &mut E,
) -> Status
    ensures checked { LoadedChecked (loaded_of loaded.now) (streams_of K.told K.faults E.told E.faults out.old out.new err.old err.new) result }
    ensures tells { Tells (status_line result) (E.told err.old) (E.told err.new) (E.faults err.old) (E.faults err.new) }
    ensures adds { Adds (E.told err.old) (E.told err.new) (E.faults err.old) (E.faults err.new) }
    ensures nothing { puts_strict result ≡ false → K.told out.new ≡ K.told out.old }
    ensures out_never_falls { K.faults out.old ≤ K.faults out.new }
{
    match check(alloc, &loaded.program, &loaded.machine) {
        Ok(verdict) => put_verdict(out, err, verdict),
        Err(_) => tell(err, Status::NoMemory),
    }
}

/// Checks the words of a file for the machine of another, where one is named, or for the default one: puts `strict` on `out`, or on `err`
/// the line of the first word that does not fit, or else of the first that may read a register in flight.
pub fn check_with<D: Depot, K: Sink, E: Sink>(
    alloc: Global,
    depot: &mut D,
    out: &mut K,
    err: &mut E,
    asked: &CheckWords,
) -> Status
    ensures answers { CheckAnswers (checking_of asked.now) (effect_of D.files D.failed_reads D.failed_replaces depot.old depot.new) (streams_of K.told K.faults E.told E.faults out.old out.new err.old err.new) result }
    ensures line { Tells (status_line result) (E.told err.old) (E.told err.new) (E.faults err.old) (E.faults err.new) }
    ensures adds { Adds (E.told err.old) (E.told err.new) (E.faults err.old) (E.faults err.new) }
    ensures nothing { puts_strict result ≡ false → K.told out.new ≡ K.told out.old }
    ensures reads_never_fall { D.failed_reads depot.old ≤ D.failed_reads depot.new }
    ensures replaces_never_fall { D.failed_replaces depot.old ≤ D.failed_replaces depot.new }
    ensures out_never_falls { K.faults out.old ≤ K.faults out.new }
{
    match load(alloc, depot, asked.file, asked.machine, None) {
        Ok(loaded) => check_loaded(alloc, &loaded, out, err),
        Err(status) => tell(err, status),
    }
}
