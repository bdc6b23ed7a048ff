// The command `sim WORDS`: reads a text of words, a machine and an input, runs the words with the boxes that are asked
// for, and puts how the run ended.

ghost use Rattle.std.specs.Prelude.{◌≡◌, ◌⊎◌, ◌<◌, ◌≤◌, true, false, length, map, option_map, is_some, None, Ok, Err, IfOk, IfErr, IfSome};
ghost use Rattle.vx_isa.specs.Sound.{is_sound};
ghost use Rattle.vx_words.specs.Spelling.{Spells};
ghost use Rattle.vx_reader.specs.Text.{reading};
ghost use Rattle.vx_files.specs.Effects.{effect_of};
ghost use Rattle.vx_command.specs.Command.{Simulate};
ghost use Rattle.vx_runs.specs.Boxes.{boxes_of};
ghost use Rattle.vx_runs.specs.Lines.{TellsLine, TellsRun};
ghost use Rattle.vx_command.specs.Asked.{simulation_of};
ghost use Rattle.vx_status.specs.Status.{Adds};
ghost use Rattle.vx_files.specs.Held.{DefaultUnless, EmptyUnless};
ghost use Rattle.vx_runs.specs.Simulated.{words_as, words_in, loading_input, loading_machine, loading, is_named, Stops, RunAnswers, SimAnswers, is_of_run, streams_of};
ghost use Rattle.vx_runs.specs.Ending.{loaded_of};

use crate::boxes::{probes_of, timing_of};
use crate::loaded::LoadedFiles;
use crate::run::{no_box, no_probe, run_loaded};
use std::alloc::Global;
use vx_command::RunWords;
use vx_files::{input_for, machine_for};
use vx_io::depot::{Depot, DepotFault};
use vx_io::role::Role;
use vx_io::sink::Sink;
use vx_io::whole_file::{FileRead, read_file};
use vx_isa::program::WordProgram;
use vx_machine::Machine;
use vx_probe::{Probe, Timing};
use vx_reader::{WordsFault, read};
use vx_status::{Status, tell};

/// The most bytes of a text of words.
pub const MOST_WORDS_BYTES: u64 = 536870912;

/// What a text of words that is too long is answered.
const LONG_WORDS: Status = Status::Limit {
    number: 9,
    count: MOST_WORDS_BYTES + 1,
};

/// The program of a text of words, or the status of its first faulty line.
fn words_of(alloc: Global, bytes: &[u8]) -> Result<WordProgram, Status>
    ensures program { IfOk result (λ program. reading bytes.now ≡ Ok program) }
    ensures spells { IfOk result (λ program. Spells bytes.now program) }
    ensures refused { IfErr result (λ status. (status ≡ Status.NoMemory) ⊎ (words_as (reading bytes.now) ≡ Err status)) }
{
    match read(alloc, bytes) {
        Ok(program) => Ok(program),
        Err(WordsFault::Bad { code, line }) => Err(Status::Words { code, line }),
        Err(WordsFault::NoMemory) => Err(Status::NoMemory),
    }
}

/// Reads the file of the words, whole and through.
fn read_words<D: Depot>(alloc: Global, depot: &mut D, name: &str) -> Result<WordProgram, Status>
    ensures same_files { D.files depot.new ≡ D.files depot.old }
    ensures sound { IfOk result (λ program. is_sound program ≡ true) }
    ensures program { IfOk result (λ program. IfSome (D.files depot.old) (λ held. words_in (held name.now) ≡ Ok program)) }
    ensures spells { IfOk result (λ program. IfSome (D.files depot.old) (λ held. IfSome (held name.now) (λ content. Spells content program))) }
    ensures stops { IfErr result (Stops (is_named None None) (λ held. words_in (held name.now)) (effect_of D.files D.failed_reads D.failed_replaces depot.old depot.new)) }
    ensures reads_never_fall { D.failed_reads depot.old ≤ D.failed_reads depot.new }
    ensures replaces_never_fall { D.failed_replaces depot.old ≤ D.failed_replaces depot.new }
{
    match read_file(alloc, depot, name, MOST_WORDS_BYTES) {
        Ok(FileRead::Whole(bytes)) => words_of(alloc, bytes.as_slice()),
        Ok(FileRead::TooLong) => Err(LONG_WORDS),
        Err(DepotFault::Failed) => Err(Status::ReadFault(Role::Words)),
        Err(DepotFault::NoFile) => Err(Status::NoFile(Role::Words)),
        Err(DepotFault::NoMemory) => Err(Status::NoMemory),
    }
}

/// Reads the input for a program and a machine that were read before.
fn load_input<D: Depot>(
    alloc: Global,
    depot: &mut D,
    program: WordProgram,
    machine: Machine,
    name: Option<&str>,
) -> Result<LoadedFiles, Status>
    requires { is_sound program ≡ true }
    ensures same_files { D.files depot.new ≡ D.files depot.old }
    ensures loaded { IfOk result (λ loaded. IfSome (D.files depot.old) (λ held. loading_input held program machine (option_map (λ s. s.now) name.entry) ≡ Ok (loaded_of loaded))) }
    ensures machine { IfOk result (λ loaded. loaded.machine ≡ machine) }
    ensures unnamed { IfOk result (λ loaded. EmptyUnless (option_map (λ s. s.now) name.entry) loaded.input.items) }
    ensures program { IfOk result (λ loaded. loaded.program ≡ program) }
    ensures stops { IfErr result (Stops (is_named None (option_map (λ s. s.now) name.entry)) (λ held. loading_input held program machine (option_map (λ s. s.now) name.entry)) (effect_of D.files D.failed_reads D.failed_replaces depot.old depot.new)) }
    ensures reads_never_fall { D.failed_reads depot.old ≤ D.failed_reads depot.new }
    ensures replaces_never_fall { D.failed_replaces depot.old ≤ D.failed_replaces depot.new }
{
    match input_for(alloc, depot, name) {
        Ok(input) => Ok(LoadedFiles {
            program,
            machine,
            input,
        }),
        Err(status) => Err(status),
    }
}

/// Reads the machine and the input for a program that was read before.
fn load_machine<D: Depot>(
    alloc: Global,
    depot: &mut D,
    program: WordProgram,
    machine: Option<&str>,
    input: Option<&str>,
) -> Result<LoadedFiles, Status>
    requires { is_sound program ≡ true }
    ensures same_files { D.files depot.new ≡ D.files depot.old }
    ensures loaded { IfOk result (λ loaded. IfSome (D.files depot.old) (λ held. loading_machine held program (option_map (λ s. s.now) machine.entry) (option_map (λ s. s.now) input.entry) ≡ Ok (loaded_of loaded))) }
    ensures default_machine { IfOk result (λ loaded. DefaultUnless (option_map (λ s. s.now) machine.entry) loaded.machine) }
    ensures unnamed { IfOk result (λ loaded. EmptyUnless (option_map (λ s. s.now) input.entry) loaded.input.items) }
    ensures program { IfOk result (λ loaded. loaded.program ≡ program) }
    ensures stops { IfErr result (Stops (is_named (option_map (λ s. s.now) machine.entry) (option_map (λ s. s.now) input.entry)) (λ held. loading_machine held program (option_map (λ s. s.now) machine.entry) (option_map (λ s. s.now) input.entry)) (effect_of D.files D.failed_reads D.failed_replaces depot.old depot.new)) }
    ensures reads_never_fall { D.failed_reads depot.old ≤ D.failed_reads depot.new }
    ensures replaces_never_fall { D.failed_replaces depot.old ≤ D.failed_replaces depot.new }
{
    match machine_for(alloc, depot, machine) {
        Ok(machine) => load_input(alloc, depot, program, machine, input),
        Err(status) => Err(status),
    }
}

/// Reads the words, the machine and the input, each whole before the next.
pub(crate) fn load<D: Depot>(
    alloc: Global,
    depot: &mut D,
    words: &str,
    machine: Option<&str>,
    input: Option<&str>,
) -> Result<LoadedFiles, Status>
    ensures same_files { D.files depot.new ≡ D.files depot.old }
    ensures loaded { IfOk result (λ loaded. IfSome (D.files depot.old) (λ held. loading held words.now (option_map (λ s. s.now) machine.entry) (option_map (λ s. s.now) input.entry) ≡ Ok (loaded_of loaded))) }
    ensures spells { IfOk result (λ loaded. IfSome (D.files depot.old) (λ held. IfSome (held words.now) (λ content. Spells content loaded.program))) }
    ensures default_machine { IfOk result (λ loaded. DefaultUnless (option_map (λ s. s.now) machine.entry) loaded.machine) }
    ensures unnamed { IfOk result (λ loaded. EmptyUnless (option_map (λ s. s.now) input.entry) loaded.input.items) }
    ensures stops { IfErr result (Stops (is_named (option_map (λ s. s.now) machine.entry) (option_map (λ s. s.now) input.entry)) (λ held. loading held words.now (option_map (λ s. s.now) machine.entry) (option_map (λ s. s.now) input.entry)) (effect_of D.files D.failed_reads D.failed_replaces depot.old depot.new)) }
    ensures reads_never_fall { D.failed_reads depot.old ≤ D.failed_reads depot.new }
    ensures replaces_never_fall { D.failed_replaces depot.old ≤ D.failed_replaces depot.new }
{
    match read_words(alloc, depot, words) {
        Ok(program) => load_machine(alloc, depot, program, machine, input),
        Err(status) => Err(status),
    }
}

/// Runs the words of a file with the boxes that were asked for.
fn simulate<D: Depot, K: Sink, E: Sink>(
    alloc: Global,
    depot: &mut D,
    out: &mut K,
    err: &mut E,
    asked: &RunWords,
    timing: Box<dyn Timing>,
    probes: Vec<Box<dyn Probe>>,
) -> Status
    requires wanted { 0 < length probes.items → is_some asked.now.probe ≡ true }
    ensures same_files { D.files depot.new ≡ D.files depot.old }
    ensures answers { RunAnswers (simulation_of asked.now) (record { times = times timing; watches = map (λ b. watch b) probes.items }) (effect_of D.files D.failed_reads D.failed_replaces depot.old depot.new) (streams_of K.told K.faults E.told E.faults out.old out.new err.old err.new) result }
    ensures line { TellsRun (streams_of K.told K.faults E.told E.faults out.old out.new err.old err.new) result }
    ensures adds { Adds (E.told err.old) (E.told err.new) (E.faults err.old) (E.faults err.new) }
    ensures nothing { is_of_run result ≡ false → K.told out.new ≡ K.told out.old }
    ensures reads_never_fall { D.failed_reads depot.old ≤ D.failed_reads depot.new }
    ensures replaces_never_fall { D.failed_replaces depot.old ≤ D.failed_replaces depot.new }
    ensures out_never_falls { K.faults out.old ≤ K.faults out.new }
{
    match load(alloc, depot, asked.file, asked.machine, asked.input) {
        Ok(loaded) => run_loaded(alloc, loaded, asked.budget, false, out, err, timing, probes),
        Err(status) => tell(err, status),
    }
}

/// Runs the words of a file with the first boxes that have the names that are asked for.
pub fn simulate_with<D: Depot, K: Sink, E: Sink>(
    alloc: Global,
    depot: &mut D,
    out: &mut K,
    err: &mut E,
    asked: &RunWords,
    probes: Vec<Box<dyn Probe>>,
    timings: Vec<Box<dyn Timing>>,
) -> Status
    ensures answers { SimAnswers (simulation_of asked.now) (boxes_of called watch named times probes.items timings.items) (effect_of D.files D.failed_reads D.failed_replaces depot.old depot.new) (streams_of K.told K.faults E.told E.faults out.old out.new err.old err.new) result }
    ensures line { TellsLine (Some (Simulate (simulation_of asked.now))) (boxes_of called watch named times probes.items timings.items) (streams_of K.told K.faults E.told E.faults out.old out.new err.old err.new) result }
    ensures adds { Adds (E.told err.old) (E.told err.new) (E.faults err.old) (E.faults err.new) }
    ensures nothing { is_of_run result ≡ false → K.told out.new ≡ K.told out.old }
    ensures reads_never_fall { D.failed_reads depot.old ≤ D.failed_reads depot.new }
    ensures replaces_never_fall { D.failed_replaces depot.old ≤ D.failed_replaces depot.new }
    ensures out_never_falls { K.faults out.old ≤ K.faults out.new }
{
    let timing = match timing_of(timings, asked.timing) {
        Some(timing) => timing,
        None => return no_box(err, asked.timing),
    };
    match probes_of(alloc, probes, asked.probe) {
        Ok(probes) => simulate(alloc, depot, out, err, asked, timing, probes),
        Err(status) => no_probe(err, asked.probe, status),
    }
}
