// The command `exec SRC`: reads a source and rewrites what is asked of it, reads a profile, a machine and an input, compiles the source,
// runs its words with the boxes that are asked for, and puts how the run ended and how many words it issued.

ghost use Rattle.std.specs.Prelude.{◌≡◌, ◌⊎◌, ◌<◌, true, length, map, option_map, is_some, All, IfOk, IfErr};
ghost use Rattle.vx_base.specs.Arithmetic.{IsNumber};
ghost use Rattle.vx_ast.specs.View as view;
ghost use Rattle.vx_files.specs.Effects.{effect_of, InputAnswers};
ghost use Rattle.vx_command.specs.Command.{Execute};
ghost use Rattle.vx_command.specs.Asked.{execution_of};
ghost use Rattle.vx_runs.specs.Boxes.{boxes_of};
ghost use Rattle.vx_runs.specs.Ending.{loaded_of};
ghost use Rattle.vx_runs.specs.Simulated.{streams_of};
ghost use Rattle.vx_commands.specs.Executed.{Prepared};
ghost use Rattle.vx_commands.specs.Loading.{LoadedInput, LoadedMachine, LoadedProfile, LoadedWords};
ghost use Rattle.vx_runs.specs.Reading.{OnlyReads};
ghost use Rattle.vx_commands.specs.Performed.{ExecutionPerformed, Performed};
ghost use Rattle.vx_commands.specs.Stopping.{AfterSource, LaterStops, StopsBefore};

use std::alloc::Global;
use vx_ast::typed::Typed;
use vx_command::ExecWords;
use vx_compiled::WordCompiler;
use vx_files::{counts_for, input_for, machine_for};
use vx_io::depot::Depot;
use vx_io::sink::Sink;
use vx_machine::Machine;
use vx_probe::{Probe, Timing};
use vx_profile::counts::Counts;
use vx_rewrite::FlowOptions;
use vx_runs::rewritten::read_rewritten;
use vx_runs::{LoadedFiles, no_box, no_probe, probes_of, run_loaded, timing_of};
use vx_status::{Status, tell};
use vx_types::discard;

/// Compiles a program that was read, by counts and for a machine and beside an input that were read.
fn load_words<C: WordCompiler>(
    alloc: Global,
    compiler: &C,
    program: &Typed,
    counts: &Counts,
    machine: Machine,
    growth: u32,
    options: FlowOptions,
    input: Vec<i32>,
) -> Result<LoadedFiles, Status>
    requires { All IsNumber input.items }
    ensures loaded { IfOk result (λ loaded. LoadedWords (view.program_of program.now.program) counts.now growth options.inline options.select machine input.items (loaded_of loaded)) }
    ensures memory { IfErr result (λ status. status ≡ Status.NoMemory) }
{
    match compiler.compile(alloc, program, counts, &machine, growth, options) {
        Ok(compiled) => {
            let words = compiled.words;
            drop(compiled.plan);
            Ok(LoadedFiles {
                program: words,
                machine,
                input,
            })
        }
        Err(_) => Err(Status::NoMemory),
    }
}

/// Reads the input for a program, counts and a machine that were read before, and compiles.
fn load_input<C: WordCompiler, D: Depot>(
    alloc: Global,
    compiler: &C,
    depot: &mut D,
    program: &Typed,
    counts: &Counts,
    machine: Machine,
    growth: u32,
    options: FlowOptions,
    name: Option<&str>,
) -> Result<LoadedFiles, Status>
    ensures only_reads { OnlyReads (effect_of D.files D.failed_reads D.failed_replaces depot.old depot.new) }
    ensures loaded { IfOk result (λ loaded. LoadedInput (view.program_of program.now.program) counts.now growth options.inline options.select machine (D.files depot.old) (option_map (λ s. s.now) name.entry) (loaded_of loaded)) }
    ensures stops { IfErr result (λ status. (status ≡ Status.NoMemory) ⊎ ((is_some (option_map (λ s. s.now) name.entry) ≡ true) × InputAnswers (option_map (λ s. s.now) name.entry) (effect_of D.files D.failed_reads D.failed_replaces depot.old depot.new) status)) }
{
    match input_for(alloc, depot, name) {
        Ok(input) => load_words(
            alloc, compiler, program, counts, machine, growth, options, input,
        ),
        Err(status) => Err(status),
    }
}

/// Reads the machine and the input for a program and counts that were read before, and compiles.
fn load_machine<C: WordCompiler, D: Depot>(
    alloc: Global,
    compiler: &C,
    depot: &mut D,
    program: &Typed,
    counts: &Counts,
    machine: Option<&str>,
    growth: u32,
    options: FlowOptions,
    input: Option<&str>,
) -> Result<LoadedFiles, Status>
    ensures only_reads { OnlyReads (effect_of D.files D.failed_reads D.failed_replaces depot.old depot.new) }
    ensures loaded { IfOk result (λ loaded. LoadedMachine (view.program_of program.now.program) counts.now growth options.inline options.select (D.files depot.old) (option_map (λ s. s.now) machine.entry) (option_map (λ s. s.now) input.entry) (loaded_of loaded)) }
    ensures stops { IfErr result (LaterStops (option_map (λ s. s.now) machine.entry) (option_map (λ s. s.now) input.entry) (effect_of D.files D.failed_reads D.failed_replaces depot.old depot.new)) }
{
    match machine_for(alloc, depot, machine) {
        Ok(machine) => load_input(
            alloc, compiler, depot, program, counts, machine, growth, options, input,
        ),
        Err(status) => Err(status),
    }
}

/// Reads the profile, the machine and the input for a program that was read before, and compiles.
fn load_profile<C: WordCompiler, D: Depot>(
    alloc: Global,
    compiler: &C,
    depot: &mut D,
    program: &Typed,
    profile: Option<&str>,
    machine: Option<&str>,
    growth: u32,
    options: FlowOptions,
    input: Option<&str>,
) -> Result<LoadedFiles, Status>
    ensures only_reads { OnlyReads (effect_of D.files D.failed_reads D.failed_replaces depot.old depot.new) }
    ensures loaded { IfOk result (λ loaded. LoadedProfile (view.program_of program.now.program) growth options.inline options.select (D.files depot.old) (option_map (λ s. s.now) profile.entry) (option_map (λ s. s.now) machine.entry) (option_map (λ s. s.now) input.entry) (loaded_of loaded)) }
    ensures stops { IfErr result (AfterSource (option_map (λ s. s.now) profile.entry) (option_map (λ s. s.now) machine.entry) (option_map (λ s. s.now) input.entry) (effect_of D.files D.failed_reads D.failed_replaces depot.old depot.new)) }
{
    match counts_for(alloc, depot, profile) {
        Ok(counts) => load_machine(
            alloc, compiler, depot, program, &counts, machine, growth, options, input,
        ),
        Err(status) => Err(status),
    }
}

/// Reads the source and rewrites what is asked of it, reads the profile, the machine and the input, each whole before the next, and
/// compiles.
fn load<C: WordCompiler, D: Depot>(
    alloc: Global,
    compiler: &C,
    depot: &mut D,
    asked: &ExecWords,
) -> Result<LoadedFiles, Status>
    ensures only_reads { OnlyReads (effect_of D.files D.failed_reads D.failed_replaces depot.old depot.new) }
    ensures loaded { IfOk result (λ loaded. Prepared (execution_of asked.now) (effect_of D.files D.failed_reads D.failed_replaces depot.old depot.new) (loaded_of loaded)) }
    ensures stops { IfErr result (StopsBefore (execution_of asked.now) (effect_of D.files D.failed_reads D.failed_replaces depot.old depot.new)) }
{
    match read_rewritten(alloc, depot, asked.run.file, asked.rewriting) {
        Ok(program) => {
            let options = FlowOptions {
                inline: asked.rewriting.inline,
                select: asked.rewriting.select,
            };
            let loaded = load_profile(
                alloc,
                compiler,
                depot,
                &program,
                asked.profile,
                asked.run.machine,
                asked.growth,
                options,
                asked.run.input,
            );
            discard(program);
            loaded
        }
        Err(status) => Err(status),
    }
}

/// Runs the words of a source with the boxes that were asked for.
fn execute<C: WordCompiler, D: Depot, K: Sink, E: Sink>(
    alloc: Global,
    compiler: &C,
    depot: &mut D,
    out: &mut K,
    err: &mut E,
    asked: &ExecWords,
    timing: Box<dyn Timing>,
    probes: Vec<Box<dyn Probe>>,
) -> Status
    requires wanted { 0 < length probes.items → is_some asked.now.run.probe ≡ true }
    ensures { ExecutionPerformed (execution_of asked.now) (record { times = times timing; watches = map (λ b. watch b) probes.items }) (effect_of D.files D.failed_reads D.failed_replaces depot.old depot.new) (streams_of K.told K.faults E.told E.faults out.old out.new err.old err.new) result }
{
    match load(alloc, compiler, depot, asked) {
        Ok(loaded) => run_loaded(
            alloc,
            loaded,
            asked.run.budget,
            true,
            out,
            err,
            timing,
            probes,
        ),
        Err(status) => {
            drop(probes);
            tell(err, status)
        }
    }
}

/// Runs the words of a source with the first boxes that have the names that are asked for.
pub(crate) fn execute_with<C: WordCompiler, D: Depot, K: Sink, E: Sink>(
    alloc: Global,
    compiler: &C,
    depot: &mut D,
    out: &mut K,
    err: &mut E,
    asked: &ExecWords,
    probes: Vec<Box<dyn Probe>>,
    timings: Vec<Box<dyn Timing>>,
) -> Status
    ensures { Performed (Some (Execute (execution_of asked.now))) (boxes_of called watch named times probes.items timings.items) (effect_of D.files D.failed_reads D.failed_replaces depot.old depot.new) (streams_of K.told K.faults E.told E.faults out.old out.new err.old err.new) result }
{
    let timing = match timing_of(timings, asked.run.timing) {
        Some(timing) => timing,
        None => {
            drop(probes);
            return no_box(err, asked.run.timing);
        }
    };
    match probes_of(alloc, probes, asked.run.probe) {
        Ok(probes) => execute(alloc, compiler, depot, out, err, asked, timing, probes),
        Err(status) => no_probe(err, asked.run.probe, status),
    }
}
