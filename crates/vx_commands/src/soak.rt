// The command `soak SEED SIZE`: makes a source, compiles it for the default machine by no counts, runs its words on the empty
// input, and puts one line that says how much there was of everything (specs/Soaked.antt).

ghost use Rattle.std.specs.Prelude.{◌≡◌, ◌≤◌, List, [], true, false, length, Some, IfOk};
ghost use Rattle.vx_ast.specs.View as view;
ghost use Rattle.vx_isa.specs.Sound.{is_sound};
ghost use Rattle.vx_sim.specs.Ran.{is_fault};
ghost use Rattle.vx_files.specs.Effects.{Effect};
ghost use Rattle.vx_command.specs.Asked.{soaking_of};
ghost use Rattle.vx_runs.specs.Boxes.{ProbeBox, timing_boxes};
ghost use Rattle.vx_command.specs.Command.{Soak};
ghost use Rattle.vx_runs.specs.Ending.{loaded_of};
ghost use Rattle.vx_runs.specs.Simulated.{streams_of, with_input};
ghost use Rattle.vx_commands.specs.Soaked.{SoakedAnswers};
ghost use Rattle.vx_runs.specs.Summary.{puts_summary};
ghost use Rattle.vx_runs.specs.Reading.{OnlyReads};
ghost use Rattle.vx_commands.specs.Performed.{Performed};
ghost use Rattle.vx_commands.specs.SoakSteps.{IsMade, IsMadeFrom, SoakRan};
ghost use Rattle.vx_status.specs.Status.{Adds, Tells, status_line};

use std::alloc::Global;
use vx_ast::typed::Typed;
use vx_base::outcome::NoMemory;
use vx_command::SoakWords;
use vx_compiled::{CompiledProgram, SizedProgram, WordCompiler};
use vx_io::sink::Sink;
use vx_machine::Machine;
use vx_probe::Timing;
use vx_profile::counts::Counts;
use vx_runs::soak_run::{ProgramSizes, SoakReport, line_of, program_made, put_end, run_made};
use vx_runs::{LoadedFiles, no_box, timing_of};
use vx_status::{Status, tell};
use vx_types::discard;

/// How many operations may be copied.
const GROWTH: u32 = 4000;

/// The name of the timing.
const TIMING: &str = "late";

/// Words that are made.
#[derive(Drop)]
struct MadeWords {
    loaded: LoadedFiles,
    sizes: ProgramSizes,
}

/// How much there is of a compiled program.
fn sizes_of(sized: &SizedProgram) -> ProgramSizes
    ensures { result ≡ record { functions = sized.now.size.functions; blocks = sized.now.size.blocks; traces = length sized.now.compiled.plan.traces; words = length sized.now.compiled.words.words; copies = sized.now.compiled.plan.copies } }
{
    ProgramSizes {
        functions: u64::from(sized.size.functions),
        blocks: u64::from(sized.size.blocks),
        traces: sized.compiled.plan.traces.len() as u64,
        words: sized.compiled.words.words.len() as u64,
        copies: u64::from(sized.compiled.plan.copies),
    }
}

/// The words of a compiled program, with the empty input.
fn loaded_with(alloc: Global, compiled: CompiledProgram, machine: Machine) -> LoadedFiles
    requires { is_sound compiled.words ≡ true }
    ensures { loaded_of result ≡ with_input compiled.words machine [] }
{
    let program = compiled.words;
    drop(compiled.plan);
    LoadedFiles {
        program,
        machine,
        input: Vec::new(alloc),
    }
}

/// The words of a program.
fn words_of<C: WordCompiler>(
    alloc: Global,
    compiler: &C,
    program: &Typed,
) -> Result<MadeWords, NoMemory>
    ensures { IfOk result (λ made. IsMadeFrom (view.program_of program.now.program) (loaded_of made.loaded) made.sizes) }
{
    let counts = Counts::new(alloc);
    let machine = Machine::vex(1);
    let sized = compiler.compile_sized(alloc, program, &counts, &machine, GROWTH)?;
    let sizes = sizes_of(&sized);
    let loaded = loaded_with(alloc, sized.compiled, machine);
    Ok(MadeWords { loaded, sizes })
}

/// The words of the source that a seed and a size give.
fn words_made<C: WordCompiler>(
    alloc: Global,
    compiler: &C,
    seed: u64,
    size: u32,
) -> Result<MadeWords, NoMemory>
    requires some { 1 ≤ size }
    requires small { size ≤ 10000 }
    ensures { IfOk result (λ made. IsMade (record { seed = seed; size = size }) (loaded_of made.loaded) made.sizes) }
{
    let program = program_made(alloc, seed, size)?;
    let made = words_of(alloc, compiler, &program);
    discard(program);
    made
}

/// Makes words, runs them, and writes the line of the run.
fn soaked<C: WordCompiler>(
    alloc: Global,
    compiler: &C,
    asked: &SoakWords,
    timing: Box<dyn Timing>,
) -> Result<SoakReport, NoMemory>
    ensures { IfOk result (λ report. is_fault report.ended ≡ false → SoakRan (soaking_of asked.now) (times timing) report.ended report.line.items) }
{
    let made = words_made(alloc, compiler, asked.seed, asked.size)?;
    let sizes = made.sizes;
    let summed = run_made(alloc, made.loaded, timing)?;
    let line = line_of(alloc, sizes, summed.sum, summed.end.issued)?;
    Ok(SoakReport {
        ended: summed.end.ended,
        line,
    })
}

/// Does what the words of `soak` ask for, with this timing.
fn soak_with<C: WordCompiler, K: Sink, E: Sink>(
    alloc: Global,
    compiler: &C,
    out: &mut K,
    err: &mut E,
    asked: &SoakWords,
    timing: Box<dyn Timing>,
) -> Status
    ensures answers { SoakedAnswers (soaking_of asked.now) (streams_of K.told K.faults E.told E.faults out.old out.new err.old err.new) result (record { times = times timing; watches = [] }) }
    ensures tells { Tells (status_line result) (E.told err.old) (E.told err.new) (E.faults err.old) (E.faults err.new) }
    ensures adds { Adds (E.told err.old) (E.told err.new) (E.faults err.old) (E.faults err.new) }
    ensures nothing { puts_summary result ≡ false → K.told out.new ≡ K.told out.old }
    ensures out_never_falls { K.faults out.old ≤ K.faults out.new }
{
    match soaked(alloc, compiler, asked, timing) {
        Ok(report) => put_end(out, err, &report),
        Err(_) => tell(err, Status::NoMemory),
    }
}

/// Does what the words of `soak` ask for, with the first timing that is called `late`.
pub(crate) fn soak<C: WordCompiler, K: Sink, E: Sink>(
    alloc: Global,
    compiler: &C,
    out: &mut K,
    err: &mut E,
    asked: &SoakWords,
    timings: Vec<Box<dyn Timing>>,
) -> Status
    ensures { ((e : Effect) (probes : List ProbeBox) → OnlyReads e → Performed (Some (Soak (soaking_of asked.now))) (record { probes = probes; timings = timing_boxes named times timings.items }) e (streams_of K.told K.faults E.told E.faults out.old out.new err.old err.new) result) }
{
    match timing_of(timings, TIMING) {
        Some(timing) => soak_with(alloc, compiler, out, err, asked, timing),
        None => no_box(err, TIMING),
    }
}
