// The command `compile SRC OUT`: reads a source and rewrites what is asked of it, reads a profile and a machine, compiles, and replaces
// the file of the words, and then that of the report where one is asked.

ghost use Rattle.std.specs.Prelude.{◌≡◌, ◌≤◌, ◌⊎◌, Ok, true, is_some, option_map, IfOk};
ghost use Rattle.vx_ast.specs.View as view;
ghost use Rattle.vx_files.specs.Effects.{effect_of};
ghost use Rattle.vx_commands.specs.Answers.{CompileAnswers, PutsTexts, MachineOrTexts, ProgramAnswers};
ghost use Rattle.vx_command.specs.Asked.{compilation_of};
ghost use Rattle.vx_compiled.specs.Sized.{MakesTexts};
ghost use Rattle.vx_report.specs.Report.{names_of, report_text};
ghost use Rattle.vx_words.specs.Spelling.{Spells};
ghost use Rattle.vx_isa.specs.Sound.{is_sound};

use std::alloc::Global;
use vx_ast::typed::Typed;
use vx_base::outcome::NoMemory;
use vx_command::CompileWords;
use vx_compiled::{CompiledProgram, WordCompiler};
use vx_files::{counts_for, machine_for};
use vx_io::depot::Depot;
use vx_machine::Machine;
use vx_profile::counts::Counts;
use vx_report::{Plan, report};
use vx_rewrite::FlowOptions;
use vx_runs::rewritten::read_rewritten;
use vx_runs::texts::write_texts;
use vx_status::Status;
use vx_types::discard;
use vx_words::write;

/// The text of the words of a program, and that of the report, which is empty where none is asked.
#[derive(Drop)]
struct Texts {
    words: Vec<u8>,
    report: Vec<u8>,
}

/// The text of a report, where one is asked.
fn report_for(alloc: Global, plan: &Plan, program: &Typed, asked: bool) -> Result<Vec<u8>, NoMemory>
    ensures { IfOk result (λ text. asked ≡ true → text.items ≡ report_text plan.now (names_of (view.program_of program.now.program))) }
{
    if asked {
        report(alloc, plan, program)
    } else {
        Ok(Vec::new(alloc))
    }
}

/// The texts of a compiled program.
fn texts_in(
    alloc: Global,
    program: &Typed,
    compiled: &CompiledProgram,
    reports: bool,
) -> Result<Texts, NoMemory>
    requires { is_sound compiled.now.words ≡ true }
    ensures words { IfOk result (λ texts. Spells texts.words.items compiled.now.words) }
    ensures report { IfOk result (λ texts. reports ≡ true → texts.report.items ≡ report_text compiled.now.plan (names_of (view.program_of program.now.program))) }
{
    let words = write(alloc, &compiled.words)?;
    let report = report_for(alloc, &compiled.plan, program, reports)?;
    Ok(Texts { words, report })
}

/// The texts of a program, by counts and for a machine.
fn texts_of<C: WordCompiler>(
    alloc: Global,
    compiler: &C,
    program: &Typed,
    counts: &Counts,
    machine: &Machine,
    growth: u32,
    options: FlowOptions,
    reports: bool,
) -> Result<Texts, NoMemory>
    ensures { IfOk result (λ texts. MakesTexts (view.program_of program.now.program) counts.now machine.now growth options.inline options.select reports texts.words.items texts.report.items) }
{
    let compiled = compiler.compile(alloc, program, counts, machine, growth, options)?;
    let texts = texts_in(alloc, program, &compiled, reports);
    drop(compiled);
    texts
}

/// Writes the texts of a program that was read from the source's file for a machine that the command asks for.
fn compile_for<C: WordCompiler, D: Depot>(
    alloc: Global,
    compiler: &C,
    depot: &mut D,
    program: &Typed,
    counts: &Counts,
    machine: &Machine,
    asked: &CompileWords,
) -> Status
    ensures answers { ((result ≡ Status.NoMemory) × (D.files depot.new ≡ D.files depot.old)) ⊎ PutsTexts (view.program_of program.now.program) counts.now machine.now asked.now.growth asked.now.rewriting.inline asked.now.rewriting.select asked.now.out.now (option_map (λ s. s.now) asked.now.report) (effect_of D.files D.failed_reads D.failed_replaces depot.old depot.new) result }
    ensures reads_never_fall { D.failed_reads depot.old ≤ D.failed_reads depot.new }
    ensures replaces_never_fall { D.failed_replaces depot.old ≤ D.failed_replaces depot.new }
{
    let options = FlowOptions {
        inline: asked.rewriting.inline,
        select: asked.rewriting.select,
    };
    match texts_of(
        alloc,
        compiler,
        program,
        counts,
        machine,
        asked.growth,
        options,
        asked.report.is_some(),
    ) {
        Ok(texts) => write_texts(
            depot,
            asked.out,
            texts.words.as_slice(),
            asked.report,
            texts.report.as_slice(),
        ),
        Err(_) => Status::NoMemory,
    }
}

/// Writes the texts of a program that was read from the source's file, by counts and for the machine of the command.
fn compile_by<C: WordCompiler, D: Depot>(
    alloc: Global,
    compiler: &C,
    depot: &mut D,
    program: &Typed,
    counts: &Counts,
    asked: &CompileWords,
) -> Status
    ensures answers { MachineOrTexts (view.program_of program.now.program) counts.now (compilation_of asked.now) (effect_of D.files D.failed_reads D.failed_replaces depot.old depot.new) result }
    ensures reads_never_fall { D.failed_reads depot.old ≤ D.failed_reads depot.new }
    ensures replaces_never_fall { D.failed_replaces depot.old ≤ D.failed_replaces depot.new }
{
    match machine_for(alloc, depot, asked.machine) {
        Ok(machine) => compile_for(alloc, compiler, depot, program, counts, &machine, asked),
        Err(status) => status,
    }
}

/// Writes the texts of a program that was read from the source's file, by the profile and for the machine of the command.
fn compile_read<C: WordCompiler, D: Depot>(
    alloc: Global,
    compiler: &C,
    depot: &mut D,
    program: &Typed,
    asked: &CompileWords,
) -> Status
    ensures answers { ProgramAnswers (view.program_of program.now.program) (compilation_of asked.now) (effect_of D.files D.failed_reads D.failed_replaces depot.old depot.new) result }
    ensures reads_never_fall { D.failed_reads depot.old ≤ D.failed_reads depot.new }
    ensures replaces_never_fall { D.failed_replaces depot.old ≤ D.failed_replaces depot.new }
{
    match counts_for(alloc, depot, asked.profile) {
        Ok(counts) => compile_by(alloc, compiler, depot, program, &counts, asked),
        Err(status) => status,
    }
}

/// Compiles the file of the source, rewritten as asked, into the file of the output, and reports the plan in a file where one is named.
pub(crate) fn compile<C: WordCompiler, D: Depot>(
    alloc: Global,
    compiler: &C,
    depot: &mut D,
    asked: &CompileWords,
) -> Status
    ensures answers { CompileAnswers (compilation_of asked.now) (effect_of D.files D.failed_reads D.failed_replaces depot.old depot.new) result }
    ensures reads_never_fall { D.failed_reads depot.old ≤ D.failed_reads depot.new }
    ensures replaces_never_fall { D.failed_replaces depot.old ≤ D.failed_replaces depot.new }
{
    match read_rewritten(alloc, depot, asked.source, asked.rewriting) {
        Ok(program) => {
            let status = compile_read(alloc, compiler, depot, &program, asked);
            discard(program);
            status
        }
        Err(status) => status,
    }
}
