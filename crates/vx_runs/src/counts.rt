// The steps of `profile`: a source and an input are read, the graphs of the source as it is rewritten are run, and the text of how often
// each block and each edge was passed is put.

ghost use Rattle.std.specs.Prelude.{◌≡◌, ◌⊎◌, ◌≤◌, true, false, option_map, is_some, IfOk, IfErr, IfSome};
ghost use Rattle.vx_ast.specs.View as view;
ghost use Rattle.vx_files.specs.Effects.{effect_of, InputAnswers};
ghost use Rattle.vx_command.specs.Asked.{profiling_of};
ghost use Rattle.vx_status.specs.Status.{Adds, Tells, status_line};
ghost use Rattle.vx_runs.specs.Simulated.{is_of_run, streams_of};
ghost use Rattle.vx_runs.specs.Reading.{OnlyReads};
ghost use Rattle.vx_runs.specs.Counting.{IsCounted, CountedOn, CountedFor, PutsText, StopsProfiling};

use crate::compiler::Compiler;
use crate::rewritten::read_rewritten;
use std::alloc::Global;
use vx_ast::typed::Typed;
use vx_base::outcome::NoMemory;
use vx_command::ProfileWords;
use vx_files::input_for;
use vx_io::depot::Depot;
use vx_io::sink::{Sink, put_all};
use vx_profile::write_counts;
use vx_rewrite::FlowOptions;
use vx_status::{Status, tell};
use vx_tally::count;
use vx_types::discard;

/// The text of the counts of a run, and whether the run is over.
#[derive(Drop)]
pub struct CountsText {
    /// The bytes of the text.
    pub text: Vec<u8>,
    /// Whether the run is over.
    pub complete: bool,
}

/// Runs the graphs of a program, with diamonds converted as it is asked, on an input, for at most so many blocks, and counts.
fn counted<C: Compiler>(
    alloc: Global,
    compiler: &C,
    program: &Typed,
    select: Option<u32>,
    input: &[i32],
    blocks: u64,
) -> Result<CountsText, NoMemory>
    requires { IfSome select (λ most. (1 ≤ most) × (most ≤ 16)) }
    ensures { IfOk result (λ counted. IsCounted (view.program_of program.now.program) select input.now blocks counted.text.items counted.complete) }
{
    let options = FlowOptions {
        inline: None,
        select,
    };
    let flow = compiler.flow_of(alloc, program, options)?;
    let counted = count(alloc, &flow, input, blocks);
    drop(flow);
    let counted = counted?;
    let text = write_counts(alloc, &counted.counts)?;
    Ok(CountsText {
        text,
        complete: counted.complete,
    })
}

/// The same, with the status of a failure.
fn counted_or<C: Compiler>(
    alloc: Global,
    compiler: &C,
    program: &Typed,
    select: Option<u32>,
    input: &[i32],
    blocks: u64,
) -> Result<CountsText, Status>
    requires { IfSome select (λ most. (1 ≤ most) × (most ≤ 16)) }
    ensures counted { IfOk result (λ counted. IsCounted (view.program_of program.now.program) select input.now blocks counted.text.items counted.complete) }
    ensures memory { IfErr result (λ status. status ≡ Status.NoMemory) }
{
    match counted(alloc, compiler, program, select, input, blocks) {
        Ok(counted) => Ok(counted),
        Err(_) => Err(Status::NoMemory),
    }
}

/// Reads the input for a program that was read before, and counts.
fn count_on<C: Compiler, D: Depot>(
    alloc: Global,
    compiler: &C,
    depot: &mut D,
    program: &Typed,
    select: Option<u32>,
    name: Option<&str>,
    blocks: u64,
) -> Result<CountsText, Status>
    requires { IfSome select (λ most. (1 ≤ most) × (most ≤ 16)) }
    ensures only_reads { OnlyReads (effect_of D.files D.failed_reads D.failed_replaces depot.old depot.new) }
    ensures counted { IfOk result (λ counted. CountedOn (view.program_of program.now.program) select (option_map (λ s. s.now) name.entry) blocks (effect_of D.files D.failed_reads D.failed_replaces depot.old depot.new) counted.text.items counted.complete) }
    ensures stops { IfErr result (λ status. (status ≡ Status.NoMemory) ⊎ ((is_some (option_map (λ s. s.now) name.entry) ≡ true) × InputAnswers (option_map (λ s. s.now) name.entry) (effect_of D.files D.failed_reads D.failed_replaces depot.old depot.new) status)) }
{
    match input_for(alloc, depot, name) {
        Ok(input) => counted_or(alloc, compiler, program, select, input.as_slice(), blocks),
        Err(status) => Err(status),
    }
}

/// Reads the source and the input, each whole and through before the next, and counts the source as it is rewritten.
pub fn count_read<C: Compiler, D: Depot>(
    alloc: Global,
    compiler: &C,
    depot: &mut D,
    asked: &ProfileWords,
) -> Result<CountsText, Status>
    ensures only_reads { OnlyReads (effect_of D.files D.failed_reads D.failed_replaces depot.old depot.new) }
    ensures counted { IfOk result (λ counted. CountedFor (profiling_of asked.now) (effect_of D.files D.failed_reads D.failed_replaces depot.old depot.new) counted.text.items counted.complete) }
    ensures stops { IfErr result (StopsProfiling (profiling_of asked.now) (effect_of D.files D.failed_reads D.failed_replaces depot.old depot.new)) }
{
    match read_rewritten(alloc, depot, asked.source, asked.rewriting) {
        Ok(program) => {
            let counted = count_on(
                alloc,
                compiler,
                depot,
                &program,
                asked.rewriting.select,
                asked.input,
                asked.blocks,
            );
            discard(program);
            counted
        }
        Err(status) => Err(status),
    }
}

/// Answers whether a run is over, with a line where it is not.
fn tell_end<E: Sink>(err: &mut E, complete: bool) -> Status
    ensures over { complete ≡ true → (result ≡ Status.Done) × (E.told err.new ≡ E.told err.old) }
    ensures stopped { complete ≡ false → result ≡ Status.Stopped }
    ensures run { is_of_run result ≡ true }
    ensures tells { Tells (status_line result) (E.told err.old) (E.told err.new) (E.faults err.old) (E.faults err.new) }
    ensures adds { Adds (E.told err.old) (E.told err.new) (E.faults err.old) (E.faults err.new) }
{
    if complete {
        Status::Done
    } else {
        tell(err, Status::Stopped)
    }
}

/// Puts the text of the counts, and answers whether the run is over, or that the text could not be put.
pub fn put_counts<K: Sink, E: Sink>(out: &mut K, err: &mut E, counted: &CountsText) -> Status
    ensures puts { PutsText counted.now.text.items counted.now.complete (streams_of K.told K.faults E.told E.faults out.old out.new err.old err.new) result }
    ensures run { is_of_run result ≡ true }
    ensures tells { Tells (status_line result) (E.told err.old) (E.told err.new) (E.faults err.old) (E.faults err.new) }
    ensures adds { Adds (E.told err.old) (E.told err.new) (E.faults err.old) (E.faults err.new) }
    ensures out_never_falls { K.faults out.old ≤ K.faults out.new }
{
    match put_all(out, counted.text.as_slice()) {
        Ok(()) => tell_end(err, counted.complete),
        Err(_) => tell(err, Status::WriteFault),
    }
}
