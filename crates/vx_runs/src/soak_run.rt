// The steps of `soak` but for the compilation: the program of a seed and a size, a run of words into memory, and the line that says how
// much there was of everything (specs/Summary.antt).

ghost use Rattle.std.specs.Prelude.{◌≡◌, ◌≤◌, ◌++◌, ℤ, [], true, false, IfOk, OnOk};
ghost use Rattle.vx_ast.specs.Reads.{Reads};
ghost use Rattle.vx_ast.specs.View as view;
ghost use Rattle.vx_gen.specs.Program.{program_text};
ghost use Rattle.vx_sim.specs.Ran.{is_fault};
ghost use Rattle.vx_sim.specs.declared.ended.Ended.TheVariants.{Halted};
ghost use Rattle.vx_runs.specs.Ending.{loaded_of};
ghost use Rattle.vx_runs.specs.Simulated.{streams_of};
ghost use Rattle.vx_runs.specs.Summary.{PutsEnd, RunEndsSo, byte_sum, line_of, puts_summary};
ghost use Rattle.vx_status.specs.Status.{Adds, Tells, counted, status_line};

use crate::{LoadedFiles, RunEnd, run_alone};
use itoa::Buffer;
use std::alloc::Global;
use vx_ast::typed::Typed;
use vx_base::outcome::NoMemory;
use vx_files::typed_of;
use vx_gen::program;
use vx_io::sink::{MemSink, Sink, put_all};
use vx_probe::Timing;
use vx_sim::Ended;
use vx_status::{Status, tell};

/// The most words that are issued.
const BUDGET: u64 = 100000000;

/// How many bytes of output have room: a source prints at most 100 lines of at most 12 bytes.
const ROOM: usize = 4096;

/// How much there is of the words that are run.
#[derive(Clone, Copy)]
pub struct ProgramSizes {
    /// How many functions.
    pub functions: u64,
    /// How many blocks of graphs.
    pub blocks: u64,
    /// How many traces of the plan.
    pub traces: u64,
    /// How many words.
    pub words: u64,
    /// How many operations were copied.
    pub copies: u64,
}

/// How their run ended, and the sum of the bytes of its output, modulo 2^32.
#[derive(Clone, Copy)]
pub struct SummedEnd {
    /// How it ended.
    pub end: RunEnd,
    /// The sum.
    pub sum: u32,
}

/// How their run ended, and the line of it.
#[derive(Drop)]
pub struct SoakReport {
    /// How it ended.
    pub ended: Ended,
    /// The bytes of the line.
    pub line: Vec<u8>,
}

/// The program of the source that a seed and a size give. None is refused, so `Err` comes only where memory runs out.
pub fn program_made(alloc: Global, seed: u64, size: u32) -> Result<Typed, NoMemory>
    requires some { 1 ≤ size }
    requires small { size ≤ 10000 }
    ensures { IfOk result (λ typed. Reads (program_text seed size) (view.program_of typed.program)) }
{
    let text = program(alloc, seed, size)?;
    match typed_of(alloc, text.as_slice()) {
        Ok(typed) => Ok(typed),
        Err(status) => {
            prove!(matches!(&status, Status::NoMemory));
            Err(NoMemory)
        }
    }
}

/// The sum of bytes, modulo 2^32.
#[tactic(auto, using(crate::proofs::Summing::one_more_byte))]
pub fn byte_sum(bytes: &[u8]) -> u32
    ensures { result ≡ byte_sum bytes.now }
{
    let mut sum: u32 = 0;
    for byte in bytes {
        sum = sum.wrapping_add(u32::from(*byte));
    }
    sum
}

/// Runs words into memory. A run whose output has no room there ends with a fault of its sink.
pub fn run_made(
    alloc: Global,
    loaded: LoadedFiles,
    timing: Box<dyn Timing>,
) -> Result<SummedEnd, NoMemory>
    ensures { IfOk result (λ x. is_fault x.end.ended ≡ false → RunEndsSo (loaded_of loaded) (times timing) x.end.ended x.end.issued x.sum) }
{
    let mut sink = MemSink::make(alloc, ROOM, Vec::new(alloc))?;
    let end = run_alone(alloc, loaded, BUDGET, &mut sink, timing)?;
    let sum = byte_sum(sink.bytes());
    Ok(SummedEnd { end, sum })
}

/// Puts bytes at the end.
fn push_bytes(line: &mut Vec<u8>, bytes: &[u8]) -> Result<(), NoMemory>
    ensures { OnOk result (line.new.items ≡ line.old.items ++ bytes.now) }
{
    line.extend_from_slice(bytes)?;
    Ok(())
}

/// Puts a name and a number in decimal at the end.
fn push_counted(line: &mut Vec<u8>, name: &[u8], number: u64) -> Result<(), NoMemory>
    ensures { OnOk result (line.new.items ≡ line.old.items ++ counted name.now number) }
{
    let mut buffer = Buffer::new();
    push_bytes(line, name)?;
    push_bytes(line, buffer.format(number).as_bytes())
}

/// Puts the line of a run into an empty list.
fn push_line(line: &mut Vec<u8>, sizes: ProgramSizes, sum: u32, issued: u64) -> Result<(), NoMemory>
    requires { line.now.items ≡ [] }
    ensures { OnOk result (line.new.items ≡ line_of sizes sum issued) }
{
    push_counted(line, b"functions ", sizes.functions)?;
    push_counted(line, b" blocks ", sizes.blocks)?;
    push_counted(line, b" traces ", sizes.traces)?;
    push_counted(line, b" words ", sizes.words)?;
    push_counted(line, b" copies ", sizes.copies)?;
    push_counted(line, b" sum ", u64::from(sum))?;
    push_counted(line, b" issued ", issued)?;
    push_bytes(line, b"\n")
}

/// The line of a run.
pub fn line_of(
    alloc: Global,
    sizes: ProgramSizes,
    sum: u32,
    issued: u64,
) -> Result<Vec<u8>, NoMemory>
    ensures { IfOk result (λ line. line.items ≡ line_of sizes sum issued) }
{
    let mut line = Vec::new(alloc);
    push_line(&mut line, sizes, sum, issued)?;
    Ok(line)
}

/// Puts the line of a run that ended with a result, and answers whether it could be put.
fn put_summary<K: Sink, E: Sink>(out: &mut K, err: &mut E, line: &[u8]) -> Status
    ensures puts { (z : ℤ) → PutsEnd (Halted z) line.now (streams_of K.told K.faults E.told E.faults out.old out.new err.old err.new) result }
    ensures tells { Tells (status_line result) (E.told err.old) (E.told err.new) (E.faults err.old) (E.faults err.new) }
    ensures adds { Adds (E.told err.old) (E.told err.new) (E.faults err.old) (E.faults err.new) }
    ensures wanted { puts_summary result ≡ true }
    ensures out_never_falls { K.faults out.old ≤ K.faults out.new }
{
    match put_all(out, line) {
        Ok(()) => Status::Done,
        Err(_) => tell(err, Status::WriteFault),
    }
}

/// Puts the line of a run that ended with a result, and answers the status of its end. No words of a source are ever stuck, and
/// output that has no room is want of memory.
pub fn put_end<K: Sink, E: Sink>(out: &mut K, err: &mut E, report: &SoakReport) -> Status
    ensures puts { PutsEnd report.now.ended report.now.line.items (streams_of K.told K.faults E.told E.faults out.old out.new err.old err.new) result }
    ensures tells { Tells (status_line result) (E.told err.old) (E.told err.new) (E.faults err.old) (E.faults err.new) }
    ensures adds { Adds (E.told err.old) (E.told err.new) (E.faults err.old) (E.faults err.new) }
    ensures nothing { puts_summary result ≡ false → K.told out.new ≡ K.told out.old }
    ensures out_never_falls { K.faults out.old ≤ K.faults out.new }
{
    match report.ended {
        Ended::Halted(_) => put_summary(out, err, report.line.as_slice()),
        Ended::Trapped(trap) => tell(err, Status::Trapped(trap)),
        Ended::Stopped => tell(err, Status::Stopped),
        _ => tell(err, Status::NoMemory),
    }
}
