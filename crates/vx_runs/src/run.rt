// The run of words that were read or compiled: their output, and the lines of its end.

ghost use Rattle.std.specs.Prelude.{◌≡◌, ◌⊎◌, ◌<◌, ◌≤◌, [], true, false, length, map, option_map, IfOk, OnOk, OnErr};
ghost use Rattle.std.specs.Fmt.{signed_decimal};
ghost use Rattle.std.specs.List.{flat_map};
ghost use Rattle.vx_io.specs.Outside.{PutsFront, Rose};
ghost use Rattle.vx_sim.specs.Ran.{is_fault};
ghost use Rattle.vx_runs.specs.Boxes.{report_line};
ghost use Rattle.vx_status.specs.Status.{Adds, Puts, Tells, no_box_line, status_line};
ghost use Rattle.vx_runs.specs.Simulated.{events_within, is_of_run, streams_of, result_line};
ghost use Rattle.vx_runs.specs.Ending.{issued_line, loaded_of, status_as, end_line, told_line, ShowsLine, ShowsIssued, ShowsEnd, CutsEnd, IsHalted, RunOf, Finishes, LoadedAnswers, TellsProbe};
ghost use Rattle.vx_runs.specs.Lines.{TellsRun};

use crate::boxes::put_reports;
use crate::loaded::LoadedFiles;
use std::alloc::Global;
use vx_base::outcome::NoMemory;
use vx_io::sink::{Sink, SinkFault};
use vx_probe::{Probe, Timing};
use vx_sim::{Ended, Sim};
use vx_status::{Status, put, put_counted, put_text, tell};

/// How a run ended, and how many words it issued.
#[derive(Clone, Copy)]
pub struct RunEnd {
    /// How it ended.
    pub ended: Ended,
    /// How many words it issued: those that took effect.
    pub issued: u64,
}

/// Runs what was read, for at most so many words. Want of memory comes before the first of them.
fn run<K: Sink>(
    alloc: Global,
    loaded: LoadedFiles,
    budget: u64,
    out: &mut K,
    timing: &mut Box<dyn Timing>,
    probes: &mut Vec<Box<dyn Probe>>,
) -> Result<RunEnd, NoMemory>
    ensures ran { IfOk result (λ end. RunOf (loaded_of loaded) (times timing.old) budget (map (λ b. watch b) probes.old.items) (map (λ b. watch b) probes.new.items) (K.told out.old) (K.told out.new) end.ended) }
    ensures issued { IfOk result (λ end. is_fault end.ended ≡ false → end.issued ≡ length (events_within (loaded_of loaded) (times timing.old) budget)) }
    ensures failed { IfOk result (λ end. is_fault end.ended ≡ true → Rose (K.faults out.old) (K.faults out.new)) }
    ensures nothing { OnErr result (K.told out.new ≡ K.told out.old) }
    ensures out_never_falls { K.faults out.old ≤ K.faults out.new }
{
    let mut sim = Sim::start(alloc, loaded.program, loaded.machine, loaded.input)?;
    let ended = sim.run(budget, out, timing, probes);
    let issued = sim.issued();
    Ok(RunEnd { ended, issued })
}

/// Runs what was read, for at most so many words and without a probe. Want of memory comes before the first of them.
pub fn run_alone<K: Sink>(
    alloc: Global,
    loaded: LoadedFiles,
    budget: u64,
    out: &mut K,
    mut timing: Box<dyn Timing>,
) -> Result<RunEnd, NoMemory>
    ensures ran { IfOk result (λ end. RunOf (loaded_of loaded) (times timing) budget [] [] (K.told out.old) (K.told out.new) end.ended) }
    ensures issued { IfOk result (λ end. is_fault end.ended ≡ false → end.issued ≡ length (events_within (loaded_of loaded) (times timing) budget)) }
{
    let mut probes = Vec::new(alloc);
    run(alloc, loaded, budget, out, &mut timing, &mut probes)
}

/// Puts a signed number in decimal.
fn put_signed<E: Sink>(err: &mut E, number: i32) -> Result<(), SinkFault>
    ensures { Puts result (signed_decimal number) (E.told err.old) (E.told err.new) (E.faults err.old) (E.faults err.new) }
{
    let mut buffer = itoa::Buffer::new();
    put(err, buffer.format(number).as_bytes())
}

/// Puts the line of a result.
fn put_result<E: Sink>(err: &mut E, number: i32) -> Result<(), SinkFault>
    ensures { Puts result (result_line number) (E.told err.old) (E.told err.new) (E.faults err.old) (E.faults err.new) }
{
    put(err, b"result ")?;
    put_signed(err, number)?;
    put(err, b"\n")
}

/// Puts the line of the words that a run issued.
fn put_issued_line<E: Sink>(err: &mut E, issued: u64) -> Result<(), SinkFault>
    ensures { Puts result (issued_line issued) (E.told err.old) (E.told err.new) (E.faults err.old) (E.faults err.new) }
{
    put_counted(err, b"issued ", issued)?;
    put(err, b"\n")
}

/// The status of a run that was not cut by its sink.
fn status_of(ended: Ended) -> Status
    ensures { result ≡ status_as ended }
{
    match ended {
        Ended::Halted(_) => Status::Done,
        Ended::Trapped(trap) => Status::Trapped(trap),
        Ended::Stopped => Status::Stopped,
        Ended::Stuck(reason, place) => Status::Stuck(reason, place),
        Ended::SinkFault => Status::WriteFault,
    }
}

/// Puts the line of an end. That of a status other than Done may be lost.
fn put_ended<E: Sink>(err: &mut E, ended: Ended) -> Result<(), SinkFault>
    ensures shows { OnOk result (ShowsLine ended (E.told err.old) (E.told err.new) (E.faults err.old) (E.faults err.new)) }
    ensures wanted { OnErr result (IsHalted ended) }
    ensures part { OnErr result (PutsFront (E.told err.old) (E.told err.new) (end_line ended)) }
    ensures failed { OnErr result (Rose (E.faults err.old) (E.faults err.new)) }
    ensures adds { Adds (E.told err.old) (E.told err.new) (E.faults err.old) (E.faults err.new) }
{
    match ended {
        Ended::Halted(number) => put_result(err, number),
        ended => {
            let _ = tell(err, status_of(ended));
            Ok(())
        }
    }
}

/// Puts the line of the words that a run issued, behind an end with a result or by a trap. That behind a trap may be
/// lost.
fn put_issued<E: Sink>(err: &mut E, ended: Ended, issued: u64) -> Result<(), SinkFault>
    ensures shows { OnOk result (ShowsIssued ended (issued_line issued) (E.told err.old) (E.told err.new) (E.faults err.old) (E.faults err.new)) }
    ensures wanted { OnErr result (IsHalted ended) }
    ensures part { OnErr result (PutsFront (E.told err.old) (E.told err.new) (issued_line issued)) }
    ensures failed { OnErr result (Rose (E.faults err.old) (E.faults err.new)) }
    ensures adds { Adds (E.told err.old) (E.told err.new) (E.faults err.old) (E.faults err.new) }
{
    match ended {
        Ended::Halted(_) => put_issued_line(err, issued),
        Ended::Trapped(_) => {
            let _ = put_issued_line(err, issued);
            Ok(())
        }
        _ => Ok(()),
    }
}

/// The same where the command tells the words that were issued.
fn put_told<E: Sink>(err: &mut E, end: RunEnd, tells: bool) -> Result<(), SinkFault>
    ensures shows { OnOk result (ShowsIssued end.ended (told_line tells end.issued) (E.told err.old) (E.told err.new) (E.faults err.old) (E.faults err.new)) }
    ensures wanted { OnErr result (IsHalted end.ended) }
    ensures part { OnErr result (PutsFront (E.told err.old) (E.told err.new) (told_line tells end.issued)) }
    ensures failed { OnErr result (Rose (E.faults err.old) (E.faults err.new)) }
    ensures adds { Adds (E.told err.old) (E.told err.new) (E.faults err.old) (E.faults err.new) }
{
    if tells {
        put_issued(err, end.ended, end.issued)
    } else {
        Ok(())
    }
}

/// Puts the lines of an end that no sink cut, and the reports.
fn put_end<E: Sink>(
    err: &mut E,
    end: RunEnd,
    tells: bool,
    probes: &[Box<dyn Probe>],
) -> Result<(), SinkFault>
    requires { is_fault end.ended ≡ false }
    ensures shows { OnOk result (ShowsEnd end.ended (told_line tells end.issued) (flat_map report_line (map (λ b. watch b) probes.now)) (E.told err.old) (E.told err.new) (E.faults err.old) (E.faults err.new)) }
    ensures wanted { OnErr result (IsHalted end.ended ⊎ (0 < length probes.now)) }
    ensures cut { OnErr result (CutsEnd end.ended (told_line tells end.issued) (flat_map report_line (map (λ b. watch b) probes.now)) (E.told err.old) (E.told err.new)) }
    ensures failed { OnErr result (Rose (E.faults err.old) (E.faults err.new)) }
    ensures adds { Adds (E.told err.old) (E.told err.new) (E.faults err.old) (E.faults err.new) }
{
    put_ended(err, end.ended)?;
    put_told(err, end, tells)?;
    put_reports(err, probes)
}

/// Puts how a run ended that its sink did not cut, and answers its status, or that it could not be put.
fn finish<E: Sink>(err: &mut E, end: RunEnd, tells: bool, probes: &[Box<dyn Probe>]) -> Status
    requires { is_fault end.ended ≡ false }
    ensures finishes { Finishes end.ended (told_line tells end.issued) (flat_map report_line (map (λ b. watch b) probes.now)) (length probes.now) (E.told err.old) (E.told err.new) (E.faults err.old) (E.faults err.new) result }
    ensures adds { Adds (E.told err.old) (E.told err.new) (E.faults err.old) (E.faults err.new) }
{
    match put_end(err, end, tells, probes) {
        Ok(()) => status_of(end.ended),
        Err(_) => tell(err, Status::WriteFault),
    }
}

/// Puts how a run ended, where its sink did not cut it, and answers its status.
fn conclude<E: Sink>(err: &mut E, end: RunEnd, tells: bool, probes: &[Box<dyn Probe>]) -> Status
    ensures cut { is_fault end.ended ≡ true → result ≡ Status.WriteFault }
    ensures told { is_fault end.ended ≡ true → Tells (status_line Status.WriteFault) (E.told err.old) (E.told err.new) (E.faults err.old) (E.faults err.new) }
    ensures finishes { is_fault end.ended ≡ false → Finishes end.ended (told_line tells end.issued) (flat_map report_line (map (λ b. watch b) probes.now)) (length probes.now) (E.told err.old) (E.told err.new) (E.faults err.old) (E.faults err.new) result }
    ensures adds { Adds (E.told err.old) (E.told err.new) (E.faults err.old) (E.faults err.new) }
{
    match end.ended {
        Ended::SinkFault => tell(err, Status::WriteFault),
        _ => finish(err, end, tells, probes),
    }
}

/// Runs what was read, for at most so many words and with the boxes that were asked for, and puts how the run ended, with the words
/// that it issued where the command tells them.
pub fn run_loaded<K: Sink, E: Sink>(
    alloc: Global,
    loaded: LoadedFiles,
    budget: u64,
    tells: bool,
    out: &mut K,
    err: &mut E,
    mut timing: Box<dyn Timing>,
    mut probes: Vec<Box<dyn Probe>>,
) -> Status
    ensures answers { LoadedAnswers (loaded_of loaded) (times timing) budget tells (map (λ b. watch b) probes.items) (streams_of K.told K.faults E.told E.faults out.old out.new err.old err.new) result }
    ensures line { TellsRun (streams_of K.told K.faults E.told E.faults out.old out.new err.old err.new) result }
    ensures adds { Adds (E.told err.old) (E.told err.new) (E.faults err.old) (E.faults err.new) }
    ensures nothing { is_of_run result ≡ false → K.told out.new ≡ K.told out.old }
    ensures out_never_falls { K.faults out.old ≤ K.faults out.new }
{
    match run(alloc, loaded, budget, out, &mut timing, &mut probes) {
        Ok(end) => conclude(err, end, tells, probes.as_slice()),
        Err(_) => tell(err, Status::NoMemory),
    }
}

/// Tells that no box has a name.
pub fn no_box<E: Sink>(err: &mut E, name: &str) -> Status
    ensures usage { result ≡ Status.Usage }
    ensures line { Tells (no_box_line name.now) (E.told err.old) (E.told err.new) (E.faults err.old) (E.faults err.new) }
    ensures adds { Adds (E.told err.old) (E.told err.new) (E.faults err.old) (E.faults err.new) }
{
    let _ = put_no_box(err, name);
    Status::Usage
}

/// Puts the line of a name that no box has.
fn put_no_box<E: Sink>(err: &mut E, name: &str) -> Result<(), SinkFault>
    ensures { Puts result (no_box_line name.now) (E.told err.old) (E.told err.new) (E.faults err.old) (E.faults err.new) }
{
    put(err, b"no box ")?;
    put_text(err, name)?;
    put(err, b"\n")
}

/// Tells why there is no probe: none has the name, or memory is wanted.
pub fn no_probe<E: Sink>(err: &mut E, name: Option<&str>, status: Status) -> Status
    ensures same { result ≡ status }
    ensures line { TellsProbe (option_map (λ s. s.now) name.entry) result (E.told err.old) (E.told err.new) (E.faults err.old) (E.faults err.new) }
    ensures adds { Adds (E.told err.old) (E.told err.new) (E.faults err.old) (E.faults err.new) }
{
    match (status, name) {
        (Status::Usage, Some(name)) => no_box(err, name),
        _ => tell(err, status),
    }
}
