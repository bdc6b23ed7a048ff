// One call of the compiler over files and outputs in memory.

use crate::files::{Stored, depot_of, words_of};
use crate::halt::Halt;
use crate::rows::Step;
use crate::sheet::{Boxes, Faulty, Statement, Stream};
use std::alloc::{AllocError, Global};
use vx_driver::top::vexc;
use vx_io::depot::Depot;
use vx_io::sink::{MemSink, Sink};
use vx_probe::{Cyclic, Early, Late, Probe, Timing, UnitUse, WordCount};
use vx_test_files::depot::MemDepot;

/// What a call left.
#[derive(Drop)]
pub struct Outcome {
    /// Its status.
    pub status: u8,
    /// The files.
    pub depot: MemDepot,
    /// The output.
    pub out: MemSink,
    /// The errors.
    pub err: MemSink,
}

/// Calls the compiler with these timings and the probes that are in the boxes.
fn call_timed<D: Depot, K: Sink, E: Sink>(
    alloc: Global,
    words: &[String],
    boxes: Boxes,
    timings: Vec<Box<dyn Timing>>,
    depot: &mut D,
    out: &mut K,
    err: &mut E,
) -> Result<u8, AllocError> {
    let mut probes = Vec::new(alloc);
    if boxes.units {
        let units: Box<dyn Probe> = Box::new(alloc, UnitUse::make())?;
        probes.push(units)?;
    }
    if boxes.words {
        let count: Box<dyn Probe> = Box::new(alloc, WordCount::make())?;
        probes.push(count)?;
    }
    Ok(vexc(alloc, words, depot, out, err, probes, timings).number())
}

/// Calls the compiler with these boxes, over files and outputs of any kind. What makes a box must not hand it out, so the call is made
/// where the last box is there.
fn call<D: Depot, K: Sink, E: Sink>(
    alloc: Global,
    words: &[String],
    boxes: Boxes,
    depot: &mut D,
    out: &mut K,
    err: &mut E,
) -> Result<u8, AllocError> {
    let mut timings = Vec::new(alloc);
    if boxes.late {
        let late: Box<dyn Timing> = Box::new(alloc, Late::make())?;
        timings.push(late)?;
    }
    if boxes.early {
        let early: Box<dyn Timing> = Box::new(alloc, Early::make())?;
        timings.push(early)?;
    }
    if boxes.cyclic {
        let numbers = Vec::from_slice(alloc, &[1, 2, 3])?;
        let cyclic: Box<dyn Timing> = Box::new(alloc, Cyclic::make(numbers))?;
        timings.push(cyclic)?;
    }
    call_timed(alloc, words, boxes, timings, depot, out, err)
}

/// An empty output, as a step wants it.
fn sink_of(alloc: Global, step: &Step<'_>, stream: Stream) -> Result<MemSink, Halt> {
    let failing = Vec::from_slice(alloc, step.failing(Faulty::Sink(stream)))?;
    Ok(MemSink::make(alloc, step.room(stream), failing)?)
}

/// Makes a call of a step that finds these files.
pub(crate) fn outcome_of(
    alloc: Global,
    step: &Step<'_>,
    statement: &Statement,
    files: &[Stored],
) -> Result<Outcome, Halt> {
    let mut depot = depot_of(alloc, files, step.failing(Faulty::Depot))?;
    let mut out = sink_of(alloc, step, Stream::Out)?;
    let mut err = sink_of(alloc, step, Stream::Err)?;
    let words = words_of(statement);
    let status = call(alloc, words, step.boxes(), &mut depot, &mut out, &mut err)?;
    Ok(Outcome {
        status,
        depot,
        out,
        err,
    })
}
