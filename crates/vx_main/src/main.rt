// The program `vexc`: the files and streams of the system, handed to the top call.
#![tactic(auto)]

use std::alloc::AllocError;
use std::process::ExitCode;
use std::{env, io};
use vx_driver::top::vexc;
use vx_io::real::{RealDepot, RealSink};
use vx_io::sink::Sink;
use vx_probe::{Cyclic, Early, Late, Probe, Timing, UnitUse, WordCount};
use vx_status::{Status, tell};

/// The words of the command line, the program's name first. A word that is no UTF-8 makes no command line.
fn words_of(rt: &HostRuntime) -> Result<Vec<String>, Status> {
    match env::args(rt) {
        Ok(words) => words.collect(rt.alloc()).map_err(|_| Status::NoMemory),
        Err(error) => match error.kind() {
            io::ErrorKind::OutOfMemory => Err(Status::NoMemory),
            _ => Err(Status::Usage),
        },
    }
}

/// Calls the compiler with the timings that a command may ask for, `late`, `early` and `cyclic`, which goes by the numbers 1, 2 and
/// 3, and with its probes.
fn call<K: Sink, E: Sink>(
    rt: &HostRuntime,
    words: &[String],
    out: &mut K,
    err: &mut E,
) -> Result<Status, AllocError> {
    let alloc = rt.alloc();
    let mut timings = Vec::new(alloc);
    let late: Box<dyn Timing> = Box::new(alloc, Late::make())?;
    timings.push(late)?;
    let early: Box<dyn Timing> = Box::new(alloc, Early::make())?;
    timings.push(early)?;
    let numbers = Vec::from_slice(alloc, &[1, 2, 3])?;
    let cyclic: Box<dyn Timing> = Box::new(alloc, Cyclic::make(numbers))?;
    timings.push(cyclic)?;
    call_with(rt, words, out, err, timings)
}

/// Calls it with these timings and the probes that a command may ask for, `units` and `words`.
fn call_with<K: Sink, E: Sink>(
    rt: &HostRuntime,
    words: &[String],
    out: &mut K,
    err: &mut E,
    timings: Vec<Box<dyn Timing>>,
) -> Result<Status, AllocError> {
    let alloc = rt.alloc();
    let mut probes = Vec::new(alloc);
    let units: Box<dyn Probe> = Box::new(alloc, UnitUse::make())?;
    probes.push(units)?;
    let count: Box<dyn Probe> = Box::new(alloc, WordCount::make())?;
    probes.push(count)?;
    let mut depot = RealDepot::make(rt);
    Ok(vexc(alloc, words, &mut depot, out, err, probes, timings))
}

fn main(rt: HostRuntime) -> ExitCode {
    let mut out = RealSink::make(rt.stdout());
    let mut err = RealSink::make(rt.stderr());
    let status = match words_of(&rt) {
        Ok(words) => match call(&rt, words.as_slice(), &mut out, &mut err) {
            Ok(status) => status,
            Err(_) => tell(&mut err, Status::NoMemory),
        },
        Err(status) => tell(&mut err, status),
    };
    ExitCode::from(status.number())
}
