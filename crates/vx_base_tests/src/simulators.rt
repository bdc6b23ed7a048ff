// A run of a small program in parts, with a probe, and into a sink that is full.

ghost use Rattle.std.specs.Prelude.{◌≡◌, false, IfOk};

use std::alloc::{AllocError, Global};
use std::test::Fail;
use vx_base::outcome::NoMemory;
use vx_io::sink::MemSink;
use vx_isa::program::WordProgram;
use vx_isa::sound;
use vx_machine::Machine;
use vx_probe::{Early, Late, Probe, Timing, WordCount};
use vx_reader::read;
use vx_sim::{Ended, Sim};

/// The product is there a word later under one timing, and not under the other.
const PRODUCT: &[u8] =
    b".vexwords 1\n.memory 0\nc0 mov $r0.4 = 7\n;;\nc0 mpylu $r0.3 = $r0.4, 5\n;;\nc0 outd $r0.3\n;;\nc0 halt 0\n;;\n.end\n";

fn product(alloc: Global) -> Result<WordProgram, NoMemory> {
    match read(alloc, PRODUCT) {
        Ok(program) => Ok(program),
        Err(_) => Err(NoMemory),
    }
}

fn started(alloc: Global, program: WordProgram) -> Result<Sim, NoMemory>
    ensures { IfOk result (λ sim. sim.ended ≡ false) }
{
    if !sound(&program) {
        return Err(NoMemory);
    }
    Sim::start(alloc, program, Machine::vex(1), Vec::new(alloc))
}

/// A simulator of the product.
fn simulator(alloc: Global) -> Result<Sim, NoMemory>
    ensures { IfOk result (λ sim. sim.ended ≡ false) }
{
    let program = product(alloc)?;
    started(alloc, program)
}

fn early(alloc: Global) -> Result<Box<dyn Timing>, AllocError> {
    let timing: Box<dyn Timing> = Box::new(alloc, Early::make())?;
    Ok(timing)
}

fn late(alloc: Global) -> Result<Box<dyn Timing>, AllocError> {
    let timing: Box<dyn Timing> = Box::new(alloc, Late::make())?;
    Ok(timing)
}

fn counting(alloc: Global) -> Result<Vec<Box<dyn Probe>>, AllocError> {
    let mut probes: Vec<Box<dyn Probe>> = Vec::new(alloc);
    let count: Box<dyn Probe> = Box::new(alloc, WordCount::make())?;
    probes.push(count)?;
    Ok(probes)
}

fn reports(probes: &[Box<dyn Probe>], wanted: &[u8]) -> bool {
    let mut line = [0u8; 80];
    match probes {
        [probe] => {
            let length = probe.report(&mut line);
            &line[..length] == wanted
        }
        _ => false,
    }
}

fn ends(
    sim: &mut Sim,
    out: &mut MemSink,
    timing: &mut Box<dyn Timing>,
    probes: &mut Vec<Box<dyn Probe>>,
) -> bool
    requires { sim.old.ended ≡ false }
{
    sim.run(4, out, timing, probes) == Ended::Halted(0)
        && out.bytes() == b"35".as_slice()
        && sim.ended()
        && sim.issued() == 4
}

// The product lands one cycle after its issue, and is printed.
#[test]
fn a_run_to_the_end(rt: HostRuntime) -> Result<(), Fail> {
    let alloc = rt.alloc();
    let mut timing = early(alloc)?;
    let mut probes = counting(alloc)?;
    let mut out = MemSink::make(alloc, 10, Vec::new(alloc))?;
    let mut sim = simulator(alloc)?;
    assert!(rt; ends(&mut sim, &mut out, &mut timing, &mut probes));
    assert!(rt; reports(probes.as_slice(), b"words 4 cycles 4"));
    Ok(())
}

/// Whether three words do not end the program, and a fourth one does.
fn ends_later(
    sim: &mut Sim,
    out: &mut MemSink,
    timing: &mut Box<dyn Timing>,
    probes: &mut Vec<Box<dyn Probe>>,
) -> bool
    requires { sim.old.ended ≡ false }
{
    let stopped = sim.run(3, out, timing, probes) == Ended::Stopped && !sim.ended();
    stopped
        && out.bytes() == b"0".as_slice()
        && sim.run(1, out, timing, probes) == Ended::Halted(0)
        && sim.issued() == 4
}

// It lands two cycles after its issue, and the register is printed before.
#[test]
fn a_run_in_two_parts(rt: HostRuntime) -> Result<(), Fail> {
    let alloc = rt.alloc();
    let mut timing = late(alloc)?;
    let mut probes = Vec::new(alloc);
    let mut out = MemSink::make(alloc, 10, Vec::new(alloc))?;
    let mut sim = simulator(alloc)?;
    assert!(rt; ends_later(&mut sim, &mut out, &mut timing, &mut probes));
    Ok(())
}

/// Whether a sink of one byte ends the run, at the third word, which is not counted then.
fn fails(
    sim: &mut Sim,
    out: &mut MemSink,
    timing: &mut Box<dyn Timing>,
    probes: &mut Vec<Box<dyn Probe>>,
) -> bool
    requires { sim.old.ended ≡ false }
{
    sim.run(9, out, timing, probes) == Ended::SinkFault
        && out.bytes() == b"3".as_slice()
        && sim.issued() == 2
}

#[test]
fn a_run_into_a_full_sink(rt: HostRuntime) -> Result<(), Fail> {
    let alloc = rt.alloc();
    let mut timing = early(alloc)?;
    let mut probes = Vec::new(alloc);
    let mut out = MemSink::make(alloc, 1, Vec::new(alloc))?;
    let mut sim = simulator(alloc)?;
    assert!(rt; fails(&mut sim, &mut out, &mut timing, &mut probes));
    Ok(())
}
