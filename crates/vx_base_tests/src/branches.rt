// Words of two branches: whether they fit a machine, and where they lead.

use crate::programs::{program, word};
use std::alloc::{AllocError, Global};
use std::test::Fail;
use vx_base::arithmetic::{Code, Compare};
use vx_base::outcome::{NoMemory, Reason};
use vx_io::sink::MemSink;
use vx_isa::operation::{BranchRegister, Operation, Register, Source};
use vx_isa::program::WordProgram;
use vx_isa::sound;
use vx_machine::{Machine, fits};
use vx_probe::{Late, Timing};
use vx_sim::{Ended, Sim};
use vx_test_machines::{Kind, machine};

const fn branch(target: u32) -> Operation {
    Operation::BranchOn {
        test: 0,
        taken_at_one: true,
        target,
    }
}

const JUMP: Operation = Operation::Goto { target: 3 };

const fn halt(number: i32) -> Operation {
    Operation::Halt {
        from: Source::Number(number),
    }
}

/// Makes branch register 0 hold 1, two words later.
const TEST: Operation = Operation::Compute {
    cluster: 0,
    code: Code::ToBranch(Compare::Eq),
    to: Register::Branch(BranchRegister {
        cluster: 0,
        number: 0,
    }),
    left: Source::Number(0),
    right: Source::Number(0),
};

/// Whether a word of these operations fits a machine of this kind.
fn fits_kind(alloc: Global, kind: Kind, ops: &[Operation]) -> Result<bool, NoMemory> {
    let machine = machine(alloc, kind)?;
    let word = word(alloc, ops)?;
    Ok(fits(&machine, &word))
}

#[test]
fn branches_that_fit(rt: HostRuntime) -> Result<(), Fail> {
    let alloc = rt.alloc();
    assert!(rt; fits_kind(alloc, Kind::TwoBranches, &[branch(3), branch(4)])?);
    assert!(rt; !fits_kind(alloc, Kind::Vex, &[branch(3), branch(4)])?);
    assert!(rt; !fits_kind(alloc, Kind::TwoBranches, &[branch(3), JUMP])?);
    assert!(rt; !fits_kind(alloc, Kind::TwoBranches, &[branch(3), branch(4), branch(3)])?);
    Ok(())
}

/// Both branches of its third word are taken.
fn both_taken(alloc: Global, version: u32) -> Result<WordProgram, NoMemory> {
    let branches = [branch(3), branch(4)];
    let first = [halt(1)];
    let second = [halt(2)];
    let mut both = program(alloc, &[&[TEST], &[], &branches, &first, &second])?;
    both.version = version;
    Ok(both)
}

fn late(alloc: Global) -> Result<Box<dyn Timing>, AllocError> {
    let timing: Box<dyn Timing> = Box::new(alloc, Late::make())?;
    Ok(timing)
}

/// How that program of this version ends on the machine.
fn ended(alloc: Global, version: u32, machine: Machine) -> Result<Ended, NoMemory> {
    let program = both_taken(alloc, version)?;
    if !sound(&program) {
        return Err(NoMemory);
    }
    let mut timing = late(alloc)?;
    let mut probes = Vec::new(alloc);
    let mut out = MemSink::make(alloc, 10, Vec::new(alloc))?;
    let mut sim = Sim::start(alloc, program, machine, Vec::new(alloc))?;
    Ok(sim.run(9, &mut out, &mut timing, &mut probes))
}

// The first branch of the list that is taken wins, and words of version 1 have one branch on every machine.
#[test]
fn branches_that_are_taken(rt: HostRuntime) -> Result<(), Fail> {
    let alloc = rt.alloc();
    let two = machine(alloc, Kind::TwoBranches)?;
    let overfull = Ended::Stuck(Reason::Overfull, 2);
    assert!(rt; ended(alloc, 2, two)? == Ended::Halted(1));
    assert!(rt; ended(alloc, 1, two)? == overfull);
    assert!(rt; ended(alloc, 2, Machine::vex(1))? == overfull);
    assert!(rt; ended(alloc, 1, Machine::vex(1))? == overfull);
    Ok(())
}
