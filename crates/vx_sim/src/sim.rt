// The simulator: it stands at a state of the word machine and issues words.

ghost use Rattle.std.specs.Prelude.{◌≡◌, ◌≤◌, ◌*◌, [], true, map, length, IfOk};
ghost use Rattle.vx_isa.specs.Machine.{memory_at_start};
ghost use Rattle.vx_isa.specs.Sound.{is_sound};
ghost use Rattle.vx_sim.specs.Flying.{flying_of};
ghost use Rattle.vx_sim.specs.Held.{word_of};
ghost use Rattle.vx_sim.specs.Passed.{counted};
ghost use Rattle.vx_sim.specs.Room.{HasRoom, widest};
ghost use Rattle.vx_sim.specs.Shapes.{shape_of};

use crate::ended::Ended;
use crate::memory::{memory_of, ring_for};
use crate::registers::Registers;
use crate::ring::Ring;
use crate::shape::{Shape, shapes_of};
use crate::state::Standing;
use crate::steps::{Loaded, step};
use std::alloc::Global;
use vx_base::outcome::NoMemory;
use vx_io::sink::Sink;
use vx_isa::program::WordProgram;
use vx_machine::Machine;
use vx_probe::{Probe, Timing};

/// A simulator of a program of words on a machine.
#[derive(Drop)]
pub struct Sim {
    program: WordProgram,
    machine: Machine,
    shapes: Vec<Shape>,
    standing: Standing,
    ring: Ring,
    issued: u64,
    ended: bool,
    ghost sound: { is_sound program ≡ true },
    ghost tested: { shapes.items ≡ map (shape_of machine) program.words },
    ghost size: { program.memory ≡ 4 * length standing.memory.items },
    ghost room: { HasRoom (widest shapes.items) 0 ring },
}

impl Sim {
    ghost use Rattle.std.specs.Prelude.{false};
    ghost use Rattle.vx_io.specs.Outside.{Rose};
    ghost use Rattle.vx_isa.specs.Machine.{issuing_machine, start};
    ghost use Rattle.vx_sim.specs.Ran.{stands, Ran, is_fault};

    /// A simulator at the start of the program, on the machine that the program's version allows: words of version 1 have at most
    /// one branch each. It takes all memory that the run needs.
    pub fn start(
        alloc: Global,
        program: WordProgram,
        machine: Machine,
        input: Vec<i32>,
    ) -> Result<Sim, NoMemory>
        requires { is_sound program ≡ true }
        ensures stands { IfOk result (λ sim. stands sim ≡ start program input.items) }
        ensures program { IfOk result (λ sim. sim.program ≡ program) }
        ensures machine { IfOk result (λ sim. sim.machine ≡ issuing_machine program machine) }
        ensures fresh { IfOk result (λ sim. (sim.issued ≡ 0) × (sim.ended ≡ false)) }
    {
        let issuing = machine.for_version(program.version);
        let space = space_for(alloc, &program, &issuing)?;
        Ok(Sim {
            program,
            machine: issuing,
            shapes: space.shapes,
            standing: Standing {
                place: 0,
                cycle: 0,
                registers: Registers::zeros(),
                memory: space.memory,
                input,
                taken: 0,
            },
            ring: space.ring,
            issued: 0,
            ended: false,
        })
    }

    /// Whether the program has ended, is stuck, or the sink failed.
    pub fn ended(&self) -> bool
        ensures { result ≡ self.now.ended }
    {
        self.ended
    }

    /// How many words took effect since the start. It stays at the greatest `u64`.
    pub fn issued(&self) -> u64
        ensures { result ≡ self.now.issued }
    {
        self.issued
    }

    /// Issues at most so many words. It takes no memory.
    pub fn run<K: Sink>(
        &mut self,
        words: u64,
        out: &mut K,
        timing: &mut Box<dyn Timing>,
        probes: &mut Vec<Box<dyn Probe>>,
    ) -> Ended
        requires { self.old.ended ≡ false }

        // What the word machine does from where the simulator stands, with the timing's list from its place on.
        ensures ran { Ran words self.old self.new (times timing.old) (times timing.new) (map (λ b. watch b) probes.old.items) (map (λ b. watch b) probes.new.items) (K.told out.old) (K.told out.new) result }

        // The sink fails only by a fault that is counted.
        ensures failed { is_fault result ≡ true → Rose (K.faults out.old) (K.faults out.new) }
        ensures faults_never_fall { K.faults out.old ≤ K.faults out.new }
    {
        keeps_count(&self.standing.cycle);
        keeps_count(&self.issued);
        'words: for passed in 0..words {
            let ended = step(
                &Loaded {
                    program: &self.program,
                    machine: &self.machine,
                    shapes: &self.shapes,
                },
                &mut self.standing,
                &mut self.ring,
                &mut self.issued,
                out,
                timing,
                probes,
            );
            if let Some(ended) = ended {
                self.ended = true;
                return ended;
            }
        }
        Ended::Stopped
    }
}

/// All memory that a run of a program takes.
#[derive(Drop)]
struct Space {
    memory: Vec<i32>,
    shapes: Vec<Shape>,
    ring: Ring,
}

fn space_for(alloc: Global, program: &WordProgram, machine: &Machine) -> Result<Space, NoMemory>
    requires { is_sound program.now ≡ true }
    ensures words { IfOk result (λ space. word_of space.memory.items ≡ memory_at_start program.now.start) }
    ensures size { IfOk result (λ space. program.now.memory ≡ 4 * length space.memory.items) }
    ensures shapes { IfOk result (λ space. space.shapes.items ≡ map (shape_of machine.now) program.now.words) }
    ensures empty { IfOk result (λ space. flying_of space.ring ≡ []) }
    ensures room { IfOk result (λ space. HasRoom (widest space.shapes.items) 0 space.ring) }
{
    let memory = memory_of(alloc, program)?;
    let shapes = shapes_of(alloc, machine, program.words.as_slice())?;
    let ring = ring_for(alloc, &shapes)?;
    Ok(Space {
        memory,
        shapes,
        ring,
    })
}

/// A count of 64 bits stays below 2 ^ 64.
fn keeps_count(count: &u64)
    ensures { counted count.now ≡ count.now }
{
    let _count = *count;
}
