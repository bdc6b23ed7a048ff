// One step of the simulator: one word is issued, or it is told why none was. The clause is the step of the word machine.

ghost use Rattle.std.specs.Prelude.{◌≡◌, ◌≤◌, ◌<◌, ◌+◌, ◌*◌, ◌^◌, ℕ, [], Some, None, true, false, map, length, vec_len, slice_get, OnOk, OnErr};
ghost use Rattle.vx_io.specs.Outside.{Rose};
ghost use Rattle.vx_isa.specs.Machine.{stuck_by};
ghost use Rattle.vx_isa.specs.Sound.{is_sound};
ghost use Rattle.vx_probe.specs.Times.{list_of};
ghost use Rattle.vx_probe.specs.Watch.{shown};
ghost use Rattle.vx_sim.specs.Flying.{flying_of};
ghost use Rattle.vx_sim.specs.Room.{HasRoom, widest};
ghost use Rattle.vx_sim.specs.Shapes.{shape_of, counts_of};
ghost use Rattle.vx_sim.specs.Standing.{state_of, standing_at};
ghost use Rattle.vx_sim.specs.Stepped.{Stepped, Took, leads_by, ended_as, is_fault_of};

use crate::effects::take_effect;
use crate::ended::Ended;
use crate::leads::{Lead, event_of, following, lead_of_word, place_behind};
use crate::prints::print;
use crate::ring::Ring;
use crate::shape::{Shape, UnitCounts, shape_at};
use crate::state::Standing;
use crate::stuck::stuck_by;
use vx_base::outcome::Reason;
use vx_io::sink::Sink;
use vx_isa::program::{Word, WordProgram};
use vx_machine::Machine;
use vx_probe::{Event, Probe, Timing};

/// A program, the machine that issues it, and the shape of each of its words.
#[derive(Clone, Copy)]
pub(crate) struct Loaded<'a> {
    pub(crate) program: &'a WordProgram,
    pub(crate) machine: &'a Machine,
    pub(crate) shapes: &'a Vec<Shape>,
}

/// Issues the word at which the simulator stands, and answers how the program ended if it did.
pub(crate) fn step<K: Sink>(
    loaded: &Loaded,
    now: &mut Standing,
    ring: &mut Ring,
    issued: &mut u64,
    out: &mut K,
    timing: &mut Box<dyn Timing>,
    probes: &mut Vec<Box<dyn Probe>>,
) -> Option<Ended>
    requires sound { is_sound loaded.now.program.now ≡ true }
    requires tested { loaded.now.shapes.now.items ≡ map (shape_of loaded.now.machine.now) loaded.now.program.now.words }
    requires size { loaded.now.program.now.memory ≡ 4 * length now.old.memory.items }
    requires room { HasRoom (widest loaded.now.shapes.now.items) 0 ring.old }
    ensures stepped { Stepped loaded.now.machine.now loaded.now.program.now (standing_at now.old (flying_of ring.old) (times timing.old)) (state_of now.new (flying_of ring.new)) (times timing.old) (times timing.new) (map (λ b. watch b) probes.old.items) (map (λ b. watch b) probes.new.items) issued.old issued.new (K.told out.old) (K.told out.new) result }
    ensures failed { is_fault_of result ≡ true → Rose (K.faults out.old) (K.faults out.new) }
    ensures faults_never_fall { K.faults out.old ≤ K.faults out.new }
    ensures size_stays { length now.new.memory.items ≡ length now.old.memory.items }
    ensures has_room { HasRoom (widest loaded.now.shapes.now.items) 0 ring.new }
{
    let place = now.place;
    let word = match loaded.program.words.as_slice().get(place as usize) {
        Some(word) => word,
        None => return Some(Ended::Stuck(Reason::BadTarget, place)),
    };
    let shape = shape_at(loaded.shapes, place);
    if let Some(reason) = stuck_by(loaded.program, now, word, shape) {
        return Some(Ended::Stuck(reason, place));
    }
    match print(
        loaded.program,
        now,
        word.ops.as_slice(),
        shape.counts.memory,
        out,
    ) {
        Ok(()) => ended_by(pass(
            loaded,
            now,
            ring,
            issued,
            word,
            &shape.counts,
            timing,
            probes,
        )),
        Err(_) => Some(Ended::SinkFault),
    }
}

/// How the program ended with a word that leads so, if it did.
fn ended_by(lead: Lead) -> Option<Ended>
    ensures { result ≡ ended_as lead }
{
    match lead {
        Lead::To(_) => None,
        Lead::Halts(result) => Some(Ended::Halted(result)),
        Lead::TrapsBy(trap) => Some(Ended::Trapped(trap)),
    }
}

/// A word that is not stuck and whose text is put takes effect, and is shown to each probe.
fn pass(
    loaded: &Loaded,
    now: &mut Standing,
    ring: &mut Ring,
    issued: &mut u64,
    word: &Word,
    counts: &UnitCounts,
    timing: &mut Box<dyn Timing>,
    probes: &mut Vec<Box<dyn Probe>>,
) -> Lead
    requires sound { is_sound loaded.now.program.now ≡ true }
    requires size { loaded.now.program.now.memory ≡ 4 * length now.old.memory.items }
    requires room { (widest : ℕ) × (length word.now.ops ≤ widest) × HasRoom widest 0 ring.old }
    requires word { slice_get loaded.now.program.now.words now.old.place ≡ Some word.now }
    requires counts { counts.now ≡ counts_of word.now.ops }
    requires free { stuck_by loaded.now.machine.now loaded.now.program.now (state_of now.old []) word.now.ops ≡ None }
    ensures took { Took loaded.now.machine.now loaded.now.program.now (standing_at now.old (flying_of ring.old) (times timing.old)) (state_of now.new (flying_of ring.new)) (times timing.old) (times timing.new) (map (λ b. watch b) probes.old.items) (map (λ b. watch b) probes.new.items) issued.old issued.new (leads_by result) }
    ensures size_stays { length now.new.memory.items ≡ length now.old.memory.items }
    ensures has_room { (widest : ℕ) → length word.now.ops ≤ widest → HasRoom widest 0 ring.old → HasRoom widest 0 ring.new }
{
    let next = following(loaded.program, now.place);
    let lead = lead_of_word(now, next, word.ops.as_slice(), counts.control);
    let event = event_of(now, counts, lead);
    take_effect(
        loaded.machine,
        loaded.program.memory,
        now,
        ring,
        word,
        counts.memory,
        timing,
    );
    show(probes, &event);
    *issued = issued.saturating_add(1);
    now.place = place_behind(lead, now.place);
    lead
}

/// Shows an event to each probe, in the order of the list.
fn show(probes: &mut Vec<Box<dyn Probe>>, event: &Event)
    ensures { map (λ b. watch b) probes.new.items ≡ map (λ w. shown w event.now) (map (λ b. watch b) probes.old.items) }
{
    for probe in probes.iter_mut() {
        see(probe, event);
    }
}

fn see(probe: &mut Box<dyn Probe>, event: &Event)
    ensures { watch probe.new ≡ shown (watch probe.old) event.now }
{
    probe.see(event);
}
