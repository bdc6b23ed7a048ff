// Where a word leads, and the event of a word that took effect.

ghost use Rattle.std.specs.Prelude.{◌≡◌, ◌<◌, ◌+◌, List, [], ◌∷◌, length, count_by};
ghost use Rattle.vx_isa.specs.declared.operation.Register.TheVariants.{Branch};
ghost use Rattle.vx_isa.specs.Operations.{is_control};
ghost use Rattle.vx_isa.specs.Machine.{lead_of, is_taken, register};
ghost use Rattle.vx_sim.specs.Leads.{lead_as, lead_or, place_behind};
ghost use Rattle.vx_sim.specs.Passed.{counted, event_of, leads_away};
ghost use Rattle.vx_sim.specs.Shapes.{counts_of};
ghost use Rattle.vx_sim.specs.Standing.{state_of};

use crate::shape::UnitCounts;
use crate::state::Standing;
use vx_arithmetic::unsigned32;
use vx_base::outcome::Trap;
use vx_isa::operation::{BranchRegister, Operation};
use vx_isa::program::{Word, WordProgram};
use vx_probe::Event;

/// Where a word leads: to a place, to the end with a result, or to the end by a trap.
#[derive(Clone, Copy)]
pub(crate) enum Lead {
    To(u32),
    Halts(i32),
    TrapsBy(Trap),
}

/// Where a word leads: to the following word where it has no control operation.
pub(crate) fn lead_of_word(now: &Standing, next: u32, ops: &[Operation], control: u32) -> Lead
    requires following { next ≡ now.now.place + 1 }
    requires control { control ≡ count_by is_control ops.now }
    ensures { lead_as result ≡ lead_of (state_of now.now []) ops.now }
{
    if control == 0 {
        return Lead::To(next);
    }
    lead_of(now, next, ops)
}

/// The first control operation of the list that is taken tells; without one the following word comes.
fn lead_of(now: &Standing, next: u32, ops: &[Operation]) -> Lead
    requires { next ≡ now.now.place + 1 }
    ensures { lead_as result ≡ lead_of (state_of now.now []) ops.now }
{
    match ops.split_first() {
        Some((first, rest)) => match lead_by(now, first) {
            Some(lead) => lead,
            None => lead_of(now, next, rest),
        },
        None => Lead::To(next),
    }
}

/// The place behind a place of the program.
pub(crate) fn following(program: &WordProgram, place: u32) -> u32
    requires { place < length program.now.words }
    ensures { result ≡ place + 1 }
{
    let _few = program.words.len();
    place + 1
}

/// The place at which a word leaves the machine.
pub(crate) fn place_behind(lead: Lead, here: u32) -> u32
    ensures { result ≡ place_behind (lead_as lead) here }
{
    match lead {
        Lead::To(place) => place,
        Lead::Halts(_) => here,
        Lead::TrapsBy(_) => here,
    }
}

/// Where an operation leads, if it is a control operation that is taken.
fn lead_by(now: &Standing, op: &Operation) -> Option<Lead>
    ensures { (ops : List Operation) → lead_of (state_of now.now []) (op.now ∷ ops) ≡ lead_or result (lead_of (state_of now.now []) ops) }
{
    match op {
        Operation::Goto { target } => Some(Lead::To(*target)),
        Operation::BranchOn {
            test,
            taken_at_one,
            target,
        } => is_taken(now, *test, *taken_at_one).then_some(Lead::To(*target)),
        Operation::Call { target } => Some(Lead::To(*target)),
        Operation::Return => Some(Lead::To(unsigned32(now.link()))),
        Operation::EndByTrap { trap } => Some(Lead::TrapsBy(*trap)),
        Operation::Halt { from } => Some(Lead::Halts(now.source(from))),
        _ => None,
    }
}

/// Whether a branch on a branch register of cluster 0 is taken.
fn is_taken(now: &Standing, test: u32, taken_at_one: bool) -> bool
    ensures { result ≡ is_taken taken_at_one (register (state_of now.now []) (Branch (record { cluster = 0; number = test }))) }
{
    let register = BranchRegister {
        cluster: 0,
        number: test,
    };
    (now.branch(register) == 1) == taken_at_one
}

/// What a probe is shown of the word.
pub(crate) fn event_of(now: &Standing, counts: &UnitCounts, lead: Lead) -> Event
    ensures { (word : Word) → counts.now ≡ counts_of word.ops → lead_as lead ≡ lead_of (state_of now.now []) word.ops → result ≡ event_of (state_of now.now []) word }
{
    Event {
        place: now.place,
        cycle: counted(now.cycle),
        alu: counts.alu,
        multiply: counts.multiply,
        memory: counts.memory,
        copy: counts.copy,
        control: counts.control,
        taken: leads_away(now.place, lead),
    }
}

/// A count stays at the greatest `u64`, as a `u64` does.
fn counted(cycle: u64) -> u64
    ensures { result ≡ counted cycle }
{
    cycle
}

fn leads_away(here: u32, lead: Lead) -> bool
    ensures { result ≡ leads_away here (lead_as lead) }
{
    match lead {
        Lead::To(place) => u64::from(place) != u64::from(here) + 1,
        Lead::Halts(_) => false,
        Lead::TrapsBy(_) => false,
    }
}
