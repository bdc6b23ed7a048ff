// What a word does, once it is not stuck and its text is put: its writes are issued, its stores are made, its number of
// the input is taken, and its cycles pass.

ghost use Rattle.std.specs.Prelude.{◌≡◌, ◌≤◌, ◌<◌, ◌+◌, ◌*◌, ◌++◌, ◌∷◌, ℕ, [], true, false, Some, length, map, drop, is_some, count_by, vec_len};
ghost use Rattle.std.specs.List.{list_all, list_any};
ghost use Rattle.vx_base.specs.Flight.{landing_time, landed_in, flying_in};
ghost use Rattle.vx_isa.specs.declared.operation.UnitKind.TheVariants.{Memory};
ghost use Rattle.vx_isa.specs.Fits.{is_of};
ghost use Rattle.vx_isa.specs.Operations.{same, destination_of, is_call, latency_of};
ghost use Rattle.vx_isa.specs.Machine.{writes_of, write_to, number_of, is_asked, time_of, asked_by, memory_after, has_bad_address, takes_input, cycles_of};
ghost use Rattle.vx_probe.specs.Times.{list_of, moved_on, moved_by};
ghost use Rattle.vx_sim.specs.Moved.{moved_if};
ghost use Rattle.vx_sim.specs.Flying.{flying_of, by_landing};
ghost use Rattle.vx_sim.specs.Held.{held_by, word_of};
ghost use Rattle.vx_sim.specs.Named.{is_register, names_register};
ghost use Rattle.vx_sim.specs.Passed.{counted};
ghost use Rattle.vx_sim.specs.Room.{HasRoom};
ghost use Rattle.vx_sim.specs.Standing.{state_of};

use crate::flight::Flight;
use crate::flights::{pass_cycles, put};
use crate::memory::store;
use crate::ring::Ring;
use crate::state::Standing;
use crate::stuck::takes_input;
use vx_isa::operation::{Operation, Register};
use vx_isa::program::Word;
use vx_machine::Machine;
use vx_probe::Timing;

/// Everything but the place and the text.
pub(crate) fn take_effect(
    machine: &Machine,
    size: u32,
    now: &mut Standing,
    ring: &mut Ring,
    word: &Word,
    memory: u32,
    timing: &mut Box<dyn Timing>,
)
    requires touches { memory ≡ count_by (is_of Memory) word.now.ops }
    requires named { list_all names_register word.now.ops ≡ true }
    requires good { list_any (has_bad_address size (state_of now.old [])) word.now.ops ≡ false }
    requires size { size ≡ 4 * length now.old.memory.items }
    requires room { (widest : ℕ) × (length word.now.ops ≤ widest) × HasRoom widest 0 ring.old }
    ensures lands { held_by now.new.registers ≡ landed_in same (cycles_of word.now) (held_by now.old.registers) (flying_of ring.old ++ writes_of machine.now (list_of (times timing.old)) size (state_of now.old []) (times timing.old).place word.now.ops) }
    ensures flies { flying_of ring.new ≡ by_landing (flying_in (cycles_of word.now) (flying_of ring.old ++ writes_of machine.now (list_of (times timing.old)) size (state_of now.old []) (times timing.old).place word.now.ops)) }
    ensures stores { word_of now.new.memory.items ≡ memory_after (state_of now.old []) word.now.ops (word_of now.old.memory.items) }
    ensures takes { drop now.new.taken now.new.input.items ≡ drop (count_by takes_input word.now.ops) (drop now.old.taken now.old.input.items) }
    ensures cycle { now.new.cycle ≡ counted (now.old.cycle + cycles_of word.now) }
    ensures place { now.new.place ≡ now.old.place }
    ensures timing { times timing.new ≡ moved_by (asked_by word.now.ops) (times timing.old) }
    ensures memory { length now.new.memory.items ≡ length now.old.memory.items }
    ensures has_room { (widest : ℕ) → length word.now.ops ≤ widest → HasRoom widest 0 ring.old → HasRoom widest 0 ring.new }
{
    let ops = word.ops.as_slice();
    issue_writes(machine, size, now, ops, ring, timing);
    make_stores(size, now, ops, memory);
    now.taken = now.taken.saturating_add(count_of_input(ops, memory));
    now.cycle = pass_cycles(cycles_of(word), now.cycle, &mut now.registers, ring);
}

/// How many cycles the word takes.
fn cycles_of(word: &Word) -> u32
    ensures exact { result ≡ cycles_of word.now }
    ensures some { 1 ≤ result }
{
    word.idle.max(1)
}

/// How many numbers of the input the word takes: none where no operation has a memory unit.
#[tactic(auto, using(crate::proofs::Touching::no_input))]
fn count_of_input(ops: &[Operation], memory: u32) -> usize
    requires { memory ≡ count_by (is_of Memory) ops.now }
    ensures { result ≡ count_by takes_input ops.now }
{
    if memory == 0 {
        return 0;
    }
    let mut count = 0;
    for op in ops {
        if takes_input(op) {
            count += 1;
        }
    }
    count
}

/// The writes of the word, each at the landing time that the timing tells, behind those in flight.
fn issue_writes(
    machine: &Machine,
    size: u32,
    now: &Standing,
    ops: &[Operation],
    ring: &mut Ring,
    timing: &mut Box<dyn Timing>,
)
    requires named { list_all names_register ops.now ≡ true }
    requires room { (widest : ℕ) × (length ops.now ≤ widest) × HasRoom widest 0 ring.old }
    ensures writes { flying_of ring.new ≡ by_landing (flying_of ring.old ++ writes_of machine.now (list_of (times timing.old)) size (state_of now.now []) (times timing.old).place ops.now) }
    ensures timing { times timing.new ≡ moved_by (asked_by ops.now) (times timing.old) }
    ensures has_room { (widest : ℕ) → length ops.now ≤ widest → HasRoom widest 0 ring.old → HasRoom widest (length ops.now) ring.new }
{
    for op in ops {
        issue(machine, size, now, op, ring, timing);
    }
}

/// The write of an operation, if it has one.
fn issue(
    machine: &Machine,
    size: u32,
    now: &Standing,
    op: &Operation,
    ring: &mut Ring,
    timing: &mut Box<dyn Timing>,
)
    requires named { names_register op.now ≡ true }
    requires room { (widest : ℕ) × (here : ℕ) × (here < widest) × HasRoom widest here ring.old }
    ensures write { flying_of ring.new ≡ by_landing (flying_of ring.old ++ write_to (destination_of op.now) (number_of size (state_of now.now []) op.now) (time_of machine.now (list_of (times timing.old)) (times timing.old).place op.now)) }
    ensures timing { times timing.new ≡ moved_if (is_asked op.now) (times timing.old) }
    ensures has_room { (widest here : ℕ) → here < widest → HasRoom widest here ring.old → HasRoom widest (here + 1) ring.new }
{
    if let Some(to) = op.destination() {
        let number = now.number_of(size, op);
        let left = landing_time(machine, op, timing);
        issue_write(to, number, left, ring);
    }
}

/// The link that a call writes is there at the next word, and the timing is not asked for it.
fn landing_time(machine: &Machine, op: &Operation, timing: &mut Box<dyn Timing>) -> u32
    requires { is_some (destination_of op.now) ≡ true }
    ensures time { result ≡ time_of machine.now (list_of (times timing.old)) (times timing.old).place op.now }
    ensures some { 1 ≤ result }
    ensures in_time { result ≤ 16 }
    ensures timing { times timing.new ≡ moved_if (is_asked op.now) (times timing.old) }
{
    match op {
        Operation::Call { .. } => 1,
        _ => lands(timing, latency(machine, op)),
    }
}

/// The latency of an operation that writes a register and is no call.
fn latency(machine: &Machine, op: &Operation) -> u32
    requires written { is_some (destination_of op.now) ≡ true }
    requires no_call { is_call op.now ≡ false }
    ensures latency { result ≡ latency_of machine.now op.now }
    ensures some { 1 ≤ result }
    ensures few { result ≤ 16 }
{
    machine.keeps_ranges();
    machine.latency(op)
}

fn lands(timing: &mut Box<dyn Timing>, latency: u32) -> u32
    requires { 1 ≤ latency }
    ensures time { result ≡ landing_time (list_of (times timing.old)) (times timing.old).place latency }
    ensures some { 1 ≤ result }
    ensures in_time { result ≤ latency }
    ensures timing { times timing.new ≡ moved_on (times timing.old) }
{
    timing.lands(latency)
}

/// A write to register 0 is lost.
fn issue_write(to: Register, number: i32, left: u32, ring: &mut Ring)
    requires named { is_register to ≡ true }
    requires room { (widest : ℕ) × (here : ℕ) × (here < widest) × HasRoom widest here ring.old }
    requires some { 1 ≤ left }
    requires in_time { left ≤ 16 }
    ensures writes { flying_of ring.new ≡ by_landing (flying_of ring.old ++ write_to (Some to) number left) }
    ensures has_room { (widest here : ℕ) → here < widest → HasRoom widest here ring.old → HasRoom widest (here + 1) ring.new }
{
    if to.is_zero() {
        return;
    }
    put(ring, Flight { to, number }, left);
}

/// The stores of the word, none where no operation has a memory unit.
#[tactic(auto, using(crate::proofs::Touching::no_store))]
fn make_stores(size: u32, now: &mut Standing, ops: &[Operation], memory: u32)
    requires touches { memory ≡ count_by (is_of Memory) ops.now }
    requires good { list_any (has_bad_address size (state_of now.old [])) ops.now ≡ false }
    requires size { size ≡ 4 * length now.old.memory.items }
    ensures stores { word_of now.new.memory.items ≡ memory_after (state_of now.old []) ops.now (word_of now.old.memory.items) }
    ensures rest { now.new ≡ record now.old { memory = now.new.memory } }
    ensures len { length now.new.memory.items ≡ length now.old.memory.items }
{
    if memory == 0 {
        return;
    }
    make_each_store(size, now, ops);
}

/// The stores of operations, in the order of the list.
fn make_each_store(size: u32, now: &mut Standing, ops: &[Operation])
    requires good { list_any (has_bad_address size (state_of now.old [])) ops.now ≡ false }
    requires size { size ≡ 4 * length now.old.memory.items }
    ensures stores { word_of now.new.memory.items ≡ memory_after (state_of now.old []) ops.now (word_of now.old.memory.items) }
    ensures rest { now.new ≡ record now.old { memory = now.new.memory } }
    ensures len { length now.new.memory.items ≡ length now.old.memory.items }
{
    for op in ops {
        make_store(size, now, op);
    }
}

/// The store of an operation, if it is one.
fn make_store(size: u32, now: &mut Standing, op: &Operation)
    requires good { has_bad_address size (state_of now.old []) op.now ≡ false }
    requires size { size ≡ 4 * length now.old.memory.items }
    ensures stores { word_of now.new.memory.items ≡ memory_after (state_of now.old []) (op.now ∷ []) (word_of now.old.memory.items) }
    ensures rest { now.new ≡ record now.old { memory = now.new.memory } }
    ensures len { length now.new.memory.items ≡ length now.old.memory.items }
{
    if let Operation::Store {
        offset,
        base,
        from,
        ..
    } = op
    {
        let address = now.address(base, *offset);
        let number = now.source(from);
        store(&mut now.memory, address, number);
    }
}
