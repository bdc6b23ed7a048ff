// How long a pause behind loads of slots has to be: so that each register has landed where the words behind it name it.

ghost use Rattle.std.specs.Prelude.{◌≡◌, ◌∷◌, ◌-◌, [], IfOk};
ghost use Rattle.std.specs.List.{list_all};
ghost use Rattle.vx_isa.specs.Operations.{destination_of, latency_of, same};
ghost use Rattle.vx_target.specs.Target.{all_elsewhere, beside_turn, by_way, flight, is_elsewhere, is_for_values, is_to, item_elsewhere, landing_of, most_spared, reads_elsewhere, register_of, spared, spared_at, spares, time_to, turns, wanted};
ghost use Rattle.vx_slots.specs.Seen.{seen};

use vx_base::outcome::NoMemory;
use vx_base::sizes::sum;
use vx_flow::graph::Value;
use vx_flow::operands::{Reads, read_by, written_by};
use vx_isa::operation::{Operation, Register};
use vx_isa::program::Word;
use vx_machine::Machine;
use vx_mixed::layout::{Laid, VirtualWord};
use vx_slots::program::{Whole, words_of};
use vx_slots::registers::{is_slotted, register_of};
use vx_slots::ways::{follows, has_split, past, turn};

/// The most words of a layout that are looked at.
const MOST_SPARED: u32 = 16;

/// Whether both are one register.
fn is_same(one: Register, other: Register) -> bool
    ensures { result ≡ same one other }
{
    match (one, other) {
        (Register::General(one), Register::General(other)) => {
            one.cluster == other.cluster && one.number == other.number
        }
        (Register::Branch(one), Register::Branch(other)) => {
            one.cluster == other.cluster && one.number == other.number
        }
        (Register::Link, Register::Link) => true,
        _ => false,
    }
}

/// The register of a value.
fn own_register(whole: &Whole, function: u32, value: Value) -> Register
    ensures { result ≡ register_of (seen whole.now) function (value ∷ []) value }
{
    let names = [value];
    register_of(whole, function, &names, value)
}

/// Whether a value is in a register, and not in this one.
fn is_elsewhere(whole: &Whole, function: u32, register: Register, value: Value) -> bool
    ensures { result ≡ is_elsewhere (seen whole.now) function register value }
{
    !is_slotted(whole, function, value) && !is_same(register, own_register(whole, function, value))
}

/// The same of a value that an operation may have.
fn all_elsewhere(whole: &Whole, function: u32, register: Register, value: Option<Value>) -> bool
    ensures { result ≡ all_elsewhere (seen whole.now) function register value }
{
    match value {
        Some(value) => is_elsewhere(whole, function, register, value),
        None => true,
    }
}

fn reads_elsewhere(whole: &Whole, function: u32, register: Register, reads: Reads) -> bool
    ensures { result ≡ reads_elsewhere (seen whole.now) function register reads }
{
    all_elsewhere(whole, function, register, reads.first)
        && all_elsewhere(whole, function, register, reads.second)
        && all_elsewhere(whole, function, register, reads.third)
}

/// Whether all values of an operation or split are in registers, and none in this one.
fn item_elsewhere(whole: &Whole, function: u32, register: Register, item: &Laid) -> bool
    ensures { result ≡ item_elsewhere (seen whole.now) function register item.now }
{
    match item {
        Laid::Plain { op, .. } => {
            all_elsewhere(whole, function, register, written_by(op))
                && reads_elsewhere(whole, function, register, read_by(op))
        }
        Laid::Split { test, .. } => is_elsewhere(whole, function, register, *test),
    }
}

/// Whether values are kept in a register.
fn is_for_values(register: Register) -> bool
    ensures { result ≡ is_for_values register }
{
    match register {
        Register::General(register) => register.number > 2,
        Register::Branch(_) => true,
        Register::Link => false,
    }
}

fn all_items_elsewhere(whole: &Whole, function: u32, register: Register, items: &[Laid]) -> bool
    ensures { result ≡ list_all (item_elsewhere (seen whole.now) function register) items.now }
{
    for item in items {
        if !item_elsewhere(whole, function, register, item) {
            return false;
        }
    }
    true
}

/// Whether all values of a word are in registers, and none in this one.
fn spares(whole: &Whole, function: u32, register: Register, items: &[Laid]) -> bool
    ensures { result ≡ spares (seen whole.now) function register items.now }
{
    is_for_values(register) && all_items_elsewhere(whole, function, register, items)
}

/// By a word of its own, if it needs one, to a place from which on there is so much time.
fn by_way(whole: &Whole, function: u32, next: u32, to: u32, cycles: u32) -> Result<u32, NoMemory>
    ensures { IfOk result (λ time. time ≡ by_way (seen whole.now) function next to cycles) }
{
    if follows(whole, function, next, to) {
        Ok(cycles)
    } else {
        sum(1, cycles)
    }
}

/// From behind a word to so many cycles past a place: the goto of that place may stand in the word itself.
fn beside_turn(whole: &Whole, function: u32, place: u32, cycles: u32) -> Result<u32, NoMemory>
    ensures { IfOk result (λ time. time ≡ beside_turn (turns (seen whole.now) function place) cycles) }
{
    match turn(whole, function, place)? {
        Some(_) => Ok(cycles.saturating_sub(1)),
        None => Ok(cycles),
    }
}

/// For how many cycles a register may be in flight at a place of a layout, as far as so many words are looked at.
fn spared(
    whole: &Whole,
    function: u32,
    register: Register,
    most: u32,
    place: u32,
) -> Result<u32, NoMemory>
    ensures { IfOk result (λ cycles. cycles ≡ spared (seen whole.now) function register most place) }
{
    if most == 0 {
        return Ok(0);
    }
    match words_of(whole, function).get(place as usize) {
        Some(VirtualWord::Planned { items, .. }) => {
            if !spares(whole, function, register, items.as_slice()) {
                Ok(0)
            } else if has_split(items.as_slice()) {
                Ok(1)
            } else {
                let next = sum(place, 1)?;
                let cycles = spared(whole, function, register, most - 1, next)?;
                sum(1, beside_turn(whole, function, next, cycles)?)
            }
        }
        Some(VirtualWord::Transfer(to)) => {
            let to = past(whole, function, *to);
            let next = sum(place, 1)?;
            let cycles = spared(whole, function, register, most - 1, to)?;
            by_way(whole, function, next, to, cycles)
        }
        Some(VirtualWord::Drain(_)) => Ok(0),
        Some(VirtualWord::Choice { .. }) => Ok(0),
        Some(VirtualWord::Call { .. }) => Ok(0),
        Some(VirtualWord::Return(_)) => Ok(0),
        Some(VirtualWord::Ends(_)) => Ok(0),
        None => Ok(0),
    }
}

/// Whether an operation writes a register.
fn is_to(register: Register, to: Option<Register>) -> bool
    ensures { result ≡ is_to register to }
{
    match to {
        Some(to) => is_same(register, to),
        None => false,
    }
}

/// The cycles until the last of what some operations write to a register has landed.
fn landing_of(machine: &Machine, register: Register, ops: &[Operation]) -> u32
    ensures { result ≡ landing_of machine.now register ops.now }
{
    match ops.split_first() {
        None => 0,
        Some((op, rest)) => {
            let own = if is_to(register, op.destination()) {
                machine.latency(op)
            } else {
                0
            };
            own.max(landing_of(machine, register, rest))
        }
    }
}

/// How many cycles longer than some words last a register is in flight, where at their start it is so for some.
fn flight(machine: &Machine, register: Register, before: u32, words: &[Word]) -> u32
    ensures { result ≡ flight machine.now register before words.now }
{
    match words.split_first() {
        None => before,
        Some((word, rest)) => {
            let landed = before.max(landing_of(machine, register, word.ops.as_slice()));
            flight(
                machine,
                register,
                landed.saturating_sub(word.idle.max(1)),
                rest,
            )
        }
    }
}

/// The time from some words to the first one that names a register, where a place of a layout follows, or the way to it from another
/// place.
fn time_to(
    whole: &Whole,
    function: u32,
    next: Option<u32>,
    to: u32,
    register: Register,
) -> Result<u32, NoMemory>
    ensures { IfOk result (λ time. time ≡ time_to (seen whole.now) function next to register) }
{
    let cycles = spared(whole, function, register, MOST_SPARED, to)?;
    match next {
        Some(next) => by_way(whole, function, next, to, cycles),
        None => Ok(cycles),
    }
}

/// The cycles for which a register has to be waited for behind some words.
fn wait_for(
    whole: &Whole,
    function: u32,
    next: Option<u32>,
    to: u32,
    register: Register,
    words: &[Word],
) -> Result<u32, NoMemory>
    ensures { IfOk result (λ cycles. cycles ≡ flight (seen whole.now).machine register 0 words.now - time_to (seen whole.now) function next to register) }
{
    let time = time_to(whole, function, next, to, register)?;
    Ok(flight(whole.machine, register, 0, words).saturating_sub(time))
}

/// The cycles between words that bring some values to their registers and what follows, until it may name these.
pub(crate) fn wanted(
    whole: &Whole,
    function: u32,
    next: Option<u32>,
    to: u32,
    values: &[Value],
    words: &[Word],
) -> Result<u32, NoMemory>
    ensures { IfOk result (λ cycles. cycles ≡ wanted (seen whole.now) function next to values.now words.now) }
{
    match values.split_first() {
        None => Ok(0),
        Some((value, rest)) => {
            let register = own_register(whole, function, *value);
            let own = wait_for(whole, function, next, to, register, words)?;
            Ok(own.max(wanted(whole, function, next, to, rest, words)?))
        }
    }
}
