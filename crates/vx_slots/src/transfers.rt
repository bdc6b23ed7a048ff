// The words that bring values from their slots to registers, and from registers to their slots. A branch value goes by way
// of the answer's register.

ghost use Rattle.std.specs.Prelude.{◌≡◌, ◌≤◌, ◌++◌, ◌∷◌, [], ◌+◌, ◌==◌, ◌&&◌, pos, false, IfOk, drop, length};
ghost use Rattle.vx_base.specs.declared.arithmetic.Code.TheVariants.{ToBranch};
ghost use Rattle.vx_base.specs.declared.arithmetic.Compare.TheVariants.{Ne};
ghost use Rattle.vx_isa.specs.Fits.{fits};
ghost use Rattle.vx_isa.specs.Operations.{latency_of};
ghost use Rattle.vx_isa.specs.declared.operation.Operation.TheVariants.{Compute, Select, Load, Store};
ghost use Rattle.vx_isa.specs.declared.operation.Register.TheVariants.{Branch as InBranch};
ghost use Rattle.vx_isa.specs.declared.operation.Source.TheVariants.{Held, Number};
ghost use Rattle.vx_target.specs.Target.{answer, stack_on, general_of, branch_of, one, together, waits, pause, latest, in_flight, settled, last_beside, load_slot, store_slot, load_slots, store_slots};
ghost use Rattle.vx_slots.specs.Seen.{seen};

use crate::numbers::{MOST_NAMES, bytes};
use crate::program::{Whole, slot};
use crate::registers::{branch_of, general, general_of, holds_branch, stack_on};
use std::alloc::Global;
use vx_base::arithmetic::{Code, Compare};
use vx_base::listed::{Listed, copied};
use vx_base::outcome::NoMemory;
use vx_base::sizes::sum;
use vx_flow::graph::Value;
use vx_isa::operation::{BranchRegister, GeneralRegister, Operation, Register, Source};
use vx_isa::program::Word;
use vx_machine::{Machine, fits};

/// The register of results, on cluster 0.
pub fn answer() -> GeneralRegister
    ensures { result ≡ answer }
{
    general(0, 2)
}

/// Adds a word of one operation.
pub fn push_one(
    alloc: Global,
    operation: Operation,
    words: &mut Listed<Word>,
) -> Result<(), NoMemory>
    ensures { IfOk result (λ _. words.new ≡ words.old ++ one operation ∷ []) }
{
    let mut ops = Listed::new(alloc);
    ops.push(operation)?;
    words.push(Word { ops, idle: 0 })?;
    Ok(())
}

/// Adds so many empty cycles.
pub fn push_idle(alloc: Global, idle: u32, words: &mut Listed<Word>) -> Result<(), NoMemory>
    ensures { IfOk result (λ _. words.new ≡ words.old ++ waits idle ∷ []) }
{
    words.push(Word {
        ops: Listed::new(alloc),
        idle,
    })?;
    Ok(())
}

/// Adds a pause of so many cycles; one of none is no word.
#[tactic(auto, using(crate::proofs::WordSteps::some_pause))]
pub fn push_pause(alloc: Global, cycles: u32, words: &mut Listed<Word>) -> Result<(), NoMemory>
    ensures { IfOk result (λ _. words.new ≡ words.old ++ pause cycles) }
{
    if cycles == 0 {
        return Ok(());
    }
    push_idle(alloc, cycles, words)
}

/// The cycles until the last result of some operations has landed.
fn latest(machine: &Machine, ops: &[Operation]) -> u32
    ensures { result ≡ latest machine.now ops.now }
{
    match ops.split_first() {
        None => 0,
        Some((op, rest)) => machine.latency(op).max(latest(machine, rest)),
    }
}

/// How many cycles longer than some words last their writes are in flight, where at their start others are so for some.
fn in_flight(machine: &Machine, before: u32, words: &[Word]) -> u32
    ensures { result ≡ in_flight machine.now before words.now }
{
    match words.split_first() {
        None => before,
        Some((word, rest)) => {
            let landed = before.max(latest(machine, word.ops.as_slice()));
            in_flight(machine, landed.saturating_sub(word.idle.max(1)), rest)
        }
    }
}

/// The words from a place on.
pub fn words_from(words: &[Word], begin: usize) -> &[Word]
    requires { begin ≤ length words.now }
    ensures { result.now ≡ drop begin words.now }
{
    &words[begin..]
}

/// Adds a pause as long as what the words from a place on write is in flight, and no longer.
pub fn push_wait(
    alloc: Global,
    whole: &Whole,
    begin: usize,
    words: &mut Listed<Word>,
) -> Result<(), NoMemory>
    requires { begin ≤ length words.old }
    ensures { IfOk result (λ _. words.new ≡ words.old ++ pause (in_flight (seen whole.now).machine 0 (drop begin words.old))) }
{
    let cycles = in_flight(whole.machine, 0, words_from(words.as_slice(), begin));
    push_pause(alloc, cycles, words)
}

/// Adds a word, and a pause as long as its results are in flight.
pub fn push_settled_word(
    alloc: Global,
    whole: &Whole,
    word: Word,
    words: &mut Listed<Word>,
) -> Result<(), NoMemory>
    ensures { IfOk result (λ _. words.new ≡ words.old ++ settled (seen whole.now) (word ∷ [])) }
{
    let begin = words.len();
    words.push(word)?;
    push_wait(alloc, whole, begin, words)
}

/// A word of two operations.
fn word_of_two(alloc: Global, first: Operation, second: Operation) -> Result<Word, NoMemory>
    ensures { IfOk result (λ word. word ≡ record { ops = first ∷ second ∷ []; idle = 0 }) }
{
    let ops = copied(alloc, &[first, second])?;
    Ok(Word { ops, idle: 0 })
}

/// Adds two words of one operation.
fn push_both(
    alloc: Global,
    first: Operation,
    second: Operation,
    words: &mut Listed<Word>,
) -> Result<(), NoMemory>
    ensures { IfOk result (λ _. words.new ≡ words.old ++ one first ∷ one second ∷ []) }
{
    push_one(alloc, first, words)?;
    push_one(alloc, second, words)
}

/// Adds two operations in one word where the machine has room for both, else one after the other.
#[tactic(auto, using(crate::proofs::WordSteps::beside, crate::proofs::WordSteps::apart))]
fn push_together(
    alloc: Global,
    whole: &Whole,
    first: Operation,
    second: Operation,
    words: &mut Listed<Word>,
) -> Result<(), NoMemory>
    ensures { IfOk result (λ _. words.new ≡ words.old ++ together (seen whole.now).machine first second) }
{
    let word = word_of_two(alloc, first, second)?;
    if fits(whole.machine, &word) {
        words.push(word)?;
        return Ok(());
    }
    push_both(alloc, first, second, words)
}

/// Adds two operations, in one word or in two, and a pause as long as their results are in flight.
pub fn push_settled_two(
    alloc: Global,
    whole: &Whole,
    first: Operation,
    second: Operation,
    words: &mut Listed<Word>,
) -> Result<(), NoMemory>
    ensures { IfOk result (λ _. words.new ≡ words.old ++ settled (seen whole.now) (together (seen whole.now).machine first second)) }
{
    let begin = words.len();
    push_together(alloc, whole, first, second, words)?;
    push_wait(alloc, whole, begin, words)
}

/// Whether a machine has room for a word of two operations, and the first of them is done by the next word.
fn is_at_once(machine: &Machine, first: &Operation, word: &Word) -> bool
    ensures { result ≡ (latency_of machine.now first.now == 1) && fits machine.now word.now.ops }
{
    machine.latency(first) == 1 && fits(machine, word)
}

/// Adds an operation and the last one behind it: in one word where the machine has room for both and the first is done by the next
/// word, else behind the pause.
#[tactic(auto, using(crate::proofs::WordSteps::in_one_word, crate::proofs::WordSteps::in_words))]
pub fn push_last(
    alloc: Global,
    whole: &Whole,
    first: Operation,
    last: Operation,
    words: &mut Listed<Word>,
) -> Result<(), NoMemory>
    ensures { IfOk result (λ _. words.new ≡ words.old ++ last_beside (seen whole.now) first last) }
{
    let word = word_of_two(alloc, first, last)?;
    if is_at_once(whole.machine, &first, &word) {
        words.push(word)?;
        return Ok(());
    }
    push_settled(alloc, whole, first, words)?;
    push_one(alloc, last, words)
}

/// Adds a word of one operation, and a pause as long as its result is in flight.
pub fn push_settled(
    alloc: Global,
    whole: &Whole,
    operation: Operation,
    words: &mut Listed<Word>,
) -> Result<(), NoMemory>
    ensures { IfOk result (λ _. words.new ≡ words.old ++ settled (seen whole.now) (one operation ∷ [])) }
{
    let begin = words.len();
    push_one(alloc, operation, words)?;
    push_wait(alloc, whole, begin, words)
}

/// A load of the word of a frame, on the cluster of the register to which it goes.
fn frame_load(to: GeneralRegister, offset: i32) -> Operation
    ensures { result ≡ Load to.cluster to offset (stack_on to.cluster) false }
{
    Operation::Load {
        cluster: to.cluster,
        to,
        offset,
        base: stack_on(to.cluster),
        dismissible: false,
    }
}

/// A store to the word of a frame, on the cluster of the register from which it comes.
fn frame_store(from: GeneralRegister, offset: i32) -> Operation
    ensures { result ≡ Store from.cluster offset (stack_on from.cluster) (Held from) }
{
    Operation::Store {
        cluster: from.cluster,
        offset,
        base: stack_on(from.cluster),
        from: Source::Held(from),
    }
}

/// Sets a branch register where the answer's register is not 0.
fn to_branch(number: u32) -> Operation
    ensures { result ≡ Compute 0 (ToBranch Ne) (InBranch (record { cluster = 0; number = number })) (Held answer) (Number (pos 0)) }
{
    Operation::Compute {
        cluster: 0,
        code: Code::ToBranch(Compare::Ne),
        to: Register::Branch(BranchRegister { cluster: 0, number }),
        left: Source::Held(answer()),
        right: Source::Number(0),
    }
}

/// Brings a branch register to the answer's register, as 1 or 0.
fn from_branch(number: u32) -> Operation
    ensures { result ≡ Select 0 answer (record { cluster = 0; number = number }) (Number (pos 1)) (Number (pos 0)) }
{
    Operation::Select {
        cluster: 0,
        to: answer(),
        test: BranchRegister { cluster: 0, number },
        left: Source::Number(1),
        right: Source::Number(0),
    }
}

/// The registers by which a word names a value: which of both is meant, the value's bank says.
#[derive(Clone, Copy)]
pub struct Named {
    /// The general register.
    pub general: GeneralRegister,
    /// The number of the branch register.
    pub branch: u32,
}

/// The registers by which a word that names these values names one.
pub fn named_by(
    whole: &Whole,
    function: u32,
    names: &[Value],
    value: Value,
) -> Result<Named, NoMemory>
    ensures general { IfOk result (λ named. named.general ≡ general_of (seen whole.now) function names.now value) }
    ensures branch { IfOk result (λ named. named.branch ≡ branch_of (seen whole.now) function names.now value) }
{
    if names.len() > MOST_NAMES {
        return Err(NoMemory);
    }
    Ok(Named {
        general: general_of(whole, function, names, value),
        branch: branch_of(whole, function, names, value),
    })
}

/// Brings the slot of a value, in a frame so many words above the stack pointer, to a register.
pub fn load_slot(
    alloc: Global,
    whole: &Whole,
    function: u32,
    up: u32,
    value: Value,
    to: Named,
    words: &mut Listed<Word>,
) -> Result<(), NoMemory>
    ensures { IfOk result (λ _. words.new ≡ words.old ++ load_slot (seen whole.now) function up value to.general to.branch) }
{
    let offset = bytes(sum(up, slot(whole, function, value))?)?;
    if holds_branch(whole, function, value) {
        push_settled(alloc, whole, frame_load(answer(), offset), words)?;
        push_one(alloc, to_branch(to.branch), words)
    } else {
        push_one(alloc, frame_load(to.general, offset), words)
    }
}

/// Brings a register to the slot of a value.
fn store_slot(
    alloc: Global,
    whole: &Whole,
    function: u32,
    value: Value,
    from: Named,
    words: &mut Listed<Word>,
) -> Result<(), NoMemory>
    ensures { IfOk result (λ _. words.new ≡ words.old ++ store_slot (seen whole.now) function value from.general from.branch) }
{
    let offset = bytes(slot(whole, function, value))?;
    if holds_branch(whole, function, value) {
        push_settled(alloc, whole, from_branch(from.branch), words)?;
        push_one(alloc, frame_store(answer(), offset), words)
    } else {
        push_one(alloc, frame_store(from.general, offset), words)
    }
}

/// Brings some of the values that a word names from their slots.
pub fn load_slots(
    alloc: Global,
    whole: &Whole,
    function: u32,
    names: &[Value],
    values: &[Value],
    words: &mut Listed<Word>,
) -> Result<(), NoMemory>
    ensures { IfOk result (λ _. words.new ≡ words.old ++ load_slots (seen whole.now) function names.now values.now) }
{
    match values.split_first() {
        None => Ok(()),
        Some((value, rest)) => {
            let to = named_by(whole, function, names, *value)?;
            load_slot(alloc, whole, function, 0, *value, to, words)?;
            load_slots(alloc, whole, function, names, rest, words)
        }
    }
}

/// Brings some of the values that a word names to their slots.
pub fn store_slots(
    alloc: Global,
    whole: &Whole,
    function: u32,
    names: &[Value],
    values: &[Value],
    words: &mut Listed<Word>,
) -> Result<(), NoMemory>
    ensures { IfOk result (λ _. words.new ≡ words.old ++ store_slots (seen whole.now) function names.now values.now) }
{
    match values.split_first() {
        None => Ok(()),
        Some((value, rest)) => {
            let from = named_by(whole, function, names, *value)?;
            store_slot(alloc, whole, function, *value, from, words)?;
            store_slots(alloc, whole, function, names, rest, words)
        }
    }
}
