// The words that carry a planned word: before it its values come from their slots, behind it they go there.

ghost use Rattle.std.specs.Prelude.{◌≡◌, ◌++◌, ◌∷◌, ◌+◌, ◌-◌, [], IfOk, length};
ghost use Rattle.vx_flow.specs.Effects.{writes};
ghost use Rattle.vx_isa.specs.declared.operation.Operation.TheVariants.{Goto};
ghost use Rattle.vx_room.specs.Items.{latency_of_op};
ghost use Rattle.vx_mixed.specs.LaidSettled.{laid_reads, laid_writes};
ghost use Rattle.vx_target.specs.Target.{carried_items, goes_beside, plan_word, plan_words, landing_words, choice_words, slotted, before, behind, if_any, leads, slots_in_flight, with_goto};
ghost use Rattle.vx_target.specs.Placed.{item_landings, words_of};
ghost use Rattle.vx_slots.specs.Seen.{seen};
ghost use Rattle.vx_carry.specs.Planning.{IsPlan};
ghost use Rattle.vx_carry.specs.Landings.{item_spots};

use crate::lookups::landing;
use crate::operations::carried;
use crate::word_plan::{Plan, Site};
use std::alloc::Global;
use vx_base::listed::{Listed, with_item};
use vx_base::outcome::NoMemory;
use vx_base::sizes::sum;
use vx_flow::graph::{Op, Value};
use vx_isa::operation::Operation;
use vx_isa::program::Word;
use vx_machine::fits;
use vx_mixed::layout::Laid;
use vx_regs::touches::{read_by, written, written_by};
use vx_room::items::Item;
use vx_slots::numbers::MOST_NAMES;
use vx_slots::program::{SplitLanding, Whole, start};
use vx_slots::registers::{branch_of, is_slotted, once, slotted};
use vx_slots::transfers::{load_slots, push_one, push_pause, push_wait, store_slots};
use vx_slots::ways::{has_split, past, turn};

/// How many cycles behind its word the result of an operation is in flight, where it goes to a slot; else 0.
fn slot_in_flight(whole: &Whole, function: u32, op: &Op) -> u32
    ensures { result ≡ if_any (slotted (seen whole.now) function (writes op.now)) (latency_of_op (seen whole.now).machine op.now - 1) }
{
    match written(op) {
        Some(value) => {
            if is_slotted(whole, function, value) {
                Item::Plain(*op).latency(whole.machine).saturating_sub(1)
            } else {
                0
            }
        }
        None => 0,
    }
}

/// How many cycles behind a word of these items the last of its results that go to slots is in flight.
fn slots_in_flight(whole: &Whole, function: u32, items: &[Laid]) -> u32
    ensures { result ≡ slots_in_flight (seen whole.now) function items.now }
{
    match items.split_first() {
        None => 0,
        Some((item, rest)) => {
            let others = slots_in_flight(whole, function, rest);
            match item {
                Laid::Plain { op, .. } => slot_in_flight(whole, function, op).max(others),
                Laid::Split { .. } => others,
            }
        }
    }
}

/// A planned word at a place of a function.
pub fn plan_of<'a>(
    alloc: Global,
    whole: &Whole,
    function: u32,
    place: u32,
    items: &'a [Laid],
) -> Result<Plan<'a>, NoMemory>
    ensures plan { IfOk result (λ plan. IsPlan (seen whole.now) plan) }
    ensures function { IfOk result (λ plan. plan.function ≡ function) }
    ensures place { IfOk result (λ plan. plan.place ≡ place) }
    ensures items { IfOk result (λ plan. plan.items.now ≡ items.now) }
{
    let reads = read_by(alloc, items)?;
    let writes = written_by(alloc, items)?;
    let left = slotted(alloc, whole, function, writes.as_slice())?;
    if reads.len() > MOST_NAMES || writes.len() > MOST_NAMES {
        return Err(NoMemory);
    }
    Ok(Plan {
        function,
        place,
        items,
        reads,
        writes,
        left,
        pause: slots_in_flight(whole, function, items),
    })
}

/// Where a taken split of a word goes: to a landing where the word leaves results in scratch registers, else past its place.
fn leads(whole: &Whole, plan: &Plan, to: u32) -> u32
    ensures { result ≡ leads (seen whole.now) plan.now.function plan.now.place plan.now.left to }
{
    match plan.left.as_slice().split_first() {
        None => start(whole, plan.function, past(whole, plan.function, to)),
        Some(_) => landing(whole, plan.function, plan.place, to),
    }
}

/// The operation that carries an item.
fn carried_item(whole: &Whole, plan: &Plan, item: &Laid) -> Result<Operation, NoMemory>
    requires { IsPlan (seen whole.now) plan.now }
    ensures { IfOk result (λ operation. carried_items (seen whole.now) plan.now.function plan.now.place plan.now.reads plan.now.writes (item.now ∷ []) ≡ operation ∷ []) }
{
    match item {
        Laid::Plain { op, cluster } => {
            let site = Site {
                function: plan.function,
                reads: plan.reads.as_slice(),
                writes: plan.writes.as_slice(),
                cluster: *cluster,
            };
            carried(whole, &site, op)
        }
        Laid::Split {
            test,
            leaves_when,
            place,
        } => Ok(Operation::BranchOn {
            test: branch_of(whole, plan.function, plan.reads.as_slice(), *test),
            taken_at_one: *leaves_when,
            target: leads(whole, plan, *place),
        }),
    }
}

/// Adds the operations that carry some items of a planned word.
fn push_items(
    whole: &Whole,
    plan: &Plan,
    items: &[Laid],
    ops: &mut Listed<Operation>,
) -> Result<(), NoMemory>
    requires { IsPlan (seen whole.now) plan.now }
    ensures { IfOk result (λ _. ops.new ≡ ops.old ++ carried_items (seen whole.now) plan.now.function plan.now.place plan.now.reads plan.now.writes items.now) }
{
    match items.split_first() {
        None => Ok(()),
        Some((item, rest)) => {
            ops.push(carried_item(whole, plan, item)?)?;
            push_items(whole, plan, rest, ops)
        }
    }
}

/// Whether a planned word can go on by itself: it has no split and leaves nothing for slots, and the machine has room for the word
/// that has the goto beside its operations.
#[tactic(auto, using(crate::proofs::Turning::nothing_left))]
fn goes_beside(whole: &Whole, plan: &Plan, word: &Word) -> bool
    requires { IsPlan (seen whole.now) plan.now }
    ensures { result ≡ goes_beside (seen whole.now) plan.now.function plan.now.items.now word.now.ops }
{
    !has_split(plan.items) && plan.left.is_empty() && fits(whole.machine, word)
}

/// A word of some operations, and the goto to a place beside them.
fn going_to(
    alloc: Global,
    whole: &Whole,
    function: u32,
    ops: &[Operation],
    to: u32,
) -> Result<Word, NoMemory>
    ensures { IfOk result (λ word. word ≡ record { ops = ops.now ++ Goto ((seen whole.now).starts function to) ∷ []; idle = 0 }) }
{
    let target = start(whole, function, to);
    let longer = with_item(alloc, ops, Operation::Goto { target })?;
    Ok(Word {
        ops: longer,
        idle: 0,
    })
}

/// The word of a planned one's operations, and the goto beside them that would be the next word, where it can stand there.
#[tactic(auto, using(crate::proofs::Turning::goes_on, crate::proofs::Turning::stays))]
fn with_goto(
    alloc: Global,
    whole: &Whole,
    plan: &Plan,
    ops: Listed<Operation>,
    turn: Option<u32>,
) -> Result<Word, NoMemory>
    requires { IsPlan (seen whole.now) plan.now }
    ensures { IfOk result (λ word. word ≡ record { ops = with_goto (seen whole.now) plan.now.function plan.now.items.now ops turn; idle = 0 }) }
{
    if let Some(to) = turn {
        let word = going_to(alloc, whole, plan.function, ops.as_slice(), to)?;
        if goes_beside(whole, plan, &word) {
            return Ok(word);
        }
    }
    Ok(Word { ops, idle: 0 })
}

/// The word that carries a planned one.
fn plan_word(alloc: Global, whole: &Whole, plan: &Plan) -> Result<Word, NoMemory>
    requires { IsPlan (seen whole.now) plan.now }
    ensures { IfOk result (λ word. word ≡ plan_word (seen whole.now) plan.now.function plan.now.place plan.now.items.now) }
{
    let next = sum(plan.place, 1)?;
    let to = turn(whole, plan.function, next)?;
    let mut ops = Listed::new(alloc);
    push_items(whole, plan, plan.items, &mut ops)?;
    with_goto(alloc, whole, plan, ops, to)
}

/// Brings those of some values that are in slots to their scratch registers, each once, and waits for them.
fn push_before(
    alloc: Global,
    whole: &Whole,
    function: u32,
    reads: &[Value],
    words: &mut Listed<Word>,
) -> Result<(), NoMemory>
    ensures { IfOk result (λ _. words.new ≡ words.old ++ before (seen whole.now) function reads.now) }
{
    let found = slotted(alloc, whole, function, reads)?;
    if found.is_empty() {
        return Ok(());
    }
    let loaded = once(alloc, found.as_slice())?;
    let begin = words.len();
    load_slots(alloc, whole, function, reads, loaded.as_slice(), words)?;
    push_wait(alloc, whole, begin, words)
}

/// Waits for the results of a word, and stores those that belong to slots.
fn push_behind(
    alloc: Global,
    whole: &Whole,
    plan: &Plan,
    words: &mut Listed<Word>,
) -> Result<(), NoMemory>
    requires { IsPlan (seen whole.now) plan.now }
    ensures { IfOk result (λ _. words.new ≡ words.old ++ behind (seen whole.now) plan.now.function plan.now.items.now) }
{
    if plan.left.is_empty() {
        return Ok(());
    }
    push_pause(alloc, plan.pause, words)?;
    store_slots(
        alloc,
        whole,
        plan.function,
        plan.writes.as_slice(),
        plan.left.as_slice(),
        words,
    )
}

/// The words that carry a planned word; gives the place of its operations.
pub fn push_plan(
    alloc: Global,
    whole: &Whole,
    plan: &Plan,
    words: &mut Listed<Word>,
) -> Result<u32, NoMemory>
    requires { IsPlan (seen whole.now) plan.now }
    ensures words { IfOk result (λ _. words.new ≡ words.old ++ plan_words (seen whole.now) plan.now.function plan.now.place plan.now.items.now) }
    ensures place { IfOk result (λ place. place ≡ length words.old + length (before (seen whole.now) plan.now.function (laid_reads plan.now.items.now))) }
{
    push_before(alloc, whole, plan.function, plan.reads.as_slice(), words)?;
    let place = words.len() as u32;
    words.push(plan_word(alloc, whole, plan)?)?;
    push_behind(alloc, whole, plan, words)?;
    Ok(place)
}

/// The words at which a taken split of a planned word lands.
fn push_landing(
    alloc: Global,
    whole: &Whole,
    plan: &Plan,
    to: u32,
    words: &mut Listed<Word>,
) -> Result<(), NoMemory>
    requires { IsPlan (seen whole.now) plan.now }
    ensures { IfOk result (λ _. words.new ≡ words.old ++ landing_words (seen whole.now) plan.now.function plan.now.items.now to) }
{
    push_behind(alloc, whole, plan, words)?;
    let target = start(whole, plan.function, past(whole, plan.function, to));
    push_one(alloc, Operation::Goto { target }, words)
}

/// The landing of an item of a planned word, where it has one; where it stands is noted for each split.
fn push_item_landing(
    alloc: Global,
    whole: &Whole,
    plan: &Plan,
    item: &Laid,
    words: &mut Listed<Word>,
    spots: &mut Listed<SplitLanding>,
) -> Result<(), NoMemory>
    requires { IsPlan (seen whole.now) plan.now }
    ensures words { IfOk result (λ _. words.new ≡ words.old ++ words_of (item_landings (seen whole.now) plan.now.function plan.now.place plan.now.items.now (item.now ∷ []))) }
    ensures spots { IfOk result (λ _. spots.new ≡ spots.old ++ item_spots (seen whole.now) plan.now.function plan.now.place (length words.old) plan.now.items.now (item.now ∷ [])) }
{
    match item {
        Laid::Plain { .. } => Ok(()),
        Laid::Split { place, .. } => {
            let at = words.len() as u32;
            spots.push(SplitLanding { to: *place, at })?;
            if plan.left.is_empty() {
                Ok(())
            } else {
                push_landing(alloc, whole, plan, *place, words)
            }
        }
    }
}

/// The landings of some items of a planned word, and where they stand.
pub fn push_item_landings(
    alloc: Global,
    whole: &Whole,
    plan: &Plan,
    items: &[Laid],
    words: &mut Listed<Word>,
    spots: &mut Listed<SplitLanding>,
) -> Result<(), NoMemory>
    requires { IsPlan (seen whole.now) plan.now }
    ensures words { IfOk result (λ _. words.new ≡ words.old ++ words_of (item_landings (seen whole.now) plan.now.function plan.now.place plan.now.items.now items.now)) }
    ensures spots { IfOk result (λ _. spots.new ≡ spots.old ++ item_spots (seen whole.now) plan.now.function plan.now.place (length words.old) plan.now.items.now items.now) }
{
    match items.split_first() {
        None => Ok(()),
        Some((item, rest)) => {
            push_item_landing(alloc, whole, plan, item, words, spots)?;
            push_item_landings(alloc, whole, plan, rest, words, spots)
        }
    }
}

/// The words that go on to a place, past its transfers, where a test is 1.
pub fn push_choice(
    alloc: Global,
    whole: &Whole,
    function: u32,
    test: Value,
    to: u32,
    words: &mut Listed<Word>,
) -> Result<(), NoMemory>
    ensures { IfOk result (λ _. words.new ≡ words.old ++ choice_words (seen whole.now) function test to) }
{
    let names = [test];
    push_before(alloc, whole, function, &names, words)?;
    let branch = Operation::BranchOn {
        test: branch_of(whole, function, &names, test),
        taken_at_one: true,
        target: start(whole, function, past(whole, function, to)),
    };
    push_one(alloc, branch, words)
}
