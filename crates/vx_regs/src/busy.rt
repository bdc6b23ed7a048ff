// The hulls of the places at which values are busy. A value that is live within a way is named on it further on, or live where
// the way ends; so it is enough to note where words name values, which are live at nodes, and which at the words that lead there.
// A write is followed along all ways until it has landed. The clause of `hulls_of` carries the promise.

ghost use Rattle.std.specs.Prelude.{◌≡◌, ◌<◌, ◌+◌, ◌-◌, ◌++◌, ◌∷◌, [], ℕ, OnOk, IfOk, Some, length, slice_get};
ghost use Rattle.std.specs.List.{flat_map};
ghost use Rattle.vx_room.specs.Items.{latency_of_op};
ghost use Rattle.vx_mixed.specs.LaidSettled.{LeadsTo, cycles_of};
ghost use Rattle.vx_mixed.specs.declared.layout.VirtualWord.{VirtualWord as AWord};
ghost use Rattle.vx_regs.specs.BusyPlaces.{AmongAt, AreHulls, InFlight, InFlights, LiveAmong, LiveBelow, LiveNear, NamedBelow, OneBelow, OpWrote, WordWrote, Wrote, WroteBelow, leads_list, nodes_near, split_places};
ghost use Rattle.vx_regs.specs.Hulls.{Notes};
ghost use Rattle.vx_regs.specs.Intervals.{word_reads, word_writes};
ghost use Rattle.vx_regs.specs.Ways.{LivesAtNodes};

use crate::hulls::{Hull, note};
use crate::liveness::{Living, living_of};
use crate::nodes::{Nodes, push_node, push_ways};
use crate::touches::{word_reads, word_writes, written};
use std::alloc::Global;
use vx_base::listed::Listed;
use vx_base::outcome::NoMemory;
use vx_base::sizes::{number_of, sum};
use vx_flow::graph::{Op, Value};
use vx_flow::live_rows::Live;
use vx_machine::Machine;
use vx_mixed::layout::{Laid, VWords, VirtualWord};
use vx_room::items::Item;

#[tactic(auto, using(crate::proofs::BusyNotes::values_none, crate::proofs::BusyNotes::values_more))]
fn note_values(hulls: &mut Vec<Option<Hull>>, values: &[Value], place: u32) -> Result<(), NoMemory>
    ensures { OnOk result (Notes (AmongAt values.now place) hulls.old.items hulls.new.items) }
{
    match values.split_first() {
        None => Ok(()),
        Some((value, rest)) => {
            note(hulls, *value, place)?;
            note_values(hulls, rest, place)
        }
    }
}

/// Notes the values that a word names.
fn note_named(
    alloc: Global,
    hulls: &mut Vec<Option<Hull>>,
    place: u32,
    word: &VirtualWord,
) -> Result<(), NoMemory>
    ensures { OnOk result (Notes (AmongAt (word_reads word.now ++ word_writes word.now) place) hulls.old.items hulls.new.items) }
{
    let reads = word_reads(alloc, word)?;
    note_values(hulls, reads.as_slice(), place)?;
    let writes = word_writes(alloc, word)?;
    note_values(hulls, writes.as_slice(), place)
}

/// Notes all values that words name.
#[tactic(auto, using(crate::proofs::BusyNotes::names_first, crate::proofs::BusyNotes::names_next))]
fn note_names(
    alloc: Global,
    hulls: &mut Vec<Option<Hull>>,
    words: &[VirtualWord],
) -> Result<(), NoMemory>
    ensures { OnOk result (Notes (NamedBelow words.now (length words.now)) hulls.old.items hulls.new.items) }
{
    for (place, word) in words.iter().enumerate() {
        note_named(alloc, hulls, number_of(place)?, word)?;
    }
    Ok(())
}

/// Notes those of the first values that are live at a node.
fn note_live(
    hulls: &mut Vec<Option<Hull>>,
    live: &Live,
    node: u32,
    place: u32,
    count: u32,
) -> Result<(), NoMemory>
    ensures { OnOk result (Notes (LiveBelow live.now node place count) hulls.old.items hulls.new.items) }
{
    let values = live.values_at(node);
    for value in values {
        note_below(hulls, *value, place, count)?;
    }
    Ok(())
}

/// Notes a value if it is one of the first.
#[tactic(auto, using(crate::proofs::BusyNotes::below_one, crate::proofs::BusyNotes::beyond_one))]
fn note_below(
    hulls: &mut Vec<Option<Hull>>,
    value: Value,
    place: u32,
    count: u32,
) -> Result<(), NoMemory>
    ensures { OnOk result (Notes (OneBelow value place count) hulls.old.items hulls.new.items) }
{
    if value < count {
        note(hulls, value, place)?;
    }
    Ok(())
}

/// Notes those that are live at one of some nodes.
#[tactic(auto, using(crate::proofs::BusyNotes::among_none, crate::proofs::BusyNotes::among_more))]
fn note_live_among(
    hulls: &mut Vec<Option<Hull>>,
    live: &Live,
    nodes: &[u32],
    place: u32,
    count: u32,
) -> Result<(), NoMemory>
    ensures { OnOk result (Notes (LiveAmong live.now nodes.now place count) hulls.old.items hulls.new.items) }
{
    match nodes.split_first() {
        None => Ok(()),
        Some((node, rest)) => {
            note_live(hulls, live, *node, place, count)?;
            note_live_among(hulls, live, rest, place, count)
        }
    }
}

/// The nodes at a place and behind its word.
fn nodes_near(
    alloc: Global,
    nodes: &Nodes,
    place: u32,
    word: &VirtualWord,
) -> Result<Listed<u32>, NoMemory>
    ensures { IfOk result (λ near. near ≡ nodes_near nodes.now.numbers place word.now) }
{
    let mut near = Listed::new(alloc);
    push_node(nodes, place, &mut near)?;
    push_ways(nodes, sum(place, 1)?, word, &mut near)?;
    Ok(near)
}

/// Notes where values are live at nodes, and at the words that lead there.
#[tactic(auto, using(crate::proofs::BusyNotes::near_first, crate::proofs::BusyNotes::near_next))]
fn note_lives(
    alloc: Global,
    hulls: &mut Vec<Option<Hull>>,
    living: &Living,
    words: &[VirtualWord],
    count: u32,
) -> Result<(), NoMemory>
    ensures { OnOk result (Notes (LiveNear living.now.live living.now.nodes.numbers words.now count (length words.now)) hulls.old.items hulls.new.items) }
{
    for (place, word) in words.iter().enumerate() {
        let number = number_of(place)?;
        let near = nodes_near(alloc, &living.nodes, number, word)?;
        note_live_among(hulls, &living.live, near.as_slice(), number, count)?;
    }
    Ok(())
}

fn push_splits(places: &mut Listed<u32>, items: &[Laid]) -> Result<(), NoMemory>
    ensures { IfOk result (λ _. places.new ≡ places.old ++ flat_map split_places items.now) }
{
    match items.split_first() {
        None => Ok(()),
        Some((item, rest)) => {
            match item {
                Laid::Plain { .. } => {}
                Laid::Split { place, .. } => places.push(*place)?,
            }
            push_splits(places, rest)
        }
    }
}

/// Adds the place behind a word.
fn push_next(places: &mut Listed<u32>, place: u32) -> Result<(), NoMemory>
    ensures { IfOk result (λ _. places.new ≡ places.old ++ (place + 1) ∷ []) }
{
    places.push(sum(place, 1)?)?;
    Ok(())
}

/// Adds where a word at a place leads.
fn push_leads(places: &mut Listed<u32>, place: u32, word: &VirtualWord) -> Result<(), NoMemory>
    ensures { IfOk result (λ _. places.new ≡ places.old ++ leads_list place word.now) }
{
    match word {
        VirtualWord::Planned { items, .. } => {
            push_splits(places, items.as_slice())?;
            push_next(places, place)
        }
        VirtualWord::Transfer(to) => {
            places.push(*to)?;
            Ok(())
        }
        VirtualWord::Choice { place: to, .. } => {
            places.push(*to)?;
            push_next(places, place)
        }
        VirtualWord::Drain(_) | VirtualWord::Call { .. } => push_next(places, place),
        VirtualWord::Return(_) | VirtualWord::Ends(_) => Ok(()),
    }
}

/// Where a word at a place leads.
pub(crate) fn leads_list(
    alloc: Global,
    place: u32,
    word: &VirtualWord,
) -> Result<Listed<u32>, NoMemory>
    ensures { IfOk result (λ places. places ≡ leads_list place word.now) }
{
    let mut places = Listed::new(alloc);
    push_leads(&mut places, place, word)?;
    Ok(places)
}

/// How many cycles a word takes.
fn cycles_of(word: &VirtualWord) -> u32
    ensures { result ≡ cycles_of word.now }
{
    match word {
        VirtualWord::Planned { .. } => 1,
        VirtualWord::Drain(cycles) => *cycles,
        VirtualWord::Transfer(_) => 1,
        VirtualWord::Choice { .. } => 1,
        VirtualWord::Call { .. } => 1,
        VirtualWord::Return(_) => 1,
        VirtualWord::Ends(_) => 1,
    }
}

/// Follows a write that has so many cycles left at a place, until it has landed.
#[cycle(flights)]
#[tactic(auto, using(crate::proofs::BusyNotes::flight_over, crate::proofs::BusyNotes::flight_nowhere, crate::proofs::BusyNotes::flight_on, crate::proofs::BusyNotes::flight_still))]
fn note_flight(
    alloc: Global,
    hulls: &mut Vec<Option<Hull>>,
    words: &[VirtualWord],
    value: Value,
    place: u32,
    left: u32,
) -> Result<(), NoMemory>
    ensures { OnOk result (Notes (InFlight words.now place left value) hulls.old.items hulls.new.items) }
{
    if left == 0 {
        return Ok(());
    }
    note(hulls, value, place)?;
    match words.get(place as usize) {
        None => Ok(()),
        Some(word) => {
            let cycles = cycles_of(word);
            if cycles == 0 {
                return note_flight(alloc, hulls, words, value, sum(place, 1)?, left);
            }
            let targets = leads_list(alloc, place, word)?;
            note_flights(
                alloc,
                hulls,
                words,
                value,
                targets.as_slice(),
                left.saturating_sub(cycles),
            )
        }
    }
}

/// The same from several places.
#[cycle(flights)]
#[tactic(auto, using(crate::proofs::BusyNotes::flights_none, crate::proofs::BusyNotes::flights_more))]
fn note_flights(
    alloc: Global,
    hulls: &mut Vec<Option<Hull>>,
    words: &[VirtualWord],
    value: Value,
    targets: &[u32],
    left: u32,
) -> Result<(), NoMemory>
    ensures { OnOk result (Notes (InFlights words.now targets.now left value) hulls.old.items hulls.new.items) }
{
    match targets.split_first() {
        None => Ok(()),
        Some((target, rest)) => {
            note_flight(alloc, hulls, words, value, *target, left)?;
            note_flights(alloc, hulls, words, value, rest, left)
        }
    }
}

/// Follows what an operation writes, from where its word leads.
#[tactic(auto, using(crate::proofs::BusyNotes::op_none, crate::proofs::BusyNotes::op_one))]
fn note_op(
    alloc: Global,
    hulls: &mut Vec<Option<Hull>>,
    machine: &Machine,
    words: &[VirtualWord],
    op: &Op,
    targets: &[u32],
) -> Result<(), NoMemory>
    ensures { OnOk result (Notes (OpWrote (latency_of_op machine.now) words.now op.now targets.now) hulls.old.items hulls.new.items) }
{
    match written(op) {
        None => Ok(()),
        Some(value) => {
            let left = Item::Plain(*op).latency(machine).saturating_sub(1);
            note_flights(alloc, hulls, words, value, targets, left)
        }
    }
}

/// The same of an item.
#[tactic(auto, using(crate::proofs::BusyNotes::item_plain, crate::proofs::BusyNotes::item_split))]
fn note_item(
    alloc: Global,
    hulls: &mut Vec<Option<Hull>>,
    machine: &Machine,
    words: &[VirtualWord],
    item: &Laid,
    targets: &[u32],
) -> Result<(), NoMemory>
    ensures { OnOk result (Notes (Wrote (latency_of_op machine.now) words.now (item.now ∷ []) targets.now) hulls.old.items hulls.new.items) }
{
    match item {
        Laid::Plain { op, .. } => note_op(alloc, hulls, machine, words, op, targets),
        Laid::Split { .. } => Ok(()),
    }
}

/// The same of all items of a word.
#[tactic(auto, using(crate::proofs::BusyNotes::items_none, crate::proofs::BusyNotes::items_more))]
fn note_items(
    alloc: Global,
    hulls: &mut Vec<Option<Hull>>,
    machine: &Machine,
    words: &[VirtualWord],
    items: &[Laid],
    targets: &[u32],
) -> Result<(), NoMemory>
    ensures { OnOk result (Notes (Wrote (latency_of_op machine.now) words.now items.now targets.now) hulls.old.items hulls.new.items) }
{
    match items.split_first() {
        None => Ok(()),
        Some((item, rest)) => {
            note_item(alloc, hulls, machine, words, item, targets)?;
            note_items(alloc, hulls, machine, words, rest, targets)
        }
    }
}

/// The same of the word at a place.
#[tactic(auto, using(crate::proofs::BusyNotes::word_planned, crate::proofs::BusyNotes::word_other))]
fn note_word(
    alloc: Global,
    hulls: &mut Vec<Option<Hull>>,
    machine: &Machine,
    words: &[VirtualWord],
    place: u32,
    word: &VirtualWord,
) -> Result<(), NoMemory>
    ensures { OnOk result (Notes (WordWrote (latency_of_op machine.now) words.now place word.now) hulls.old.items hulls.new.items) }
{
    match word {
        VirtualWord::Planned { items, .. } => {
            let targets = leads_list(alloc, place, word)?;
            note_items(
                alloc,
                hulls,
                machine,
                words,
                items.as_slice(),
                targets.as_slice(),
            )
        }
        _ => Ok(()),
    }
}

/// Notes where writes are in flight.
#[tactic(auto, using(crate::proofs::BusyNotes::wrote_first, crate::proofs::BusyNotes::wrote_next))]
fn note_pending(
    alloc: Global,
    hulls: &mut Vec<Option<Hull>>,
    machine: &Machine,
    words: &[VirtualWord],
) -> Result<(), NoMemory>
    ensures { OnOk result (Notes (WroteBelow (latency_of_op machine.now) words.now (length words.now)) hulls.old.items hulls.new.items) }
{
    for (place, word) in words.iter().enumerate() {
        note_word(alloc, hulls, machine, words, number_of(place)?, word)?;
    }
    Ok(())
}

/// The hulls of the places at which values are busy.
pub(crate) fn hulls_of(
    alloc: Global,
    layout: &VWords,
    machine: &Machine,
) -> Result<Vec<Option<Hull>>, NoMemory>
    requires inside { (p q : ℕ) (word : AWord) → slice_get layout.now.words p ≡ Some word → LeadsTo p word q → q < length layout.now.words }
    ensures { IfOk result (λ hulls. AreHulls (latency_of_op machine.now) layout.now hulls.items) }
{
    let living = living_of(alloc, layout)?;
    hulls_with(alloc, layout, machine, &living)
}

/// The same, where this is what is live.
fn hulls_with(
    alloc: Global,
    layout: &VWords,
    machine: &Machine,
    living: &Living,
) -> Result<Vec<Option<Hull>>, NoMemory>
    requires inside { (p q : ℕ) (word : AWord) → slice_get layout.now.words p ≡ Some word → LeadsTo p word q → q < length layout.now.words }
    requires living { LivesAtNodes layout.now living.now }
    ensures { IfOk result (λ hulls. AreHulls (latency_of_op machine.now) layout.now hulls.items) }
{
    let words = layout.words.as_slice();
    let mut hulls = Vec::new(alloc);
    note_names(alloc, &mut hulls, words)?;
    let count = number_of(hulls.len())?;
    note_lives(alloc, &mut hulls, living, words, count)?;
    note_pending(alloc, &mut hulls, machine, words)?;
    Ok(hulls)
}
