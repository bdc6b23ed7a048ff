// What stands in the frames of functions: the link is the first word, then come the slots of those values that need one, in
// ascending order, and then the function's own arrays.

ghost use Rattle.std.specs.Prelude.{◌≡◌, ◌<◌, ◌≤◌, ℕ, true, Some, [], ◌∷◌, ◌++◌, length, slice_get, slice_index_or, IfOk, OnOk};
ghost use Rattle.vx_mixed.specs.declared.layout.VirtualWord.{VirtualWord as AWord};
ghost use Rattle.vx_mixed.specs.LaidSettled.{LeadsTo};
ghost use Rattle.vx_regs.specs.Marks.{is_marked};
ghost use Rattle.vx_calls.specs.Framing.{IsFrameOf};
ghost use Rattle.vx_slots.specs.Seen.{no_frame, no_graph, no_layout, no_map};
ghost use Rattle.vx_calls.specs.Slots.{FrameStands, Marking, MarksJust, arrays_end, arrays_from, in_slots, joined, slots_end, slots_from};

use crate::saves::{Saves, saves_of};
use std::alloc::Global;
use vx_base::listed::Listed;
use vx_base::outcome::NoMemory;
use vx_base::sizes::{number_of, sum};
use vx_flow::graph::{Array, Graph, Value};
use vx_mixed::layout::VWords;
use vx_regs::map::{Kept, RegMap};
use vx_slots::program::FunctionFrame;

/// Makes room for the mark of a value.
#[tactic(auto, using(vx_regs::proofs::Marking::kept_pushed, crate::proofs::Marked::only_pushed))]
fn reach(marks: &mut Vec<bool>, place: usize) -> Result<(), NoMemory>
    ensures room { OnOk result (place < length marks.new.items) }
    ensures kept { OnOk result ((v : ℕ) → is_marked marks.old.items v ≡ true → is_marked marks.new.items v ≡ true) }
    ensures only { OnOk result ((v : ℕ) → is_marked marks.new.items v ≡ true → is_marked marks.old.items v ≡ true) }
{
    'grow: while marks.len() <= place {
        marks.push(false)?;
    }
    Ok(())
}

/// Marks a value as one that needs a slot.
#[tactic(auto, using(crate::proofs::Marked::just_one))]
fn mark(marks: &mut Vec<bool>, value: Value) -> Result<(), NoMemory>
    ensures { OnOk result (MarksJust (value ∷ []) marks.old.items marks.new.items) }
{
    let place = value as usize;
    reach(marks, place)?;
    marks[place] = true;
    Ok(())
}

fn mark_all(marks: &mut Vec<bool>, values: &[Value]) -> Result<(), NoMemory>
    ensures { OnOk result (MarksJust values.now marks.old.items marks.new.items) }
{
    for value in values {
        mark(marks, *value)?;
    }
    Ok(())
}

fn mark_saved(marks: &mut Vec<bool>, saved: &[Listed<Value>]) -> Result<(), NoMemory>
    ensures { OnOk result (MarksJust (joined saved.now) marks.old.items marks.new.items) }
{
    for values in saved {
        mark_all(marks, values.as_slice())?;
    }
    Ok(())
}

fn mark_slotted(marks: &mut Vec<bool>, kept: &[Kept]) -> Result<(), NoMemory>
    ensures { OnOk result (MarksJust (in_slots 0 kept.now) marks.old.items marks.new.items) }
{
    for (value, kept) in kept.iter().enumerate() {
        if let Kept::InSlot(_) = kept {
            mark(marks, number_of(value)?)?;
        }
    }
    Ok(())
}

/// A list of words of a frame or of memory, and the word behind the last one that is taken.
#[derive(Drop)]
struct Taken {
    words: Listed<u32>,
    next: u32,
}

/// A word for each marked value, from word 1 on.
fn slots(alloc: Global, marks: &[bool]) -> Result<Taken, NoMemory>
    ensures words { IfOk result (λ taken. taken.words ≡ slots_from 1 marks.now) }
    ensures next { IfOk result (λ taken. taken.next ≡ slots_end 1 marks.now) }
{
    let mut words = Listed::new(alloc);
    let mut next = 1;
    for marked in marks {
        if *marked {
            words.push(next)?;
            next = sum(next, 1)?;
        } else {
            words.push(0)?;
        }
    }
    Ok(Taken { words, next })
}

/// Where each array begins: globals in memory, the others one after the other from a word of the frame on.
fn arrays(alloc: Global, arrays: &[Array], addresses: &[u32], from: u32) -> Result<Taken, NoMemory>
    ensures words { IfOk result (λ taken. taken.words ≡ arrays_from from arrays.now addresses.now) }
    ensures next { IfOk result (λ taken. taken.next ≡ arrays_end from arrays.now addresses.now) }
{
    let mut words = Listed::new(alloc);
    let mut next = from;
    for (place, array) in arrays.iter().enumerate() {
        match addresses.get(place) {
            Some(address) => words.push(*address)?,
            None => {
                words.push(next)?;
                next = sum(next, array.words)?;
            }
        }
    }
    Ok(Taken { words, next })
}

/// The slots of a function's values, where its arrays begin, and the words of its frame.
#[derive(Drop)]
pub(crate) struct Stood {
    pub(crate) slots: Listed<u32>,
    pub(crate) arrays: Listed<u32>,
    pub(crate) words: u32,
}

/// A mark for each value that needs a slot: a parameter, one that is kept in a slot, or one that is saved round a call.
fn needing(
    alloc: Global,
    parameters: &[Value],
    kept: &[Kept],
    saved: &[Listed<Value>],
) -> Result<Vec<bool>, NoMemory>
    ensures { IfOk result (λ marks. MarksJust (parameters.now ++ (in_slots 0 kept.now ++ joined saved.now)) [] marks.items) }
{
    let mut marks = Vec::new(alloc);
    mark_all(&mut marks, parameters)?;
    mark_slotted(&mut marks, kept)?;
    mark_saved(&mut marks, saved)?;
    Ok(marks)
}

/// Slots and arrays of a function, where these values are saved round its calls.
pub(crate) fn standing(
    alloc: Global,
    graph: &Graph,
    map: &RegMap,
    saved: &[Listed<Value>],
    addresses: &[u32],
) -> Result<Stood, NoMemory>
    ensures { IfOk result (λ stood. FrameStands graph.now.parameters map.now saved.now graph.now.arrays addresses.now stood.slots stood.arrays stood.words) }
{
    let kept = map.values.as_slice();
    let marks = needing(alloc, graph.parameters.as_slice(), kept, saved)?;
    let slots = slots(alloc, marks.as_slice())?;
    let arrays = arrays(alloc, graph.arrays.as_slice(), addresses, slots.next)?;
    Ok(Stood {
        slots: slots.words,
        arrays: arrays.words,
        words: arrays.next,
    })
}

/// What stands in the frame of a function, where each global begins at an address.
fn frame_of(
    alloc: Global,
    graph: &Graph,
    layout: &VWords,
    map: &RegMap,
    addresses: &[u32],
) -> Result<FunctionFrame, NoMemory>
    requires inside { (p q : ℕ) (word : AWord) → slice_get layout.now.words p ≡ Some word → LeadsTo p word q → q < length layout.now.words }
    requires entry { layout.now.entry < length layout.now.words }
    ensures { IfOk result (λ frame. IsFrameOf graph.now layout.now map.now addresses.now frame) }
{
    let saves = saves_of(alloc, graph, layout, map)?;
    let stood = standing(alloc, graph, map, saves.saved.as_slice(), addresses)?;
    Ok(FunctionFrame {
        slots: stood.slots,
        arrays: stood.arrays,
        saved: saves.saved,
        brought: saves.brought,
        words: stood.words,
    })
}

/// The frames of all functions.
pub fn frames(
    alloc: Global,
    graphs: &[Graph],
    layouts: &[VWords],
    maps: &[RegMap],
    addresses: &[u32],
) -> Result<Listed<FunctionFrame>, NoMemory>
    requires layouts { length layouts.now ≡ length graphs.now }
    requires maps { length maps.now ≡ length graphs.now }
    requires inside { (f p q : ℕ) (word : AWord) → f < length graphs.now → slice_get (slice_index_or layouts.now f no_layout).words p ≡ Some word → LeadsTo p word q → q < length (slice_index_or layouts.now f no_layout).words }
    requires entry { (f : ℕ) → f < length graphs.now → (slice_index_or layouts.now f no_layout).entry < length (slice_index_or layouts.now f no_layout).words }
    ensures each { IfOk result (λ frames. length frames ≡ length graphs.now) }
    ensures stand { IfOk result (λ frames. (f : ℕ) → f < length graphs.now → IsFrameOf (slice_index_or graphs.now f no_graph) (slice_index_or layouts.now f no_layout) (slice_index_or maps.now f no_map) addresses.now (slice_index_or frames f no_frame)) }
{
    let mut frames = Listed::new(alloc);
    for function in 0..graphs.len() {
        let graph = &graphs[function];
        let layout = &layouts[function];
        let map = &maps[function];
        frames.push(frame_of(alloc, graph, layout, map, addresses)?)?;
    }
    Ok(frames)
}

/// The words of the largest frame; the link needs one.
pub fn frame_size(frames: &[FunctionFrame]) -> u32
    ensures some { 1 ≤ result }
    ensures most { (f : ℕ) → (slice_index_or frames.now f no_frame).words ≤ result }
    ensures least { (n : ℕ) → 1 ≤ n → ((f : ℕ) → f < length frames.now → (slice_index_or frames.now f no_frame).words ≤ n) → result ≤ n }
{
    let mut most = 1;
    for frame in frames {
        most = most.max(frame.words);
    }
    most
}
