// An estimate of the plan of a row of blocks: greater heights first, each step in the first word that its delays allow and that has
// room (docs/COMPILING.md, "Placement").

use crate::sketch::{Ground, Sketch, as_number};
use crate::steps::{Effect, Step, delay_of};
use crate::units::{Unit, Units};
use std::alloc::Global;
use vx_base::outcome::NoMemory;

/// What stands in a word so far.
#[derive(Clone, Copy)]
struct Used {
    slots: u32,
    first_slots: u32,
    alus: u32,
    multipliers: u32,
    memory_units: u32,
    splits: u32,
    shown: u32,
}

const UNUSED: Used = Used {
    slots: 0,
    first_slots: 0,
    alus: 0,
    multipliers: 0,
    memory_units: 0,
    splits: 0,
    shown: 0,
};

/// The word of each step, the cycles from there until what hangs on it has landed and the row can be left, and the cycles from the
/// first word until the row is left at its end.
#[derive(Drop)]
pub(crate) struct Plan {
    pub words: Vec<u32>,
    pub tails: Vec<u32>,
    pub cycles: u32,
    /// The same if the way on had a word of its own.
    pub apart: u32,
}

/// By how many words a step has to stand behind one above it.
#[derive(Clone, Copy)]
struct Delay {
    below: usize,
    words: u32,
}

/// The delays behind each step, one step after the other, and where those of each begin.
#[derive(Drop)]
struct Delays {
    all: Vec<Delay>,
    starts: Vec<usize>,
}

impl Delays {
    /// The delays behind a step.
    fn behind(&self, above: usize) -> &[Delay] {
        let start = self.start_of(above);
        let end = self.start_of(above.saturating_add(1));
        if start <= end && end <= self.all.len() {
            &self.all[start..end]
        } else {
            &[]
        }
    }

    fn start_of(&self, step: usize) -> usize {
        match self.starts.get(step) {
            Some(start) => *start,
            None => self.all.len(),
        }
    }
}

fn delays_of(
    alloc: Global,
    ground: &Ground,
    sketch: &Sketch,
    steps: &[Step],
) -> Result<Delays, NoMemory> {
    let mut delays = Delays {
        all: Vec::new(alloc),
        starts: Vec::new(alloc),
    };
    for (above, first) in steps.iter().enumerate() {
        delays.starts.push(delays.all.len())?;
        push_delays(ground, sketch, steps, above, first, &mut delays.all)?;
    }
    Ok(delays)
}

fn push_delays(
    ground: &Ground,
    sketch: &Sketch,
    steps: &[Step],
    above: usize,
    first: &Step,
    all: &mut Vec<Delay>,
) -> Result<(), NoMemory> {
    for (below, second) in steps.iter().enumerate() {
        if above < below {
            match delay_of(ground, sketch, first, second) {
                Some(words) => all.push(Delay { below, words })?,
                None => {}
            }
        }
    }
    Ok(())
}

/// The greatest sum of a delay and the height of the later step, for each.
fn heights_of(alloc: Global, delays: &Delays, count: usize) -> Result<Vec<u32>, NoMemory> {
    let mut heights = vec![in alloc; 0u32; count]?;
    for behind in 0..count {
        let above = count - 1 - behind;
        let height = height_by(delays.behind(above), heights.as_slice());
        set(&mut heights, above, height);
    }
    Ok(heights)
}

fn height_by(delays: &[Delay], heights: &[u32]) -> u32 {
    let mut height = 0u32;
    for delay in delays {
        let other = number_at(heights, delay.below);
        height = height.max(delay.words.saturating_add(other));
    }
    height
}

fn set(numbers: &mut Vec<u32>, place: usize, number: u32) {
    if place < numbers.len() {
        numbers[place] = number;
    }
}

/// The estimated plan of steps.
pub(crate) fn plan_of(
    alloc: Global,
    ground: &Ground,
    sketch: &Sketch,
    steps: &[Step],
) -> Result<Plan, NoMemory> {
    let delays = delays_of(alloc, ground, sketch, steps)?;
    let tails = tails_of(alloc, steps, &delays)?;
    let laid = laid_by(alloc, ground.units, steps, &delays)?;
    let cycles = cycles_of(ground.units, steps, &laid);
    let apart = cycles.max(as_number(laid.used.len()).saturating_add(1));
    Ok(Plan {
        words: laid.words,
        tails,
        cycles,
        apart,
    })
}

/// Marks a step that has no word yet.
const NO_WORD: u32 = 4294967295;

/// The word of each step, and what stands in each word.
#[derive(Drop)]
struct LaidSteps {
    words: Vec<u32>,
    used: Vec<Used>,
}

fn laid_by(
    alloc: Global,
    units: &Units,
    steps: &[Step],
    delays: &Delays,
) -> Result<LaidSteps, NoMemory> {
    let heights = heights_of(alloc, delays, steps.len())?;
    laid_of(alloc, units, steps, delays, heights.as_slice())
}

fn laid_of(
    alloc: Global,
    units: &Units,
    steps: &[Step],
    delays: &Delays,
    heights: &[u32],
) -> Result<LaidSteps, NoMemory> {
    let mut words = vec![in alloc; NO_WORD; steps.len()]?;
    let mut ready = vec![in alloc; 0u32; steps.len()]?;
    let mut used = Vec::new(alloc);
    for _ in 0..steps.len() {
        match next_step(words.as_slice(), heights) {
            Some(place) => match steps.get(place) {
                Some(step) => {
                    let first = number_at(ready.as_slice(), place);
                    let word = put(units, &mut used, step, first)?;
                    set(&mut words, place, word);
                    delay_each(&mut ready, delays.behind(place), word);
                }
                None => {}
            },
            None => {}
        }
    }
    Ok(LaidSteps { words, used })
}

/// The step with the greatest height among those without a word, the first of several.
fn next_step(words: &[u32], heights: &[u32]) -> Option<usize> {
    let mut best = None;
    let mut more = 0u32;
    for (place, height) in heights.iter().enumerate() {
        if number_at(words, place) == NO_WORD && *height >= more {
            best = Some(place);
            more = height.saturating_add(1);
        }
    }
    best
}

/// Notes the first word that those behind a step in a word may have.
fn delay_each(ready: &mut Vec<u32>, delays: &[Delay], word: u32) {
    for delay in delays {
        let first = number_at(ready.as_slice(), delay.below);
        set(
            ready,
            delay.below,
            first.max(word.saturating_add(delay.words)),
        );
    }
}

/// The most words of a plan.
const MOST_WORDS: usize = 4096;

/// Puts a step into the first word from one on that has room for it. Answers the word.
fn put(units: &Units, used: &mut Vec<Used>, step: &Step, ready: u32) -> Result<u32, NoMemory> {
    let wanted = (ready as usize).saturating_add(1).min(MOST_WORDS);
    for _ in 0..wanted.saturating_sub(used.len()) {
        used.push(UNUSED)?;
    }
    let word = first_room(units, used.as_slice(), step, ready as usize);
    if word >= used.len() {
        used.push(UNUSED)?;
    }
    fill(used, word, step);
    Ok(as_number(word))
}

fn first_room(units: &Units, used: &[Used], step: &Step, ready: usize) -> usize {
    for (word, found) in used.iter().enumerate() {
        if word >= ready && has_room(units, *found, step) {
            return word;
        }
    }
    used.len()
}

fn fill(used: &mut Vec<Used>, word: usize, step: &Step) {
    if word < used.len() {
        used[word] = with_step(used[word], step);
    }
}

fn has_room(units: &Units, used: Used, step: &Step) -> bool {
    let more = with_step(used, step);
    more.slots <= units.slots
        && more.first_slots <= units.first_slots
        && more.alus <= units.alus
        && more.multipliers <= units.multipliers
        && more.memory_units <= units.memory_units
        && more.splits <= units.branches
        && more.shown <= 1
}

fn one_if(is_one: bool) -> u32 {
    if is_one { 1 } else { 0 }
}

fn with_step(used: Used, step: &Step) -> Used {
    let leaves = match step.effect {
        Effect::Leaves(_) => true,
        _ => false,
    };
    Used {
        slots: used.slots.saturating_add(1),
        first_slots: used.first_slots.saturating_add(one_if(step.is_first)),
        alus: used.alus.saturating_add(one_if(step.unit == Unit::Alu)),
        multipliers: used
            .multipliers
            .saturating_add(one_if(step.unit == Unit::Multiply)),
        memory_units: used
            .memory_units
            .saturating_add(one_if(step.unit == Unit::Memory)),
        splits: used.splits.saturating_add(one_if(leaves)),
        shown: used
            .shown
            .saturating_add(one_if(step.effect == Effect::Shows)),
    }
}

/// The way on begins when all results have landed. Its goto is the last cycle in which one is in flight, or stands in the last word, or,
/// where that has a split or no room, in a word of its own.
fn cycles_of(units: &Units, steps: &[Step], laid: &LaidSteps) -> u32 {
    let count = as_number(laid.used.len());
    let landed = landed_behind(steps, laid.words.as_slice(), u32::MAX).max(count);
    if landed > count || goes_beside(units, laid.used.as_slice()) {
        landed
    } else {
        count.saturating_add(1)
    }
}

/// Whether the last word has no split, and room for a goto.
fn goes_beside(units: &Units, used: &[Used]) -> bool {
    match used.last() {
        Some(last) => {
            last.splits == 0 && last.slots < units.slots && last.first_slots < units.first_slots
        }
        None => false,
    }
}

/// The cycles until the row is left by a split that stands in a word: the way on begins at once where all results have landed.
pub(crate) fn cycles_to(steps: &[Step], words: &[u32], split: u32) -> u32 {
    let next = split.saturating_add(1);
    let landed = landed_behind(steps, words, split);
    if landed <= next {
        next
    } else {
        landed.max(next.saturating_add(1))
    }
}

/// The cycles until the results of all words up to one have landed.
fn landed_behind(steps: &[Step], words: &[u32], split: u32) -> u32 {
    let mut cycles = 0u32;
    for (place, word) in words.iter().enumerate() {
        match steps.get(place) {
            Some(step) => {
                if *word <= split {
                    cycles = cycles.max(word.saturating_add(step.latency));
                }
            }
            None => {}
        }
    }
    cycles
}

/// For each step the cycles from its word until what hangs on it has landed and the row can be left.
fn tails_of(alloc: Global, steps: &[Step], delays: &Delays) -> Result<Vec<u32>, NoMemory> {
    let mut tails = vec![in alloc; 0u32; steps.len()]?;
    for behind in 0..steps.len() {
        let above = steps.len() - 1 - behind;
        let own = steps[above].latency.max(2);
        let tail = height_by(delays.behind(above), tails.as_slice());
        set(&mut tails, above, tail.max(own));
    }
    Ok(tails)
}

/// A number of a list; 0 where it is not there.
pub(crate) fn number_at(numbers: &[u32], place: usize) -> u32 {
    match numbers.get(place) {
        Some(number) => *number,
        None => 0,
    }
}
