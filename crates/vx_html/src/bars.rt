// Results that have not landed, as bars beside the words of a trace: each begins at its operation's word and ends before the word in which
// it has landed. Bars that overlap stand on lanes of their own.

use crate::whys::Shown;
use crate::words::hue_of;
use std::alloc::Global;
use vx_base::outcome::NoMemory;
use vx_page::facts::OpFact;
use vx_page::page::{Page, small};
use vx_page::spots::Spot;

/// A result that takes more than a cycle to land.
#[derive(Clone, Copy)]
pub struct Bar {
    /// The place of its operation in the trace.
    pub place: u32,
    /// The word of the operation.
    pub from: u32,
    /// The first word in which it has landed.
    pub until: u32,
    /// Where it is drawn, from 0.
    pub lane: u32,
}

/// The first lane that is free from a word on, where these are the words from which they are.
fn free_lane(lanes: &[u32], word: u32) -> usize {
    for (lane, until) in lanes.iter().enumerate() {
        if *until <= word {
            return lane;
        }
    }
    lanes.len()
}

fn set_lane(lanes: &mut Vec<u32>, lane: usize, until: u32) {
    if let Some(free) = lanes.get_mut(lane) {
        *free = until;
    }
}

/// Takes a lane from a word to another.
fn take_lane(lanes: &mut Vec<u32>, word: u32, until: u32) -> Result<u32, NoMemory> {
    let lane = free_lane(lanes.as_slice(), word);
    if lane < lanes.len() {
        set_lane(lanes, lane, until);
    } else {
        lanes.push(until)?;
    }
    Ok(small(lane))
}

fn push_bar(
    bars: &mut Vec<Bar>,
    lanes: &mut Vec<u32>,
    place: u32,
    fact: &OpFact,
) -> Result<(), NoMemory> {
    let until = fact.word.saturating_add(fact.latency);
    if fact.latency > 1 {
        let lane = take_lane(lanes, fact.word, until)?;
        bars.push(Bar {
            place,
            from: fact.word,
            until,
            lane,
        })?;
    }
    Ok(())
}

fn push_bars(
    bars: &mut Vec<Bar>,
    lanes: &mut Vec<u32>,
    facts: &[OpFact],
    spots: &[Spot],
) -> Result<(), NoMemory> {
    for spot in spots {
        if let Some(fact) = facts.get(spot.place as usize) {
            push_bar(bars, lanes, spot.place, fact)?;
        }
    }
    Ok(())
}

/// The bars of a trace whose operations stand so.
pub fn bars_of(alloc: Global, facts: &[OpFact], spots: &[Spot]) -> Result<Vec<Bar>, NoMemory> {
    let mut bars = Vec::new(alloc);
    let mut lanes = Vec::new(alloc);
    push_bars(&mut bars, &mut lanes, facts, spots)?;
    Ok(bars)
}

/// How many lanes these bars take.
pub(crate) fn lanes_of(bars: &[Bar]) -> u32 {
    let mut most: u32 = 0;
    for bar in bars {
        most = most.max(bar.lane.saturating_add(1));
    }
    most
}

fn put_bar(page: &mut Page, shown: &Shown, bar: &Bar) {
    page.field(b"<s style=--n:", bar.lane);
    if let Some(fact) = shown.facts.get(bar.place as usize) {
        page.field(b";--h:", hue_of(fact.block));
    }
}

fn put_label(page: &mut Page, bar: &Bar) {
    page.field(b" title=\"op ", bar.place);
    page.field(b", landed in word ", bar.until);
    page.field(b"\">", bar.place);
    page.put(b"</s>");
}

/// Puts the bars at a word; those that begin there have the numbers of their operations.
pub(crate) fn put_bars(page: &mut Page, shown: &Shown, word: u32) {
    if !shown.bars.is_empty() {
        page.put(b"<td class=r>");
        for bar in shown.bars {
            if bar.from == word {
                put_bar(page, shown, bar);
                put_label(page, bar);
            }
            if bar.from < word && word < bar.until {
                put_bar(page, shown, bar);
                page.put(b"></s>");
            }
        }
    }
}

/// Puts the bars that pass from the word before one to it.
pub(crate) fn put_bars_between(page: &mut Page, shown: &Shown, word: u32) {
    if !shown.bars.is_empty() {
        page.put(b"<td class=r>");
        for bar in shown.bars {
            if bar.from < word && word < bar.until {
                put_bar(page, shown, bar);
                page.put(b"></s>");
            }
        }
    }
}
