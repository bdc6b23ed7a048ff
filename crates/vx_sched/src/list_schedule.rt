// List scheduling: the operations are taken by greater height, then lower place, and each goes to the first word that its
// delays allow and that has room for it beside those taken before. All that has a delay to an operation comes before it in
// this order, since a height is at least the sum of a delay and the later height.

ghost use Rattle.std.specs.Prelude.{◌≡◌, ◌<◌, map, max, suc, length, IfOk};
ghost use Rattle.vx_dep.specs.Deps.{height_in};
ghost use Rattle.vx_sched.specs.Placement.{PlacedBy, length_of, mode_in, AreDeps, HaveRoomAlone};
ghost use Rattle.vx_sched.specs.Filling.{AreWithout, word_or_0, IsItem};

use crate::height_order::{behind, in_order, next};
use crate::ready::ready;
use crate::rows::{first_word, following, put};
use std::alloc::Global;
use vx_base::listed::Listed;
use vx_base::outcome::NoMemory;
use vx_dep::Deps;
use vx_flow::copies::copied_clustered;
use vx_flow::trace::{Clustered, Homes, Placed};
use vx_machine::Machine;
use vx_room::items::{ClusteredItem, Item};

/// The words of the operations of a clustered trace, greater heights first, each in the first word that its delays allow
/// and that has room for it beside those that come before it. There is one cluster for each operation, and each operation
/// has room by itself. A word past `u32` is want of memory.
pub fn schedule(
    alloc: Global,
    trace: &Clustered,
    homes: &Homes,
    deps: &Deps,
    machine: &Machine,
) -> Result<Placed, NoMemory>
    requires delays { AreDeps machine.now trace.now.trace deps.now }
    requires each { length trace.now.clusters ≡ length trace.now.trace.ops }
    requires alone { HaveRoomAlone machine.now homes.now trace.now }
    ensures placed { IfOk result (λ p. PlacedBy trace.now machine.now homes.now (mode_in deps.now) (height_in deps.now) p.words) }
    ensures length { IfOk result (λ p. p.length ≡ length_of p.words) }
    ensures trace { IfOk result (λ p. p.clustered ≡ trace.now) }
{
    let words = place_all(alloc, trace, homes, deps, machine)?;
    let length = length_of(words.as_slice())?;
    Ok(Placed {
        clustered: copied_clustered(alloc, trace)?,
        words,
        length,
    })
}

fn place_all(
    alloc: Global,
    trace: &Clustered,
    homes: &Homes,
    deps: &Deps,
    machine: &Machine,
) -> Result<Listed<u32>, NoMemory>
    requires delays { AreDeps machine.now trace.now.trace deps.now }
    requires each { length trace.now.clusters ≡ length trace.now.trace.ops }
    requires alone { HaveRoomAlone machine.now homes.now trace.now }
    ensures { IfOk result (λ words. PlacedBy trace.now machine.now homes.now (mode_in deps.now) (height_in deps.now) words) }
{
    machine.keeps_ranges();
    let mut words = without_words(alloc, trace.trace.ops.len())?;
    let order = in_order(alloc, deps, trace.trace.ops.len())?;
    let mut left = order.as_slice();
    let mut rows = Vec::new(alloc);
    'fill: loop {
        match next(left) {
            None => return all_words(alloc, words.as_slice()),
            Some(place) => {
                let ready = ready(words.as_slice(), deps, place)?;
                let item = item_at(trace, place as usize);
                let word = first_word(alloc, rows.as_slice(), homes, machine, ready, item)?;
                put(alloc, &mut rows, word as usize, item)?;
                words[place as usize] = Some(word);
                left = behind(left);
            }
        }
    }
}

fn without_words(alloc: Global, count: usize) -> Result<Vec<Option<u32>>, NoMemory>
    ensures { IfOk result (λ words. AreWithout count words.items) }
{
    let mut words = Vec::new(alloc);
    while words.len() < count {
        words.push(None)?;
    }
    Ok(words)
}

/// The item of an operation on its cluster.
pub(crate) fn item_at(trace: &Clustered, place: usize) -> ClusteredItem
    requires each { length trace.now.clusters ≡ length trace.now.trace.ops }
    requires inside { place < length trace.now.trace.ops }
    ensures { IsItem trace.now place result }
{
    ClusteredItem {
        cluster: trace.clusters.as_slice()[place],
        item: Item::of_trace(&trace.trace.ops.as_slice()[place]),
    }
}

/// The words, once each operation has one.
fn all_words(alloc: Global, words: &[Option<u32>]) -> Result<Listed<u32>, NoMemory>
    ensures { IfOk result (λ list. list ≡ map word_or_0 words.now) }
{
    let mut list = Listed::new(alloc);
    let mut rest = words;
    'list: loop {
        match rest.split_first() {
            None => return Ok(list),
            Some((word, others)) => {
                list.push(word_or_0(*word))?;
                rest = others;
            }
        }
    }
}

fn word_or_0(word: Option<u32>) -> u32
    ensures { result ≡ word_or_0 word }
{
    match word {
        Some(word) => word,
        None => 0,
    }
}

/// The greatest word plus 1, 0 where there is none.
fn length_of(words: &[u32]) -> Result<u32, NoMemory>
    ensures { IfOk result (λ length. length ≡ length_of words.now) }
{
    let mut length = 0;
    let mut rest = words;
    'count: loop {
        match rest.split_first() {
            None => return Ok(length),
            Some((word, others)) => {
                length = longer(length, *word)?;
                rest = others;
            }
        }
    }
}

/// A length that has this word too.
fn longer(length: u32, word: u32) -> Result<u32, NoMemory>
    ensures { IfOk result (λ more. more ≡ max length (suc word)) }
{
    Ok(length.max(following(word)?))
}
