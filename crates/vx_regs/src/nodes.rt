// The places of a layout to which more than the word above leads, or at which less is known: where it is entered, where
// jumps lead, and behind words that have several ways out or call. They are the nodes of the layout; from each a route goes
// straight on to the next. specs/Ways.antt says which places these are.

ghost use Rattle.std.specs.Prelude.{◌≡◌, ◌<◌, ◌++◌, ◌∷◌, [], ℕ, true, IfOk, Some, length};
ghost use Rattle.std.specs.List.{flat_map};
ghost use Rattle.vx_regs.specs.Ways.{NodesFound, ends_at, item_ways, marked, marked_by_item, marked_by_items, marked_by_word, marked_by_words, next_if, node_in, node_list, number_if, numbered, starts, steps_on, word_ways};

use std::alloc::Global;
use vx_base::listed::Listed;
use vx_base::outcome::NoMemory;
use vx_base::sizes::sum;
use vx_mixed::layout::{Laid, VWords, VirtualWord};

/// The nodes of a layout.
#[derive(Drop)]
pub struct Nodes {
    /// For each place the number of its node, if it is one.
    pub numbers: Listed<Option<u32>>,
    /// A number above all of these.
    pub count: u32,
}

/// Marks a place, where there is such a one.
fn mark(marks: &mut Vec<bool>, place: u32)
    ensures { marks.new.items ≡ marked marks.old.items place }
{
    if (place as usize) < marks.len() {
        marks[place as usize] = true;
    }
}

/// Marks where an item leads, and then also the place behind its word.
fn mark_item(marks: &mut Vec<bool>, next: u32, item: &Laid)
    ensures { marks.new.items ≡ marked_by_item marks.old.items next item.now }
{
    match item {
        Laid::Plain { .. } => {}
        Laid::Split { place: to, .. } => {
            mark(marks, *to);
            mark(marks, next);
        }
    }
}

fn mark_items(marks: &mut Vec<bool>, next: u32, items: &[Laid])
    ensures { marks.new.items ≡ marked_by_items marks.old.items next items.now }
{
    match items.split_first() {
        None => {}
        Some((item, rest)) => {
            mark_item(marks, next, item);
            mark_items(marks, next, rest);
        }
    }
}

/// Marks where a word leads, but for one that only goes straight on.
fn mark_word(marks: &mut Vec<bool>, next: u32, word: &VirtualWord)
    ensures { marks.new.items ≡ marked_by_word marks.old.items next word.now }
{
    match word {
        VirtualWord::Planned { items, .. } => mark_items(marks, next, items.as_slice()),
        VirtualWord::Drain(_) => {}
        VirtualWord::Transfer(to) => mark(marks, *to),
        VirtualWord::Choice { place: to, .. } => {
            mark(marks, *to);
            mark(marks, next);
        }
        VirtualWord::Call { .. } => mark(marks, next),
        VirtualWord::Return(_) => {}
        VirtualWord::Ends(_) => {}
    }
}

/// Marks where the words of a layout lead.
fn mark_words(marks: &mut Vec<bool>, words: &[VirtualWord]) -> Result<(), NoMemory>
    ensures { IfOk result (λ _. marks.new.items ≡ marked_by_words marks.old.items 0 words.now) }
{
    let mut place = 0;
    let mut rest = words;
    'words: loop {
        match rest.split_first() {
            None => return Ok(()),
            Some((word, others)) => {
                place = sum(place, 1)?;
                mark_word(marks, place, word);
                rest = others;
            }
        }
    }
}

/// Whether a word may lead to the one behind it.
fn steps_on(word: &VirtualWord) -> bool
    ensures { result ≡ steps_on word.now }
{
    match word {
        VirtualWord::Planned { .. } => true,
        VirtualWord::Drain(_) => true,
        VirtualWord::Transfer(_) => false,
        VirtualWord::Choice { .. } => true,
        VirtualWord::Call { .. } => true,
        VirtualWord::Return(_) => false,
        VirtualWord::Ends(_) => false,
    }
}

/// Marks the first of some words, and those behind words that do not lead there.
fn starts(alloc: Global, words: &[VirtualWord]) -> Result<Vec<bool>, NoMemory>
    ensures { IfOk result (λ marks. marks.items ≡ starts true words.now) }
{
    let mut marks = Vec::new(alloc);
    let mut first = true;
    let mut rest = words;
    'words: loop {
        match rest.split_first() {
            None => return Ok(marks),
            Some((word, others)) => {
                marks.push(first)?;
                first = !steps_on(word);
                rest = others;
            }
        }
    }
}

/// Adds the number of a place, if it is marked; gives the next number.
fn push_number(numbers: &mut Listed<Option<u32>>, count: u32, marked: bool) -> Result<u32, NoMemory>
    ensures numbers { IfOk result (λ _. numbers.new ≡ numbers.old ++ number_if marked count ∷ []) }
    ensures next { IfOk result (λ next. next ≡ next_if marked count) }
{
    if marked {
        numbers.push(Some(count))?;
        sum(count, 1)
    } else {
        numbers.push(None)?;
        Ok(count)
    }
}

/// The marked places, numbered by ascending place.
#[tactic(auto, using(crate::proofs::NodeMarks::numbering_first, crate::proofs::NodeMarks::numbering_next, crate::proofs::NodeMarks::numbering_last))]
fn numbered(alloc: Global, marks: &[bool]) -> Result<Nodes, NoMemory>
    ensures numbers { IfOk result (λ nodes. nodes.numbers ≡ numbered 0 marks.now) }
    ensures count { IfOk result (λ nodes. (place n : ℕ) → node_in nodes.numbers place ≡ Some n → n < nodes.count) }
{
    let mut numbers = Listed::new(alloc);
    let mut count = 0;
    let mut rest = marks;
    'marks: loop {
        match rest.split_first() {
            None => return Ok(Nodes { numbers, count }),
            Some((marked, others)) => {
                count = push_number(&mut numbers, count, *marked)?;
                rest = others;
            }
        }
    }
}

/// The nodes of a layout, numbered by ascending place.
#[tactic(auto, using(crate::proofs::NodeMarks::nodes_found))]
pub fn nodes_of(alloc: Global, layout: &VWords) -> Result<Nodes, NoMemory>
    ensures { IfOk result (λ nodes. NodesFound layout.now nodes) }
{
    let words = layout.words.as_slice();
    let mut marks = starts(alloc, words)?;
    mark(&mut marks, layout.entry);
    mark_words(&mut marks, words)?;
    numbered(alloc, marks.as_slice())
}

/// The node at a place, if it is one.
pub fn node_at(nodes: &Nodes, place: u32) -> Option<u32>
    ensures { result ≡ node_in nodes.now.numbers place }
{
    match nodes.numbers.as_slice().get(place as usize) {
        Some(number) => *number,
        None => None,
    }
}

pub(crate) fn push_node(nodes: &Nodes, place: u32, to: &mut Listed<u32>) -> Result<(), NoMemory>
    ensures { IfOk result (λ _. to.new ≡ to.old ++ node_list (node_in nodes.now.numbers place)) }
{
    match node_at(nodes, place) {
        Some(node) => to.push(node)?,
        None => {}
    }
    Ok(())
}

fn push_item_ways(nodes: &Nodes, item: &Laid, to: &mut Listed<u32>) -> Result<(), NoMemory>
    ensures { IfOk result (λ _. to.new ≡ to.old ++ item_ways nodes.now.numbers item.now) }
{
    match item {
        Laid::Plain { .. } => Ok(()),
        Laid::Split { place, .. } => push_node(nodes, *place, to),
    }
}

fn push_items_ways(nodes: &Nodes, items: &[Laid], to: &mut Listed<u32>) -> Result<(), NoMemory>
    ensures { IfOk result (λ _. to.new ≡ to.old ++ flat_map (item_ways nodes.now.numbers) items.now) }
{
    match items.split_first() {
        None => Ok(()),
        Some((item, rest)) => {
            push_item_ways(nodes, item, to)?;
            push_items_ways(nodes, rest, to)
        }
    }
}

/// Adds the nodes to which a word leads, where it does not only go straight on to a place that is none.
pub fn push_ways(
    nodes: &Nodes,
    next: u32,
    word: &VirtualWord,
    to: &mut Listed<u32>,
) -> Result<(), NoMemory>
    ensures { IfOk result (λ _. to.new ≡ to.old ++ word_ways nodes.now.numbers next word.now) }
{
    match word {
        VirtualWord::Planned { items, .. } => {
            push_items_ways(nodes, items.as_slice(), to)?;
            push_node(nodes, next, to)
        }
        VirtualWord::Drain(_) => push_node(nodes, next, to),
        VirtualWord::Transfer(target) => push_node(nodes, *target, to),
        VirtualWord::Choice { place: target, .. } => {
            push_node(nodes, *target, to)?;
            push_node(nodes, next, to)
        }
        VirtualWord::Call { .. } => push_node(nodes, next, to),
        VirtualWord::Return(_) => Ok(()),
        VirtualWord::Ends(_) => Ok(()),
    }
}

/// Whether a route ends at a word: but where it goes straight on, and behind it is no node.
pub fn ends_at(nodes: &Nodes, next: u32, word: &VirtualWord) -> bool
    ensures { result ≡ ends_at nodes.now.numbers next word.now }
{
    match word {
        VirtualWord::Planned { .. } => node_at(nodes, next).is_some(),
        VirtualWord::Drain(_) => node_at(nodes, next).is_some(),
        VirtualWord::Transfer(_) => true,
        VirtualWord::Choice { .. } => true,
        VirtualWord::Call { .. } => true,
        VirtualWord::Return(_) => true,
        VirtualWord::Ends(_) => true,
    }
}
