// Which values are live where a layout is entered and behind its calls. A route goes from each node of the layout straight
// on to the next word with a way to a node, so that no word stands on two routes. specs/Ways.antt says which routes these
// are; the clause of `living_of` carries the promise.

ghost use Rattle.std.specs.Prelude.{◌≡◌, ◌<◌, ◌≤◌, ◌++◌, ℕ, true, false, IfOk, Some, drop, length, map, slice_get};
ghost use Rattle.vx_flow.specs.Live.{touch};
ghost use Rattle.vx_mixed.specs.LaidSettled.{LeadsTo};
ghost use Rattle.vx_mixed.specs.declared.layout.VirtualWord.{VirtualWord};
ghost use Rattle.vx_regs.specs.Ways.{LivesAtNodes, lives_there, way_from, way_list, ways_from, word_touches};

use crate::nodes::{Nodes, ends_at, node_at, nodes_of, push_ways};
use crate::touches::{word_reads, word_writes};
use std::alloc::Global;
use vx_base::listed::Listed;
use vx_base::outcome::NoMemory;
use vx_base::sizes::{number_of, sum};
use vx_flow::graph::Value;
use vx_flow::live_on;
use vx_flow::live_rows::Live;
use vx_flow::routes::{Route, Touch};
use vx_mixed::layout::{VWords, VirtualWord};

/// The values that are live at the nodes of a layout.
#[derive(Drop)]
pub struct Living {
    pub nodes: Nodes,
    pub live: Live,
}

fn push_touches(touches: &mut Listed<Touch>, reads: bool, values: &[Value]) -> Result<(), NoMemory>
    ensures { IfOk result (λ _. touches.new ≡ touches.old ++ map (touch reads) values.now) }
{
    for value in values {
        touches.push(Touch {
            value: *value,
            reads,
        })?;
    }
    Ok(())
}

/// What a word does to values: it reads, and then writes.
fn touch_word(
    alloc: Global,
    touches: &mut Listed<Touch>,
    word: &VirtualWord,
) -> Result<(), NoMemory>
    ensures { IfOk result (λ _. touches.new ≡ touches.old ++ word_touches word.now) }
{
    let reads = word_reads(alloc, word)?;
    push_touches(touches, true, reads.as_slice())?;
    let writes = word_writes(alloc, word)?;
    push_touches(touches, false, writes.as_slice())
}

/// The words from a place on.
fn words_from(words: &[VirtualWord], place: usize) -> &[VirtualWord]
    requires { place ≤ length words.now }
    ensures { result.now ≡ drop place words.now }
{
    &words[place..]
}

/// The route from a node straight on, which stands at a place with these words.
#[tactic(auto, using(crate::proofs::WaySteps::walked_first, crate::proofs::WaySteps::walked_next, crate::proofs::WaySteps::walked_over, crate::proofs::WaySteps::walked_end))]
fn way_from(
    alloc: Global,
    nodes: &Nodes,
    place: u32,
    node: u32,
    words: &[VirtualWord],
) -> Result<Route, NoMemory>
    ensures { IfOk result (λ route. route ≡ way_from nodes.now.numbers place node words.now) }
{
    let mut to = Listed::new(alloc);
    let mut touches = Listed::new(alloc);
    let mut next = place;
    let mut rest = words;
    'way: loop {
        match rest.split_first() {
            None => return Ok(Route {
                from: node,
                to,
                touches,
            }),
            Some((word, others)) => {
                next = sum(next, 1)?;
                touch_word(alloc, &mut touches, word)?;
                if ends_at(nodes, next, word) {
                    push_ways(nodes, next, word, &mut to)?;
                    return Ok(Route {
                        from: node,
                        to,
                        touches,
                    });
                }
                rest = others;
            }
        }
    }
}

/// Adds the route from a place, where it is a node.
fn push_way(
    alloc: Global,
    nodes: &Nodes,
    words: &[VirtualWord],
    routes: &mut Listed<Route>,
    place: u32,
    number: Option<u32>,
) -> Result<(), NoMemory>
    requires { place ≤ length words.now }
    ensures { IfOk result (λ _. routes.new ≡ routes.old ++ way_list nodes.now.numbers words.now place number) }
{
    match number {
        Some(node) => {
            let rest = words_from(words, place as usize);
            let route = way_from(alloc, nodes, place, node, rest)?;
            routes.push(route)?;
        }
        None => {}
    }
    Ok(())
}

/// The routes from all nodes.
fn ways_of(alloc: Global, words: &[VirtualWord], nodes: &Nodes) -> Result<Listed<Route>, NoMemory>
    requires { length nodes.now.numbers ≤ length words.now }
    ensures { IfOk result (λ routes. routes ≡ ways_from nodes.now.numbers words.now 0 nodes.now.numbers) }
{
    let mut routes = Listed::new(alloc);
    for (place, number) in nodes.numbers.as_slice().iter().enumerate() {
        push_way(alloc, nodes, words, &mut routes, number_of(place)?, *number)?;
    }
    Ok(routes)
}

/// Finds which values are live at the nodes of a layout.
pub fn living_of(alloc: Global, layout: &VWords) -> Result<Living, NoMemory>
    requires inside { (p q : ℕ) (word : VirtualWord) → slice_get layout.now.words p ≡ Some word → LeadsTo p word q → q < length layout.now.words }
    ensures { IfOk result (λ living. LivesAtNodes layout.now living) }
{
    let words = layout.words.as_slice();
    let nodes = nodes_of(alloc, layout)?;
    let routes = ways_of(alloc, words, &nodes)?;
    let live = live_on(alloc, nodes.count as usize, &routes)?;
    Ok(Living { nodes, live })
}

/// Whether a value is live at a place that is a node.
pub fn lives_at(living: &Living, place: u32, value: Value) -> bool
    ensures { result ≡ lives_there living.now place value }
{
    match node_at(&living.nodes, place) {
        Some(node) => living.live.at(node, value),
        None => false,
    }
}
