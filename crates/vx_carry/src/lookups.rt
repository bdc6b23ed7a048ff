// What the words that carry a planned one take from a whole program.

ghost use Rattle.std.specs.Prelude.{◌≡◌};
ghost use Rattle.vx_target.specs.Target.{is_handed, is_own, offset_of};
ghost use Rattle.vx_slots.specs.Seen.{landed, seen};

use vx_flow::arrays::{is_handed, is_local};
use vx_flow::graph::ArrayId;
use vx_slots::program::{SplitLanding, Whole, number_at};

/// Where an array that a function sees begins, in words.
pub(crate) fn array_at(whole: &Whole, function: u32, array: ArrayId) -> u32
    ensures { result ≡ (seen whole.now).array_at function array }
{
    match whole.frames.get(function as usize) {
        Some(frame) => number_at(frame.arrays.as_slice(), array),
        None => 0,
    }
}

/// Whether an array was handed to the function.
fn was_handed(whole: &Whole, function: u32, array: ArrayId) -> bool
    ensures { result ≡ is_handed (seen whole.now) function array }
{
    match whole.graphs.get(function as usize) {
        Some(graph) => is_handed(graph.arrays.as_slice(), array),
        None => false,
    }
}

/// From where places of an array are counted, in words: those of an array that was handed over are addresses.
pub(crate) fn offset_of(whole: &Whole, function: u32, array: ArrayId) -> u32
    ensures { result ≡ offset_of (seen whole.now) function array }
{
    if was_handed(whole, function, array) {
        0
    } else {
        array_at(whole, function, array)
    }
}

/// Where the split that leaves to a place lands, of a word with these landings; 0 where none does.
fn landed(landings: &[SplitLanding], to: u32) -> u32
    ensures { result ≡ landed landings.now to }
{
    match landings.split_first() {
        None => 0,
        Some((landing, others)) => {
            if landing.to == to {
                landing.at
            } else {
                landed(others, to)
            }
        }
    }
}

/// Where the taken split of the word at a place lands that leaves to another one.
pub(crate) fn landing(whole: &Whole, function: u32, place: u32, to: u32) -> u32
    ensures { result ≡ (seen whole.now).landing function place to }
{
    match whole.places.get(function as usize) {
        Some(places) => match places.landings.as_slice().get(place as usize) {
            Some(landings) => landed(landings.as_slice(), to),
            None => 0,
        },
        None => 0,
    }
}

/// Whether an array is one of the function's own.
pub(crate) fn is_own(whole: &Whole, function: u32, array: ArrayId) -> bool
    ensures { result ≡ is_own (seen whole.now) function array }
{
    match whole.graphs.get(function as usize) {
        Some(graph) => is_local(graph.arrays.as_slice(), array),
        None => false,
    }
}
