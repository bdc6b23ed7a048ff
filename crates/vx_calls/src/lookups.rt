// What the words of calls, returns and entries take from a whole program.

ghost use Rattle.std.specs.Prelude.{◌≡◌};
ghost use Rattle.vx_target.specs.Target.{parameters_of, is_call_word, is_caller};
ghost use Rattle.vx_slots.specs.Seen.{seen};

use vx_flow::graph::Value;
use vx_mixed::layout::VirtualWord;
use vx_slots::program::{Whole, words_of};

/// The values that are saved round the call at a place.
pub(crate) fn saved<'a>(whole: &Whole<'a, '_>, function: u32, place: u32) -> &'a [Value]
    ensures { result.now ≡ (seen whole.now).saved function place }
{
    match whole.frames.get(function as usize) {
        Some(frame) => match frame.saved.as_slice().get(place as usize) {
            Some(values) => values.as_slice(),
            None => &[],
        },
        None => &[],
    }
}

/// The parameters that are brought to their registers at the entry of a function.
pub(crate) fn brought<'a>(whole: &Whole<'a, '_>, function: u32) -> &'a [Value]
    ensures { result.now ≡ (seen whole.now).brought function }
{
    match whole.frames.get(function as usize) {
        Some(frame) => frame.brought.as_slice(),
        None => &[],
    }
}

/// Where a function is entered.
pub(crate) fn entry(whole: &Whole, function: u32) -> u32
    ensures { result ≡ (seen whole.now).entry function }
{
    match whole.places.get(function as usize) {
        Some(places) => places.entry,
        None => 0,
    }
}

/// The parameters of a function.
pub(crate) fn parameters<'a>(whole: &Whole<'a, '_>, function: u32) -> &'a [Value]
    ensures { result.now ≡ parameters_of (seen whole.now) function }
{
    match whole.graphs.get(function as usize) {
        Some(graph) => graph.parameters.as_slice(),
        None => &[],
    }
}

/// Whether a word of a layout is a call.
fn is_call_word(word: &VirtualWord) -> bool
    ensures { result ≡ is_call_word word.now }
{
    match word {
        VirtualWord::Call { .. } => true,
        VirtualWord::Planned { .. } => false,
        VirtualWord::Drain(_) => false,
        VirtualWord::Transfer(_) => false,
        VirtualWord::Choice { .. } => false,
        VirtualWord::Return(_) => false,
        VirtualWord::Ends(_) => false,
    }
}

/// Whether a function calls.
pub(crate) fn is_caller(whole: &Whole, function: u32) -> bool
    ensures { result ≡ is_caller (seen whole.now) function }
{
    for word in words_of(whole, function) {
        if is_call_word(word) {
            return true;
        }
    }
    false
}

/// The place at which a function's layout is entered.
pub(crate) fn entered_at(whole: &Whole, function: u32) -> u32
    ensures { result ≡ ((seen whole.now).layout function).entry }
{
    match whole.layouts.get(function as usize) {
        Some(layout) => layout.entry,
        None => 0,
    }
}
