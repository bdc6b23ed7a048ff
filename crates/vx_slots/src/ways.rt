// Where words of a layout go on. A jump arrives past the transfers that stand where it goes, so that it does not lead to a jump; a
// transfer to a place that cannot follow at once goes there by a word of its own.

ghost use Rattle.std.specs.Prelude.{◌≡◌, IfOk, slice_get};
ghost use Rattle.std.specs.List.{list_any};
ghost use Rattle.vx_target.specs.Target.{follows, is_drain, is_drain_there, is_split, past, past_from, past_there, past_word, turn, turn_of};
ghost use Rattle.vx_slots.specs.Seen.{seen};

use crate::program::{Whole, words_of};
use vx_base::outcome::NoMemory;
use vx_base::sizes::sum;
use vx_mixed::layout::{Laid, VirtualWord};

/// The most transfers that a jump goes past.
const MOST_TRANSFERS: u32 = 64;

/// Where a word of a layout at a place leads, where it is only a transfer; else the place.
fn past_word(place: u32, word: &VirtualWord) -> u32
    ensures { result ≡ past_word place word.now }
{
    match word {
        VirtualWord::Transfer(to) => *to,
        VirtualWord::Planned { .. } => place,
        VirtualWord::Drain(_) => place,
        VirtualWord::Choice { .. } => place,
        VirtualWord::Call { .. } => place,
        VirtualWord::Return(_) => place,
        VirtualWord::Ends(_) => place,
    }
}

/// The same of the word at a place.
fn past_one(words: &[VirtualWord], place: u32) -> u32
    ensures { result ≡ past_there place (slice_get words.now place) }
{
    match words.get(place as usize) {
        Some(word) => past_word(place, word),
        None => place,
    }
}

/// The place past so many transfers at most, one after the other.
#[tactic(auto, using(crate::proofs::Passing::past_none, crate::proofs::Passing::past_place, crate::proofs::Passing::past_on))]
fn past_from(words: &[VirtualWord], most: u32, place: u32) -> u32
    ensures { result ≡ past_from words.now most place }
{
    if most == 0 {
        return place;
    }
    let next = past_one(words, place);
    if next == place {
        return place;
    }
    past_from(words, most - 1, next)
}

/// Where a jump to a place of a function's layout arrives, past the transfers that stand there, 64 at most.
pub fn past(whole: &Whole, function: u32, place: u32) -> u32
    ensures { result ≡ past (seen whole.now) function place }
{
    past_from(words_of(whole, function), MOST_TRANSFERS, place)
}

/// Whether a word of a layout is one of empty cycles.
fn is_drain(word: &VirtualWord) -> bool
    ensures { result ≡ is_drain word.now }
{
    match word {
        VirtualWord::Drain(_) => true,
        VirtualWord::Planned { .. } => false,
        VirtualWord::Transfer(_) => false,
        VirtualWord::Choice { .. } => false,
        VirtualWord::Call { .. } => false,
        VirtualWord::Return(_) => false,
        VirtualWord::Ends(_) => false,
    }
}

/// Whether empty cycles stand at a place of a function's layout.
fn is_drain_at(whole: &Whole, function: u32, place: u32) -> bool
    ensures { result ≡ is_drain_there (slice_get ((seen whole.now).layout function).words place) }
{
    match words_of(whole, function).get(place as usize) {
        Some(word) => is_drain(word),
        None => false,
    }
}

/// Whether a place of a layout can follow at once, where another one is next: it is that one, and no empty cycles stand there.
pub fn follows(whole: &Whole, function: u32, next: u32, to: u32) -> bool
    ensures { result ≡ follows (seen whole.now) function next to }
{
    next == to && !is_drain_at(whole, function, to)
}

/// Where a word of a layout at a place goes by a word of its own.
fn turn_of(
    whole: &Whole,
    function: u32,
    place: u32,
    word: &VirtualWord,
) -> Result<Option<u32>, NoMemory>
    ensures { IfOk result (λ to. to ≡ turn_of (seen whole.now) function place word.now) }
{
    match word {
        VirtualWord::Transfer(to) => {
            let next = sum(place, 1)?;
            let to = past(whole, function, *to);
            if follows(whole, function, next, to) {
                Ok(None)
            } else {
                Ok(Some(to))
            }
        }
        VirtualWord::Planned { .. } => Ok(None),
        VirtualWord::Drain(_) => Ok(None),
        VirtualWord::Choice { .. } => Ok(None),
        VirtualWord::Call { .. } => Ok(None),
        VirtualWord::Return(_) => Ok(None),
        VirtualWord::Ends(_) => Ok(None),
    }
}

/// Where the word at a place of a function's layout goes by a word of its own: a transfer to a place that cannot follow at once.
pub fn turn(whole: &Whole, function: u32, place: u32) -> Result<Option<u32>, NoMemory>
    ensures { IfOk result (λ to. to ≡ turn (seen whole.now) function place) }
{
    match words_of(whole, function).get(place as usize) {
        Some(word) => turn_of(whole, function, place, word),
        None => Ok(None),
    }
}

fn is_split(item: &Laid) -> bool
    ensures { result ≡ is_split item.now }
{
    match item {
        Laid::Plain { .. } => false,
        Laid::Split { .. } => true,
    }
}

/// Whether one of the items of a word is a split.
pub fn has_split(items: &[Laid]) -> bool
    ensures { result ≡ list_any is_split items.now }
{
    for item in items {
        if is_split(item) {
            return true;
        }
    }
    false
}
