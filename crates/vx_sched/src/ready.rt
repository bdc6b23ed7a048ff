// The first word that the delays of an operation allow.

ghost use Rattle.std.specs.Prelude.{◌≡◌, IfOk};
ghost use Rattle.vx_sched.specs.Filling.{word_in, later_of, ready_over, IsReadyNow};

use vx_base::outcome::NoMemory;
use vx_dep::{Deps, Earlier};

/// The first word that the delays of an operation allow.
pub(crate) fn ready(words: &[Option<u32>], deps: &Deps, place: u32) -> Result<u32, NoMemory>
    ensures { IfOk result (IsReadyNow deps.now words.now place place) }
{
    let ready = ready_over(words, deps.earlier(place))?;
    Ok(ready)
}

/// The first word that the delays behind some operations allow, as far as these have words.
fn ready_over(words: &[Option<u32>], list: &[Earlier]) -> Result<u32, NoMemory>
    ensures { IfOk result (λ ready. ready ≡ ready_over words.now 0 list.now) }
{
    let mut ready = 0;
    let mut rest = list;
    'wait: loop {
        match rest.split_first() {
            None => return Ok(ready),
            Some((earlier, others)) => {
                ready = later(ready, word_in(words, earlier.place), earlier.delay)?;
                rest = others;
            }
        }
    }
}

/// The word of the operation at a place, where it has one.
fn word_in(words: &[Option<u32>], place: u32) -> Option<u32>
    ensures { result ≡ word_in words.now place }
{
    match words.get(place as usize) {
        Some(word) => *word,
        None => None,
    }
}

/// The later of a word and the one that a delay behind an operation gives, where that has a word.
fn later(ready: u32, word: Option<u32>, delay: u32) -> Result<u32, NoMemory>
    ensures { IfOk result (λ later. later ≡ later_of ready word delay) }
{
    match word {
        None => Ok(ready),
        Some(word) => match word.checked_add(delay) {
            Some(sum) => Ok(ready.max(sum)),
            None => Err(NoMemory),
        },
    }
}
