// The rejoins of a placed trace and their copies, after Fisher, 1981: a joining edge enters behind all that stood above the
// join, and what stood below it and is placed before that word is done on the edge too.

ghost use Rattle.std.specs.Prelude.{◌≡◌, ◌++◌, ◌∷◌, ℕ, List, if◌then◌else◌, nat_lt, suc, max, take, map, IfOk, OnOk};
ghost use Rattle.vx_dep.specs.Compensation.{greatest, rejoin_word, copies_at_join, rejoin_of, at_joins_of};

use std::alloc::Global;
use vx_base::listed::Listed;
use vx_base::outcome::NoMemory;
use vx_dep::copies::{Rejoin, word_at};
use vx_flow::trace::{Join, Placed};

/// For each join of a placed trace, in their order: its block, the first word after every operation that stood above it,
/// and the places of the operations that stood below it and are in a word before that one. A rejoin word that is no `u32`
/// number is want of memory.
pub fn at_joins(alloc: Global, placed: &Placed) -> Result<Vec<Rejoin>, NoMemory>
    ensures { IfOk result (λ joins. joins.items ≡ at_joins_of placed.now) }
{
    let words = &placed.words;
    let mut rejoins = Vec::new(alloc);
    let mut rest = placed.clustered.trace.joins.as_slice();
    'joins: loop {
        match rest.split_first() {
            None => return Ok(rejoins),
            Some((join, others)) => {
                let rejoin = rejoin(alloc, words, join)?;
                rejoins.push(rejoin)?;
                rest = others;
            }
        }
    }
}

/// The entry of a join.
fn rejoin(alloc: Global, words: &Listed<u32>, join: &Join) -> Result<Rejoin, NoMemory>
    ensures { IfOk result (λ rejoin. rejoin ≡ rejoin_of words.now join.now) }
{
    let word = word_behind(first_words(words.as_slice(), join.place));
    if word > 4294967295 {
        return Err(NoMemory);
    }
    let copies = copies_at(alloc, words, join.place, word as u32)?;
    Ok(Rejoin {
        block: join.block,
        word: word as u32,
        copies,
    })
}

/// The words of the operations above a place.
fn first_words(words: &[u32], place: u32) -> &[u32]
    ensures { result.now ≡ take place words.now }
{
    let count = place as usize;
    if count < words.len() {
        &words[..count]
    } else {
        words
    }
}

/// The first word behind all of these.
fn word_behind(words: &[u32]) -> u64
    ensures { result ≡ greatest (map suc words.now) }
{
    let mut behind = 0;
    let mut rest = words;
    'words: loop {
        match rest.split_first() {
            None => return behind,
            Some((word, others)) => {
                behind = later(behind, *word);
                rest = others;
            }
        }
    }
}

/// The later of a word and the one behind another.
fn later(behind: u64, word: u32) -> u64
    ensures { result ≡ max behind (suc word) }
{
    let next = word as u64 + 1;
    if behind < next { next } else { behind }
}

/// The places from a join on whose operations are in a word before this one.
fn copies_at(
    alloc: Global,
    words: &Listed<u32>,
    join: u32,
    rejoin: u32,
) -> Result<Listed<u32>, NoMemory>
    requires { rejoin ≡ rejoin_word words.now join }
    ensures { IfOk result (λ copies. copies ≡ copies_at_join words.now join) }
{
    let count = words.len() as u32;
    let mut copies = Listed::new(alloc);
    let mut place = join;
    'below: loop {
        if place >= count {
            return Ok(copies);
        }
        push_earlier(&mut copies, rejoin, place, word_at(words.as_slice(), place))?;
        place += 1;
    }
}

/// The place of an operation, if its word is earlier than the rejoin word.
fn push_earlier(
    copies: &mut Listed<u32>,
    rejoin: u32,
    place: u32,
    word: u32,
) -> Result<(), NoMemory>
    ensures { OnOk result ((rest : List ℕ) → copies.new ++ rest ≡ copies.old ++ (if nat_lt word rejoin then place ∷ rest else rest)) }
{
    if word < rejoin {
        copies.push(place)?;
    }
    Ok(())
}
