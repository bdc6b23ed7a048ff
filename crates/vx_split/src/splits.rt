// The copies at splits, after Fisher, 1981: what stands above a split and is placed in a later word is done on the edge too.

ghost use Rattle.std.specs.Prelude.{◌≡◌, ◌++◌, ◌∷◌, ℕ, List, if◌then◌else◌, nat_lt, IfOk, OnOk};
ghost use Rattle.vx_dep.specs.Compensation.{copies_at_split, split_at, at_splits_of};

use std::alloc::Global;
use vx_base::listed::Listed;
use vx_base::outcome::NoMemory;
use vx_dep::copies::{EdgeCopies, word_at};
use vx_flow::trace::{Placed, TraceOp};

/// For each split of a placed trace, in the order of the trace: its place, its edge, and the places of the operations that
/// stand above it and are in a later word. An operation without a word counts as one of word 0. The empty cycles of each
/// edge are 0: how many there are depends on the machine.
pub fn at_splits(alloc: Global, placed: &Placed) -> Result<Vec<EdgeCopies>, NoMemory>
    ensures { IfOk result (λ splits. splits.items ≡ at_splits_of placed.now) }
{
    let words = placed.words.as_slice();
    let ops = &placed.clustered.trace.ops;
    let count = ops.len() as u32;
    let mut splits = Vec::new(alloc);
    let mut place = 0;
    'splits: loop {
        if place == count {
            return Ok(splits);
        }
        push_split(
            alloc,
            &mut splits,
            words,
            place,
            &ops.as_slice()[place as usize],
        )?;
        place += 1;
    }
}

/// The entry of the operation at a place, if it is a split.
fn push_split(
    alloc: Global,
    splits: &mut Vec<EdgeCopies>,
    words: &[u32],
    place: u32,
    op: &TraceOp,
) -> Result<(), NoMemory>
    ensures { OnOk result (splits.new.items ≡ splits.old.items ++ split_at words.now place op.now) }
{
    match op {
        TraceOp::Plain(_) => Ok(()),
        TraceOp::Split { edge, .. } => {
            let copies = copies_at(alloc, words, place)?;
            splits.push(EdgeCopies {
                split: place,
                edge: *edge,
                copies,
                drain: 0,
            })?;
            Ok(())
        }
    }
}

/// The places above a split whose operations are in a later word.
fn copies_at(alloc: Global, words: &[u32], split: u32) -> Result<Listed<u32>, NoMemory>
    ensures { IfOk result (λ copies. copies ≡ copies_at_split words.now split) }
{
    let word = word_at(words, split);
    let mut copies = Listed::new(alloc);
    let mut place = 0;
    'above: loop {
        if place == split {
            return Ok(copies);
        }
        push_later(&mut copies, word, place, word_at(words, place))?;
        place += 1;
    }
}

/// The place of an operation, if its word is later than the split's.
fn push_later(copies: &mut Listed<u32>, split: u32, place: u32, word: u32) -> Result<(), NoMemory>
    ensures { OnOk result ((rest : List ℕ) → copies.new ++ rest ≡ copies.old ++ (if nat_lt split word then place ∷ rest else rest)) }
{
    if split < word {
        copies.push(place)?;
    }
    Ok(())
}
