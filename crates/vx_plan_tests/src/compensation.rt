// Copies at splits and at joins of placements that were made by hand.

use std::alloc::Global;
use std::test::Fail;
use vx_base::listed::{Listed, copied};
use vx_base::outcome::NoMemory;
use vx_dep::copies::{EdgeCopies, Rejoin};
use vx_flow::graph::{Edge, Op};
use vx_flow::trace::{Clustered, Placed};
use vx_join::at_joins;
use vx_split::at_splits;
use vx_test_graphs::{Step, trace};

const TEXT: Step<'static> = Step::Plain(Op::Text { number: 0 });

const SPLIT: Step<'static> = Step::Split(1, &[]);

fn placed(alloc: Global, steps: &[Step], joins: &[u32], words: &[u32]) -> Result<Placed, NoMemory> {
    let words = copied(alloc, words)?;
    let trace = trace(alloc, steps, joins)?;
    let clustered = Clustered {
        trace,
        clusters: Listed::new(alloc),
    };
    Ok(Placed {
        clustered,
        words,
        length: 0,
    })
}

/// The place of a split, and the places of what is copied onto its edge.
type AtSplit = (u32, &'static [u32]);

/// A trace, its words, and its splits.
type SplitRow = (&'static [Step<'static>], &'static [u32], &'static [AtSplit]);

const SPLITS: [SplitRow; 3] = [
    // an `if` without `else`: what is above the split stands before it
    (
        &[TEXT, TEXT, SPLIT, TEXT, TEXT, TEXT],
        &[0, 0, 2, 3, 1, 4],
        &[(2, &[])],
    ),
    // the third operation is placed behind the split and is copied
    (
        &[TEXT, TEXT, TEXT, SPLIT, TEXT, TEXT, TEXT],
        &[0, 1, 4, 2, 3, 5, 6],
        &[(3, &[2])],
    ),
    // of two splits in words 1 and 2 each has its own copies; an operation in the split's word has none
    (
        &[TEXT, TEXT, TEXT, SPLIT, TEXT, SPLIT],
        &[1, 2, 3, 1, 4, 2],
        &[(3, &[1, 2]), (5, &[2, 4])],
    ),
];

fn are_copies(found: &[EdgeCopies], wanted: &[AtSplit]) -> bool {
    found.len() == wanted.len()
        && found.iter().zip(wanted).all(|(copies, (split, places))| {
            copies.split == *split
                && copies.edge == Edge { from: 0, to: 3 }
                && copies.copies.as_slice() == *places
                && copies.drain == 0
        })
}

fn has_splits(alloc: Global, row: &SplitRow) -> Result<bool, NoMemory> {
    let (steps, words, wanted) = row;
    let placed = placed(alloc, steps, &[], words)?;
    let found = at_splits(alloc, &placed)?;
    Ok(are_copies(found.as_slice(), wanted))
}

fn first_wrong_split(alloc: Global) -> Result<usize, NoMemory> {
    for (number, row) in SPLITS.iter().enumerate() {
        if !has_splits(alloc, row)? {
            return Ok(number);
        }
    }
    Ok(SPLITS.len())
}

/// The word at which a join is entered, and the places of what is copied onto its edges.
type AtJoin = (u32, &'static [u32]);

/// The joins of a trace of texts, its words, and what its joins owe.
type JoinRow = (&'static [u32], &'static [u32], &'static [AtJoin]);

const JOINS: [JoinRow; 4] = [
    // an `if` without `else`: the product below the join is placed early and is copied
    (&[4], &[0, 0, 2, 3, 1, 4], &[(4, &[4])]),
    // where the trace ends with the product, the join is entered behind its last word
    (&[4], &[0, 0, 2, 3, 1], &[(4, &[4])]),
    // the third operation sinks to word 4, so the join is entered behind it
    (&[5], &[0, 1, 4, 2, 3, 5, 6], &[(5, &[])]),
    // a join at the start of the trace is entered at word 0, and what is in the rejoin word is not copied
    (&[0, 2], &[1, 2, 0, 2, 3], &[(0, &[]), (3, &[2, 3])]),
];

fn are_rejoins(found: &[Rejoin], wanted: &[AtJoin]) -> bool {
    found.len() == wanted.len()
        && found.iter().zip(wanted).all(|(rejoin, (word, places))| {
            rejoin.block == 2 && rejoin.word == *word && rejoin.copies.as_slice() == *places
        })
}

fn has_joins(alloc: Global, row: &JoinRow) -> Result<bool, NoMemory> {
    let (joins, words, wanted) = row;
    let placed = placed(alloc, &[], joins, words)?;
    let found = at_joins(alloc, &placed)?;
    Ok(are_rejoins(found.as_slice(), wanted))
}

fn first_wrong_join(alloc: Global) -> Result<usize, NoMemory> {
    for (number, row) in JOINS.iter().enumerate() {
        if !has_joins(alloc, row)? {
            return Ok(number);
        }
    }
    Ok(JOINS.len())
}

#[test]
fn copies_at_splits(rt: HostRuntime) -> Result<(), Fail> {
    assert_eq!(rt; first_wrong_split(rt.alloc())?, SPLITS.len());
    Ok(())
}

#[test]
fn copies_at_joins(rt: HostRuntime) -> Result<(), Fail> {
    assert_eq!(rt; first_wrong_join(rt.alloc())?, JOINS.len());
    Ok(())
}
