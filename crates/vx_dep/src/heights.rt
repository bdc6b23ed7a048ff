// The heights of the operations of a trace, found from its last operation to its first.

ghost use Rattle.std.specs.Prelude.{◌≡◌, ◌+◌, ℕ, IfOk, OnOk, length, max};
ghost use Rattle.vx_dep.specs.Delays.{AreHeights};
ghost use Rattle.vx_dep.specs.Earlier.{AreAllEarlier, raised_at, raised};
ghost use Rattle.vx_dep.specs.Heights.{at, AreZero};

use crate::earlier::{Earlier, list_at};
use crate::sights::Sight;
use std::alloc::Global;
use vx_base::listed::Listed;
use vx_base::outcome::NoMemory;

/// The heights of the operations, by the lists of those that each has to stand behind. A height past `u32` is want of memory.
#[tactic(auto, using(crate::proofs::Rising::none_from))]
pub(crate) fn heights(
    alloc: Global,
    sight: &Sight,
    lists: &[Listed<Earlier>],
) -> Result<Listed<u32>, NoMemory>
    requires { AreAllEarlier sight.now.machine sight.now.mode sight.now.trace.now lists.now }
    ensures { IfOk result (λ heights. AreHeights sight.now.machine sight.now.mode sight.now.trace.now (at heights)) }
{
    let mut heights = zeros(alloc, lists.len())?;
    let mut place = lists.len();
    'rise: while place > 0 {
        place -= 1;
        let height = height_at(heights.as_slice(), place);
        raise(&mut heights, list_at(lists, place), height)?;
    }
    Ok(Listed::from_vec(heights)?)
}

#[tactic(auto, using(crate::proofs::Rising::no_zeros, crate::proofs::Rising::one_more_zero))]
fn zeros(alloc: Global, count: usize) -> Result<Vec<u32>, NoMemory>
    ensures { IfOk result (λ zeros. AreZero count zeros.items) }
{
    let mut zeros = Vec::new(alloc);
    while zeros.len() < count {
        zeros.push(0)?;
    }
    Ok(zeros)
}

/// The height of the operation at a place; 0 where no operation stands there.
pub(crate) fn height_at(heights: &[u32], place: usize) -> u32
    ensures { result ≡ at heights.now place }
{
    match heights.get(place) {
        Some(height) => *height,
        None => 0,
    }
}

/// Raises the heights of those that an operation of a height has to stand behind.
fn raise(heights: &mut Vec<u32>, list: &[Earlier], below: u32) -> Result<(), NoMemory>
    ensures { OnOk result (heights.new.items ≡ raised below heights.old.items list.now) }
{
    let mut rest = list;
    'raise: loop {
        match rest.split_first() {
            None => return Ok(()),
            Some((earlier, others)) => {
                raise_one(heights, *earlier, below)?;
                rest = others;
            }
        }
    }
}

/// Raises the height of one of them. A place that has no height stays without.
#[tactic(auto, using(crate::proofs::Rising::nothing_raised))]
fn raise_one(heights: &mut Vec<u32>, earlier: Earlier, below: u32) -> Result<(), NoMemory>
    ensures { OnOk result (heights.new.items ≡ raised_at below heights.old.items earlier) }
{
    let place = earlier.place as usize;
    if place >= heights.len() {
        return Ok(());
    }
    let height = higher(heights[place], earlier.delay, below)?;
    heights[place] = height;
    Ok(())
}

/// The greater of a height and the sum of a delay and the height below it.
fn higher(height: u32, delay: u32, below: u32) -> Result<u32, NoMemory>
    ensures { IfOk result (λ found. found ≡ max height (delay + below)) }
{
    match delay.checked_add(below) {
        Some(sum) => Ok(height.max(sum)),
        None => Err(NoMemory),
    }
}
