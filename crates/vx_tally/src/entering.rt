// What is passed to a function that is entered: where each of its arrays stands that was handed over, as its base holds it.

ghost use Rattle.std.specs.Prelude.{◌≡◌, ◌≤◌, Some, IfOk, length, pos, take};
ghost use Rattle.vx_flow.specs.Meaning.{bases_in, spot_held, spots_held};
ghost use Rattle.vx_tally.specs.Machine.{all_bases, entry_held, spots_of};
ghost use Rattle.vx_tally.specs.Storage.{value_at};

use std::alloc::Global;
use vx_base::outcome::NoMemory;
use vx_flow::arrays::has_base;
use vx_flow::graph::{Array, Value};

/// The spots that are passed for these arrays of a function, up to the last of them that has a base, where the values at its entry
/// are these and so many arrays are there. Nothing where a base holds the spot of none of them.
pub fn spots(
    alloc: Global,
    values: &[Option<i32>],
    count: usize,
    own: &[Array],
) -> Result<Option<Vec<Option<usize>>>, NoMemory>
    ensures { IfOk result (λ found. spots_held count (value_at values.now) (bases_in own.now) ≡ spots_of found) }
{
    let arrays = based(own);
    let mut spots = Vec::new(alloc);
    for array in arrays {
        match entry(values, count, array.base) {
            Some(spot) => spots.push(spot)?,
            None => return Ok(None),
        }
    }
    Ok(Some(spots))
}

/// The arrays up to the last one that has a base.
fn based(arrays: &[Array]) -> &[Array]
    ensures { all_bases result.now ≡ bases_in arrays.now }
{
    &arrays[..based_len(arrays)]
}

/// How many arrays there are up to the last one that has a base.
fn based_len(arrays: &[Array]) -> usize
    ensures within { result ≤ length arrays.now }
    ensures bases { all_bases (take result arrays.now) ≡ bases_in arrays.now }
{
    let mut count = 0;
    for (index, array) in arrays.iter().enumerate() {
        if has_base(array) {
            count = index + 1;
        }
    }
    count
}

/// What is passed for an array: no spot where it has no base. Nothing where its base holds none.
fn entry(values: &[Option<i32>], count: usize, base: Option<Value>) -> Option<Option<usize>>
    ensures { result ≡ entry_held count (value_at values.now) base }
{
    match base {
        Some(value) => match spot_in(count, content_of(values, value)) {
            Some(spot) => Some(Some(spot)),
            None => None,
        },
        None => Some(None),
    }
}

/// What a value holds; one that is not listed is undefined.
fn content_of(values: &[Option<i32>], value: Value) -> Option<i32>
    ensures { result ≡ value_at values.now value }
{
    match values.get(value as usize) {
        Some(content) => *content,
        None => None,
    }
}

/// The spot that a base holds, where it is that of one of so many arrays.
fn spot_in(count: usize, content: Option<i32>) -> Option<usize>
    ensures { result ≡ spot_held count content }
{
    match content {
        Some(number) => spot_at(count, number),
        None => None,
    }
}

fn spot_at(count: usize, number: i32) -> Option<usize>
    ensures { result ≡ spot_held count (Some number) }
{
    match u32::try_from(number) {
        Ok(spot) => spot_below(count, spot),
        Err(_) => None,
    }
}

fn spot_below(count: usize, spot: u32) -> Option<usize>
    ensures { result ≡ spot_held count (Some (pos spot)) }
{
    if (spot as usize) < count {
        Some(spot as usize)
    } else {
        None
    }
}
