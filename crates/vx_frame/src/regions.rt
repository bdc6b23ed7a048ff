// The places of the words of all regions: one pass over the words of each layout, in which the mark of each planned word is put
// behind those of its region. specs/Regions.antt has the lists.

ghost use Rattle.std.specs.Prelude.{◌≡◌, ◌++◌, [], IfOk, map, slice_index_or};
ghost use Rattle.vx_frame.specs.Regions.{Noted, all_traces, rows_of, traced};
ghost use Rattle.vx_slots.specs.Seen.{no_places};

use std::alloc::Global;
use vx_base::listed::Listed;
use vx_base::outcome::NoMemory;
use vx_base::sizes::sum;
use vx_mixed::layout::{VWords, VirtualWord};
use vx_mixed::rows::{empty_rows, put};
use vx_slots::program::{FunctionPlaces, number_at};
use vx_target::finished::TracePlaces;

/// Puts the mark of a planned word behind those of its region.
#[tactic(auto, using(crate::proofs::RegionPlaces::noted_there, crate::proofs::RegionPlaces::noted_beyond))]
fn note(rows: &mut Vec<Listed<u32>>, word: &VirtualWord, mark: u32) -> Result<(), NoMemory>
    ensures { IfOk result (λ _. Noted word.now mark rows.old.items rows.new.items) }
{
    match word {
        VirtualWord::Planned { region, .. } => {
            if (*region as usize) < rows.len() {
                put(rows, *region, mark)
            } else {
                Ok(())
            }
        }
        _ => Ok(()),
    }
}

/// The marks of the words of each region of a layout.
#[tactic(auto, using(crate::proofs::RegionPlaces::notes_first, crate::proofs::RegionPlaces::notes_next))]
fn region_rows(alloc: Global, layout: &VWords, marks: &[u32]) -> Result<Vec<Listed<u32>>, NoMemory>
    ensures { IfOk result (λ rows. rows.items ≡ rows_of marks.now layout.now) }
{
    let mut rows = empty_rows(alloc, layout.regions)?;
    let mut place = 0;
    let mut rest = layout.words.as_slice();
    'words: loop {
        match rest.split_first() {
            None => return Ok(rows),
            Some((word, others)) => {
                note(&mut rows, word, number_at(marks, place))?;
                place = sum(place, 1)?;
                rest = others;
            }
        }
    }
}

fn push_rows(regions: &mut Listed<TracePlaces>, rows: Vec<Listed<u32>>) -> Result<(), NoMemory>
    ensures { IfOk result (λ _. regions.new ≡ regions.old ++ map traced rows.items) }
{
    for places in rows {
        regions.push(TracePlaces { places })?;
    }
    Ok(())
}

/// The marks of the words of a function's layout.
fn marks_of<'a>(places: &'a [FunctionPlaces], function: u32) -> &'a [u32]
    ensures { result.now ≡ (slice_index_or places.now function no_places).marks }
{
    match places.get(function as usize) {
        Some(places) => places.marks.as_slice(),
        None => &[],
    }
}

/// The places of the words of the regions of all functions, the functions in order, in a list that holds none yet.
#[tactic(auto, using(crate::proofs::RegionPlaces::traces_next, crate::proofs::RegionPlaces::traces_are))]
pub(crate) fn region_places(
    alloc: Global,
    layouts: &[VWords],
    places: &[FunctionPlaces],
    regions: &mut Listed<TracePlaces>,
) -> Result<(), NoMemory>
    requires { regions.old ≡ [] }
    ensures { IfOk result (λ _. regions.new ≡ all_traces places.now 0 layouts.now) }
{
    let mut function = 0;
    let mut rest = layouts;
    'layouts: loop {
        match rest.split_first() {
            None => return Ok(()),
            Some((layout, others)) => {
                let rows = region_rows(alloc, layout, marks_of(places, function))?;
                push_rows(regions, rows)?;
                function = sum(function, 1)?;
                rest = others;
            }
        }
    }
}
