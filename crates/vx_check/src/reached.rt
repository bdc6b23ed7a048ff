// The places that static paths from the start reach.

ghost use Rattle.std.specs.Prelude.{◌≡◌, ◌<◌, ◌≤◌, ℕ, ◌∷◌, [], ◌++◌, true, false, length, IfOk};
ghost use Rattle.vx_tables.specs.Rows.{is_marked, work};
ghost use Rattle.vx_isa.specs.declared.program.Word.{Word};
ghost use Rattle.vx_isa.specs.Paths.{WordAt};
ghost use Rattle.vx_check.specs.InFlight.{IsFilled, Marked, Reaching, ReachedMarks, leads_anywhere};

use crate::leads::{leads_anywhere, put_places, word_at};
use std::alloc::Global;
use vx_base::outcome::NoMemory;
use vx_isa::program::WordProgram;

/// A row with a mark for each place, all the same.
fn filled(alloc: Global, places: usize, mark: bool) -> Result<Vec<bool>, NoMemory>
    ensures { IfOk result (λ row. IsFilled places mark row.items) }
{
    let mut row = Vec::new(alloc);
    'places: for _ in 0..places {
        row.push(mark)?;
    }
    Ok(row)
}

/// Whether a place is marked.
pub(crate) fn is_marked(marks: &[bool], place: usize) -> bool
    ensures { result ≡ is_marked marks.now place }
{
    match marks.get(place) {
        Some(mark) => *mark,
        None => false,
    }
}

/// Marks a place that is not marked, and lets it wait; one that is not there is let be.
#[tactic(auto, using(crate::proofs::Reaches::marks_old))]
fn mark(marks: &mut Vec<bool>, waiting: &mut Vec<usize>, place: usize) -> Result<(), NoMemory>
    ensures { IfOk result (λ _. Marked (place ∷ []) marks.old.items marks.new.items waiting.old.items waiting.new.items) }
{
    if place < marks.len() && !marks[place] {
        marks[place] = true;
        waiting.push(place)?;
    }
    Ok(())
}

#[tactic(auto, using(crate::proofs::Reaches::marks_then, crate::proofs::Reaches::marks_none))]
fn mark_all(
    marks: &mut Vec<bool>,
    waiting: &mut Vec<usize>,
    places: &[usize],
) -> Result<(), NoMemory>
    ensures { IfOk result (λ _. Marked places.now marks.old.items marks.new.items waiting.old.items waiting.new.items) }
{
    match places.split_first() {
        Some((first, rest)) => {
            mark(marks, waiting, *first)?;
            mark_all(marks, waiting, rest)
        }
        None => Ok(()),
    }
}

/// Marks the places to which the word at a place leads, one that was marked and waited.
fn follow(
    alloc: Global,
    program: &WordProgram,
    place: usize,
    marks: &mut Vec<bool>,
    waiting: &mut Vec<usize>,
) -> Result<(), NoMemory>
    requires there { place < length program.now.words }
    requires one_by_one { (word : Word) → WordAt program.now place word → leads_anywhere word.ops ≡ false }
    requires before { Reaching program.now marks.old.items (waiting.old.items ++ place ∷ []) }
    ensures after { IfOk result (λ _. Reaching program.now marks.new.items waiting.new.items) }
    ensures less { IfOk result (λ _. work marks.new.items waiting.new.items ≤ work marks.old.items waiting.old.items) }
{
    let mut places = Vec::new(alloc);
    let word = word_at(program, place);
    put_places(word.ops.as_slice(), place + 1, &mut places)?;
    mark_all(marks, waiting, places.as_slice())
}

/// Whether the word at a place may lead to every place.
fn leads_everywhere(program: &WordProgram, place: usize) -> bool
    requires { place < length program.now.words }
    ensures { (word : Word) → WordAt program.now place word → result ≡ leads_anywhere word.ops }
{
    leads_anywhere(word_at(program, place).ops.as_slice())
}

/// A mark for each place of the program: whether a static path from the start reaches it.
pub(crate) fn reached(alloc: Global, program: &WordProgram) -> Result<Vec<bool>, NoMemory>
    ensures { IfOk result (λ marks. ReachedMarks program.now marks.items) }
{
    let places = program.words.len();
    let mut marks = filled(alloc, places, false)?;
    let mut waiting = Vec::new(alloc);
    mark(&mut marks, &mut waiting, 0)?;
    'waiting: loop {
        match waiting.pop() {
            Some(place) => {
                if leads_everywhere(program, place) {
                    return filled(alloc, places, true);
                }
                follow(alloc, program, place, &mut marks, &mut waiting)?;
            }
            None => return Ok(marks),
        }
    }
}
