// The rows of items of the words that are filled: which word is the first with room for an item, and an item put there.

ghost use Rattle.std.specs.Prelude.{◌≡◌, ◌<◌, ◌+◌, ◌++◌, ◌∷◌, [], ℕ, length, IfOk, true};
ghost use Rattle.vx_room.specs.Room.{has_room};
ghost use Rattle.vx_sched.specs.Filling.{row_of, IsFirstWith, Puts};

use crate::full_rows::is_crowded;
use std::alloc::Global;
use vx_base::listed::{Listed, with_item};
use vx_base::outcome::NoMemory;
use vx_flow::trace::Homes;
use vx_machine::Machine;
use vx_room::has_room;
use vx_room::items::ClusteredItem;

/// The first word from a given one on that has room for an item beside its row. A word without a row is empty.
pub(crate) fn first_word(
    alloc: Global,
    rows: &[Listed<ClusteredItem>],
    homes: &Homes,
    machine: &Machine,
    ready: u32,
    item: ClusteredItem,
) -> Result<u32, NoMemory>
    requires alone { has_room machine.now homes.now (item ∷ []) ≡ true }
    ensures { IfOk result (IsFirstWith machine.now homes.now rows.now item ready) }
{
    let mut word = ready;
    'seek: while (word as usize) < rows.len() {
        if fits(alloc, rows[word as usize].as_slice(), homes, machine, item)? {
            return Ok(word);
        }
        word = following(word)?;
    }
    Ok(word)
}

fn fits(
    alloc: Global,
    row: &[ClusteredItem],
    homes: &Homes,
    machine: &Machine,
    item: ClusteredItem,
) -> Result<bool, NoMemory>
    ensures { IfOk result (λ fits. fits ≡ has_room machine.now homes.now (row.now ++ item ∷ [])) }
{
    if is_crowded(machine, row, item) {
        return Ok(false);
    }
    let longer = with_item(alloc, row, item)?;
    Ok(has_room(machine, homes, longer.as_slice()))
}

/// The word behind a word. One past `u32` is want of memory.
pub(crate) fn following(word: u32) -> Result<u32, NoMemory>
    ensures { IfOk result (λ behind. behind ≡ word + 1) }
{
    match word.checked_add(1) {
        Some(behind) => Ok(behind),
        None => Err(NoMemory),
    }
}

/// Puts an item behind the row of a word.
pub(crate) fn put(
    alloc: Global,
    rows: &mut Vec<Listed<ClusteredItem>>,
    word: usize,
    item: ClusteredItem,
) -> Result<(), NoMemory>
    ensures { IfOk result (λ _. Puts rows.old.items rows.new.items word item) }
{
    reach(alloc, rows, word)?;
    let longer = with_item(alloc, rows[word].as_slice(), item)?;
    rows[word] = longer;
    Ok(())
}

/// Adds empty rows up to that of a word.
fn reach(alloc: Global, rows: &mut Vec<Listed<ClusteredItem>>, word: usize) -> Result<(), NoMemory>
    ensures there { IfOk result (λ _. word < length rows.new.items) }
    ensures same { IfOk result (λ _. (v : ℕ) → row_of rows.new.items v ≡ row_of rows.old.items v) }
{
    'reach: while rows.len() <= word {
        rows.push(Listed::new(alloc))?;
    }
    Ok(())
}
