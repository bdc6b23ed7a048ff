// Rows of items that are filled one item after the other: the operations of each word of a region, the places of the words of each
// region.

ghost use Rattle.std.specs.Prelude.{◌≡◌, ◌<◌, ◌++◌, ◌∷◌, [], IfOk, length, replicate, slice_set};
ghost use Rattle.vx_flow.specs.Rows.{row_at};

use std::alloc::Global;
use vx_base::listed::Listed;
use vx_base::outcome::NoMemory;

/// So many rows, all empty.
pub fn empty_rows<T: Drop>(alloc: Global, count: u32) -> Result<Vec<Listed<T>>, NoMemory>
    ensures { IfOk result (λ rows. rows.items ≡ replicate count []) }
{
    let mut rows = Vec::new(alloc);
    for _row in 0..count {
        rows.push(Listed::new(alloc))?;
    }
    Ok(rows)
}

/// Puts an item at the end of a row.
pub fn put<T: Drop>(rows: &mut Vec<Listed<T>>, place: u32, item: T) -> Result<(), NoMemory>
    requires { place < length rows.old.items }
    ensures { IfOk result (λ _. rows.new.items ≡ slice_set rows.old.items place (row_at rows.old.items place ++ item ∷ [])) }
{
    let row = &mut rows[place as usize];
    row.push(item)?;
    Ok(())
}
