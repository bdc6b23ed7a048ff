// Tables in which the numbers of a list are marked.

ghost use Rattle.std.specs.Prelude.{◌≡◌, ◌<◌, ℕ, true, false, IfOk, replicate, slice_set};
ghost use Rattle.vx_flow.specs.Rows.{is_marked};
ghost use Rattle.vx_inline.specs.Inlined.{is_among};
ghost use Rattle.vx_inline.specs.Values.{marked_all};

use std::alloc::Global;
use vx_base::outcome::NoMemory;
use vx_flow::graph::Value;

/// A table of so many values, in which those of a list are marked.
pub(crate) fn marks_of(alloc: Global, count: usize, values: &[Value]) -> Result<Vec<bool>, NoMemory>
    ensures { IfOk result (λ marks. (v : ℕ) → v < count → is_marked marks.items v ≡ is_among values.now v) }
{
    let mut marks = unmarked(alloc, count)?;
    mark_all(&mut marks, values);
    Ok(marks)
}

/// A table of so many values, none of them marked.
pub(crate) fn unmarked(alloc: Global, count: usize) -> Result<Vec<bool>, NoMemory>
    ensures { IfOk result (λ marks. marks.items ≡ replicate count false) }
{
    Ok(vec![in alloc; false; count]?)
}

fn mark_all(marks: &mut Vec<bool>, values: &[Value])
    ensures { marks.new.items ≡ marked_all values.now marks.old.items }
{
    for value in values {
        mark(marks, *value);
    }
}

/// Marks a value, if the table has it.
pub(crate) fn mark(marks: &mut Vec<bool>, value: Value)
    ensures { marks.new.items ≡ slice_set marks.old.items value true }
{
    if (value as usize) < marks.len() {
        marks[value as usize] = true;
    }
}

/// Whether a value is marked.
pub(crate) fn is_marked(marks: &[bool], value: Value) -> bool
    ensures { result ≡ is_marked marks.now value }
{
    match marks.get(value as usize) {
        Some(marked) => *marked,
        None => false,
    }
}

/// Whether what stands at a place is marked.
pub(crate) fn is_marked_at(marks: &[bool], place: usize) -> bool
    ensures { result ≡ is_marked marks.now place }
{
    match marks.get(place) {
        Some(marked) => *marked,
        None => false,
    }
}
