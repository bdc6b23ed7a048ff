// Routes by the nodes to which they lead, and by the values that they read.

ghost use Rattle.std.specs.Prelude.{◌≡◌, ◌<◌, ◌≤◌, ◌^◌, ℕ, true, IfOk, Some, length};
ghost use Rattle.vx_flow.specs.Effects.{IsIn};
ghost use Rattle.vx_flow.specs.Live.{first_touch};
ghost use Rattle.vx_flow.specs.Rows.{row_at, RowsKept};
ghost use Rattle.vx_flow.specs.Closing.{EnteringFound, MarkPut, ReadersFound, mark_at};

use crate::graph::{BlockId, Value};
use crate::routes::{Route, Touch};
use std::alloc::Global;
use vx_base::outcome::NoMemory;
use vx_tables::rows::Rows;

/// The routes that lead to each node.
pub fn entering_of(alloc: Global, routes: &[Route]) -> Result<Rows, NoMemory>
    requires { length routes.now < 2 ^ 32 }
    ensures { IfOk result (λ rows. EnteringFound routes.now rows) }
{
    let mut rows = Rows::new(alloc);
    for (index, route) in routes.iter().enumerate() {
        enter(&mut rows, route.to.as_slice(), index as u32)?;
    }
    Ok(rows)
}

/// Lists a route under the nodes to which it leads.
fn enter(rows: &mut Rows, to: &[BlockId], index: u32) -> Result<(), NoMemory>
    ensures keeps { IfOk result (λ _. RowsKept rows.old rows.new) }
    ensures has { IfOk result (λ _. (c : ℕ) → IsIn c to.now → IsIn index (row_at rows.new c)) }
{
    for node in to {
        rows.add(*node as usize, index)?;
    }
    Ok(())
}

/// The routes that read each value before they write it. What a route does to each value first is known by a mark beside the
/// value, so that each touch is looked at once.
pub fn readers_of(alloc: Global, routes: &[Route]) -> Result<Rows, NoMemory>
    requires { length routes.now < 2 ^ 32 }
    ensures { IfOk result (λ rows. ReadersFound routes.now rows) }
{
    let mut rows = Rows::new(alloc);
    let mut marks = Vec::new(alloc);
    for (index, route) in routes.iter().enumerate() {
        let number = index as u32;
        list_reads(
            &mut rows,
            &mut marks,
            route.touches.as_slice(),
            number,
            number + 1,
        )?;
    }
    Ok(rows)
}

/// Lists a route under the values that it reads first. Those that it touches get its mark, which is greater than all marks
/// before.
fn list_reads(
    rows: &mut Rows,
    marks: &mut Vec<u32>,
    touches: &[Touch],
    index: u32,
    mark: u32,
) -> Result<(), NoMemory>
    requires { (v : ℕ) → mark_at marks.old.items v < mark }
    ensures keeps { IfOk result (λ _. RowsKept rows.old rows.new) }
    ensures has { IfOk result (λ _. (v : ℕ) → first_touch v touches.now ≡ Some true → IsIn index (row_at rows.new v)) }
    ensures marks { IfOk result (λ _. (v : ℕ) → mark_at marks.new.items v ≤ mark) }
{
    for touch in touches {
        list_read(rows, marks, touch, index, mark)?;
    }
    Ok(())
}

/// Lists a route under a value that it reads, if it did nothing to it before.
fn list_read(
    rows: &mut Rows,
    marks: &mut Vec<u32>,
    touch: &Touch,
    index: u32,
    mark: u32,
) -> Result<(), NoMemory>
    ensures keeps { IfOk result (λ _. RowsKept rows.old rows.new) }
    ensures has { IfOk result (λ _. (mark_at marks.old.items touch.now.value ≡ mark → ⊥) → touch.now.reads ≡ true → IsIn index (row_at rows.new touch.now.value)) }
    ensures marks { IfOk result (λ _. MarkPut touch.now.value mark marks.old.items marks.new.items) }
{
    let is_new = mark_at(marks.as_slice(), touch.value) != mark;
    list_if(rows, touch, index, is_new)?;
    put_mark(marks, touch.value, mark)
}

/// Lists a route under a value that it reads, if this is asked.
fn list_if(rows: &mut Rows, touch: &Touch, index: u32, asked: bool) -> Result<(), NoMemory>
    ensures keeps { IfOk result (λ _. RowsKept rows.old rows.new) }
    ensures has { IfOk result (λ _. asked ≡ true → touch.now.reads ≡ true → IsIn index (row_at rows.new touch.now.value)) }
{
    if asked && touch.reads {
        rows.add(touch.value as usize, index)?;
    }
    Ok(())
}

/// The mark beside a value; 0 where there is none yet.
fn mark_at(marks: &[u32], value: Value) -> u32
    ensures { result ≡ mark_at marks.now value }
{
    match marks.get(value as usize) {
        Some(mark) => *mark,
        None => 0,
    }
}

/// Puts a mark beside a value.
fn put_mark(marks: &mut Vec<u32>, value: Value, mark: u32) -> Result<(), NoMemory>
    ensures { IfOk result (λ _. MarkPut value mark marks.old.items marks.new.items) }
{
    reach(marks, value as usize)?;
    marks[value as usize] = mark;
    Ok(())
}

/// Makes a mark be there.
fn reach(marks: &mut Vec<u32>, place: usize) -> Result<(), NoMemory>
    ensures there { IfOk result (λ _. place < length marks.new.items) }
    ensures same { (v : ℕ) → mark_at marks.new.items v ≡ mark_at marks.old.items v }
{
    while marks.len() <= place {
        marks.push(0)?;
    }
    Ok(())
}
