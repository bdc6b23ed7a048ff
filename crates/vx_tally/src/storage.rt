// What a run of graphs holds: the values of the active function, the arrays, the input and the output. The values are a list
// that grows with the numbers that are written. specs/Storage.antt says which state it is.

ghost use Rattle.std.specs.Prelude.{◌≡◌, ◌<◌, ◌==◌, ℕ, Some, None, OnOk, if◌then◌else◌, length, pos, slice_get, slice_index_or};
ghost use Rattle.vx_base.specs.Arithmetic.{one_if};
ghost use Rattle.vx_flow.specs.Effects.{cell_in, held, is_left, row_of, with_cell, with_value};
ghost use Rattle.vx_tally.specs.Storage.{state_of, value_at};

use crate::cells::Cells;
use std::alloc::Global;
use vx_base::outcome::NoMemory;
use vx_flow::graph::{Operand, Value};

/// What a run holds.
#[derive(Drop)]
pub struct Storage {
    /// What the values of the active function hold; one that is not listed is undefined.
    pub values: Vec<Option<i32>>,
    /// The globals, then the own arrays of each active function, the first active one's first.
    pub arrays: Vec<Cells>,
    /// All of the input.
    pub input: Vec<i32>,
    /// How many of its numbers were read.
    pub read: usize,
    /// The output so far.
    pub out: Vec<u8>,
}

/// Lists values up to this one.
fn reach(values: &mut Vec<Option<i32>>, value: usize) -> Result<(), NoMemory>
    ensures there { OnOk result (value < length values.new.items) }
    ensures same { (v : ℕ) → value_at values.new.items v ≡ value_at values.old.items v }
{
    while values.len() <= value {
        values.push(None)?;
    }
    Ok(())
}

/// Makes a value hold this.
pub fn set_value(
    values: &mut Vec<Option<i32>>,
    value: Value,
    content: Option<i32>,
) -> Result<(), NoMemory>
    ensures { OnOk result ((v : ℕ) → value_at values.new.items v ≡ (if v == value then content else value_at values.old.items v)) }
{
    reach(values, value as usize)?;
    values[value as usize] = content;
    Ok(())
}

impl Storage {
    /// What a value holds.
    pub fn value(&self, value: Value) -> Option<i32>
        ensures { result ≡ value_at self.now.values.items value }
    {
        match self.values.get(value as usize) {
            Some(content) => *content,
            None => None,
        }
    }

    /// What an operand is.
    pub fn held(&self, operand: &Operand) -> Option<i32>
        ensures { result ≡ held (state_of self.now) operand.now }
    {
        match operand {
            Operand::Held(value) => self.value(*value),
            Operand::Number(number) => Some(*number),
            Operand::Stack => None,
        }
    }

    /// Makes a value hold this.
    pub fn write(&mut self, value: Value, content: Option<i32>) -> Result<(), NoMemory>
        ensures { OnOk result (state_of self.new ≡ with_value (state_of self.old) value content) }
    {
        set_value(&mut self.values, value, content)?;
        Ok(())
    }

    /// How many words the array at a place of the list has.
    pub fn words(&self, spot: usize) -> usize
        ensures { result ≡ length (row_of (state_of self.now) spot) }
    {
        match self.arrays.get(spot) {
            Some(row) => row.len(),
            None => 0,
        }
    }

    /// The word of that array at a place in bytes.
    pub fn cell(&self, spot: usize, place: Option<i32>) -> Option<usize>
        ensures { result ≡ cell_in (length (row_of (state_of self.now) spot)) place }
    {
        match place {
            Some(number) => word_at(self.words(spot), number),
            None => None,
        }
    }

    /// What a word of that array holds.
    pub fn word(&self, spot: usize, index: usize) -> Option<i32>
        ensures { result ≡ slice_index_or (row_of (state_of self.now) spot) index None }
    {
        match self.arrays.get(spot) {
            Some(row) => row.get(index),
            None => None,
        }
    }

    /// Makes a word of that array hold a number.
    pub fn set_word(&mut self, spot: usize, index: usize, number: i32)
        ensures { state_of self.new ≡ with_cell (state_of self.old) spot index (Some number) }
    {
        if spot < self.arrays.len() {
            let row = &mut self.arrays[spot];
            row.set(index, Some(number));
        }
    }

    /// The next number of the input, where one is left.
    pub fn next(&self) -> Option<i32>
        ensures { result ≡ slice_get self.now.input.items self.now.read }
    {
        match self.input.get(self.read) {
            Some(number) => Some(*number),
            None => None,
        }
    }

    /// 1 where the input has a number left, else 0.
    pub fn more(&self) -> i32
        ensures { result ≡ one_if (is_left (state_of self.now).input) }
    {
        if self.read < self.input.len() { 1 } else { 0 }
    }
}

/// The word of an array of so many words that stands at a place in bytes.
pub fn word_at(words: usize, place: i32) -> Option<usize>
    ensures { result ≡ cell_in words (Some place) }
{
    match u32::try_from(place) {
        Ok(bytes) => aligned(words, bytes),
        Err(_) => None,
    }
}

fn aligned(words: usize, bytes: u32) -> Option<usize>
    ensures { result ≡ cell_in words (Some (pos bytes)) }
{
    let index = (bytes / 4) as usize;
    if bytes % 4 == 0 && index < words {
        Some(index)
    } else {
        None
    }
}
