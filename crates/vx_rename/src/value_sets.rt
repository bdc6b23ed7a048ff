// Rows of numbers by value, and sets of values, of which each is put and taken in a step.

use std::alloc::Global;
use vx_base::outcome::NoMemory;
use vx_flow::graph::Value;

/// No place, and no name.
pub const NONE: u32 = u32::MAX;

/// What stands at a place of a row; nothing where the row ends before it.
pub(crate) fn at(row: &[u32], place: u32) -> u32 {
    match row.get(place as usize) {
        Some(found) => *found,
        None => NONE,
    }
}

/// Puts a number at a place of a row, if it is there.
pub(crate) fn put(row: &mut Vec<u32>, place: u32, number: u32) {
    if (place as usize) < row.len() {
        row[place as usize] = number;
    }
}

/// A set of values, each with a number.
#[derive(Drop)]
pub struct ValueSet {
    items: Vec<Value>,
    /// The place of each value among the items.
    places: Vec<u32>,
    /// The number of each value that is in it.
    numbers: Vec<u32>,
}

impl ValueSet {
    /// No value, of so many.
    pub(crate) fn new(alloc: Global, values: usize) -> Result<ValueSet, NoMemory> {
        let places = vec![in alloc; NONE; values]?;
        let numbers = vec![in alloc; NONE; values]?;
        Ok(ValueSet {
            items: Vec::new(alloc),
            places,
            numbers,
        })
    }

    /// Its values, in some order.
    pub(crate) fn items(&self) -> &[Value] {
        self.items.as_slice()
    }

    /// The number of a value; none where it is not in it.
    pub(crate) fn number_of(&self, value: Value) -> u32 {
        if at(self.places.as_slice(), value) == NONE {
            NONE
        } else {
            at(self.numbers.as_slice(), value)
        }
    }

    /// Takes all values.
    pub(crate) fn clear(&mut self) {
        for _ in 0..self.items.len() {
            match self.items.pop() {
                Some(value) => put(&mut self.places, value, NONE),
                None => return,
            }
        }
    }

    /// Puts a value that is not in it.
    pub(crate) fn put(&mut self, value: Value, number: u32) -> Result<(), NoMemory> {
        if (value as usize) < self.places.len() {
            let place = self.items.len().min(NONE as usize) as u32;
            self.items.push(value)?;
            put(&mut self.places, value, place);
            put(&mut self.numbers, value, number);
        }
        Ok(())
    }

    /// Takes a value, where it is there; the last one then stands in its place.
    pub(crate) fn take(&mut self, value: Value) {
        let place = at(self.places.as_slice(), value);
        if place == NONE {
            return;
        }
        put(&mut self.places, value, NONE);
        match self.items.pop() {
            Some(last) => {
                if last != value {
                    put(&mut self.items, place, last);
                    put(&mut self.places, last, place);
                }
            }
            None => {}
        }
    }
}
