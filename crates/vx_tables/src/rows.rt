// A growing table of rows of numbers: which numbers are listed under a number.

ghost use Rattle.std.specs.Prelude.{◌≡◌, ◌<◌, ℕ, [], IfOk, length};
ghost use Rattle.vx_tables.specs.Rows.{IsIn};
ghost use Rattle.vx_tables.specs.Rows.{row_at, Added, RowsKept};

use std::alloc::Global;
use std::marker::Model;
use vx_base::listed::Listed;
use vx_base::outcome::NoMemory;

/// Rows of numbers, one for each number from 0. In a contract it is the list of the rows; those behind it are empty.
#[derive(Drop)]
pub struct Rows {
    alloc: Global,
    rows: Vec<Listed<u32>>,
}

impl Model for Rows {
    ghost use Rattle.std.specs.Prelude.{ℕ, List};

    ghost Value = { List (List ℕ) };

    ghost view = { λ r. r.rows.items };
}

impl Rows {
    /// Rows that are all empty.
    pub fn new(alloc: Global) -> Rows
        ensures { result ≡ [] }
    {
        Rows {
            alloc,
            rows: Vec::new(alloc),
        }
    }

    /// How many rows there are.
    pub fn len(&self) -> usize
        ensures { result ≡ length self.now }
    {
        self.rows.len()
    }

    /// The row of a number.
    pub fn of(&self, place: usize) -> &[u32]
        ensures { result.now ≡ row_at self.now place }
    {
        match self.rows.get(place) {
            Some(row) => row.as_slice(),
            None => &[],
        }
    }

    /// Puts an item at the end of a row.
    pub fn add(&mut self, place: usize, item: u32) -> Result<(), NoMemory>
        ensures keeps { IfOk result (λ _. RowsKept self.old self.new) }
        ensures has { IfOk result (λ _. IsIn item (row_at self.new place)) }
        ensures exact { IfOk result (λ _. Added place item self.old self.new) }
    {
        self.reach(place)?;
        let row = &mut self.rows[place];
        row.push(item)?;
        Ok(())
    }

    /// Makes a row be there.
    fn reach(&mut self, place: usize) -> Result<(), NoMemory>
        ensures there { IfOk result (λ _. place < length self.new) }
        ensures same { (row : ℕ) → row_at self.new row ≡ row_at self.old row }
    {
        while self.rows.len() <= place {
            self.rows.push(Listed::new(self.alloc))?;
        }
        Ok(())
    }
}
