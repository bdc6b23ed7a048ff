// The values that are live at the start of each node, as what a call of `live` gives.

ghost use Rattle.std.specs.Prelude.{◌≡◌, ◌==◌, ℕ, []};
ghost use Rattle.std.specs.List.{list_any};
ghost use Rattle.vx_flow.specs.Rows.{lives, row_at, Rising};

use crate::graph::{BlockId, Value};
use std::alloc::Global;
use std::marker::Model;
use vx_tables::rows::Rows;

/// Which values are live at the start of which blocks. In a contract it is a list with a row for each block, in which the
/// values that are live there are listed, each once and in ascending order; a row that is not there is empty.
#[derive(Drop)]
pub struct Live {
    rows: Rows,
}

impl Model for Live {
    ghost use Rattle.std.specs.Prelude.{ℕ, List};
    ghost use Rattle.vx_flow.specs.Rows.{row_at, Rising};

    ghost Value = { List (List ℕ) };

    ghost view = { λ l. l.rows };

    ghost invariant = { λ l. (b : ℕ) → Rising (row_at l.rows b) };
}

impl Live {
    /// Nothing is live.
    pub fn nowhere(alloc: Global) -> Live
        ensures { result ≡ [] }
    {
        Live {
            rows: Rows::new(alloc),
        }
    }

    /// What is live where, from the rows of the blocks.
    pub(crate) fn from_rows(rows: Rows) -> Live
        requires { (b : ℕ) → Rising (row_at rows b) }
        ensures { result ≡ rows }
    {
        Live { rows }
    }

    /// Whether the value is live at the start of the block: some path from there reads the value before writing it. It
    /// takes no memory, and the time of a binary search.
    pub fn at(&self, block: BlockId, value: Value) -> bool
        ensures { result ≡ lives self.now block value }
    {
        is_listed(self.values_at(block), value)
    }

    /// The values that are live at the start of the block, in ascending order. It takes no memory.
    pub fn values_at(&self, block: BlockId) -> &[Value]
        ensures values { result.now ≡ row_at self.now block }
        ensures rising { Rising result.now }
    {
        self.rows.of(block as usize)
    }
}

/// Whether a number is in an ascending list.
fn is_listed(values: &[Value], value: Value) -> bool
    requires { Rising values.now }
    ensures { result ≡ list_any (λ u. u == value) values.now }
{
    values.binary_search(&value).is_ok()
}
