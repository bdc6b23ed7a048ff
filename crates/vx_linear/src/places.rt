// A map from numbers to places of a trace: where each value was written last, or where joins stand.

ghost use Rattle.std.specs.Prelude.{◌≡◌, None, Some, ℕ, if◌then◌else◌, nat_eq, OnOk};
ghost use Rattle.std.specs.Map.{lookup};

use indexmap::IndexMap;
use std::alloc::Global;
use vx_base::outcome::NoMemory;

/// The place of each number that has one.
#[derive(Drop)]
pub(crate) struct Places {
    entries: IndexMap<u32, usize>,
}

impl Places {
    /// No number has a place.
    pub(crate) fn new(alloc: Global) -> Places
        ensures { (n : ℕ) → lookup (nat_eq n) result.entries.entries ≡ None }
    {
        Places {
            entries: IndexMap::new(alloc),
        }
    }

    /// The place of a number.
    pub(crate) fn look(&self, number: u32) -> Option<usize>
        ensures { result ≡ lookup (nat_eq number) self.now.entries.entries }
    {
        match self.entries.get(&number) {
            Some(place) => Some(*place),
            None => None,
        }
    }

    /// Gives a number a place.
    pub(crate) fn put(&mut self, number: u32, place: usize) -> Result<(), NoMemory>
        ensures { OnOk result ((n : ℕ) → lookup (nat_eq n) self.new.entries.entries ≡ (if nat_eq n number then Some place else lookup (nat_eq n) self.old.entries.entries)) }
    {
        self.entries.insert(number, place)?;
        Ok(())
    }
}
