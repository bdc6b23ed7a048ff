// A table of names, by a map in the order of their first entries. A contract sees what it says of each name.

ghost use Rattle.std.specs.Prelude.{◌≡◌, None, List, ℕ, if◌then◌else◌, IfOk, OnErr, OnOk};
ghost use Rattle.vx_ast.specs.Scopes.{same_name};
ghost use Rattle.vx_names.specs.Entries.{entry_of};

use indexmap::IndexMap;
use std::alloc::Global;
use vx_ast::names::Meant;
use vx_base::outcome::NoMemory;

/// What each name stands for, where it stands for anything.
#[derive(Drop)]
pub struct Table {
    entries: IndexMap<Vec<u8>, Option<Meant>>,
}

// The bytes of a name in a vector of their own.
fn copied(alloc: Global, bytes: &[u8]) -> Result<Vec<u8>, NoMemory>
    ensures { IfOk result (λ copy. copy.items ≡ bytes.now) }
{
    Ok(bytes.to_vec(alloc)?)
}

impl Table {
    /// The table without names.
    pub fn new(alloc: Global) -> Table
        ensures { (x : List ℕ) → entry_of x result.entries.entries ≡ None }
    {
        Table {
            entries: IndexMap::new(alloc),
        }
    }

    /// What a name stands for.
    pub fn look(&self, name: &[u8]) -> Option<Meant>
        ensures { result ≡ entry_of name.now self.now.entries.entries }
    {
        match self.entries.get(name) {
            Some(meant) => *meant,
            None => None,
        }
    }

    /// Lets a name stand for this. Without memory the table stays as it was.
    pub fn put(&mut self, alloc: Global, name: &[u8], meant: Option<Meant>) -> Result<(), NoMemory>
        ensures ok { OnOk result ((x : List ℕ) → entry_of x self.new.entries.entries ≡ (if same_name x name.now then meant else entry_of x self.old.entries.entries)) }
        ensures err { OnErr result ((x : List ℕ) → entry_of x self.new.entries.entries ≡ entry_of x self.old.entries.entries) }
    {
        let key = copied(alloc, name)?;
        self.entries.insert(key, meant)?;
        Ok(())
    }
}
