// Places of a trace in chains, one for each number: a growing list of entries, each with the one before it. A place is put at the end
// of a chain in constant time, and none takes memory of its own. specs/Links.antt says the same.

ghost use Rattle.std.specs.Prelude.{◌≡◌, ◌<◌, ◌≤◌, ℕ, length, IfOk, OnOk};
ghost use Rattle.vx_dep.specs.Links.{head_at, AreBefore, AreHeads, IsPut, PutsStay};

use crate::links::Link;
use std::alloc::Global;
use vx_base::outcome::NoMemory;

/// The chains.
#[derive(Drop)]
pub(crate) struct Chains {
    /// All entries, in the order in which they were put.
    pub(crate) links: Vec<Link>,
    /// The last entry of each chain, counted from 1; 0 where nothing was put.
    pub(crate) heads: Vec<usize>,
    ghost are_before: { AreBefore links.items },
    ghost are_heads: { AreHeads heads.items links.items },
}

impl Chains {
    /// Nothing is put.
    #[tactic(auto, using(crate::proofs::Linked::none_before, crate::proofs::Linked::no_heads))]
    pub(crate) fn new(alloc: Global) -> Chains {
        Chains {
            links: Vec::new(alloc),
            heads: Vec::new(alloc),
        }
    }

    /// Puts a place at the end of the chain of a number.
    #[tactic(auto, using(crate::proofs::Linked::one_before, crate::proofs::Linked::more_heads, crate::proofs::Linked::same_heads, crate::proofs::Linked::set_heads, crate::proofs::Linked::puts_stay, crate::proofs::Linked::is_put))]
    pub(crate) fn put(&mut self, row: usize, place: u32) -> Result<(), NoMemory>
        ensures keeps { IfOk result (λ _. PutsStay self.old.heads.items self.old.links.items self.new.heads.items self.new.links.items) }
        ensures has { IfOk result (λ _. IsPut self.new.heads.items self.new.links.items row place) }
    {
        reach(&mut self.heads, row)?;
        let before = self.heads[row];
        self.links.push(Link { place, before })?;
        self.heads[row] = self.links.len();
        Ok(())
    }

    /// The last entry of the chain of a number.
    pub(crate) fn head(&self, row: usize) -> usize
        ensures exact { result ≡ head_at self.now.heads.items row }
        ensures within { result ≤ length self.now.links.items }
    {
        match self.heads.get(row) {
            Some(head) => *head,
            None => 0,
        }
    }
}

/// Adds chains without places up to that of a number.
fn reach(heads: &mut Vec<usize>, row: usize) -> Result<(), NoMemory>
    ensures there { OnOk result (row < length heads.new.items) }
    ensures same { (other : ℕ) → head_at heads.new.items other ≡ head_at heads.old.items other }
{
    'reach: while heads.len() <= row {
        heads.push(0)?;
    }
    Ok(())
}
