// The facts that are known while operations are passed over, the newest first, with marks of the values of which they tell: most
// questions for a value are answered by its mark.

ghost use Rattle.std.specs.Prelude.{◌≡◌, ◌∷◌, ◌-◌, true, false, length, take, IfOk};
ghost use Rattle.std.specs.List.{list_any};
ghost use Rattle.vx_claims.specs.Facts.{names};
ghost use Rattle.vx_claims.specs.Marking.{IsPart, IsUnlinked, IsUnread, links};

use crate::effects::any_names;
use crate::fact::Fact;
use crate::marks::{Marks, clear, is_marked, mark_fact, mark_facts, new_marks};
use std::alloc::Global;
use std::marker::Model;
use vx_base::outcome::NoMemory;
use vx_flow::graph::{Operand, Value};

/// For so many facts that were put before the list, and as many as it has, all are marked anew.
const MOST_RECENT: usize = 128;

/// A list of facts. In a contract it is the list.
#[derive(Drop)]
pub struct FactList {
    facts: Vec<Fact>,
    marks: Marks,
    /// How many facts were put before the list since all were marked.
    recent: usize,
}

impl Model for FactList {
    ghost use Rattle.std.specs.Prelude.{List};
    ghost use Rattle.vx_claims.specs.declared.fact.Fact.{Fact};
    ghost use Rattle.vx_claims.specs.Marking.{Marked};

    ghost Value = { List Fact };

    ghost view = { λ l. l.facts.items };

    ghost invariant = { λ l. Marked l.marks.named.items l.marks.read.items l.marks.linked.items l.facts.items };
}

impl FactList {
    /// A list of these facts, with room for what so many operations say.
    pub fn new(alloc: Global, facts: &[Fact], ops: usize) -> Result<FactList, NoMemory>
        ensures { IfOk result (λ list. list ≡ facts.now) }
    {
        let list = with_room(alloc, facts, ops)?;
        let mut marks = new_marks(alloc, facts.len(), ops)?;
        mark_facts(&mut marks, facts);
        Ok(FactList {
            facts: list,
            marks,
            recent: 0,
        })
    }

    /// The facts.
    pub fn as_slice(&self) -> &[Fact]
        ensures { result.now ≡ self.now }
    {
        self.facts.as_slice()
    }

    /// The facts.
    pub fn into_vec(self) -> Vec<Fact>
        ensures { result.items ≡ self }
    {
        self.facts
    }

    /// Whether a fact may tell where a value lies, what its low bits are, or how it is linked with others.
    #[tactic(auto, using(crate::proofs::Covering::not_told))]
    pub fn is_linked(&self, value: Value) -> bool
        ensures { result ≡ false → list_any (links value) self.now ≡ false }
    {
        is_marked(self.marks.linked.as_slice(), value)
    }

    /// Whether an operand is a value of which no fact does.
    #[tactic(auto, using(crate::proofs::Covering::not_told))]
    pub(crate) fn is_unlinked(&self, operand: Operand) -> bool
        ensures { result ≡ true → IsUnlinked self.now operand }
    {
        match operand {
            Operand::Held(value) => !self.is_linked(value),
            Operand::Number(_) => false,
            Operand::Stack => false,
        }
    }

    /// Whether an operand is a value which is read by no operation of which a fact tells.
    #[tactic(auto, using(crate::proofs::Covering::not_told))]
    pub(crate) fn is_unread(&self, operand: Operand) -> bool
        ensures { result ≡ true → IsUnread self.now operand }
    {
        match operand {
            Operand::Held(value) => !is_marked(self.marks.read.as_slice(), value),
            Operand::Number(_) => false,
            Operand::Stack => false,
        }
    }

    /// Whether a fact names a value.
    #[tactic(auto, using(crate::proofs::Covering::not_told))]
    pub(crate) fn has_name(&self, value: Value) -> bool
        ensures { result ≡ list_any (names value) self.now }
    {
        is_marked(self.marks.named.as_slice(), value) && any_names(self.facts.as_slice(), value)
    }

    /// Puts a fact before the others.
    pub(crate) fn put(&mut self, fact: Fact) -> Result<(), NoMemory>
        ensures { IfOk result (λ _. self.new ≡ fact ∷ self.old) }
    {
        mark_fact(&mut self.marks, fact);
        self.recent = self.recent.saturating_add(1);
        self.facts.insert(0, fact)?;
        Ok(())
    }

    /// Marks all facts anew once many were put.
    pub(crate) fn renew(&mut self)
        ensures { self.new ≡ self.old }
    {
        if self.recent >= MOST_RECENT && self.recent >= self.facts.len() {
            clear(&mut self.marks);
            mark_facts(&mut self.marks, self.facts.as_slice());
            self.recent = 0;
        }
    }

    /// Leaves these facts of the list.
    #[tactic(auto, using(crate::proofs::Covering::part_marked))]
    pub(crate) fn leave(&mut self, facts: Vec<Fact>)
        requires { IsPart facts.items self.old }
        ensures { self.new ≡ facts.items }
    {
        self.facts = facts;
    }

    /// Takes the last fact off.
    #[tactic(auto, using(crate::proofs::Covering::part_marked, crate::proofs::Covering::part_taken))]
    pub(crate) fn drop_last(&mut self)
        ensures { self.new ≡ take (length self.old - 1) self.old }
    {
        let front = self.facts.len().saturating_sub(1);
        self.facts.truncate(front);
    }
}

/// A list of these facts, with room for what so many operations say.
fn with_room(alloc: Global, facts: &[Fact], ops: usize) -> Result<Vec<Fact>, NoMemory>
    ensures { IfOk result (λ copy. copy.items ≡ facts.now) }
{
    let room = ops.saturating_mul(2).saturating_add(facts.len());
    let mut copy = Vec::with_capacity(alloc, room)?;
    copy.extend_from_slice(facts)?;
    Ok(copy)
}
