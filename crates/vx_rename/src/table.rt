// Where old values stand, as rows: the name of each old value, and numbers by which it is told whether it stands there. To look a value
// up, and to put one, takes the same time whatever the size of the graph.

ghost use Rattle.std.specs.Prelude.{◌≡◌, ◌++◌, ℕ, true, List, IfOk};
ghost use Rattle.vx_flow.specs.Effects.{reads, value_in};
ghost use Rattle.vx_flow.specs.Live.{reads_of_exit};
ghost use Rattle.vx_flow.specs.Operands.{value_list, values_read};
ghost use Rattle.std.specs.List.{list_all};
ghost use Rattle.vx_rename.specs.declared.names.Name.{Name};
ghost use Rattle.vx_rename.specs.Renaming.{all_stand, carries, clear, forget, forget_if, is_at, nowhere, place, place_if, put, put_if};
ghost use Rattle.vx_rename.specs.Making.{name_in, are_one, standing};

use crate::names::Name;
use std::alloc::Global;
use std::marker::Model;
use vx_base::outcome::NoMemory;
use vx_flow::graph::{Exit, Op, Operand, Value};
use vx_flow::operands::{Reads, read_by};

/// What stands where. What a name is given is numbered, and an old value stands at its name if it has the number of what that was given
/// last.
#[derive(Drop)]
pub struct Table {
    /// The name of each old value.
    names: Vec<Value>,
    /// The number of what each old value has; 0 if it stands nowhere.
    had: Vec<u32>,
    /// The number of what each name was given last.
    given: Vec<u32>,
    /// The last number.
    last: u32,
}

impl Model for Table {
    ghost use Rattle.vx_rename.specs.Making.{Numbered, AreNumbers};

    ghost Value = { Numbered };

    ghost view = { λ t. record { names = t.names.items; had = t.had.items; given = t.given.items; last = t.last } };

    ghost invariant = { λ t. AreNumbers t.had.items t.given.items t.last };
}

/// The name of an old value; 0 where it has none.
pub fn name_of(names: &[Value], value: Value) -> Value
    ensures { result ≡ name_in names.now value }
{
    match names.get(value as usize) {
        Some(name) => *name,
        None => 0,
    }
}

fn number_at(row: &[u32], place: Value) -> u32
    ensures { result ≡ name_in row.now place }
{
    match row.get(place as usize) {
        Some(number) => *number,
        None => 0,
    }
}

/// Whether what a value has is what its name was given last.
fn are_one(had: u32, given: u32) -> bool
    ensures { result ≡ are_one had given }
{
    had != 0 && had == given
}

impl Table {
    /// Nothing stands, and no old value has a name.
    #[tactic(auto, using(crate::proofs::Making::zeros, crate::proofs::Making::numbers_first))]
    pub fn new(alloc: Global, values: usize) -> Result<Table, NoMemory>
        ensures { IfOk result (λ table. (v : ℕ) → name_in table.names v ≡ 0) }
    {
        let names = vec![in alloc; 0; values]?;
        let had = vec![in alloc; 0; values]?;
        Ok(Table {
            names,
            had,
            given: Vec::new(alloc),
            last: 0,
        })
    }

    /// The name of each old value.
    pub fn names(&self) -> &[Value]
        ensures { result.now ≡ self.now.names }
    {
        self.names.as_slice()
    }

    /// Nothing stands any more, and there are so many names.
    pub fn clear(&mut self, alloc: Global, new_values: usize) -> Result<bool, NoMemory>
        ensures { IfOk result (λ done. done ≡ true → standing self.new ≡ nowhere (name_in self.old.names)) }
    {
        if self.last == u32::MAX {
            return Ok(false);
        }
        let last = self.last + 1;
        let given = vec![in alloc; last; new_values]?;
        self.given = given;
        self.last = last;
        Ok(true)
    }

    /// Whether an old value stands at its name.
    pub fn stands(&self, value: Value) -> bool
        ensures { result ≡ (standing self.now).stands value }
    {
        let name = name_of(self.names.as_slice(), value);
        are_one(
            number_at(self.had.as_slice(), value),
            number_at(self.given.as_slice(), name),
        )
    }

    /// An old value stands at a name too.
    #[tactic(auto, using(crate::proofs::Making::numbers_placed))]
    pub fn place(&mut self, value: Value, name: Value) -> bool
        ensures { result ≡ true → standing self.new ≡ place (standing self.old) value name }
    {
        let number = number_at(self.given.as_slice(), name);
        if number != 0 && (value as usize) < self.names.len() && (value as usize) < self.had.len() {
            self.names[value as usize] = name;
            self.had[value as usize] = number;
            true
        } else {
            false
        }
    }

    /// A name is given something new, so that nothing stands there.
    #[tactic(auto, using(crate::proofs::Making::renewed_by, crate::proofs::Making::numbers_renewed))]
    fn renew(&mut self, name: Value) -> bool
        ensures { result ≡ true → standing self.new ≡ clear (standing self.old) name }
    {
        if self.last == u32::MAX || (name as usize) >= self.given.len() {
            return false;
        }
        self.last += 1;
        self.given[name as usize] = self.last;
        true
    }

    /// Puts an old value at a name, where no other stands any more.
    pub fn put(&mut self, value: Value, name: Value) -> bool
        ensures { result ≡ true → standing self.new ≡ put (standing self.old) value name }
    {
        self.renew(name) && self.place(value, name)
    }

    /// Puts what is written, if anything is.
    pub fn put_if(&mut self, value: Option<Value>, name: Value) -> bool
        ensures { result ≡ true → standing self.new ≡ put_if (standing self.old) value name }
    {
        match value {
            Some(value) => self.put(value, name),
            None => true,
        }
    }

    /// What is written, if anything is, stands at a name too.
    pub fn place_if(&mut self, value: Option<Value>, name: Value) -> bool
        ensures { result ≡ true → standing self.new ≡ place_if (standing self.old) value name }
    {
        match value {
            Some(value) => self.place(value, name),
            None => true,
        }
    }

    /// An old value no longer stands.
    #[tactic(auto, using(crate::proofs::Making::forgotten_by, crate::proofs::Making::nothing_forgotten, crate::proofs::Making::numbers_forgotten))]
    fn forget(&mut self, value: Value)
        ensures { standing self.new ≡ forget (standing self.old) value }
    {
        if (value as usize) < self.had.len() {
            self.had[value as usize] = 0;
        }
    }

    /// What is written, if anything is, no longer stands.
    pub fn forget_if(&mut self, value: Option<Value>)
        ensures { standing self.new ≡ forget_if (standing self.old) value }
    {
        match value {
            Some(value) => self.forget(value),
            None => {}
        }
    }

    fn stands_if(&self, value: Option<Value>) -> bool
        ensures { result ≡ all_stand (standing self.now) (value_list value) }
    {
        match value {
            Some(value) => self.stands(value),
            None => true,
        }
    }

    #[tactic(auto, using(crate::proofs::Making::stand_both))]
    fn both_stand(&self, one: Option<Value>, other: Option<Value>) -> bool
        ensures { result ≡ all_stand (standing self.now) (value_list one ++ value_list other) }
    {
        self.stands_if(one) && self.stands_if(other)
    }

    #[tactic(auto, using(crate::proofs::Making::stand_both))]
    fn all_three_stand(&self, reads: &Reads) -> bool
        ensures { result ≡ all_stand (standing self.now) (values_read reads.now) }
    {
        self.stands_if(reads.first) && self.both_stand(reads.second, reads.third)
    }

    /// Whether the values that an operation reads stand at their names.
    #[tactic(auto, using(crate::proofs::Making::stand_by_op))]
    pub fn reads_stand(&self, op: &Op) -> bool
        ensures { result ≡ all_stand (standing self.now) (reads op.now) }
    {
        self.all_three_stand(&read_by(op))
    }

    fn operand_stands(&self, operand: &Operand) -> bool
        ensures { result ≡ all_stand (standing self.now) (value_in operand.now) }
    {
        match operand {
            Operand::Held(value) => self.stands(*value),
            Operand::Number(_) => true,
            Operand::Stack => true,
        }
    }

    fn operands_stand(&self, operands: &[Operand]) -> bool
        ensures { result ≡ list_all (λ x. all_stand (standing self.now) (value_in x)) operands.now }
    {
        for operand in operands {
            if !self.operand_stands(operand) {
                return false;
            }
        }
        true
    }

    /// Whether the values that an exit reads stand at their names.
    pub fn exit_reads_stand(&self, exit: &Exit) -> bool
        ensures { result ≡ all_stand (standing self.now) (reads_of_exit exit.now) }
    {
        match exit {
            Exit::Goto(_) => true,
            Exit::Split { test, .. } => self.stands(*test),
            Exit::Call { arguments, .. } => self.operands_stand(arguments.as_slice()),
            Exit::Return(operand) => self.operand_stands(operand),
            Exit::Ends(_) => true,
        }
    }

    /// Whether an old value stands at a name.
    pub fn is_at(&self, at: Name) -> bool
        ensures { result ≡ is_at (standing self.now) at }
    {
        self.stands(at.old) && name_of(self.names.as_slice(), at.old) == at.new
    }

    /// Whether each of these values stands at its name.
    pub fn carries(&self, start: &[Name]) -> bool
        ensures { result ≡ carries (standing self.now) start.now }
    {
        for at in start {
            if !self.is_at(*at) {
                return false;
            }
        }
        true
    }
}
