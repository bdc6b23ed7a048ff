// Which facts on what values hold the ends of several blocks have in common. The facts of one end are passed over once, and those of
// each other one are found by the value of which they tell.

use crate::inherited::MOST;
use std::alloc::Global;
use vx_base::arithmetic::Code;
use vx_base::outcome::NoMemory;
use vx_claims::claim::{Claim, facts_in};
use vx_claims::fact::Fact;
use vx_claims::known::{has_equals, is_never, same_operand};
use vx_flow::graph::{BlockId, Value};
use vx_loops::Loops;

/// Where in a list the first fact stands that tells what a value holds.
#[derive(Clone, Copy)]
struct First {
    /// The number of the list.
    list: usize,
    place: usize,
}

/// What several ends share, and the room in which that is looked for.
#[derive(Drop)]
pub(crate) struct Shared {
    /// The facts that they share.
    facts: Vec<Fact>,
    /// For each value where a list tells of it. Lists have ascending numbers from 1 on.
    firsts: Vec<First>,
    /// The number of the list that is looked at.
    list: usize,
}

impl Shared {
    /// The room for a function with so many values.
    pub(crate) fn new(alloc: Global, values: usize) -> Result<Shared, NoMemory> {
        let firsts = vec![in alloc; First { list: 0, place: 0 }; values]?;
        Ok(Shared {
            facts: Vec::new(alloc),
            firsts,
            list: 0,
        })
    }

    /// What was found last.
    pub(crate) fn facts(&self) -> &[Fact] {
        self.facts.as_slice()
    }

    /// Finds the facts at the end of one of the blocks before a place that the ends of the others have too, and no turn of its loop
    /// changes. A block whose end no run comes to has all of them.
    pub(crate) fn find(
        &mut self,
        loops: &Loops,
        ends: &[Claim],
        before: &[BlockId],
        one: BlockId,
        place: BlockId,
    ) -> Result<(), NoMemory> {
        let turns = loops.is_inside(place as usize);
        self.begin(loops, turns, facts_in(ends, one as usize))?;
        for block in before {
            let end = facts_in(ends, *block as usize);
            if *block != one && self.facts.len() > 0 && !is_never(end) {
                self.look_at(end);
                self.keep_told(end);
            }
        }
        Ok(())
    }

    /// Begins with those of the newest facts of an end that no turn of the loop changes, where there is one.
    fn begin(&mut self, loops: &Loops, turns: bool, end: &[Fact]) -> Result<(), NoMemory> {
        let comes = !is_never(end);
        self.facts.clear();
        for fact in &end[..end.len().min(MOST)] {
            if is_shared(comes, *fact) && !(turns && is_changed(loops, *fact)) {
                self.facts.push(*fact)?;
            }
        }
        Ok(())
    }

    /// Notes where the facts of a list stand.
    fn look_at(&mut self, end: &[Fact]) {
        self.list = self.list.saturating_add(1);
        for (place, fact) in end.iter().enumerate() {
            match *fact {
                Fact::Equals { value, .. } => self.note(value, place),
                Fact::Between { .. } | Fact::Congruent { .. } | Fact::Never => {}
            }
        }
    }

    fn note(&mut self, value: Value, place: usize) {
        let at = value as usize;
        if at < self.firsts.len() && self.firsts[at].list != self.list {
            self.firsts[at] = First {
                list: self.list,
                place,
            };
        }
    }

    /// Leaves of what is shared so far what the list that is looked at tells.
    fn keep_told(&mut self, end: &[Fact]) {
        let mut kept: usize = 0;
        for place in 0..self.facts.len() {
            if place < self.facts.len() && kept < self.facts.len() {
                let fact = self.facts[place];
                if self.tells(end, fact) {
                    self.facts[kept] = fact;
                    kept = kept.saturating_add(1);
                }
            }
        }
        self.facts.truncate(kept);
    }

    fn tells(&self, end: &[Fact], fact: Fact) -> bool {
        match fact {
            Fact::Equals {
                value,
                code,
                left,
                right,
            } => has_equals(self.told_of(end, value), value, code, left, right),
            Fact::Between { .. } | Fact::Congruent { .. } | Fact::Never => false,
        }
    }

    /// The list that is looked at from the first fact on that tells what a value holds.
    fn told_of<'a>(&self, end: &'a [Fact], value: Value) -> &'a [Fact] {
        match self.firsts.get(value as usize) {
            Some(first) => {
                if first.list == self.list && first.place <= end.len() {
                    &end[first.place..]
                } else {
                    &[]
                }
            }
            None => &[],
        }
    }
}

/// Whether a fact tells what a general value holds, and, where a run comes there, in words that can be found again.
fn is_shared(comes: bool, fact: Fact) -> bool {
    match fact {
        Fact::Equals {
            code,
            left,
            right,
            ..
        } => {
            !is_test(code) && (!comes || same_operand(left, left) && same_operand(right, right))
        }
        Fact::Between { .. } | Fact::Congruent { .. } | Fact::Never => false,
    }
}

/// Whether a turn of a loop changes what a fact tells.
fn is_changed(loops: &Loops, fact: Fact) -> bool {
    match fact {
        Fact::Equals {
            value,
            left,
            right,
            ..
        } => loops.is_written(value) || !loops.keeps(left) || !loops.keeps(right),
        Fact::Between { .. } | Fact::Congruent { .. } | Fact::Never => false,
    }
}

fn is_test(code: Code) -> bool {
    match code {
        Code::ToBranch(_) => true,
        _ => false,
    }
}
