// The values that are kept from block to block, and whether there are registers for more of them.

use crate::sketch::{Ground, Sketch, Trial};
use crate::steps::{Step, has};
use std::alloc::Global;
use vx_base::outcome::NoMemory;
use vx_flow::graph::{Bank, BlockId, Graph, Value};

/// The values that are live at the start of some block of a turn, and how many of each bank.
#[derive(Drop)]
pub(crate) struct Names {
    is_kept: Vec<bool>,
    general: u32,
    branch: u32,
}

/// How many values pass in a turn at a time for each operation of a word, at most, and how many tests.
const AT_A_TIME: u32 = 4;

const TESTS_AT_A_TIME: u32 = 2;

/// How many values pass in a turn that are not kept, of each bank.
#[derive(Clone, Copy)]
pub(crate) struct Passing {
    general: u32,
    branch: u32,
}

impl Passing {
    fn and_one(self, branch: bool) -> Passing {
        if branch {
            Passing {
                general: self.general,
                branch: self.branch.saturating_add(1),
            }
        } else {
            Passing {
                general: self.general.saturating_add(1),
                branch: self.branch,
            }
        }
    }
}

/// The values that are kept from block to block in a turn.
pub(crate) fn names_of(
    alloc: Global,
    ground: &Ground,
    sketch: &Sketch,
    path: &[BlockId],
) -> Result<Names, NoMemory> {
    let mut names = Names {
        is_kept: vec![in alloc; false; ground.graph.banks.len()]?,
        general: 0,
        branch: 0,
    };
    for block in path {
        names.keep_all(ground.graph, ground.live.values_at(*block));
        names.keep_raised(ground.graph, sketch.raised_since(0), *block);
    }
    Ok(names)
}

impl Names {
    fn keep_all(&mut self, graph: &Graph, values: &[Value]) {
        for value in values {
            self.keep(graph, *value);
        }
    }

    fn keep_raised(&mut self, graph: &Graph, trials: &[Trial], block: BlockId) {
        for trial in trials {
            if trial.is_from(block) {
                self.keep(graph, trial.value);
            }
        }
    }

    /// Counts a value, if it was not.
    pub(crate) fn keep(&mut self, graph: &Graph, value: Value) {
        let place = value as usize;
        if place < self.is_kept.len() && !self.is_kept[place] {
            self.is_kept[place] = true;
            if is_branch(graph, value) {
                self.branch = self.branch.saturating_add(1);
            } else {
                self.general = self.general.saturating_add(1);
            }
        }
    }

    fn is_kept(&self, value: Value) -> bool {
        match self.is_kept.get(value as usize) {
            Some(is_kept) => *is_kept,
            None => true,
        }
    }

    /// The values that steps write and that are not kept, each once.
    pub(crate) fn count_passing(&self, graph: &Graph, steps: &[Step]) -> Passing {
        let mut passing = Passing {
            general: 0,
            branch: 0,
        };
        for (index, step) in steps.iter().enumerate() {
            match step.written {
                Some(value) => {
                    if !self.is_kept(value) && !is_written_before(steps, index, value) {
                        passing = passing.and_one(is_branch(graph, value));
                    }
                }
                None => {}
            }
        }
        passing
    }

    /// Whether there are registers for the values that are kept besides since these operations were raised, for those that pass beside
    /// them in the turn, and for a branch value more.
    pub(crate) fn has_room(&self, ground: &Ground, passing: Passing, trials: &[Trial]) -> bool {
        let general = self.more(ground.graph, trials, false);
        let branch = self.more(ground.graph, trials, true);
        let beside = passing.general.saturating_sub(general);
        let most = ground.units.slots.saturating_mul(AT_A_TIME);
        let tests = passing.branch.saturating_sub(branch).saturating_add(1);
        has_registers(
            general,
            self.general.saturating_add(beside.min(most)),
            ground.units.registers,
        ) && has_registers(
            branch,
            self.branch.saturating_add(tests.min(TESTS_AT_A_TIME)),
            ground.units.branch_registers,
        )
    }

    fn more(&self, graph: &Graph, trials: &[Trial], branch: bool) -> u32 {
        let mut more = 0u32;
        for (index, trial) in trials.iter().enumerate() {
            if !self.is_kept(trial.value)
                && is_branch(graph, trial.value) == branch
                && !was_before(trials, index, trial.value)
            {
                more = more.saturating_add(1);
            }
        }
        more
    }
}

/// Whether so many values more have registers beside the others, if there are any.
fn has_registers(more: u32, others: u32, registers: u32) -> bool {
    more == 0 || others.saturating_add(more) <= registers
}

fn is_written_before(steps: &[Step], count: usize, value: Value) -> bool {
    for (index, step) in steps.iter().enumerate() {
        if index < count && has(step.written, value) {
            return true;
        }
    }
    false
}

fn is_branch(graph: &Graph, value: Value) -> bool {
    match graph.banks.as_slice().get(value as usize) {
        Some(bank) => *bank == Bank::Branch,
        None => false,
    }
}

/// Whether one of the first so many operations wrote the value.
fn was_before(trials: &[Trial], count: usize, value: Value) -> bool {
    for (index, trial) in trials.iter().enumerate() {
        if index < count && trial.value == value {
            return true;
        }
    }
    false
}
