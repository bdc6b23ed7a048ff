// The numbers of a machine by which the turns of loops are estimated.

use vx_base::arithmetic::Code;
use vx_flow::graph::Op;

/// What stands in one word of a machine at most, over all its clusters, how many values are kept in registers, and after how many
/// cycles results have landed.
#[derive(Clone, Copy)]
pub struct Units {
    /// Operations of a word.
    pub slots: u32,
    /// Operations of a word that stand on the first cluster, as compares for splits do.
    pub first_slots: u32,
    /// Splits of a word.
    pub branches: u32,
    /// Units for sums, compares and the like.
    pub alus: u32,
    /// Units for products and quotients.
    pub multipliers: u32,
    /// Units for loads and stores.
    pub memory_units: u32,
    /// Registers for general values.
    pub registers: u32,
    /// Registers for branch values.
    pub branch_registers: u32,
    /// Cycles of sums, moves and places.
    pub latency_alu: u32,
    /// Cycles of compares for splits.
    pub latency_compare: u32,
    /// Cycles of half products.
    pub latency_multiply: u32,
    /// Cycles of loads and of the input.
    pub latency_load: u32,
    /// Cycles of quotients.
    pub latency_divide: u32,
}

/// The kind of unit that an operation needs.
#[derive(Clone, Copy, PartialEq, Eq)]
pub(crate) enum Unit {
    Alu,
    Multiply,
    Memory,
    Slot,
}

impl Units {
    /// The cycles until the result of an operation has landed; 0 where it has none.
    pub(crate) fn latency(&self, op: &Op) -> u32 {
        match op {
            Op::Compute { code, .. } => self.latency_of(*code),
            Op::Select { .. } | Op::Place { .. } | Op::Across { .. } => self.latency_alu,
            Op::Base { .. } | Op::PlaceIn { .. } => self.latency_alu,
            Op::Load { .. } | Op::More { .. } | Op::Input { .. } => self.latency_load,
            Op::Store { .. } | Op::Text { .. } | Op::Decimal { .. } => 0,
        }
    }

    /// Whether all operations stand on one cluster, so that none is moved to another, which estimates leave out.
    pub(crate) fn is_one_cluster(&self) -> bool {
        self.slots == self.first_slots
    }

    /// By how many words a split stands behind one above it at least.
    pub(crate) fn splits_apart(&self) -> u32 {
        if self.branches > 1 { 0 } else { 1 }
    }

    fn latency_of(&self, code: Code) -> u32 {
        match code {
            Code::ToBranch(_) => self.latency_compare,
            Code::Mpylu | Code::Mpyhs => self.latency_multiply,
            Code::Div | Code::Rem => self.latency_divide,
            _ => self.latency_alu,
        }
    }
}

/// The unit that an operation needs.
pub(crate) fn unit_of(op: &Op) -> Unit {
    match op {
        Op::Compute { code, .. } => match code {
            Code::Mpylu | Code::Mpyhs | Code::Div | Code::Rem => Unit::Multiply,
            _ => Unit::Alu,
        },
        Op::Select { .. } | Op::Place { .. } | Op::Across { .. } => Unit::Alu,
        Op::Base { .. } | Op::PlaceIn { .. } => Unit::Alu,
        Op::Load { .. } | Op::Store { .. } => Unit::Memory,
        Op::More { .. } | Op::Input { .. } | Op::Text { .. } | Op::Decimal { .. } => Unit::Slot,
    }
}

/// Whether an operation stands on the first cluster: it names a branch value, or can be observed.
pub(crate) fn is_first(op: &Op) -> bool {
    match op {
        Op::Compute { code, .. } => match code {
            Code::ToBranch(_) => true,
            _ => false,
        },
        Op::Select { .. } | Op::More { .. } | Op::Input { .. } => true,
        Op::Text { .. } | Op::Decimal { .. } => true,
        _ => false,
    }
}

/// Whether an operation can be observed.
pub(crate) fn is_observable(op: &Op) -> bool {
    match op {
        Op::More { .. } | Op::Input { .. } | Op::Text { .. } | Op::Decimal { .. } => true,
        _ => false,
    }
}
