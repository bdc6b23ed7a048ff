// Items: operations on values and splits, as a word of a trace holds them, and what each needs of a machine.
// specs/Items.antt says the same.

ghost use Rattle.std.specs.Prelude.{◌≡◌, ◌≤◌, ◌∷◌, [], count_by};
ghost use Rattle.vx_room.specs.Items.{item_of, unit_of_op, unit_of_item, latency_of_op, latency_of_item, is_observable_item, is_split, base_of, general_reads_of_op, general_reads, takes_port, writes_general_op, writes_general};

use vx_base::arithmetic::Code;
use vx_flow::graph::{Op, Operand, Value};
use vx_flow::operands::is_observable;
use vx_flow::trace::TraceOp;
use vx_isa::operation::{UnitKind, unit_of_code};
use vx_machine::Machine;

/// What a word of a trace can hold.
#[derive(Clone, Copy)]
pub enum Item {
    /// An operation on values.
    Plain(Op),
    /// A two-way exit, by the branch value that it tests.
    Split { test: Value },
}

/// An item with the cluster on which it stands.
#[derive(Clone, Copy)]
pub struct ClusteredItem {
    /// The cluster, from 0.
    pub cluster: u32,
    /// What stands there.
    pub item: Item,
}

impl Item {
    /// The item that an operation of a trace is.
    pub fn of_trace(op: &TraceOp) -> Item
        ensures { result ≡ item_of op.now }
    {
        match op {
            TraceOp::Plain(op) => Item::Plain(*op),
            TraceOp::Split { test, .. } => Item::Split { test: *test },
        }
    }

    /// The unit that it takes.
    pub fn unit(&self) -> UnitKind
        ensures { result ≡ unit_of_item self.now }
    {
        match self {
            Item::Plain(op) => unit_of_op(op),
            Item::Split { .. } => UnitKind::Control,
        }
    }

    /// The cycles until its result has landed at the latest; 0 where it has none.
    pub fn latency(&self, machine: &Machine) -> u32
        ensures { result ≡ latency_of_item machine.now self.now }
    {
        match self {
            Item::Plain(op) => latency_of_op(machine, op),
            Item::Split { .. } => 0,
        }
    }

    /// Whether it is a split.
    pub fn is_split(&self) -> bool
        ensures { result ≡ is_split self.now }
    {
        match self {
            Item::Plain(_) => false,
            Item::Split { .. } => true,
        }
    }

    /// Whether it reads the input or prints.
    pub fn is_observable(&self) -> bool
        ensures { result ≡ is_observable_item self.now }
    {
        match self {
            Item::Plain(op) => is_observable(op),
            Item::Split { .. } => false,
        }
    }

    /// Whether it writes a general value.
    pub fn writes_general(&self) -> bool
        ensures { result ≡ writes_general self.now }
    {
        match self {
            Item::Plain(op) => writes_general_op(op),
            Item::Split { .. } => false,
        }
    }

    /// How many read ports it takes, at most two: one for each general register that it reads, repeats counted, the
    /// stack pointer of a place and of an access at a number included.
    pub fn read_ports(&self) -> u32
        ensures exact { result ≡ count_by takes_port (general_reads self.now) }
        ensures few { result ≤ 2 }
    {
        match self {
            Item::Plain(op) => read_ports_of_op(op),
            Item::Split { .. } => 0,
        }
    }
}

fn unit_of_op(op: &Op) -> UnitKind
    ensures { result ≡ unit_of_op op.now }
{
    match op {
        Op::Compute { code, .. } => unit_of_code(*code),
        Op::Select { .. } => UnitKind::Alu,
        Op::Place { .. } => UnitKind::Alu,
        Op::Base { .. } => UnitKind::Alu,
        Op::PlaceIn { .. } => UnitKind::Alu,
        Op::Across { .. } => UnitKind::Copies,
        _ => UnitKind::Memory,
    }
}

/// The cycles until the result of an operation has landed at the latest; 0 where it has none.
fn latency_of_op(machine: &Machine, op: &Op) -> u32
    ensures { result ≡ latency_of_op machine.now op.now }
{
    match op {
        Op::Compute { code, .. } => machine.latency_of_code(*code),
        Op::Select { .. } => machine.latency_alu(),
        Op::Place { .. } => machine.latency_alu(),
        Op::Base { .. } => machine.latency_alu(),
        Op::PlaceIn { .. } => machine.latency_alu(),
        Op::Load { .. } => machine.latency_load(),
        Op::More { .. } => machine.latency_load(),
        Op::Input { .. } => machine.latency_load(),
        Op::Across { .. } => machine.latency_copy(),
        _ => 0,
    }
}

fn writes_general_op(op: &Op) -> bool
    ensures { result ≡ writes_general_op op.now }
{
    match op {
        Op::Compute { code, .. } => !matches!(code, Code::ToBranch(_)),
        Op::Store { .. } => false,
        Op::Text { .. } => false,
        Op::Decimal { .. } => false,
        _ => true,
    }
}

fn read_ports_of_op(op: &Op) -> u32
    ensures exact { result ≡ count_by takes_port (general_reads_of_op op.now) }
    ensures few { result ≤ 2 }
{
    match op {
        Op::Compute {
            code,
            left,
            right,
            ..
        } => match code {
            Code::Mov => port_of(*left),
            _ => port_of(*left) + port_of(*right),
        },
        Op::Select { left, right, .. } => port_of(*left) + port_of(*right),
        Op::Place { index, .. } => port_of(*index) + 1,
        Op::Base { from, .. } => port_of(*from),
        Op::PlaceIn { index, .. } => port_of(*index) + 1,
        Op::Load { place, .. } => port_of(base_of(*place)),
        Op::Store { place, from, .. } => port_of(base_of(*place)) + port_of(*from),
        Op::Decimal { from } => port_of(*from),
        Op::Across { .. } => 1,
        _ => 0,
    }
}

/// The register of an address: the stack pointer where the place is a number.
fn base_of(place: Operand) -> Operand
    ensures { result ≡ base_of place }
{
    match place {
        Operand::Number(_) => Operand::Stack,
        _ => place,
    }
}

/// How many read ports an operand takes.
fn port_of(operand: Operand) -> u32
    ensures exact { result ≡ count_by takes_port (operand ∷ []) }
    ensures one { result ≤ 1 }
{
    match operand {
        Operand::Number(_) => 0,
        _ => 1,
    }
}
