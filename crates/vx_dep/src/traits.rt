// What delays ask of an operation of a trace, found once for each: which values it reads, which value it writes, of which kind
// it is, and its latency. specs/Traits.antt says the same.

ghost use Rattle.std.specs.Prelude.{◌≡◌, ◌++◌, nat_eq};
ghost use Rattle.std.specs.List.{list_any};
ghost use Rattle.vx_flow.specs.Operands.{value_list, values_read};
ghost use Rattle.vx_dep.specs.Delays.{is_load, is_store};
ghost use Rattle.vx_dep.specs.Traits.{written, read, has, traits_of};

use vx_flow::graph::{Op, Value};
use vx_flow::operands::{Reads, read_by, reads_three, written_by};
use vx_flow::trace::TraceOp;
use vx_machine::Machine;
use vx_room::items::Item;

/// What delays ask of an operation.
#[derive(Clone, Copy)]
pub(crate) struct Traits {
    /// The value that it writes.
    pub(crate) written: Option<Value>,
    /// The values that it reads.
    pub(crate) reads: Reads,
    pub(crate) is_load: bool,
    pub(crate) is_store: bool,
    /// It reads the input or prints.
    pub(crate) is_observable: bool,
    /// It is a split.
    pub(crate) leaves: bool,
    /// It is a split, and no other split may stand in its word.
    pub(crate) alone: bool,
    /// It is a load or a store.
    pub(crate) is_access: bool,
    /// It is observable or a split.
    pub(crate) is_fixed: bool,
    /// The cycles until its result has landed at the latest.
    pub(crate) latency: u32,
}

/// What is asked of an operation.
pub(crate) fn traits_of(machine: &Machine, op: &TraceOp) -> Traits
    ensures { result ≡ traits_of machine.now op.now }
{
    let item = Item::of_trace(op);
    Traits {
        written: written(op),
        reads: read(op),
        is_load: is_load(op),
        is_store: is_store(op),
        is_observable: item.is_observable(),
        leaves: item.is_split(),
        alone: item.is_split() && machine.branches() == 1,
        is_access: is_load(op) || is_store(op),
        is_fixed: item.is_observable() || item.is_split(),
        latency: item.latency(machine),
    }
}

/// The value that an operation writes.
pub fn written(op: &TraceOp) -> Option<Value>
    ensures { result ≡ written op.now }
{
    match op {
        TraceOp::Plain(op) => written_by(op),
        TraceOp::Split { .. } => None,
    }
}

/// The values that an operation reads; a split reads its test.
pub fn read(op: &TraceOp) -> Reads
    ensures { result ≡ read op.now }
{
    match op {
        TraceOp::Plain(op) => read_by(op),
        TraceOp::Split { test, .. } => reads_three(Some(*test), None, None),
    }
}

fn is_load(op: &TraceOp) -> bool
    ensures { result ≡ is_load op.now }
{
    match op {
        TraceOp::Plain(Op::Load { .. }) => true,
        _ => false,
    }
}

fn is_store(op: &TraceOp) -> bool
    ensures { result ≡ is_store op.now }
{
    match op {
        TraceOp::Plain(Op::Store { .. }) => true,
        _ => false,
    }
}

/// Whether an operation reads what another one writes.
pub(crate) fn reads_written(reader: &Traits, writer: &Traits) -> bool
    ensures { result ≡ has writer.now.written (values_read reader.now.reads) }
{
    match writer.written {
        Some(value) => reads_value(&reader.reads, value),
        None => false,
    }
}

#[tactic(auto, using(crate::proofs::Written::reads_two))]
fn reads_value(reads: &Reads, value: Value) -> bool
    ensures { result ≡ list_any (nat_eq value) (values_read reads.now) }
{
    is_value(reads.first, value) || hold(reads.second, reads.third, value)
}

#[tactic(auto, using(crate::proofs::Written::reads_two))]
fn hold(one: Option<Value>, other: Option<Value>, value: Value) -> bool
    ensures { result ≡ list_any (nat_eq value) (value_list one ++ value_list other) }
{
    is_value(one, value) || is_value(other, value)
}

fn is_value(held: Option<Value>, value: Value) -> bool
    ensures { result ≡ list_any (nat_eq value) (value_list held) }
{
    match held {
        Some(held) => value == held,
        None => false,
    }
}

/// Whether both operations write one value.
pub(crate) fn write_alike(op: &Traits, other: &Traits) -> bool
    ensures { result ≡ has op.now.written (value_list other.now.written) }
{
    match op.written {
        Some(value) => is_value(other.written, value),
        None => false,
    }
}
