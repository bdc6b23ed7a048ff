// The order in which the operations of a trace take their clusters: from the last operation to the first, the writers of
// an operation's operands before it (Ellis, 1985). The clause of `listed` is the definition of specs/Clusters.antt.

ghost use Rattle.std.specs.Prelude.{◌≡◌, ◌<◌, ◌≤◌, ◌+◌, ◌*◌, ◌++◌, ◌||◌, ℕ, IfOk, IfSome, IfNone, OnOk, Some, None, nat_eq, length, slice_get};
ghost use Rattle.std.specs.List.{list_any, flat_map};
ghost use Rattle.vx_linear.specs.Writers.{writer};
ghost use Rattle.vx_bug.specs.Clusters.{some_of, writers_of, visit, listed};
ghost use Rattle.vx_flow.specs.Rows.{is_marked};
ghost use Rattle.vx_bug.specs.Marks.{AreMarks};
ghost use Rattle.vx_bug.specs.Tasks.{done, all_done, entries, turns, weight, all_weight};

use crate::values::{reads_of, writer};
use std::alloc::Global;
use vx_base::listed::Listed;
use vx_base::outcome::NoMemory;
use vx_flow::graph::Value;
use vx_flow::trace::{Trace, TraceOp};

/// The places of the operations in the order in which they take their clusters.
pub(crate) fn listed(alloc: Global, trace: &Trace) -> Result<Listed<u32>, NoMemory>
    ensures { IfOk result (λ order. order ≡ listed trace.now) }
{
    let mut order = Listed::new(alloc);
    let mut marks = Vec::new(alloc);
    let depth = trace.ops.len() + 1;
    let mut place = trace.ops.len() as u32;
    'walk: while place > 0 {
        place -= 1;
        visit(alloc, trace, depth, place, &mut order, &mut marks)?;
    }
    Ok(order)
}

/// What is left to do of a visit.
#[derive(Clone, Copy)]
pub(crate) enum Task {
    /// A place is visited, with at most so many visits inside each other.
    Enter { depth: usize, place: u32 },
    /// The operation at a place is listed; the writers of its operands are.
    Leave(u32),
}

/// Lists the writers of an operation's operands and the operation itself, unless it is listed. Writers stand at smaller
/// places, so that a depth of more than the place is enough. It keeps a list of tasks in place of a recursion, which would be
/// as deep as the trace is long where each operation reads what the one above it writes.
fn visit(
    alloc: Global,
    trace: &Trace,
    depth: usize,
    place: u32,
    order: &mut Listed<u32>,
    marks: &mut Vec<bool>,
) -> Result<(), NoMemory>
    requires { AreMarks marks.old.items order.old }
    ensures order { IfOk result (λ _. order.new ≡ visit depth trace.now place order.old) }
    ensures marks { IfOk result (λ _. AreMarks marks.new.items order.new) }
{
    let mut tasks = Vec::new(alloc);
    tasks.push(Task::Enter { depth, place })?;
    'turns: loop {
        match tasks.pop() {
            None => return Ok(()),
            Some(task) => turn(trace, task, &mut tasks, order, marks)?,
        }
    }
}

/// Does a task, from which others may come.
#[tactic(auto, using(crate::proofs::Marks::one_marked))]
fn turn(
    trace: &Trace,
    task: Task,
    tasks: &mut Vec<Task>,
    order: &mut Listed<u32>,
    marks: &mut Vec<bool>,
) -> Result<(), NoMemory>
    requires { AreMarks marks.old.items order.old }
    ensures done { IfOk result (λ _. all_done trace.now tasks.new.items order.new ≡ all_done trace.now tasks.old.items (done trace.now task order.old)) }
    ensures fewer { IfOk result (λ _. all_weight tasks.new.items < all_weight tasks.old.items + weight task) }
    ensures marks { IfOk result (λ _. AreMarks marks.new.items order.new) }
{
    match task {
        Task::Enter { depth, place } => {
            enter(trace, depth, place, tasks, order, marks.as_slice())?;
            Ok(())
        }
        Task::Leave(place) => {
            order.push(place)?;
            mark(marks, place)?;
            Ok(())
        }
    }
}

/// Enters a place: its writers come first, and then it is left.
fn enter(
    trace: &Trace,
    depth: usize,
    place: u32,
    tasks: &mut Vec<Task>,
    order: &Listed<u32>,
    marks: &[bool],
) -> Result<(), NoMemory>
    requires { AreMarks marks.now order.now }
    ensures done { IfOk result (λ _. all_done trace.now tasks.new.items order.now ≡ all_done trace.now tasks.old.items (visit depth trace.now place order.now)) }
    ensures fewer { IfOk result (λ _. all_weight tasks.new.items < all_weight tasks.old.items + turns depth) }
{
    if depth == 0 {
        return Ok(());
    }
    if is_listed(order, marks, place) {
        return Ok(());
    }
    tasks.push(Task::Leave(place))?;
    enter_writers(trace, depth - 1, place, tasks)?;
    Ok(())
}

/// The visits of the writers of the operands of the operation at a place. The last one is done first, so that they are done
/// in the order of the operands.
fn enter_writers(
    trace: &Trace,
    depth: usize,
    place: u32,
    tasks: &mut Vec<Task>,
) -> Result<(), NoMemory>
    ensures tasks { IfOk result (λ _. tasks.new.items ≡ tasks.old.items ++ entries depth (writers_of trace.now place (slice_get trace.now.ops place))) }
    ensures few { IfOk result (λ _. all_weight tasks.new.items ≤ all_weight tasks.old.items + 3 * turns depth) }
{
    match op_at(trace, place) {
        None => Ok(()),
        Some(op) => {
            let read = reads_of(op);
            enter_writer(trace, depth, place, read.third, tasks)?;
            enter_writer(trace, depth, place, read.second, tasks)?;
            enter_writer(trace, depth, place, read.first, tasks)?;
            Ok(())
        }
    }
}

fn op_at(trace: &Trace, place: u32) -> Option<&TraceOp>
    ensures some { IfSome result (λ op. slice_get trace.now.ops place ≡ Some op.now) }
    ensures none { IfNone result (slice_get trace.now.ops place ≡ None) }
{
    trace.ops.as_slice().get(place as usize)
}

/// The visit of the operation above a place that wrote an operand last, if there is one.
#[tactic(auto, using(crate::proofs::Tasks::no_entry, crate::proofs::Tasks::none_above, crate::proofs::Tasks::one_entry, crate::proofs::Tasks::entered_few))]
fn enter_writer(
    trace: &Trace,
    depth: usize,
    place: u32,
    value: Option<Value>,
    tasks: &mut Vec<Task>,
) -> Result<(), NoMemory>
    ensures tasks { IfOk result (λ _. tasks.new.items ≡ tasks.old.items ++ entries depth (flat_map (λ v. some_of (writer trace.now.ops place v)) (some_of value))) }
    ensures few { IfOk result (λ _. all_weight tasks.new.items ≤ all_weight tasks.old.items + turns depth) }
{
    match value {
        None => Ok(()),
        Some(value) => match writer(trace.ops.as_slice(), place, value) {
            None => Ok(()),
            Some(place) => {
                tasks.push(Task::Enter { depth, place })?;
                Ok(())
            }
        },
    }
}

/// Whether a place is listed, by its mark.
#[tactic(auto, using(crate::proofs::Marks::mark_is, crate::proofs::Marks::no_mark))]
fn is_listed(order: &Listed<u32>, marks: &[bool], place: u32) -> bool
    requires { AreMarks marks.now order.now }
    ensures { result ≡ list_any (nat_eq place) order.now }
{
    match marks.get(place as usize) {
        Some(mark) => *mark,
        None => false,
    }
}

/// Marks a place.
#[tactic(auto, using(crate::proofs::Marks::set_mark))]
fn mark(marks: &mut Vec<bool>, place: u32) -> Result<(), NoMemory>
    ensures { OnOk result ((i : ℕ) → is_marked marks.new.items i ≡ (nat_eq i place || is_marked marks.old.items i)) }
{
    let at = place as usize;
    lengthen(marks, at)?;
    marks[at] = true;
    Ok(())
}

/// Makes the list of marks have one for a place.
fn lengthen(marks: &mut Vec<bool>, at: usize) -> Result<(), NoMemory>
    ensures there { OnOk result (at < length marks.new.items) }
    ensures same { (i : ℕ) → is_marked marks.new.items i ≡ is_marked marks.old.items i }
{
    'grow: while marks.len() <= at {
        marks.push(false)?;
    }
    Ok(())
}
