// The stores of `a[i] = 1; a[i + 1] = 2` in a source: in the first trace of its graph, from its first block to the return, their forms
// tell that they never name one word.

ghost use Rattle.std.specs.Prelude.{◌≡◌, true};
ghost use Rattle.vx_flow.specs.Sound.{is_sound};
ghost use Rattle.vx_linear.specs.Forms.{AreOrdered};
ghost use Rattle.vx_mixed.specs.Valid.{CanBegin};

use crate::begins::can_begin;
use crate::passes::{Passed, counts};
use crate::steps_run::{begun_for, step};
use std::alloc::Global;
use std::test::Fail;
use vx_base::answer::Answer;
use vx_base::outcome::NoMemory;
use vx_files::typed_of;
use vx_flow::graph::{Flow, Graph, Op};
use vx_flow::trace::{Trace, TraceOp};
use vx_linear::form::Form;
use vx_linear::{differs, forms};
use vx_lower::lower;
use vx_machine::Machine;
use vx_region::{Budget, Step};
use vx_sound::graph_is_sound;
use vx_status::Status;

const NEXT: &str =
    "int a[8]; int main(void) { int i = read_int(); a[i] = 1; a[i + 1] = 2; return 0; }";

/// The most bytes of a source.
const MOST_BYTES: usize = 1048576;

/// The graphs of a source; none where it is refused.
fn graphs_of(alloc: Global, source: &[u8]) -> Result<Option<Flow>, NoMemory> {
    if source.len() > MOST_BYTES {
        return Ok(None);
    }
    match typed_of(alloc, source) {
        Ok(program) => Ok(Some(lower(alloc, &program)?)),
        Err(Status::NoMemory) => Err(NoMemory),
        Err(_) => Ok(None),
    }
}

/// The places of the stores of a trace.
fn stores_of(alloc: Global, ops: &[TraceOp]) -> Result<Vec<usize>, NoMemory> {
    let mut places = Vec::new(alloc);
    for (place, op) in ops.iter().enumerate() {
        match op {
            TraceOp::Plain(Op::Store { .. }) => places.push(place)?,
            _ => {}
        }
    }
    Ok(places)
}

fn never_meet(forms: &[Option<Form>], one: usize, other: usize) -> bool
    requires { AreOrdered forms.now }
{
    match (forms.get(one), forms.get(other)) {
        (Some(Some(left)), Some(Some(right))) => differs(left, right) == Answer::Never,
        _ => false,
    }
}

/// Whether a trace has two stores, which never name one word.
fn are_apart(alloc: Global, trace: &Trace) -> Result<bool, NoMemory> {
    let forms = forms(alloc, trace)?;
    let stores = stores_of(alloc, trace.ops.as_slice())?;
    match stores.as_slice() {
        [one, other] => Ok(never_meet(forms.as_slice(), *one, *other)),
        _ => Ok(false),
    }
}

/// Whether the first trace of a graph of which nothing was counted is so: of edges out of a block it takes the one to the lowest, and
/// traps have the highest numbers.
fn first_is_so(alloc: Global, graph: &Graph) -> Result<bool, NoMemory>
    requires sound { is_sound graph.now ≡ true }
    requires begins { CanBegin graph.now }
{
    let machine = Machine::vex(1);
    let none = Passed {
        blocks: &[],
        edges: &[],
    };
    let counts = counts(alloc, &none)?;
    let mut mixed = begun_for(alloc, graph, &machine)?;
    let mut budget = Budget::make(0);
    match step(alloc, &mut mixed, &counts, &machine, &mut budget)? {
        Step::Finished => Ok(false),
        Step::Replaced(plan) => are_apart(alloc, &plan.placed.clustered.trace),
    }
}

fn is_so(alloc: Global, graph: &Graph) -> Result<bool, NoMemory> {
    if !graph_is_sound(graph) {
        return Ok(false);
    }
    if !can_begin(alloc, graph)? {
        return Ok(false);
    }
    first_is_so(alloc, graph)
}

fn holds(alloc: Global, source: &[u8]) -> Result<bool, NoMemory> {
    match graphs_of(alloc, source)? {
        Some(flow) => match flow.functions.as_slice().first() {
            Some(graph) => is_so(alloc, graph),
            None => Ok(false),
        },
        None => Ok(false),
    }
}

#[test]
fn next_elements_are_apart(rt: HostRuntime) -> Result<(), Fail> {
    assert!(rt; holds(rt.alloc(), NEXT.as_bytes())?);
    Ok(())
}
