// The active function and those that wait: calls, returns, and what a step of a run comes to.

ghost use Rattle.std.specs.Prelude.{◌≡◌, [], ◌++◌, ◌∷◌, ◌+◌, ℕ, Some, IfOk, OnOk, drop, length, map, nat_le, slice_get};
ghost use Rattle.vx_base.specs.Outcome.{On};
ghost use Rattle.vx_flow.specs.Meaning.{after_hop, at_entry, deepest, edge_back, next, program_of, returned, start, with_result, words_at_start, Calls};
ghost use Rattle.vx_tally.specs.Machine.{active_of, entered_by, frame_of, hop_from, called_by, own_in, stacked, taken_by, undefined_all, visits, IsStep};
ghost use Rattle.vx_tally.specs.Storage.{state_of, value_at};
ghost use Rattle.vx_tally.specs.Tally.{TallyMore};

use crate::blocks::run_block;
use crate::cells::Cells;
use crate::ends::{Ending, Left};
use crate::entering::spots;
use crate::storage::{Storage, set_value};
use crate::tally::Tally;
use std::alloc::Global;
use std::mem::replace;
use vx_base::outcome::{NoMemory, Trap};
use vx_flow::arrays::has_base;
use vx_flow::graph::{Array, BlockId, Flow, Global as GlobalArray, Graph, Value};

/// The most functions that are active at a time.
pub const DEEPEST: usize = 512;

/// A function that waits for a call to return.
#[derive(Drop)]
pub struct Waiting {
    /// Its number.
    pub function: u32,
    /// Its block that called.
    pub from: BlockId,
    /// The block with which it goes on.
    pub next: BlockId,
    /// The value that gets the result.
    pub result: Option<Value>,
    /// Where the arrays stand that were passed to it, by their places behind the globals.
    pub passed: Vec<Option<usize>>,
    /// Where its own arrays begin in the list of arrays.
    pub base: usize,
    /// What its values hold.
    pub values: Vec<Option<i32>>,
}

/// The active function at the start of a block, with those that wait, the latest last.
#[derive(Drop)]
pub struct Machine {
    /// Its number.
    pub function: u32,
    /// The block.
    pub block: BlockId,
    /// Where the arrays stand that were passed to it, by their places behind the globals.
    pub passed: Vec<Option<usize>>,
    /// Where its own arrays begin in the list of arrays.
    pub base: usize,
    /// What it holds.
    pub storage: Storage,
    /// Those that wait.
    pub waiting: Vec<Waiting>,
}

/// One block of the active function, which is counted with the edge that is taken.
pub fn step(
    alloc: Global,
    machine: &mut Machine,
    tally: &mut Tally,
    flow: &Flow,
) -> Result<Option<Ending>, NoMemory>
    ensures step { IfOk result (λ ending. IsStep ending (next (program_of flow.now) (active_of machine.old)) machine.new) }
    ensures counts { OnOk result (TallyMore tally.old tally.new (visits (program_of flow.now) (active_of machine.old))) }
{
    tally.add_block(machine.function, machine.block)?;
    let left = run_block(
        alloc,
        &mut machine.storage,
        flow,
        machine.function,
        machine.passed.as_slice(),
        machine.base,
        machine.block,
    )?;
    count_edge(
        tally,
        machine.function,
        machine.block,
        machine.waiting.as_slice(),
        &left,
    )?;
    let ending = follow(alloc, machine, flow, left)?;
    Ok(ending)
}

/// Counts the edge that is taken as a block of a function is left.
fn count_edge(
    tally: &mut Tally,
    function: u32,
    block: BlockId,
    waiting: &[Waiting],
    left: &Left,
) -> Result<(), NoMemory>
    ensures { OnOk result (TallyMore tally.old tally.new (taken_by function block (stacked [] waiting.now) left.now)) }
{
    match left {
        Left::Arrives(to) => tally.add_edge(function, block, *to),
        Left::Calls { .. } => Ok(()),
        Left::Leaves(_) => count_edge_back(tally, waiting),
        Left::Stops(_) => Ok(()),
        Left::Wrong => Ok(()),
    }
}

/// Counts the edge behind the call of the function that waits last.
fn count_edge_back(tally: &mut Tally, waiting: &[Waiting]) -> Result<(), NoMemory>
    ensures { OnOk result (TallyMore tally.old tally.new (edge_back (stacked [] waiting.now))) }
{
    match waiting.last() {
        Some(last) => {
            tally.add_edge(last.function, last.from, last.next)?;
            Ok(())
        }
        None => Ok(()),
    }
}

/// Goes on as a block was left.
fn follow(
    alloc: Global,
    machine: &mut Machine,
    flow: &Flow,
    left: Left,
) -> Result<Option<Ending>, NoMemory>
    ensures { IfOk result (λ ending. IsStep ending (after_hop (program_of flow.now) (active_of machine.old) (hop_from machine.old.block (state_of machine.old.storage) left)) machine.new) }
{
    match left {
        Left::Arrives(to) => {
            machine.block = to;
            Ok(None)
        }
        Left::Calls {
            function,
            arguments,
            result,
            next,
        } => call(
            alloc,
            machine,
            flow,
            function,
            arguments.as_slice(),
            result,
            next,
        ),
        Left::Leaves(number) => give_back(machine, number),
        Left::Stops(trap) => Ok(Some(Ending::Traps(trap))),
        Left::Wrong => Ok(Some(Ending::Wrong)),
    }
}

/// Calls a function, where fewer than the most are active.
fn call(
    alloc: Global,
    machine: &mut Machine,
    flow: &Flow,
    function: u32,
    arguments: &[i32],
    result_to: Option<Value>,
    next: BlockId,
) -> Result<Option<Ending>, NoMemory>
    ensures { IfOk result (λ ending. IsStep ending (after_hop (program_of flow.now) (active_of machine.old) (Calls function arguments.now result_to machine.old.block next (state_of machine.old.storage))) machine.new) }
{
    if is_full(machine.waiting.len()) {
        return Ok(Some(Ending::Traps(Trap::Depth)));
    }
    let ending = call_any(alloc, machine, flow, function, arguments, result_to, next)?;
    Ok(ending)
}

/// Calls a function, where it is there.
fn call_any(
    alloc: Global,
    machine: &mut Machine,
    flow: &Flow,
    function: u32,
    arguments: &[i32],
    result_to: Option<Value>,
    next: BlockId,
) -> Result<Option<Ending>, NoMemory>
    ensures { IfOk result (λ ending. IsStep ending (called_by (active_of machine.old) (length flow.now.globals) function (slice_get flow.now.functions function) arguments.now result_to next) machine.new) }
{
    match flow.functions.as_slice().get(function as usize) {
        Some(graph) => {
            call_graph(
                alloc,
                machine,
                flow.globals.len(),
                graph,
                function,
                arguments,
                result_to,
                next,
            )
        }
        None => Ok(Some(Ending::Wrong)),
    }
}

/// Calls a function that is there. The run is wrong where one of its bases holds no spot of an array.
fn call_graph(
    alloc: Global,
    machine: &mut Machine,
    globals: usize,
    graph: &Graph,
    function: u32,
    arguments: &[i32],
    result_to: Option<Value>,
    next: BlockId,
) -> Result<Option<Ending>, NoMemory>
    ensures { IfOk result (λ ending. IsStep ending (called_by (active_of machine.old) globals function (Some graph.now) arguments.now result_to next) machine.new) }
{
    let own = own_arrays(graph, globals);
    let values = entry_values(alloc, graph.parameters.as_slice(), arguments)?;
    match spots(alloc, values.as_slice(), machine.storage.arrays.len(), own)? {
        Some(passed) => {
            enter(
                alloc, machine, function, values, passed, own, result_to, next,
            )?;
            Ok(None)
        }
        None => Ok(Some(Ending::Wrong)),
    }
}

/// Whether as many functions are active as may be, where so many wait.
fn is_full(waiting: usize) -> bool
    ensures { result ≡ nat_le deepest (waiting + 1) }
{
    waiting >= DEEPEST - 1
}

/// What the values hold at the entry: the parameters their arguments. It goes one call deeper for each parameter, of which a
/// function of an accepted program has at most 8 (L4 of docs/LANGUAGE.md).
fn entry_values(
    alloc: Global,
    parameters: &[Value],
    arguments: &[i32],
) -> Result<Vec<Option<i32>>, NoMemory>
    ensures { IfOk result (λ values. (v : ℕ) → value_at values.items v ≡ at_entry parameters.now arguments.now v) }
{
    match parameters {
        [first, later @ ..] => match arguments {
            [number, rest @ ..] => {
                let mut values = entry_values(alloc, later, rest)?;
                set_value(&mut values, *first, Some(*number))?;
                Ok(values)
            }
            [] => Ok(Vec::new(alloc)),
        },
        [] => Ok(Vec::new(alloc)),
    }
}

/// A function's arrays behind the globals.
fn own_arrays(graph: &Graph, globals: usize) -> &[Array]
    ensures { result.now ≡ drop globals graph.now.arrays }
{
    let arrays = graph.arrays.as_slice();
    if globals <= arrays.len() {
        &arrays[globals..]
    } else {
        &[]
    }
}

/// Adds those of these arrays that have no base at the end, undefined.
fn add_arrays(alloc: Global, arrays: &mut Vec<Cells>, own: &[Array]) -> Result<(), NoMemory>
    ensures { OnOk result (arrays.new.items ≡ arrays.old.items ++ undefined_all own.now) }
{
    for array in own {
        add_array(alloc, arrays, array)?;
    }
    Ok(())
}

fn add_array(alloc: Global, arrays: &mut Vec<Cells>, array: &Array) -> Result<(), NoMemory>
    ensures { OnOk result (arrays.new.items ≡ arrays.old.items ++ undefined_all (array.now ∷ [])) }
{
    if has_base(array) {
        return Ok(());
    }
    let cells = Cells::filled(alloc, array.words, None)?;
    arrays.push(cells)?;
    Ok(())
}

/// Makes the active function wait and another one active, to which arrays at these spots are passed.
fn enter(
    alloc: Global,
    machine: &mut Machine,
    function: u32,
    values: Vec<Option<i32>>,
    passed: Vec<Option<usize>>,
    own: &[Array],
    result_to: Option<Value>,
    next: BlockId,
) -> Result<(), NoMemory>
    ensures { OnOk result (active_of machine.new ≡ entered_by (active_of machine.old) function (value_at values.items) passed.items own.now result_to next) }
{
    let base = machine.storage.arrays.len();
    add_arrays(alloc, &mut machine.storage.arrays, own)?;
    let values = replace(&mut machine.storage.values, values);
    let passed = replace(&mut machine.passed, passed);
    machine.waiting.push(Waiting {
        function: machine.function,
        from: machine.block,
        next,
        result: result_to,
        passed,
        base: machine.base,
        values,
    })?;
    machine.function = function;
    machine.block = 0;
    machine.base = base;
    Ok(())
}

/// Returns a number to the function that waits, or ends the run.
fn give_back(machine: &mut Machine, number: i32) -> Result<Option<Ending>, NoMemory>
    ensures { IfOk result (λ ending. IsStep ending (returned number (state_of machine.old.storage) machine.old.base (active_of machine.old).waiting) machine.new) }
{
    match machine.waiting.pop() {
        Some(frame) => {
            resume(machine, frame, number)?;
            Ok(None)
        }
        None => Ok(Some(Ending::Ends(number))),
    }
}

/// Makes a function that waited active again.
fn resume(machine: &mut Machine, frame: Waiting, number: i32) -> Result<(), NoMemory>
    ensures { OnOk result (On (active_of machine.new) ≡ returned number (state_of machine.old.storage) machine.old.base (frame_of frame ∷ (active_of machine.old).waiting)) }
{
    machine.storage.arrays.truncate(machine.base);
    machine.storage.values = frame.values;
    set_result(&mut machine.storage.values, frame.result, number)?;
    machine.function = frame.function;
    machine.block = frame.next;
    machine.passed = frame.passed;
    machine.base = frame.base;
    Ok(())
}

/// The result of a call.
fn set_result(
    values: &mut Vec<Option<i32>>,
    result_to: Option<Value>,
    number: i32,
) -> Result<(), NoMemory>
    ensures { OnOk result ((v : ℕ) → value_at values.new.items v ≡ with_result (value_at values.old.items) result_to number v) }
{
    match result_to {
        Some(value) => set_value(values, value, Some(number)),
        None => Ok(()),
    }
}

/// The first active function at its entry, to which nothing is passed.
pub fn begin(alloc: Global, flow: &Flow, input: &[i32]) -> Result<Machine, NoMemory>
    ensures { IfOk result (λ machine. active_of machine ≡ start flow.now input.now) }
{
    let own = main_arrays(flow);
    let mut arrays = global_arrays(alloc, flow.globals.as_slice())?;
    let base = arrays.len();
    add_arrays(alloc, &mut arrays, own)?;
    let numbers = Vec::from_slice(alloc, input)?;
    Ok(Machine {
        function: flow.main,
        block: 0,
        passed: Vec::new(alloc),
        base,
        storage: Storage {
            values: Vec::new(alloc),
            arrays,
            input: numbers,
            read: 0,
            out: Vec::new(alloc),
        },
        waiting: Vec::new(alloc),
    })
}

/// The arrays behind the globals of the function that is active first.
fn main_arrays(flow: &Flow) -> &[Array]
    ensures { result.now ≡ own_in flow.now (slice_get flow.now.functions flow.now.main) }
{
    match flow.functions.as_slice().get(flow.main as usize) {
        Some(graph) => own_arrays(graph, flow.globals.len()),
        None => &[],
    }
}

/// The globals as they start.
fn global_arrays(alloc: Global, globals: &[GlobalArray]) -> Result<Vec<Cells>, NoMemory>
    ensures { IfOk result (λ arrays. arrays.items ≡ map words_at_start globals.now) }
{
    let mut arrays = Vec::new(alloc);
    for global in globals {
        let mut cells = Cells::filled(alloc, global.words, Some(0))?;
        cells.set(0, Some(global.first));
        arrays.push(cells)?;
    }
    Ok(arrays)
}
