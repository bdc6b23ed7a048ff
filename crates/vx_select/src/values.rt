// The values by which a diamond is converted: what its sides write, what they may take, and what is chosen behind them.

ghost use Rattle.std.specs.Prelude.{◌≡◌, ◌&&◌, not, ℕ, IfOk, length, take};
ghost use Rattle.std.specs.List.{filter, list_any};
ghost use Rattle.vx_flow.specs.Sound.{is_general};
ghost use Rattle.vx_flow.specs.Rows.{is_marked};
ghost use Rattle.vx_select.specs.Known.{ops_at, told, whole, AreAddresses};
ghost use Rattle.vx_select.specs.Values.{names_it, AreValues};
ghost use Rattle.vx_select.specs.Selected.{chosen_values, free_values, is_free};

use crate::corners::{Corners, ops_at};
use crate::known::{Known, lives};
use crate::written::{names, written};
use std::alloc::Global;
use vx_base::outcome::NoMemory;
use vx_flow::graph::{Bank, BlockId, Graph, Value};

/// The values by which a diamond is converted, each list ascending.
#[derive(Drop)]
pub struct Values {
    /// What the left side writes.
    pub left: Vec<Value>,
    /// What the right side writes.
    pub right: Vec<Value>,
    /// The lowest free values, as many as both sides write, or all where these are fewer.
    pub free: Vec<Value>,
    /// What one side writes and is live where both meet.
    pub chosen: Vec<Value>,
}

/// The values by which the diamond with these corners is converted.
pub(crate) fn values_of(
    alloc: Global,
    known: &Known,
    addresses: &[bool],
    graph: &Graph,
    corners: &Corners,
) -> Result<Values, NoMemory>
    requires { AreAddresses graph.now addresses.now }
    ensures { IfOk result (λ values. AreValues (told known.now) graph.now (whole graph.now corners.now) values) }
{
    let count = graph.banks.len() as u32;
    let left = written(alloc, ops_at(graph, corners.yes), &[], count)?;
    let right = written(alloc, ops_at(graph, corners.no), &[], count)?;
    let room = left.len() + right.len();
    let free = free_up_to(alloc, known, addresses, graph, corners, room)?;
    let chosen = chosen(alloc, known, graph, corners, count)?;
    Ok(Values {
        left,
        right,
        free,
        chosen,
    })
}

/// What one side writes and is live where both meet.
fn chosen(
    alloc: Global,
    known: &Known,
    graph: &Graph,
    corners: &Corners,
    count: u32,
) -> Result<Vec<Value>, NoMemory>
    requires { count ≡ length graph.now.banks }
    ensures { IfOk result (λ values. values.items ≡ chosen_values (told known.now) graph.now (whole graph.now corners.now)) }
{
    let left = ops_at(graph, corners.yes);
    let right = ops_at(graph, corners.no);
    let both = written(alloc, left, right, count)?;
    living(alloc, known, corners.join, both.as_slice())
}

/// Those of some values that are live at the start of a block.
fn living(
    alloc: Global,
    known: &Known,
    block: BlockId,
    values: &[Value],
) -> Result<Vec<Value>, NoMemory>
    ensures { IfOk result (λ living. living.items ≡ filter (told known.now block) values.now) }
{
    let mut living = Vec::new(alloc);
    for value in values {
        if lives(known, block, *value) {
            living.push(*value)?;
        }
    }
    Ok(living)
}

/// The lowest free values, no more than so many.
fn free_up_to(
    alloc: Global,
    known: &Known,
    addresses: &[bool],
    graph: &Graph,
    corners: &Corners,
    most: usize,
) -> Result<Vec<Value>, NoMemory>
    requires { AreAddresses graph.now addresses.now }
    ensures { IfOk result (λ free. free.items ≡ take most (free_values (told known.now) graph.now (whole graph.now corners.now))) }
{
    let mut free = Vec::new(alloc);
    for value in 0..graph.banks.len() as u32 {
        if free.len() >= most {
            return Ok(free);
        }
        if is_free(known, addresses, graph, corners, value) {
            free.push(value)?;
        }
    }
    Ok(free)
}

/// Whether a value may be taken: it is a general one, which is live at neither side nor where they meet, is not named by them, and
/// is no place of an array of the function's own.
fn is_free(
    known: &Known,
    addresses: &[bool],
    graph: &Graph,
    corners: &Corners,
    value: Value,
) -> bool
    requires { AreAddresses graph.now addresses.now }
    ensures { result ≡ is_free (told known.now) graph.now (whole graph.now corners.now) value }
{
    is_open(addresses, graph, value) && is_unused(known, graph, corners, value)
}

fn is_open(addresses: &[bool], graph: &Graph, value: Value) -> bool
    ensures { result ≡ (is_general graph.now.banks value && not (is_marked addresses.now value)) }
{
    is_general(graph.banks.as_slice(), value) && !is_marked(addresses, value)
}

/// Whether a value is live nowhere and named by no operation of the sides.
fn is_unused(known: &Known, graph: &Graph, corners: &Corners, value: Value) -> bool
    ensures { result ≡ (not (told known.now corners.now.yes value) && not (told known.now corners.now.no value) && not (told known.now corners.now.join value) && (not (list_any (names_it value) (ops_at graph.now corners.now.yes)) && not (list_any (names_it value) (ops_at graph.now corners.now.no)))) }
{
    is_dead(known, corners, value) && is_unnamed(graph, corners, value)
}

fn is_dead(known: &Known, corners: &Corners, value: Value) -> bool
    ensures { result ≡ (not (told known.now corners.now.yes value) && not (told known.now corners.now.no value) && not (told known.now corners.now.join value)) }
{
    !lives(known, corners.yes, value)
        && !lives(known, corners.no, value)
        && !lives(known, corners.join, value)
}

fn is_unnamed(graph: &Graph, corners: &Corners, value: Value) -> bool
    ensures { result ≡ (not (list_any (names_it value) (ops_at graph.now corners.now.yes)) && not (list_any (names_it value) (ops_at graph.now corners.now.no))) }
{
    !names(ops_at(graph, corners.yes), value) && !names(ops_at(graph, corners.no), value)
}

/// Whether a value is there, and a general one.
pub(crate) fn is_general(banks: &[Bank], value: Value) -> bool
    ensures { result ≡ is_general banks.now value }
{
    match banks.get(value as usize) {
        Some(bank) => *bank == Bank::General,
        None => false,
    }
}

fn is_marked(marks: &[bool], value: Value) -> bool
    ensures { result ≡ is_marked marks.now value }
{
    match marks.get(value as usize) {
        Some(mark) => *mark,
        None => false,
    }
}
