// What is saved round the calls of a function, and which parameters are brought to their registers where it is entered.
// specs/Framing.antt says which values these are; the clause of `saves_of` carries the promise.

ghost use Rattle.std.specs.Prelude.{◌≡◌, ◌<◌, ◌+◌, ◌++◌, ◌==◌, ◌∷◌, [], ℕ, IfOk, Some, length, slice_get};
ghost use Rattle.std.specs.List.{flat_map, list_any};
ghost use Rattle.vx_mixed.specs.declared.layout.VirtualWord.{VirtualWord};
ghost use Rattle.vx_mixed.specs.LaidSettled.{LeadsTo};
ghost use Rattle.vx_regs.specs.Ways.{LivesAt};
ghost use Rattle.vx_calls.specs.Framing.{SavesIn};
ghost use Rattle.vx_calls.specs.Saves.{arrival, arrives, in_register, in_registers, is_result, saved_from, saved_round, survives, survivor};

use std::alloc::Global;
use vx_base::listed::Listed;
use vx_base::outcome::NoMemory;
use vx_base::sizes::{number_of, sum};
use vx_flow::graph::{Graph, Value};
use vx_mixed::layout::{VWords, VirtualWord};
use vx_regs::liveness::{Living, lives_at, living_of};
use vx_regs::map::{Kept, RegMap};

/// The values of a function that are stored and fetched round its calls and at its entry.
#[derive(Drop)]
pub(crate) struct Saves {
    /// For each place of the layout the values that are saved round a call there.
    pub(crate) saved: Listed<Listed<Value>>,
    /// The parameters that are brought to their registers at the entry.
    pub(crate) brought: Listed<Value>,
}

fn push_in_register(values: &mut Listed<Value>, value: usize, kept: Kept) -> Result<(), NoMemory>
    ensures { IfOk result (λ _. values.new ≡ values.old ++ in_register value kept) }
{
    match kept {
        Kept::InRegister(_) => values.push(number_of(value)?)?,
        Kept::InSlot(_) => {}
        Kept::Nowhere => {}
    }
    Ok(())
}

/// The values that are in registers, in ascending order.
fn in_registers(alloc: Global, kept: &[Kept]) -> Result<Listed<Value>, NoMemory>
    ensures { IfOk result (λ values. values ≡ in_registers 0 kept.now) }
{
    let mut values = Listed::new(alloc);
    for (value, kept) in kept.iter().enumerate() {
        push_in_register(&mut values, value, *kept)?;
    }
    Ok(values)
}

/// Whether a call that writes this value, if any, has it as its result.
fn is_result(written: Option<Value>, value: Value) -> bool
    ensures { result ≡ is_result written value }
{
    match written {
        Some(written) => written == value,
        None => false,
    }
}

/// Whether a value is live behind a call that writes this value, if any, and is not the one that it writes.
fn survives(living: &Living, next: u32, written: Option<Value>, value: Value) -> bool
    ensures { result ≡ survives living.now next written value }
{
    !is_result(written, value) && lives_at(living, next, value)
}

fn push_survivor(
    found: &mut Listed<Value>,
    living: &Living,
    next: u32,
    written: Option<Value>,
    value: Value,
) -> Result<(), NoMemory>
    ensures { IfOk result (λ _. found.new ≡ found.old ++ survivor living.now next written value) }
{
    if survives(living, next, written, value) {
        found.push(value)?;
    }
    Ok(())
}

/// Those of some values that are live behind a call, but for its result.
fn survivors(
    alloc: Global,
    living: &Living,
    next: u32,
    written: Option<Value>,
    values: &[Value],
) -> Result<Listed<Value>, NoMemory>
    ensures { IfOk result (λ found. found ≡ flat_map (survivor living.now next written) values.now) }
{
    let mut found = Listed::new(alloc);
    for value in values {
        push_survivor(&mut found, living, next, written, *value)?;
    }
    Ok(found)
}

/// The values that are saved round what stands before a place: those in registers that are live behind a call and are not
/// its result.
fn saved_round(
    alloc: Global,
    living: &Living,
    values: &[Value],
    next: u32,
    word: &VirtualWord,
) -> Result<Listed<Value>, NoMemory>
    ensures { IfOk result (λ found. found ≡ saved_round living.now values.now next word.now) }
{
    match word {
        VirtualWord::Planned { .. } => Ok(Listed::new(alloc)),
        VirtualWord::Drain(_) => Ok(Listed::new(alloc)),
        VirtualWord::Transfer(_) => Ok(Listed::new(alloc)),
        VirtualWord::Choice { .. } => Ok(Listed::new(alloc)),
        VirtualWord::Call {
            result: written,
            ..
        } => survivors(alloc, living, next, *written, values),
        VirtualWord::Return(_) => Ok(Listed::new(alloc)),
        VirtualWord::Ends(_) => Ok(Listed::new(alloc)),
    }
}

fn push_round(
    alloc: Global,
    saved: &mut Listed<Listed<Value>>,
    living: &Living,
    values: &[Value],
    place: usize,
    word: &VirtualWord,
) -> Result<(), NoMemory>
    ensures { IfOk result (λ _. saved.new ≡ saved.old ++ (saved_round living.now values.now (place + 1) word.now ∷ [])) }
{
    let next = sum(number_of(place)?, 1)?;
    saved.push(saved_round(alloc, living, values, next, word)?)?;
    Ok(())
}

/// For each place of a layout the values that are saved round a call there.
fn saved(
    alloc: Global,
    living: &Living,
    values: &[Value],
    words: &[VirtualWord],
) -> Result<Listed<Listed<Value>>, NoMemory>
    ensures { IfOk result (λ saved. saved ≡ saved_from living.now values.now 0 words.now) }
{
    let mut saved = Listed::new(alloc);
    for (place, word) in words.iter().enumerate() {
        push_round(alloc, &mut saved, living, values, place, word)?;
    }
    Ok(saved)
}

fn is_among(values: &[Value], value: Value) -> bool
    ensures { result ≡ list_any (λ u. u == value) values.now }
{
    for other in values {
        if *other == value {
            return true;
        }
    }
    false
}

/// Whether a value is live at the entry and is a parameter. Few values in registers are live there.
fn arrives(living: &Living, entry: u32, parameters: &[Value], value: Value) -> bool
    ensures { result ≡ arrives living.now entry parameters.now value }
{
    lives_at(living, entry, value) && is_among(parameters, value)
}

fn push_arrival(
    found: &mut Listed<Value>,
    living: &Living,
    entry: u32,
    parameters: &[Value],
    value: Value,
) -> Result<(), NoMemory>
    ensures { IfOk result (λ _. found.new ≡ found.old ++ arrival living.now entry parameters.now value) }
{
    if arrives(living, entry, parameters, value) {
        found.push(value)?;
    }
    Ok(())
}

/// The parameters in registers that are live where the layout is entered, in ascending order.
fn brought(
    alloc: Global,
    living: &Living,
    entry: u32,
    parameters: &[Value],
    values: &[Value],
) -> Result<Listed<Value>, NoMemory>
    ensures { IfOk result (λ found. found ≡ flat_map (arrival living.now entry parameters.now) values.now) }
{
    let mut found = Listed::new(alloc);
    for value in values {
        push_arrival(&mut found, living, entry, parameters, *value)?;
    }
    Ok(found)
}

/// Finds what is saved and brought in a function with this graph, this layout and this map.
pub(crate) fn saves_of(
    alloc: Global,
    graph: &Graph,
    layout: &VWords,
    map: &RegMap,
) -> Result<Saves, NoMemory>
    requires inside { (p q : ℕ) (word : VirtualWord) → slice_get layout.now.words p ≡ Some word → LeadsTo p word q → q < length layout.now.words }
    requires entry { layout.now.entry < length layout.now.words }
    ensures { IfOk result (λ saves. SavesIn graph.now.parameters layout.now map.now saves.saved saves.brought) }
{
    let living = living_of(alloc, layout)?;
    saves_with(alloc, graph, layout, map, &living)
}

/// The same, where this is what is live.
fn saves_with(
    alloc: Global,
    graph: &Graph,
    layout: &VWords,
    map: &RegMap,
    living: &Living,
) -> Result<Saves, NoMemory>
    requires { LivesAt layout.now living.now }
    ensures { IfOk result (λ saves. SavesIn graph.now.parameters layout.now map.now saves.saved saves.brought) }
{
    let values = in_registers(alloc, map.values.as_slice())?;
    let saved = saved(alloc, living, values.as_slice(), layout.words.as_slice())?;
    let parameters = graph.parameters.as_slice();
    let brought = brought(alloc, living, layout.entry, parameters, values.as_slice())?;
    Ok(Saves { saved, brought })
}
