// What may be in flight where each word is issued: each word passes on what it may leave in flight, round after round, as often as the
// greatest latency of the machine has cycles.

ghost use Rattle.std.specs.Prelude.{◌≡◌, ◌≤◌, ◌<◌, ℕ, ◌∷◌, [], length, IfOk};
ghost use Rattle.vx_base.specs.Paths.{Reached};
ghost use Rattle.vx_isa.specs.declared.operation.Operation.{Operation};
ghost use Rattle.vx_isa.specs.Operations.{latency_of};
ghost use Rattle.vx_isa.specs.Paths.{Leads};
ghost use Rattle.vx_tables.specs.Rows.{row_at};
ghost use Rattle.vx_check.specs.InFlight.{AllPassed, AreDue, JoinsAt, JoinsIf, Passed, ReachedMarks, Spread, Tell, leads_anywhere};

use crate::in_flight::{InFlight, add_all, leaving};
use crate::leads::{leads_anywhere, put_places, word_at};
use crate::reached::is_marked;
use std::alloc::Global;
use vx_base::listed::Listed;
use vx_base::outcome::NoMemory;
use vx_isa::operation::Operation;
use vx_isa::program::WordProgram;
use vx_machine::Machine;

/// The writes that may be in flight where words are issued.
#[derive(Drop)]
pub(crate) struct Flights {
    /// Those at each place.
    pub(crate) at: Vec<Listed<InFlight>>,
    /// Those at every place.
    pub(crate) anywhere: Listed<InFlight>,
}

/// Those at a place.
pub(crate) fn row_of(flights: &Flights, place: usize) -> &[InFlight]
    ensures { result.now ≡ row_at flights.now.at.items place }
{
    match flights.at.get(place) {
        Some(row) => row.as_slice(),
        None => &[],
    }
}

/// Puts writes into the row of a place; one that is not there is let be.
#[tactic(auto, using(crate::proofs::Passing::joins_nowhere))]
fn put_at(rows: &mut Vec<Listed<InFlight>>, place: usize, out: &[InFlight]) -> Result<(), NoMemory>
    ensures { IfOk result (λ _. JoinsAt (place ∷ []) out.now rows.old.items rows.new.items) }
{
    if place < rows.len() {
        let row = &mut rows[place];
        add_all(row, out)
    } else {
        Ok(())
    }
}

/// The same at each of some places.
fn put_at_all(
    rows: &mut Vec<Listed<InFlight>>,
    places: &[usize],
    out: &[InFlight],
) -> Result<(), NoMemory>
    ensures { IfOk result (λ _. JoinsAt places.now out.now rows.old.items rows.new.items) }
{
    match places.split_first() {
        Some((first, rest)) => {
            put_at(rows, *first, out)?;
            put_at_all(rows, rest, out)
        }
        None => Ok(()),
    }
}

/// Puts writes into the list of every place where a word of these operations may lead to every place.
#[tactic(auto, using(crate::proofs::Entries::joins_if, crate::proofs::Entries::joins_not))]
fn put_anywhere(
    anywhere: &mut Listed<InFlight>,
    ops: &[Operation],
    out: &[InFlight],
) -> Result<(), NoMemory>
    ensures { IfOk result (λ _. JoinsIf (leads_anywhere ops.now) anywhere.old out.now anywhere.new) }
{
    if leads_anywhere(ops) {
        add_all(anywhere, out)
    } else {
        Ok(())
    }
}

/// Puts what a word of these operations may leave in flight to where it leads. The place behind the word is `next`.
fn spread(
    alloc: Global,
    ops: &[Operation],
    next: usize,
    out: &[InFlight],
    flights: &mut Flights,
) -> Result<(), NoMemory>
    ensures { IfOk result (λ _. Spread ops.now next out.now flights.old.at.items flights.old.anywhere flights.new.at.items flights.new.anywhere) }
{
    let mut places = Vec::new(alloc);
    put_places(ops, next, &mut places)?;
    put_at_all(&mut flights.at, places.as_slice(), out)?;
    put_anywhere(&mut flights.anywhere, ops, out)
}

/// Passes on what the word at a place may leave in flight, to where it leads.
fn pass(
    alloc: Global,
    program: &WordProgram,
    machine: &Machine,
    place: usize,
    flights: &mut Flights,
) -> Result<(), NoMemory>
    requires there { place < length program.now.words }
    requires len { length flights.old.at.items ≡ length program.now.words }
    requires reached { Reached (Leads program.now) 0 place }
    ensures passed { IfOk result (λ _. Passed machine.now program.now place flights.old.at.items flights.old.anywhere flights.new.at.items flights.new.anywhere) }
    ensures due { IfOk result (λ _. AreDue machine.now program.now flights.old.at.items flights.old.anywhere → AreDue machine.now program.now flights.new.at.items flights.new.anywhere) }
    ensures same_len { IfOk result (λ _. length flights.new.at.items ≡ length flights.old.at.items) }
{
    let word = word_at(program, place);
    let out = leaving(alloc, machine, word, row_of(flights, place))?;
    spread(
        alloc,
        word.ops.as_slice(),
        place + 1,
        out.as_slice(),
        flights,
    )
}

/// Each word that is reached passes on what it may leave in flight.
fn pass_all(
    alloc: Global,
    program: &WordProgram,
    machine: &Machine,
    marks: &[bool],
    flights: &mut Flights,
) -> Result<(), NoMemory>
    requires marks { ReachedMarks program.now marks.now }
    requires due { AreDue machine.now program.now flights.old.at.items flights.old.anywhere }
    ensures passed { IfOk result (λ _. AllPassed machine.now program.now flights.old.at.items flights.old.anywhere flights.new.at.items flights.new.anywhere) }
    ensures due { IfOk result (λ _. AreDue machine.now program.now flights.new.at.items flights.new.anywhere) }
{
    'places: for place in 0..marks.len() {
        if is_marked(marks, place) {
            pass(alloc, program, machine, place, flights)?;
        }
    }
    Ok(())
}

/// The most cycles that an operation of the machine takes.
fn greatest_latency(machine: &Machine) -> u32
    ensures { (op : Operation) → latency_of machine.now op ≤ result }
{
    let computed = machine
        .latency_alu()
        .max(machine.latency_compare())
        .max(machine.latency_multiply())
        .max(machine.latency_divide());
    computed
        .max(machine.latency_load())
        .max(machine.latency_copy())
}

/// So many empty rows.
fn empty_rows(alloc: Global, places: usize) -> Result<Vec<Listed<InFlight>>, NoMemory>
    ensures len { IfOk result (λ rows. length rows.items ≡ places) }
    ensures empty { IfOk result (λ rows. (q : ℕ) → row_at rows.items q ≡ []) }
{
    let mut rows = Vec::new(alloc);
    'places: for _ in 0..places {
        rows.push(Listed::new(alloc))?;
    }
    Ok(rows)
}

/// What may be in flight where each word is issued, on the paths from the start.
pub(crate) fn flights_of(
    alloc: Global,
    program: &WordProgram,
    machine: &Machine,
    marks: &[bool],
) -> Result<Flights, NoMemory>
    requires { ReachedMarks program.now marks.now }
    ensures tell { IfOk result (λ flights. Tell machine.now program.now flights.at.items flights.anywhere) }
    ensures due { IfOk result (λ flights. AreDue machine.now program.now flights.at.items flights.anywhere) }
{
    let mut flights = Flights {
        at: empty_rows(alloc, marks.len())?,
        anywhere: Listed::new(alloc),
    };
    'rounds: for _ in 0..greatest_latency(machine) {
        pass_all(alloc, program, machine, marks, &mut flights)?;
    }
    Ok(flights)
}
