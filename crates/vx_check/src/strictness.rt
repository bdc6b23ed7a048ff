// The check of a program of words for a machine.

ghost use Rattle.std.specs.Prelude.{◌≡◌, ◌<◌, ℕ, true, false, length, IfOk, MatchOption};
ghost use Rattle.std.specs.List.{list_any};
ghost use Rattle.vx_isa.specs.Operations.{list_of, reads_of};
ghost use Rattle.vx_isa.specs.Fits.{operands};
ghost use Rattle.vx_isa.specs.Paths.{PathStrict};
ghost use Rattle.vx_check.specs.Checked.{AllFit, Checks, IsLowest, IsUnfit};
ghost use Rattle.vx_check.specs.InFlight.{IsHot, is_hot};

use crate::in_flight::{InFlight, left_of};
use crate::leads::word_at;
use crate::reached::reached;
use crate::rounds::{Flights, flights_of, row_of};
use crate::verdict::Verdict;
use std::alloc::Global;
use vx_base::outcome::NoMemory;
use vx_isa::operation::{Operation, Register};
use vx_isa::program::WordProgram;
use vx_machine::{Machine, fits};

/// The first word that does not fit the machine, with as many branches a word as the program's version allows.
fn first_unfit(program: &WordProgram, machine: &Machine) -> Option<u32>
    ensures { MatchOption result (AllFit machine.now program.now) (IsLowest (IsUnfit machine.now program.now)) }
{
    let issuing = machine.for_version(program.version);
    'places: for place in 0..program.words.len() {
        if !fits(&issuing, word_at(program, place)) {
            return Some(place as u32);
        }
    }
    None
}

/// Whether a write to the register may be in flight by one of two lists.
fn is_hot(row: &[InFlight], anywhere: &[InFlight], register: &Register) -> bool
    ensures { result ≡ is_hot row.now anywhere.now register.now }
{
    !register.is_zero() && (left_of(row, register) > 0 || left_of(anywhere, register) > 0)
}

fn is_hot_named(row: &[InFlight], anywhere: &[InFlight], named: Option<Register>) -> bool
    ensures { result ≡ list_any (is_hot row.now anywhere.now) (list_of named) }
{
    match named {
        Some(register) => is_hot(row, anywhere, &register),
        None => false,
    }
}

fn reads_hot(row: &[InFlight], anywhere: &[InFlight], op: &Operation) -> bool
    ensures { result ≡ list_any (is_hot row.now anywhere.now) (reads_of op.now) }
{
    let [first, second, third] = op.reads();
    is_hot_named(row, anywhere, first)
        || is_hot_named(row, anywhere, second)
        || is_hot_named(row, anywhere, third)
}

fn any_reads_hot(row: &[InFlight], anywhere: &[InFlight], ops: &[Operation]) -> bool
    ensures { result ≡ list_any (is_hot row.now anywhere.now) (operands ops.now) }
{
    match ops.split_first() {
        Some((first, rest)) => {
            reads_hot(row, anywhere, first) || any_reads_hot(row, anywhere, rest)
        }
        None => false,
    }
}

/// Whether the word at a place reads a register to which a write may be in flight.
fn is_hot_at(program: &WordProgram, flights: &Flights, place: usize) -> bool
    requires { place < length program.now.words }
    ensures hot { result ≡ true → IsHot program.now flights.now.at.items flights.now.anywhere place }
    ensures cold { result ≡ false → IsHot program.now flights.now.at.items flights.now.anywhere place → ⊥ }
{
    let row = row_of(flights, place);
    let word = word_at(program, place);
    any_reads_hot(row, flights.anywhere.as_slice(), word.ops.as_slice())
}

/// The first word that reads a register to which a write may be in flight.
fn first_hot(program: &WordProgram, flights: &Flights) -> Option<u32>
    ensures { MatchOption result ((q : ℕ) → IsHot program.now flights.now.at.items flights.now.anywhere q → ⊥) (IsLowest (IsHot program.now flights.now.at.items flights.now.anywhere)) }
{
    'places: for place in 0..program.words.len() {
        if is_hot_at(program, flights, place) {
            return Some(place as u32);
        }
    }
    None
}

/// The check of a program of which every word fits the machine.
fn check_paths(alloc: Global, program: &WordProgram, machine: &Machine) -> Result<Verdict, NoMemory>
    requires { AllFit machine.now program.now }
    ensures { IfOk result (λ verdict. Checks machine.now program.now verdict) }
{
    let marks = reached(alloc, program)?;
    let flights = flights_of(alloc, program, machine, marks.as_slice())?;
    match first_hot(program, &flights) {
        Some(place) => Ok(Verdict::Pending(place)),
        None => Ok(Verdict::Yes),
    }
}

fn verdict_of(alloc: Global, program: &WordProgram, machine: &Machine) -> Result<Verdict, NoMemory>
    ensures { IfOk result (λ verdict. Checks machine.now program.now verdict) }
{
    match first_unfit(program, machine) {
        Some(place) => Ok(Verdict::Unfit(place)),
        None => check_paths(alloc, program, machine),
    }
}

/// Whether every word of the program fits the machine, with at most one branch a word where the program is of version 1, and on no
/// static path a word reads a register while a write to it may be in flight, or the lowest place where not: first of a word that does not fit, then of one that reads early. The time is at most that
/// of the words and of the writes that may be in flight at them, as often as the greatest latency of the machine has cycles.
pub fn check(alloc: Global, program: &WordProgram, machine: &Machine) -> Result<Verdict, NoMemory>
    ensures checks { IfOk result (λ verdict. Checks machine.now program.now verdict) }
    ensures passes { PathStrict machine.now program.now → IfOk result (λ verdict. verdict ≡ Verdict.Yes) }
{
    verdict_of(alloc, program, machine)
}
