// Where a word may lead: each branch either way, and a return to every place.

ghost use Rattle.std.specs.Prelude.{◌≡◌, ◌<◌, ◌∷◌, [], ◌++◌, length, IfOk};
ghost use Rattle.vx_isa.specs.Paths.{WordAt};
ghost use Rattle.vx_check.specs.InFlight.{leads_anywhere, places_of};

use vx_base::outcome::NoMemory;
use vx_isa::operation::Operation;
use vx_isa::program::{Word, WordProgram};

/// The word at a place of the program.
pub(crate) fn word_at(program: &WordProgram, place: usize) -> &Word
    requires { place < length program.now.words }
    ensures { WordAt program.now place result.now }
{
    &program.words.as_slice()[place]
}

/// Whether a word of these operations may lead to every place.
pub(crate) fn leads_anywhere(ops: &[Operation]) -> bool
    ensures { result ≡ leads_anywhere ops.now }
{
    match ops.split_first() {
        Some((first, rest)) => match first {
            Operation::Return => true,
            Operation::Goto { .. }
            | Operation::Call { .. }
            | Operation::EndByTrap { .. }
            | Operation::Halt { .. } => false,
            _ => leads_anywhere(rest),
        },
        None => false,
    }
}

fn put(places: &mut Vec<usize>, place: usize) -> Result<(), NoMemory>
    ensures { IfOk result (λ _. places.new.items ≡ places.old.items ++ place ∷ []) }
{
    places.push(place)?;
    Ok(())
}

/// Puts the places to which a word of these operations may lead, but for a return, behind those of a list. The place behind the
/// word is `next`.
pub(crate) fn put_places(
    ops: &[Operation],
    next: usize,
    places: &mut Vec<usize>,
) -> Result<(), NoMemory>
    ensures { IfOk result (λ _. places.new.items ≡ places.old.items ++ places_of ops.now next) }
{
    match ops.split_first() {
        Some((first, rest)) => match first {
            Operation::Goto { target } => put(places, *target as usize),
            Operation::Call { target } => put(places, *target as usize),
            Operation::BranchOn { target, .. } => {
                put(places, *target as usize)?;
                put_places(rest, next, places)
            }
            Operation::Return | Operation::EndByTrap { .. } | Operation::Halt { .. } => Ok(()),
            _ => put_places(rest, next, places),
        },
        None => put(places, next),
    }
}
