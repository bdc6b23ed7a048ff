// What wants memory, or a mark behind it, over any type of value. The value that is left over where that is not there is
// dropped here, so that a body that calls these has no exit with one.

ghost use Rattle.std.specs.Prelude.{◌≡◌, ◌<◌, ◌≤◌, ◌⊎◌, ◌+◌, ◌++◌, ◌∷◌, [], length, IfOk, IfErr, OnOk};
ghost use Rattle.vx_ast.specs.declared.token.TokenKind.TheVariants as kinds;
ghost use Rattle.vx_ast.specs.Phrases.{The};
ghost use Rattle.vx_parse.specs.declared.stop.Stop.TheVariants.{NoMemory, TooDeep};
ghost use Rattle.vx_parse.specs.Reading.{Ended, Passed, Misfit};

use crate::expression::DEEPEST;
use crate::stop::Stop;
use crate::token::read_mark;
use std::alloc::Global;
use vx_ast::token::{Mark, Token};

/// A value in a box.
pub(crate) fn boxed<T: Drop>(alloc: Global, value: T) -> Result<Box<T>, Stop>
    ensures ok { IfOk result (λ held. held.value ≡ value) }
    ensures stop { IfErr result (λ stop. stop ≡ NoMemory) }
{
    match Box::new(alloc, value) {
        Ok(held) => Ok(held),
        Err(_) => Err(Stop::NoMemory),
    }
}

/// One more item at the end of a vector.
pub(crate) fn append<T: Drop>(items: &mut Vec<T>, item: T) -> Result<(), Stop>
    ensures ok { OnOk result (items.new.items ≡ items.old.items ++ item ∷ []) }
    ensures stop { IfErr result (λ stop. stop ≡ NoMemory) }
{
    match items.push(item) {
        Ok(()) => Ok(()),
        Err(_) => Err(Stop::NoMemory),
    }
}

/// A value in a box, for a construct in so many others.
pub(crate) fn boxed_within<T: Drop>(alloc: Global, value: T, depth: u32) -> Result<Box<T>, Stop>
    ensures ok { IfOk result (λ held. (held.value ≡ value) × (depth < 200)) }
    ensures stop { IfErr result (λ stop. (stop ≡ NoMemory) ⊎ ((stop ≡ TooDeep) × (200 ≤ depth))) }
{
    if depth >= DEEPEST {
        return Err(Stop::TooDeep);
    }
    match Box::new(alloc, value) {
        Ok(held) => Ok(held),
        Err(_) => Err(Stop::NoMemory),
    }
}

/// A value with this mark behind it.
pub(crate) fn closed<T: Drop>(
    tokens: &[Token],
    place: usize,
    mark: Mark,
    value: T,
) -> Result<T, Stop>
    requires ended { Ended tokens.now }
    requires within { place < length tokens.now }
    ensures ok { IfOk result (λ held. (held ≡ value) × Passed (The (kinds.Mark mark)) tokens.now place (place + 1)) }
    ensures stop { IfErr result (λ stop. Misfit (The (kinds.Mark mark)) tokens.now place stop) }
{
    match read_mark(tokens, place, mark) {
        Ok(_) => Ok(value),
        Err(stop) => Err(stop),
    }
}

/// A value in a box, with this mark behind it.
pub(crate) fn boxed_closed<T: Drop>(
    alloc: Global,
    tokens: &[Token],
    place: usize,
    mark: Mark,
    value: T,
) -> Result<Box<T>, Stop>
    requires ended { Ended tokens.now }
    requires within { place < length tokens.now }
    ensures ok { IfOk result (λ held. (held.value ≡ value) × Passed (The (kinds.Mark mark)) tokens.now place (place + 1)) }
    ensures stop { IfErr result (λ stop. (stop ≡ NoMemory) ⊎ Misfit (The (kinds.Mark mark)) tokens.now place stop) }
{
    match boxed(alloc, value) {
        Ok(held) => closed(tokens, place, mark, held),
        Err(stop) => Err(stop),
    }
}
