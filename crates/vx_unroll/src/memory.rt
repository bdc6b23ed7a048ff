// What wants memory, over any type of value. The value that is left over where there is no memory is dropped here, so that
// a body that calls these has no exit with one.

ghost use Rattle.std.specs.Prelude.{◌≡◌, ◌++◌, ◌∷◌, [], IfOk, OnOk};

use std::alloc::Global;
use vx_base::outcome::NoMemory;

/// A value in a box.
pub(crate) fn boxed<T: Drop>(alloc: Global, value: T) -> Result<Box<T>, NoMemory>
    ensures { IfOk result (λ held. held.value ≡ value) }
{
    match Box::new(alloc, value) {
        Ok(held) => Ok(held),
        Err(_) => Err(NoMemory),
    }
}

/// One more item at the end of a vector.
pub(crate) fn append<T: Drop>(made: &mut Vec<T>, done: T) -> Result<(), NoMemory>
    ensures { OnOk result (made.new.items ≡ made.old.items ++ done ∷ []) }
{
    match made.push(done) {
        Ok(()) => Ok(()),
        Err(_) => Err(NoMemory),
    }
}
