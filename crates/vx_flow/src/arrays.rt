// The arrays of a function: which are its own, and which may share a word. specs/Apart.antt and specs/Sound.antt say the same.

ghost use Rattle.std.specs.List.{list_any};
ghost use Rattle.std.specs.Prelude.{◌≡◌};
ghost use Rattle.vx_flow.specs.Apart.{are_apart, array_in, may_meet};
ghost use Rattle.vx_flow.specs.Sound.{base_at, has_base, is_handed, is_local, is_own_array};

use crate::graph::{Array, ArrayId, Value};

/// Whether an array is one that was handed to the function.
pub fn has_base(array: &Array) -> bool
    ensures { result ≡ has_base array.now }
{
    match array.base {
        Some(_) => true,
        None => false,
    }
}

/// Whether one of the arrays is one that was handed to the function.
pub fn have_base(arrays: &[Array]) -> bool
    ensures { result ≡ list_any has_base arrays.now }
{
    for array in arrays {
        if has_base(array) {
            return true;
        }
    }
    false
}

/// Whether an array is the function's own: no global, and none that was handed over.
pub fn is_own_array(array: &Array) -> bool
    ensures { result ≡ is_own_array array.now }
{
    !array.global && !has_base(array)
}

/// Whether an array is there and is the function's own.
pub fn is_local(arrays: &[Array], array: ArrayId) -> bool
    ensures { result ≡ is_local arrays.now array }
{
    match arrays.get(array as usize) {
        Some(array) => is_own_array(array),
        None => false,
    }
}

/// The value that holds where an array stands, where it is there and was handed to the function.
pub fn base_at(arrays: &[Array], array: ArrayId) -> Option<Value>
    ensures { result ≡ base_at arrays.now array }
{
    match arrays.get(array as usize) {
        Some(array) => array.base,
        None => None,
    }
}

/// Whether an array is there and was handed to the function.
pub fn is_handed(arrays: &[Array], array: ArrayId) -> bool
    ensures { result ≡ is_handed arrays.now array }
{
    match base_at(arrays, array) {
        Some(_) => true,
        None => false,
    }
}

/// The array of this number, told apart by its number. One that is not there has no words.
pub fn array_in(arrays: &[Array], array: ArrayId) -> Array
    ensures { result ≡ array_in arrays.now array }
{
    match arrays.get(array as usize) {
        Some(found) => Array {
            words: found.words,
            global: found.global,
            named: array,
            base: found.base,
        },
        None => Array {
            words: 0,
            global: false,
            named: array,
            base: None,
        },
    }
}

/// Whether two arrays of a function share no word: both are without a base and their numbers differ, or one has a base and the
/// other is the function's own.
pub fn are_apart(left: &Array, right: &Array) -> bool
    ensures { result ≡ are_apart left.now right.now }
{
    if has_base(left) {
        is_own_array(right)
    } else if has_base(right) {
        is_own_array(left)
    } else {
        left.named != right.named
    }
}

/// Whether two arrays of a function may share a word.
pub fn may_meet(arrays: &[Array], left: ArrayId, right: ArrayId) -> bool
    ensures { result ≡ may_meet arrays.now left right }
{
    !are_apart(&array_in(arrays, left), &array_in(arrays, right))
}
