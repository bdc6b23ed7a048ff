// What the code of a function names: how many scalars the function has, and the arrays that it sees.

ghost use Rattle.std.specs.Prelude.{◌≡◌, true};
ghost use Rattle.vx_lower.specs.Seen.{are_small, is_small, place_op, seen_at, size_at, size_of};

use crate::seen::Seen;
use std::marker::Model;
use vx_flow::graph::{ArrayId, Op, Operand, Value};

/// How many scalars a function has, and the arrays that it sees, each of fewer than 2^31 words.
#[derive(Drop)]
pub struct Sizes {
    scalars: u32,
    arrays: Vec<Seen>,
}

impl Model for Sizes {
    ghost use Rattle.std.specs.Prelude.{◌≡◌, true};
    ghost use Rattle.vx_lower.specs.Seen.{Sees, are_small};

    ghost Value = { Sees };

    ghost view = { λ a. record { scalars = a.scalars; arrays = a.arrays.items } };

    ghost invariant = { λ a. are_small a.arrays.items ≡ true };
}

/// How many words an array has, as an operand of the graph.
fn size(seen: Seen) -> Operand
    requires small { is_small seen ≡ true }
    ensures { result ≡ size_of seen }
{
    match seen {
        Seen::GlobalArray(words) => Operand::Number(words as i32),
        Seen::OwnArray(words) => Operand::Number(words as i32),
        Seen::Handed { base, size } => Operand::Held(size),
    }
}

impl Sizes {
    /// The scalars and the arrays of a function.
    pub fn make(scalars: u32, arrays: Vec<Seen>) -> Sizes
        requires { are_small arrays.items ≡ true }
        ensures { result ≡ record { scalars = scalars; arrays = arrays.items } }
    {
        Sizes { scalars, arrays }
    }

    /// An array, by its number.
    pub fn seen(&self, array: ArrayId) -> Seen
        ensures { result ≡ seen_at self.now array }
    {
        match self.arrays.get(array as usize) {
            Some(seen) => *seen,
            None => Seen::OwnArray(0),
        }
    }

    /// How many words an array has, as an operand of the graph.
    pub fn of(&self, array: ArrayId) -> Operand
        ensures { result ≡ size_at self.now array }
    {
        match self.arrays.get(array as usize) {
            Some(seen) => size(*seen),
            None => Operand::Number(0),
        }
    }

    /// The operation that finds the place of an element of an array.
    pub fn place(&self, to: Value, array: ArrayId, index: Operand) -> Op
        ensures { result ≡ place_op self.now to array index }
    {
        match self.seen(array) {
            Seen::GlobalArray(words) => Op::Place { to, array, index },
            Seen::OwnArray(words) => Op::Place { to, array, index },
            Seen::Handed { base, size } => Op::PlaceIn {
                to,
                array,
                base,
                index,
            },
        }
    }
}
