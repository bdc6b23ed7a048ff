// The laws of parsed sources: each function does nothing, and its clause is the law.

ghost use Rattle.vx_types.specs.Laws.{FirstIsLeast, Suited};

/// A source without faults, whose numbers are of 32 bits, is a program that suits: with its limits kept it is accepted.
pub fn faultless_is_suited()
    ensures { Suited }
{}

/// The first fault of a source is one of its faults, and none of them stands before it. Exactly a source without faults
/// has none.
pub fn first_is_least()
    ensures { FirstIsLeast }
{}
