// The laws of tokens: each function does nothing, and its clause is the law.

ghost use Rattle.vx_ast.specs.Tokens.{NeverBoth, OneFault, OneReading, ReadOrRefused, SpansInOrder, TextsAreSlices};

/// Every source has tokens or a fault.
pub fn read_or_refused()
    ensures { ReadOrRefused }
{}

/// No source has both.
pub fn never_both()
    ensures { NeverBoth }
{}

/// A source has its tokens in one way.
pub fn one_reading()
    ensures { OneReading }
{}

/// A source has one first fault.
pub fn one_fault()
    ensures { OneFault }
{}

/// The spans of tokens are in order, and the end token stands at the end of the source.
pub fn spans_in_order()
    ensures { SpansInOrder }
{}

/// Each token's text is its slice of the source.
pub fn texts_are_slices()
    ensures { TextsAreSlices }
{}
