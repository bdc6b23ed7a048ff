// The arrays that a function sees: the globals, those that are handed over to it, and its own.

use vx_flow::graph::Value;

/// An array that a function sees.
#[derive(Clone, Copy)]
pub enum Seen {
    /// A global, of so many words.
    GlobalArray(u32),
    /// One of its own, of so many words.
    OwnArray(u32),
    /// One that is handed over to it: the values that hold where it stands, and how many words it has.
    Handed { base: Value, size: Value },
}
