// What one can tell of two accesses to memory before the program runs.

/// Whether two accesses name one word.
#[derive(Clone, Copy)]
pub enum Answer {
    /// They never do.
    Never,
    /// They always do.
    Always,
    /// They may.
    Maybe,
}
