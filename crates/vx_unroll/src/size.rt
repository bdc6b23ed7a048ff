// What a function has.

/// The nodes of a function, and the words of all arrays that it declares, each time it does.
#[derive(Clone, Copy)]
pub struct Size {
    /// Its nodes.
    pub nodes: u64,
    /// The words of its declarations of arrays.
    pub words: u64,
}
