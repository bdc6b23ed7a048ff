// The entries of chains of places.

/// A place that was put into a chain.
#[derive(Clone, Copy)]
pub(crate) struct Link {
    /// The place.
    pub(crate) place: u32,
    /// The entry of the one before it in its chain, counted from 1; 0 where it is the first.
    pub(crate) before: usize,
}
