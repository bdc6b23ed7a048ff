// The two ways in which a trace is scheduled.

/// How operations of a trace may move.
#[derive(Clone, Copy)]
pub enum Mode {
    /// Past splits and joins, as far as nothing that can be seen changes.
    Free,
    /// Past no split and no join.
    Barred,
}
