// The rows of the table of delays, for one pair of operations: by what is asked of the two and what is known of where they
// stand, which rows apply, and the greatest number among those. specs/Rows.antt says the same.

ghost use Rattle.std.specs.Prelude.{◌≡◌};
ghost use Rattle.vx_dep.specs.Rows.{is_barred, are_tied, stays_behind, stays_behind_split, stays_behind_join, keeps_split, stays_below, row_of, at_least, delay_of, are_quiet, values_delay_of, quiet_delay_of, is_seen};

use crate::mode::Mode;
use crate::traits::{Traits, reads_written, write_alike};

/// What is known of two operations of a trace, one above the other, by where they stand.
#[derive(Clone, Copy)]
pub(crate) struct Ways {
    /// No operation between them writes what the upper one writes.
    pub(crate) last: bool,
    /// Both access an array, one of them is a store, and they may touch one word.
    pub(crate) touch: bool,
    /// A join stands between them.
    pub(crate) joined: bool,
    /// The upper one is a split, and what the lower one writes is live where it leaves.
    pub(crate) live: bool,
}

/// The greatest number of the rows that apply.
pub(crate) fn delay_of(mode: Mode, a: &Traits, b: &Traits, ways: Ways) -> Option<u32>
    ensures { result ≡ delay_of mode a.now b.now ways }
{
    let others = row_of(mode, a, b, ways);
    if are_tied(a, b, ways.last) {
        match others {
            Some(other) if a.latency < other => Some(other),
            _ => Some(a.latency),
        }
    } else {
        others
    }
}

/// Whether the upper operation is neither observable nor a split, and not both access an array.
pub(crate) fn are_quiet(a: &Traits, b: &Traits) -> bool
    ensures { result ≡ are_quiet a.now b.now }
{
    !a.is_fixed && !(a.is_access && b.is_access)
}

/// The greatest number of two such operations: that of their values, and what keeps the lower one below.
pub(crate) fn quiet_delay_of(
    mode: Mode,
    a: &Traits,
    b: &Traits,
    last: bool,
    joined: bool,
) -> Option<u32>
    ensures { result ≡ quiet_delay_of mode a.now b.now last joined }
{
    let values = values_delay_of(a, b, last);
    if joined && stays_behind_join(mode, b) {
        at_least(1, values)
    } else if b.leaves && is_barred(mode) {
        at_least(0, values)
    } else {
        values
    }
}

/// The number of two operations of which only the values count.
fn values_delay_of(a: &Traits, b: &Traits, last: bool) -> Option<u32>
    ensures { result ≡ values_delay_of a.now b.now last }
{
    if are_tied(a, b, last) {
        Some(a.latency)
    } else if reads_written(a, b) {
        Some(0)
    } else {
        None
    }
}

fn at_least(least: u32, delay: Option<u32>) -> Option<u32>
    ensures { result ≡ at_least least delay }
{
    match delay {
        None => Some(least),
        Some(delay) => Some(least.max(delay)),
    }
}

/// Whether an operation is a split that shares its word with none, or is seen where a split above it leaves.
pub(crate) fn is_seen(b: &Traits) -> bool
    ensures { result ≡ is_seen b.now }
{
    b.alone || b.is_store || b.is_observable
}

/// The greatest number of the rows but those of a latency.
fn row_of(mode: Mode, a: &Traits, b: &Traits, ways: Ways) -> Option<u32>
    ensures { result ≡ row_of mode a.now b.now ways }
{
    if stays_behind(mode, a, b, ways) {
        Some(1)
    } else if stays_below(mode, a, b, ways) {
        Some(0)
    } else {
        None
    }
}

/// Whether the lower operation reads what the upper one wrote last, or writes what it writes.
fn are_tied(a: &Traits, b: &Traits, last: bool) -> bool
    ensures { result ≡ are_tied a.now b.now last }
{
    (last && reads_written(b, a)) || write_alike(a, b)
}

/// Whether a row with the number 1 applies.
fn stays_behind(mode: Mode, a: &Traits, b: &Traits, ways: Ways) -> bool
    ensures { result ≡ stays_behind mode a.now b.now ways }
{
    (ways.touch && a.is_store)
        || (a.is_observable && b.is_observable)
        || (a.leaves && stays_behind_split(mode, b, ways))
        || (ways.joined && stays_behind_join(mode, b))
}

fn stays_behind_split(mode: Mode, b: &Traits, ways: Ways) -> bool
    ensures { result ≡ stays_behind_split mode b.now ways }
{
    b.alone || b.is_store || b.is_observable || ways.live || is_barred(mode)
}

fn stays_behind_join(mode: Mode, b: &Traits) -> bool
    ensures { result ≡ stays_behind_join mode b.now }
{
    b.is_observable || b.leaves || is_barred(mode)
}

/// Whether a row with the number 0 applies.
fn stays_below(mode: Mode, a: &Traits, b: &Traits, ways: Ways) -> bool
    ensures { result ≡ stays_below mode a.now b.now ways }
{
    reads_written(a, b)
        || (ways.touch && a.is_load)
        || (b.leaves && (keeps_split(a, b) || is_barred(mode)))
}

/// Whether a split below stays below: beside a split in one word, or behind what is observable.
fn keeps_split(a: &Traits, b: &Traits) -> bool
    ensures { result ≡ keeps_split a.now b.now }
{
    (a.leaves && !b.alone) || a.is_observable
}

pub(crate) fn is_barred(mode: Mode) -> bool
    ensures { result ≡ is_barred mode }
{
    match mode {
        Mode::Barred => true,
        Mode::Free => false,
    }
}
