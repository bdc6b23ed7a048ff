// What is asked of a pair of operations first, over small entries that stand side by side: whether anything but their kinds
// counts. Most pairs of a trace share no value. specs/Keys.antt says the same.

ghost use Rattle.std.specs.Prelude.{◌≡◌, nat_eq, IfOk, map};
ghost use Rattle.vx_dep.specs.Keys.{named, key_of, is_read, share_value, access_both, are_apart, apart_delay_of, can_pass};

use crate::mode::Mode;
use crate::rows::is_barred;
use crate::tables::Standing;
use std::alloc::Global;
use vx_base::listed::Listed;
use vx_base::outcome::NoMemory;
use vx_flow::graph::Value;

/// What is asked first of an operation.
#[derive(Clone, Copy)]
pub(crate) struct Key {
    /// The value that it writes. Where it writes none, a number that stands for no value that is read.
    pub(crate) written: u32,
    /// The values that it reads. Where there are fewer, a number that stands for no value that is written.
    pub(crate) first: u32,
    pub(crate) second: u32,
    pub(crate) third: u32,
    /// The last place, from the start of the trace up to its own, that stands directly below a join; 0 where none does.
    pub(crate) joined: usize,
    pub(crate) is_access: bool,
    pub(crate) is_store: bool,
    pub(crate) is_observable: bool,
    pub(crate) leaves: bool,
}

/// One entry for each operation.
pub(crate) fn keys(alloc: Global, standings: &[Standing]) -> Result<Listed<Key>, NoMemory>
    ensures { IfOk result (λ keys. keys ≡ map key_of standings.now) }
{
    let mut keys = Listed::new(alloc);
    let mut rest = standings;
    'ask: loop {
        match rest.split_first() {
            None => return Ok(keys),
            Some((standing, behind)) => {
                keys.push(key_of(standing))?;
                rest = behind;
            }
        }
    }
}

fn key_of(standing: &Standing) -> Key
    ensures { result ≡ key_of standing.now }
{
    let traits = standing.traits;
    Key {
        written: named(4294967294, traits.written),
        first: named(4294967295, traits.reads.first),
        second: named(4294967295, traits.reads.second),
        third: named(4294967295, traits.reads.third),
        joined: standing.joined,
        is_access: traits.is_access,
        is_store: traits.is_store,
        is_observable: traits.is_observable,
        leaves: traits.leaves,
    }
}

/// The number of a value, another one where there is none.
fn named(none: u32, value: Option<Value>) -> u32
    ensures { result ≡ named none value }
{
    match value {
        None => none,
        Some(value) => value,
    }
}

/// Whether of two operations, the upper one first, the kinds alone count: the upper one is no split, neither names what the other
/// one writes, and not both access an array where one of them stores.
pub(crate) fn are_apart(a: &Key, b: &Key) -> bool
    ensures { result ≡ are_apart a.now b.now }
{
    !(a.leaves || share_value(a, b) || access_both(a, b))
}

fn share_value(a: &Key, b: &Key) -> bool
    ensures { result ≡ share_value a.now b.now }
{
    a.written == b.written || is_read(a.written, b) || is_read(b.written, a)
}

fn is_read(value: Value, key: &Key) -> bool
    ensures { result ≡ is_read value key.now }
{
    value == key.first || value == key.second || value == key.third
}

fn access_both(a: &Key, b: &Key) -> bool
    ensures { result ≡ access_both a.now b.now }
{
    a.is_access && b.is_access && (a.is_store || b.is_store)
}

/// The delay of two such operations.
pub(crate) fn apart_delay(mode: Mode, a: &Key, b: &Key, joined: bool) -> Option<u32>
    ensures { result ≡ apart_delay_of mode a.now b.now joined }
{
    if a.is_observable && b.is_observable
        || joined && (b.is_observable || b.leaves || is_barred(mode))
    {
        Some(1)
    } else if b.leaves && (a.is_observable || is_barred(mode)) {
        Some(0)
    } else {
        None
    }
}

/// Whether a lower operation has no delay behind any from a place on that is apart from it.
pub(crate) fn can_pass(mode: Mode, b: &Key, from: usize) -> bool
    ensures { result ≡ can_pass mode b.now from }
{
    !(b.is_observable || b.leaves || is_barred(mode) && from < b.joined)
}
