// The empty cycles behind the exits of a placed trace: as many as a result that was issued before can still take.

ghost use Rattle.std.specs.Prelude.{◌≡◌, ◌+◌, ◌-◌, max, nat_le};
ghost use Rattle.vx_dep.specs.Compensation.{word_at, greatest, left_at, all_left_at, drain_at};

use vx_dep::copies::{EdgeCopies, word_at};
use vx_flow::trace::{Placed, TraceOp};
use vx_machine::Machine;
use vx_room::items::Item;

/// The empty cycles behind a split.
pub(crate) fn split_drain(machine: &Machine, placed: &Placed, split: &EdgeCopies) -> u32
    ensures { result ≡ drain_at machine.now placed.now (word_at placed.now.words split.now.split + 1) }
{
    let end = word_at(placed.words.as_slice(), split.split) as u64 + 1;
    drain_at(machine, placed, end)
}

/// The empty cycles behind an exit at the start of a word.
pub(crate) fn drain_at(machine: &Machine, placed: &Placed, end: u64) -> u32
    ensures { result ≡ drain_at machine.now placed.now end }
{
    let words = placed.words.as_slice();
    drain_of(machine, end, words, placed.clustered.trace.ops.as_slice())
}

fn drain_of(machine: &Machine, end: u64, words: &[u32], ops: &[TraceOp]) -> u32
    ensures { result ≡ greatest (all_left_at machine.now end words.now ops.now) }
{
    let mut drain = 0;
    let mut words_left = words;
    let mut ops_left = ops;
    'count: loop {
        match ops_left.split_first() {
            None => return drain,
            Some((op, ops_behind)) => match words_left.split_first() {
                None => return drain,
                Some((word, words_behind)) => {
                    drain = greater(drain, left_at(machine, end, *word, op));
                    words_left = words_behind;
                    ops_left = ops_behind;
                }
            },
        }
    }
}

fn greater(a: u32, b: u32) -> u32
    ensures { result ≡ max a b }
{
    a.max(b)
}

/// How many cycles behind its word the result of an operation still takes at the start of a word.
fn left_at(machine: &Machine, end: u64, word: u32, op: &TraceOp) -> u32
    ensures { result ≡ left_at machine.now end word op.now }
{
    machine.keeps_ranges();
    if is_far(end, word) {
        return 0;
    }
    let latency = Item::of_trace(op).latency(machine);
    if (word as u64) < end {
        left_behind(latency, end - word as u64)
    } else {
        0
    }
}

/// Whether a word stands so far above another one that no result still takes as long.
fn is_far(end: u64, word: u32) -> bool
    ensures { result ≡ nat_le (word + 16) end }
{
    word as u64 + 16 <= end
}

/// What is left of a latency after some cycles.
fn left_behind(latency: u32, passed: u64) -> u32
    ensures { result ≡ latency - passed }
{
    if passed < latency as u64 {
        latency - passed as u32
    } else {
        0
    }
}
