// Reads the text of a profile line by line, in time proportional to the text. Each function reads what stands at the front of a
// text, and answers what stands behind it.

ghost use Rattle.std.specs.Prelude.{◌≡◌, ◌≢◌, ◌+◌, ◌-◌, ◌*◌, ◌^◌, ◌≤◌, ◌++◌, length, IfOk, IfErr, OnOk};
ghost use Rattle.std.specs.List.{prefix_len};
ghost use Rattle.vx_profile.specs.Counts.{CountsReplaced};
ghost use Rattle.vx_profile.specs.Reading.{Gives, visit_of, is_digit, value_from, is_number, below, behind, number_at, name_at, block_at, edge_at, visit_at, row_at};
ghost use Rattle.vx_profile.specs.Text.{header, Spells, FaultAt};
ghost use Rattle.vx_profile.specs.declared.fault.ProfileFault.TheVariants.{NoMemory as OutOfMemory};

use crate::counts::Counts;
use crate::fault::ProfileFault;
use crate::passed::Passed;
use std::alloc::Global;
use vx_base::outcome::NoMemory;

#[tactic(auto, unfolding(crate::specs::Reading::behind))]
fn behind<'a>(front: &[u8], text: &'a [u8]) -> Option<&'a [u8]>
    ensures { Gives (λ rest. rest.now) result (behind front.now text.now) }
{
    text.strip_prefix(front)
}

fn is_digit(byte: u8) -> bool
    ensures { result ≡ is_digit byte }
{
    byte >= 48 && byte <= 57
}

fn digits(text: &[u8]) -> usize
    ensures count { result ≡ prefix_len is_digit text.now }
    ensures within { result ≤ length text.now }
{
    for (place, byte) in text.iter().enumerate() {
        if !is_digit(*byte) {
            return place;
        }
    }
    text.len()
}

fn is_number(digits: &[u8]) -> bool
    ensures { result ≡ is_number digits.now }
{
    digits.len() > 0 && (digits[0] != 48 || digits.len() == 1)
}

fn with_digit(value: u64, digit: u8) -> Option<u64>
    ensures { result ≡ below (2 ^ 64) (10 * value + (digit - 48)) }
{
    let ten_times = value.checked_mul(10)?;
    ten_times.checked_add(u64::from(digit.saturating_sub(48)))
}

/// The value of digits, where it is below 2^64.
fn value_of(digits: &[u8]) -> Option<u64>
    ensures { result ≡ below (2 ^ 64) (value_from 0 digits.now) }
{
    let mut value: u64 = 0;
    for digit in digits {
        value = with_digit(value, *digit)?;
    }
    Some(value)
}

#[tactic(auto, unfolding(crate::specs::Reading::number_at))]
fn number(text: &[u8]) -> Option<(Option<u64>, &[u8])>
    ensures { Gives (λ x. (x.0, x.1.now)) result (number_at text.now) }
{
    let length = digits(text);
    let digits = &text[..length];
    if is_number(digits) {
        Some((value_of(digits), &text[length..]))
    } else {
        None
    }
}

fn short(value: u64) -> Option<u32>
    ensures { result ≡ below (2 ^ 32) value }
{
    if value < 4294967296 {
        Some(value as u32)
    } else {
        None
    }
}

#[tactic(auto, unfolding(crate::specs::Reading::name_at))]
fn name(text: &[u8]) -> Option<(u32, &[u8])>
    ensures { Gives (λ x. (x.0, x.1.now)) result (name_at text.now) }
{
    let (value, after) = number(text)?;
    let rest = behind(b" ", after)?;
    let name = short(value?)?;
    Some((name, rest))
}

#[tactic(auto, unfolding(crate::specs::Reading::block_at))]
fn block(text: &[u8]) -> Option<(Passed, &[u8])>
    ensures { Gives (λ x. (visit_of x.0, x.1.now)) result (block_at text.now) }
{
    let names = behind(b"block ", text)?;
    let (function, after) = name(names)?;
    let (block, rest) = name(after)?;
    Some((Passed::Block { function, block }, rest))
}

#[tactic(auto, unfolding(crate::specs::Reading::edge_at))]
fn edge(text: &[u8]) -> Option<(Passed, &[u8])>
    ensures { Gives (λ x. (visit_of x.0, x.1.now)) result (edge_at text.now) }
{
    let names = behind(b"edge ", text)?;
    let (function, after) = name(names)?;
    let (from, last) = name(after)?;
    let (to, rest) = name(last)?;
    Some((Passed::Edge { function, from, to }, rest))
}

#[tactic(auto, unfolding(crate::specs::Reading::visit_at))]
fn passed(text: &[u8]) -> Option<(Passed, &[u8])>
    ensures { Gives (λ x. (visit_of x.0, x.1.now)) result (visit_at text.now) }
{
    match block(text) {
        Some(found) => Some(found),
        None => edge(text),
    }
}

#[tactic(auto, unfolding(crate::specs::Reading::row_at))]
fn row(text: &[u8]) -> Option<(Passed, Option<u64>, &[u8])>
    ensures { Gives (λ x. (visit_of x.0, x.1, x.2.now)) result (row_at text.now) }
{
    let (passed, after) = passed(text)?;
    let (count, end) = number(after)?;
    let rest = behind(b"\n", end)?;
    Some((passed, count, rest))
}

fn put(counts: &mut Counts, passed: Passed, count: u64) -> Result<(), NoMemory>
    ensures { OnOk result (CountsReplaced counts.old counts.new (visit_of passed) count) }
{
    match passed {
        Passed::Block { function, block } => counts.set_block(function, block, count),
        Passed::Edge { function, from, to } => counts.set_edge(function, from, to, count),
    }
}

/// The lines behind the first one.
fn read_rows(alloc: Global, text: &[u8]) -> Result<Counts, ProfileFault>
    ensures spelled { IfOk result (λ counts. Spells (header ++ text.now) counts) }
    ensures fault { IfErr result (λ fault. fault ≢ OutOfMemory → FaultAt (header ++ text.now) fault) }
{
    let mut counts = Counts::new(alloc);
    let mut line: usize = 2;
    let mut rest = text;
    'lines: while !rest.is_empty() {
        let (passed, count, after) = match row(rest) {
            Some(found) => found,
            None => return Err(ProfileFault::BadLine(line)),
        };
        let count = match count {
            Some(count) => count,
            None => return Err(ProfileFault::CountTooLarge(line)),
        };
        put(&mut counts, passed, count)?;
        rest = after;
        line += 1;
    }
    Ok(counts)
}

/// The counts that the text of a profile gives. Lines may stand in any order; a later one replaces the count of an earlier one.
pub fn read_counts(alloc: Global, bytes: &[u8]) -> Result<Counts, ProfileFault>
    ensures spelled { IfOk result (λ counts. Spells bytes.now counts) }

    // Unless memory is wanted and not there, the fault is that of the first bad line.
    ensures fault { IfErr result (λ fault. fault ≢ OutOfMemory → FaultAt bytes.now fault) }
{
    match behind(b"profile 1\n", bytes) {
        Some(rows) => read_rows(alloc, rows),
        None => Err(ProfileFault::BadLine(1)),
    }
}
