// What lists of facts say: where a value lies and what its low bits are, whether a value holds what an operation gives, and how a test comes out.

ghost use Rattle.std.specs.Prelude.{◌≡◌, ◌&&◌, true, pos, drop, ◌+ℤ◌, ◌-ℤ◌, IfSome};
ghost use Rattle.vx_claims.specs.Facts.{decided, decided_by, decided_if, found, has_equals, is_claimed, meet, number_or, range, range_of, residue, residue_of, residue_within, rounded, same_code, same_compare, same_operand};
ghost use Rattle.vx_base.specs.Arithmetic.{difference_of};
ghost use Rattle.vx_claims.specs.Residues.{finer, low_bits};
ghost use Rattle.vx_claims.specs.Claims.{give, gives, is_inside, is_never, says_never};

use crate::fact::Fact;
use crate::fact_list::FactList;
use crate::intervals::{Interval, compare_decided, full, is_single, meet};
use crate::residues::{Residue, exactly, finer, is_implied, low_bits, unknown};
use vx_arithmetic::sub32;
use vx_base::arithmetic::{Code, Compare};
use vx_flow::graph::{Operand, Value};

/// What facts say of a number.
#[derive(Clone, Copy)]
pub struct Sight {
    /// Where it lies.
    pub within: Interval,
    /// What its low bits are.
    pub residue: Residue,
}

/// What all facts say of a value, one by one.
fn seen(facts: &[Fact], value: Value) -> Sight
    ensures within { result.within ≡ range facts.now value }
    ensures residue { result.residue ≡ residue facts.now value }
{
    let mut rest = facts;
    'next: loop {
        match rest {
            [] => {
                return Sight {
                    within: full(),
                    residue: unknown(),
                };
            }
            [first, others @ ..] => {
                match *first {
                    Fact::Between {
                        value: named,
                        within,
                    } => {
                        if named == value {
                            return met(within, seen(others, value));
                        }
                    }
                    Fact::Congruent {
                        value: named,
                        residue,
                    } => {
                        if named == value {
                            return refined(residue, seen(others, value));
                        }
                    }
                    Fact::Equals { .. } => {}
                    Fact::Never => {}
                }
                rest = others;
            }
        }
    }
}

fn met(within: Interval, sight: Sight) -> Sight
    ensures within { result.within ≡ meet within sight.within }
    ensures residue { result.residue ≡ sight.residue }
{
    Sight {
        within: meet(within, sight.within),
        residue: sight.residue,
    }
}

fn refined(residue: Residue, sight: Sight) -> Sight
    ensures within { result.within ≡ sight.within }
    ensures residue { result.residue ≡ finer residue sight.residue }
{
    Sight {
        within: sight.within,
        residue: finer(residue, sight.residue),
    }
}

/// A number where it has 32 bits, and another one where it has not.
fn number_or(otherwise: i32, number: i64) -> i32
    ensures { result ≡ number_or otherwise number }
{
    if i64::from(i32::MIN) <= number && number <= i64::from(i32::MAX) {
        number as i32
    } else {
        otherwise
    }
}

/// A number so far above another one, which does not wrap.
fn above(number: i32, far: u32) -> i64
    ensures { result ≡ number +ℤ pos far }
{
    i64::from(number) + i64::from(far)
}

/// A number so far below another one, which does not wrap.
fn below(number: i32, far: u32) -> i64
    ensures { result ≡ number -ℤ pos far }
{
    i64::from(number) - i64::from(far)
}

/// The first number from one on that has the low bits of a rest in so many places.
fn first_from(places: u32, rest: i32, number: i32) -> i32
    ensures { result ≡ number_or number (number +ℤ pos (low_bits places (difference_of rest number))) }
{
    let ahead = low_bits(places, sub32(rest, number));
    number_or(number, above(number, ahead))
}

/// The last number up to one that has the low bits of a rest in so many places.
fn last_up_to(places: u32, rest: i32, number: i32) -> i32
    ensures { result ≡ number_or number (number -ℤ pos (low_bits places (difference_of number rest))) }
{
    let past = low_bits(places, sub32(number, rest));
    number_or(number, below(number, past))
}

/// From the first number of an interval that has these low bits to the last one.
pub fn rounded(residue: Residue, within: Interval) -> Interval
    ensures { result ≡ rounded residue within }
{
    if residue.places == 0 {
        return within;
    }
    Interval {
        low: first_from(residue.places, residue.rest, within.low),
        high: last_up_to(residue.places, residue.rest, within.high),
    }
}

/// What is known of the low bits of a number that lies in an interval.
pub fn residue_within(within: Interval, residue: Residue) -> Residue
    ensures { result ≡ residue_within within residue }
{
    if is_single(within) {
        exactly(within.low)
    } else {
        residue
    }
}

/// What all facts say of an operand.
pub fn sight_of(facts: &[Fact], operand: Operand) -> Sight
    ensures within { result.within ≡ range_of facts.now operand }
    ensures residue { result.residue ≡ residue_of facts.now operand }
{
    match operand {
        Operand::Held(value) => together(seen(facts, value)),
        Operand::Number(number) => Sight {
            within: Interval {
                low: number,
                high: number,
            },
            residue: exactly(number),
        },
        Operand::Stack => Sight {
            within: full(),
            residue: unknown(),
        },
    }
}

/// What all facts of a list say of an operand.
#[tactic(auto, using(crate::proofs::Covering::unlinked_range, crate::proofs::Covering::unlinked_residue))]
pub(crate) fn sight_in(list: &FactList, operand: Operand) -> Sight
    ensures within { result.within ≡ range_of list.now operand }
    ensures residue { result.residue ≡ residue_of list.now operand }
{
    if list.is_unlinked(operand) {
        Sight {
            within: full(),
            residue: unknown(),
        }
    } else {
        sight_of(list.as_slice(), operand)
    }
}

/// What the interval and the low bits of a number say together.
pub fn together(sight: Sight) -> Sight
    ensures within { result.within ≡ rounded sight.residue sight.within }
    ensures residue { result.residue ≡ residue_within (rounded sight.residue sight.within) sight.residue }
{
    let within = rounded(sight.residue, sight.within);
    Sight {
        within,
        residue: residue_within(within, sight.residue),
    }
}

/// Where an operand lies by all facts.
pub fn range_of(facts: &[Fact], operand: Operand) -> Interval
    ensures { result ≡ range_of facts.now operand }
{
    sight_of(facts, operand).within
}

/// Where an operand lies by all facts of a list.
pub(crate) fn range_in(list: &FactList, operand: Operand) -> Interval
    ensures { result ≡ range_of list.now operand }
{
    sight_in(list, operand).within
}

fn same_compare(first: Compare, second: Compare) -> bool
    ensures { result ≡ same_compare first second }
{
    match (first, second) {
        (Compare::Eq, Compare::Eq) => true,
        (Compare::Ne, Compare::Ne) => true,
        (Compare::Lt, Compare::Lt) => true,
        (Compare::Le, Compare::Le) => true,
        (Compare::Gt, Compare::Gt) => true,
        (Compare::Ge, Compare::Ge) => true,
        (Compare::Ltu, Compare::Ltu) => true,
        (Compare::Geu, Compare::Geu) => true,
        _ => false,
    }
}

pub fn same_code(first: Code, second: Code) -> bool
    ensures { result ≡ same_code first second }
{
    match (first, second) {
        (Code::Add, Code::Add) => true,
        (Code::Sub, Code::Sub) => true,
        (Code::And, Code::And) => true,
        (Code::Or, Code::Or) => true,
        (Code::Xor, Code::Xor) => true,
        (Code::Shl, Code::Shl) => true,
        (Code::Shr, Code::Shr) => true,
        (Code::Shru, Code::Shru) => true,
        (Code::Sh2add, Code::Sh2add) => true,
        (Code::Max, Code::Max) => true,
        (Code::Min, Code::Min) => true,
        (Code::Mov, Code::Mov) => true,
        (Code::Mpylu, Code::Mpylu) => true,
        (Code::Mpyhs, Code::Mpyhs) => true,
        (Code::Div, Code::Div) => true,
        (Code::Rem, Code::Rem) => true,
        (Code::ToGeneral(one), Code::ToGeneral(other)) => same_compare(one, other),
        (Code::ToBranch(one), Code::ToBranch(other)) => same_compare(one, other),
        _ => false,
    }
}

/// Whether two operands are the same value or number.
pub fn same_operand(first: Operand, second: Operand) -> bool
    ensures { result ≡ same_operand first second }
{
    match (first, second) {
        (Operand::Held(one), Operand::Held(other)) => one == other,
        (Operand::Number(one), Operand::Number(other)) => one == other,
        _ => false,
    }
}

/// Whether a fact says that a value holds what an operation gives.
fn is_claimed(value: Value, code: Code, left: Operand, right: Operand, fact: Fact) -> bool
    ensures { result ≡ is_claimed value code left right fact }
{
    match fact {
        Fact::Between { .. } | Fact::Congruent { .. } | Fact::Never => false,
        Fact::Equals {
            value: named,
            code: other,
            left: first,
            right: second,
        } => {
            (named == value && same_code(other, code))
                && (same_operand(first, left) && same_operand(second, right))
        }
    }
}

/// Whether a fact of the list says that a value holds what an operation gives.
pub fn has_equals(facts: &[Fact], value: Value, code: Code, left: Operand, right: Operand) -> bool
    ensures { result ≡ has_equals facts.now value code left right }
{
    for fact in facts {
        if is_claimed(value, code, left, right, *fact) {
            return true;
        }
    }
    false
}

/// How many facts of a list there are up to the first that says that a value holds what an operation gives.
fn past_equals(
    facts: &[Fact],
    value: Value,
    code: Code,
    left: Operand,
    right: Operand,
) -> Option<usize>
    ensures { IfSome result (λ _. has_equals facts.now value code left right ≡ true) }
{
    let mut past: usize = 0;
    for fact in facts {
        past = past.saturating_add(1);
        if is_claimed(value, code, left, right, *fact) {
            return Some(past);
        }
    }
    None
}

/// The facts from a place on.
fn from_place(facts: &[Fact], place: usize) -> &[Fact]
    ensures { result.now ≡ drop place facts.now }
{
    if place <= facts.len() {
        &facts[place..]
    } else {
        &[]
    }
}

/// The same as `has_equals`, which looks first from a place on: what is claimed stands mostly in the order of the facts. The place is
/// then the one behind the fact that was found.
#[tactic(auto, using(crate::proofs::Fronts::equals_behind))]
fn has_equals_near(
    facts: &[Fact],
    place: &mut usize,
    value: Value,
    code: Code,
    left: Operand,
    right: Operand,
) -> bool
    ensures { result ≡ has_equals facts.now value code left right }
{
    match past_equals(from_place(facts, *place), value, code, left, right) {
        Some(past) => {
            *place = place.saturating_add(past);
            true
        }
        None => has_equals(facts, value, code, left, right),
    }
}

/// Whether one operation gives what another one does, by their codes and operands. Codes differ least often.
fn is_made_so(
    other: Code,
    one: Operand,
    two: Operand,
    code: Code,
    left: Operand,
    right: Operand,
) -> bool
    ensures { result ≡ (same_code other code && (same_operand one left && same_operand two right)) }
{
    same_operand(two, right) && (same_operand(one, left) && same_code(other, code))
}

/// A value that holds what an operation gives.
pub fn found(facts: &[Fact], code: Code, left: Operand, right: Operand) -> Option<Value>
    ensures { result ≡ found facts.now code left right }
{
    for fact in facts {
        match *fact {
            Fact::Between { .. } | Fact::Congruent { .. } | Fact::Never => {}
            Fact::Equals {
                value,
                code: other,
                left: one,
                right: two,
            } => {
                if is_made_so(other, one, two, code, left, right) {
                    return Some(value);
                }
            }
        }
    }
    None
}

/// A value that holds what an operation gives, by the facts of a list.
#[tactic(auto, using(crate::proofs::Covering::not_found_left, crate::proofs::Covering::not_found_right))]
pub(crate) fn found_in(list: &FactList, code: Code, left: Operand, right: Operand) -> Option<Value>
    ensures { result ≡ found list.now code left right }
{
    if list.is_unread(left) || list.is_unread(right) {
        return None;
    }
    found(list.as_slice(), code, left, right)
}

/// How a compare to a branch value comes out by all facts, where they decide it.
fn decided_if(test: bool, facts: &[Fact], code: Code, left: Operand, right: Operand) -> Option<bool>
    ensures { result ≡ decided_if test facts.now code left right }
{
    if !test {
        return None;
    }
    match code {
        Code::ToBranch(compare) => {
            compare_decided(compare, range_of(facts, left), range_of(facts, right))
        }
        _ => None,
    }
}

fn decided_by(facts: &[Fact], test: Value, rest: &[Fact]) -> Option<bool>
    ensures { result ≡ decided_by facts.now test rest.now }
{
    for fact in rest {
        match *fact {
            Fact::Between { .. } | Fact::Congruent { .. } | Fact::Never => {}
            Fact::Equals {
                value,
                code,
                left,
                right,
            } => match decided_if(value == test, facts, code, left, right) {
                Some(answer) => return Some(answer),
                None => {}
            },
        }
    }
    None
}

/// How a test comes out, where the facts decide it.
pub fn decided(facts: &[Fact], test: Value) -> Option<bool>
    ensures { result ≡ decided facts.now test }
{
    decided_by(facts, test, facts)
}

/// Whether all numbers of an interval lie in another one.
pub fn is_inside(i: Interval, j: Interval) -> bool
    ensures { result ≡ is_inside i j }
{
    j.low <= i.low && i.high <= j.high
}

/// Whether the facts give a claim. What an operation gives is looked for from a place on first.
fn gives(facts: &[Fact], place: &mut usize, claim: Fact) -> bool
    ensures { result ≡ gives facts.now claim }
{
    match claim {
        Fact::Between { value, within } => {
            is_inside(range_of(facts, Operand::Held(value)), within)
        }
        Fact::Congruent { value, residue } => {
            is_implied(sight_of(facts, Operand::Held(value)).residue, residue)
        }
        Fact::Equals {
            value,
            code,
            left,
            right,
        } => has_equals_near(facts, place, value, code, left, right),
        Fact::Never => false,
    }
}

/// Whether the facts give all claims.
pub fn give(facts: &[Fact], claims: &[Fact]) -> bool
    ensures { result ≡ give facts.now claims.now }
{
    let mut place: usize = 0;
    for claim in claims {
        if !gives(facts, &mut place, *claim) {
            return false;
        }
    }
    true
}

fn says_never(fact: Fact) -> bool
    ensures { result ≡ says_never fact }
{
    match fact {
        Fact::Never => true,
        _ => false,
    }
}

/// Whether the facts hold in no run.
pub fn is_never(facts: &[Fact]) -> bool
    ensures { result ≡ is_never facts.now }
{
    for fact in facts {
        if says_never(*fact) {
            return true;
        }
    }
    false
}
