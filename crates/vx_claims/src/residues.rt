// Remainders of numbers by powers of 2, that is their low bits: what operations make of them. They hold where a result wraps, since
// 2 ^ 32 is a multiple of each of these powers. As a domain of an analysis they are Granger's congruences (1989).

ghost use Rattle.std.specs.Prelude.{◌≡◌, ◌^◌, ◌&&◌};
ghost use Rattle.vx_claims.specs.Residues.{difference_residue, empty_places, exactly, fewer, finer, is_implied, joined, known_of_both, low_bits, sum_residue, times_residue, unknown};

use vx_arithmetic::{add32, mul32, sub32, unsigned32};

/// The numbers that differ from one by a multiple of 2 to so many places, of which none counts beyond 32.
#[derive(Clone, Copy)]
pub struct Residue {
    pub places: u32,
    pub rest: i32,
}

/// Every number.
pub fn unknown() -> Residue
    ensures { result ≡ unknown }
{
    Residue { places: 0, rest: 0 }
}

/// One number.
pub fn exactly(number: i32) -> Residue
    ensures { result ≡ exactly number }
{
    Residue {
        places: 32,
        rest: number,
    }
}

fn fewer(first: u32, second: u32) -> u32
    ensures { result ≡ fewer first second }
{
    if first <= second { first } else { second }
}

/// 2 to so many places, 32 at most.
fn power(places: u32) -> u64
    ensures { result ≡ 2 ^ fewer places 32 }
{
    1u64 << fewer(places, 32)
}

/// The low bits of a number in so many places.
pub fn low_bits(places: u32, number: i32) -> u32
    ensures { result ≡ low_bits places number }
{
    (u64::from(unsigned32(number)) % power(places)) as u32
}

/// In how many places, so many at most, a number has no low bits.
fn empty_places(places: u32, number: i32) -> u32
    ensures { result ≡ empty_places places number }
{
    if places == 0 {
        0
    } else if low_bits(places, number) == 0 {
        places
    } else {
        empty_places(places - 1, number)
    }
}

/// Of two the one that says more.
pub fn finer(first: Residue, second: Residue) -> Residue
    ensures { result ≡ finer first second }
{
    if second.places <= first.places {
        first
    } else {
        second
    }
}

/// In how many places the low bits of both are known, 32 at most.
fn known_of_both(first: Residue, second: Residue) -> u32
    ensures { result ≡ known_of_both first second }
{
    fewer(fewer(first.places, second.places), 32)
}

/// What is known of a sum.
pub fn sum(first: Residue, second: Residue) -> Residue
    ensures { result ≡ sum_residue first second }
{
    Residue {
        places: known_of_both(first, second),
        rest: add32(first.rest, second.rest),
    }
}

/// What is known of a difference.
pub fn difference(first: Residue, second: Residue) -> Residue
    ensures { result ≡ difference_residue first second }
{
    Residue {
        places: known_of_both(first, second),
        rest: sub32(first.rest, second.rest),
    }
}

/// What is known of a product with a number: the places that this has empty are known besides.
pub fn times(residue: Residue, number: i32) -> Residue
    ensures { result ≡ times_residue residue number }
{
    let places = fewer(residue.places, 32);
    Residue {
        places: places + empty_places(32 - places, number),
        rest: mul32(residue.rest, number),
    }
}

/// What is known of a number of which one of two is.
pub fn joined(first: Residue, second: Residue) -> Residue
    ensures { result ≡ joined first second }
{
    Residue {
        places: empty_places(known_of_both(first, second), sub32(first.rest, second.rest)),
        rest: first.rest,
    }
}

/// Whether one says all that another says.
pub fn is_implied(known: Residue, claimed: Residue) -> bool
    ensures { result ≡ is_implied known claimed }
{
    claimed.places <= fewer(known.places, 32)
        && low_bits(claimed.places, sub32(known.rest, claimed.rest)) == 0
}
