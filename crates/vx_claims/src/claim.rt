// What is claimed at the start of a block.

ghost use Rattle.std.specs.Prelude.{◌≡◌};
ghost use Rattle.vx_claims.specs.Claims.{listed_claims};

use crate::access::Access;
use crate::fact::Fact;
use vx_base::listed::Listed;

/// What is said of values and of arrays.
#[derive(Drop)]
pub struct Claim {
    pub facts: Listed<Fact>,
    pub accesses: Listed<Access>,
}

/// What a table claims of values at a place, nothing where it has no row.
pub fn facts_in(table: &[Claim], place: usize) -> &[Fact]
    ensures { result.now ≡ (listed_claims table.now place).facts }
{
    match table.get(place) {
        Some(claim) => claim.facts.as_slice(),
        None => &[],
    }
}

/// What a table claims of arrays at a place, nothing where it has no row.
pub fn accesses_in(table: &[Claim], place: usize) -> &[Access]
    ensures { result.now ≡ (listed_claims table.now place).accesses }
{
    match table.get(place) {
        Some(claim) => claim.accesses.as_slice(),
        None => &[],
    }
}
