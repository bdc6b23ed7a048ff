// Where the operations of a trace stand, in the order in which its words are read.

use crate::facts::OpFact;
use crate::page::small;
use std::alloc::Global;
use vx_base::outcome::NoMemory;

/// Where an operation stands.
#[derive(Clone, Copy)]
pub struct Spot {
    /// Its word.
    pub word: u32,
    /// Its cluster.
    pub cluster: u32,
    /// Its place in the trace.
    pub place: u32,
}

/// By words, in each by clusters, and there by places.
fn spot_key(spot: &Spot) -> u64 {
    u64::from(spot.word)
        .saturating_mul(17179869184)
        .saturating_add(u64::from(spot.cluster).saturating_mul(4294967296))
        .saturating_add(u64::from(spot.place))
}

/// Where the operations of a trace stand, word by word.
pub fn spots_of(alloc: Global, facts: &[OpFact]) -> Result<Vec<Spot>, NoMemory> {
    let mut spots = Vec::new(alloc);
    for (place, fact) in facts.iter().enumerate() {
        spots.push(Spot {
            word: fact.word,
            cluster: fact.cluster,
            place: small(place),
        })?;
    }
    spots.sort_unstable_by_key(spot_key);
    Ok(spots)
}
