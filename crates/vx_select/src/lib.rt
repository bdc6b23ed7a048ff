// Short diamonds as selects: as long as a graph has a split whose two sides only compute and go on to one block, the lowest one
// becomes one block, which does both and chooses (if-conversion). And graphs with exactly as many values as their functions allow,
// so that such conversions find room.
#![tactic(auto)]

mod addresses;
mod both_sides;
mod conversion;
pub mod corners;
pub mod known;
pub mod laws;
pub mod padding;
mod search;
pub mod selection;
pub mod values;
mod written;
