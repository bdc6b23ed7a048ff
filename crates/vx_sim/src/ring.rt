// The ring of the writes in flight.

ghost use Rattle.std.specs.Prelude.{◌≡◌, ◌<◌, length};

use crate::flight::Flight;

/// The writes in flight: a place for each of the next 16 cycles, with the writes that land within that cycle in the order
/// of their issue.
#[derive(Drop)]
pub(crate) struct Ring {
    pub(crate) places: Vec<Vec<Flight>>,
    /// The place of the next cycle; those of the later ones follow round the ring.
    pub(crate) next: u32,
    ghost sixteen: { length places.items ≡ 16 },
    ghost within: { next < 16 },
}
