// What stands when an operation's turn comes: the homes so far, and the operations that have a cluster.

use crate::booked::Booked;

/// The homes and the bookings so far.
#[derive(Drop)]
pub struct Ledger {
    /// The home of each value that has one, by value.
    pub(crate) homes: Vec<Option<u32>>,
    /// The operations that have a cluster.
    pub(crate) booked: Booked,
}
