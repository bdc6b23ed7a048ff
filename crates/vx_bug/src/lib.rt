// The cluster of each operation of a trace, bottom up and greedily (BUG, after Ellis, 1985), and the copies of values of other
// clusters that the operations need.
#![tactic(auto)]

mod assignment;
mod booked;
mod bookings;
mod cluster_choice;
mod cluster_copies;
mod clustered;
pub mod clusters;
mod copy_homes;
mod homes;
pub mod laws;
mod ledger;
mod order;
mod served;
mod turns;
mod values;

pub use assignment::assign;
