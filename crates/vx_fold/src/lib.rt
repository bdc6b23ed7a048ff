// Passes over the graphs of a program: a value that only ever holds one number is read as that number, and operations whose results
// nobody reads go. The flow does what it did.
#![tactic(auto)]

mod fold;
pub mod laws;
mod needed;
mod numbers;
pub mod reads;
mod settled;
mod thin;
pub mod unread;

pub use crate::fold::folded_once;
pub use crate::thin::thinned_once;
