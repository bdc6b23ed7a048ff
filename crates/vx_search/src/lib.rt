// A search for claims (vx_claims) at the starts of blocks and for parameters, by sweeps over the graphs. It owes nothing: vx_narrow
// checks what it finds.
#![tactic(auto)]

mod compared;
mod inherited;
mod parameters;
mod search;
mod shared;
mod sweep;

pub use crate::parameters::{Found, Kept, find_given};
pub use crate::search::find_claims;
