// Tests of the road from a source to a placed trace: public calls with ample memory that no row of vx_rows shows, and
// rows worked out by hand. What is compiled always is what tests make and rest on.
#![tactic(auto)]

#[cfg(test)]
mod accesses;
#[cfg(test)]
mod clusters;
#[cfg(test)]
mod compensation;
#[cfg(test)]
mod delays;
#[cfg(test)]
mod forms;
#[cfg(test)]
mod generated;
#[cfg(test)]
mod live_routes;
#[cfg(test)]
mod liveness;
#[cfg(test)]
mod loops;
mod routes;
#[cfg(test)]
mod runs;
#[cfg(test)]
mod shapes;
#[cfg(test)]
mod soundness;
#[cfg(test)]
mod sources;
#[cfg(test)]
mod traces;
#[cfg(test)]
mod trees;
#[cfg(test)]
mod words;

pub use routes::{past_a_write, through_a_write};
