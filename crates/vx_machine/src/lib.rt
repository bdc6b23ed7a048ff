// Machines: how a description gives one, and whether a word fits it.
#![tactic(auto)]

mod bad_word;
mod description;
mod fit;
pub mod left;
mod machine_model;

pub use bad_word::is_bad_word;
pub use description::{MachineFault, description_law, field_name, from_toml};
pub use fit::{fits, fits_where_covered_law};
pub use machine_model::Machine;
