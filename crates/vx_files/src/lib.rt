// The files that commands read, but for texts of words: sources, profiles, descriptions of machines and inputs, each whole and through, or
// the status that says why not.
#![tactic(auto)]

mod front_end;
mod input;
mod inputs;
pub mod laws;
mod machines;
mod profiles;
mod sources;
mod whole;

pub use front_end::typed_of;
pub use inputs::input_for;
pub use machines::machine_for;
pub use profiles::counts_for;
pub use sources::read_through;
