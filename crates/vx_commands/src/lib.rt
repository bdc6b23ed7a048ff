// The commands over any compiler: what each does from its words to its answer (specs/Commands.antt).
#![tactic(auto)]

pub mod commands;
mod compilation;
mod exec;
pub mod laws;
mod profile;
mod soak;

pub use commands::perform;
