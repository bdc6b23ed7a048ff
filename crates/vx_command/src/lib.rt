// The words of a command line: what each command asks for, as clap finds it in them, or their refusal.
#![tactic(auto)]

mod check_words;
mod command;
mod options;
mod profile_words;
mod rewriting;
mod rewriting_words;
mod run_words;
mod soak_request;
mod soak_words;

pub use check_words::{CheckWords, check_asked};
pub use command::{CompileWords, Refused, compile_asked, refuse};
pub use profile_words::{ProfileWords, profile_asked};
pub use rewriting::Rewriting;
pub use run_words::{ExecWords, RunWords, exec_asked, sim_asked};
pub use soak_request::SoakWords;
pub use soak_words::soak_asked;
