// How a command ends: its status, and the line that it puts for it on the error stream.
#![tactic(auto)]

mod status;

pub use status::{Breach, Status, put, put_counted, put_line, put_text, tell};
