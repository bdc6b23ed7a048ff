// The profile of a run: how often each block and each edge of its path was passed, and the text of such counts, which is
// written and read.
#![tactic(auto)]

mod count_reader;
mod count_writer;
pub mod counts;
mod fault;
pub mod laws;
mod passed;

pub use count_reader::read_counts;
pub use count_writer::write_counts;
pub use fault::ProfileFault;
