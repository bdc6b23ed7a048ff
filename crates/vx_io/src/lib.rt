// The files and streams of the outside: what a depot and a sink are, those of the system, a sink in memory, the reading of a whole
// file, and the roles by which a status names a file.
#![tactic(auto)]

pub mod depot;
pub mod laws;
pub mod real;
pub mod role;
pub mod sink;
pub mod whole_file;
