// The machines of the tests: the default one, and those that are read from descriptions: narrow ones, and one with two branches a
// word.
#![tactic(auto)]

mod kinds;

pub use kinds::{Kind, machine};
