// What a program is finished as.

use vx_base::listed::Listed;
use vx_isa::program::WordProgram;

/// The places of the words of a region.
#[derive(Drop)]
pub struct TracePlaces {
    /// For each word of the region, in order, the place in the program of the word that has its operations.
    pub places: Listed<u32>,
}

/// A program of words, and where the words of its regions stand.
#[derive(Drop)]
pub struct Finished {
    /// The program.
    pub program: WordProgram,
    /// The regions of all functions, the functions in order, with those that have no words.
    pub places: Listed<TracePlaces>,
}
