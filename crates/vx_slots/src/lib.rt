// The words that bring values from slots of the frame to registers and back, with the empty cycles between, and the registers by which
// words name values, in slots or not. What is known of a whole program while its words are made stands here too (`Whole`).
#![tactic(auto)]

pub mod numbers;
pub mod program;
pub mod registers;
pub mod transfers;
pub mod ways;
