// How a call of the simulator ends.

use vx_base::outcome::{Reason, Trap};

/// How a call of `Sim::run` ended.
#[derive(Clone, Copy, PartialEq, Eq)]
pub enum Ended {
    /// `halt` was issued, with this result.
    Halted(i32),
    /// `trap` was issued.
    Trapped(Trap),
    /// Exactly the words that were asked for were issued, and none ended the program. A further run goes on from there.
    Stopped,
    /// The word at this place is stuck. It had no effect.
    Stuck(Reason, u32),
    /// The sink failed. The output so far is a prefix.
    SinkFault,
}
