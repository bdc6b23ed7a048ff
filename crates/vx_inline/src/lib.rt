// Small functions inlined in graphs: a call is replaced by copies of the blocks of its callee. Which calls may be, and what comes
// of it, is defined in specs/Inlined.antt; which of them comes first in specs/Choosing.antt. The laws are the clauses of functions
// that do nothing; `permitted` tests whether a call may be inlined.
#![tactic(auto)]

mod bare;
pub mod by_bank;
mod call_lists;
mod called;
mod caller_blocks;
pub mod choice;
mod edge_blocks;
mod fitting;
pub mod found_call;
mod free_values;
mod inlined_flow;
mod inlining;
pub mod joint;
pub mod known;
mod marks;
mod names;
mod passing;
mod permission;
pub mod places;
pub mod site;
pub mod splice;
mod takes;

ghost use Rattle.vx_inline.specs.Counts.{NumbersStay, OneCallLess};
ghost use Rattle.vx_inline.specs.Joined.{JoinedRuns};
ghost use Rattle.vx_inline.specs.Laws.{InlinedIsOne, InlinedRuns, InlinedRunsAs, InlinedSound, InlinedStays};
ghost use Rattle.vx_inline.specs.Reaching.{NamesStay, ReachedWhereLive};
ghost use Rattle.vx_inline.specs.Renaming.{EffectIsRenamed};
ghost use Rattle.vx_inline.specs.Rows.{EdgesGetBlocks, RowHasNone, RowIsChosen, RowIsInlined, RowIsNotPermitted};

pub use choice::choose;
pub use inlined_flow::inlined_all;
pub use inlining::inline_one;
pub use permission::permitted;

/// An operation with other values in place of its own does the same.
#[tactic(auto, using(crate::proofs::Renaming::effect_is_renamed))]
pub fn effect_is_renamed()
    ensures { EffectIsRenamed }
{}

/// With a callee in place of a call a flow that never fails does the same, and never fails.
#[tactic(auto, using(crate::proofs::Inlines::joined_runs))]
pub fn joined_runs()
    ensures { JoinedRuns }
{}

/// With a permitted call inlined a sound flow that never fails does the same, and never fails.
#[tactic(auto, using(crate::proofs::Joining::inlined_runs))]
pub fn inlined_runs()
    ensures { InlinedRuns }
{}

/// With a permitted call inlined a flow of an accepted program runs as the program.
#[tactic(auto, using(crate::proofs::Programs::inlined_runs_as))]
pub fn inlined_runs_as()
    ensures { InlinedRunsAs }
{}

/// The worked call is permitted, and what comes of it is the worked flow.
#[tactic(auto, using(crate::proofs::Rows::row_is_inlined))]
pub fn row_is_inlined()
    ensures { RowIsInlined }
{}

/// With a value less it is not permitted.
#[tactic(auto, using(crate::proofs::Rows::row_is_not_permitted))]
pub fn row_is_not_permitted()
    ensures { RowIsNotPermitted }
{}

/// The worked call is chosen, whatever the counts are.
#[tactic(auto, using(crate::proofs::Rows::row_is_chosen))]
pub fn row_is_chosen()
    ensures { RowIsChosen }
{}

/// With a value less nothing is chosen.
#[tactic(auto, using(crate::proofs::Rows::row_has_none))]
pub fn row_has_none()
    ensures { RowHasNone }
{}

/// With a permitted call inlined a flow of an accepted program is a flow of the program still.
#[tactic(auto, using(crate::proofs::Programs::inlined_stays))]
pub fn inlined_stays()
    ensures { InlinedStays }
{}

/// With a permitted call inlined a sound flow is sound.
#[tactic(auto, using(crate::proofs::FlowSound::inlined_sound))]
pub fn inlined_sound()
    ensures { InlinedSound }
{}

/// One flow comes of inlining the call of a site.
#[tactic(auto, using(crate::proofs::One::inlined_is_one))]
pub fn inlined_is_one()
    ensures { InlinedIsOne }
{}

/// The trap blocks of both graphs become one for each kind, and two splits that now lead to one of them get blocks for their edges.
#[tactic(auto, using(crate::proofs::Rows::edges_get_blocks))]
pub fn edges_get_blocks()
    ensures { EdgesGetBlocks }
{}

/// A flow with a call inlined has one call less.
#[tactic(auto, using(crate::proofs::Counts::one_call_less))]
pub fn one_call_less()
    ensures { OneCallLess }
{}

/// The blocks of the caller, but for trap blocks, keep their numbers, and their operations in front.
#[tactic(auto, using(crate::proofs::Programs::numbers_stay))]
pub fn numbers_stay()
    ensures { NumbersStay }
{}

/// A function reaches another by calls exactly where the other is live on the routes of calls.
#[tactic(auto, using(crate::proofs::Reaching::reached_where_live))]
pub fn reached_where_live()
    ensures { ReachedWhereLive }
{}

/// Values, parameters and arrays of each graph stay.
#[tactic(auto, using(crate::proofs::Reaching::names_stay))]
pub fn names_stay()
    ensures { NamesStay }
{}
