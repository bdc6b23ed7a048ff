// Laws of replacements, each the clause of a function that does nothing.

ghost use Rattle.vx_motion.specs.AloneExample.{BlockIsReplaced, BlockIsTraced, PairIsReplaced, PairIsTraced};
ghost use Rattle.vx_mixed.specs.Begins.{BeginsSettled, BeginsTidy};
ghost use Rattle.vx_mixed.specs.CanReplace.{StaysValid};
ghost use Rattle.vx_motion.specs.Compensation.{CompensationLaw};
ghost use Rattle.vx_motion.specs.Context.{ChainLaw, InContext, MeansTheFlow, MeansTheGraph, StepsLaw};
ghost use Rattle.vx_motion.specs.LayoutExample.{IsLaidOut};
ghost use Rattle.vx_motion.specs.ParallelWords.{ParallelWords};
ghost use Rattle.vx_mixed.specs.AnyTiming.{AnyTiming, RegionAnyTiming};
ghost use Rattle.vx_motion.specs.Replaced.{LivenessKept, RegionSettled, ReplacementLaw};
ghost use Rattle.vx_motion.specs.Sinking.{RefusedWithoutCopy, SumSinks};
ghost use Rattle.vx_motion.specs.Scheduled.{MotionLaw};
ghost use Rattle.vx_motion.specs.CountingExample.{CountingBegins};
ghost use Rattle.vx_motion.specs.Example.{FailsWithoutCopy, Works};
ghost use Rattle.vx_mixed.specs.NextEdges.{EdgesAfter};
ghost use Rattle.vx_motion.specs.NextExample.{NextIsNew, SharesEntrances};
ghost use Rattle.vx_motion.specs.ReplaceExample.{IfIsReplaced};
ghost use Rattle.vx_motion.specs.TraceExample.{IfIsTraced, IsItsTrace};

/// An `if` without `else` as a region does what its blocks do, from its start and from the edge that joins; without the
/// copy on that edge it does not. It is what the replacement of its trace gives,
/// and is laid out with the blocks that are left.
#[tactic(auto, using(crate::proofs::Example::works, crate::proofs::Example::fails_without_copy, crate::proofs::Example::next_is_new, crate::proofs::Example::shares_entrances, crate::proofs::Example::is_laid_out, crate::proofs::Example::its_trace))]
pub fn example_works()
    ensures with_copy { Works }
    ensures without { FailsWithoutCopy }
    ensures trace { IsItsTrace }
    ensures next { NextIsNew }
    ensures entrances { SharesEntrances }
    ensures layout { IsLaidOut }
{}

/// A settled graph does the same whenever writes land: what it does where each lands at the next word. So does each region
/// from each of its words.
#[tactic(auto, using(vx_mixed::proofs::AnyTiming::any_timing, vx_mixed::proofs::AnyTiming::region_any_timing))]
pub fn settled_graph_is_steady()
    ensures graph { AnyTiming }
    ensures region { RegionAnyTiming }
{}

/// A trace that was replaced by a region, with made blocks for the copies, keeps the meaning of the graph, and its region
/// is settled, where the words meet the delays of the trace. What is live in the new graph is live in the old one.
pub fn replacement_keeps_the_meaning()
    ensures meaning { ReplacementLaw }
    ensures settled { RegionSettled }
    ensures live { LivenessKept }
{}

/// A placement that meets the delays, with the copies on the edges and the empty cycles that they ask for, keeps the meaning
/// from every entrance that the two graphs share; and where the graph was tidy and settled, it is afterwards.
pub fn placement_keeps_the_meaning()
    ensures { MotionLaw }
{}

/// A replacement whose operations were placed in words that meet the delays of its trace, with the copies, the dismissible
/// loads and the empty cycles of compensation, keeps the meaning from every entrance that the graphs share; and where the
/// graph was tidy and settled, it is afterwards.
pub fn compensation_keeps_the_meaning()
    ensures { CompensationLaw }
{}

/// The operations of a word, side by side, do what each of them does in trace order, where each reads what it reads there.
#[tactic(auto, using(crate::proofs::ParallelWords::parallel_words))]
pub fn words_keep_trace_order()
    ensures { ParallelWords }
{}

/// A mixed graph without regions means what its graph means, and a program of such graphs what the flow means.
#[tactic(auto, using(crate::proofs::FromGraphs::means_the_graph, crate::proofs::FromGraphs::means_the_flow))]
pub fn blocks_mean_the_graph()
    ensures graph { MeansTheGraph }
    ensures flow { MeansTheFlow }
{}

/// Graphs of the same meaning may stand in place of those of a program: where no run of the one fails, the other runs the
/// same and never fails. So they may after any number of replacements.
pub fn replaced_programs_run_the_same()
    ensures one { InContext }
    ensures chain { ChainLaw }
    ensures steps { StepsLaw }
{}

/// What a sound graph begins as is tidy and settled.
pub fn graphs_begin_tidy_and_settled()
    ensures tidy { BeginsTidy }
    ensures settled { BeginsSettled }
{}

/// A graph that counts may begin as a graph of blocks and regions.
#[tactic(auto, using(crate::proofs::Counting::counting_begins_so))]
pub fn a_graph_that_counts_begins()
    ensures { CountingBegins }
{}

/// The worked `if` without `else` may begin as a graph of blocks and regions, and its blocks be traced.
#[tactic(auto, using(crate::proofs::Traced::if_is_traced))]
pub fn an_if_is_traced()
    ensures { IfIsTraced }
{}

/// And the trace of its three blocks can be replaced, with the numbers of the worked region.
pub fn an_if_is_replaced()
    ensures { IfIsReplaced }
{}

/// One of its blocks can be traced by itself, and replaced; so can two of them.
pub fn blocks_are_replaced()
    ensures traced { BlockIsTraced }
    ensures replaced { BlockIsReplaced }
    ensures traced_two { PairIsTraced }
    ensures replaced_two { PairIsReplaced }
{}

/// A graph after a replacement whose arguments fit is valid where it was, and its edges are the old ones that were not
/// inside the trace, each to its new end, and one from each block that was made.
pub fn replacement_stays_valid()
    ensures valid { StaysValid }
    ensures edges { EdgesAfter }
{}

/// A sum sinks below a split: with its copy on the edge that leaves the meaning is kept, and without it it is not.
pub fn a_sum_sinks()
    ensures with_copy { SumSinks }
    ensures without { RefusedWithoutCopy }
{}
