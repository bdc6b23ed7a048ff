// Laws of planning, each the clause of a function that does nothing.

ghost use Rattle.vx_region.specs.Barring.{BarredOwesNothing};
ghost use Rattle.vx_region.specs.Ending.{BlocksAreCounted, BlocksAreUsed, CapIsKept, EnoughSteps, MeasureFalls, NodesKeepWithin, PlansGrow, StepsEnd};
ghost use Rattle.vx_region.specs.Growth.{BarredOverCap, FewMade, OneMode, SumsMayStop, WithinCap};
ghost use Rattle.vx_region.specs.Meets.{DelaysMet, TableMet};
ghost use Rattle.vx_region.specs.Motion.{ComposedLaw, JoinsLaw, OrderLaw, SplitsLaw};
ghost use Rattle.vx_region.specs.PlanLaws.{PlanKeeps, PlanLaw};
ghost use Rattle.vx_region.specs.Regions.{AllKeep, BeginsAsGraph, PlansFit, StepKeeps};

use crate::copies::assigned_operations_stand;

/// The words of a placement meet the delays of its trace, and so the table under which every operation may move: stores
/// and loads whose index forms never name one word may pass each other.
pub fn placed_words_meet_the_delays()
    ensures delays { DelaysMet }
    ensures table { TableMet }
{}

/// What the calls of planning give for blocks that can be traced is what is asked of a replacement, and so the graph with their
/// region in place of them keeps the meaning from every entrance that the two share.
pub fn plans_keep_the_meaning()
    ensures compensated { PlanLaw }
    ensures meaning { PlanKeeps }
{
    assigned_operations_stand();
}

/// A trace on its clusters, executed in its order, leaves at each exit what the trace leaves; so it does from each of its joins on.
pub fn clusters_keep_the_order()
    ensures { OrderLaw }
{
    assigned_operations_stand();
}

/// The words of a plan, with the copies at their splits, the empty cycles and the dismissible loads, leave at each exit what the
/// trace on its clusters leaves in its order, whenever writes land.
pub fn words_keep_the_order()
    ensures { SplitsLaw }
{
    assigned_operations_stand();
}

/// From each joining edge the copies there, and then the words from the rejoin word on, leave at each exit what the operations
/// below the join leave in their order, whenever writes land.
pub fn joins_keep_the_order()
    ensures { JoinsLaw }
{
    assigned_operations_stand();
}

/// The three together: from its start and from each joining edge the words of a plan leave what the trace of blocks leaves.
pub fn motion_keeps_the_trace()
    ensures { ComposedLaw }
{
    clusters_keep_the_order();
    words_keep_the_order();
    joins_keep_the_order();
}

/// What planning gives for blocks of a graph is what a replacement asks of its arguments; the words of its region have room, and
/// its operations stand where their values do.
pub fn plans_fit()
    ensures { PlansFit }
{
    assigned_operations_stand();
}

/// What a sound graph begins as is a graph of blocks and regions on the clusters of any machine, settled for it.
pub fn graphs_begin_so()
    ensures { BeginsAsGraph }
{}

/// A trace as a region, by a plan, keeps the meaning of such a graph, and leaves it one.
pub fn steps_keep_the_graph()
    ensures { StepKeeps }
{
    assigned_operations_stand();
}

/// All traces as regions, one step after the other: no block is left, and the graph does what it did.
pub fn all_steps_keep_the_graph()
    ensures { AllKeep }
{
    assigned_operations_stand();
}

/// A trace that is placed in mode Barred, on whatever clusters, has no copies, makes no block and frees no load.
pub fn barred_owes_nothing()
    ensures { BarredOwesNothing }
{}

/// At most as many blocks are made as copies, and in the mode of the rule these keep within the cap.
pub fn copies_keep_within()
    ensures one { OneMode }
    ensures over { BarredOverCap }
    ensures stop { SumsMayStop }
    ensures few { FewMade }
    ensures within { WithinCap }
{}

/// A trace uses at least one block.
pub fn blocks_are_used()
    ensures one { BlocksAreUsed }
    ensures all { BlocksAreCounted }
{}

/// A step takes a block away or leaves less room for copies, so that the steps end.
pub fn steps_end()
    ensures plans { PlansGrow }
    ensures falls { MeasureFalls }
    ensures kept { CapIsKept }
    ensures end { StepsEnd }
    ensures enough { EnoughSteps }
    ensures nodes { NodesKeepWithin }
{
    assigned_operations_stand();
}
