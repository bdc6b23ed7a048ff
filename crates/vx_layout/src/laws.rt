// Laws of layouts, each the clause of a function that does nothing.

ghost use Rattle.vx_layout.specs.Brief.{BriefStays, LayoutIsBrief};
ghost use Rattle.vx_layout.specs.LayoutLaws.{LayoutComesFromGraph, LayoutRuns, LayoutSettles};
ghost use Rattle.vx_layout.specs.OriginLaws.{BeginsWithCode, CodeStays};

/// A program of settled graphs of which no block is left runs as its layouts do, and the layouts never fail where it does not.
/// The layout of a settled graph is settled, and has the code of the function's graph.
pub fn layouts_keep_the_meaning()
    ensures runs { LayoutRuns }
    ensures settles { LayoutSettles }
    ensures code { LayoutComesFromGraph }
{}

/// A graph of blocks and regions begins with the code of a function's graph, and keeps it whatever is replaced: operations come
/// from the graph, with copies of values in place of values.
pub fn graphs_keep_their_code()
    ensures begins { BeginsWithCode }
    ensures stays { CodeStays }
{}

/// Where each replacement has few empty cycles, the layout has.
pub fn drains_stay_brief()
    ensures stays { BriefStays }
    ensures layout { LayoutIsBrief }
{}
