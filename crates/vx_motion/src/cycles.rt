// Laws of cycles and of paths, each the clause of a function that does nothing.

ghost use Rattle.vx_motion.specs.Backs.{BackEdgesAreOne, BackEdgesGoToHeaders};
ghost use Rattle.vx_motion.specs.Cycles.{CyclesGoBack, CyclesHaveHeaders};
ghost use Rattle.vx_motion.specs.MadeBlocks.{MadeBegins, MadeStays};
ghost use Rattle.vx_motion.specs.Paths.{BeginsHeaded, PathsCanBeTraced, PathsMeetFirst, StaysHeaded};

/// Every cycle of edges has a back edge.
pub fn cycles_go_back()
    ensures { CyclesGoBack }
{}

/// Every cycle of edges passes a header.
pub fn cycles_have_headers()
    ensures { CyclesHaveHeaders }
{}

/// Where every cycle has a header and no edge is critical, an edge between two blocks of a path that enters no header goes to the
/// first of them, or is one by which they follow each other.
pub fn paths_meet_first()
    ensures { PathsMeetFirst }
{}

/// So a path of blocks in no region can be traced.
pub fn paths_can_be_traced()
    ensures { PathsCanBeTraced }
{}

/// What a graph begins as has a header on every cycle of such blocks.
pub fn begins_headed()
    ensures { BeginsHeaded }
{}

/// And keeps it with every replacement.
pub fn stays_headed()
    ensures { StaysHeaded }
{}

/// No block was made in what a graph begins as.
pub fn made_begins()
    ensures { MadeBegins }
{}

/// What holds of made blocks holds after every replacement.
pub fn made_stays()
    ensures { MadeStays }
{}

/// A graph has one list of back edges.
pub fn back_edges_are_one()
    ensures { BackEdgesAreOne }
{}

/// A back edge goes to a header.
pub fn back_edges_go_to_headers()
    ensures { BackEdgesGoToHeaders }
{}
