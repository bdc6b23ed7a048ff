// Laws of what a call leaves in files, sinks and counts, for those who compose calls. Each holds of all values,
// so each function has no parameter and no body.
ghost use Rattle.vx_io.specs.Outside.{ReplacedHolds, OthersStay, PiecesJoin, RoseThroughout};

/// A file that was replaced holds its bytes.
pub fn replaced_holds()
    ensures { ReplacedHolds }
{}

/// Each other name holds what it held.
pub fn others_stay()
    ensures { OthersStay }
{}

/// Bytes put in two pieces are those put in one.
pub fn pieces_join()
    ensures { PiecesJoin }
{}

/// A count that never falls and rose in a call, rose over all calls.
pub fn rose_throughout()
    ensures { RoseThroughout }
{}
