// Laws of the copies of values between clusters: a trace with the copies that its operations need leaves what the trace leaves,
// and each of its operations stands where its values are.

ghost use Rattle.vx_region.specs.AtHome.{AssignedStands};
ghost use Rattle.vx_region.specs.Beside.{CopiesLaw, NothingNew};
ghost use Rattle.vx_region.specs.Ways.{ClusteredLaw, FitsLaw, ClusteredFitsLaw, AssignedFitsLaw, AssignedTraceFits};

use vx_room::room_alone_law;

/// A trace and the trace with copies, run in order beside each other.
pub fn copies_keep_the_trace()
    ensures law { CopiesLaw }
    ensures nothing_new { NothingNew }
{}

/// The items of the trace with copies leave as those of the trace do.
pub fn copies_leave_alike()
    ensures { ClusteredLaw }
{}

/// Premises on the places of a trace alone are enough.
pub fn tidy_traces_fit()
    ensures { FitsLaw }
{}

/// The clustered trace is what a replacement asks of it.
pub fn clustered_traces_fit()
    ensures fits { ClusteredFitsLaw }
    ensures assigned { AssignedFitsLaw }
{}

/// The trace of blocks of a valid and tidy graph, with the copies that it gets, is what a replacement asks for.
pub fn assigned_traces_fit()
    ensures { AssignedTraceFits }
{}

/// Each operation of the clustered trace stands where the values do that it names, and has room there.
pub fn assigned_operations_stand()
    ensures { AssignedStands }
{
    room_alone_law();
}
