// The calls of planning for a trace that was made by hand: its clusters, where the test of src/plannable.rt shows the conditions of
// `assign`, and then its words.

ghost use Rattle.std.specs.Prelude.{◌≡◌, ◌&&◌, true, is_some, length, IfOk, IfSome};
ghost use Rattle.std.specs.List.{list_all};
ghost use Rattle.vx_bug.specs.Assigned.{Assigned};
ghost use Rattle.vx_bug.specs.Further.{RoomForEach};
ghost use Rattle.vx_plannable.specs.Plannable.{is_plannable, is_there};
ghost use Rattle.vx_sched.specs.Placement.{length_of};

use crate::plannable::{are_there, is_plannable};
use std::alloc::Global;
use vx_base::outcome::NoMemory;
use vx_bug::assign;
use vx_bug::clusters::Clusters;
use vx_dep::mode::Mode;
use vx_dep::pairs;
use vx_flow::trace::{Homes, Placed, Trace};
use vx_machine::Machine;
use vx_sched::schedule;

/// The clusters of a trace where values have these homes. None where the trace cannot be planned, or a home is no cluster of the
/// machine.
pub fn clustered(
    alloc: Global,
    trace: &Trace,
    machine: &Machine,
    homes: &Homes,
) -> Result<Option<Clusters>, NoMemory>
    ensures found { IfOk result (λ found. is_some found ≡ (is_plannable trace.now && list_all (is_there machine.now.clusters) homes.now.clusters)) }
    ensures assigned { IfOk result (λ found. IfSome found (λ r. Assigned machine.now trace.now homes.now r)) }
    ensures room_for_each { IfOk result (λ found. IfSome found (λ r. RoomForEach machine.now r)) }
{
    if !is_plannable(trace) {
        return Ok(None);
    }
    if !are_there(machine.clusters(), homes.clusters.as_slice()) {
        return Ok(None);
    }
    Ok(Some(assigned(alloc, trace, machine, homes)?))
}

#[tactic(auto, using(crate::proofs::Conditions::bound_at_home, crate::proofs::Conditions::fixed_at_home, crate::proofs::Conditions::fixed_reads_here, crate::proofs::Conditions::clusters_are_there, crate::proofs::Conditions::values_are_there, crate::proofs::Conditions::copies_have_numbers, crate::proofs::Conditions::is_well_formed))]
fn assigned(
    alloc: Global,
    trace: &Trace,
    machine: &Machine,
    homes: &Homes,
) -> Result<Clusters, NoMemory>
    requires plannable { is_plannable trace.now ≡ true }
    requires there { list_all (is_there machine.now.clusters) homes.now.clusters ≡ true }
    ensures assigned { IfOk result (λ r. Assigned machine.now trace.now homes.now r) }
    ensures room_for_each { IfOk result (λ r. RoomForEach machine.now r) }
{
    assign(alloc, trace, machine, homes)
}

/// The words of a clustered trace in one mode, as `schedule` gives them.
#[tactic(auto, using(crate::proofs::Conditions::own_mode, crate::proofs::Conditions::alone))]
pub fn placed(
    alloc: Global,
    clusters: &Clusters,
    machine: &Machine,
    mode: Mode,
) -> Result<Placed, NoMemory>
    requires each { length clusters.now.clustered.clusters ≡ length clusters.now.clustered.trace.ops }
    requires room { RoomForEach machine.now clusters.now }
    ensures length { IfOk result (λ p. p.length ≡ length_of p.words) }
    ensures trace { IfOk result (λ p. p.clustered ≡ clusters.now.clustered) }
{
    let deps = pairs(alloc, &clusters.clustered.trace, machine, mode)?;
    schedule(alloc, &clusters.clustered, &clusters.homes, &deps, machine)
}
