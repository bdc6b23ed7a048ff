// A trace through all calls of planning on the default machine with four clusters: clusters, delays, words, copies at splits and
// at joins. The lengths are put as a line.

ghost use Rattle.std.specs.Prelude.{◌≡◌, length};
ghost use Rattle.vx_bug.specs.Further.{RoomForEach};

use crate::result::Ended;
use crate::synthetic::trace;
use std::alloc::Global;
use vx_base::listed::Listed;
use vx_base::outcome::NoMemory;
use vx_bug::clusters::Clusters;
use vx_dep::mode::Mode;
use vx_flow::trace::{Homes, Placed, Trace};
use vx_join::at_joins;
use vx_machine::Machine;
use vx_plannable::{clustered, placed};
use vx_split::at_splits;

/// What is planned for a trace.
#[derive(Clone, Copy)]
struct Lengths {
    /// How many words it has where operations pass splits and joins.
    free: u32,
    /// How many it has where they do not.
    barred: u32,
}

/// Plans a trace of so many operations.
pub(crate) fn measure(rt: &HostRuntime, count: u32) -> Ended {
    match planned(rt.alloc(), count) {
        Ok(Some(lengths)) => told(rt, lengths),
        Ok(None) => Ended::Refused,
        Err(NoMemory) => Ended::NoMemory,
    }
}

fn told(rt: &HostRuntime, lengths: Lengths) -> Ended {
    match println!(rt;
        "{} words free, {} words barred",
        lengths.free, lengths.barred
    ) {
        Ok(()) => Ended::Done,
        Err(_) => Ended::NotWritten,
    }
}

fn planned(alloc: Global, count: u32) -> Result<Option<Lengths>, NoMemory> {
    let trace = trace(alloc, count)?;
    plan(alloc, &trace, &Machine::vex(4))
}

/// The lengths of a trace in words, where no value has a home yet. None where a condition of a call does not hold.
fn plan(alloc: Global, trace: &Trace, machine: &Machine) -> Result<Option<Lengths>, NoMemory> {
    let homes = no_homes(alloc);
    match clustered(alloc, trace, machine, &homes)? {
        Some(clusters) => lengths_of(alloc, &clusters, machine),
        None => Ok(None),
    }
}

fn lengths_of(
    alloc: Global,
    clusters: &Clusters,
    machine: &Machine,
) -> Result<Option<Lengths>, NoMemory>
    requires { RoomForEach machine.now clusters.now }
{
    if clusters.clustered.clusters.len() != clusters.clustered.trace.ops.len() {
        return Ok(None);
    }
    Ok(Some(Lengths {
        free: length_in(alloc, clusters, machine, Mode::Free)?,
        barred: length_in(alloc, clusters, machine, Mode::Barred)?,
    }))
}

fn no_homes(alloc: Global) -> Homes {
    Homes {
        clusters: Listed::new(alloc),
    }
}

/// The length of a trace in one mode, its copies at splits and joins found too.
fn length_in(
    alloc: Global,
    clusters: &Clusters,
    machine: &Machine,
    mode: Mode,
) -> Result<u32, NoMemory>
    requires each { length clusters.now.clustered.clusters ≡ length clusters.now.clustered.trace.ops }
    requires room { RoomForEach machine.now clusters.now }
{
    let placed = placed(alloc, clusters, machine, mode)?;
    with_copies(alloc, &placed)
}

fn with_copies(alloc: Global, placed: &Placed) -> Result<u32, NoMemory> {
    let _edges = at_splits(alloc, placed)?;
    let _rejoins = at_joins(alloc, placed)?;
    Ok(placed.length)
}
