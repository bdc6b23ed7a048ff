// The cluster of each operation of a trace, chosen from the bottom up by estimates, and the copies that the operations need
// of each other (Ellis, 1985). The promise is the clause of `assign`, which is `Assigned` of specs/Assigned.antt.

ghost use Rattle.std.specs.Prelude.{◌≡◌, [], IfOk, length};
ghost use Rattle.vx_bug.specs.Clusters.{listed, at_first};
ghost use Rattle.vx_bug.specs.Copies.{with_copies};
ghost use Rattle.vx_bug.specs.Choices.{TurnsTaken};
ghost use Rattle.vx_bug.specs.Ledgers.{homes_in, books_of};
ghost use Rattle.vx_bug.specs.Laying.{with_homes_of_copies};
ghost use Rattle.vx_bug.specs.Assigned.{Assigned};
ghost use Rattle.vx_bug.specs.Further.{IsHoused, ChosenAreThere, HomesAreThere, HomesStay, AcrossHasHome, RoomForEach};
ghost use Rattle.vx_bug.specs.CanAssign.{BoundAtHome, FixedAtHome, FixedReadsHere, ClustersAreThere, ValuesAreThere, CopiesHaveNumbers, IsWellFormed};

use crate::booked::Booked;
use crate::cluster_choice::take_turns;
use crate::cluster_copies::Standings;
use crate::clustered::{Kept, lay_all, lists_kept, no_standings};
use crate::clusters::Clusters;
use crate::copy_homes::house_copies;
use crate::ledger::Ledger;
use crate::order::listed;
use std::alloc::Global;
use vx_base::listed::Listed;
use vx_base::outcome::NoMemory;
use vx_flow::trace::{Clustered, Homes, Trace};
use vx_machine::Machine;
use vx_room::room_alone_law;

/// The turns of all operations: the order in which they come, and by their places what each takes.
#[derive(Drop)]
struct AllTurns {
    order: Listed<u32>,
    chosen: Listed<u32>,
    estimates: Listed<u32>,
}

/// What a clustered trace has beside its operations, and the homes with those of the copies that it makes.
#[derive(Drop)]
struct Beside {
    kept: Kept,
    homes: Homes,
}

/// A clustered trace, and the homes with those of the copies that it makes.
#[derive(Drop)]
struct Housed {
    clustered: Clustered,
    homes: Homes,
}

/// The clusters of the operations of a trace, their estimates, the trace with the copies that the operations need, and the
/// homes by then. An estimate past `u32` is want of memory.
pub fn assign(
    alloc: Global,
    trace: &Trace,
    machine: &Machine,
    homes: &Homes,
) -> Result<Clusters, NoMemory>
    requires bound_at_home { BoundAtHome trace.now homes.now }
    requires fixed_at_home { FixedAtHome trace.now homes.now }
    requires fixed_reads_here { FixedReadsHere trace.now homes.now }
    requires clusters { ClustersAreThere machine.now trace.now homes.now }
    requires values { ValuesAreThere trace.now }
    requires copies { CopiesHaveNumbers trace.now }
    requires well_formed { IsWellFormed trace.now }
    ensures assigned { IfOk result (λ r. Assigned machine.now trace.now homes.now r) }
    ensures chosen_are_there { IfOk result (λ r. ChosenAreThere machine.now r) }
    ensures homes_are_there { IfOk result (λ r. HomesAreThere machine.now r) }
    ensures homes_stay { IfOk result (λ r. HomesStay machine.now trace.now homes.now r) }
    ensures across_has_home { IfOk result (λ r. AcrossHasHome r) }
    ensures room_for_each { IfOk result (λ r. RoomForEach machine.now r) }
{
    machine.keeps_ranges();
    room_alone_law();
    let clusters = choose_clusters(alloc, trace, machine, homes)?;
    Ok(clusters)
}

/// The same for a trace that has as many entries for clusters as operations; what it promises, it promises where the values
/// are there.
pub(crate) fn choose_clusters(
    alloc: Global,
    trace: &Trace,
    machine: &Machine,
    homes: &Homes,
) -> Result<Clusters, NoMemory>
    requires { length trace.now.fixed ≡ length trace.now.ops }
    ensures { IfOk result (λ r. (ValuesAreThere trace.now → Assigned machine.now trace.now homes.now r) × IsHoused machine.now trace.now homes.now r) }
{
    let mut ledger = first_ledger(alloc, homes)?;
    let turns = all_turns(alloc, machine, trace, &mut ledger)?;
    let housed = copies_housed(alloc, trace, ledger.homes, turns.chosen.as_slice())?;
    Ok(Clusters {
        order: turns.order,
        estimates: turns.estimates,
        chosen: turns.chosen,
        clustered: housed.clustered,
        homes: housed.homes,
    })
}

/// The turns of all operations in the listed order.
fn all_turns(
    alloc: Global,
    machine: &Machine,
    trace: &Trace,
    ledger: &mut Ledger,
) -> Result<AllTurns, NoMemory>
    ensures order { IfOk result (λ turns. turns.order ≡ listed trace.now) }
    ensures taken { IfOk result (λ turns. TurnsTaken machine.now trace.now (books_of ledger.old) (listed trace.now) turns.chosen turns.estimates (books_of ledger.new)) }
{
    let order = listed(alloc, trace)?;
    let taken = take_turns(alloc, machine, trace, order.as_slice(), ledger)?;
    let chosen = Listed::from_vec(taken.chosen)?;
    let estimates = Listed::from_vec(taken.estimates)?;
    Ok(AllTurns {
        order,
        chosen,
        estimates,
    })
}

/// The trace with the copies that its operations need, by the homes and the clusters, and the homes with theirs.
fn copies_housed(
    alloc: Global,
    trace: &Trace,
    homes: Vec<Option<u32>>,
    chosen: &[u32],
) -> Result<Housed, NoMemory>
    requires chosen { length chosen.now ≡ length trace.now.ops }
    requires fixed { length trace.now.fixed ≡ length trace.now.ops }
    ensures clustered { IfOk result (λ housed. housed.clustered ≡ with_copies trace.now (homes_in homes.items) chosen.now) }
    ensures homes { IfOk result (λ housed. homes_in housed.homes.clusters ≡ with_homes_of_copies trace.now.values (homes_in homes.items) housed.clustered.trace.ops housed.clustered.clusters housed.clustered.trace.fixed) }
{
    let mut out = no_standings(alloc);
    let beside = lay_beside(alloc, trace, homes, chosen, &mut out)?;
    let kept = beside.kept;
    let clustered = Clustered {
        trace: Trace {
            function: trace.function,
            blocks: kept.blocks,
            ops: out.ops,
            fixed: out.fixed,
            joins: kept.joins,
            values: trace.values,
            arrays: kept.arrays,
        },
        clusters: out.clusters,
    };
    Ok(Housed {
        clustered,
        homes: beside.homes,
    })
}

/// Lays down what stands for the operations of a trace, and finds what else its clustered trace has, and the homes with those
/// of the copies.
fn lay_beside(
    alloc: Global,
    trace: &Trace,
    homes: Vec<Option<u32>>,
    chosen: &[u32],
    out: &mut Standings,
) -> Result<Beside, NoMemory>
    requires chosen { length chosen.now ≡ length trace.now.ops }
    requires fixed { length trace.now.fixed ≡ length trace.now.ops }
    requires out { out.old ≡ record { ops = []; clusters = []; fixed = [] } }
    ensures clustered { IfOk result (λ beside. with_copies trace.now (homes_in homes.items) chosen.now ≡ record { trace = record { function = trace.now.function; blocks = beside.kept.blocks; ops = out.new.ops; fixed = out.new.fixed; joins = beside.kept.joins; values = trace.now.values; arrays = beside.kept.arrays }; clusters = out.new.clusters }) }
    ensures homes { IfOk result (λ beside. homes_in beside.homes.clusters ≡ with_homes_of_copies trace.now.values (homes_in homes.items) out.new.ops out.new.clusters out.new.fixed) }
{
    let mut starts = Listed::new(alloc);
    lay_all(alloc, trace, homes.as_slice(), chosen, out, &mut starts)?;
    let homes = homes_behind(homes, trace.values, out)?;
    let kept = lists_kept(alloc, trace, starts.as_slice())?;
    Ok(Beside { kept, homes })
}

/// The homes with those of the copies among what is laid down.
fn homes_behind(homes: Vec<Option<u32>>, values: u32, out: &Standings) -> Result<Homes, NoMemory>
    ensures { IfOk result (λ behind. homes_in behind.clusters ≡ with_homes_of_copies values (homes_in homes.items) out.now.ops out.now.clusters out.now.fixed) }
{
    let mut table = homes;
    house_copies(
        &mut table,
        values,
        out.ops.as_slice(),
        out.clusters.as_slice(),
        out.fixed.as_slice(),
    )?;
    let clusters = Listed::from_vec(table)?;
    Ok(Homes { clusters })
}

/// The homes that values have before the first turn; no operation has a cluster.
fn first_ledger(alloc: Global, homes: &Homes) -> Result<Ledger, NoMemory>
    ensures { IfOk result (λ ledger. books_of ledger ≡ at_first homes.now) }
{
    let mut table = Vec::new(alloc);
    table.extend_from_slice(homes.clusters.as_slice())?;
    Ok(Ledger {
        homes: table,
        booked: Booked::nothing(alloc),
    })
}
