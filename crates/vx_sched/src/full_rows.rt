// A test that is cheaper than that for room: whether a row takes all the slots or units that an item needs on its cluster, or
// all the copy paths. specs/Crowding.antt says the same.

ghost use Rattle.std.specs.Prelude.{◌≡◌};
ghost use Rattle.vx_isa.specs.declared.operation.UnitKind.TheVariants.{Copies};
ghost use Rattle.vx_room.specs.Room.{count_at, count_in, needs};
ghost use Rattle.vx_sched.specs.Crowding.{slots_at, takes_all, is_crowded};

use vx_isa::operation::UnitKind;
use vx_machine::Machine;
use vx_room::items::ClusteredItem;

/// Whether a row has no room for an item, as can be told by counting alone. Where it is not crowded, it may still have none.
pub(crate) fn is_crowded(machine: &Machine, row: &[ClusteredItem], item: ClusteredItem) -> bool
    ensures { result ≡ is_crowded machine.now row.now item }
{
    machine.issue() as usize <= slots_at(row, item.cluster)
        || takes_all(machine, item.item.unit(), item.cluster, row)
}

/// How many items stand on a cluster.
fn slots_at(row: &[ClusteredItem], cluster: u32) -> usize
    ensures { result ≡ slots_at cluster row.now }
{
    let mut count = 0;
    for item in row {
        if item.cluster == cluster {
            count += 1;
        }
    }
    count
}

/// Whether a row takes all units of a kind that there are for a cluster.
fn takes_all(machine: &Machine, unit: UnitKind, cluster: u32, row: &[ClusteredItem]) -> bool
    ensures { result ≡ takes_all machine.now unit cluster row.now }
{
    match unit {
        UnitKind::Copies => machine.copy_paths() as usize <= copies_in(row),
        UnitKind::Control => false,
        _ => machine.units(unit) as usize <= units_at(row, cluster, unit),
    }
}

/// How many items on a cluster take a unit of a kind.
fn units_at(row: &[ClusteredItem], cluster: u32, unit: UnitKind) -> usize
    ensures { result ≡ count_at cluster (needs unit) row.now }
{
    let mut count = 0;
    for item in row {
        if item.cluster == cluster && item.item.unit() == unit {
            count += 1;
        }
    }
    count
}

fn copies_in(row: &[ClusteredItem]) -> usize
    ensures { result ≡ count_in (needs Copies) row.now }
{
    let mut count = 0;
    for item in row {
        if item.item.unit() == UnitKind::Copies {
            count += 1;
        }
    }
    count
}
