// Whether items can stand in one word of a machine, each on its cluster: one pass over the items for each cluster, and
// a few for what the whole word shares. The clause is `has_room` of specs/Room.antt, and `room_law` says it for every cluster.

ghost use Rattle.std.specs.Prelude.{◌≡◌, ◌&&◌, ◌∷◌, [], nat_le, Option, Some, None, count_by};
ghost use Rattle.std.specs.List.{list_all, flat_map};
ghost use Rattle.vx_isa.specs.declared.operation.UnitKind.TheVariants.{Alu, Multiply, Memory, Copies};
ghost use Rattle.vx_isa.specs.Fits.{all_below};
ghost use Rattle.vx_room.specs.Needs.{FitsByRoom};
ghost use Rattle.vx_room.specs.Items.{is_split, is_observable_item};
ghost use Rattle.vx_room.specs.Room.{home_of, source_of, read_clusters, is_at, needs, reads_at, count_in, has_room_at, stands_well, is_cluster, stand_well, has_room, RoomAlone, RoomInWords, RoomShrinks};
ghost use Rattle.vx_machine.specs.Left.{fits_left};
ghost use Rattle.vx_room.specs.Left.{need_of};
ghost use Rattle.vx_room.specs.Takes.{RoomWhereCovered};

use crate::items::{ClusteredItem, Item};
use vx_flow::graph::{Op, Value};
use vx_flow::trace::Homes;
use vx_isa::operation::UnitKind;
use vx_machine::Machine;
use vx_machine::left::{Left, covers, less, limits};

/// Whether the items can stand in one word of the machine: each cluster has slots, units and ports for them, the
/// machine has the copy paths, at most as many splits as it has branches and at most one observable operation are there, and
/// both stand on cluster 0. A copy
/// across takes its read port where its operand has its home; without a home there is no room for it. It takes no memory.
pub fn has_room(machine: &Machine, homes: &Homes, items: &[ClusteredItem]) -> bool
    ensures { result ≡ has_room machine.now homes.now items.now }
{
    machine.keeps_ranges();
    stand_well(machine, homes, items)
        && have_room_at_each(machine, homes, items)
        && have_room_in_whole(machine, items)
}

/// Items have room exactly where each cluster has the slots, units and ports for them, the machine has the copy paths, at most
/// as many splits as it has branches and at most one observable operation are there, and both stand on cluster 0.
#[tactic(auto, using(crate::proofs::RoomLaw::room_in_words))]
pub fn room_law()
    ensures { RoomInWords }
{}

/// Items have room exactly where the machine has of each resource what they take together, what they read has a cluster, and splits
/// and observable operations stand on cluster 0.
#[tactic(auto, using(crate::proofs::Covered::room_where_covered))]
pub fn room_where_covered_law()
    ensures { RoomWhereCovered }
{}

/// More items never make room.
#[tactic(auto, using(crate::proofs::RoomLaw::room_shrinks))]
pub fn room_shrinks_law()
    ensures { RoomShrinks }
{}

/// An item by itself has room on every machine, where it stands on a cluster of the machine, a split and an observable
/// operation on cluster 0, and the operand of a copy across has its home there.
#[tactic(auto, using(crate::proofs::RoomAlone::room_alone))]
pub fn room_alone_law()
    ensures { RoomAlone }
{}

/// Operations on registers that need no more than items with room, one for each, fit the machine where their registers are in
/// its files; on a machine of two branches only where none of them is a control operation that stands alone.
#[tactic(auto, using(crate::proofs::FitsByRoom::fits_by_room))]
pub fn fits_by_room_law()
    ensures { FitsByRoom }
{}

fn have_room_in_whole(machine: &Machine, items: &[ClusteredItem]) -> bool
    ensures { result ≡ (nat_le (count_in (needs Copies) items.now) machine.now.copy_paths && nat_le (count_in is_split items.now) machine.now.branches && nat_le (count_in is_observable_item items.now) 1) }
{
    count_of_copies(items) <= machine.copy_paths() as usize
        && count_of_splits(items) <= machine.branches() as usize
        && count_of_observable(items) <= 1
}

fn count_of_copies(items: &[ClusteredItem]) -> usize
    ensures { result ≡ count_in (needs Copies) items.now }
{
    let mut count = 0;
    for x in items {
        if x.item.unit() == UnitKind::Copies {
            count += 1;
        }
    }
    count
}

fn count_of_splits(items: &[ClusteredItem]) -> usize
    ensures { result ≡ count_in is_split items.now }
{
    let mut count = 0;
    for x in items {
        if x.item.is_split() {
            count += 1;
        }
    }
    count
}

fn count_of_observable(items: &[ClusteredItem]) -> usize
    ensures { result ≡ count_in is_observable_item items.now }
{
    let mut count = 0;
    for x in items {
        if x.item.is_observable() {
            count += 1;
        }
    }
    count
}

/// Whether each item, and what it reads, stands on a cluster where it may.
fn stand_well(machine: &Machine, homes: &Homes, items: &[ClusteredItem]) -> bool
    ensures { result ≡ stand_well machine.now homes.now items.now }
{
    all_stand_well(machine, items) && all_read_well(machine, homes, items)
}

fn all_stand_well(machine: &Machine, items: &[ClusteredItem]) -> bool
    ensures { result ≡ list_all (stands_well machine.now) items.now }
{
    for x in items {
        if !stands_well(machine, x) {
            return false;
        }
    }
    true
}

fn stands_well(machine: &Machine, x: &ClusteredItem) -> bool
    ensures { result ≡ stands_well machine.now x.now }
{
    x.cluster < machine.clusters()
        && (x.cluster == 0 || !(x.item.is_split() || x.item.is_observable()))
}

fn all_read_well(machine: &Machine, homes: &Homes, items: &[ClusteredItem]) -> bool
    ensures { result ≡ list_all (λ x. list_all (is_cluster machine.now) (read_clusters homes.now x)) items.now }
{
    for x in items {
        if !reads_well(machine, homes, x) {
            return false;
        }
    }
    true
}

#[tactic(auto, using(crate::proofs::RoomSteps::reads_pass))]
fn reads_well(machine: &Machine, homes: &Homes, x: &ClusteredItem) -> bool
    ensures { result ≡ list_all (is_cluster machine.now) (read_clusters homes.now x.now) }
{
    x.item.read_ports() == 0 || is_cluster(machine, source_of(homes, x))
}

fn is_cluster(machine: &Machine, cluster: Option<u32>) -> bool
    ensures { result ≡ is_cluster machine.now cluster }
{
    match cluster {
        Some(cluster) => cluster < machine.clusters(),
        None => false,
    }
}

/// The cluster of which an item reads.
fn source_of(homes: &Homes, x: &ClusteredItem) -> Option<u32>
    ensures { result ≡ source_of homes.now x.now }
{
    match x.item {
        Item::Plain(op) => match op {
            Op::Across { from, .. } => home_of(homes, from),
            _ => Some(x.cluster),
        },
        Item::Split { .. } => Some(x.cluster),
    }
}

/// The cluster on which a value stands, if it has one.
pub fn home_of(homes: &Homes, value: Value) -> Option<u32>
    ensures { result ≡ home_of homes.now value }
{
    let clusters = homes.clusters.as_slice();
    let place = value as usize;
    if place < clusters.len() {
        clusters[place]
    } else {
        None
    }
}

fn have_room_at_each(machine: &Machine, homes: &Homes, items: &[ClusteredItem]) -> bool
    ensures { result ≡ all_below machine.now.clusters (has_room_at machine.now homes.now items.now) }
{
    for cluster in 0..machine.clusters() {
        if !has_room_at(machine, homes, items, cluster) {
            return false;
        }
    }
    true
}

fn has_room_at(machine: &Machine, homes: &Homes, items: &[ClusteredItem], cluster: u32) -> bool
    ensures { result ≡ has_room_at machine.now homes.now items.now cluster }
{
    fits_left(limits(machine), homes, cluster, items)
}

/// Whether the items take no more of a cluster than is left.
fn fits_left(limits: Left, homes: &Homes, cluster: u32, items: &[ClusteredItem]) -> bool
    ensures { result ≡ fits_left (need_of homes.now cluster) limits items.now }
{
    let mut left = limits;
    for x in items {
        let need = need_of(homes, cluster, x);
        if !covers(left, need) {
            return false;
        }
        left = less(left, need);
    }
    true
}

/// What an item takes of a cluster.
fn need_of(homes: &Homes, cluster: u32, x: &ClusteredItem) -> Left
    ensures { result ≡ need_of homes.now cluster x.now }
{
    let here = x.cluster == cluster;
    let unit = x.item.unit();
    Left {
        slots: u32::from(here),
        alus: u32::from(here && unit == UnitKind::Alu),
        multipliers: u32::from(here && unit == UnitKind::Multiply),
        memory_units: u32::from(here && unit == UnitKind::Memory),
        read_ports: read_ports_at(homes, cluster, x),
        write_ports: u32::from(here && x.item.writes_general()),
    }
}

#[tactic(auto, using(crate::proofs::RoomSteps::reads_at_one))]
fn read_ports_at(homes: &Homes, cluster: u32, x: &ClusteredItem) -> u32
    ensures { result ≡ reads_at homes.now cluster (x.now ∷ []) }
{
    if is_at(cluster, source_of(homes, x)) {
        x.item.read_ports()
    } else {
        0
    }
}

fn is_at(cluster: u32, source: Option<u32>) -> bool
    ensures { result ≡ is_at cluster source }
{
    match source {
        Some(source) => source == cluster,
        None => false,
    }
}
