// How much of a machine the operations of a trace take, word by word and cluster by cluster.

use std::alloc::Global;
use vx_base::outcome::NoMemory;
use vx_flow::trace::TraceOp;
use vx_isa::operation::UnitKind;
use vx_machine::Machine;
use vx_page::facts::OpFact;
use vx_room::items::Item;

/// What operations take of one cluster in one word.
#[derive(Clone, Copy)]
pub struct Load {
    /// Issue slots.
    pub slots: u32,
    /// ALUs.
    pub alus: u32,
    /// Multipliers.
    pub multipliers: u32,
    /// Memory units.
    pub memory_units: u32,
    /// Copies to it from other clusters.
    pub copies: u32,
    /// Read ports, those of copies not counted.
    pub read_ports: u32,
    /// Write ports.
    pub write_ports: u32,
    /// Splits.
    pub splits: u32,
    /// Operations that read the input or print.
    pub observable: u32,
}

/// Nothing taken.
pub(crate) const FREE: Load = Load {
    slots: 0,
    alus: 0,
    multipliers: 0,
    memory_units: 0,
    copies: 0,
    read_ports: 0,
    write_ports: 0,
    splits: 0,
    observable: 0,
};

/// What an operation takes of its cluster.
pub(crate) fn need_of(op: &TraceOp) -> Load {
    let item = Item::of_trace(op);
    let unit = item.unit();
    let is_copy = unit == UnitKind::Copies;
    Load {
        slots: 1,
        alus: u32::from(unit == UnitKind::Alu),
        multipliers: u32::from(unit == UnitKind::Multiply),
        memory_units: u32::from(unit == UnitKind::Memory),
        copies: u32::from(is_copy),
        read_ports: if is_copy { 0 } else { item.read_ports() },
        write_ports: u32::from(item.writes_general()),
        splits: u32::from(item.is_split()),
        observable: u32::from(item.is_observable()),
    }
}

/// Both together.
pub(crate) fn both(one: Load, other: Load) -> Load {
    Load {
        slots: one.slots.saturating_add(other.slots),
        alus: one.alus.saturating_add(other.alus),
        multipliers: one.multipliers.saturating_add(other.multipliers),
        memory_units: one.memory_units.saturating_add(other.memory_units),
        copies: one.copies.saturating_add(other.copies),
        read_ports: one.read_ports.saturating_add(other.read_ports),
        write_ports: one.write_ports.saturating_add(other.write_ports),
        splits: one.splits.saturating_add(other.splits),
        observable: one.observable.saturating_add(other.observable),
    }
}

/// The place of a cluster's load in a word.
fn cell_of(clusters: u32, word: u32, cluster: u32) -> usize {
    let cell = u64::from(word)
        .saturating_mul(u64::from(clusters))
        .saturating_add(u64::from(cluster));
    cell as usize
}

/// The load of a cluster in a word.
pub(crate) fn load_at(loads: &[Load], clusters: u32, word: u32, cluster: u32) -> Load {
    match loads.get(cell_of(clusters, word, cluster)) {
        Some(load) => *load,
        None => FREE,
    }
}

/// The copies between clusters of a word.
pub(crate) fn copies_in(loads: &[Load], clusters: u32, word: u32) -> u32 {
    let mut count: u32 = 0;
    for cluster in 0..clusters {
        count = count.saturating_add(load_at(loads, clusters, word, cluster).copies);
    }
    count
}

fn add_load(loads: &mut Vec<Load>, cell: usize, need: Load) {
    if let Some(load) = loads.get_mut(cell) {
        *load = both(*load, need);
    }
}

/// What the operations of a trace take of the clusters of a machine in each of its words.
pub fn loads_of(
    alloc: Global,
    machine: &Machine,
    length: u32,
    ops: &[TraceOp],
    facts: &[OpFact],
) -> Result<Vec<Load>, NoMemory> {
    let clusters = machine.clusters();
    let cells = cell_of(clusters, length, 0);
    let mut loads = vec![in alloc; FREE; cells]?;
    for (place, op) in ops.iter().enumerate() {
        if let Some(fact) = facts.get(place) {
            let cell = cell_of(clusters, fact.word, fact.cluster);
            add_load(&mut loads, cell, need_of(op));
        }
    }
    Ok(loads)
}

/// What an operation finds full.
#[derive(Clone, Copy)]
pub enum Full {
    /// All issue slots of the cluster.
    Slots,
    /// Its ALUs.
    Alus,
    /// Its multipliers.
    Multipliers,
    /// Its memory units.
    MemoryUnits,
    /// Its read ports.
    ReadPorts,
    /// Its write ports.
    WritePorts,
    /// The copy paths of the machine.
    CopyPaths,
    /// The splits of a word.
    Splits,
    /// The one operation of a word that reads the input or prints.
    Observable,
    /// Nothing.
    Nothing,
}

/// What of a machine is full where these are taken together.
pub(crate) fn full_at(machine: &Machine, load: Load, copies: u32) -> Full {
    if load.slots > machine.issue() {
        return Full::Slots;
    }
    if load.memory_units > machine.memory_units() {
        return Full::MemoryUnits;
    }
    if load.multipliers > machine.multipliers() {
        return Full::Multipliers;
    }
    if load.alus > machine.alus() {
        return Full::Alus;
    }
    if copies > machine.copy_paths() {
        return Full::CopyPaths;
    }
    full_ports(machine, load)
}

fn full_ports(machine: &Machine, load: Load) -> Full {
    if load.read_ports > machine.read_ports() {
        return Full::ReadPorts;
    }
    if load.write_ports > machine.write_ports() {
        return Full::WritePorts;
    }
    if load.splits > machine.branches() {
        return Full::Splits;
    }
    if load.observable > 1 {
        return Full::Observable;
    }
    Full::Nothing
}

/// The name of what is full.
pub(crate) fn name_of_full(full: Full) -> &'static [u8] {
    match full {
        Full::Slots => b"all slots",
        Full::Alus => b"all alus",
        Full::Multipliers => b"all multipliers",
        Full::MemoryUnits => b"all memory units",
        Full::ReadPorts => b"all read ports",
        Full::WritePorts => b"all write ports",
        Full::CopyPaths => b"all copy paths",
        Full::Splits => b"all places for branches",
        Full::Observable => b"the one input or print",
        Full::Nothing => b"nothing",
    }
}
