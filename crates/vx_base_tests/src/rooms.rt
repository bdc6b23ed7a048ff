// Items at the edge of the room of a word.

use std::alloc::Global;
use std::test::Fail;
use vx_base::arithmetic::{Code, Compare};
use vx_base::listed::Listed;
use vx_base::outcome::NoMemory;
use vx_flow::graph::{Op, Operand};
use vx_flow::trace::Homes;
use vx_isa::operation::UnitKind;
use vx_machine::Machine;
use vx_room::items::{ClusteredItem, Item};
use vx_room::{has_room, home_of};
use vx_test_machines::{Kind, machine};

const SUM: Item = Item::Plain(Op::Compute {
    code: Code::Add,
    to: 3,
    left: Operand::Held(0),
    right: Operand::Number(1),
});

const SUM_OF_VALUES: Item = Item::Plain(Op::Compute {
    code: Code::Add,
    to: 3,
    left: Operand::Held(0),
    right: Operand::Held(2),
});

const TEST: Item = Item::Plain(Op::Compute {
    code: Code::ToBranch(Compare::Lt),
    to: 5,
    left: Operand::Held(0),
    right: Operand::Number(1),
});

const INPUT: Item = Item::Plain(Op::Input { to: 3 });

const COPY: Item = Item::Plain(Op::Across { to: 4, from: 0 });

const SPLIT: Item = Item::Split { test: 5 };

const fn on(cluster: u32, item: Item) -> ClusteredItem {
    ClusteredItem { cluster, item }
}

/// Value 0 has its home on cluster 0.
fn homes(alloc: Global) -> Result<Homes, NoMemory> {
    Ok(Homes {
        clusters: Listed::from_vec(vec![in alloc; Some(0)]?)?,
    })
}

fn has_room_for_sums(homes: &Homes) -> bool {
    let one = on(0, SUM);
    let machine = Machine::vex(1);
    has_room(&machine, homes, &[one, one, one, one])
        && !has_room(&machine, homes, &[one, one, one, one, one])
        && !has_room(&machine, homes, &[on(1, COPY)])
}

fn has_room_for_two(homes: &Homes) -> bool {
    let one = on(0, SUM);
    let far = on(1, SUM_OF_VALUES);
    let copy = on(1, COPY);
    let split = on(0, SPLIT);
    let machine = Machine::vex(2);
    has_room(&machine, homes, &[one, one, one, split, far, copy, copy])
        && !has_room(&machine, homes, &[one, one, split, split])
}

/// A word has room for as many splits as the machine has branches.
fn has_room_for_splits(alloc: Global, homes: &Homes) -> Result<bool, NoMemory> {
    let split = on(0, SPLIT);
    let two = machine(alloc, Kind::TwoBranches)?;
    Ok(
        has_room(&two, homes, &[split, split])
            && !has_room(&two, homes, &[split, split, split])
            && !has_room(&Machine::vex(1), homes, &[split, split]),
    )
}

fn have_homes(homes: &Homes) -> bool {
    home_of(homes, 0) == Some(0) && home_of(homes, 1) == None
}

#[test]
fn items_have_room_or_none(rt: HostRuntime) -> Result<(), Fail> {
    let alloc = rt.alloc();
    let homes = homes(alloc)?;
    assert!(rt; has_room_for_splits(alloc, &homes)?);
    assert!(rt; has_room_for_sums(&homes) && has_room_for_two(&homes));
    assert!(rt; have_homes(&homes));
    Ok(())
}

/// An item, its unit, whether it can be seen, whether it writes a general value, its read ports, and its latency on the default
/// machine.
const NEEDS: [(Item, UnitKind, bool, bool, u32, u32); 6] = [
    (SUM, UnitKind::Alu, false, true, 1, 1),
    (SUM_OF_VALUES, UnitKind::Alu, false, true, 2, 1),
    (TEST, UnitKind::Alu, false, false, 1, 2),
    (INPUT, UnitKind::Memory, true, true, 0, 3),
    (COPY, UnitKind::Copies, false, true, 1, 1),
    (SPLIT, UnitKind::Control, false, false, 0, 0),
];

fn needs(row: &(Item, UnitKind, bool, bool, u32, u32)) -> bool {
    let (item, unit, observable, general, ports, latency) = row;
    item.unit() == *unit
        && item.is_observable() == *observable
        && item.writes_general() == *general
        && item.read_ports() == *ports
        && item.latency(&Machine::vex(1)) == *latency
}

#[test]
fn needs_of_items(rt: HostRuntime) {
    assert!(rt; NEEDS.iter().all(|row| needs(row)));
    assert!(rt; SPLIT.is_split() && !SUM.is_split());
}
