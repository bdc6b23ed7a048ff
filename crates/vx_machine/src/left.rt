// What a cluster has left in a word, and what something takes of it: the test of words (fit.rt) and that for room (vx_room) count by it.

ghost use Rattle.std.specs.Prelude.{◌≡◌, true};
ghost use Rattle.vx_machine.specs.Left.{limits, covers, less};

use crate::Machine;

/// Slots, units and ports of a cluster.
#[derive(Clone, Copy)]
pub struct Left {
    /// Issue slots.
    pub slots: u32,
    /// ALUs.
    pub alus: u32,
    /// Multipliers.
    pub multipliers: u32,
    /// Memory units.
    pub memory_units: u32,
    /// Read ports.
    pub read_ports: u32,
    /// Write ports.
    pub write_ports: u32,
}

/// What each cluster of the machine has.
pub fn limits(machine: &Machine) -> Left
    ensures { result ≡ limits machine.now }
{
    Left {
        slots: machine.issue(),
        alus: machine.alus(),
        multipliers: machine.multipliers(),
        memory_units: machine.memory_units(),
        read_ports: machine.read_ports(),
        write_ports: machine.write_ports(),
    }
}

/// Whether so much is left.
pub fn covers(left: Left, need: Left) -> bool
    ensures { result ≡ covers left need }
{
    need.slots <= left.slots
        && need.alus <= left.alus
        && need.multipliers <= left.multipliers
        && need.memory_units <= left.memory_units
        && need.read_ports <= left.read_ports
        && need.write_ports <= left.write_ports
}

/// What is left without so much.
pub fn less(left: Left, need: Left) -> Left
    requires { covers left need ≡ true }
    ensures { result ≡ less left need }
{
    Left {
        slots: left.slots - need.slots,
        alus: left.alus - need.alus,
        multipliers: left.multipliers - need.multipliers,
        memory_units: left.memory_units - need.memory_units,
        read_ports: left.read_ports - need.read_ports,
        write_ports: left.write_ports - need.write_ports,
    }
}
